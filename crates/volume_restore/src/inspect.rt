//! What a volume is before its recovery: its low position, and whether it is lost, damaged, or without room.
ghost use Rattle.std.specs.Prelude.{◌≡◌, ◌≢◌, ◌≤◌, ℕ, List, None, Some, Ok, IsTrue, IfOk, IfErr, IfSome, OnOk, MatchResult, length};
ghost use Rattle.disk_model.specs.Frame.{IsLater};
ghost use Rattle.disk_model.specs.Held.{Held, Rose};
ghost use Rattle.tmf_model.specs.Config.{IsDeclared, IsValidConfig, IsWithin};
ghost use Rattle.tmf_model.specs.declared.config.Config.{Config};
ghost use Rattle.keyed_file.specs.Volume.{Contents, SpellsVolume, label_of};
ghost use Rattle.block_cache.specs.Blocks.{OnlyReads};
ghost use Rattle.block_cache.specs.LabelDamage.{TellsAttach};
ghost use Rattle.trail_replay.specs.declared.replay.FoundFiles.{FoundFiles};
ghost use Rattle.trail_replay.specs.Replay.{maps_of};
ghost use Rattle.volume_restore.specs.Damage.{AreBlocksFine};
ghost use Rattle.volume_restore.specs.Found.{FitsNode};
ghost use Rattle.volume_restore.specs.Inspected.{LowCause, TellsBad, TellsDamaged, TellsInspected, TellsLow, TellsRoom};
ghost use Rattle.volume_restore.specs.Pass.{AreShown};
ghost use Rattle.volume_restore.specs.Restored.{VolumeCause};

use crate::changes::NodeChanges;
use crate::fault::{VolumeFault, handed_back};
use crate::find::{Needed, Recovery, find_changes};
use crate::laws::spelled_volume_law;
use block_cache::{AttachFault, Blocks};
use disk_model::Disk;
use keyed_file::{label_spelling_law, spelling_length_law};
use std::alloc::Global;
use tmf_model::Config;
use trail_files::Damage;
use trail_replay::FoundFiles;

/// What a volume that is not damaged is before its recovery.
#[derive(Clone, Copy, Debug, Drop, PartialEq, Eq)]
pub enum Inspected {
    /// It has no label.
    Lost,
    /// Each of its blocks has room for what it gets.
    Ready,
    /// This block is the first that would hold more than 62 keys.
    Full(Damage),
}

/// What the fault of an opening leaves of the low position.
fn low_of_fault(fault: AttachFault) -> Result<Option<u64>, VolumeFault>
    ensures told { (config : Config) (volume : ℕ) (held : Held) → TellsAttach (label_of config volume 1) held fault → IfOk result (TellsLow config volume held) }
    ensures none { IfOk result (λ low. (low ≡ None) × (fault ≢ AttachFault.Failed) × (fault ≢ AttachFault.NoMemory)) }
    ensures cause { (before now : ℕ) → (fault ≡ AttachFault.Failed → Rose before now) → IfErr result (LowCause before now) }
{
    match fault {
        AttachFault::Lost => Ok(None),
        AttachFault::Damaged(_) => Ok(None),
        AttachFault::Failed => Err(VolumeFault::Failed),
        AttachFault::NoMemory => Err(VolumeFault::NoMemory),
    }
}

/// The low position of a volume's label; none where the volume is lost, or its label is damaged, which its inspection tells. It writes nothing.
pub fn read_low<E: Disk>(
    alloc: Global,
    device: &mut E,
    config: &Config,
    volume: u8,
) -> Result<Option<u64>, VolumeFault>
    requires valid { IsValidConfig config.now × IsDeclared config.now.volumes volume }
    ensures told { IsTrue (E.tells device.old) → IfOk result (TellsLow config.now volume (E.held device.old)) }
    ensures low { (was : Contents) (low : ℕ) → IsTrue (E.tells device.old) → SpellsVolume (label_of config.now volume low) (E.held device.old) was → IfOk result (λ found. found ≡ Some low) }
    ensures within { IfOk result (λ found. IfSome found (IsWithin 1 4611686018427387904)) }
    ensures same { E.held device.new ≡ E.held device.old }
    ensures keeps { IsLater E.Disk device.old device.new }
    ensures cause { IfErr result (LowCause (E.faults device.old) (E.faults device.new)) }
{
    label_spelling_law();
    spelling_length_law();
    spelled_volume_law();
    match Blocks::<&mut E>::attach(alloc, device, config, volume, 1) {
        Err(refused) => {
            let low = low_of_fault(refused.1);
            let _device = handed_back(refused);
            low
        }
        Ok(blocks) => {
            let position = blocks.low();
            let _device = blocks.into_device();
            Ok(Some(position))
        }
    }
}

/// Whether each block of a volume that was just opened is right, and has room for what it gets by what was found.
fn inspect_blocks<D: Disk>(
    alloc: Global,
    blocks: &mut Blocks<D>,
    config: &Config,
    volume: u8,
    files: &FoundFiles,
    next: u64,
) -> Result<Inspected, VolumeFault>
    requires valid { IsValidConfig config.now }
    requires found { (length (maps_of files.now) ≡ length config.now.files) × IsWithin 1 4611686018427387904 next }
    ensures told { IsTrue (D.tells blocks.old.device) → MatchResult result
        (λ is. AreBlocksFine config.now volume (D.held blocks.old.device) × TellsRoom config.now volume files.now (AreShown config.now volume (D.held blocks.old.device)) is)
        (TellsBad config.now volume (D.held blocks.old.device)) }
    ensures reads { OnlyReads D.Disk blocks.old blocks.new }
    ensures cause { IfErr result (VolumeCause (D.faults blocks.old.device) (D.faults blocks.new.device)) }
{
    let recovery = Recovery {
        next,
        is_fine: false,
    };
    match find_changes(alloc, blocks, config, volume, files, recovery)? {
        Needed::Changes(_) => Ok(Inspected::Ready),
        Needed::Full(damage) => Ok(Inspected::Full(damage)),
    }
}

/// What the fault of an opening is to an inspection.
fn inspected_fault(fault: AttachFault) -> Result<Inspected, VolumeFault>
    ensures told { (config : Config) (volume : ℕ) (files : FoundFiles) (held : Held) → TellsAttach (label_of config volume 1) held fault → MatchResult result (TellsInspected config volume files held) (TellsDamaged config volume held) }
    ensures cause { (before now : ℕ) → (fault ≡ AttachFault.Failed → Rose before now) → IfErr result (VolumeCause before now) }
{
    match fault {
        AttachFault::Lost => Ok(Inspected::Lost),
        AttachFault::Damaged(damage) => Err(VolumeFault::Damaged(damage)),
        AttachFault::Failed => Err(VolumeFault::Failed),
        AttachFault::NoMemory => Err(VolumeFault::NoMemory),
    }
}

/// Whether a volume can be recovered by these changes: it is lost, or ready, or a block would hold too much. Damage is told where it is first: of the
/// label, or else of a block. It writes nothing.
pub fn inspect_volume<E: Disk>(
    alloc: Global,
    device: &mut E,
    config: &Config,
    volume: u8,
    changes: &NodeChanges,
) -> Result<Inspected, VolumeFault>
    requires valid { IsValidConfig config.now × IsDeclared config.now.volumes volume }
    requires fits { FitsNode config.now changes.now }
    ensures told { IsTrue (E.tells device.old) → MatchResult result (TellsInspected config.now volume changes.now.files (E.held device.old)) (TellsDamaged config.now volume (E.held device.old)) }
    ensures same { E.held device.new ≡ E.held device.old }
    ensures keeps { IsLater E.Disk device.old device.new }
    ensures cause { IfErr result (VolumeCause (E.faults device.old) (E.faults device.new)) }
{
    label_spelling_law();
    spelling_length_law();
    let next = changes.next_of(volume);
    match Blocks::<&mut E>::attach(alloc, device, config, volume, 1) {
        Err(refused) => {
            let fault = inspected_fault(refused.1);
            let _device = handed_back(refused);
            fault
        }
        Ok(opened) => {
            let mut blocks = opened;
            let inspected = inspect_blocks(
                alloc,
                &mut blocks,
                config,
                volume,
                changes.files(),
                next,
            );
            let _device = blocks.into_device();
            inspected
        }
    }
}
