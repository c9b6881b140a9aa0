//! The recovery of one volume of a node, from its device and what the trails say.
ghost use Rattle.std.specs.Prelude.{◌≡◌, ◌≢◌, ℕ, List, true, Ok, Err, IsTrue, IfOk, IfErr, OnOk, MatchResult};
ghost use Rattle.disk_model.specs.Frame.{IsLater};
ghost use Rattle.disk_model.specs.Held.{Held, Leaves, Rose};
ghost use Rattle.tmf_model.specs.Config.{IsDeclared, IsValidConfig};
ghost use Rattle.tmf_model.specs.declared.config.Config.{Config};
ghost use Rattle.keyed_file.specs.Volume.{Contents, label_of};
ghost use Rattle.trail_files.specs.declared.audit_record.AuditRecord.{AuditRecord};
ghost use Rattle.trail_files.specs.declared.monitor_record.MonitorRecord.{MonitorRecord};
ghost use Rattle.block_cache.specs.LabelDamage.{TellsAttach};
ghost use Rattle.block_cache.specs.Volume.{RestsFor};
ghost use Rattle.trail_replay.specs.declared.replay.FoundFiles.{FoundFiles};
ghost use Rattle.volume_restore.specs.Bases.{IsRewritten, MayRewrite};
ghost use Rattle.volume_restore.specs.Found.{AreFoundFor, FitsNode};
ghost use Rattle.volume_restore.specs.Inspected.{HasFineBlocks, HoldsVolume, LeavesFiles, TellsRecovered, TellsRefused};
ghost use Rattle.volume_restore.specs.Restored.{VolumeCause};

use crate::changes::NodeChanges;
use crate::fault::{VolumeFault, handed_back};
use crate::find::Recovery;
use crate::restore::restore_volume;
use block_cache::{AttachFault, Blocks};
use disk_model::Disk;
use keyed_file::{label_spelling_law, spelling_length_law};
use std::alloc::Global;
use tmf_model::Config;

/// What the fault of an opening is to a recovery: none where the volume is lost.
fn recovered_fault(fault: AttachFault) -> Result<bool, VolumeFault>
    ensures told { (config : Config) (volume : ℕ) (files : FoundFiles) (held : Held) → TellsAttach (label_of config volume 1) held fault → MatchResult result (TellsRecovered config volume files held) (TellsRefused config volume files held) }
    ensures lost { IfOk result (λ _. fault ≡ AttachFault.Lost) }
    ensures cause { (before now : ℕ) → (fault ≡ AttachFault.Failed → Rose before now) → IfErr result (VolumeCause before now) }
{
    match fault {
        AttachFault::Lost => Ok(false),
        AttachFault::Damaged(damage) => Err(VolumeFault::Damaged(damage)),
        AttachFault::Failed => Err(VolumeFault::Failed),
        AttachFault::NoMemory => Err(VolumeFault::NoMemory),
    }
}

/// That a volume was recovered, where its blocks were.
fn answered(restored: Result<(), VolumeFault>) -> Result<bool, VolumeFault>
    ensures ok { OnOk restored (result ≡ Ok true) }
    ensures err { IfErr restored (λ e. result ≡ Err e) }
{
    match restored {
        Ok(()) => Ok(true),
        Err(fault) => Err(fault),
    }
}

/// Recovers a volume, unless it is lost, and answers whether it did: each block gets what was found of its keys, and then the label its disc's next
/// position. Whatever a crash leaves on the way is the volume with its old low position, and each block as it was or recovered, or the
/// recovered volume. Once it is done a volume that was at rest is at rest. A volume that is known to be fine, as its inspection tells, is read no
/// further than what was found asks.
pub fn recover_volume<E: Disk>(
    alloc: Global,
    device: &mut E,
    config: &Config,
    volume: u8,
    changes: &NodeChanges,
    is_fine: bool,
) -> Result<bool, VolumeFault>
    requires valid { IsValidConfig config.now × IsDeclared config.now.volumes volume }
    requires fits { FitsNode config.now changes.now }
    ensures every { (was : Contents) (low : ℕ) (audit : List AuditRecord) (list : List MonitorRecord) (image : Held) → IsTrue (E.tells device.old) → HoldsVolume config.now volume low (E.held device.old) was
        → AreFoundFor config.now volume low audit list changes.now → Leaves (E.held device.new) image → MayRewrite config.now volume low was audit list image }
    ensures whole { (was : Contents) (low : ℕ) (audit : List AuditRecord) (list : List MonitorRecord) → IsTrue (E.tells device.old) → HoldsVolume config.now volume low (E.held device.old) was
        → AreFoundFor config.now volume low audit list changes.now
        → IfOk result (λ found. (found ≡ true) × ((image : Held) → Leaves (E.held device.new) image → IsRewritten config.now volume low was audit list image)) }
    ensures told { IsTrue (E.tells device.old) → (is_fine ≡ true → HasFineBlocks config.now volume (E.held device.old)) → MatchResult result (TellsRecovered config.now volume changes.now.files (E.held device.old)) (TellsRefused config.now volume changes.now.files (E.held device.old)) }
    ensures left { IsTrue (E.tells device.old) → LeavesFiles config.now volume is_fine changes.now.files (E.held device.old) (E.held device.new) result }
    ensures rests { IsTrue (E.tells device.old) → RestsFor (label_of config.now volume 1) (E.held device.old) → OnOk result (RestsFor (label_of config.now volume 1) (E.held device.new)) }
    ensures keeps { IsLater E.Disk device.old device.new }
    ensures cause { IfErr result (VolumeCause (E.faults device.old) (E.faults device.new)) }
{
    label_spelling_law();
    spelling_length_law();
    Blocks::<E>::at_rest();
    let next = changes.next_of(volume);
    match Blocks::<&mut E>::attach(alloc, device, config, volume, 1) {
        Err(refused) => {
            let fault = recovered_fault(refused.1);
            let _device = handed_back(refused);
            fault
        }
        Ok(opened) => {
            let mut blocks = opened;
            let restored = restore_volume(
                alloc,
                &mut blocks,
                config,
                volume,
                changes.files(),
                Recovery { next, is_fine },
            );
            let _device = blocks.into_device();
            answered(restored)
        }
    }
}
