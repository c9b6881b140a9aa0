//! The calls of one volume, and of one trail, on the devices of a bay.
ghost use Rattle.std.specs.Prelude.{◌≡◌, ◌≤◌, ℕ, List, true, IfOk, IfErr, OnOk, MatchResult};
ghost use Rattle.disk_model.specs.Devices.{AreHeld, AreLater, DeviceAt, DevicesTell, RoseAt, SameBut};
ghost use Rattle.disk_model.specs.Held.{Held, Leaves};
ghost use Rattle.tmf_model.specs.Config.{IsDeclared, IsValidConfig, IsWithin};
ghost use Rattle.trail_files.specs.declared.audit_record.AuditRecord.{AuditRecord};
ghost use Rattle.trail_files.specs.declared.damage.Damage.{Damage};
ghost use Rattle.trail_files.specs.declared.monitor_record.MonitorRecord.{MonitorRecord};
ghost use Rattle.trail_files.specs.AuditRecord.{audit_format};
ghost use Rattle.trail_files.specs.Fault.{IsUndamaged};
ghost use Rattle.trail_files.specs.Scanned.{TellsOnly};
ghost use Rattle.trail_files.specs.Text.{Spells};
ghost use Rattle.trail_replay.specs.Reading.{HasCommits};
ghost use Rattle.trail_replay.specs.Rules.{rules_of};
ghost use Rattle.trail_replay.specs.Texts.{IsAuditDamage, SpellsAudit};
ghost use Rattle.keyed_file.specs.Volume.{Contents, SpellsVolume, label_of};
ghost use Rattle.volume_restore.specs.Found.{FitsNode, HasTaken};
ghost use Rattle.volume_restore.specs.Inspected.{HasFineBlocks, TellsInspected, TellsRecovered};
ghost use Rattle.volume_recovery.specs.Node.{IsAtRest};
ghost use Rattle.volume_recovery.specs.VolumeLoop.{HasFailed, HoldsImage, IsFoundOf, IsPlain, IsSettledVolume, IsTurnedDown, ReadsBay, TellsVolume, volume_error};
ghost use Rattle.volume_recovery.specs.VolumeNode.{volume_device};
ghost use Rattle.volume_recovery.specs.VolumeRecovery.{LeavesWhole, MayLeave};

use crate::errors::RecoverError;
use block_cache::{Blocks, resting_law};
use disk_model::{Bay, Disk};
use std::alloc::Global;
use tmf_model::Config;
use trail_files::TrailFault;
use trail_replay::Commits;
use volume_restore::{
    Inspected, NodeChanges, VolumeFault, inspect_volume, read_low, read_trail, recover_volume,
};

/// The device before that of the first volume.
pub(crate) const BEFORE_VOLUMES: u8 = 4;

/// The low position that is taken of a volume without a label: nothing of its audit is asked.
const FIRST_POSITION: u64 = 1;

/// What a fault of a volume's device means.
fn at_volume(volume: u8, fault: VolumeFault) -> RecoverError
    requires { volume ≤ 8 }
    ensures { result ≡ volume_error (volume_device volume) fault }
{
    let device = BEFORE_VOLUMES + volume;
    match fault {
        VolumeFault::Failed => RecoverError::Failed(device),
        VolumeFault::Damaged(damage) => RecoverError::Damaged(device, damage),
        VolumeFault::NoMemory => RecoverError::NoMemory,
    }
}

/// The low position of a volume, where its label is fine.
pub(crate) fn low_of<D: Disk>(
    alloc: Global,
    bay: &mut Bay<D>,
    config: &Config,
    volume: u8,
) -> Result<u64, RecoverError>
    requires valid { IsValidConfig config.now × IsDeclared config.now.volumes volume }
    ensures low { (images : ℕ → Held) (low : ℕ) (was : Contents) → DevicesTell D.tells bay.old → AreHeld D.held bay.old images
        → SpellsVolume (label_of config.now volume low) (images (volume_device volume)) was → IfOk result (λ found. found ≡ low) }
    ensures within { IfOk result (IsWithin 1 4611686018427387904) }
    ensures plain { IfErr result IsPlain }
    ensures reads { ReadsBay D.Disk config.now bay.old bay.new }
    ensures cause { IfErr result (HasFailed D.faults config.now bay.old bay.new) }
{
    match read_low(alloc, bay.device(BEFORE_VOLUMES + volume), config, volume) {
        Ok(Some(low)) => Ok(low),
        Ok(None) => Ok(FIRST_POSITION),
        Err(fault) => Err(at_volume(volume, fault)),
    }
}

/// Takes in what the trail with this number says.
pub(crate) fn take_trail<D: Disk>(
    alloc: Global,
    bay: &mut Bay<D>,
    config: &Config,
    trail: u8,
    commits: &Commits,
    changes: &mut NodeChanges,
) -> Result<(), TrailFault>
    requires valid { IsValidConfig config.now × IsDeclared config.now.trails trail }
    requires fits { FitsNode config.now changes.old }
    ensures taken { (images : ℕ → Held) (audit : List AuditRecord) (list : List MonitorRecord) → DevicesTell D.tells bay.old → AreHeld D.held bay.old images
        → Spells (audit_format (rules_of config.now trail)) (images trail) audit → HasCommits list commits.now → OnOk result (HasTaken config.now trail audit list changes.old changes.new) }
    ensures fits { FitsNode config.now changes.new }
    ensures read { (images : ℕ → Held) → DevicesTell D.tells bay.old → AreHeld D.held bay.old images
        → MatchResult result (λ _. SpellsAudit config.now trail (images trail)) (TellsOnly (IsAuditDamage config.now trail (images trail))) }
    ensures undamaged { (images : ℕ → Held) → DevicesTell D.tells bay.old → AreHeld D.held bay.old images → SpellsAudit config.now trail (images trail) → IfErr result IsUndamaged }
    ensures exact { (images : ℕ → Held) (damage : Damage) → DevicesTell D.tells bay.old → AreHeld D.held bay.old images
        → IsAuditDamage config.now trail (images trail) damage → MatchResult result (λ _. ⊥) (TellsOnly (λ told. told ≡ damage)) }
    ensures reads { ReadsBay D.Disk config.now bay.old bay.new }
    ensures cause { IfErr result (λ e. e ≡ TrailFault.Failed → RoseAt D.faults bay.old bay.new trail) }
{
    read_trail(alloc, bay.device(trail), config, trail, commits, changes)
}

/// What the volume with this number is before its recovery.
pub(crate) fn inspect_at<D: Disk>(
    alloc: Global,
    bay: &mut Bay<D>,
    config: &Config,
    volume: u8,
    changes: &NodeChanges,
) -> Result<Inspected, RecoverError>
    requires valid { IsValidConfig config.now × IsDeclared config.now.volumes volume }
    requires fits { FitsNode config.now changes.now }
    ensures told { (images : ℕ → Held) → DevicesTell D.tells bay.old → AreHeld D.held bay.old images
        → MatchResult result (TellsInspected config.now volume changes.now.files (images (volume_device volume))) (TellsVolume config.now volume (images (volume_device volume))) }
    ensures reads { ReadsBay D.Disk config.now bay.old bay.new }
    ensures cause { IfErr result (HasFailed D.faults config.now bay.old bay.new) }
{
    match inspect_volume(
        alloc,
        bay.device(BEFORE_VOLUMES + volume),
        config,
        volume,
        changes,
    ) {
        Ok(inspected) => Ok(inspected),
        Err(fault) => Err(at_volume(volume, fault)),
    }
}

/// Recovers the volume with this number, unless it is lost, and answers whether it did. Its blocks may be known to be fine, as its inspection tells.
pub(crate) fn recover_at<D: Disk>(
    alloc: Global,
    bay: &mut Bay<D>,
    config: &Config,
    volume: u8,
    changes: &NodeChanges,
    is_fine: bool,
) -> Result<bool, RecoverError>
    requires valid { IsValidConfig config.now × IsDeclared config.now.volumes volume }
    requires fits { FitsNode config.now changes.now }
    ensures every { (images : ℕ → Held) (left : Held) (audit : List AuditRecord) (list : List MonitorRecord) → DevicesTell D.tells bay.old → HoldsImage D.held images (volume_device volume) bay.old
        → IsAtRest (images (volume_device volume)) → IsFoundOf config.now volume (images (volume_device volume)) audit list changes.now → DeviceAt (λ d. Leaves (D.held d) left) bay.new (volume_device volume)
        → MayLeave config.now volume audit list (images (volume_device volume)) left }
    ensures whole { (images : ℕ → Held) (left : Held) (audit : List AuditRecord) (list : List MonitorRecord) → DevicesTell D.tells bay.old → HoldsImage D.held images (volume_device volume) bay.old
        → IsAtRest (images (volume_device volume)) → IsFoundOf config.now volume (images (volume_device volume)) audit list changes.now → DeviceAt (λ d. Leaves (D.held d) left) bay.new (volume_device volume)
        → OnOk result (LeavesWhole config.now volume audit list (images (volume_device volume)) left) }
    ensures settled { (images : ℕ → Held) → DevicesTell D.tells bay.old → HoldsImage D.held images (volume_device volume) bay.old → IsAtRest (images (volume_device volume))
        → OnOk result (DeviceAt (λ d. IsSettledVolume config.now volume (images (volume_device volume)) (D.held d)) bay.new (volume_device volume)) }
    ensures told { (images : ℕ → Held) → DevicesTell D.tells bay.old → HoldsImage D.held images (volume_device volume) bay.old
        → (is_fine ≡ true → HasFineBlocks config.now volume (images (volume_device volume)))
        → MatchResult result (TellsRecovered config.now volume changes.now.files (images (volume_device volume))) (IsTurnedDown D.held config.now volume changes.now.files images bay.new) }
    ensures others { SameBut (volume_device volume) bay.old bay.new }
    ensures keeps { AreLater D.Disk bay.old bay.new }
    ensures cause { IfErr result (HasFailed D.faults config.now bay.old bay.new) }
{
    resting_law();
    Blocks::<D>::at_rest();
    match recover_volume(
        alloc,
        bay.device(BEFORE_VOLUMES + volume),
        config,
        volume,
        changes,
        is_fine,
    ) {
        Ok(found) => Ok(found),
        Err(fault) => Err(at_volume(volume, fault)),
    }
}
