//! The epochs of a node, and what a recovery does on its monitor trail.
ghost use Rattle.std.specs.Prelude.{◌≡◌, ◌⊎◌, ◌<◌, ◌≤◌, ◌+◌, ◌^◌, ◌++◌, ◌∷◌, [], ℕ, List, length, true, Some, Err, IsTrue, IfOk, IfErr, OnOk};
ghost use Rattle.disk_model.specs.Devices.{AreLater, RoseAt, SameBut, held_at};
ghost use Rattle.disk_model.specs.Held.{Held, Leaves};
ghost use Rattle.trail_files.specs.declared.monitor_record.MonitorRecord.{MonitorRecord};
ghost use Rattle.trail_files.specs.declared.monitor_record.MonitorRecord.TheVariants.{Start};
ghost use Rattle.trail_files.specs.MonitorOrder.{last_epoch};
ghost use Rattle.trail_files.specs.MonitorRecord.{monitor_format};
ghost use Rattle.trail_files.specs.Text.{Spells};
ghost use Rattle.trail_files.specs.Trail.{IsWritable, Rests};
ghost use Rattle.volume_recovery.specs.MonitorDevice.{HasResting, first_tells, in_bay};
ghost use Rattle.volume_recovery.specs.Node.{next_epoch};
ghost use Rattle.volume_recovery.specs.VolumeLoop.{IsPlain};

use crate::errors::RecoverError;
use crate::landing::land;
use crate::monitor_device::MonitorDevice;
use disk_model::Disk;
use tmf_model::Sequence;
use trail_files::{MonitorRecord, Trail, TrailPhase};
use trail_replay::MONITOR;

/// What a recovery has found.
#[derive(Drop)]
pub struct Recovered {
    /// The records of the monitor trail, without the Start that the recovery has landed.
    pub records: Sequence<MonitorRecord>,
    /// The numbers of the volumes that are lost, in rising order.
    pub lost: Sequence<u8>,
    /// The epoch whose Start it has landed.
    pub epoch: u32,
}

/// The epoch of the last Start.
fn last_begun(records: &[MonitorRecord]) -> Option<u32>
    ensures { result ≡ last_epoch records.now }
{
    let mut last = None;
    let mut rest = records;
    while let Some((item, more)) = rest.split_first() {
        if let MonitorRecord::Start(epoch) = item {
            last = Some(*epoch);
        }
        rest = more;
    }
    last
}

/// The epoch behind that of the last Start.
pub(crate) fn following_epoch(records: &[MonitorRecord]) -> Result<u32, RecoverError>
    ensures next { IfOk result (λ epoch. epoch ≡ next_epoch records.now) }
    ensures fits { IfOk result (λ epoch. epoch < 2 ^ 32) }
    ensures spent { IfErr result (λ e. (e ≡ RecoverError.EpochsSpent) × (last_epoch records.now ≡ Some 4294967295)) }
    ensures few { length records.now + 1 < 2 ^ 64 }
{
    match last_begun(records) {
        None => Ok(1),
        Some(u32::MAX) => Err(RecoverError::EpochsSpent),
        Some(epoch) => Ok(epoch + 1),
    }
}

/// Lands the Start of an epoch on the monitor trail, which is open.
pub(crate) fn start_monitor<D: Disk>(
    monitor: &mut Trail<MonitorDevice<'_, D>, MonitorRecord>,
    epoch: u32,
) -> Result<(), RecoverError>
    requires begun { 1 ≤ epoch }
    requires ready { monitor.old.phase ≡ TrailPhase.Ready }
    requires writable { IsWritable (in_bay D.Disk).tells (in_bay D.Disk).held monitor.old }
    ensures rests { (list : List MonitorRecord) → IsTrue (first_tells D.tells monitor.old.device.bay.now) → HasResting D.Disk monitor.old list
        → monitor_format.in_order (list ++ Start epoch ∷ []) ≡ true → OnOk result (Rests monitor_format (held_at D.held monitor.new.device.bay.now 0) (list ++ Start epoch ∷ [])) }
    ensures kept { (list : List MonitorRecord) (image : Held) → IsTrue (first_tells D.tells monitor.old.device.bay.now) → HasResting D.Disk monitor.old list → monitor_format.may_end list ≡ true
        → monitor_format.in_order (list ++ Start epoch ∷ []) ≡ true → Leaves (held_at D.held monitor.new.device.bay.now 0) image
        → Spells monitor_format image list ⊎ Spells monitor_format image (list ++ Start epoch ∷ []) }
    ensures plain { IfErr result IsPlain }
    ensures others { SameBut 0 monitor.old.device.bay.now monitor.new.device.bay.now }
    ensures keeps { AreLater D.Disk monitor.old.device.bay.now monitor.new.device.bay.now }
    ensures cause { (number : ℕ) → result ≡ Err (RecoverError.Failed number) → (number ≡ 0) × RoseAt D.faults monitor.old.device.bay.now monitor.new.device.bay.now number }
    ensures same_bay { monitor.new.device.bay.ghost_name ≡ monitor.old.device.bay.ghost_name }
{
    Trail::<MonitorDevice<'_, D>, MonitorRecord>::every_image();
    match land(monitor, &[MonitorRecord::Start(epoch)]) {
        Ok(()) => Ok(()),
        Err(_) => Err(RecoverError::Failed(MONITOR)),
    }
}

#[cfg(test)]
mod tests {
    use super::*;

    #[test]
    fn the_greatest_epoch_has_none_behind_it(rt: HostRuntime) {
        let last = MonitorRecord::Start(u32::MAX - 1);
        let greatest = MonitorRecord::Start(u32::MAX);
        assert_eq!(rt; following_epoch(&[]), Ok(1));
        assert_eq!(rt; following_epoch(&[last]), Ok(u32::MAX));
        assert_eq!(rt;
            following_epoch(&[last, greatest]),
            Err(RecoverError::EpochsSpent)
        );
    }
}
