//! The loss of a volume of a node.
ghost use Rattle.std.specs.Prelude.{ℕ, OnOk, OnErr};
ghost use Rattle.disk_model.specs.Held.{Held};
ghost use Rattle.disk_model.specs.Devices.{AreImages, AreLater, DeviceAt, DevicesTell, RoseAt, SameBut};
ghost use Rattle.tmf_model.specs.Config.{IsWithin};
ghost use Rattle.volume_restore.specs.Formatted.{IsEmptied};
ghost use Rattle.volume_recovery.specs.Losing.{MayLose};
ghost use Rattle.volume_recovery.specs.VolumeNode.{volume_device};

use super::format::VOLUMES;
use disk_model::{Bay, Disk, DiskFault};
use volume_restore::lose_volume;

/// Takes the volume with this number away, 1 to 8: its label first, and then each other file of its device, in rising order. Whatever a crash
/// leaves on the way is as before, or the volume has no label. It fails where the volume's device does, and may be made again.
pub fn lose<D: Disk>(bay: &mut Bay<D>, volume: u8) -> Result<(), DiskFault>
    requires { IsWithin 1 8 volume }
    ensures emptied { DevicesTell D.tells bay.old → OnOk result (DeviceAt (λ d. IsEmptied (D.held d)) bay.new (volume_device volume)) }
    ensures every { (left : ℕ → Held) → DevicesTell D.tells bay.old → AreImages D.held bay.new left
        → (images : ℕ → Held) × AreImages D.held bay.old images × MayLose volume images left }
    ensures others { SameBut (volume_device volume) bay.old bay.new }
    ensures keeps { AreLater D.Disk bay.old bay.new }
    ensures cause { OnErr result (RoseAt D.faults bay.old bay.new (volume_device volume)) }
{
    lose_volume(bay.device(VOLUMES + volume))
}
