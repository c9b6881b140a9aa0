//! The listing of a file from its volume.
ghost use Rattle.std.specs.Prelude.{◌≡◌, ℕ, List, Some, Err, IfOk, MatchResult};
ghost use Rattle.disk_model.specs.Held.{Held};
ghost use Rattle.disk_model.specs.Devices.{AreLater, DevicesTell, AreHeld, HoldSame, RoseAt, SameBut};
ghost use Rattle.tmf_model.specs.Config.{IsDeclared, IsValidConfig};
ghost use Rattle.tmf_model.specs.RecordMap.{RecordMap, IsListing};
ghost use Rattle.trail_files.specs.declared.monitor_record.MonitorRecord.{MonitorRecord};
ghost use Rattle.trail_files.specs.StandsFor.{Base};
ghost use Rattle.block_cache.specs.Volume.{HasBase};
ghost use Rattle.volume_restore.specs.Bases.{volume_on};
ghost use Rattle.volume_recovery.specs.VolumeListing.{TellsFile, TellsFileError, file_device, file_error};
ghost use Rattle.volume_recovery.specs.VolumeNode.{AreLowered, StandsWithVolumes};

use super::format::VOLUMES;
use crate::errors::ListError;
use disk_model::{Bay, Disk};
use std::alloc::Global;
use tmf_model::{Config, Key, Value};
use trail_replay::home_of;
use volume_restore::{ListFault, list_volume};

/// What the fault of the listing of a volume's file is to that of the node.
fn of_volume(device: u8, fault: ListFault) -> ListError
    ensures { result ≡ file_error device fault }
{
    match fault {
        ListFault::Lost => ListError::Lost,
        ListFault::Damaged(damage) => ListError::Damaged(device, damage),
        ListFault::Failed => ListError::Failed(device),
        ListFault::NoMemory => ListError::NoMemory,
    }
}

/// The records of a file, by the selected slots of its volume, in rising order of their keys. It reads the device of the file's volume alone, and
/// writes nothing. Over devices whose low positions are their discs' next ones these are the records of the map that the node stands for.
pub fn list_file<D: Disk>(
    alloc: Global,
    bay: &mut Bay<D>,
    config: &Config,
    file: u8,
) -> Result<Vec<(Key, Value)>, ListError>
    requires valid { IsValidConfig config.now }
    requires declared { IsDeclared config.now.files file }
    ensures stands { (images : ℕ → Held) (list : List MonitorRecord) (map : RecordMap) → DevicesTell D.tells bay.old → AreHeld D.held bay.old images
        → (stands : StandsWithVolumes config.now images list map) → AreLowered config.now images list map stands → IfOk result (λ entries. IsListing map file entries.items) }
    // Whatever the other devices hold, and wherever the low position stands.
    ensures listed { (images : ℕ → Held) (base : Base) → DevicesTell D.tells bay.old → AreHeld D.held bay.old images
        → HasBase config.now (volume_on config.now file) (images (file_device config.now file)) (Some base) → IfOk result (λ entries. IsListing base.records file entries.items) }
    // The records are those of the file's own blocks, whatever the other files of its volume hold.
    ensures told { (images : ℕ → Held) → DevicesTell D.tells bay.old → AreHeld D.held bay.old images → MatchResult result (λ entries. TellsFile config.now file (images (file_device config.now file)) entries.items)
        (TellsFileError config.now file (images (file_device config.now file))) }
    ensures same { HoldSame D.held bay.old bay.new }
    ensures others { SameBut (file_device config.now file) bay.old bay.new }
    ensures keeps { AreLater D.Disk bay.old bay.new }
    ensures cause { (number : ℕ) → result ≡ Err (ListError.Failed number) → (number ≡ file_device config.now file) × RoseAt D.faults bay.old bay.new number }
{
    let home = home_of(config, file);
    let number = VOLUMES + home.volume;
    match list_volume(alloc, bay.device(number), config, file) {
        Ok(entries) => Ok(entries),
        Err(fault) => Err(of_volume(number, fault)),
    }
}
