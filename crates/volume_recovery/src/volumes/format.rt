//! The format of a node's devices, those of its volumes and dumps among them.
ghost use Rattle.std.specs.Prelude.{◌≡◌, ◌⊎◌, ◌≤◌, ◌∷◌, [], ℕ, slice_get, None, Err, OnOk, OnErr};
ghost use Rattle.disk_model.specs.Held.{Held};
ghost use Rattle.disk_model.specs.Devices.{AreLater, DevicesTell, AreHeld, AreImages, DeviceAt, HoldSame, RoseAt, SameBut};
ghost use Rattle.tmf_model.specs.Config.{IsDeclared, IsValidConfig};
ghost use Rattle.tmf_model.specs.RecordMap.{empty_map};
ghost use Rattle.trail_files.specs.declared.monitor_record.MonitorRecord.TheVariants.{Start};
ghost use Rattle.volume_recovery.specs.VolumeFormat.{AreMadeAnew, HasNewVolume, HasNoDump, IsDumpDevice, IsNodeDevice, IsVolumeDevice, volume_error};
ghost use Rattle.volume_recovery.specs.VolumeNode.{AreLowered, RestsWithVolumes, StandsWithVolumes, dump_device, volume_device};

use crate::errors::FormatError;
use crate::format::{begin_monitor, clear_monitor, format_trails};
use block_cache::Blocks;
use disk_model::{Bay, Disk};
use std::alloc::Global;
use tmf_model::Config;
use trail_files::{AuditRecord, MonitorRecord, Trail};
use volume_restore::{FormatFault, clear_dump, format_volume};

/// A volume's device has this number more than the volume.
pub(crate) const VOLUMES: u8 = 4;

/// The device of its dumps has this number more.
pub(crate) const DUMPS: u8 = 12;

/// What the fault of a volume's format is to that of the node.
fn of_volume(device: u8, fault: FormatFault) -> FormatError
    ensures { result ≡ volume_error device fault }
{
    match fault {
        FormatFault::Failed => FormatError::Failed(device),
        FormatFault::NoMemory => FormatError::NoMemory,
    }
}

/// Makes the volume with this number anew, without records.
fn make_volume<D: Disk>(
    alloc: Global,
    bay: &mut Bay<D>,
    config: &Config,
    volume: u8,
) -> Result<(), FormatError>
    requires valid { IsValidConfig config.now }
    requires declared { IsDeclared config.now.volumes volume }
    requires few { volume ≤ 8 }
    ensures made { DevicesTell D.tells bay.old → OnOk result (HasNewVolume D.held config.now bay.new volume) }
    ensures others { SameBut (volume_device volume) bay.old bay.new }
    ensures keeps { AreLater D.Disk bay.old bay.new }
    ensures cause { (number : ℕ) → result ≡ Err (FormatError.Failed number) → (number ≡ volume_device volume) × RoseAt D.faults bay.old bay.new number }
{
    let number = VOLUMES + volume;
    match format_volume(alloc, bay.device(number), config, volume) {
        Ok(()) => Ok(()),
        Err(fault) => Err(of_volume(number, fault)),
    }
}

/// Makes each volume of the configuration anew, without records.
fn make_volumes<D: Disk>(
    alloc: Global,
    bay: &mut Bay<D>,
    config: &Config,
) -> Result<(), FormatError>
    requires { IsValidConfig config.now }
    ensures made { DevicesTell D.tells bay.old → OnOk result ((volume : ℕ) → IsDeclared config.now.volumes volume → HasNewVolume D.held config.now bay.new volume) }
    ensures others { (n : ℕ) → ¬ IsVolumeDevice config.now n → slice_get bay.new n ≡ slice_get bay.old n }
    ensures keeps { AreLater D.Disk bay.old bay.new }
    ensures cause { (number : ℕ) → result ≡ Err (FormatError.Failed number) → IsVolumeDevice config.now number × RoseAt D.faults bay.old bay.new number }
{
    let count = config.volumes.len() as u8;
    let mut volume = 0;
    while volume < count {
        volume += 1;
        make_volume(alloc, bay, config, volume)?;
    }
    Ok(())
}

/// Takes the dump of the volume with this number away, where there is one.
fn clear_dump_of<D: Disk>(bay: &mut Bay<D>, volume: u8) -> Result<(), FormatError>
    requires { volume ≤ 8 }
    ensures cleared { DevicesTell D.tells bay.old → OnOk result (HasNoDump D.held bay.new volume) }
    ensures others { SameBut (dump_device volume) bay.old bay.new }
    ensures keeps { AreLater D.Disk bay.old bay.new }
    ensures cause { (number : ℕ) → result ≡ Err (FormatError.Failed number) → (number ≡ dump_device volume) × RoseAt D.faults bay.old bay.new number }
{
    let number = DUMPS + volume;
    match clear_dump(bay.device(number)) {
        Ok(()) => Ok(()),
        Err(_) => Err(FormatError::Failed(number)),
    }
}

/// Takes the dumps of each volume of the configuration away.
fn clear_dumps<D: Disk>(bay: &mut Bay<D>, config: &Config) -> Result<(), FormatError>
    requires { IsValidConfig config.now }
    ensures cleared { DevicesTell D.tells bay.old → OnOk result ((volume : ℕ) → IsDeclared config.now.volumes volume → HasNoDump D.held bay.new volume) }
    ensures others { (n : ℕ) → ¬ IsDumpDevice config.now n → slice_get bay.new n ≡ slice_get bay.old n }
    ensures keeps { AreLater D.Disk bay.old bay.new }
    ensures cause { (number : ℕ) → result ≡ Err (FormatError.Failed number) → IsDumpDevice config.now number × RoseAt D.faults bay.old bay.new number }
{
    let count = config.volumes.len() as u8;
    let mut volume = 0;
    while volume < count {
        volume += 1;
        clear_dump_of(bay, volume)?;
    }
    Ok(())
}

/// Makes each device of the configuration anew but that of the monitor trail: the trails, then the volumes, then the dump devices.
fn make_others<D: Disk>(alloc: Global, bay: &mut Bay<D>, config: &Config) -> Result<(), FormatError>
    requires { IsValidConfig config.now }
    ensures made { DevicesTell D.tells bay.old → OnOk result (AreMadeAnew D.held config.now bay.new) }
    ensures monitor { slice_get bay.new 0 ≡ slice_get bay.old 0 }
    ensures others { (n : ℕ) → ¬ IsNodeDevice config.now n → slice_get bay.new n ≡ slice_get bay.old n }
    ensures keeps { AreLater D.Disk bay.old bay.new }
    ensures cause { (number : ℕ) → result ≡ Err (FormatError.Failed number) → IsNodeDevice config.now number × RoseAt D.faults bay.old bay.new number }
{
    format_trails(alloc, bay, config)?;
    make_volumes(alloc, bay, config)?;
    clear_dumps(bay, config)
}

/// Makes a node's devices anew: it takes the monitor trail's first file away, then makes each trail of the configuration, each volume and each dump
/// device, and last the monitor trail, whose first record is the Start of epoch 1. After a refusal nothing is said of the other devices until a
/// format succeeds.
pub fn format_node<D: Disk>(
    alloc: Global,
    bay: &mut Bay<D>,
    config: &Config,
) -> Result<(), FormatError>
    requires { IsValidConfig config.now }
    ensures stands { DevicesTell D.tells bay.old → OnOk result ((images : ℕ → Held) → AreImages D.held bay.new images
        → (stands : StandsWithVolumes config.now images (Start 1 ∷ []) empty_map) × AreLowered config.now images (Start 1 ∷ []) empty_map stands) }
    ensures rests { DevicesTell D.tells bay.old → OnOk result ((now : ℕ → Held) → AreHeld D.held bay.new now
        → (rests : RestsWithVolumes config.now now (Start 1 ∷ []) empty_map) × AreLowered config.now now (Start 1 ∷ []) empty_map rests.stands) }
    ensures made { DevicesTell D.tells bay.old → OnOk result (AreMadeAnew D.held config.now bay.new) }
    // The monitor trail's first file goes first, and what follows it is written when each other device is made anew.
    ensures first { DevicesTell D.tells bay.old
        → OnErr result (HoldSame D.held bay.old bay.new ⊎ (DeviceAt (λ d. D.held d 1 ≡ None) bay.new 0 ⊎ AreMadeAnew D.held config.now bay.new)) }
    ensures others { (n : ℕ) → ¬ IsNodeDevice config.now n → slice_get bay.new n ≡ slice_get bay.old n }
    ensures keeps { AreLater D.Disk bay.old bay.new }
    ensures cause { (number : ℕ) → result ≡ Err (FormatError.Failed number) → IsNodeDevice config.now number × RoseAt D.faults bay.old bay.new number }
{
    Trail::<D, AuditRecord>::every_image();
    Trail::<D, MonitorRecord>::every_image();
    Trail::<D, AuditRecord>::one_spelling();
    Blocks::<D>::at_rest();
    clear_monitor(bay)?;
    make_others(alloc, bay, config)?;
    begin_monitor(alloc, bay, config)
}
