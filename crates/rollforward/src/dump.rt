//! The newest dump of a volume, with its body.
ghost use Rattle.std.specs.Prelude.{◌≡◌, ◌≤◌, ℕ, length, IfOk, IfErr, MatchResult};
ghost use Rattle.disk_model.specs.Devices.{AreHeld, DevicesTell};
ghost use Rattle.disk_model.specs.Held.{Held};
ghost use Rattle.tmf_model.specs.Config.{IsDeclared, IsValidConfig, IsWithin};
ghost use Rattle.keyed_file.specs.LabelFormat.{file_row};
ghost use Rattle.keyed_file.specs.Row.{IsRow};
ghost use Rattle.keyed_file.specs.Volume.{files_on};
ghost use Rattle.volume_recovery.specs.VolumeNode.{dump_device};
ghost use Rattle.rollforward.specs.Body.{AreHomes, AreInPlace, AreSpelledIn, homes_in};
ghost use Rattle.rollforward.specs.Newest.{HasFailed, ReadsVolume};
ghost use Rattle.rollforward.specs.Reading.{HasDumped, IsPlaced, TellsBody, roll_error};
ghost use Rattle.rollforward.specs.Rolls.{TellsDump};

use crate::body::read_body;
use crate::errors::RollError;
use crate::homes::homes_of;
use crate::newest::{BEFORE_DUMPS, newest_dump};
use disk_model::{Bay, Disk};
use keyed_file::{Block, Home, Label};
use std::alloc::Global;
use tmf_model::Config;
use volume_restore::VolumeFault;

/// What was read of a dump.
#[derive(Drop)]
pub struct Dumped {
    /// From which position on the audit is wanted.
    pub start: u64,
    /// The places of the volume's blocks, in the order of the body.
    pub homes: Vec<Home>,
    /// The blocks.
    pub blocks: Vec<Block>,
}

/// What a fault of a volume, or of a dump, on this device is to a rollforward.
pub fn at_device(device: u8, fault: VolumeFault) -> RollError
    ensures { result ≡ roll_error device fault }
{
    match fault {
        VolumeFault::Failed => RollError::Failed(device),
        VolumeFault::Damaged(damage) => RollError::Damaged(device, damage),
        VolumeFault::NoMemory => RollError::NoMemory,
    }
}

/// The places of a volume's blocks.
fn places_on(alloc: Global, config: &Config, volume: u8) -> Result<Vec<Home>, RollError>
    requires valid { IsValidConfig config.now × IsDeclared config.now.volumes volume }
    ensures homes { IfOk result (λ homes. homes.items ≡ homes_in (files_on volume 1 config.now.files)) }
    ensures files { IfOk result (λ _. IsRow file_row 0 (files_on volume 1 config.now.files) × (length (files_on volume 1 config.now.files) ≤ 16)) }
    ensures err { IfErr result (λ e. e ≡ RollError.NoMemory) }
{
    let Ok(label) = Label::of_volume(alloc, config, volume, 1) else {
        return Err(RollError::NoMemory);
    };
    match homes_of(alloc, label.files.as_slice()) {
        Ok(homes) => Ok(homes),
        Err(_) => Err(RollError::NoMemory),
    }
}

/// The blocks of a body of the volume with this number.
fn body_at<D: Disk>(
    alloc: Global,
    bay: &mut Bay<D>,
    volume: u8,
    body: u8,
    homes: &[Home],
) -> Result<Vec<Block>, RollError>
    requires volume { IsWithin 1 8 volume }
    requires homes { AreHomes homes.now }
    requires few { length homes.now ≤ 4096 }
    ensures told { (images : ℕ → Held) → DevicesTell D.tells bay.old → AreHeld D.held bay.old images
        → MatchResult result (λ blocks. AreSpelledIn homes.now (images (dump_device volume) body) blocks.items) (TellsBody volume body homes.now (images (dump_device volume))) }
    ensures places { IfOk result (λ blocks. AreInPlace homes.now blocks.items) }
    ensures reads { ReadsVolume D.Disk volume bay.old bay.new }
    ensures cause { IfErr result (HasFailed D.faults volume bay.old bay.new) }
{
    let number = BEFORE_DUMPS + volume;
    match read_body(alloc, bay.device(number), body, homes) {
        Ok(blocks) => Ok(blocks),
        Err(fault) => Err(at_device(number, fault)),
    }
}

/// Reads the newest dump of a volume that is lost: its label, and the body that this names.
pub fn read_dump<D: Disk>(
    alloc: Global,
    bay: &mut Bay<D>,
    config: &Config,
    volume: u8,
) -> Result<Dumped, RollError>
    requires valid { IsValidConfig config.now × IsDeclared config.now.volumes volume }
    ensures told { (images : ℕ → Held) → DevicesTell D.tells bay.old → AreHeld D.held bay.old images
        → MatchResult result (HasDumped config.now volume images) (TellsDump config.now volume images) }
    ensures placed { IfOk result (IsPlaced config.now volume) }
    ensures reads { ReadsVolume D.Disk volume bay.old bay.new }
    ensures cause { IfErr result (HasFailed D.faults volume bay.old bay.new) }
{
    let label = newest_dump(alloc, bay, config, volume)?;
    let homes = places_on(alloc, config, volume)?;
    let blocks = body_at(alloc, bay, volume, label.body, &homes)?;
    Ok(Dumped {
        start: label.start,
        homes,
        blocks,
    })
}
