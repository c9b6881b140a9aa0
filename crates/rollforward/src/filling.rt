//! The filling of a volume of a node with records.
ghost use Rattle.std.specs.Prelude.{◌≡◌, ℕ, Some, Err, OnOk};
ghost use Rattle.disk_model.specs.Devices.{AreImages, DeviceAt, DevicesTell, RoseAt};
ghost use Rattle.disk_model.specs.Held.{Held};
ghost use Rattle.tmf_model.specs.Config.{IsDeclared, IsValidConfig, IsWithin};
ghost use Rattle.block_cache.specs.Volume.{HasBase};
ghost use Rattle.volume_recovery.specs.VolumeNode.{volume_device};
ghost use Rattle.rollforward.specs.Filled.{FillsOnly, HaveRoom, IsFilled, MayFill, base_filled};

use crate::errors::FillError;
use crate::gather::gather;
use crate::newest::BEFORE_VOLUMES;
use crate::volume::fill_volume;
use block_cache::Blocks;
use disk_model::{Bay, Disk};
use keyed_file::{BLOCK_BYTES, Block, Label};
use std::alloc::Global;
use tmf_model::{Config, Key, Value};

/// Writes a whole volume with these records and this low position: the label that stands goes first, then each data file is made, block by block,
/// and at last the label. Records of files that lie elsewhere are passed over, and of two with one key the later counts. What a crash leaves on
/// the way is as before, or the volume has no label, or it is the whole new volume: so on a volume that is lost in each image, each image is lost
/// until the gate of the label is written. Memory is taken before anything is written, for the records and one block. It passes once over the records.
pub fn fill<D: Disk>(
    alloc: Global,
    bay: &mut Bay<D>,
    config: &Config,
    volume: u8,
    records: &[(u8, Key, Value)],
    low: u64,
) -> Result<(), FillError>
    requires valid { IsValidConfig config.now × IsDeclared config.now.volumes volume }
    requires low { IsWithin 1 4611686018427387904 low }
    requires room { HaveRoom config.now volume records.now }
    ensures filled { DevicesTell D.tells bay.old → OnOk result (DeviceAt (λ d. IsFilled config.now volume low records.now (D.held d)) bay.new (volume_device volume)) }
    ensures images { (left : ℕ → Held) → DevicesTell D.tells bay.old → AreImages D.held bay.new left
        → OnOk result (HasBase config.now volume (left (volume_device volume)) (Some (base_filled config.now volume low records.now))) }
    ensures every { (left : ℕ → Held) → DevicesTell D.tells bay.old → AreImages D.held bay.new left
        → (images : ℕ → Held) × AreImages D.held bay.old images × MayFill config.now volume low records.now images left }
    ensures frame { FillsOnly D.Disk config.now volume bay.old bay.new }
    ensures cause { (number : ℕ) → result ≡ Err (FillError.Failed number) → (number ≡ volume_device volume) × RoseAt D.faults bay.old bay.new number }
    ensures no_memory { result ≡ Err FillError.NoMemory → bay.new ≡ bay.old }
{
    Blocks::<D>::at_rest();
    let Ok(label) = Label::of_volume(alloc, config, volume, low) else {
        return Err(FillError::NoMemory);
    };
    let Ok(mut block) = Block::empty(alloc, 0, 0) else {
        return Err(FillError::NoMemory);
    };
    let Ok(mut room) = vec![in alloc; 0; BLOCK_BYTES] else {
        return Err(FillError::NoMemory);
    };
    let Ok(groups) = gather(alloc, label.files.as_slice(), records) else {
        return Err(FillError::NoMemory);
    };
    let number = BEFORE_VOLUMES + volume;
    match fill_volume(bay.device(number), &label, &groups, &mut block, &mut room) {
        Ok(()) => Ok(()),
        Err(_) => Err(FillError::Failed(number)),
    }
}
