//! The rollforward of a lost volume, from its newest dump, its audit and the commits.
ghost use Rattle.std.specs.Prelude.{◌≡◌, ◌⊎◌, ℕ, List, length, IfOk, IfErr, MatchResult};
ghost use Rattle.disk_model.specs.Devices.{AreHeld, AreImages, DevicesTell, HoldSame};
ghost use Rattle.disk_model.specs.Held.{Held};
ghost use Rattle.tmf_model.specs.Config.{IsDeclared, IsValidConfig, IsWithin};
ghost use Rattle.tmf_model.specs.RecordMap.{RecordMap};
ghost use Rattle.keyed_file.specs.Volume.{IsLost};
ghost use Rattle.trail_files.specs.declared.monitor_record.MonitorRecord.{MonitorRecord};
ghost use Rattle.trail_replay.specs.Replay.{maps_of};
ghost use Rattle.volume_recovery.specs.VolumeNode.{RestsWithVolumes, volume_device};
ghost use Rattle.rollforward.specs.Filled.{HaveRoom, base_filled};
ghost use Rattle.rollforward.specs.Newest.{HasFailedOn, ReadsOnly};
ghost use Rattle.rollforward.specs.Reading.{IsPlaced, fill_refused};
ghost use Rattle.rollforward.specs.Rolled.{AreRolled, TellsRolled};
ghost use Rattle.rollforward.specs.RolledNode.{RollsNode};
ghost use Rattle.rollforward.specs.Rolls.{IsFailure, IsRollDevice, IsRolledTo, MayRoll, RollsForward, RollsOnly, TellsRoll};

use crate::audit::read_audit;
use crate::dump::{Dumped, at_device, read_dump};
use crate::errors::{FillError, RollError};
use crate::filling::fill;
use crate::gather::Entry;
use crate::laws::{rolled_law, texts_law};
use crate::newest::BEFORE_VOLUMES;
use crate::rolled::rolled_records;
use disk_model::{Bay, Disk};
use std::alloc::Global;
use tmf_model::Config;
use trail_replay::FoundFiles;
use volume_recovery::volumes::resting_node_law;

/// What a rollforward writes.
#[derive(Drop)]
pub struct Prepared {
    /// The volume's records.
    pub records: Vec<Entry>,
    /// The position that its disc gives out next.
    pub next: u64,
}

/// The records of a dump with the changes made that were found of its keys.
fn rolled_dump(
    alloc: Global,
    config: &Config,
    volume: u8,
    dump: &Dumped,
    files: &FoundFiles,
) -> Result<Vec<Entry>, RollError>
    requires valid { IsValidConfig config.now × IsDeclared config.now.volumes volume }
    requires placed { IsPlaced config.now volume dump.now }
    requires found { length (maps_of files.now) ≡ length config.now.files }
    ensures rolled { IfOk result (λ records. AreRolled dump.now.homes.items dump.now.blocks.items files.now records.items) }
    ensures full { IfErr result (TellsRolled volume dump.now.homes.items dump.now.blocks.items files.now) }
    ensures room { IfOk result (λ records. HaveRoom config.now volume records.items) }
{
    match rolled_records(alloc, &dump.homes, &dump.blocks, files) {
        Ok(records) => Ok(records),
        Err(fault) => Err(at_device(BEFORE_VOLUMES + volume, fault)),
    }
}

/// Reads what a rollforward asks for, in this order: the volume's label, its dump's label and body, the monitor trail and the volume's trail. It
/// writes nothing.
fn prepare<D: Disk>(
    alloc: Global,
    bay: &mut Bay<D>,
    config: &Config,
    volume: u8,
) -> Result<Prepared, RollError>
    requires valid { IsValidConfig config.now × IsDeclared config.now.volumes volume }
    ensures told { (images : ℕ → Held) → DevicesTell D.tells bay.old → AreHeld D.held bay.old images
        → MatchResult result (λ rolled. RollsForward config.now volume images (base_filled config.now volume rolled.next rolled.records.items)) (TellsRoll config.now volume images) }
    ensures room { IfOk result (λ rolled. HaveRoom config.now volume rolled.records.items) }
    ensures low { IfOk result (λ rolled. IsWithin 1 4611686018427387904 rolled.next) }
    ensures reads { ReadsOnly D.Disk (IsRollDevice config.now volume) bay.old bay.new }
    ensures cause { IfErr result (HasFailedOn D.faults (IsRollDevice config.now volume) bay.old bay.new) }
{
    let dump = read_dump(alloc, bay, config, volume)?;
    let changes = read_audit(alloc, bay, config, volume, dump.start)?;
    let records = rolled_dump(alloc, config, volume, &dump, changes.files())?;
    Ok(Prepared {
        records,
        next: changes.next_of(volume),
    })
}

/// What the refusal of a filling is to a rollforward.
fn of_filling(fault: FillError) -> RollError
    ensures { result ≡ fill_refused fault }
{
    match fault {
        FillError::Failed(number) => RollError::Failed(number),
        FillError::NoMemory => RollError::NoMemory,
    }
}

/// Writes a lost volume anew from its newest sealed dump, with the audit from the dump's start on redone or undone by the commits, and answers the
/// position that its disc gives out next, which is the volume's low one. It reads the volume's label, its dump's label and body, the monitor trail and
/// the volume's own trail, in this order, and tells the first of them that is damaged; then it looks for the first block that would hold too much;
/// then it writes, the label last. Until it is done a volume that is lost in each image is lost, or, from the write of the label's gate on, as it is
/// then. It may be made again.
pub fn roll_forward<D: Disk>(
    alloc: Global,
    bay: &mut Bay<D>,
    config: &Config,
    volume: u8,
) -> Result<u64, RollError>
    requires valid { IsValidConfig config.now × IsDeclared config.now.volumes volume }
    ensures rolled { (images : ℕ → Held) → DevicesTell D.tells bay.old → AreHeld D.held bay.old images
        → MatchResult result (IsRolledTo D.held config.now volume images bay.new) (TellsRoll config.now volume images) }
    ensures every { (held left : ℕ → Held) → DevicesTell D.tells bay.old → AreHeld D.held bay.old held → AreImages D.held bay.new left
        → (images : ℕ → Held) × AreImages D.held bay.old images × MayRoll config.now volume held images left }
    // Where a label stands, fine or damaged, nothing is written.
    ensures shut { (images : ℕ → Held) → DevicesTell D.tells bay.old → AreHeld D.held bay.old images → (IsLost (images (volume_device volume)) → ⊥) → HoldSame D.held bay.old bay.new }
    ensures unwritten { IfErr result (λ e. IsFailure e ⊎ HoldSame D.held bay.old bay.new) }
    ensures frame { RollsOnly D.Disk config.now volume bay.old bay.new }
    ensures cause { IfErr result (HasFailedOn D.faults (IsRollDevice config.now volume) bay.old bay.new) }
    // Of devices at rest that stand for a list and a map.
    ensures node { (was : ℕ → Held) (list : List MonitorRecord) (map : RecordMap) → length bay.old ≡ 21 → DevicesTell D.tells bay.old → AreHeld D.held bay.old was → (rests : RestsWithVolumes config.now was list map)
        → RollsNode D.held config.now volume was list map rests result bay.new }
{
    rolled_law::<D>();
    resting_node_law::<D>();
    texts_law::<D>();
    let rolled = prepare(alloc, bay, config, volume)?;
    match fill(alloc, bay, config, volume, &rolled.records, rolled.next) {
        Ok(()) => Ok(rolled.next),
        Err(fault) => Err(of_filling(fault)),
    }
}
