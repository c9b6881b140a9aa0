//! The opening of the monitor trail.
ghost use Rattle.std.specs.Prelude.{◌≡◌, ◌≢◌, ◌+◌, ◌^◌, ◌<◌, true, false, ℕ, List, length, IsTrue, IfOk, IfErr, MatchBool};
ghost use Rattle.disk_model.specs.Held.{Rose};
ghost use Rattle.node_machine.specs.Law.{EndsWithStart};
ghost use Rattle.trail_files.specs.Calls.{KeepsContent};
ghost use Rattle.trail_files.specs.Fault.{IsUndamaged};
ghost use Rattle.trail_files.specs.Trail.{Reads};
ghost use Rattle.trail_files.specs.declared.monitor_record.MonitorRecord.{MonitorRecord};
ghost use Rattle.trail_files.specs.declared.damage.DamageKind.TheVariants.{NoStart};
ghost use Rattle.trail_files.specs.declared.monitor_record.MonitorRecord.TheVariants.{Start};
ghost use Rattle.trail_replay.specs.Rules.{monitor_formats};
ghost use Rattle.run_outcomes.specs.Attaching.{misfit};
ghost use Rattle.run_opening.specs.Kept.{IsMonitorKept, IsMonitorUnfit};
ghost use Rattle.run_opening.specs.Refusal.{IsRefused, TellsAt};

use crate::kept::MonitorKept;
use crate::refusal::{misfit, refusal_by};
use disk_model::Disk;
use run_outcomes::PhaseError;
use std::alloc::Global;
use tmf_model::Config;
use trail_files::{DamageKind, MonitorRecord, Trail, TrailFault};
use trail_replay::rules_of_monitor;

/// The number of the monitor trail's device.
const MONITOR: u8 = 0;

/// The most records that the trail may have: a run adds fewer than 2 ^ 20, each of which needs its number.
const MOST_RECORDS: u64 = u64::MAX - 1_048_576;

/// How many records a trail has, and whether the last one is the start of the epoch.
#[derive(Clone, Copy)]
pub struct Count {
    pub places: u64,
    pub ends: bool,
}

/// Whether the record is the start of the epoch.
fn is_start(item: &MonitorRecord, epoch: u32) -> bool
    ensures { MatchBool result (item.now ≡ Start epoch) (item.now ≢ Start epoch) }
{
    match item {
        MonitorRecord::Start(started) => *started == epoch,
        MonitorRecord::Commit(_) | MonitorRecord::Abort(_) => false,
    }
}

/// Counts the records of an open trail. It writes nothing. Where those that a run may add would have no numbers behind them, this is told as want of memory.
fn count_records<D: Disk>(
    trail: &mut Trail<D, MonitorRecord>,
    epoch: u32,
) -> Result<Count, TrailFault>
    ensures counted { (list : List MonitorRecord) → IsTrue (D.tells trail.old.device) → Reads D.held monitor_formats trail.old list
        → IfOk result (λ count. (count.places ≡ length list) × MatchBool count.ends (EndsWithStart epoch list) (EndsWithStart epoch list → ⊥)) }
    ensures short { IfOk result (λ count. count.places + 2 ^ 20 < 2 ^ 64) }
    ensures undamaged { (list : List MonitorRecord) → IsTrue (D.tells trail.old.device) → Reads D.held monitor_formats trail.old list → IfErr result IsUndamaged }
    ensures frame { KeepsContent D.Disk monitor_formats trail.old trail.new }
    ensures cause { IfErr result (λ e. e ≡ TrailFault.Failed → Rose (D.faults trail.old.device) (D.faults trail.new.device)) }
{
    let mut cursor = trail.cursor();
    let mut count = Count {
        places: 0,
        ends: false,
    };
    while let Some(item) = trail.next(&mut cursor)? {
        if count.places >= MOST_RECORDS {
            return Err(TrailFault::NoMemory);
        }
        count.places += 1;
        count.ends = is_start(&item, epoch);
    }
    Ok(count)
}

/// The monitor trail with its count, if its list ends with the run's start.
fn with_count<D: Disk>(
    trail: Trail<D, MonitorRecord>,
    count: Count,
) -> Result<MonitorKept<D>, (D, PhaseError)>
    ensures kept { IfOk result (λ k. (count.ends ≡ true) × (k ≡ record { trail = trail; places = count.places })) }
    ensures refused { IfErr result (λ e. (count.ends ≡ false) × (e ≡ (trail.device, PhaseError.Damaged 0 (misfit NoStart)))) }
{
    if !count.ends {
        let damage = misfit(DamageKind::NoStart);
        return Err((trail.into_device(), PhaseError::Damaged(MONITOR, damage)));
    }
    Ok(MonitorKept {
        trail,
        places: count.places,
    })
}

/// An open trail with its count. It writes nothing.
fn counted<D: Disk>(
    opened: Trail<D, MonitorRecord>,
    epoch: u32,
) -> Result<MonitorKept<D>, (D, PhaseError)>
    ensures kept { IfOk result (λ k. KeepsContent D.Disk monitor_formats opened k.trail × (k.places + 2 ^ 20 < 2 ^ 64)) }
    ensures list { (list : List MonitorRecord) → IsTrue (D.tells opened.device) → Reads D.held monitor_formats opened list → IfOk result (λ k. (k.places ≡ length list) × EndsWithStart epoch list) }
    ensures refused { IfErr result (λ e. IsRefused D.Disk 0 opened.device e.0 e.1) }
    ensures damage { (list : List MonitorRecord) → IsTrue (D.tells opened.device) → Reads D.held monitor_formats opened list
        → IfErr result (λ e. TellsAt 0 (λ damage. (EndsWithStart epoch list → ⊥) × (damage ≡ misfit NoStart)) e.1) }
{
    let mut trail = opened;
    match count_records(&mut trail, epoch) {
        Ok(count) => with_count(trail, count),
        Err(fault) => Err((trail.into_device(), refusal_by(MONITOR, fault))),
    }
}

/// Opens the monitor trail, whose list has to end with the run's start. It writes nothing.
pub fn open_monitor<D: Disk>(
    alloc: Global,
    config: &Config,
    epoch: u32,
    device: D,
) -> Result<MonitorKept<D>, (D, PhaseError)>
    ensures kept { IfOk result (IsMonitorKept D.Disk config.now epoch device) }
    ensures refused { IfErr result (λ e. IsRefused D.Disk 0 device e.0 e.1) }
    ensures damage { IsTrue (D.tells device) → IfErr result (λ e. TellsAt 0 (IsMonitorUnfit epoch (D.held device)) e.1) }
{
    let rules = rules_of_monitor(alloc, config.roll);
    match Trail::<D, MonitorRecord>::attach(alloc, device, rules) {
        Err((left, fault)) => Err((left, refusal_by(MONITOR, fault))),
        Ok(opened) => counted(opened, epoch),
    }
}
