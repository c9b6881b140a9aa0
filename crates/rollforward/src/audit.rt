//! What the trails say of a volume from a dump's start on.
ghost use Rattle.std.specs.Prelude.{◌≡◌, ◌-◌, ℕ, List, [], length, slice_get, Some, IfOk, IfErr, MatchResult};
ghost use Rattle.disk_model.specs.Devices.{AreHeld, DevicesTell};
ghost use Rattle.disk_model.specs.Held.{Held};
ghost use Rattle.tmf_model.specs.Config.{IsDeclared, IsValidConfig, IsWithin};
ghost use Rattle.trail_files.specs.declared.monitor_record.MonitorRecord.{MonitorRecord};
ghost use Rattle.trail_replay.specs.Reading.{HasCommits};
ghost use Rattle.volume_restore.specs.Found.{AreFoundFor, FitsNode};
ghost use Rattle.rollforward.specs.Newest.{HasFailedOn, ReadsOnly};
ghost use Rattle.rollforward.specs.Reading.{HasAudit, HasList, IsFoundFrom, IsMonitor, IsTrailOf, TellsMonitor, TellsOwnTrail, trail_error};
ghost use Rattle.rollforward.specs.Rolls.{IsRollDevice, TellsTrail, trail_on};

use crate::errors::RollError;
use crate::monitor::monitor_commits;
use disk_model::{Bay, Disk};
use std::alloc::Global;
use tmf_model::Config;
use trail_files::TrailFault;
use trail_replay::{Commits, MONITOR};
use volume_restore::{NodeChanges, read_trail};

/// The greatest position. From it on nothing is asked of the other volumes of a trail.
const LAST_POSITION: u64 = 4_611_686_018_427_387_904;

/// What a fault of the trail on this device is to a rollforward.
fn at_trail(device: u8, fault: TrailFault) -> RollError
    ensures { result ≡ trail_error device fault }
{
    match fault {
        TrailFault::Failed => RollError::Failed(device),
        TrailFault::Damaged(damage) => RollError::Damaged(device, damage),
        TrailFault::NoMemory => RollError::NoMemory,
    }
}

/// The trail that a volume is audited to.
fn trail_of(config: &Config, volume: u8) -> u8
    requires valid { IsValidConfig config.now }
    requires declared { IsDeclared config.now.volumes volume }
    ensures trail { result ≡ trail_on config.now volume }
    ensures declared { IsDeclared config.now.trails result }
{
    config.volumes.as_slice()[usize::from(volume) - 1].trail
}

/// The transactions that the monitor trail commits.
fn commits_at<D: Disk>(
    alloc: Global,
    bay: &mut Bay<D>,
    config: &Config,
) -> Result<Commits, RollError>
    ensures told { (images : ℕ → Held) → DevicesTell D.tells bay.old → AreHeld D.held bay.old images → MatchResult result (HasList (images 0)) (TellsMonitor (images 0)) }
    ensures reads { ReadsOnly D.Disk IsMonitor bay.old bay.new }
    ensures cause { IfErr result (HasFailedOn D.faults IsMonitor bay.old bay.new) }
{
    match monitor_commits(alloc, bay.device(MONITOR), config.roll) {
        Ok(commits) => Ok(commits),
        Err(fault) => Err(at_trail(MONITOR, fault)),
    }
}

/// The positions from which on the audit of each volume is wanted: this one of this volume, and none of the others.
fn lows_of(alloc: Global, config: &Config, volume: u8, start: u64) -> Result<Vec<u64>, RollError>
    requires declared { IsDeclared config.now.volumes volume }
    requires start { IsWithin 1 4611686018427387904 start }
    ensures count { IfOk result (λ lows. length lows.items ≡ length config.now.volumes) }
    ensures own { IfOk result (λ lows. slice_get lows.items (volume - 1) ≡ Some start) }
    ensures within { IfOk result (λ lows. (n low : ℕ) → slice_get lows.items n ≡ Some low → IsWithin 1 4611686018427387904 low) }
    ensures err { IfErr result (λ e. e ≡ RollError.NoMemory) }
{
    let Ok(mut lows) = vec![in alloc; LAST_POSITION; config.volumes.len()] else {
        return Err(RollError::NoMemory);
    };
    lows[usize::from(volume) - 1] = start;
    Ok(lows)
}

/// Nothing found of a volume from this position on.
fn nothing_found(
    alloc: Global,
    config: &Config,
    volume: u8,
    start: u64,
) -> Result<NodeChanges, RollError>
    requires declared { IsDeclared config.now.volumes volume }
    requires start { IsWithin 1 4611686018427387904 start }
    ensures fits { IfOk result (FitsNode config.now) }
    ensures none { IfOk result (λ changes. (list : List MonitorRecord) → AreFoundFor config.now volume start [] list changes) }
    ensures err { IfErr result (λ e. e ≡ RollError.NoMemory) }
{
    let lows = lows_of(alloc, config, volume, start)?;
    match NodeChanges::new(alloc, config, &lows) {
        Ok(changes) => Ok(changes),
        Err(_) => Err(RollError::NoMemory),
    }
}

/// What the volume's trail says of it from this position on, with these transactions committed.
fn changes_at<D: Disk>(
    alloc: Global,
    bay: &mut Bay<D>,
    config: &Config,
    volume: u8,
    start: u64,
    commits: &Commits,
) -> Result<NodeChanges, RollError>
    requires valid { IsValidConfig config.now × IsDeclared config.now.volumes volume }
    requires start { IsWithin 1 4611686018427387904 start }
    ensures told { (images : ℕ → Held) (list : List MonitorRecord) → DevicesTell D.tells bay.old → AreHeld D.held bay.old images → HasCommits list commits.now
        → MatchResult result (HasAudit config.now volume start list (images (trail_on config.now volume))) (TellsOwnTrail config.now volume (images (trail_on config.now volume))) }
    ensures fits { IfOk result (FitsNode config.now) }
    ensures reads { ReadsOnly D.Disk (IsTrailOf config.now volume) bay.old bay.new }
    ensures cause { IfErr result (HasFailedOn D.faults (IsTrailOf config.now volume) bay.old bay.new) }
{
    let mut changes = nothing_found(alloc, config, volume, start)?;
    let trail = trail_of(config, volume);
    match read_trail(
        alloc,
        bay.device(trail),
        config,
        trail,
        commits,
        &mut changes,
    ) {
        Ok(()) => Ok(changes),
        Err(fault) => Err(at_trail(trail, fault)),
    }
}

/// What the trails say of a volume from this position on: the monitor trail is read first, and then the volume's own. They write nothing.
pub fn read_audit<D: Disk>(
    alloc: Global,
    bay: &mut Bay<D>,
    config: &Config,
    volume: u8,
    start: u64,
) -> Result<NodeChanges, RollError>
    requires valid { IsValidConfig config.now × IsDeclared config.now.volumes volume }
    requires start { IsWithin 1 4611686018427387904 start }
    ensures told { (images : ℕ → Held) → DevicesTell D.tells bay.old → AreHeld D.held bay.old images
        → MatchResult result (IsFoundFrom config.now volume start images) (TellsTrail config.now volume images) }
    ensures fits { IfOk result (FitsNode config.now) }
    ensures reads { ReadsOnly D.Disk (IsRollDevice config.now volume) bay.old bay.new }
    ensures cause { IfErr result (HasFailedOn D.faults (IsRollDevice config.now volume) bay.old bay.new) }
{
    let commits = commits_at(alloc, bay, config)?;
    changes_at(alloc, bay, config, volume, start, &commits)
}
