//! Runs: their workers on threads, control points and dumps, and runs that are cut off.
ghost use Rattle.std.specs.Prelude.{◌≡◌, ◌⊎◌, ◌≤◌, List, Option, Some, None, MatchResult, IfErr, IfOk};
ghost use Rattle.disk_model.specs.Devices.{DevicesTell};
ghost use Rattle.tmf_model.specs.Config.{IsValidConfig};
ghost use Rattle.tmf_model.specs.Script.{IsValidPhase};
ghost use Rattle.tmf_model.specs.declared.script.Action.TheVariants.{Run as RunAction};
ghost use Rattle.tmf_cli.specs.declared.node.NodeState.{NodeState};
ghost use Rattle.tmf_cli.specs.AnyDevices.{PrintsNoRun, PrintsRun};
ghost use Rattle.tmf_cli.specs.BetweenActions.{HasBroken, HasDone, Knows, LeavesBay, node_of};
ghost use Rattle.tmf_cli.specs.Countdown.{IsOff};
ghost use Rattle.tmf_cli.specs.Lost.{up_for};
ghost use Rattle.tmf_cli.specs.OutputLaw.{Candidate, IsRunLine, down};
ghost use Rattle.tmf_cli.specs.Threads.{RunsBay};

use crate::countdown::arm;
use crate::made::one_line;
use crate::means::Means;
use crate::node::Up;
use crate::told::run_lines;
use disk_model::{Bay, Disk};
use node_run::run_phase;
use run_outcomes::{Gate, Outcome, PhaseError};
use run_standing::{telling_law, undamaged_law};
use single_law::{dumps_law, front_law, row_law, single_law};
use std::alloc::AllocError;
use std::sync::Wait;
use std::thread::Threads;
use tmf_lines::{Line, node_device_name};
use tmf_model::{Config, Phase, Sequence};

/// Lets every worker go on.
#[derive(Drop)]
struct OpenGate;

impl Gate for OpenGate {
    fn pass(&self, worker: u16, ordinal: u16, op: u8) {
        let _ = (worker, ordinal, op);
    }

    fn answered(&self, worker: u16, ordinal: u16) {
        let _ = (worker, ordinal);
    }
}

/// Runs the workers on threads. Where the run's line has `kill`, so many calls go to the devices, and each later one of the run is cut.
fn run_within<R: Threads + Wait + Sync, D: Disk + Send>(
    means: Means<'_, R>,
    config: &Config,
    epoch: u32,
    phase: &Phase,
    bay: Bay<D>,
) -> (Result<Sequence<Outcome>, PhaseError>, Bay<D>)
    requires valid { IsValidConfig config.now }
    requires phase { IsValidPhase config.now phase.now }
    requires epoch { 1 ≤ epoch }
    requires off { IsOff bay }
    ensures ran { RunsBay D.Disk config.now phase.now epoch result.0 bay result.1 }
    ensures keeps { LeavesBay D.Disk config.now (phase.now.kill ≡ None) bay result.1 }
{
    let mut bay = bay;
    arm(&mut bay, phase.kill);
    let (ran, mut bay) = run_phase(means.rt, means.alloc, config, epoch, phase, &OpenGate, bay);
    bay.disarm();
    (ran, bay)
}

/// The line of a run of which no worker has begun, if it was not for want of memory.
fn run_line(config: &Config, error: PhaseError) -> Result<Line, AllocError>
    ensures { MatchResult result (IsRunLine config.now error) (λ _. error ≡ PhaseError.NoMemory) }
{
    match error {
        PhaseError::Failed(device) => Ok(Line::RunFailed(node_device_name(config, device))),
        PhaseError::Damaged(device, damage) => Ok(Line::RunDamaged(
            node_device_name(config, device),
            damage,
        )),
        PhaseError::NoMemory => Err(AllocError),
    }
}

/// Runs the workers on threads, where the node is up, and each volume that an item names, and answers the lines of what their items came to; or the line that says why no worker has begun.
pub fn act_threads<R: Threads + Wait + Sync, D: Disk + Send>(
    means: Means<'_, R>,
    config: &Config,
    up: Up,
    bay: Bay<D>,
    phase: &Phase,
) -> (Result<Vec<Line>, AllocError>, Bay<D>)
    requires valid { IsValidConfig config.now }
    requires phase { IsValidPhase config.now phase.now }
    requires epoch { 1 ≤ up.epoch }
    requires off { IsOff bay }
    ensures done { (state : NodeState) (candidates : Option (List Candidate)) → up_for config.now phase.now state ≡ Some up → DevicesTell D.tells bay → Knows D.held config.now (node_of state candidates) bay
        → IfOk result.0 (λ lines. HasDone D.held D.faults config.now (RunAction phase.now) (node_of state candidates) bay lines.items (down state) result.1) }
    ensures broken { (state : NodeState) (candidates : Option (List Candidate)) → up_for config.now phase.now state ≡ Some up → DevicesTell D.tells bay → Knows D.held config.now (node_of state candidates) bay
        → IfErr result.0 (λ _. HasBroken D.held D.faults config.now (RunAction phase.now) (node_of state candidates) bay result.1) }
    ensures prints { (state : NodeState) → up_for config.now phase.now state ≡ Some up
        → IfOk result.0 (λ lines. PrintsRun D.Disk config.now phase.now state bay lines.items (down state) result.1 ⊎ PrintsNoRun D.Disk config.now phase.now state bay lines.items (down state) result.1) }
    ensures keeps { LeavesBay D.Disk config.now (phase.now.kill ≡ None) bay result.1 }
{
    dumps_law::<D>();
    front_law::<D>();
    row_law::<D>();
    single_law::<D>();
    telling_law::<D>();
    undamaged_law::<D>();
    let (ran, bay) = run_within(means, config, up.epoch, phase, bay);
    match ran {
        Ok(outcomes) => match run_lines(means.alloc, config, outcomes.as_slice()) {
            Ok(lines) => (Ok(lines), bay),
            Err(error) => (Err(error), bay),
        },
        Err(error) => match run_line(config, error) {
            Ok(line) => (one_line(means.alloc, line), bay),
            Err(error) => (Err(error), bay),
        },
    }
}
