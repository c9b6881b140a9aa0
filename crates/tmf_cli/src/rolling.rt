//! The rollforward of a lost volume: what it does to the node, and the line that it has to print.
ghost use Rattle.std.specs.Prelude.{◌≡◌, List, Option, None, IfErr, IfOk, MatchResult, OnOk};
ghost use Rattle.disk_model.specs.Devices.{DevicesTell};
ghost use Rattle.tmf_model.specs.Config.{IsDeclared, IsValidConfig};
ghost use Rattle.tmf_model.specs.declared.script.Action.TheVariants.{Rollforward as RollAction};
ghost use Rattle.tmf_cli.specs.AnyDevices.{Prints};
ghost use Rattle.tmf_cli.specs.BetweenActions.{HasBroken, HasDone, IsBounded, Knows, LeavesBay, node_of};
ghost use Rattle.tmf_cli.specs.Countdown.{IsOff};
ghost use Rattle.tmf_cli.specs.OutputLaw.{Candidate, IsRollLine};

use crate::countdown::roll_within;
use crate::node::NodeState;
use disk_model::{Bay, Disk};
use rollforward::RollError;
use std::alloc::{AllocError, Global};
use tmf_lines::{Line, node_device_name, volume_name};
use tmf_model::Config;
use volume_restore::spelled_volume_law;

/// Rolls a volume forward, where the node is up; cut off behind so many calls of the devices, where `kill` names them. Room for its line is taken before, so that want of memory changes nothing.
pub fn act_rollforward<D: Disk>(
    alloc: Global,
    config: &Config,
    state: &mut NodeState,
    bay: &mut Bay<D>,
    volume: u8,
    kill: Option<u64>,
) -> Result<Vec<Line>, AllocError>
    requires valid { IsValidConfig config.now }
    requires declared { IsDeclared config.now.volumes volume }
    requires small { IsBounded state.old.up }
    requires off { IsOff bay.old }
    ensures done { (candidates : Option (List Candidate)) → DevicesTell D.tells bay.old → Knows D.held config.now (node_of state.old candidates) bay.old
        → IfOk result (λ lines. HasDone D.held D.faults config.now (RollAction volume kill) (node_of state.old candidates) bay.old lines.items state.new bay.new) }
    ensures broken { (candidates : Option (List Candidate)) → DevicesTell D.tells bay.old → Knows D.held config.now (node_of state.old candidates) bay.old
        → IfErr result (λ _. HasBroken D.held D.faults config.now (RollAction volume kill) (node_of state.old candidates) bay.old bay.new) }
    ensures prints { IfOk result (λ lines. Prints D.Disk config.now (RollAction volume kill) state.old bay.old lines.items state.new bay.new) }
    ensures small { OnOk result (IsBounded state.new.up) }
    ensures keeps { LeavesBay D.Disk config.now (kill ≡ None) bay.old bay.new }
{
    spelled_volume_law();
    let name = volume_name(config, volume);
    let mut lines = Vec::with_capacity(alloc, 1)?;
    if state.up.is_none() {
        lines.push_reserved(Line::RollNotUp(name));
        return Ok(lines);
    }
    match roll_within(alloc, bay, config, volume, kill) {
        Ok(next) => {
            *state = state.with_volume(volume);
            lines.push_reserved(Line::Rolled(name, next));
            Ok(lines)
        }
        Err(error) => {
            let line = roll_line(config, volume, error)?;
            *state = state.unrolled(error);
            lines.push_reserved(line);
            Ok(lines)
        }
    }
}

/// The line of a rollforward that was refused, if it was not for want of memory.
fn roll_line(config: &Config, volume: u8, error: RollError) -> Result<Line, AllocError>
    ensures { MatchResult result (IsRollLine config.now volume error) (λ _. error ≡ RollError.NoMemory) }
{
    let name = volume_name(config, volume);
    match error {
        RollError::NotLost => Ok(Line::NotLost(name)),
        RollError::NoDump => Ok(Line::NoDump(name)),
        RollError::Failed(device) => Ok(Line::RollFailed(name, node_device_name(config, device))),
        RollError::Damaged(device, damage) => Ok(Line::RollDamaged(
            name,
            node_device_name(config, device),
            damage,
        )),
        RollError::NoMemory => Err(AllocError),
    }
}
