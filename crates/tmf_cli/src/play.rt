//! The actions of a script, one after the other: each one's lines are given to the sink before the next begins.
ghost use Rattle.std.specs.Prelude.{◌≡◌, All, List, None, Option, IsTrue, IfErr, MatchResult, OnOk};
ghost use Rattle.tmf_model.specs.Config.{IsValidConfig};
ghost use Rattle.tmf_model.specs.Script.{IsValidAction};
ghost use Rattle.tmf_cli.specs.AnyDevices.{EndsPlaying, EndsPrinting, HasPrinted, PrintsWhole};
ghost use Rattle.tmf_cli.specs.BetweenActions.{IsBounded, Knows, LeavesBay, node_of};
ghost use Rattle.tmf_cli.specs.ActionGiven.{EndsAction, EndsScript, HasPlayed, KeepsSink};
ghost use Rattle.tmf_cli.specs.Status.{IsFaultCaused};
ghost use Rattle.tmf_cli.specs.Ending.{EndsWhole, opening};
ghost use Rattle.tmf_cli.specs.OutputLaw.{Candidate};
ghost use Rattle.disk_model.specs.Devices.{DevicesTell};
ghost use Rattle.tmf_cli.specs.Countdown.{IsOff, NoneKilled, kill_of};

use crate::act::act;
use crate::means::Means;
use crate::node::NodeState;
use disk_model::{Bay, Disk};
use std::sync::Wait;
use std::thread::Threads;
use tmf_edges::Sink;
use tmf_lines::{GiveFault, give_lines};
use tmf_model::{Action, Config};

/// Carries out one action and gives its lines to the sink.
fn play_action<R: Threads + Wait + Sync, K: Sink, D: Disk + Send>(
    means: Means<'_, R>,
    config: &Config,
    state: &mut NodeState,
    action: &Action,
    sink: &mut K,
    bay: Bay<D>,
) -> (Result<(), GiveFault>, Bay<D>)
    requires valid { IsValidConfig config.now }
    requires action { IsValidAction config.now action.now }
    requires small { IsBounded state.old.up }
    requires off { IsOff bay }
    ensures told { (candidates : Option (List Candidate)) → DevicesTell D.tells bay → Knows D.held config.now (node_of state.old candidates) bay
        → OnOk result.0 (HasPlayed D.held D.faults config.now action.now (node_of state.old candidates) bay state.new result.1 (IsTrue (K.tells sink.old)) (K.given sink.old) (K.given sink.new)) }
    ensures ended { (candidates : Option (List Candidate)) → DevicesTell D.tells bay → Knows D.held config.now (node_of state.old candidates) bay
        → IfErr result.0 (λ fault. EndsAction D.held D.faults config.now action.now (node_of state.old candidates) bay result.1 fault (IsTrue (K.tells sink.old)) (K.given sink.old) (K.given sink.new)) }
    ensures prints { MatchResult result.0 (λ _. HasPrinted D.Disk config.now action.now state.old bay state.new result.1 (IsTrue (K.tells sink.old)) (K.given sink.old) (K.given sink.new))
        (λ fault. EndsPrinting D.Disk config.now action.now state.old bay result.1 fault (IsTrue (K.tells sink.old)) (K.given sink.old) (K.given sink.new)) }
    ensures small { OnOk result.0 (IsBounded state.new.up) }
    ensures keeps { LeavesBay D.Disk config.now (kill_of action.now ≡ None) bay result.1 }
    ensures keeps_sink { KeepsSink K.Sink sink.old sink.new }
    ensures cause { IfErr result.0 (λ fault. IsFaultCaused fault (K.faults sink.old) (K.faults sink.new)) }
{
    let (acted, bay) = act(means, config, state, action, bay);
    match acted {
        Ok(lines) => (give_lines(means.alloc, sink, &lines), bay),
        Err(_) => (Err(GiveFault::NoMemory), bay),
    }
}

/// Carries out a script's actions in their order, over devices that an earlier call may have left.
pub fn play<R: Threads + Wait + Sync, K: Sink, D: Disk + Send>(
    means: Means<'_, R>,
    config: &Config,
    actions: &[Action],
    sink: &mut K,
    bay: Bay<D>,
) -> (Result<(), GiveFault>, Bay<D>)
    requires valid { IsValidConfig config.now }
    requires actions { All (IsValidAction config.now) actions.now }
    requires off { IsOff bay }
    ensures told { (candidates : Option (List Candidate)) → DevicesTell D.tells bay → Knows D.held config.now (opening candidates) bay
        → OnOk result.0 (EndsWhole D.held D.faults config.now (opening candidates) actions.now bay result.1 (IsTrue (K.tells sink.old)) (K.given sink.old) (K.given sink.new)) }
    ensures ended { (candidates : Option (List Candidate)) → DevicesTell D.tells bay → Knows D.held config.now (opening candidates) bay
        → IfErr result.0 (λ fault. EndsScript D.held D.faults config.now (opening candidates) actions.now bay result.1 fault (IsTrue (K.tells sink.old)) (K.given sink.old) (K.given sink.new)) }
    ensures prints { MatchResult result.0 (λ _. PrintsWhole D.Disk config.now actions.now bay result.1 (IsTrue (K.tells sink.old)) (K.given sink.old) (K.given sink.new))
        (λ fault. EndsPlaying D.Disk config.now actions.now bay result.1 fault (IsTrue (K.tells sink.old)) (K.given sink.old) (K.given sink.new)) }
    ensures keeps { LeavesBay D.Disk config.now (NoneKilled actions.now) bay result.1 }
    ensures keeps_sink { KeepsSink K.Sink sink.old sink.new }
    ensures cause { IfErr result.0 (λ fault. IsFaultCaused fault (K.faults sink.old) (K.faults sink.new)) }
{
    let mut bay = bay;
    let mut state = NodeState::new();
    let mut rest = actions;
    while let Some((action, more)) = rest.split_first() {
        let (played, left) = play_action(means, config, &mut state, action, sink, bay);
        bay = left;
        if let Err(fault) = played {
            return (Err(fault), bay);
        }
        rest = more;
    }
    (Ok(()), bay)
}
