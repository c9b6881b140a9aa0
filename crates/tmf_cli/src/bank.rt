//! `tmf bank N`: the actions of the bank's text, and the five lines that tell what they came to.
ghost use Rattle.std.specs.Prelude.{◌≡◌, ◌⊎◌, ◌++◌, ◌≤◌, ℕ, [], length, All, List, None, Option, IsTrue, IfErr, IfOk, MatchResult, OnOk};
ghost use Rattle.disk_model.specs.Devices.{DevicesTell};
ghost use Rattle.run_outcomes.specs.Devices.{devices};
ghost use Rattle.tmf_edges.specs.Moves.{AppendsPart};
ghost use Rattle.tmf_model.specs.Config.{IsValidConfig};
ghost use Rattle.tmf_model.specs.Script.{IsValidAction, IsValidScript};
ghost use Rattle.tmf_script.specs.Bank.{bank_script};
ghost use Rattle.tmf_lines.specs.Summary.{summary_text};
ghost use Rattle.tmf_cli.specs.declared.status.Status.{Status};
ghost use Rattle.tmf_cli.specs.ActionGiven.{EndsAction, EndsScript, KeepsSink};
ghost use Rattle.tmf_cli.specs.AnyDevices.{EndsPlaying, EndsPrinting, HavePrinted, PrintsBy};
ghost use Rattle.tmf_cli.specs.Bank.{AnswersBank, CollectsAll, HasCollected, HasGathered};
ghost use Rattle.tmf_cli.specs.BetweenActions.{IsBounded, Knows, LeavesBay, node_of};
ghost use Rattle.tmf_cli.specs.Countdown.{IsOff, NoneKilled, OnceSwitched, kill_of};
ghost use Rattle.tmf_cli.specs.Ending.{opening};
ghost use Rattle.tmf_cli.specs.OutputLaw.{Candidate};
ghost use Rattle.tmf_cli.specs.Status.{code_of};
ghost use Rattle.tmf_cli.specs.Top.{IsStatusCaused, Opens, Tells};

use crate::act::act;
use crate::means::Means;
use crate::node::NodeState;
use crate::status::Status;
use crate::top::left_alone;
use disk_model::{Bay, Disk};
use std::alloc::{AllocError, Global};
use std::sync::Wait;
use std::thread::Threads;
use tmf_edges::Sink;
use tmf_lines::{GiveFault, Line, ScriptRefusal, Summary, give_summary, read_script};
use tmf_model::{Action, Config, Script};
use tmf_script::{bank_is_a_script, bank_text};

/// Carries out one action and collects its lines.
fn collect_action<R: Threads + Wait + Sync, D: Disk + Send>(
    means: Means<'_, R>,
    config: &Config,
    state: &mut NodeState,
    action: &Action,
    lines: &mut Vec<Line>,
    bay: Bay<D>,
) -> (Result<(), AllocError>, Bay<D>)
    requires valid { IsValidConfig config.now }
    requires action { IsValidAction config.now action.now }
    requires small { IsBounded state.old.up }
    requires off { IsOff bay }
    ensures told { (candidates : Option (List Candidate)) → DevicesTell D.tells bay → Knows D.held config.now (node_of state.old candidates) bay
        → OnOk result.0 (HasCollected D.held D.faults config.now action.now (node_of state.old candidates) bay lines.old.items lines.new.items state.new result.1) }
    ensures ended { (candidates : Option (List Candidate)) → DevicesTell D.tells bay → Knows D.held config.now (node_of state.old candidates) bay
        → IfErr result.0 (λ _. EndsAction D.held D.faults config.now action.now (node_of state.old candidates) bay result.1 GiveFault.NoMemory ⊥ [] []) }
    ensures prints { MatchResult result.0 (λ _. HasGathered D.Disk config.now action.now state.old bay lines.old.items lines.new.items state.new result.1)
        (λ _. EndsPrinting D.Disk config.now action.now state.old bay result.1 GiveFault.NoMemory ⊥ [] []) }
    ensures small { OnOk result.0 (IsBounded state.new.up) }
    ensures keeps { LeavesBay D.Disk config.now (kill_of action.now ≡ None) bay result.1 }
{
    let (acted, bay) = act(means, config, state, action, bay);
    match acted {
        Ok(mut told) => (lines.append(&mut told), bay),
        Err(error) => (Err(error), bay),
    }
}

/// Carries out a script's actions in their order, and collects their lines.
fn collect<R: Threads + Wait + Sync, D: Disk + Send>(
    means: Means<'_, R>,
    config: &Config,
    actions: &[Action],
    lines: &mut Vec<Line>,
    bay: Bay<D>,
) -> (Result<(), AllocError>, Bay<D>)
    requires valid { IsValidConfig config.now }
    requires actions { All (IsValidAction config.now) actions.now }
    requires none { lines.old.items ≡ [] }
    requires off { IsOff bay }
    ensures told { (candidates : Option (List Candidate)) → DevicesTell D.tells bay → Knows D.held config.now (opening candidates) bay
        → OnOk result.0 (CollectsAll D.held D.faults config.now (opening candidates) actions.now bay lines.new.items result.1) }
    ensures ended { (candidates : Option (List Candidate)) → DevicesTell D.tells bay → Knows D.held config.now (opening candidates) bay
        → IfErr result.0 (λ _. EndsScript D.held D.faults config.now (opening candidates) actions.now bay result.1 GiveFault.NoMemory ⊥ [] []) }
    ensures prints { MatchResult result.0 (λ _. HavePrinted D.Disk config.now actions.now bay lines.new.items result.1) (λ _. EndsPlaying D.Disk config.now actions.now bay result.1 GiveFault.NoMemory ⊥ [] []) }
    ensures keeps { LeavesBay D.Disk config.now (NoneKilled actions.now) bay result.1 }
{
    let mut bay = bay;
    let mut state = NodeState::new();
    let mut rest = actions;
    while let Some((action, more)) = rest.split_first() {
        let (collected, left) = collect_action(means, config, &mut state, action, lines, bay);
        bay = left;
        if let Err(error) = collected {
            return (Err(error), bay);
        }
        rest = more;
    }
    (Ok(()), bay)
}

/// Carries out a script's actions and collects their lines, with the countdown off before the first.
fn carry_out_bank<R: Threads + Wait + Sync, D: Disk + Send>(
    means: Means<'_, R>,
    script: &Script,
    lines: &mut Vec<Line>,
    bay: Bay<D>,
) -> (Result<(), AllocError>, Bay<D>)
    requires valid { IsValidScript script.now }
    requires none { lines.old.items ≡ [] }
    ensures told { (candidates : Option (List Candidate)) → DevicesTell D.tells bay → Opens D.held script.now bay candidates
        → OnOk result.0 (OnceSwitched (λ opened. CollectsAll D.held D.faults script.now.config (opening candidates) script.now.actions opened lines.new.items result.1) bay) }
    ensures ended { (candidates : Option (List Candidate)) → DevicesTell D.tells bay → Opens D.held script.now bay candidates
        → IfErr result.0 (λ _. OnceSwitched (λ opened. Tells D.held D.faults script.now candidates Status.NoMemory opened result.1 ⊥ [] []) bay) }
    ensures prints { MatchResult result.0 (λ _. OnceSwitched (λ opened. HavePrinted D.Disk script.now.config script.now.actions opened lines.new.items result.1) bay)
        (λ _. OnceSwitched (λ opened. PrintsBy D.Disk script.now.config script.now.actions 2 opened result.1 ⊥ [] []) bay) }
    ensures keeps { OnceSwitched (λ opened. LeavesBay D.Disk script.now.config (NoneKilled script.now.actions) opened result.1) bay }
    ensures all { length bay ≡ devices }
{
    let mut bay = bay;
    bay.disarm();
    collect(means, &script.config, script.actions.as_slice(), lines, bay)
}

/// The script of the bank's text.
fn read_bank(alloc: Global, transfers: u32) -> Result<Script, AllocError>
    requires few { (1 ≤ transfers) × (transfers ≤ 4095) }
    ensures script { IfOk result (λ script. script ≡ bank_script transfers) }
    ensures valid { IfOk result IsValidScript }
{
    bank_is_a_script();
    let text = bank_text(alloc, transfers)?;
    match read_script(alloc, &text) {
        Ok(script) => Ok(script),
        Err(ScriptRefusal::NoMemory) => Err(AllocError),
        Err(ScriptRefusal::Refused { .. }) => unreachable!(),
    }
}

/// Gives what the lines come to.
fn sum_up<K: Sink>(alloc: Global, sink: &mut K, transfers: u32, lines: &[Line]) -> Status
    ensures given { IsTrue (K.tells sink.old) → result ≡ Status.Done → K.given sink.new ≡ K.given sink.old ++ summary_text transfers lines.now }
    ensures part { IsTrue (K.tells sink.old) → result ≡ Status.SinkFailed → AppendsPart (K.given sink.old) (K.given sink.new) (summary_text transfers lines.now) }
    ensures none { IsTrue (K.tells sink.old) → result ≡ Status.NoMemory → K.given sink.new ≡ K.given sink.old }
    ensures status { (result ≡ Status.Done) ⊎ (result ≡ Status.SinkFailed) ⊎ (result ≡ Status.NoMemory) }
    ensures cause { IsStatusCaused result (K.faults sink.old) (K.faults sink.new) }
    ensures keeps { KeepsSink K.Sink sink.old sink.new }
{
    match give_summary(alloc, sink, &Summary::of(transfers, lines)) {
        Ok(()) => Status::Done,
        Err(fault) => Status::of_fault(fault),
    }
}

/// Carries out the transfers of the bank, and gives the five lines of what they come to.
pub fn run_bank<R: Threads + Wait + Sync, K: Sink, D: Disk + Send>(
    means: Means<'_, R>,
    transfers: u32,
    sink: &mut K,
    bay: Bay<D>,
) -> (Status, Bay<D>)
    requires few { (1 ≤ transfers) × (transfers ≤ 4095) }
    ensures { AnswersBank K.Sink D.Disk transfers (code_of result.0) sink.old sink.new bay result.1 }
{
    let Ok(script) = read_bank(means.alloc, transfers) else {
        left_alone(&bay);
        return (Status::NoMemory, bay);
    };
    let mut lines = Vec::new(means.alloc);
    let (carried, bay) = carry_out_bank(means, &script, &mut lines, bay);
    match carried {
        Ok(()) => (sum_up(means.alloc, sink, transfers, &lines), bay),
        Err(_) => (Status::NoMemory, bay),
    }
}
