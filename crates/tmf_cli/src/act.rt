//! The actions of a script: what each does to the node, and the lines that it has to print.
ghost use Rattle.std.specs.Prelude.{◌≡◌, List, Option, None, IfErr, IfOk, OnOk, MatchResult};
ghost use Rattle.tmf_model.specs.Config.{IsDeclared, IsValidConfig};
ghost use Rattle.tmf_model.specs.declared.script.Action.TheVariants.{Format, Recover as RecoverAction, Run as RunAction, Lose as LoseAction, List as ListAction};
ghost use Rattle.tmf_model.specs.Script.{IsValidAction, IsValidPhase};
ghost use Rattle.tmf_cli.specs.AnyDevices.{Prints};
ghost use Rattle.tmf_cli.specs.BetweenActions.{HasDone, HasBroken, IsBounded, IsListLine, Knows, LeavesBay, SameOthers, node_of};
ghost use Rattle.tmf_cli.specs.OutputLaw.{Candidate, IsRecoveryLine};
ghost use Rattle.disk_model.specs.Devices.{AreLater, DevicesTell};
ghost use Rattle.tmf_cli.specs.Countdown.{IsOff, kill_of};

use crate::countdown::recover_within;
use crate::made::one_line;
use crate::means::Means;
use crate::node::NodeState;
use crate::rolling::act_rollforward;
use crate::threads::act_threads;
use disk_model::{Bay, Disk};
use std::alloc::{AllocError, Global};
use std::sync::Wait;
use std::thread::Threads;
use tmf_lines::{
    ActionKind, Line, device_name, file_name, format_failure, listing_lines, recovery_lines,
    volume_name,
};
use tmf_model::{Action, Config, Phase};
use trail_files::{AuditRecord, MonitorRecord, Trail};
use volume_recovery::volumes::{format_node, list_file, lose, lost_law};
use volume_recovery::{FormatError, ListError, RecoverError};
use volume_restore::spelled_volume_law;

/// Formats the node.
fn act_format<D: Disk>(
    alloc: Global,
    config: &Config,
    state: &mut NodeState,
    bay: &mut Bay<D>,
) -> Result<Vec<Line>, AllocError>
    requires valid { IsValidConfig config.now }
    ensures done { (candidates : Option (List Candidate)) → DevicesTell D.tells bay.old
        → IfOk result (λ lines. HasDone D.held D.faults config.now Format (node_of state.old candidates) bay.old lines.items state.new bay.new) }
    ensures broken { (candidates : Option (List Candidate)) → IfErr result (λ _. HasBroken D.held D.faults config.now Format (node_of state.old candidates) bay.old bay.new) }
    ensures prints { IfOk result (λ lines. Prints D.Disk config.now Format state.old bay.old lines.items state.new bay.new) }
    ensures small { OnOk result (IsBounded state.new.up) }
    ensures keeps { AreLater D.Disk bay.old bay.new }
    ensures others { SameOthers config.now bay.old bay.new }
{
    Trail::<D, AuditRecord>::one_spelling();
    spelled_volume_law();
    match format_node(alloc, bay, config) {
        Ok(()) => {
            *state = NodeState::formatted();
            one_line(alloc, Line::Formatted)
        }
        Err(FormatError::Failed(device)) => {
            *state = state.unformatted();
            one_line(alloc, format_failure(config, device))
        }
        Err(FormatError::NoMemory) => Err(AllocError),
    }
}

/// Recovers the node, where its last format has succeeded; cut off behind so many calls of the devices, where `kill` names them.
fn act_recover<D: Disk>(
    alloc: Global,
    config: &Config,
    state: &mut NodeState,
    bay: &mut Bay<D>,
    kill: Option<u64>,
) -> Result<Vec<Line>, AllocError>
    requires valid { IsValidConfig config.now }
    requires small { IsBounded state.old.up }
    requires off { IsOff bay.old }
    ensures done { (candidates : Option (List Candidate)) → DevicesTell D.tells bay.old → Knows D.held config.now (node_of state.old candidates) bay.old
        → IfOk result (λ lines. HasDone D.held D.faults config.now (RecoverAction kill) (node_of state.old candidates) bay.old lines.items state.new bay.new) }
    ensures broken { (candidates : Option (List Candidate)) → DevicesTell D.tells bay.old → Knows D.held config.now (node_of state.old candidates) bay.old
        → IfErr result (λ _. HasBroken D.held D.faults config.now (RecoverAction kill) (node_of state.old candidates) bay.old bay.new) }
    ensures prints { IfOk result (λ lines. Prints D.Disk config.now (RecoverAction kill) state.old bay.old lines.items state.new bay.new) }
    ensures small { OnOk result (IsBounded state.new.up) }
    ensures keeps { LeavesBay D.Disk config.now (kill ≡ None) bay.old bay.new }
{
    Trail::<D, AuditRecord>::one_spelling();
    Trail::<D, MonitorRecord>::one_spelling();
    spelled_volume_law();
    if !state.formatted {
        return one_line(alloc, Line::NotUp(ActionKind::Recover));
    }
    match recover_within(alloc, bay, config, kill) {
        Ok(recovered) => {
            let records = recovered.records.as_slice();
            let lost = recovered.lost.as_slice();
            let epoch = recovered.epoch;
            let lines = recovery_lines(alloc, config, state.printed, records, lost, epoch)?;
            *state = state.recovered(records.len() as u64, lost, epoch);
            Ok(lines)
        }
        Err(error) => {
            let line = recovery_line(config, error)?;
            *state = state.down();
            one_line(alloc, line)
        }
    }
}

/// Takes a volume away, also where the node is down, as it is afterwards. Its lines are made before, so that want of memory changes nothing.
fn act_lose<D: Disk>(
    alloc: Global,
    config: &Config,
    state: &mut NodeState,
    bay: &mut Bay<D>,
    volume: u8,
) -> Result<Vec<Line>, AllocError>
    requires valid { IsValidConfig config.now }
    requires declared { IsDeclared config.now.volumes volume }
    ensures done { (candidates : Option (List Candidate)) → DevicesTell D.tells bay.old → Knows D.held config.now (node_of state.old candidates) bay.old
        → IfOk result (λ lines. HasDone D.held D.faults config.now (LoseAction volume) (node_of state.old candidates) bay.old lines.items state.new bay.new) }
    ensures broken { (candidates : Option (List Candidate)) → DevicesTell D.tells bay.old → Knows D.held config.now (node_of state.old candidates) bay.old
        → IfErr result (λ _. HasBroken D.held D.faults config.now (LoseAction volume) (node_of state.old candidates) bay.old bay.new) }
    ensures prints { IfOk result (λ lines. Prints D.Disk config.now (LoseAction volume) state.old bay.old lines.items state.new bay.new) }
    ensures small { OnOk result (IsBounded state.new.up) }
    ensures keeps { AreLater D.Disk bay.old bay.new }
    ensures others { SameOthers config.now bay.old bay.new }
{
    lost_law();
    let name = volume_name(config, volume);
    let removed = one_line(alloc, Line::Removed(name))?;
    let failed = one_line(alloc, Line::LoseFailed(name))?;
    *state = state.down();
    match lose(bay, volume) {
        Ok(()) => Ok(removed),
        Err(_) => Ok(failed),
    }
}

/// Lists a file's records, where the node is up, and the file's volume.
fn act_list<D: Disk>(
    alloc: Global,
    config: &Config,
    state: NodeState,
    bay: &mut Bay<D>,
    file: u8,
) -> Result<Vec<Line>, AllocError>
    requires valid { IsValidConfig config.now }
    requires declared { IsDeclared config.now.files file }
    ensures done { (candidates : Option (List Candidate)) → DevicesTell D.tells bay.old → Knows D.held config.now (node_of state candidates) bay.old
        → IfOk result (λ lines. HasDone D.held D.faults config.now (ListAction file) (node_of state candidates) bay.old lines.items state bay.new) }
    ensures broken { (candidates : Option (List Candidate)) → DevicesTell D.tells bay.old → Knows D.held config.now (node_of state candidates) bay.old
        → IfErr result (λ _. HasBroken D.held D.faults config.now (ListAction file) (node_of state candidates) bay.old bay.new) }
    ensures prints { IfOk result (λ lines. Prints D.Disk config.now (ListAction file) state bay.old lines.items state bay.new) }
    ensures keeps { AreLater D.Disk bay.old bay.new }
    ensures others { SameOthers config.now bay.old bay.new }
{
    let name = file_name(config, file);
    if state.up_with(config, file).is_none() {
        return one_line(alloc, Line::ListNotUp(name));
    }
    match list_file(alloc, bay, config, file) {
        Ok(entries) => Ok(listing_lines(alloc, name, &entries)?),
        Err(error) => {
            let line = list_line(config, file, error)?;
            one_line(alloc, line)
        }
    }
}

/// The line of a recovery that was refused, if it was not for want of memory.
fn recovery_line(config: &Config, error: RecoverError) -> Result<Line, AllocError>
    ensures { MatchResult result (IsRecoveryLine config.now error) (λ _. error ≡ RecoverError.NoMemory) }
{
    match error {
        RecoverError::Failed(device) => Ok(Line::Failed(
            ActionKind::Recover,
            device_name(config, device),
        )),
        RecoverError::Damaged(device, damage) => Ok(Line::Damaged(
            ActionKind::Recover,
            device_name(config, device),
            damage,
        )),
        RecoverError::EpochsSpent => Ok(Line::EpochsSpent),
        RecoverError::NoMemory => Err(AllocError),
    }
}

/// The line of a listing that was refused, if it was not for want of memory. Only a device that does not tell what it holds has a lost volume of which the node does not know.
fn list_line(config: &Config, file: u8, error: ListError) -> Result<Line, AllocError>
    ensures { MatchResult result (IsListLine config.now file error) (λ _. error ≡ ListError.NoMemory) }
{
    let name = file_name(config, file);
    match error {
        ListError::Failed(device) => Ok(Line::ListFailed(name, device_name(config, device))),
        ListError::Damaged(device, damage) => {
            Ok(Line::ListDamaged(name, device_name(config, device), damage))
        }
        ListError::Lost => Ok(Line::ListNotUp(name)),
        ListError::NoMemory => Err(AllocError),
    }
}

/// Runs the workers, where the node is up, and each volume that an item names.
fn act_run<R: Threads + Wait + Sync, D: Disk + Send>(
    means: Means<'_, R>,
    config: &Config,
    state: &mut NodeState,
    bay: Bay<D>,
    phase: &Phase,
) -> (Result<Vec<Line>, AllocError>, Bay<D>)
    requires valid { IsValidConfig config.now }
    requires phase { IsValidPhase config.now phase.now }
    requires small { IsBounded state.old.up }
    requires off { IsOff bay }
    ensures done { (candidates : Option (List Candidate)) → DevicesTell D.tells bay → Knows D.held config.now (node_of state.old candidates) bay
        → IfOk result.0 (λ lines. HasDone D.held D.faults config.now (RunAction phase.now) (node_of state.old candidates) bay lines.items state.new result.1) }
    ensures broken { (candidates : Option (List Candidate)) → DevicesTell D.tells bay → Knows D.held config.now (node_of state.old candidates) bay
        → IfErr result.0 (λ _. HasBroken D.held D.faults config.now (RunAction phase.now) (node_of state.old candidates) bay result.1) }
    ensures prints { IfOk result.0 (λ lines. Prints D.Disk config.now (RunAction phase.now) state.old bay lines.items state.new result.1) }
    ensures small { IsBounded state.new.up }
    ensures keeps { LeavesBay D.Disk config.now (phase.now.kill ≡ None) bay result.1 }
{
    let Some(up) = state.up_for(config, phase) else {
        return (one_line(means.alloc, Line::NotUp(ActionKind::Run)), bay);
    };
    *state = state.down();
    act_threads(means, config, up, bay, phase)
}

/// Carries out one action, and answers the lines that it has to print.
pub fn act<R: Threads + Wait + Sync, D: Disk + Send>(
    means: Means<'_, R>,
    config: &Config,
    state: &mut NodeState,
    action: &Action,
    bay: Bay<D>,
) -> (Result<Vec<Line>, AllocError>, Bay<D>)
    requires valid { IsValidConfig config.now }
    requires action { IsValidAction config.now action.now }
    requires small { IsBounded state.old.up }
    requires off { IsOff bay }
    ensures done { (candidates : Option (List Candidate)) → DevicesTell D.tells bay → Knows D.held config.now (node_of state.old candidates) bay
        → IfOk result.0 (λ lines. HasDone D.held D.faults config.now action.now (node_of state.old candidates) bay lines.items state.new result.1) }
    ensures broken { (candidates : Option (List Candidate)) → DevicesTell D.tells bay → Knows D.held config.now (node_of state.old candidates) bay
        → IfErr result.0 (λ _. HasBroken D.held D.faults config.now action.now (node_of state.old candidates) bay result.1) }
    ensures prints { IfOk result.0 (λ lines. Prints D.Disk config.now action.now state.old bay lines.items state.new result.1) }
    ensures small { OnOk result.0 (IsBounded state.new.up) }
    ensures keeps { LeavesBay D.Disk config.now (kill_of action.now ≡ None) bay result.1 }
{
    let alloc = means.alloc;
    let mut bay = bay;
    match action {
        Action::Format => {
            let made = act_format(alloc, config, state, &mut bay);
            (made, bay)
        }
        Action::Recover(kill) => {
            let made = act_recover(alloc, config, state, &mut bay, *kill);
            (made, bay)
        }
        Action::List(file) => {
            let made = act_list(alloc, config, *state, &mut bay, *file);
            (made, bay)
        }
        Action::Run(phase) => act_run(means, config, state, bay, phase),
        Action::Lose(volume) => {
            let made = act_lose(alloc, config, state, &mut bay, *volume);
            (made, bay)
        }
        Action::Rollforward(volume, kill) => {
            let made = act_rollforward(alloc, config, state, &mut bay, *volume, *kill);
            (made, bay)
        }
    }
}
