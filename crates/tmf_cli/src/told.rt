//! The lines of what the attempts of a run have come to.
ghost use Rattle.std.specs.Prelude.{◌≡◌, ◌++◌, [], ◌∷◌, IfOk, OnOk};
ghost use Rattle.tmf_cli.specs.RunLines.{hang_line, read_line, read_lines, reads_told, run_lines, told_lines};

use run_outcomes::{Hang, Outcome, Told};
use std::alloc::{AllocError, Global};
use tmf_lines::{Line, add_line, file_name, node_device_name, part_name, spent_line, volume_name};
use tmf_model::{Config, Transid, Value};

/// The line of what a read of a transaction, by the number of its operation, has found.
fn read_line(tx: Transid, op: u8, found: Option<Value>) -> Line
    ensures { result ≡ read_line tx op found }
{
    match found {
        Some(value) => Line::Read(tx, op, value),
        None => Line::ReadAbsent(tx, op),
    }
}

/// Adds a line for each read of a transaction.
fn add_reads(
    lines: &mut Vec<Line>,
    tx: Transid,
    reads: &[(u8, Option<Value>)],
) -> Result<(), AllocError>
    ensures { OnOk result (lines.new.items ≡ lines.old.items ++ read_lines tx reads.now) }
{
    for read in reads {
        add_line(lines, read_line(tx, read.0, read.1))?;
    }
    Ok(())
}

/// The line of an attempt that was not backed out.
fn hang_line(config: &Config, tx: Transid, why: Hang) -> Line
    ensures { result ≡ hang_line config.now tx why }
{
    match why {
        Hang::Device(device) => Line::Hanging(tx, node_device_name(config, device)),
        Hang::Damaged(device, damage) => {
            Line::HangingDamaged(tx, node_device_name(config, device), damage)
        }
        Hang::Memory => Line::HangingMemory(tx),
    }
}

/// The first line of what an attempt, a control point or a dump is told to have come to, which is the only one but of a commit.
fn told_line(config: &Config, tx: Transid, told: &Told) -> Line
    ensures { told_lines config.now tx told.now ≡ result ∷ reads_told tx told.now }
{
    match told {
        Told::Committed { place, .. } => Line::Committed(tx, *place),
        Told::Aborted => Line::Aborted(tx),
        Told::Busy { file, key, holder } => {
            Line::Busy(tx, file_name(config, *file), *key, *holder)
        }
        Told::Full { file, key } => Line::Full(tx, file_name(config, *file), *key),
        Told::Refused { op, reason } => Line::Refused(tx, *op, *reason),
        Told::Spent { part } => spent_line(tx, part_name(config, *part)),
        Told::Failed { device } => Line::AttemptFailed(tx, node_device_name(config, *device)),
        Told::Damaged { device, damage } => {
            Line::AttemptDamaged(tx, node_device_name(config, *device), *damage)
        }
        Told::InDoubt { device } => Line::InDoubt(tx, node_device_name(config, *device)),
        Told::Hanging { why } => hang_line(config, tx, *why),
        Told::Skipped => Line::Skipped(tx),
        Told::Memory => Line::Memory(tx),
        Told::Controlled { volume, low } => {
            Line::Controlled(tx, volume_name(config, *volume), *low)
        }
        Told::Dumped { volume, start } => Line::Dumped(tx, volume_name(config, *volume), *start),
        Told::Dumping { volume } => Line::Dumping(tx, volume_name(config, *volume)),
    }
}

/// What the reads of an attempt have found that has committed; none of any other.
fn reads_of(told: &Told) -> &[(u8, Option<Value>)]
    ensures { (tx : Transid) → read_lines tx result.now ≡ reads_told tx told.now }
{
    match told {
        Told::Committed { reads, .. } => reads.as_slice(),
        _ => &[],
    }
}

/// Adds the lines of an outcome.
fn add_told(lines: &mut Vec<Line>, config: &Config, outcome: &Outcome) -> Result<(), AllocError>
    ensures { OnOk result (lines.new.items ≡ lines.old.items ++ told_lines config.now outcome.now.tx outcome.now.told) }
{
    let tx = outcome.tx;
    add_line(lines, told_line(config, tx, &outcome.told))?;
    add_reads(lines, tx, reads_of(&outcome.told))
}

/// The lines of the outcomes of a run, in their order.
pub fn run_lines(
    alloc: Global,
    config: &Config,
    outcomes: &[Outcome],
) -> Result<Vec<Line>, AllocError>
    ensures { IfOk result (λ lines. lines.items ≡ run_lines config.now outcomes.now) }
{
    let mut lines = Vec::new(alloc);
    for outcome in outcomes {
        add_told(&mut lines, config, outcome)?;
    }
    Ok(lines)
}
