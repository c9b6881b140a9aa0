//! The room that a run's outcomes need, taken before any worker begins.
ghost use Rattle.std.specs.Prelude.{◌≡◌, ◌≤◌, IfOk, length};
ghost use Rattle.std.specs.List.{filter};
ghost use Rattle.tmf_model.specs.Script.{IsValidPhase, IsValidWorker};
ghost use Rattle.run_outcomes.specs.Outcomes.{most_attempts};
ghost use Rattle.run_outcomes.specs.Room.{AreRooms, AreRoomsForReads, IsRoomFor, most_outcomes, reads_in};
ghost use Rattle.run_outcomes.specs.Told.{is_read};

use crate::outcome::Outcome;
use crate::row::Row;
use std::alloc::{AllocError, Global};
use tmf_model::{Config, Item, Op, Phase, Step, Value};

/// The room of one worker: for its outcomes, and for the reads of each of its items.
#[derive(Drop)]
pub struct Room {
    pub outcomes: Vec<Outcome>,
    pub reads: Row<Vec<(u8, Option<Value>)>>,
}

/// How often an item may be attempted.
fn most_attempts(item: &Item) -> usize
    ensures { result ≡ most_attempts item.now }
{
    match item {
        Item::Transaction(transaction) => usize::from(transaction.attempts),
        Item::Control(_) | Item::Dump(_) => 1,
    }
}

/// How many outcomes a worker's items may come to.
fn most_outcomes(config: &Config, items: &[Item]) -> usize
    requires { IsValidWorker config.now items.now }
    ensures { result ≡ most_outcomes items.now }
{
    let _ = config;
    let mut count = 0;
    for item in items {
        count += most_attempts(item);
    }
    count
}

/// Whether an operation reads.
fn is_read(op: &Op) -> bool
    ensures { result ≡ is_read op.now }
{
    match op {
        Op::Read => true,
        Op::Put(_) | Op::Add(_) | Op::Del | Op::Lock => false,
    }
}

/// How many of these steps read.
fn count_reads(steps: &[Step]) -> usize
    ensures { result ≡ length (filter (λ step. is_read step.op) steps.now) }
{
    let mut count = 0;
    for step in steps {
        if is_read(&step.op) {
            count += 1;
        }
    }
    count
}

/// How many reads an item may have to tell.
fn reads_in(item: &Item) -> usize
    ensures { result ≡ reads_in item.now }
{
    match item {
        Item::Transaction(transaction) => count_reads(transaction.steps.as_slice()),
        Item::Control(_) | Item::Dump(_) => 0,
    }
}

/// Room for the reads of each item.
fn reads_of(alloc: Global, items: &[Item]) -> Result<Vec<Vec<(u8, Option<Value>)>>, AllocError>
    ensures { IfOk result (λ rows. AreRoomsForReads items.now rows.items) }
{
    let mut rows = Vec::with_capacity(alloc, items.len())?;
    for item in items {
        let reads = Vec::with_capacity(alloc, reads_in(item))?;
        rows.push_reserved(reads);
    }
    Ok(rows)
}

/// Room for all outcomes of a worker's items, and for the reads of each.
fn room_of(alloc: Global, config: &Config, items: &[Item]) -> Result<Room, AllocError>
    requires { IsValidWorker config.now items.now }
    ensures { IfOk result (λ room. IsRoomFor items.now room) }
{
    let outcomes = Vec::with_capacity(alloc, most_outcomes(config, items))?;
    let rows = reads_of(alloc, items)?;
    let reads = Row::new(rows);
    Ok(Room { outcomes, reads })
}

/// Room for all outcomes of each worker, and for the reads of each of its items.
pub fn rooms_of(alloc: Global, config: &Config, phase: &Phase) -> Result<Vec<Room>, AllocError>
    requires { IsValidPhase config.now phase.now }
    ensures { IfOk result (λ rooms. AreRooms phase.now.workers rooms.items) }
{
    let workers = phase.workers.as_slice();
    let mut rooms = Vec::with_capacity(alloc, workers.len())?;
    for items in workers {
        let room = room_of(alloc, config, items.as_slice())?;
        rooms.push_reserved(room);
    }
    Ok(rooms)
}
