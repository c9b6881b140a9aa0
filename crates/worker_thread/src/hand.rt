//! What the thread of a worker owns.
ghost use Rattle.std.specs.Prelude.{◌≡◌, ◌≢◌, ◌∷◌, [], false, length, ◌-◌, slice_get};
ghost use Rattle.run_outcomes.specs.Outcomes.{first_attempt, is_last};
ghost use Rattle.worker_thread.specs.Working.{is_last_ending};

use audit_writer::NodeRun;
use run_outcomes::{Outcome, Row, Told};
use run_worker::Worker;
use tmf_model::{Transid, Value};

/// A worker of a run, with its number, the room for the reads of each item that is left, and whether one of its items has ended it.
#[derive(Drop)]
pub struct WorkerHand<J: NodeRun> {
    pub number: u16,
    pub worker: Worker<J>,
    pub reads: Row<Vec<(u8, Option<Value>)>>,
    pub ended: bool,
}

/// The first attempt at an item of a worker.
pub(crate) fn first_attempt(epoch: u32, worker: u16, ordinal: u16) -> Transid
    ensures { result ≡ first_attempt epoch worker ordinal }
{
    Transid {
        epoch,
        worker,
        ordinal,
        attempt: 1,
    }
}

/// Whether a worker carries out no more of its items behind what is told.
fn is_last(told: &Told) -> bool
    ensures { result ≡ is_last told.now }
{
    match told {
        Told::Spent { part: _ }
        | Told::Failed { device: _ }
        | Told::Damaged {
            device: _,
            damage: _,
        }
        | Told::InDoubt { device: _ }
        | Told::Hanging { why: _ }
        | Told::Memory => true,
        _ => false,
    }
}

/// Whether the last of the outcomes ends its worker.
pub(crate) fn is_last_ending(outcomes: &[Outcome]) -> bool
    ensures { result ≡ is_last_ending outcomes.now }
{
    match outcomes.last() {
        Some(outcome) => is_last(&outcome.told),
        None => false,
    }
}

/// The room for the reads of the next item.
pub(crate) fn take_room(rooms: &mut Row<Vec<(u8, Option<Value>)>>) -> Vec<(u8, Option<Value>)>
    requires { rooms.old ≢ [] }
    ensures { rooms.old ≡ result ∷ rooms.new }
{
    match rooms.take() {
        Some(room) => room,
        None => unreachable!(),
    }
}
