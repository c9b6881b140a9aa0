//! A worker's attempts at a transaction, one behind the other.
ghost use Rattle.std.specs.Prelude.{◌≡◌, ◌*◌, ◌<◌, true, length, vec_capacity};
ghost use Rattle.run_outcomes.specs.Outcomes.{is_busy, next_attempt};
ghost use Rattle.run_outcomes.specs.Reach.{reach_at};
ghost use Rattle.run_worker.specs.Attempted.{IsNode, MayAttempt};
ghost use Rattle.run_worker.specs.Going.{HasGivenSome, HasRoomForReads};
ghost use Rattle.run_worker.specs.Shared.{IsShared};
ghost use Rattle.run_worker.specs.Tried.{HasTried, HasTriedOnce, MayTry, left_attempts};

use crate::attempting::{Plan, attempt};
use crate::shared::Shared;
use audit_writer::NodeRun;
use boxcar_timer::Depart;
use chronicle::Seat;
use commit_boxcar::{MonitorRun, RequestsName};
use disc_lock::ActsOf;
use disk_model::Disk;
use node_machine::NodeMachine;
use run_outcomes::{Gate, Outcome, Told, next_law};
use std::mem;
use std::sync::Wait;
use std::sync::ledger::Share;
use tmf_model::{Transaction, Transid, Value};

/// A worker of a run: the seat of its part, its tokens, and what its attempts have come to.
#[derive(Drop)]
pub struct Worker<J: NodeRun> {
    pub seat: Seat<NodeMachine, J>,
    pub share: Share<ActsOf<J>>,
    pub outcomes: Vec<Outcome>,
}

/// Whether another transaction held what the attempt asked for.
fn is_busy(told: &Told) -> bool
    ensures { result ≡ is_busy told.now }
{
    match told {
        Told::Busy {
            file: _,
            key: _,
            holder: _,
        } => true,
        _ => false,
    }
}

/// The next attempt at the same item.
fn next_attempt(tx: Transid) -> Transid
    requires { tx.attempt < 8 }
    ensures { result ≡ next_attempt tx }
{
    let Transid {
        epoch,
        worker,
        ordinal,
        attempt,
    } = tx;
    Transid {
        epoch,
        worker,
        ordinal,
        attempt: attempt + 1,
    }
}

/// Makes one attempt, keeps what it has come to, and answers whether it was busy.
fn attempt_once<'s, 'a, R: Wait, D: Disk, J: MonitorRun<D>, C: Depart, Q: RequestsName, G: Gate>(
    rt: &R,
    shared: &Shared<'s, 'a, D, J, C, Q, G>,
    worker: &mut Worker<J>,
    tx: Transid,
    transaction: &Transaction,
    reads: &mut Vec<(u8, Option<Value>)>,
) -> bool
    requires shared { IsShared J.found shared.now.config.now shared.now.trails.now shared.now.discs.now }
    requires node { IsNode (J.found).config shared.now.node.now.steps shared.now.node.now.monitor }
    requires may { MayAttempt J.opening J.found tx transaction.now.steps reads.old worker.old.seat worker.old.share }
    requires room { length worker.old.outcomes.items < vec_capacity worker.old.outcomes }
    ensures tried { HasTriedOnce D.Disk J.opening (J.found).config J.devices tx transaction.now (reach_at worker.old.seat worker.old.share) (reach_at worker.new.seat worker.new.share) worker.old.outcomes.items worker.new.outcomes.items result }
    ensures given { HasGivenSome (length transaction.now.steps) worker.old.share worker.new.share }
    ensures reads { result ≡ true → HasRoomForReads transaction.now.steps reads.new }
    ensures kept { vec_capacity worker.new.outcomes ≡ vec_capacity worker.old.outcomes }
{
    let steps = transaction.steps.as_slice();
    let plan = Plan {
        tx,
        steps,
        close: transaction.close,
    };
    let note = shared.node.chronicle.note(&mut worker.seat);
    let seat = mem::replace(&mut worker.seat, note);
    let (seat, told) = attempt(rt, shared, seat, &mut worker.share, plan, reads);
    worker.seat = seat;
    let busy = is_busy(&told);
    worker.outcomes.push_reserved(Outcome { tx, told });
    busy
}

/// Makes attempts at a transaction from this one on, up to the first that is not busy, or the last that may be made, and keeps what each has come to.
pub fn attempts<'s, 'a, R: Wait, D: Disk, J: MonitorRun<D>, C: Depart, Q: RequestsName, G: Gate>(
    rt: &R,
    shared: &Shared<'s, 'a, D, J, C, Q, G>,
    worker: &mut Worker<J>,
    tx: Transid,
    transaction: &Transaction,
    reads: &mut Vec<(u8, Option<Value>)>,
)
    requires shared { IsShared J.found shared.now.config.now shared.now.trails.now shared.now.discs.now }
    requires node { IsNode (J.found).config shared.now.node.now.steps shared.now.node.now.monitor }
    requires may { MayTry J.opening J.found tx transaction.now reads.old worker.old.seat worker.old.share worker.old.outcomes }
    ensures tried { HasTried D.Disk J.opening (J.found).config J.devices tx transaction.now (reach_at worker.old.seat worker.old.share) (reach_at worker.new.seat worker.new.share) worker.old.outcomes.items worker.new.outcomes.items }
    ensures given { HasGivenSome (64 * left_attempts transaction.now tx) worker.old.share worker.new.share }
    ensures kept { vec_capacity worker.new.outcomes ≡ vec_capacity worker.old.outcomes }
{
    next_law();
    if attempt_once(rt, shared, worker, tx, transaction, reads)
        && tx.attempt < transaction.attempts
    {
        attempts(rt, shared, worker, next_attempt(tx), transaction, reads);
    }
}
