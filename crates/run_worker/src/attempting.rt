//! One attempt at a transaction, from its begin to its end.
ghost use Rattle.std.specs.Prelude.{◌≡◌, ◌⊎◌, ◌<◌, ◌≤◌, IfNone, IfSome, MatchOption, Some, length};
ghost use Rattle.tmf_model.specs.Config.{IsValidConfig};
ghost use Rattle.node_machine.specs.Opening.{monitor_part, worker_part};
ghost use Rattle.commit_boxcar.specs.Settled.{IsOfRun};
ghost use Rattle.phase_one.specs.Stopped.{HaveDiscs};
ghost use Rattle.backout.specs.Backed.{HasCome};
ghost use Rattle.disc_lock.specs.Seats.{HasSeenMore};
ghost use Rattle.run_outcomes.specs.Reach.{reach_at};
ghost use Rattle.run_worker.specs.Attempted.{HasAttempted, HasBegunAndRun, HasClosedBy, HasQuitFor, HasRoomAgain, HasGoneToItsEnd, IsNode, IsSpentAtBegin, IsUnspent, MayAttempt, MayGoToItsEnd, told_by_refusal};
ghost use Rattle.run_worker.specs.Going.{HasGivenSome};
ghost use Rattle.run_worker.specs.Shared.{IsShared};

use crate::ending::{commit, give_up};
use crate::going::carry_out_steps;
use crate::shared::Shared;
use boxcar_timer::Depart;
use chronicle::Seat;
use commit_boxcar::{MonitorRun, RequestsName};
use disc_lock::ActsOf;
use disc_process::WriteRefused;
use disk_model::Disk;
use node_machine::NodeMachine;
use run_outcomes::{Gate, Told};
use std::mem;
use std::sync::Wait;
use std::sync::ledger::Share;
use tmf_model::{Close, Step, Transid, Value};
use txn_states::{Active, MONITOR_PART, begin};

/// What an attempt is to do: the steps of its transaction, and how it closes.
#[derive(Drop)]
pub struct Plan<'t> {
    pub tx: Transid,
    pub steps: &'t [Step],
    pub close: Close,
}

/// What is to be told where this step, with its number, was refused.
fn told_by_refusal(number: u8, step: &Step, refusal: WriteRefused) -> Told
    ensures { result ≡ told_by_refusal number step.now refusal }
{
    let Step { file, key, op: _ } = *step;
    match refusal {
        WriteRefused::Spent(part) => Told::Spent { part },
        WriteRefused::Busy(holder) => Told::Busy { file, key, holder },
        WriteRefused::NoMemory => Told::Memory,
        WriteRefused::Failed(device) => Told::Failed { device },
        WriteRefused::Damaged(device, damage) => Told::Damaged { device, damage },
        WriteRefused::Full => Told::Full { file, key },
        WriteRefused::Refused(reason) => Told::Refused { op: number, reason },
    }
}

/// The first part that has come to the limit: the worker's, or then the monitor's, each with how many events it has had.
fn first_spent(steps: u64, tx: Transid, worker: u64, monitor: u64) -> Option<u32>
    requires { 0 < tx.worker }
    ensures { MatchOption result ((worker < steps) × (monitor < steps)) (λ part. ((part ≡ worker_part tx.worker) × (steps ≤ worker)) ⊎ ((part ≡ monitor_part) × (worker < steps) × (steps ≤ monitor))) }
{
    if steps <= worker {
        return Some(u32::from(tx.worker) - 1);
    }
    if steps <= monitor {
        return Some(MONITOR_PART);
    }
    None
}

/// The first part that has had as many events as the limit allows before an attempt begins: its worker's, and then the monitor's.
fn spent_at_begin<'s, 'a, R: Wait, D: Disk, J: MonitorRun<D>, C: Depart, Q: RequestsName, G: Gate>(
    rt: &R,
    shared: &Shared<'s, 'a, D, J, C, Q, G>,
    seat: &mut Seat<NodeMachine, J>,
    tx: Transid,
) -> Option<u32>
    requires valid { IsValidConfig (J.found).config }
    requires node { IsNode (J.found).config shared.now.node.now.steps shared.now.node.now.monitor }
    requires worker { 0 < tx.worker }
    requires own { seat.old.part ≡ Some (worker_part tx.worker) }
    ensures some { IfSome result (IsSpentAtBegin (J.found).config tx seat.new.seen) }
    ensures none { IfNone result (IsUnspent (J.found).config tx seat.new.seen) }
    ensures grown { HasSeenMore J.opening seat.old seat.new }
{
    let monitor = shared.monitor.events(rt, seat);
    let worker = shared.node.chronicle.counted(seat);
    first_spent(shared.node.steps, tx, worker, monitor)
}

/// Takes the reads out.
fn take_reads(reads: &mut Vec<(u8, Option<Value>)>) -> Vec<(u8, Option<Value>)>
    ensures { result.items ≡ reads.old.items }
{
    let alloc = *reads.allocator();
    mem::replace(reads, Vec::new(alloc))
}

/// Closes an attempt that has carried out its steps, as its transaction says.
fn close_attempt<'s, 'a, R: Wait, D: Disk, J: MonitorRun<D>, C: Depart, Q: RequestsName, G: Gate>(
    rt: &R,
    shared: &Shared<'s, 'a, D, J, C, Q, G>,
    tx: Active<'a, J>,
    close: Close,
    reads: Vec<(u8, Option<Value>)>,
) -> (Seat<NodeMachine, J>, Told)
    requires shared { IsShared J.found shared.now.config.now shared.now.trails.now shared.now.discs.now }
    requires discs { HaveDiscs shared.now.discs.now tx.discs }
    requires run { IsOfRun J.found tx.tx }
    requires come { HasCome tx }
    ensures { HasClosedBy D.Disk J.opening (J.found).config J.devices close reads.items tx.entry result.0 result.1 }
{
    match close {
        Close::Commit => commit(rt, shared, tx, reads),
        Close::Abort => give_up(rt, shared, tx.quit(), Told::Aborted),
    }
}

/// Gives up an attempt that was stopped at a step, which is to be told.
fn stop_attempt<'s, 'a, R: Wait, D: Disk, J: MonitorRun<D>, C: Depart, Q: RequestsName, G: Gate>(
    rt: &R,
    shared: &Shared<'s, 'a, D, J, C, Q, G>,
    tx: Active<'a, J>,
    why: Told,
) -> (Seat<NodeMachine, J>, Told)
    requires shared { IsShared J.found shared.now.config.now shared.now.trails.now shared.now.discs.now }
    requires discs { HaveDiscs shared.now.discs.now tx.discs }
    requires run { IsOfRun J.found tx.tx }
    requires come { HasCome tx }
    ensures { HasQuitFor D.Disk J.opening (J.found).config J.devices tx.entry why result.0 result.1 }
{
    give_up(rt, shared, tx.quit(), why)
}

/// Goes on with an attempt that has begun, up to its end: it is closed once its steps are carried out, and given up where one is refused.
fn go_to_its_end<
    's,
    'a,
    't,
    R: Wait,
    D: Disk,
    J: MonitorRun<D>,
    C: Depart,
    Q: RequestsName,
    G: Gate,
>(
    rt: &R,
    shared: &Shared<'s, 'a, D, J, C, Q, G>,
    tx: Active<'a, J>,
    share: &mut Share<ActsOf<J>>,
    plan: Plan<'t>,
    reads: &mut Vec<(u8, Option<Value>)>,
) -> (Seat<NodeMachine, J>, Told)
    requires shared { IsShared J.found shared.now.config.now shared.now.trails.now shared.now.discs.now }
    requires may { MayGoToItsEnd J.found plan.steps.now reads.old tx share.old }
    ensures ended { HasGoneToItsEnd D.Disk J.opening (J.found).config J.devices plan.entry.steps.now plan.entry.close tx.entry share.old.amount (reach_at result.0 share.new) result.1 }
    ensures given { HasGivenSome (length plan.entry.steps.now) share.old share.new }
    ensures room { HasRoomAgain result.1 plan.entry.steps.now reads.new }
{
    let Plan {
        tx: _,
        steps,
        close,
    } = plan;
    let mut tx = tx;
    match carry_out_steps(rt, shared, &mut tx, share, steps, reads) {
        Ok(()) => {
            let id = tx.tx();
            shared
                .gate
                .pass(id.worker, id.ordinal, steps.len() as u8 + 1);
            close_attempt(rt, shared, tx, close, take_reads(reads))
        }
        Err((number, refusal)) => {
            reads.clear();
            let step = &steps[usize::from(number) - 1];
            stop_attempt(rt, shared, tx, told_by_refusal(number, step, refusal))
        }
    }
}

/// Begins an attempt, which nothing stands against, and goes on with it up to its end.
fn begin_and_run<
    's,
    'a,
    't,
    R: Wait,
    D: Disk,
    J: MonitorRun<D>,
    C: Depart,
    Q: RequestsName,
    G: Gate,
>(
    rt: &R,
    shared: &Shared<'s, 'a, D, J, C, Q, G>,
    seat: Seat<NodeMachine, J>,
    share: &mut Share<ActsOf<J>>,
    plan: Plan<'t>,
    reads: &mut Vec<(u8, Option<Value>)>,
) -> (Seat<NodeMachine, J>, Told)
    requires shared { IsShared J.found shared.now.config.now shared.now.trails.now shared.now.discs.now }
    requires node { IsNode (J.found).config shared.now.node.now.steps shared.now.node.now.monitor }
    requires may { MayAttempt J.opening J.found plan.tx plan.steps.now reads.old seat share.old }
    requires unspent { IsUnspent (J.found).config plan.tx seat.seen }
    ensures ended { HasBegunAndRun D.Disk J.opening (J.found).config J.devices plan.entry.tx plan.entry.steps.now plan.entry.close seat share.old.amount (reach_at result.0 share.new) result.1 }
    ensures given { HasGivenSome (length plan.entry.steps.now) share.old share.new }
    ensures room { HasRoomAgain result.1 plan.entry.steps.now reads.new }
{
    match begin(seat, plan.tx, shared.node) {
        Ok(active) => go_to_its_end(rt, shared, active, share, plan, reads),
        Err((seat, part)) => (seat, Told::Spent { part }),
    }
}

/// Makes one attempt at a transaction, from its begin to its end, unless its worker or the monitor has had as many events as the limit allows. Where it was busy, there is room again for the reads of the next one.
pub fn attempt<'s, 'a, 't, R: Wait, D: Disk, J: MonitorRun<D>, C: Depart, Q: RequestsName, G: Gate>(
    rt: &R,
    shared: &Shared<'s, 'a, D, J, C, Q, G>,
    seat: Seat<NodeMachine, J>,
    share: &mut Share<ActsOf<J>>,
    plan: Plan<'t>,
    reads: &mut Vec<(u8, Option<Value>)>,
) -> (Seat<NodeMachine, J>, Told)
    requires shared { IsShared J.found shared.now.config.now shared.now.trails.now shared.now.discs.now }
    requires node { IsNode (J.found).config shared.now.node.now.steps shared.now.node.now.monitor }
    requires may { MayAttempt J.opening J.found plan.tx plan.steps.now reads.old seat share.old }
    ensures attempted { HasAttempted D.Disk J.opening (J.found).config J.devices plan.entry.tx plan.entry.steps.now plan.entry.close (reach_at seat share.old) (reach_at result.0 share.new) result.1 }
    ensures given { HasGivenSome (length plan.entry.steps.now) share.old share.new }
    ensures room { HasRoomAgain result.1 plan.entry.steps.now reads.new }
{
    let mut seat = seat;
    match spent_at_begin(rt, shared, &mut seat, plan.tx) {
        Some(part) => (seat, Told::Spent { part }),
        None => begin_and_run(rt, shared, seat, share, plan, reads),
    }
}
