//! What the workers do: puts at the disc, phase one, a commit, and a control point.
ghost use Rattle.std.specs.Prelude.{◌≡◌, ◌<◌, ◌≤◌, ◌+◌, [], ◌∷◌, map, true, IfSome};
ghost use Rattle.tmf_model.specs.Transid.{is_transid};
ghost use Rattle.txn_states.specs.Txn.{with_disc};
ghost use Rattle.disc_process.specs.Disc.{AreTrails};
ghost use Rattle.disc_lock.specs.Locks.{number_of};
ghost use Rattle.disc_lock.specs.Tokens.{MayGive};
ghost use Rattle.one_node.specs.OneNode.{IsHand, IsOneRun, IsUnderWay, one_config, one_found};

use crate::parts::{Hand, attempt, second_of};
use audit_writer::{AuditWriter, DeviceRun, NodeRun};
use boxcar_timer::Timer;
use chronicle::Seat;
use commit_boxcar::{Monitor, MonitorRun, RequestsName};
use control_point::{ControlRefused, control};
use disc_lock::{ActsOf, DiscProcess};
use disk_model::Disk;
use node_machine::NodeMachine;
use phase_one::{Stopped, run};
use std::sync::Wait;
use std::sync::ledger::Share;
use std::thread::{Threads, join};
use tmf_model::{Key, Op, Step, Value};
use txn_states::{Active, NodeSeats, begin};

/// The key of a worker.
pub(crate) fn key_of(worker: u16) -> [u8; 2] {
    match worker {
        1 => *b"k1",
        2 => *b"k2",
        _ => *b"k3",
    }
}

/// A put at a worker's key, of a value of one letter: a, b and so on.
fn step_of(worker: u16, number: u8) -> Option<Step>
    requires { number < 16 }
    ensures { IfSome result (λ step. step.file ≡ 1) }
{
    Some(Step {
        file: 1,
        key: Key::new(&key_of(worker)).ok()?,
        op: Op::Put(Value::new(&[b'a' + number]).ok()?),
    })
}

/// The only disc.
pub(crate) fn only<'b, 'a, D: Disk, J: DeviceRun<D>>(
    discs: &'b [DiscProcess<'a, D, J>],
) -> &'b DiscProcess<'a, D, J>
    requires { map (λ d. number_of d) discs.now ≡ 1 ∷ [] }
    ensures { number_of result.now ≡ 1 }
{
    &discs[0]
}

/// Asks for a step in one hold of the disc's lock, and tells whether it was carried out.
fn put<'a, D: Disk, J: DeviceRun<D>, R: Wait>(
    rt: &R,
    tx: &mut Active<'a, J>,
    disc: &DiscProcess<'a, D, J>,
    trails: &[AuditWriter<'a, D, J>],
    step: &Step,
    share: &mut Share<ActsOf<J>>,
) -> bool
    requires run { (J.found ≡ one_found) × (number_of disc.now ≡ 1) }
    requires trails { AreTrails one_config trails.now }
    requires valid { is_transid tx.old.tx ≡ true }
    requires step { step.now.file ≡ 1 }
    requires token { MayGive share.old }
    ensures tx { tx.new.tx ≡ tx.old.tx }
    ensures discs { result ≡ true → tx.new.discs ≡ with_disc 1 tx.old.discs }
    ensures given { (share.new.parts ≡ share.old.parts) × (share.old.amount ≤ share.new.amount + 1) }
{
    disc.lock(rt).write(rt, tx, trails, step, share).is_ok()
}

/// A transaction that is under way, and the tokens that its worker has left.
#[derive(Drop)]
pub(crate) struct Work<'a, J: NodeRun> {
    pub(crate) active: Active<'a, J>,
    pub(crate) share: Share<ActsOf<J>>,
}

/// The first attempt of a worker, which has put so many values at its key, one behind the other, each carried out.
pub(crate) fn written<'a, D: Disk, J: DeviceRun<D>, R: Wait>(
    rt: &R,
    node: &'a NodeSeats<'a, J>,
    disc: &DiscProcess<'a, D, J>,
    trails: &[AuditWriter<'a, D, J>],
    hand: Hand<J>,
    count: u8,
) -> Option<Work<'a, J>>
    requires run { IsOneRun J.opening J.found × (number_of disc.now ≡ 1) }
    requires trails { AreTrails one_config trails.now }
    requires hand { IsHand hand.worker hand.seat hand.share }
    requires few { count < 16 }
    ensures { IfSome result (λ work. IsUnderWay work.active × MayGive work.share) }
{
    let Hand {
        worker,
        seat,
        mut share,
    } = hand;
    let tx = attempt(&seat, worker);
    let Ok(mut active) = begin(seat, tx, node) else {
        return None;
    };
    for number in 0..count {
        let step = step_of(worker, number)?;
        if !put(rt, &mut active, disc, trails, &step, &mut share) {
            return None;
        }
    }
    Some(Work { active, share })
}

/// What phase one of a transaction comes to. Where it is stopped, the very transaction comes back.
fn phase_of<'a, D: Disk, J: DeviceRun<D>, R: Wait>(
    rt: &R,
    discs: &[DiscProcess<'a, D, J>],
    trails: &[AuditWriter<'a, D, J>],
    active: Active<'a, J>,
) -> Option<Result<(), Stopped>>
    requires found { J.found ≡ one_found }
    requires discs { map (λ d. number_of d) discs.now ≡ 1 ∷ [] }
    requires trails { AreTrails one_config trails.now }
    requires active { IsUnderWay active }
{
    let tx = active.tx();
    match run(rt, active.end(), discs, trails) {
        Ok(flushed) if flushed.tx() == tx => Some(Ok(())),
        Err((ending, why)) if ending.tx() == tx => Some(Err(why)),
        _ => None,
    }
}

/// A worker puts a value, and goes through phase one.
fn put_and_flushed<'a, D: Disk, J: DeviceRun<D>, R: Wait>(
    rt: &R,
    node: &'a NodeSeats<'a, J>,
    discs: &[DiscProcess<'a, D, J>],
    trails: &[AuditWriter<'a, D, J>],
    hand: Hand<J>,
) -> Option<Result<(), Stopped>>
    requires run { IsOneRun J.opening J.found }
    requires discs { map (λ d. number_of d) discs.now ≡ 1 ∷ [] }
    requires trails { AreTrails one_config trails.now }
    requires hand { IsHand hand.worker hand.seat hand.share }
{
    let work = written(rt, node, only(discs), trails, hand, 1)?;
    phase_of(rt, discs, trails, work.active)
}

/// The phases of two workers, on two threads.
pub(crate) fn both<'a, D: Disk + Send, J: DeviceRun<D> + Send + Sync, R: Threads + Wait + Sync>(
    rt: &R,
    node: &'a NodeSeats<'a, J>,
    discs: &[DiscProcess<'a, D, J>],
    trails: &[AuditWriter<'a, D, J>],
    first: Hand<J>,
    second: Hand<J>,
) -> (Option<Result<(), Stopped>>, Option<Result<(), Stopped>>)
    requires run { IsOneRun J.opening J.found }
    requires discs { map (λ d. number_of d) discs.now ≡ 1 ∷ [] }
    requires trails { AreTrails one_config trails.now }
    requires first { IsHand first.worker first.seat first.share }
    requires second { IsHand second.worker second.seat second.share }
{
    join(
        rt,
        || put_and_flushed(rt, node, discs, trails, first),
        || put_and_flushed(rt, node, discs, trails, second),
    )
}

/// What a worker has behind a transaction: its seat, and the tokens that it has left.
#[derive(Drop)]
pub(crate) struct Done<J: NodeRun> {
    pub(crate) seat: Seat<NodeMachine, J>,
    pub(crate) share: Share<ActsOf<J>>,
}

/// A transaction is committed: its audit lands, its commit is recorded, and it releases at the disc.
pub(crate) fn committed<'a, D: Disk, J: MonitorRun<D>, Q: RequestsName, R: Wait>(
    rt: &R,
    monitor: &Monitor<'a, D, J, Timer, Q>,
    discs: &[DiscProcess<'a, D, J>],
    trails: &[AuditWriter<'a, D, J>],
    work: Work<'a, J>,
) -> Option<Done<J>>
    requires found { J.found ≡ one_found }
    requires discs { map (λ d. number_of d) discs.now ≡ 1 ∷ [] }
    requires trails { AreTrails one_config trails.now }
    requires work { IsUnderWay work.active × MayGive work.share }
    ensures { IfSome result (λ done. MayGive done.share) }
{
    let Work { active, share } = work;
    let Ok(flushed) = run(rt, active.end(), discs, trails) else {
        return None;
    };
    let Ok(mut ended) = monitor.settle(rt, flushed) else {
        return None;
    };
    only(discs).lock(rt).release(&mut ended);
    let seat = ended.into_seat();
    Some(Done { seat, share })
}

/// A control point of the only volume, for a worker's second item. Its move takes one of the worker's tokens.
pub(crate) fn controlled<'a, D: Disk, J: DeviceRun<D>, R: Wait>(
    rt: &R,
    discs: &[DiscProcess<'a, D, J>],
    trails: &[AuditWriter<'a, D, J>],
    done: Done<J>,
    worker: u16,
) -> Result<u64, ControlRefused>
    requires found { J.found ≡ one_found }
    requires discs { map (λ d. number_of d) discs.now ≡ 1 ∷ [] }
    requires trails { AreTrails one_config trails.now }
    requires token { MayGive done.share }
{
    let Done {
        mut seat,
        mut share,
    } = done;
    control(
        rt,
        only(discs),
        trails,
        &mut seat,
        second_of(worker),
        &mut share,
    )
}
