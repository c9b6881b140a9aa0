//! What the workers of each test do, and what they are answered.
ghost use Rattle.std.specs.Prelude.{◌≡◌, ◌<◌, [], ◌∷◌, map, IfOk, IfSome};
ghost use Rattle.disc_process.specs.Disc.{AreTrails};
ghost use Rattle.disc_lock.specs.Locks.{number_of};
ghost use Rattle.disc_lock.specs.Tokens.{MayGive};
ghost use Rattle.one_node.specs.OneNode.{AreHands, IsHand, IsOneRun, IsUnderWay, one_config, one_found};

use crate::parts::{Hand, Hands, first_of};
use crate::work::{Done, both, committed, controlled, only, written};
use audit_writer::{AuditWriter, DeviceRun, NodeRun};
use backout::{Hanging, back_out};
use boxcar_timer::Timer;
use chronicle::Seat;
use commit_boxcar::{Monitor, MonitorRun, RequestsName};
use disc_lock::DiscProcess;
use disk_model::Disk;
use node_machine::{By, NodeMachine};
use phase_one::Stopped;
use std::process::Abort;
use std::sync::Wait;
use std::test::*;
use std::thread::Threads;
use txn_states::{Active, NodeSeats};

/// What a test does.
#[derive(Clone, Copy)]
pub(crate) enum Case {
    TwoPhases,
    OneStopped,
    ThreeCommits,
    Control,
    BackOut,
    Hanging,
    ControlOfOne,
}

/// What a test does, and what the first three workers come with.
#[derive(Drop)]
pub(crate) struct Task<J: NodeRun> {
    pub(crate) case: Case,
    pub(crate) hands: Hands<J>,
}

/// Two phases at once, of which both are whole.
fn two_phases<'a, D: Disk + Send, J: DeviceRun<D> + Send + Sync, R: Abort + Threads + Wait + Sync>(
    rt: &R,
    node: &'a NodeSeats<'a, J>,
    discs: &[DiscProcess<'a, D, J>],
    trails: &[AuditWriter<'a, D, J>],
    first: Hand<J>,
    second: Hand<J>,
) -> Result<(), Fail>
    requires run { IsOneRun J.opening J.found }
    requires discs { map (λ d. number_of d) discs.now ≡ 1 ∷ [] }
    requires trails { AreTrails one_config trails.now }
    requires first { IsHand first.worker first.seat first.share }
    requires second { IsHand second.worker second.seat second.share }
{
    let (one, other) = both(rt, node, discs, trails, first, second);
    assert_eq!(rt; one, Some(Ok(())));
    assert_eq!(rt; other, Some(Ok(())));
    Ok(())
}

/// Two phases at once, of which one is stopped by the trail and the other is whole.
fn one_stopped<'a, D: Disk + Send, J: DeviceRun<D> + Send + Sync, R: Abort + Threads + Wait + Sync>(
    rt: &R,
    node: &'a NodeSeats<'a, J>,
    discs: &[DiscProcess<'a, D, J>],
    trails: &[AuditWriter<'a, D, J>],
    first: Hand<J>,
    second: Hand<J>,
) -> Result<(), Fail>
    requires run { IsOneRun J.opening J.found }
    requires discs { map (λ d. number_of d) discs.now ≡ 1 ∷ [] }
    requires trails { AreTrails one_config trails.now }
    requires first { IsHand first.worker first.seat first.share }
    requires second { IsHand second.worker second.seat second.share }
{
    let (one, other) = both(rt, node, discs, trails, first, second);
    let stopped = Some(Err(Stopped::Failed(1)));
    let whole = Some(Ok(()));
    let first_stops = one == stopped && other == whole;
    let second_stops = one == whole && other == stopped;
    assert!(rt; first_stops || second_stops);
    Ok(())
}

/// Three workers commit eight puts each, one worker behind the other. What the last one has then.
fn three_commits<'a, D: Disk, J: MonitorRun<D>, Q: RequestsName, R: Wait>(
    rt: &R,
    node: &'a NodeSeats<'a, J>,
    discs: &[DiscProcess<'a, D, J>],
    trails: &[AuditWriter<'a, D, J>],
    monitor: &Monitor<'a, D, J, Timer, Q>,
    hands: Hands<J>,
) -> Option<Done<J>>
    requires run { IsOneRun J.opening J.found }
    requires discs { map (λ d. number_of d) discs.now ≡ 1 ∷ [] }
    requires trails { AreTrails one_config trails.now }
    requires hands { AreHands hands.first.worker hands.first.seat hands.first.share hands.second.worker hands.second.seat hands.second.share hands.third.worker hands.third.seat hands.third.share }
    ensures { IfSome result (λ done. MayGive done.share) }
{
    let Hands {
        first,
        second,
        third,
    } = hands;
    let work = written(rt, node, only(discs), trails, first, 8)?;
    committed(rt, monitor, discs, trails, work)?;
    let work = written(rt, node, only(discs), trails, second, 8)?;
    committed(rt, monitor, discs, trails, work)?;
    let work = written(rt, node, only(discs), trails, third, 8)?;
    committed(rt, monitor, discs, trails, work)
}

/// Three commits, and then a control point: its low position is behind all of them.
fn purged<'a, D: Disk, J: MonitorRun<D>, Q: RequestsName, R: Abort + Wait>(
    rt: &R,
    node: &'a NodeSeats<'a, J>,
    discs: &[DiscProcess<'a, D, J>],
    trails: &[AuditWriter<'a, D, J>],
    monitor: &Monitor<'a, D, J, Timer, Q>,
    hands: Hands<J>,
) -> Result<(), Fail>
    requires run { IsOneRun J.opening J.found }
    requires discs { map (λ d. number_of d) discs.now ≡ 1 ∷ [] }
    requires trails { AreTrails one_config trails.now }
    requires hands { AreHands hands.first.worker hands.first.seat hands.first.share hands.second.worker hands.second.seat hands.second.share hands.third.worker hands.third.seat hands.third.share }
{
    let Some(done) = three_commits(rt, node, discs, trails, monitor, hands) else {
        return Err(Fail::new("not committed"));
    };
    assert_eq!(rt; controlled(rt, discs, trails, done, 3), Ok(25));
    Ok(())
}

/// Three commits, and no control point.
fn all_committed<'a, D: Disk, J: MonitorRun<D>, Q: RequestsName, R: Wait>(
    rt: &R,
    node: &'a NodeSeats<'a, J>,
    discs: &[DiscProcess<'a, D, J>],
    trails: &[AuditWriter<'a, D, J>],
    monitor: &Monitor<'a, D, J, Timer, Q>,
    hands: Hands<J>,
) -> Result<(), Fail>
    requires run { IsOneRun J.opening J.found }
    requires discs { map (λ d. number_of d) discs.now ≡ 1 ∷ [] }
    requires trails { AreTrails one_config trails.now }
    requires hands { AreHands hands.first.worker hands.first.seat hands.first.share hands.second.worker hands.second.seat hands.second.share hands.third.worker hands.third.seat hands.third.share }
{
    match three_commits(rt, node, discs, trails, monitor, hands) {
        Some(_) => Ok(()),
        None => Err(Fail::new("not committed")),
    }
}

/// A transaction hangs, and its backout names the monitor's device.
fn hanging<'a, D: Disk, J: MonitorRun<D>, Q: RequestsName, R: Abort + Wait>(
    rt: &R,
    discs: &[DiscProcess<'a, D, J>],
    trails: &[AuditWriter<'a, D, J>],
    monitor: &Monitor<'a, D, J, Timer, Q>,
    active: Active<'a, J>,
) -> Result<(), Fail>
    requires found { J.found ≡ one_found }
    requires discs { map (λ d. number_of d) discs.now ≡ 1 ∷ [] }
    requires trails { AreTrails one_config trails.now }
    requires active { IsUnderWay active }
{
    let Err((_, why)) = back_out(rt, active.quit(), discs, trails, monitor) else {
        return Err(Fail::new("backed out"));
    };
    assert_eq!(rt; why, Hanging::Failed(0));
    Ok(())
}

/// A transaction is backed out, and then its audit is landed.
fn backed_out<'a, D: Disk, J: MonitorRun<D>, Q: RequestsName, R: Abort + Wait>(
    rt: &R,
    discs: &[DiscProcess<'a, D, J>],
    trails: &[AuditWriter<'a, D, J>],
    monitor: &Monitor<'a, D, J, Timer, Q>,
    active: Active<'a, J>,
) -> Result<(), Fail>
    requires found { J.found ≡ one_found }
    requires discs { map (λ d. number_of d) discs.now ≡ 1 ∷ [] }
    requires trails { AreTrails one_config trails.now }
    requires active { IsUnderWay active }
{
    let Ok(ended) = back_out(rt, active.quit(), discs, trails, monitor) else {
        return Err(Fail::new("hanging"));
    };
    assert!(rt; ended.receipt().is_none());
    let mut seat = ended.into_seat();
    assert!(rt; landed(rt, only(discs), trails, &mut seat));
    Ok(())
}

/// Lands what waits at the disc, and tells whether that was done.
fn landed<'a, D: Disk, J: DeviceRun<D>, R: Wait>(
    rt: &R,
    disc: &DiscProcess<'a, D, J>,
    trails: &[AuditWriter<'a, D, J>],
    seat: &mut Seat<NodeMachine, J>,
) -> bool
    requires found { J.found ≡ one_found }
    requires trails { AreTrails one_config trails.now }
{
    let by = By::Attempt(first_of(1));
    disc.lock(rt).flush(rt, by, seat, trails).is_ok()
}

/// Two workers put one behind the other; the first of them commits, and the second is under way when it makes a control point. The low position is that of
/// the change which is under way. Then the second hangs.
fn unfinished_kept<'a, D: Disk, J: MonitorRun<D>, Q: RequestsName, R: Abort + Wait>(
    rt: &R,
    node: &'a NodeSeats<'a, J>,
    discs: &[DiscProcess<'a, D, J>],
    trails: &[AuditWriter<'a, D, J>],
    monitor: &Monitor<'a, D, J, Timer, Q>,
    hands: Hands<J>,
) -> Result<(), Fail>
    requires run { IsOneRun J.opening J.found }
    requires discs { map (λ d. number_of d) discs.now ≡ 1 ∷ [] }
    requires trails { AreTrails one_config trails.now }
    requires hands { AreHands hands.first.worker hands.first.seat hands.first.share hands.second.worker hands.second.seat hands.second.share hands.third.worker hands.third.seat hands.third.share }
{
    let Some(work) = written(rt, node, only(discs), trails, hands.second, 1) else {
        return Err(Fail::new("not written"));
    };
    let Some(done) = committed(rt, monitor, discs, trails, work) else {
        return Err(Fail::new("not committed"));
    };
    let Some(held) = written(rt, node, only(discs), trails, hands.first, 1) else {
        return Err(Fail::new("not written"));
    };
    assert_eq!(rt; controlled(rt, discs, trails, done, 2), Ok(2));
    hanging(rt, discs, trails, monitor, held.active)
}

/// The first worker's transaction, which has put so many values.
fn first_written<'a, D: Disk, J: DeviceRun<D>, R: Wait>(
    rt: &R,
    node: &'a NodeSeats<'a, J>,
    discs: &[DiscProcess<'a, D, J>],
    trails: &[AuditWriter<'a, D, J>],
    first: Hand<J>,
    count: u8,
) -> Result<Active<'a, J>, Fail>
    requires run { IsOneRun J.opening J.found }
    requires discs { map (λ d. number_of d) discs.now ≡ 1 ∷ [] }
    requires trails { AreTrails one_config trails.now }
    requires first { IsHand first.worker first.seat first.share }
    requires few { count < 16 }
    ensures { IfOk result IsUnderWay }
{
    match written(rt, node, only(discs), trails, first, count) {
        Some(work) => Ok(work.active),
        None => Err(Fail::new("not written")),
    }
}

/// What the workers of a test do.
pub(crate) fn done<
    'a,
    D: Disk + Send,
    J: MonitorRun<D> + Send + Sync,
    Q: RequestsName,
    R: Abort + Threads + Wait + Sync,
>(
    rt: &R,
    node: &'a NodeSeats<'a, J>,
    discs: &[DiscProcess<'a, D, J>],
    trails: &[AuditWriter<'a, D, J>],
    monitor: &Monitor<'a, D, J, Timer, Q>,
    task: Task<J>,
) -> Result<(), Fail>
    requires run { IsOneRun J.opening J.found }
    requires discs { map (λ d. number_of d) discs.now ≡ 1 ∷ [] }
    requires trails { AreTrails one_config trails.now }
    requires hands { AreHands task.hands.first.worker task.hands.first.seat task.hands.first.share task.hands.second.worker task.hands.second.seat task.hands.second.share task.hands.third.worker task.hands.third.seat task.hands.third.share }
{
    let Task { case, hands } = task;
    match case {
        Case::TwoPhases => two_phases(rt, node, discs, trails, hands.first, hands.second),
        Case::OneStopped => one_stopped(rt, node, discs, trails, hands.first, hands.second),
        Case::ThreeCommits => all_committed(rt, node, discs, trails, monitor, hands),
        Case::Control => purged(rt, node, discs, trails, monitor, hands),
        Case::ControlOfOne => unfinished_kept(rt, node, discs, trails, monitor, hands),
        Case::BackOut => {
            let active = first_written(rt, node, discs, trails, hands.first, 2)?;
            backed_out(rt, discs, trails, monitor, active)
        }
        Case::Hanging => {
            let active = first_written(rt, node, discs, trails, hands.first, 1)?;
            hanging(rt, discs, trails, monitor, active)
        }
    }
}
