//! What no clause says: that the calls succeed where there is memory and no call of the device fails, and that threads share a car.
ghost use Rattle.std.specs.Prelude.{◌≡◌, ◌<◌, ◌≤◌, [], ◌∷◌, true, IsTrue, IfOk, OnOk};
ghost use Rattle.chronicle.specs.Seats.{new_seat, new_seats};
ghost use Rattle.node_machine.specs.Opening.{opening_parts};
ghost use Rattle.trail_files.specs.Content.{no_content};
ghost use Rattle.trail_files.specs.Holds.{Holds, Keeps};
ghost use Rattle.trail_files.specs.Trail.{IsWritable};
ghost use Rattle.commit_boxcar.specs.FirstRun.{attempt_of, first_content, first_found, first_of, HasBegunNext, HasDecided, HasStart, IsEmpty, IsFirstRun};
ghost use Rattle.commit_boxcar.specs.Monitor.{monitor_formats};
ghost use Rattle.commit_boxcar.specs.Settled.{IsOfRun};

use crate::many::{run_four, run_three, run_two_cars};
use audit_writer::NodeRun;
use boxcar_timer::Depart;
use chronicle::{Chronicle, Seat, Started};
use commit_boxcar::{
    Monitor, MonitorRun, MonitorSeat, MonitorState, OpenRequests, PopEnd, RequestsName,
    open_requests,
};
use disk_model::{Disk, MemDisk};
use node_machine::{Finds, NodeMachine, Opening};
use std::alloc::Global;
use std::marker::Brand;
use std::process::Abort;
use std::sync::Wait;
use std::test::*;
use std::thread;
use std::thread::{Threads, join};
use tmf_model::{Config, Sequence, Transid};
use trail_files::{MonitorRecord, Rules, Trail, TrailPhase};
use txn_states::{Active, Flushed, NodeSeats, Undone, begin};

/// The first run of a node without trails and volumes.
struct FirstRun;

impl Finds for FirstRun {
    ghost use Rattle.commit_boxcar.specs.FirstRun.{first_found};

    ghost found = { λ _. first_found };
}

/// Holds each car so often at most, while fewer requests are in the room; it turns in each hold, and keeps how often it was asked, and with
/// which numbers last.
#[derive(Drop)]
pub(crate) struct Holding {
    most: u32,
    until: u32,
    turns: u32,
    asked: u32,
    waiting: u32,
    holds: u32,
}

impl Holding {
    fn new(most: u32, until: u32, turns: u32) -> Holding {
        Holding {
            most,
            until,
            turns,
            asked: 0,
            waiting: 0,
            holds: 0,
        }
    }
}

impl Depart for Holding {
    fn hold(&mut self, waiting: u32, holds: u32) -> bool {
        for turn in 0..self.turns {
            if turn % 100 == 0 {
                thread::yield_now();
            }
        }
        self.asked = self.asked.saturating_add(1);
        self.waiting = waiting;
        self.holds = holds;
        holds < self.most && waiting < self.until
    }
}

/// What a test does.
#[derive(Clone, Copy)]
enum Case {
    CommitAndAbort,
    OneCar,
    FailedGate,
    ThreeInACar,
    TwoCars,
    FourProducers,
}

fn config(alloc: Global) -> Config {
    Config {
        trails: Sequence::new(Vec::new(alloc)),
        volumes: Sequence::new(Vec::new(alloc)),
        files: Sequence::new(Vec::new(alloc)),
        cache: 0,
        car_count: 0,
        car_holds: 0,
        roll: 0,
        steps: 0,
    }
}

// An empty trail.
fn formatted<D: Disk + Drop>(alloc: Global, device: D) -> Result<Trail<D, MonitorRecord>, Fail>
    requires { IsTrue (D.tells device) }
    ensures { IfOk result (IsEmpty D.Disk) }
{
    let rules = Rules {
        roll: 4096,
        trail: 0,
        discs: Sequence::new(Vec::new(alloc)),
        files: Sequence::new(Vec::new(alloc)),
    };
    match Trail::format(alloc, device, rules) {
        Ok(trail) => Ok(trail),
        Err(_) => Err(Fail::new("no trail")),
    }
}

// Lands the first start.
fn land_start<D: Disk>(trail: &mut Trail<D, MonitorRecord>) -> Result<(), Fail>
    requires ready { trail.old.phase ≡ TrailPhase.Ready }
    requires writable { IsWritable D.tells D.held trail.old }
    ensures holds { Holds D.Disk monitor_formats trail.old no_content → IfOk result (λ _. Holds D.Disk monitor_formats trail.new first_content) }
    ensures keeps { Keeps D.Disk trail.old trail.new }
    ensures phase { OnOk result (trail.new.phase ≡ TrailPhase.Ready) }
    ensures writable { OnOk result (IsWritable D.tells D.held trail.new) }
{
    if !trail.fits(1) {
        return Err(Fail::new("no room"));
    }
    let start = [MonitorRecord::Start(1)];
    trail.load(&start).map_err(|_| "failed")?;
    trail.gate().map_err(|_| "failed")?;
    Ok(())
}

// A trail with its first start.
fn begun<D: Disk + Drop>(alloc: Global, device: D) -> Result<Trail<D, MonitorRecord>, Fail>
    requires { IsTrue (D.tells device) }
    ensures { IfOk result (HasStart D.Disk) }
{
    let mut trail = formatted(alloc, device)?;
    land_start(&mut trail)?;
    Ok(trail)
}

fn started(alloc: Global) -> Result<Started<NodeMachine>, Fail>
    ensures { IfOk result (λ s. s.states ≡ opening_parts first_found) }
{
    match Started::<NodeMachine>::new(alloc, 37, &Opening { from: &FirstRun }) {
        Ok(started) => Ok(started),
        Err(_) => Err(Fail::new("no memory")),
    }
}

// The monitor of this run.
fn attached<'a, D: Disk + Drop, J: MonitorRun<D>, Q: RequestsName>(
    alloc: Global,
    chronicle: &'a Chronicle<NodeMachine, J>,
    seat: Seat<NodeMachine, J>,
    trail: Trail<D, MonitorRecord>,
    decide: Holding,
    end: PopEnd<J, Q>,
) -> Result<MonitorState<'a, D, J, Holding, Q>, Fail>
    requires seat { seat ≡ new_seat 28 }
    requires run { IsFirstRun D.Disk J.opening J.found J.before J.faults J.premise J.devices trail }
    ensures { IfOk result (λ w. w.seat.part.events ≡ []) }
{
    let seat = MonitorSeat::attach(chronicle, seat);
    match MonitorState::attach(alloc, trail, 1, seat, decide, end) {
        Ok(state) => Ok(state),
        Err(_) => Err(Fail::new("no memory")),
    }
}

pub(crate) fn attempt_of(worker: u16, ordinal: u16) -> Transid
    ensures { result ≡ attempt_of worker ordinal }
{
    Transid {
        epoch: 1,
        worker,
        ordinal,
        attempt: 1,
    }
}

fn first_of(worker: u16) -> Transid
    ensures { result ≡ first_of worker }
{
    attempt_of(worker, 1)
}

// A worker that has decided so many commits begins its next item, which enlists no disc.
pub(crate) fn begun_next<'n, J: NodeRun>(
    seat: Seat<NodeMachine, J>,
    worker: u16,
    done: u16,
    node: &'n NodeSeats<'n, J>,
) -> Result<Active<'n, J>, Fail>
    requires worker { 1 ≤ worker }
    requires done { done < 4096 }
    requires seat { HasDecided J.opening worker done seat }
    ensures { IfOk result (HasBegunNext J.opening worker done) }
{
    match begin(seat, attempt_of(worker, done + 1), node) {
        Ok(active) => Ok(active),
        Err(_) => Err(Fail::new("refused")),
    }
}

// A worker's first attempt, which is to be committed.
pub(crate) fn flushed<'n, J: NodeRun>(
    seat: Seat<NodeMachine, J>,
    worker: u16,
    node: &'n NodeSeats<'n, J>,
) -> Result<Flushed<'n, J>, Fail>
    requires worker { 1 ≤ worker }
    requires seat { HasDecided J.opening worker 0 seat }
    ensures { IfOk result (λ f. f.tx ≡ first_of worker) }
{
    let active = begun_next(seat, worker, 0, node)?;
    Ok(active.end().flushed())
}

// A worker's first attempt, which is backed out.
fn undone<'n, J: NodeRun>(
    seat: Seat<NodeMachine, J>,
    worker: u16,
    node: &'n NodeSeats<'n, J>,
) -> Result<Undone<'n, J>, Fail>
    requires worker { 1 ≤ worker }
    requires seat { HasDecided J.opening worker 0 seat }
    ensures { IfOk result (λ u. u.tx ≡ first_of worker) }
{
    let active = begun_next(seat, worker, 0, node)?;
    Ok(active.quit().done())
}

// The trail has the start, worker 1's commit, and this record.
fn read_back<D: Disk + Drop, R: Abort>(
    rt: &R,
    mut trail: Trail<D, MonitorRecord>,
    last: MonitorRecord,
) -> Result<(), Fail> {
    let mut cursor = trail.cursor();
    let wanted = [
        MonitorRecord::Start(1),
        MonitorRecord::Commit(first_of(1)),
        last,
    ];
    for want in wanted {
        let Ok(Some(found)) = trail.next(&mut cursor) else {
            return Err(Fail::new("no record"));
        };
        assert_eq!(rt; found, want);
    }
    assert_eq!(rt; trail.next(&mut cursor), Ok(None));
    Ok(())
}

// A commit and an abort, each in a car of its own, which was held twice.
fn settle_both<'a, 'm, 'n, D: Disk + Drop, J: MonitorRun<D>, Q: RequestsName, R: Abort + Wait>(
    rt: &R,
    monitor: Monitor<'a, D, J, Holding, Q>,
    first: Flushed<'m, J>,
    second: Undone<'n, J>,
) -> Result<(), Fail>
    requires first { IsOfRun J.found first.tx }
    requires second { IsOfRun J.found second.tx }
{
    let Ok(ended) = monitor.settle(rt, first) else {
        return Err(Fail::new("in doubt"));
    };
    assert_eq!(rt; ended.receipt().map(|r| r.place), Some(2));
    let Ok(ended) = monitor.record_abort(rt, second) else {
        return Err(Fail::new("in doubt"));
    };
    assert!(rt; ended.receipt().is_none());
    let state = monitor.into_state();
    assert_eq!(rt; state.events(), 4);
    let (trail, _seat, decide, _) = state.into_parts();
    assert_eq!(rt; decide.asked, 6);
    assert_eq!(rt; (decide.waiting, decide.holds), (1, 2));
    read_back(rt, trail, MonitorRecord::Abort(first_of(2)))
}

// The gate of the first commit fails; the second one's call lands both, each in a car of its own.
fn settle_after_fault<
    'a,
    'm,
    'n,
    D: Disk + Drop,
    J: MonitorRun<D>,
    Q: RequestsName,
    R: Abort + Wait,
>(
    rt: &R,
    monitor: Monitor<'a, D, J, Holding, Q>,
    first: Flushed<'m, J>,
    second: Flushed<'n, J>,
) -> Result<(), Fail>
    requires first { IsOfRun J.found first.tx }
    requires second { IsOfRun J.found second.tx }
{
    assert!(rt; monitor.settle(rt, first).is_err());
    let Ok(ended) = monitor.settle(rt, second) else {
        return Err(Fail::new("in doubt"));
    };
    assert_eq!(rt; ended.receipt().map(|r| r.place), Some(3));
    let state = monitor.into_state();
    assert_eq!(rt; state.events(), 5);
    let (trail, _seat, _, _) = state.into_parts();
    read_back(rt, trail, MonitorRecord::Commit(first_of(2)))
}

// Whether the commit stands in the trail.
pub(crate) fn is_settled<'a, 'n, D: Disk, J: MonitorRun<D>, Q: RequestsName, R: Wait>(
    rt: &R,
    monitor: &Monitor<'a, D, J, Holding, Q>,
    tx: Flushed<'n, J>,
) -> bool
    requires { IsOfRun J.found tx.tx }
{
    monitor.settle(rt, tx).is_ok()
}

// Two threads settle, and both records stand in one car.
fn settle_together<
    'a,
    'm,
    'n,
    D: Disk + Drop + Send,
    J: MonitorRun<D> + Send + Sync,
    Q: RequestsName + Send + Sync,
    R: Abort + Threads + Wait + Sync,
>(
    rt: &R,
    monitor: Monitor<'a, D, J, Holding, Q>,
    first: Flushed<'m, J>,
    second: Flushed<'n, J>,
) -> Result<(), Fail>
    requires first { IsOfRun J.found first.tx }
    requires second { IsOfRun J.found second.tx }
{
    let (a, b) = join(
        rt,
        || is_settled(rt, &monitor, first),
        || is_settled(rt, &monitor, second),
    );
    assert!(rt; a && b);
    assert_eq!(rt; monitor.into_state().events(), 2);
    Ok(())
}

/// The seats of the first five workers.
#[derive(Drop)]
pub(crate) struct Workers<J: NodeRun> {
    pub(crate) first: Seat<NodeMachine, J>,
    pub(crate) second: Seat<NodeMachine, J>,
    pub(crate) third: Seat<NodeMachine, J>,
    pub(crate) fourth: Seat<NodeMachine, J>,
    pub(crate) fifth: Seat<NodeMachine, J>,
}

// The seats of the monitor and of the first five workers.
fn seats_of<J: NodeRun>(mut seats: Vec<Seat<NodeMachine, J>>) -> (Seat<NodeMachine, J>, Workers<J>)
    requires { seats.items ≡ new_seats 37 }
    ensures monitor { result.0 ≡ new_seat 28 }
    ensures first { result.1.first ≡ new_seat 0 }
    ensures second { result.1.second ≡ new_seat 1 }
    ensures third { result.1.third ≡ new_seat 2 }
    ensures fourth { result.1.fourth ≡ new_seat 3 }
    ensures fifth { result.1.fifth ≡ new_seat 4 }
{
    let monitor = seats.swap_remove(28);
    let fifth = seats.swap_remove(4);
    let fourth = seats.swap_remove(3);
    let third = seats.swap_remove(2);
    let second = seats.swap_remove(1);
    let first = seats.swap_remove(0);
    let workers = Workers {
        first,
        second,
        third,
        fourth,
        fifth,
    };
    (monitor, workers)
}

// A commit of the first worker and an abort of the second.
fn run_both<'a, 'n, D: Disk + Drop, J: MonitorRun<D>, Q: RequestsName, R: Abort + Wait>(
    rt: &R,
    monitor: Monitor<'a, D, J, Holding, Q>,
    seats: Workers<J>,
    node: &'n NodeSeats<'n, J>,
) -> Result<(), Fail>
    requires found { J.found ≡ first_found }
    requires first { HasDecided J.opening 1 0 seats.first }
    requires second { HasDecided J.opening 2 0 seats.second }
{
    let committing = flushed(seats.first, 1, node)?;
    let aborting = undone(seats.second, 2, node)?;
    settle_both(rt, monitor, committing, aborting)
}

// Two commits, by two threads.
fn run_together<
    'a,
    'n,
    D: Disk + Drop + Send,
    J: MonitorRun<D> + Send + Sync,
    Q: RequestsName + Send + Sync,
    R: Abort + Threads + Wait + Sync,
>(
    rt: &R,
    monitor: Monitor<'a, D, J, Holding, Q>,
    seats: Workers<J>,
    node: &'n NodeSeats<'n, J>,
) -> Result<(), Fail>
    requires found { J.found ≡ first_found }
    requires first { HasDecided J.opening 1 0 seats.first }
    requires second { HasDecided J.opening 2 0 seats.second }
{
    let committing = flushed(seats.first, 1, node)?;
    let other = flushed(seats.second, 2, node)?;
    settle_together(rt, monitor, committing, other)
}

// Two commits, the first of which meets a failing call.
fn run_after_fault<'a, 'n, D: Disk + Drop, J: MonitorRun<D>, Q: RequestsName, R: Abort + Wait>(
    rt: &R,
    monitor: Monitor<'a, D, J, Holding, Q>,
    seats: Workers<J>,
    node: &'n NodeSeats<'n, J>,
) -> Result<(), Fail>
    requires found { J.found ≡ first_found }
    requires first { HasDecided J.opening 1 0 seats.first }
    requires second { HasDecided J.opening 2 0 seats.second }
{
    let committing = flushed(seats.first, 1, node)?;
    let next = flushed(seats.second, 2, node)?;
    settle_after_fault(rt, monitor, committing, next)
}

/// A node without trails and volumes, and what a test does.
#[derive(Drop)]
struct Setup {
    config: Config,
    case: Case,
}

// What holds a test's cars.
fn what_holds(case: Case) -> Holding {
    match case {
        Case::CommitAndAbort => Holding::new(2, 64, 0),
        Case::OneCar => Holding::new(1000, 2, 100_000),
        Case::FailedGate => Holding::new(0, 0, 0),
        Case::ThreeInACar => Holding::new(0, 0, 0),
        Case::TwoCars => Holding::new(0, 0, 0),
        Case::FourProducers => Holding::new(10, 64, 1000),
    }
}

// The run with its queue under its name.
fn run_queued<
    D: Disk + Drop + Send,
    J: MonitorRun<D> + Send + Sync,
    Q: RequestsName + Send + Sync,
    R: Abort + Threads + Wait + Sync,
>(
    rt: &R,
    alloc: Global,
    started: Started<NodeMachine>,
    trail: Trail<D, MonitorRecord>,
    queue: OpenRequests<J>,
    setup: &Setup,
) -> Result<(), Fail>
    requires name { (started.table ≡ J.table) × (started.states ≡ J.opening) }
    requires named { queue ≡ Q.queue }
    requires opening { J.opening ≡ opening_parts first_found }
    requires run { IsFirstRun D.Disk J.opening J.found J.before J.faults J.premise J.devices trail }
{
    let (chronicle, seats) = started.named::<J>(alloc).map_err(|_| "memory")?;
    let (seat, workers) = seats_of(seats);
    let node = NodeSeats {
        chronicle: &chronicle,
        config: &setup.config,
        steps: 1000,
        monitor: 0,
    };
    let (askers, end) = queue.named::<Q>(alloc).map_err(|_| "memory")?;
    let state = attached(alloc, &chronicle, seat, trail, what_holds(setup.case), end)?;
    match setup.case {
        Case::CommitAndAbort => run_both(rt, Monitor::new(state, askers), workers, &node),
        Case::OneCar => run_together(rt, Monitor::new(state, askers), workers, &node),
        Case::FailedGate => run_after_fault(rt, Monitor::new(state, askers), workers, &node),
        Case::ThreeInACar => run_three(rt, state, workers, &node),
        Case::TwoCars => run_two_cars(rt, alloc, Monitor::new(state, askers), workers, &node),
        Case::FourProducers => run_four(rt, alloc, Monitor::new(state, askers), workers, &node),
    }
}

// The run under its name.
fn run_named<
    D: Disk + Drop + Send,
    J: MonitorRun<D> + Send + Sync,
    R: Abort + Threads + Wait + Sync,
>(
    rt: &R,
    alloc: Global,
    started: Started<NodeMachine>,
    trail: Trail<D, MonitorRecord>,
    setup: &Setup,
) -> Result<(), Fail>
    requires name { (started.table ≡ J.table) × (started.states ≡ J.opening) }
    requires opening { J.opening ≡ opening_parts first_found }
    requires run { IsFirstRun D.Disk J.opening J.found J.before J.faults J.premise J.devices trail }
{
    let queue = open_requests::<J>(alloc).map_err(|_| "memory")?;
    run_queued::<D, J, Brand, R>(rt, alloc, started, trail, queue, setup)
}

// The run over a device of which these calls fail.
fn run_on<R: Abort + Threads + Wait + Sync>(
    rt: &R,
    alloc: Global,
    fails: &[u64],
    case: Case,
) -> Result<(), Fail> {
    let device = MemDisk::new(alloc, 0, fails).map_err(|_| "memory")?;
    let trail = begun(alloc, device)?;
    let setup = Setup {
        config: config(alloc),
        case,
    };
    run_named::<MemDisk, Brand, _>(rt, alloc, started(alloc)?, trail, &setup)
}

#[test]
fn a_commit_and_an_abort(rt: HostRuntime) -> Result<(), Fail> {
    run_on(&rt, rt.alloc(), &[], Case::CommitAndAbort)
}

#[test]
fn car_test(rt: HostRuntime) -> Result<(), Fail> {
    run_on(&rt, rt.alloc(), &[], Case::OneCar)
}

// The device's calls 0 to 5 make the trail and land its start; 6 to 9 are the first car's, of which 8 writes the gate.
#[test]
fn a_failed_gate(rt: HostRuntime) -> Result<(), Fail> {
    run_on(&rt, rt.alloc(), &[8], Case::FailedGate)
}

#[test]
fn three_requests_in_a_car(rt: HostRuntime) -> Result<(), Fail> {
    run_on(&rt, rt.alloc(), &[10], Case::ThreeInACar)
}

#[test]
fn a_full_car_and_another(rt: HostRuntime) -> Result<(), Fail> {
    run_on(&rt, rt.alloc(), &[14], Case::TwoCars)
}

#[test]
fn forty_requests_of_four_threads(rt: HostRuntime) -> Result<(), Fail> {
    run_on(&rt, rt.alloc(), &[], Case::FourProducers)
}
