//! Tests of many requests: a car of given ones, a full car and another, and four threads that ask while one settles.
ghost use Rattle.std.specs.Prelude.{◌≡◌, ◌≤◌, ◌<◌, ◌+◌, [], IfOk};
ghost use Rattle.commit_boxcar.specs.FirstRun.{first_found, first_of, HasDecided};
ghost use Rattle.commit_boxcar.specs.Settled.{IsOfRun};

use crate::tests::{Holding, Workers, attempt_of, begun_next, flushed, is_settled};
use audit_writer::NodeRun;
use chronicle::Seat;
use commit_boxcar::{Monitor, MonitorRun, MonitorState, RequestsName, Waiting};
use disk_model::Disk;
use node_machine::{By, NodeMachine};
use std::alloc::Global;
use std::process::Abort;
use std::sync::Wait;
use std::test::*;
use std::thread::{Threads, join};
use trail_files::{Cursor, MonitorRecord, Trail};
use txn_states::{Committed, Flushed, NodeSeats};

// The next commit of a worker that has decided so many: its request, and the worker's seat.
fn next_request<'n, J: NodeRun>(
    seat: Seat<NodeMachine, J>,
    worker: u16,
    done: u16,
    node: &'n NodeSeats<'n, J>,
) -> Result<(Seat<NodeMachine, J>, Waiting<J>), Fail>
    requires worker { (1 ≤ worker) × (worker ≤ 16) }
    requires done { done < 4096 }
    requires found { J.found ≡ first_found }
    requires seat { HasDecided J.opening worker done seat }
    ensures { IfOk result (λ r. HasDecided J.opening worker (done + 1) r.0) }
{
    let active = begun_next(seat, worker, done, node)?;
    let mut decided = active.end().flushed().decide();
    let id = decided.tx();
    let note = decided.note();
    let waiting = Waiting::new(MonitorRecord::Commit(id), note);
    Ok((decided.into_seat(), waiting))
}

// The requests of a worker's first commits, in order.
fn requests_of<'n, J: NodeRun>(
    alloc: Global,
    seat: Seat<NodeMachine, J>,
    worker: u16,
    count: u16,
    node: &'n NodeSeats<'n, J>,
) -> Result<Vec<Waiting<J>>, Fail>
    requires worker { (1 ≤ worker) × (worker ≤ 16) }
    requires count { count ≤ 4096 }
    requires found { J.found ≡ first_found }
    requires seat { HasDecided J.opening worker 0 seat }
{
    let mut made = Vec::new(alloc);
    let mut seat = seat;
    for done in 0..count {
        let (next, waiting) = next_request(seat, worker, done, node)?;
        seat = next;
        made.push(waiting).map_err(|_| "memory")?;
    }
    Ok(made)
}

// Three workers' commits in one car of four calls of the device: the next call, which reads, fails.
fn three_in_a_car<
    'a,
    'l,
    'm,
    'n,
    D: Disk + Drop,
    J: MonitorRun<D>,
    Q: RequestsName,
    R: Abort + Wait,
>(
    rt: &R,
    state: MonitorState<'a, D, J, Holding, Q>,
    first: Committed<'l, J>,
    second: Committed<'m, J>,
    third: Committed<'n, J>,
) -> Result<(), Fail>
    requires new { state.seat.part.events ≡ [] }
    requires found { J.found ≡ first_found }
    requires first { first.tx ≡ first_of 1 }
    requires second { second.tx ≡ first_of 2 }
    requires third { third.tx ≡ first_of 3 }
{
    let mut state = state;
    let mut first = first;
    let mut second = second;
    let mut third = third;
    let requests = [
        MonitorRecord::Commit(first.tx()),
        MonitorRecord::Commit(second.tx()),
        MonitorRecord::Commit(third.tx()),
    ];
    state.meet(&mut first.note());
    state.meet(&mut second.note());
    state.meet(&mut third.note());
    let by = By::Attempt(first.tx());
    assert_eq!(rt; state.car(by, &requests), Ok(2));
    let (trail, _seat, _, _) = state.into_parts();
    reads_back(rt, trail, &[1, 2, 3])
}

// The first read fails. Behind it the trail has the start, and one commit of each of these workers, in this order.
fn reads_back<D: Disk + Drop, R: Abort>(
    rt: &R,
    mut trail: Trail<D, MonitorRecord>,
    workers: &[u16],
) -> Result<(), Fail> {
    assert!(rt; trail.next(&mut trail.cursor()).is_err());
    let mut cursor = trail.cursor();
    assert_eq!(rt; trail.next(&mut cursor), Ok(Some(MonitorRecord::Start(1))));
    for worker in workers {
        let want = MonitorRecord::Commit(attempt_of(*worker, 1));
        assert_eq!(rt; trail.next(&mut cursor), Ok(Some(want)));
    }
    assert_eq!(rt; trail.next(&mut cursor), Ok(None));
    Ok(())
}

// Asks for all of them, in order.
fn ask_all<'a, D: Disk, J: MonitorRun<D>, Q: RequestsName, R: Wait>(
    rt: &R,
    monitor: &Monitor<'a, D, J, Holding, Q>,
    requests: Vec<Waiting<J>>,
) -> bool {
    for waiting in requests {
        let (request, note) = waiting.into_parts();
        if monitor.ask(rt, request, note).is_err() {
            return false;
        }
    }
    true
}

// How many records of each worker stand behind the start, where each worker's commits stand in the order of its items.
fn counted<D: Disk + Drop, R: Abort>(
    rt: &R,
    mut trail: Trail<D, MonitorRecord>,
    count: u32,
) -> Result<[u16; 17], Fail> {
    let mut cursor = trail.cursor();
    assert_eq!(rt; trail.next(&mut cursor), Ok(Some(MonitorRecord::Start(1))));
    let mut of_worker = [0; 17];
    for _ in 0..count {
        let Ok(Some(MonitorRecord::Commit(tx))) = trail.next(&mut cursor) else {
            return Err(Fail::new("no commit"));
        };
        let Some(had) = of_worker.get_mut(usize::from(tx.worker)) else {
            return Err(Fail::new("no worker"));
        };
        *had = u16::saturating_add(*had, 1);
        assert_eq!(rt; tx, attempt_of(tx.worker, *had));
    }
    assert_eq!(rt; trail.next(&mut cursor), Ok(None));
    Ok(of_worker)
}

// A full car and another, in eight calls of the device: the next call, which reads, fails.
fn two_cars<'a, D: Disk + Drop, J: MonitorRun<D>, Q: RequestsName, R: Abort + Wait>(
    rt: &R,
    monitor: Monitor<'a, D, J, Holding, Q>,
    requests: Vec<Waiting<J>>,
) -> Result<(), Fail> {
    assert!(rt; ask_all(rt, &monitor, requests));
    let by = By::Attempt(attempt_of(1, 1));
    let mut state = monitor.into_state();
    assert_eq!(rt; state.next_car(rt, by), Ok(64));
    assert_eq!(rt; state.events(), 2);
    assert_eq!(rt; state.next_car(rt, by), Ok(1));
    assert_eq!(rt; state.next_car(rt, by), Ok(0));
    let (mut trail, _seat, _, _) = state.into_parts();
    assert!(rt; trail.next(&mut trail.cursor()).is_err());
    assert_eq!(rt; counted(rt, trail, 65)?[1], 65);
    Ok(())
}

/// What four workers ask for, each in order.
#[derive(Drop)]
struct FourLists<J: NodeRun> {
    first: Vec<Waiting<J>>,
    second: Vec<Waiting<J>>,
    third: Vec<Waiting<J>>,
    fourth: Vec<Waiting<J>>,
}

// Lands all that waits.
fn land_all<'a, D: Disk, J: MonitorRun<D>, Q: RequestsName, R: Wait>(
    rt: &R,
    state: &mut MonitorState<'a, D, J, Holding, Q>,
) -> bool {
    for _ in 0..100 {
        match state.next_car(rt, By::Attempt(attempt_of(1, 1))) {
            Ok(0) => return true,
            Ok(_) => {}
            Err(_) => return false,
        }
    }
    false
}

// Four threads ask for ten records each, while one settles: each is recorded once, and those of a thread in its order.
fn four_producers<
    'a,
    'n,
    D: Disk + Drop + Send,
    J: MonitorRun<D> + Send + Sync,
    Q: RequestsName + Send + Sync,
    R: Abort + Threads + Wait + Sync,
>(
    rt: &R,
    monitor: Monitor<'a, D, J, Holding, Q>,
    asked: FourLists<J>,
    settling: Flushed<'n, J>,
) -> Result<(), Fail>
    requires run { IsOfRun J.found settling.tx }
{
    let FourLists {
        first,
        second,
        third,
        fourth,
    } = asked;
    let (is_settled, all) = join(
        rt,
        || is_settled(rt, &monitor, settling),
        || ask_together(rt, &monitor, first, second, third, fourth),
    );
    assert!(rt; is_settled && all);
    let mut state = monitor.into_state();
    assert!(rt; land_all(rt, &mut state));
    let (trail, _seat, _, _) = state.into_parts();
    let of_worker = counted(rt, trail, 41)?;
    let wanted: [u16; 6] = [0, 10, 10, 10, 10, 1];
    assert!(rt; &of_worker[..6] == wanted.as_slice());
    Ok(())
}

// Each of four threads asks for its requests.
fn ask_together<
    'a,
    D: Disk + Send,
    J: MonitorRun<D> + Send + Sync,
    Q: RequestsName + Send + Sync,
    R: Threads + Wait + Sync,
>(
    rt: &R,
    monitor: &Monitor<'a, D, J, Holding, Q>,
    first: Vec<Waiting<J>>,
    second: Vec<Waiting<J>>,
    third: Vec<Waiting<J>>,
    fourth: Vec<Waiting<J>>,
) -> bool {
    let (a, b) = join(
        rt,
        || ask_two(rt, monitor, first, second),
        || ask_two(rt, monitor, third, fourth),
    );
    a && b
}

// Each of two threads asks for its requests.
fn ask_two<
    'a,
    D: Disk + Send,
    J: MonitorRun<D> + Send + Sync,
    Q: RequestsName + Send + Sync,
    R: Threads + Wait + Sync,
>(
    rt: &R,
    monitor: &Monitor<'a, D, J, Holding, Q>,
    one: Vec<Waiting<J>>,
    other: Vec<Waiting<J>>,
) -> bool {
    let (a, b) = join(
        rt,
        || ask_all(rt, monitor, one),
        || ask_all(rt, monitor, other),
    );
    a && b
}

// A car of three workers' commits.
pub(crate) fn run_three<'a, 'n, D: Disk + Drop, J: MonitorRun<D>, Q: RequestsName, R: Abort + Wait>(
    rt: &R,
    state: MonitorState<'a, D, J, Holding, Q>,
    seats: Workers<J>,
    node: &'n NodeSeats<'n, J>,
) -> Result<(), Fail>
    requires new { state.seat.part.events ≡ [] }
    requires found { J.found ≡ first_found }
    requires first { HasDecided J.opening 1 0 seats.first }
    requires second { HasDecided J.opening 2 0 seats.second }
    requires third { HasDecided J.opening 3 0 seats.third }
{
    let first = flushed(seats.first, 1, node)?.decide();
    let second = flushed(seats.second, 2, node)?.decide();
    let third = flushed(seats.third, 3, node)?.decide();
    three_in_a_car(rt, state, first, second, third)
}

// 65 commits of one worker.
pub(crate) fn run_two_cars<
    'a,
    'n,
    D: Disk + Drop,
    J: MonitorRun<D>,
    Q: RequestsName,
    R: Abort + Wait,
>(
    rt: &R,
    alloc: Global,
    monitor: Monitor<'a, D, J, Holding, Q>,
    seats: Workers<J>,
    node: &'n NodeSeats<'n, J>,
) -> Result<(), Fail>
    requires found { J.found ≡ first_found }
    requires first { HasDecided J.opening 1 0 seats.first }
{
    let requests = requests_of(alloc, seats.first, 1, 65, node)?;
    two_cars(rt, monitor, requests)
}

// Ten commits of each of four workers, and one of a fifth.
pub(crate) fn run_four<
    'a,
    'n,
    D: Disk + Drop + Send,
    J: MonitorRun<D> + Send + Sync,
    Q: RequestsName + Send + Sync,
    R: Abort + Threads + Wait + Sync,
>(
    rt: &R,
    alloc: Global,
    monitor: Monitor<'a, D, J, Holding, Q>,
    seats: Workers<J>,
    node: &'n NodeSeats<'n, J>,
) -> Result<(), Fail>
    requires found { J.found ≡ first_found }
    requires first { HasDecided J.opening 1 0 seats.first }
    requires second { HasDecided J.opening 2 0 seats.second }
    requires third { HasDecided J.opening 3 0 seats.third }
    requires fourth { HasDecided J.opening 4 0 seats.fourth }
    requires fifth { HasDecided J.opening 5 0 seats.fifth }
{
    let asked = FourLists {
        first: requests_of(alloc, seats.first, 1, 10, node)?,
        second: requests_of(alloc, seats.second, 2, 10, node)?,
        third: requests_of(alloc, seats.third, 3, 10, node)?,
        fourth: requests_of(alloc, seats.fourth, 4, 10, node)?,
    };
    let settling = flushed(seats.fifth, 5, node)?;
    four_producers(rt, monitor, asked, settling)
}
