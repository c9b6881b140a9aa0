//! Many records of two discs: from two threads at once, and more parcels than the queue has room for.
ghost use Rattle.std.specs.Prelude.{◌≡◌, ◌≤◌, ◌<◌, ◌+◌, ◌-◌, ◌++◌, [], ◌∷◌, length, IsTrue, IfOk, OnOk};
ghost use Rattle.chronicle.specs.Seats.{new_seat, new_seats};
ghost use Rattle.node_machine.specs.Opening.{opening_parts};
ghost use Rattle.audit_writer.specs.Parcels.{holding};
ghost use Rattle.two_discs.specs.TwoDiscs.{attempt_of, two_found, two_rules, IsFormattedForTwo, IsNamedForTwo, IsNextChange, IsOneOfTwo, IsWriting};

use audit_writer::{
    DeviceRun, DiscPass, NodeRun, OpenQueue, PicksDisc, QueueName, QueuedLock, WriterState,
    open_queue,
};
use chronicle::{Chronicle, Seat, Started};
use disk_model::{Disk, MemDisk};
use node_machine::{By, DiscEvent, Finds, NodeMachine, Opening, begin, enlist};
use std::alloc::Global;
use std::marker::Brand;
use std::process::Abort;
use std::sync::Wait;
use std::test::*;
use std::thread::{Threads, join};
use tmf_model::{Key, Op, Sequence, Transid, Value};
use trail_files::{AuditKind, AuditRecord, Rules, Trail};

/// The first run of a node of one trail, and two volumes with a file each.
struct TwoDiscs;

impl Finds for TwoDiscs {
    ghost use Rattle.two_discs.specs.TwoDiscs.{two_found};

    ghost found = { λ _. two_found };
}

struct DiscOne;

impl PicksDisc for DiscOne {
    ghost disc = { 1 };
}

struct DiscTwo;

impl PicksDisc for DiscTwo {
    ghost disc = { 2 };
}

/// Why a thread ended early.
#[derive(Drop)]
enum Broken {
    Memory,
    Queue,
    Device,
}

/// A disc at work: its number, its worker's seat, its own, and its pass.
#[derive(Drop)]
struct AtWork<J: NodeRun> {
    number: u8,
    worker: Seat<NodeMachine, J>,
    seat: Seat<NodeMachine, J>,
    pass: DiscPass<J, 1>,
}

fn two_rules(alloc: Global) -> Result<Rules, Fail>
    ensures { IfOk result (λ r. r ≡ two_rules) }
{
    Ok(Rules {
        roll: 65536,
        trail: 1,
        discs: Sequence::new(vec![in alloc; 1, 2]?),
        files: Sequence::new(vec![in alloc; (1, 1), (2, 2)]?),
    })
}

fn attempt(worker: u8) -> Transid
    ensures { result ≡ attempt_of worker }
{
    Transid {
        epoch: 1,
        worker: u16::from(worker),
        ordinal: 1,
        attempt: 1,
    }
}

// The change, and the value that it puts, which the key has.
fn next_change(disc: u8, position: u64) -> Result<(AuditRecord, Value), Broken>
    requires one { IsOneOfTwo disc }
    requires small { (1 ≤ position) × (position ≤ 4294967295) }
    ensures { IfOk result (λ c. IsNextChange disc position c.1 c.0) }
{
    let value = Value::new(b"v1").map_err(|_| Broken::Memory)?;
    let change = AuditRecord {
        kind: AuditKind::Change,
        disc,
        file: disc,
        tx: attempt(disc),
        position,
        key: Key::new(b"k1").map_err(|_| Broken::Memory)?,
        before: Some(value),
        after: Some(value),
    };
    Ok((change, value))
}

// The worker with the disc's number enlists it.
fn enlisted<J: NodeRun>(
    chronicle: &Chronicle<NodeMachine, J>,
    worker: &mut Seat<NodeMachine, J>,
    seat: &mut Seat<NodeMachine, J>,
    disc: u8,
)
    requires opening { J.opening ≡ opening_parts two_found }
    requires one { IsOneOfTwo disc }
    requires worker { worker.old ≡ new_seat (disc - 1) }
    requires seat { seat.old ≡ new_seat (15 + disc) }
    ensures { IsWriting J.opening disc [] seat.new }
{
    let tx = attempt(disc);
    begin(chronicle, worker, tx);
    enlist(chronicle, worker, tx, disc);
    chronicle.meet(seat, worker);
}

// The disc makes one more change.
fn change_one<J: NodeRun>(
    chronicle: &Chronicle<NodeMachine, J>,
    seat: &mut Seat<NodeMachine, J>,
    disc: u8,
    records: &mut Vec<AuditRecord>,
) -> Result<AuditRecord, Broken>
    requires one { IsOneOfTwo disc }
    requires writing { IsWriting J.opening disc records.old.items seat.old }
    requires few { length records.old.items < 4294967295 }
    ensures more { IfOk result (λ r. records.new.items ≡ records.old.items ++ r ∷ []) }
    ensures writing { OnOk result (IsWriting J.opening disc records.new.items seat.new) }
{
    let _ = records.as_slice();
    let made = next_change(disc, records.len() as u64 + 1)?;
    let change = &made.0;
    let Ok(()) = records.push(*change) else {
        return Err(Broken::Memory);
    };
    chronicle.append(seat, &DiscEvent::Write(*change, Op::Put(made.1)));
    Ok(*change)
}

// The disc makes a thousand changes.
fn change_many<J: NodeRun>(
    alloc: Global,
    chronicle: &Chronicle<NodeMachine, J>,
    seat: &mut Seat<NodeMachine, J>,
    disc: u8,
) -> Result<Vec<AuditRecord>, Broken>
    requires one { IsOneOfTwo disc }
    requires writing { IsWriting J.opening disc [] seat.old }
    ensures many { IfOk result (λ records. length records.items ≡ 1000) }
    ensures writing { IfOk result (λ records. IsWriting J.opening disc records.items seat.new) }
{
    let mut records = Vec::new(alloc);
    for n in 0..1000u32 {
        let _ = n;
        change_one(chronicle, seat, disc, &mut records)?;
    }
    Ok(records)
}

// The disc makes a thousand changes, hands them into the queue and has them landed.
fn hand_thousand<D: Disk, J: DeviceRun<D>, Q: QueueName, R: Wait>(
    rt: &R,
    alloc: Global,
    chronicle: &Chronicle<NodeMachine, J>,
    lock: &QueuedLock<'_, D, J, Q, 1>,
    mut disc: AtWork<J>,
) -> Result<(), Broken>
    requires opening { J.opening ≡ opening_parts two_found }
    requires found { J.found ≡ two_found }
    requires rules { J.rules 1 ≡ two_rules }
    requires one { IsOneOfTwo disc.number }
    requires seats { (disc.worker ≡ new_seat (disc.number - 1)) × (disc.seat ≡ new_seat (15 + disc.number)) }
    requires pass { disc.pass ≡ holding Q.queue disc.number 0 }
{
    enlisted(chronicle, &mut disc.worker, &mut disc.seat, disc.number);
    let records = change_many(alloc, chronicle, &mut disc.seat, disc.number)?;
    lock.hand(rt, &mut disc.seat, &mut disc.pass, 0, records)
        .map_err(|_| Broken::Queue)?;
    lock.flush_handed(rt, &mut disc.seat, By::Disc(disc.number), &disc.pass)
        .map_err(|_| Broken::Device)?;
    Ok(())
}

// The change alone.
fn parcel_of(alloc: Global, change: &AuditRecord) -> Result<Vec<AuditRecord>, Broken>
    ensures { IfOk result (λ parcel. parcel.items ≡ change.now ∷ []) }
{
    match vec![in alloc; *change] {
        Ok(parcel) => Ok(parcel),
        Err(_) => Err(Broken::Memory),
    }
}

// The disc hands 1,024 parcels of one change each into the queue, which is full then.
fn fill_queue<D: Disk, J: DeviceRun<D>, Q: QueueName, R: Wait>(
    rt: &R,
    alloc: Global,
    chronicle: &Chronicle<NodeMachine, J>,
    lock: &QueuedLock<'_, D, J, Q, 1>,
    disc: &mut AtWork<J>,
) -> Result<Vec<AuditRecord>, Broken>
    requires found { J.found ≡ two_found }
    requires rules { J.rules 1 ≡ two_rules }
    requires one { IsOneOfTwo disc.old.number }
    requires writing { IsWriting J.opening disc.old.number [] disc.old.seat }
    requires pass { disc.old.pass ≡ holding Q.queue disc.old.number 0 }
    ensures number { disc.new.number ≡ disc.old.number }
    ensures many { IfOk result (λ records. length records.items ≡ 1024) }
    ensures writing { IfOk result (λ records. IsWriting J.opening disc.old.number records.items disc.new.seat) }
    ensures pass { OnOk result (disc.new.pass ≡ holding Q.queue disc.old.number 1024) }
{
    let mut records = Vec::new(alloc);
    for n in 0..1024u32 {
        let _ = n;
        let change = change_one(chronicle, &mut disc.seat, disc.number, &mut records)?;
        let parcel = parcel_of(alloc, &change)?;
        let Ok(()) = lock.hand(rt, &mut disc.seat, &mut disc.pass, 0, parcel) else {
            return Err(Broken::Queue);
        };
    }
    Ok(records)
}

// One parcel more is given back, and its record is handed in under the lock once the queue has landed.
fn hand_too_many<D: Disk, J: DeviceRun<D>, Q: QueueName, R: Wait>(
    rt: &R,
    alloc: Global,
    chronicle: &Chronicle<NodeMachine, J>,
    lock: &QueuedLock<'_, D, J, Q, 1>,
    mut disc: AtWork<J>,
) -> Result<(), Broken>
    requires opening { J.opening ≡ opening_parts two_found }
    requires found { J.found ≡ two_found }
    requires rules { J.rules 1 ≡ two_rules }
    requires one { IsOneOfTwo disc.number }
    requires seats { (disc.worker ≡ new_seat (disc.number - 1)) × (disc.seat ≡ new_seat (15 + disc.number)) }
    requires pass { disc.pass ≡ holding Q.queue disc.number 0 }
{
    enlisted(chronicle, &mut disc.worker, &mut disc.seat, disc.number);
    let mut records = fill_queue(rt, alloc, chronicle, lock, &mut disc)?;
    let change = change_one(chronicle, &mut disc.seat, disc.number, &mut records)?;
    let parcel = parcel_of(alloc, &change)?;
    let Err(back) = lock.hand(rt, &mut disc.seat, &mut disc.pass, 0, parcel) else {
        return Err(Broken::Queue);
    };
    let by = By::Disc(disc.number);
    let Ok(()) = lock.flush_handed(rt, &mut disc.seat, by, &disc.pass) else {
        return Err(Broken::Device);
    };
    let mut receipt = lock.receipt(&mut disc.pass);
    lock.flush(rt, &mut disc.seat, by, back.as_slice(), &mut receipt)
        .map_err(|_| Broken::Device)?;
    Ok(())
}

// The trail has so many records of each of the two discs, at the positions from 1 on, and no others.
fn read_all<D: Disk + Drop, R: Abort>(
    rt: &R,
    mut trail: Trail<D, AuditRecord>,
    counts: (u64, u64),
) -> Result<(), Fail> {
    let mut cursor = trail.cursor();
    let mut first = 0u64;
    let mut second = 0u64;
    for _ in 0..u64::MAX {
        let Ok(found) = trail.next(&mut cursor) else {
            return Err(Fail::new("not read"));
        };
        let Some(found) = found else {
            break;
        };
        if found.disc == 1 {
            first = first.saturating_add(1);
            assert_eq!(rt; found.position, first);
        } else {
            second = second.saturating_add(1);
            assert_eq!(rt; found.position, second);
        }
    }
    assert_eq!(rt; (first, second), counts);
    Ok(())
}

// The seats of the trail, of the two discs and of their workers.
fn dealt<J: NodeRun>(
    mut seats: Vec<Seat<NodeMachine, J>>,
) -> (
    Seat<NodeMachine, J>,
    (Seat<NodeMachine, J>, Seat<NodeMachine, J>),
    (Seat<NodeMachine, J>, Seat<NodeMachine, J>),
)
    requires { seats.items ≡ new_seats 37 }
    ensures trail { result.0 ≡ new_seat 24 }
    ensures first { (result.1.0 ≡ new_seat 0) × (result.1.1 ≡ new_seat 16) }
    ensures second { (result.2.0 ≡ new_seat 1) × (result.2.1 ≡ new_seat 17) }
{
    let trail = seats.swap_remove(24);
    let second = seats.swap_remove(17);
    let first = seats.swap_remove(16);
    let other = seats.swap_remove(1);
    let worker = seats.swap_remove(0);
    (trail, (worker, first), (other, second))
}

// The writer of the trail, whose seat is at the opening.
fn attached_for_two<'a, D: Disk + Drop, J: DeviceRun<D>>(
    alloc: Global,
    chronicle: &'a Chronicle<NodeMachine, J>,
    seat: Seat<NodeMachine, J>,
    trail: Trail<D, AuditRecord>,
) -> Result<WriterState<'a, D, J>, Fail>
    requires opening { J.opening ≡ opening_parts two_found }
    requires seat { seat ≡ new_seat 24 }
    requires name { IsNamedForTwo D.Disk J.found J.rules J.faults J.premise J.devices trail.device }
    requires trail { IsFormattedForTwo D.Disk trail }
    ensures { IfOk result (λ w. w.seat.part.number ≡ 1) }
{
    match WriterState::attach(alloc, trail, seat, chronicle) {
        Ok(state) => Ok(state),
        Err(_) => Err(Fail::new("no memory")),
    }
}

/// What a test does.
#[derive(Clone, Copy)]
enum Load {
    TwoThreads,
    FullQueue,
}

// Two discs on two threads, or the first disc alone.
fn run_load<
    D: Disk + Drop + Send,
    J: DeviceRun<D> + Send + Sync,
    Q: QueueName + Send + Sync,
    R: Threads + Wait + Sync,
>(
    rt: &R,
    alloc: Global,
    chronicle: &Chronicle<NodeMachine, J>,
    lock: &QueuedLock<'_, D, J, Q, 1>,
    discs: (AtWork<J>, AtWork<J>),
    load: Load,
) -> bool
    requires opening { J.opening ≡ opening_parts two_found }
    requires found { J.found ≡ two_found }
    requires rules { J.rules 1 ≡ two_rules }
    requires numbers { (discs.0.number ≡ 1) × (discs.1.number ≡ 2) }
    requires first { (discs.0.worker ≡ new_seat 0) × (discs.0.seat ≡ new_seat 16) × (discs.0.pass ≡ holding Q.queue 1 0) }
    requires second { (discs.1.worker ≡ new_seat 1) × (discs.1.seat ≡ new_seat 17) × (discs.1.pass ≡ holding Q.queue 2 0) }
{
    let (first, second) = discs;
    match load {
        Load::FullQueue => hand_too_many(rt, alloc, chronicle, lock, first).is_ok(),
        Load::TwoThreads => {
            let (a, b) = join(
                rt,
                || hand_thousand(rt, alloc, chronicle, lock, first).is_ok(),
                || hand_thousand(rt, alloc, chronicle, lock, second).is_ok(),
            );
            a && b
        }
    }
}

// The run with its queue under its name.
fn run_with_queue<
    D: Disk + Drop + Send,
    J: DeviceRun<D> + Send + Sync,
    Q: QueueName + Send + Sync,
    R: Abort + Threads + Wait + Sync,
>(
    rt: &R,
    alloc: Global,
    chronicle: &Chronicle<NodeMachine, J>,
    seats: Vec<Seat<NodeMachine, J>>,
    trail: Trail<D, AuditRecord>,
    queue: OpenQueue<J, 1>,
    load: Load,
) -> Result<(), Fail>
    requires seats { seats.items ≡ new_seats 37 }
    requires named { queue ≡ Q.queue }
    requires opening { J.opening ≡ opening_parts two_found }
    requires carries { IsNamedForTwo D.Disk J.found J.rules J.faults J.premise J.devices trail.device }
    requires trail { IsFormattedForTwo D.Disk trail }
{
    let (seat, first, second) = dealt(seats);
    let state = attached_for_two(alloc, chronicle, seat, trail)?;
    let Ok((lock, mut passes)) = QueuedLock::<D, J, Q, 1>::new(state, queue) else {
        return Err(Fail::new("no memory"));
    };
    let discs = (
        AtWork {
            number: 1,
            worker: first.0,
            seat: first.1,
            pass: QueuedLock::<D, J, Q, 1>::take_pass::<DiscOne>(&mut passes, 1),
        },
        AtWork {
            number: 2,
            worker: second.0,
            seat: second.1,
            pass: QueuedLock::<D, J, Q, 1>::take_pass::<DiscTwo>(&mut passes, 2),
        },
    );
    assert!(rt; run_load(rt, alloc, chronicle, &lock, discs, load));
    let (trail, _seat) = lock.into_state().into_parts();
    let counts = match load {
        Load::TwoThreads => (1000, 1000),
        Load::FullQueue => (1025, 0),
    };
    read_all(rt, trail, counts)
}

fn formatted_for_two<D: Disk + Drop>(
    alloc: Global,
    device: D,
) -> Result<Trail<D, AuditRecord>, Fail>
    requires { IsTrue (D.tells device) }
    ensures { IfOk result (IsFormattedForTwo D.Disk) }
{
    match Trail::format(alloc, device, two_rules(alloc)?) {
        Ok(trail) => Ok(trail),
        Err(_) => Err(Fail::new("no trail")),
    }
}

fn started_for_two(alloc: Global) -> Result<Started<NodeMachine>, Fail>
    ensures { IfOk result (λ s. s.states ≡ opening_parts two_found) }
{
    match Started::<NodeMachine>::new(alloc, 37, &Opening { from: &TwoDiscs }) {
        Ok(started) => Ok(started),
        Err(_) => Err(Fail::new("no memory")),
    }
}

// The run under its name.
fn run_two<D: Disk + Drop + Send, J: DeviceRun<D> + Send + Sync, R: Abort + Threads + Wait + Sync>(
    rt: &R,
    alloc: Global,
    started: Started<NodeMachine>,
    trail: Trail<D, AuditRecord>,
    load: Load,
) -> Result<(), Fail>
    requires name { (started.table ≡ J.table) × (started.states ≡ J.opening) }
    requires opening { J.opening ≡ opening_parts two_found }
    requires carries { IsNamedForTwo D.Disk J.found J.rules J.faults J.premise J.devices trail.device }
    requires trail { IsFormattedForTwo D.Disk trail }
{
    let (chronicle, seats) = started.named::<J>(alloc).map_err(|_| "memory")?;
    let queue = open_queue::<J, 1>(alloc).map_err(|_| "memory")?;
    run_with_queue::<D, J, Brand, R>(rt, alloc, &chronicle, seats, trail, queue, load)
}

fn run_over_memory<R: Abort + Threads + Wait + Sync>(
    rt: &R,
    alloc: Global,
    load: Load,
) -> Result<(), Fail> {
    let device = MemDisk::new(alloc, 0, &[]).map_err(|_| "memory")?;
    let trail = formatted_for_two(alloc, device)?;
    run_two::<MemDisk, Brand, _>(rt, alloc, started_for_two(alloc)?, trail, load)
}

#[test]
fn two_threads_hand_in(rt: HostRuntime) -> Result<(), Fail> {
    run_over_memory(&rt, rt.alloc(), Load::TwoThreads)
}

#[test]
fn a_full_queue(rt: HostRuntime) -> Result<(), Fail> {
    run_over_memory(&rt, rt.alloc(), Load::FullQueue)
}
