//! What no clause says: that each call succeeds where there is memory and no call of the device fails.
ghost use Rattle.std.specs.Prelude.{◌≡◌, ◌≤◌, ◌<◌, ◌+◌, ◌++◌, List, [], ◌∷◌, true, IsTrue, IfOk, OnOk};
ghost use Rattle.chronicle.specs.Seats.{new_seat, new_seats};
ghost use Rattle.node_machine.specs.Opening.{opening_parts};
ghost use Rattle.audit_writer.specs.Handing.{MayHand, disc_of};
ghost use Rattle.audit_writer.specs.OneTrail.{one_found, one_rules, one_part, IsFirst, IsFormatted, IsNamed};
ghost use Rattle.audit_writer.specs.FourFiles.{IsAt, IsFilled, IsFourRun, four_found, four_standing};
ghost use Rattle.node_machine.specs.Parts.{Standing};
ghost use Rattle.trail_files.specs.AuditFormat.{is_audit_record};
ghost use Rattle.trail_files.specs.AuditOrder.{is_audit_order};
ghost use Rattle.trail_files.specs.AuditRecord.{audit_format};
ghost use Rattle.trail_files.specs.Content.{Content, landed_in, with_loaded, with_landed, with_next_file};
ghost use Rattle.trail_files.specs.Holds.{Holds, Keeps};
ghost use Rattle.trail_files.specs.Trail.{IsWritable};
ghost use Rattle.audit_writer.specs.Seat.{sight_of, IsTrailAt};
ghost use Rattle.two_discs.specs.TwoDiscs.{IsPutOf};

use audit_writer::{
    AuditWriter, DeviceRun, Failed, NodeRun, OpenQueue, QueueName, QueuedLock, WriterState,
    open_queue,
};
use chronicle::{Chronicle, Seat, Started};
use disk_model::{Disk, MemDisk};
use node_machine::{By, Finds, NodeMachine, Opening, begin, enlist, write};
use std::alloc::Global;
use std::marker::Brand;
use std::process::Abort;
use std::sync::Wait;
use std::test::*;
use tmf_model::{Key, Op, Sequence, Transid, Value};
use trail_files::{AuditKind, AuditRecord, Rules, Trail, TrailPhase};

/// The first run of a node of one trail, one volume and one file.
struct OneTrail;

impl Finds for OneTrail {
    ghost use Rattle.audit_writer.specs.OneTrail.{one_found};

    ghost found = { λ _. one_found };
}

fn rules(alloc: Global) -> Result<Rules, Fail>
    ensures { IfOk result (λ r. r ≡ one_rules) }
{
    Ok(Rules {
        roll: 1024,
        trail: 1,
        discs: Sequence::new(vec![in alloc; 1]?),
        files: Sequence::new(vec![in alloc; (1, 1)]?),
    })
}

// The first worker's first attempt gives key `k1` the value `v1`: the change, and the value.
fn change() -> Result<(AuditRecord, Value), Fail>
    ensures first { IfOk result (λ c. IsFirst c.0) }
    ensures puts { IfOk result (λ c. IsPutOf c.1 c.0) }
{
    let value = Value::new(b"v1")?;
    let change = AuditRecord {
        kind: AuditKind::Change,
        disc: 1,
        file: 1,
        tx: Transid {
            epoch: 1,
            worker: 1,
            ordinal: 1,
            attempt: 1,
        },
        position: 1,
        key: Key::new(b"k1")?,
        before: None,
        after: Some(value),
    };
    Ok((change, value))
}

// The worker enlists the disc, which makes the change; the trail sees that.
fn make<J: NodeRun>(
    chronicle: &Chronicle<NodeMachine, J>,
    worker: &mut Seat<NodeMachine, J>,
    disc: &mut Seat<NodeMachine, J>,
    trail: &mut Seat<NodeMachine, J>,
    change: &AuditRecord,
    value: Value,
)
    requires opening { J.opening ≡ opening_parts one_found }
    requires worker { worker.old ≡ new_seat 0 }
    requires disc { disc.old ≡ new_seat 16 }
    requires trail { trail.old ≡ new_seat 24 }
    requires first { IsFirst change.now }
    requires puts { IsPutOf value change.now }
    ensures may { MayHand J.opening one_found one_rules 1 disc.new 1 (change.now ∷ []) }
    ensures at { IsTrailAt J.opening one_found (sight_of J.opening trail.new) }
    ensures part { (sight_of J.opening trail.new).part ≡ one_part }
{
    begin(chronicle, worker, change.tx);
    enlist(chronicle, worker, change.tx, 1);
    write(chronicle, disc, worker, change, &Op::Put(value));
    chronicle.meet(trail, disc);
}

// The writer of the trail, the disc's seat, and the change, which the disc may hand in.
fn opened<'a, D: Disk + Drop, J: DeviceRun<D>>(
    alloc: Global,
    chronicle: &'a Chronicle<NodeMachine, J>,
    mut seats: Vec<Seat<NodeMachine, J>>,
    trail: Trail<D, AuditRecord>,
) -> Result<(WriterState<'a, D, J>, Seat<NodeMachine, J>, AuditRecord), Fail>
    requires opening { J.opening ≡ opening_parts one_found }
    requires seats { seats.items ≡ new_seats 37 }
    requires name { IsNamed D.Disk J.found J.rules J.faults J.premise J.devices trail.device }
    requires trail { IsFormatted D.Disk trail }
    ensures number { IfOk result (λ r. r.0.seat.part.number ≡ 1) }
    ensures first { IfOk result (λ r. IsFirst r.2) }
    ensures may { IfOk result (λ r. MayHand J.opening J.found (J.rules 1) 1 r.1 (disc_of (r.2 ∷ [])) (r.2 ∷ [])) }
{
    let mut seat = seats.swap_remove(24);
    let mut disc = seats.swap_remove(16);
    let mut worker = seats.swap_remove(0);
    let (change, value) = change()?;
    make(chronicle, &mut worker, &mut disc, &mut seat, &change, value);
    match WriterState::attach(alloc, trail, seat, chronicle) {
        Ok(state) => Ok((state, disc, change)),
        Err(_) => Err(Fail::new("no memory")),
    }
}

// A disc hands a change in, a flush lands it, and the device comes back.
fn hand_and_flush<D: Disk + Drop, J: DeviceRun<D>, R: Abort>(
    rt: &R,
    alloc: Global,
    started: Started<NodeMachine>,
    trail: Trail<D, AuditRecord>,
) -> Result<(), Fail>
    requires name { (started.table ≡ J.table) × (started.states ≡ J.opening) }
    requires opening { J.opening ≡ opening_parts one_found }
    requires carries { IsNamed D.Disk J.found J.rules J.faults J.premise J.devices trail.device }
    requires trail { IsFormatted D.Disk trail }
{
    let (chronicle, seats) = started.named::<J>(alloc).map_err(|_| "memory")?;
    let (mut state, mut disc, change) = opened(alloc, &chronicle, seats, trail)?;
    let Ok(()) = state.hand(&mut disc, &[change]) else {
        return Err(Fail::new("nothing handed in"));
    };
    assert_eq!(rt; state.events(), 0);
    assert!(rt; state.flush_to(&mut disc, By::Disc(1), 1, 1).is_ok());
    assert_eq!(rt; state.events(), 2);
    Ok(())
}

// The same under the lock.
fn flush_locked<D: Disk + Drop, J: DeviceRun<D>, R: Abort + Wait>(
    rt: &R,
    alloc: Global,
    started: Started<NodeMachine>,
    trail: Trail<D, AuditRecord>,
) -> Result<(), Fail>
    requires name { (started.table ≡ J.table) × (started.states ≡ J.opening) }
    requires opening { J.opening ≡ opening_parts one_found }
    requires carries { IsNamed D.Disk J.found J.rules J.faults J.premise J.devices trail.device }
    requires trail { IsFormatted D.Disk trail }
{
    let (chronicle, seats) = started.named::<J>(alloc).map_err(|_| "memory")?;
    let (state, mut disc, change) = opened(alloc, &chronicle, seats, trail)?;
    let writer = AuditWriter::new(1, state);
    assert_eq!(rt; writer.flush(rt, &mut disc, By::Disc(1), &[]), Ok(()));
    assert_eq!(rt; writer.flush(rt, &mut disc, By::Disc(1), &[change]), Ok(()));
    let state = writer.into_state();
    assert_eq!(rt; state.events(), 2);
    let (_, _seat) = state.into_parts();
    Ok(())
}

fn formatted<D: Disk + Drop>(alloc: Global, device: D) -> Result<Trail<D, AuditRecord>, Fail>
    requires { IsTrue (D.tells device) }
    ensures { IfOk result (IsFormatted D.Disk) }
{
    match Trail::format(alloc, device, rules(alloc)?) {
        Ok(trail) => Ok(trail),
        Err(_) => Err(Fail::new("no trail")),
    }
}

fn started(alloc: Global) -> Result<Started<NodeMachine>, Fail>
    ensures { IfOk result (λ s. s.states ≡ opening_parts one_found) }
{
    match Started::<NodeMachine>::new(alloc, 37, &Opening { from: &OneTrail }) {
        Ok(started) => Ok(started),
        Err(_) => Err(Fail::new("no memory")),
    }
}

#[test]
fn a_disc_hands_in(rt: HostRuntime) -> Result<(), Fail> {
    let device = MemDisk::new(rt.alloc(), 0, &[]).map_err(|_| "memory")?;
    let trail = formatted(rt.alloc(), device)?;
    hand_and_flush::<MemDisk, Brand, _>(&rt, rt.alloc(), started(rt.alloc())?, trail)
}

#[test]
fn a_disc_flushes(rt: HostRuntime) -> Result<(), Fail> {
    let device = MemDisk::new(rt.alloc(), 0, &[]).map_err(|_| "memory")?;
    let trail = formatted(rt.alloc(), device)?;
    flush_locked::<MemDisk, Brand, _>(&rt, rt.alloc(), started(rt.alloc())?, trail)
}

/// A later run, whose trail has three records in three files, and an empty file behind them.
#[derive(Clone, Copy)]
struct FourFiles {
    first: AuditRecord,
    second: AuditRecord,
    third: AuditRecord,
}

impl Finds for FourFiles {
    ghost use Rattle.audit_writer.specs.FourFiles.{four_found, four_standing};

    ghost found = { λ s. four_found (four_standing s.first s.second s.third) };
}

// A change of the disc at a position.
fn change_at(position: u64) -> Result<AuditRecord, Fail>
    requires { (1 ≤ position) × (position ≤ 3) }
    ensures { IfOk result (IsAt position) }
{
    Ok(AuditRecord {
        kind: AuditKind::Change,
        disc: 1,
        file: 1,
        tx: Transid {
            epoch: 1,
            worker: 1,
            ordinal: 1,
            attempt: 1,
        },
        position,
        key: Key::new(b"k1")?,
        before: None,
        after: Some(Value::new(b"v1")?),
    })
}

// Lands one record.
fn land_one<D: Disk>(trail: &mut Trail<D, AuditRecord>, item: &AuditRecord) -> Result<(), Fail>
    requires ready { trail.old.phase ≡ TrailPhase.Ready }
    requires writable { IsWritable D.tells D.held trail.old }
    requires rules { trail.old.rules ≡ one_rules }
    requires valid { is_audit_record one_rules item.now ≡ true }
    ensures holds { (content : Content AuditRecord) → Holds D.Disk audit_format trail.old content → is_audit_order (landed_in content ++ item.now ∷ []) ≡ true
        → IfOk result (λ _. Holds D.Disk audit_format trail.new (with_landed (with_loaded (item.now ∷ []) content))) }
    ensures keeps { Keeps D.Disk trail.old trail.new }
    ensures phase { OnOk result (trail.new.phase ≡ TrailPhase.Ready) }
    ensures file { OnOk result (trail.new.file ≡ trail.old.file) }
    ensures writable { OnOk result (IsWritable D.tells D.held trail.new) }
{
    if !trail.fits(1) {
        return Err(Fail::new("no room"));
    }
    trail.load(&[*item]).map_err(|_| "failed")?;
    trail.gate().map_err(|_| "failed")?;
    Ok(())
}

fn roll<D: Disk>(trail: &mut Trail<D, AuditRecord>) -> Result<(), Fail>
    requires ready { trail.old.phase ≡ TrailPhase.Ready }
    requires writable { IsWritable D.tells D.held trail.old }
    requires more { trail.old.file < 4294967295 }
    ensures holds { (content : Content AuditRecord) → Holds D.Disk audit_format trail.old content → IfOk result (λ _. Holds D.Disk audit_format trail.new (with_next_file content)) }
    ensures keeps { Keeps D.Disk trail.old trail.new }
    ensures phase { OnOk result (trail.new.phase ≡ TrailPhase.Ready) }
    ensures file { OnOk result (trail.new.file ≡ trail.old.file + 1) }
    ensures writable { OnOk result (IsWritable D.tells D.held trail.new) }
{
    trail.roll().map_err(|_| "failed")?;
    Ok(())
}

// Three records in three files, and an empty file.
fn filled<D: Disk + Drop>(
    alloc: Global,
    device: D,
    files: &FourFiles,
) -> Result<Trail<D, AuditRecord>, Fail>
    requires tells { IsTrue (D.tells device) }
    requires at { IsAt 1 files.now.first × IsAt 2 files.now.second × IsAt 3 files.now.third }
    ensures { IfOk result (λ t. IsFilled D.Disk t files.now.first files.now.second files.now.third) }
{
    let mut trail = formatted(alloc, device)?;
    land_one(&mut trail, &files.first)?;
    roll(&mut trail)?;
    land_one(&mut trail, &files.second)?;
    roll(&mut trail)?;
    land_one(&mut trail, &files.third)?;
    roll(&mut trail)?;
    Ok(trail)
}

// The writer of such a trail, whose seat is at the opening.
fn attached<'a, D: Disk + Drop, J: DeviceRun<D>>(
    alloc: Global,
    chronicle: &'a Chronicle<NodeMachine, J>,
    seat: Seat<NodeMachine, J>,
    trail: Trail<D, AuditRecord>,
) -> Result<WriterState<'a, D, J>, Fail>
    requires seat { seat ≡ new_seat 24 }
    requires run { IsFourRun D.Disk J.opening J.found J.rules J.faults J.premise J.devices trail }
    ensures { IfOk result (λ w. w.seat.part.number ≡ 1) }
{
    match WriterState::attach(alloc, trail, seat, chronicle) {
        Ok(state) => Ok(state),
        Err(_) => Err(Fail::new("no memory")),
    }
}

// The disc needs nothing below position 3, and the writer purges.
fn purge_alone<'a, D: Disk + Drop, J: DeviceRun<D>, R: Abort>(
    rt: &R,
    mut state: WriterState<'a, D, J>,
    disc: &mut Seat<NodeMachine, J>,
) -> Result<WriterState<'a, D, J>, Fail>
    requires disc { disc.old ≡ new_seat 16 }
    requires opens { (old : List Standing) × (J.opening ≡ opening_parts (four_found old)) }
{
    state.tell(disc, 1, 3);
    assert!(rt; state.purge(disc, By::Disc(1)).is_ok());
    Ok(state)
}

// The same in one hold of a lock.
fn purge_held<'a, D: Disk + Drop, J: DeviceRun<D>, R: Abort + Wait>(
    rt: &R,
    state: WriterState<'a, D, J>,
    disc: &mut Seat<NodeMachine, J>,
) -> Result<WriterState<'a, D, J>, Fail>
    requires number { state.seat.part.number ≡ 1 }
    requires disc { disc.old ≡ new_seat 16 }
    requires opens { (old : List Standing) × (J.opening ≡ opening_parts (four_found old)) }
{
    let lock = AuditWriter::new(1, state);
    {
        let mut writer = lock.lock(rt);
        writer.tell(disc, 1, 3);
        assert!(rt; writer.purge(disc, By::Disc(1)).is_ok());
        assert_eq!(rt; writer.events(disc), 1);
        writer.lawful();
    }
    Ok(lock.into_state())
}

// The same in one hold of a lock that has a queue in front of it.
fn purge_queued<'a, D: Disk + Drop, J: DeviceRun<D>, Q: QueueName, R: Abort + Wait>(
    rt: &R,
    state: WriterState<'a, D, J>,
    disc: &mut Seat<NodeMachine, J>,
    queue: OpenQueue<J, 1>,
) -> Result<WriterState<'a, D, J>, Fail>
    requires number { state.seat.part.number ≡ 1 }
    requires disc { disc.old ≡ new_seat 16 }
    requires opens { (old : List Standing) × (J.opening ≡ opening_parts (four_found old)) }
    requires named { queue ≡ Q.queue }
{
    let Ok((lock, _passes)) = QueuedLock::<D, J, Q, 1>::new(state, queue) else {
        return Err(Fail::new("no memory"));
    };
    {
        let mut writer = lock.lock(rt);
        writer.tell(disc, 1, 3);
        assert!(rt; writer.purge(disc, By::Disc(1)).is_ok());
        assert_eq!(rt; writer.events(disc), 1);
        writer.lawful();
    }
    Ok(lock.into_state())
}

/// Behind which lock a writer stands.
#[derive(Clone, Copy)]
enum Behind {
    Nothing,
    Lock,
    Queue,
}

// The writer, which has purged.
fn purged<'a, D: Disk + Drop, J: DeviceRun<D>, R: Abort + Wait>(
    rt: &R,
    alloc: Global,
    state: WriterState<'a, D, J>,
    disc: &mut Seat<NodeMachine, J>,
    behind: Behind,
) -> Result<WriterState<'a, D, J>, Fail>
    requires number { state.seat.part.number ≡ 1 }
    requires disc { disc.old ≡ new_seat 16 }
    requires opens { (old : List Standing) × (J.opening ≡ opening_parts (four_found old)) }
{
    match behind {
        Behind::Nothing => purge_alone(rt, state, disc),
        Behind::Lock => purge_held(rt, state, disc),
        Behind::Queue => {
            let queue = open_queue::<J, 1>(alloc).map_err(|_| "memory")?;
            purge_queued::<D, J, Brand, R>(rt, state, disc, queue)
        }
    }
}

// Of four files a purge removes two: the third has the record at position 3, and the fourth is the present one.
fn purge_two<D: Disk + Drop, J: DeviceRun<D>, R: Abort + Wait>(
    rt: &R,
    alloc: Global,
    started: Started<NodeMachine>,
    trail: Trail<D, AuditRecord>,
    files: FourFiles,
    behind: Behind,
) -> Result<(), Fail>
    requires name { (started.table ≡ J.table) × (started.states ≡ J.opening) }
    requires run { IsFourRun D.Disk J.opening J.found J.rules J.faults J.premise J.devices trail }
    requires opens { (old : List Standing) × (J.opening ≡ opening_parts (four_found old)) }
{
    let (chronicle, mut seats) = started.named::<J>(alloc).map_err(|_| "memory")?;
    let seat = seats.swap_remove(24);
    let mut disc = seats.swap_remove(16);
    let state = attached(alloc, &chronicle, seat, trail)?;
    let state = purged(rt, alloc, state, &mut disc, behind)?;
    assert_eq!(rt; state.events(), 1);
    let (mut trail, _seat) = state.into_parts();
    assert_eq!(rt; trail.least_file(), 3);
    let mut cursor = trail.cursor();
    let Ok(Some(left)) = trail.next(&mut cursor) else {
        return Err(Fail::new("nothing left"));
    };
    assert_eq!(rt; left.position, files.third.position);
    Ok(())
}

fn started_four(alloc: Global, files: &FourFiles) -> Result<Started<NodeMachine>, Fail>
    ensures { IfOk result (λ s. s.states ≡ opening_parts (four_found (four_standing files.now.first files.now.second files.now.third))) }
{
    match Started::<NodeMachine>::new(alloc, 37, &Opening { from: files }) {
        Ok(started) => Ok(started),
        Err(_) => Err(Fail::new("no memory")),
    }
}

fn three_changes() -> Result<FourFiles, Fail>
    ensures { IfOk result (λ f. IsAt 1 f.first × IsAt 2 f.second × IsAt 3 f.third) }
{
    Ok(FourFiles {
        first: change_at(1)?,
        second: change_at(2)?,
        third: change_at(3)?,
    })
}

// The run over such a trail.
fn run_four<R: Abort + Wait>(rt: &R, alloc: Global, behind: Behind) -> Result<(), Fail> {
    let device = MemDisk::new(alloc, 0, &[]).map_err(|_| "memory")?;
    let files = three_changes()?;
    let trail = filled(alloc, device, &files)?;
    let started = started_four(alloc, &files)?;
    purge_two::<MemDisk, Brand, _>(rt, alloc, started, trail, files, behind)
}

#[test]
fn a_purge_removes_two_files(rt: HostRuntime) -> Result<(), Fail> {
    run_four(&rt, rt.alloc(), Behind::Nothing)
}

#[test]
fn a_held_lock_purges(rt: HostRuntime) -> Result<(), Fail> {
    run_four(&rt, rt.alloc(), Behind::Lock)
}

#[test]
fn a_held_lock_with_a_queue_purges(rt: HostRuntime) -> Result<(), Fail> {
    run_four(&rt, rt.alloc(), Behind::Queue)
}
