//! What no clause says: that `dump` succeeds where there is memory and no device fails. A volume is dumped, a key is put there, and it is dumped again. Both answer the first
//! position, since nothing is finished; the first body has the block without the key, and the second with it. A dump during a held one is turned away.
ghost use Rattle.std.specs.Prelude.{◌≡◌, ◌<◌, ◌≤◌, ◌-◌, length, true, IsTrue, IfOk, IfSome};
ghost use Rattle.chronicle.specs.Seats.{new_seat, new_seats, own_events};
ghost use Rattle.node_machine.specs.Opening.{opening_parts};
ghost use Rattle.node_machine.specs.Seats.{CanBegin};
ghost use Rattle.audit_writer.specs.OneTrail.{IsFormatted, one_rules};
ghost use Rattle.tmf_model.specs.Config.{IsWithin};
ghost use Rattle.tmf_model.specs.Transid.{is_transid};
ghost use Rattle.disc_process.specs.Disc.{AreTrails};
ghost use Rattle.disc_lock.specs.Locks.{held_disc, number_of};
ghost use Rattle.disc_lock.specs.Tokens.{MayGive};
ghost use Rattle.audit_writer.specs.Writers.{number_of as trail_number};
ghost use Rattle.online_dump.specs.Locks.{dumper_number};
ghost use Rattle.one_dump.specs.OneDump.{HasDumps, HasGivenOne, HasTrail, HasVolume, IsAttached, IsEmpty, IsFirstHand, IsOneRun, first_of, one_config, one_found};

use audit_writer::{AuditWriter, DeviceRun, NodeRun, WriterState};
use block_cache::Blocks;
use chronicle::{Chronicle, Seat, Started};
use disc_lock::{ActsOf, DiscGuard, DiscProcess};
use disc_process::DiscState;
use disk_model::{Disk, MemDisk};
use keyed_file::{BLOCK_BYTES, Block, Label};
use node_machine::{By, Finds, NodeMachine, Opening};
use online_dump::{DumpFile, DumpRefused, Dumper, DumperState, dump, start_at};
use std::alloc::Global;
use std::array;
use std::marker::Brand;
use std::process::Abort;
use std::sync::Wait;
use std::sync::ledger::{Blank, Share};
use std::test::*;
use tmf_model::{Config, FileLine, Key, Name, Op, Sequence, Step, Transid, Value, Volume};
use trail_files::{AuditRecord, Rules, Trail};
use txn_states::{Active, NodeSeats, begin};

/// The first run of a node of one trail, one volume and one file.
struct OneDump;

impl Finds for OneDump {
    ghost use Rattle.one_dump.specs.OneDump.{one_found};

    ghost found = { λ _. one_found };
}

/// The trail A with the volume $D, on which lies the file F of one block.
fn config(alloc: Global) -> Result<Config, Fail>
    ensures { IfOk result (λ config. config ≡ one_config) }
{
    let volume = Volume {
        name: Name::new(b"$D")?,
        trail: 1,
    };
    let file = FileLine {
        name: Name::new(b"F")?,
        volume: 1,
        blocks: 1,
    };
    Ok(Config {
        trails: Sequence::new(vec![in alloc; Name::new(b"A")?]?),
        volumes: Sequence::new(vec![in alloc; volume]?),
        files: Sequence::new(vec![in alloc; file]?),
        cache: 64,
        car_count: 64,
        car_holds: 0,
        roll: 1024,
        steps: 1000,
    })
}

/// The trail's rules.
fn rules(alloc: Global) -> Result<Rules, Fail>
    ensures { IfOk result (λ rules. rules ≡ one_rules) }
{
    Ok(Rules {
        roll: 1024,
        trail: 1,
        discs: Sequence::new(vec![in alloc; 1]?),
        files: Sequence::new(vec![in alloc; (1, 1)]?),
    })
}

/// The trail, which was formatted.
fn formatted<D: Disk + Drop>(alloc: Global, device: D) -> Result<Trail<D, AuditRecord>, Fail>
    requires { IsTrue (D.tells device) }
    ensures { IfOk result (IsFormatted D.Disk) }
{
    match Trail::format(alloc, device, rules(alloc)?) {
        Ok(trail) => Ok(trail),
        Err(_) => Err(Fail::new("no trail")),
    }
}

/// The volume's device: its label, whose selector names slot 0, and an empty block in both slots of its pair.
fn volume_device(alloc: Global, config: &Config) -> Result<MemDisk, Fail>
    requires { config.now ≡ one_config }
{
    let Ok(label) = Label::of_volume(alloc, config, 1, 1) else {
        return Err(Fail::new("no label"));
    };
    let mut spelled = [0; 256];
    label.encode(&mut spelled);
    let mut text = vec![in alloc; 1, 0]?;
    text.resize(256, 0)?;
    text.extend_from_slice(&spelled)?;
    text.extend_from_slice(&spelled)?;
    let mut block = [0; BLOCK_BYTES];
    match Block::empty(alloc, 1, 0) {
        Ok(empty) => empty.encode(&mut block),
        Err(_) => return Err(Fail::new("no block")),
    }
    let mut file = Vec::new(alloc);
    file.resize(256, 0)?;
    file.extend_from_slice(&block)?;
    file.extend_from_slice(&block)?;
    match MemDisk::from_files(alloc, vec![in alloc; (1, text), (2, file)]?, 0, &[]) {
        Ok(disk) => Ok(disk),
        Err(_) => Err(Fail::new("no device")),
    }
}

/// The volume's blocks.
fn volume_blocks<D: Disk + Drop>(
    alloc: Global,
    device: D,
    config: &Config,
) -> Result<Blocks<D>, Fail>
    requires { config.now ≡ one_config }
    ensures { IfOk result (IsAttached D.Disk) }
{
    let Ok(blocks) = Blocks::attach(alloc, device, config, 1, 64) else {
        return Err(Fail::new("no volume"));
    };
    if blocks.low() != 1 {
        return Err(Fail::new("another low position"));
    }
    Ok(blocks)
}

/// The volume's dump device, on which no dump stands.
fn dump_file<D: Disk + Drop>(alloc: Global, device: D) -> Result<DumpFile<D>, Fail>
    ensures { IfOk result IsEmpty }
{
    let Ok(file) = DumpFile::attach(alloc, device, 1) else {
        return Err(Fail::new("no dump device"));
    };
    if file.rest().is_some() {
        return Err(Fail::new("a dump"));
    }
    Ok(file)
}

/// The first attempt of a worker.
fn first_of(worker: u16) -> Transid
    ensures { result ≡ first_of worker }
{
    Transid {
        epoch: 1,
        worker,
        ordinal: 1,
        attempt: 1,
    }
}

/// The first attempt of one of the first three workers, whose seat has seen nothing yet. It may begin.
fn attempt<J: NodeRun>(seat: &Seat<NodeMachine, J>, worker: u16) -> Transid
    requires opens { J.opening ≡ opening_parts one_found }
    requires worker { IsWithin 1 3 worker }
    requires seat { seat.now ≡ new_seat (worker - 1) }
    ensures tx { result ≡ first_of worker }
    ensures can { CanBegin J.opening seat.now result }
    ensures some { 1 ≤ result.worker }
    ensures valid { is_transid result ≡ true }
{
    let _ = seat;
    first_of(worker)
}

/// A put of the key of these two letters.
fn step_of(key: &[u8; 2]) -> Option<Step>
    ensures { IfSome result (λ step. step.file ≡ 1) }
{
    Some(Step {
        file: 1,
        key: Key::new(key).ok()?,
        op: Op::Put(Value::new(b"v").ok()?),
    })
}

/// What a part comes with: its seat and its tokens.
#[derive(Drop)]
struct Hand<J: NodeRun> {
    seat: Seat<NodeMachine, J>,
    share: Share<ActsOf<J>>,
}

/// What the three workers come with.
#[derive(Drop)]
struct Hands<J: NodeRun> {
    first: Hand<J>,
    second: Hand<J>,
    third: Hand<J>,
}

/// The parts that have events, and the workers and the disc with their tokens.
#[derive(Drop)]
struct Dealt<J: NodeRun> {
    hands: Hands<J>,
    disc: Hand<J>,
    trail: Seat<NodeMachine, J>,
    dumps: Seat<NodeMachine, J>,
}

/// Eight tokens are made for each of three workers, and none for the disc.
fn deal<J: NodeRun>(mut seats: Vec<Seat<NodeMachine, J>>, blank: Blank) -> Dealt<J>
    requires seats { seats.items ≡ new_seats 37 }
    requires blank { (blank.name ≡ J.acts) × (blank.parts ≡ 25) }
    ensures first { IsFirstHand 1 result.hands.first.seat result.hands.first.share }
    ensures second { IsFirstHand 2 result.hands.second.seat result.hands.second.share }
    ensures third { IsFirstHand 3 result.hands.third.seat result.hands.third.share }
    ensures disc { (result.disc.seat ≡ new_seat 16) × (result.disc.share.parts ≡ 1) × (result.disc.share.amount ≡ 0) }
    ensures others { (result.trail ≡ new_seat 24) × (result.dumps ≡ new_seat 29) }
{
    let (mut book, mut rest) = blank.open::<ActsOf<J>>();
    book.add(&mut rest, 24);
    let dumps = seats.remove(29);
    let trail = seats.remove(24);
    let disc = Hand {
        seat: seats.remove(16),
        share: rest.split_off(1, 0),
    };
    let third = Hand {
        seat: seats.remove(2),
        share: rest.split_off(1, 8),
    };
    let second = Hand {
        seat: seats.remove(1),
        share: rest.split_off(1, 8),
    };
    let first = Hand {
        seat: seats.remove(0),
        share: rest.split_off(1, 8),
    };
    let hands = Hands {
        first,
        second,
        third,
    };
    Dealt {
        hands,
        disc,
        trail,
        dumps,
    }
}

/// The writer of the trail behind its lock.
fn writer<'a, D: Disk + Drop, J: DeviceRun<D>>(
    alloc: Global,
    chronicle: &'a Chronicle<NodeMachine, J>,
    seat: Seat<NodeMachine, J>,
    trail: Trail<D, AuditRecord>,
) -> Result<AuditWriter<'a, D, J>, Fail>
    requires run { IsOneRun J.opening J.found }
    requires trail { HasTrail D.Disk J.rules J.faults J.premise J.devices trail }
    requires seat { seat ≡ new_seat 24 }
    ensures { IfOk result (λ writer. trail_number writer ≡ 1) }
{
    match WriterState::attach(alloc, trail, seat, chronicle) {
        Ok(state) => Ok(AuditWriter::new(1, state)),
        Err(_) => Err(Fail::new("no memory")),
    }
}

/// The disc behind its lock.
fn disc<'a, D: Disk + Drop, J: DeviceRun<D>>(
    alloc: Global,
    chronicle: &'a Chronicle<NodeMachine, J>,
    config: &'a Config,
    hand: Hand<J>,
    blocks: Blocks<D>,
) -> DiscProcess<'a, D, J>
    requires run { IsOneRun J.opening J.found }
    requires config { config.now ≡ one_config }
    requires volume { HasVolume D.Disk J.faults J.devices blocks }
    requires rules { J.rules 1 ≡ one_rules }
    requires hand { (hand.seat ≡ new_seat 16) × (hand.share.parts ≡ 1) × (hand.share.amount ≡ 0) }
    ensures { number_of result ≡ 1 }
{
    let Hand { seat, share } = hand;
    let state = DiscState::new(alloc, chronicle, config, 1, blocks, 1, None, seat);
    DiscProcess::new(1, state, share)
}

/// The state of the dump device behind its lock.
fn dumper<'a, D: Disk + Drop, J: DeviceRun<D>>(
    chronicle: &'a Chronicle<NodeMachine, J>,
    seat: Seat<NodeMachine, J>,
    file: DumpFile<D>,
) -> Dumper<'a, D, J>
    requires run { IsOneRun J.opening J.found }
    requires dumps { HasDumps D.Disk J.faults J.premise J.devices file }
    requires seat { seat ≡ new_seat 29 }
    ensures { dumper_number result ≡ 1 }
{
    Dumper::new(1, DumperState::attach(file, seat, chronicle))
}

/// Dumps the volume for the item of the first worker.
fn dumped<'a, D: Disk, J: DeviceRun<D>, R: Wait>(
    rt: &R,
    disc: &DiscProcess<'a, D, J>,
    trails: &[AuditWriter<'a, D, J>],
    dumper: &Dumper<'a, D, J>,
    hand: &mut Hand<J>,
) -> Result<u64, DumpRefused>
    requires run { (J.found ≡ one_found) × (number_of disc.now ≡ 1) × (dumper_number dumper.now ≡ 1) }
    requires trails { AreTrails one_config trails.now }
    requires token { MayGive hand.old.share }
    ensures { HasGivenOne hand.old.share hand.new.share }
{
    let item = first_of(1);
    dump(
        rt,
        disc,
        trails,
        dumper,
        &mut hand.seat,
        item,
        &mut hand.share,
    )
}

/// Asks for a step, in one hold of the disc's lock. Whether it was carried out.
fn put<'a, D: Disk, J: DeviceRun<D>, R: Wait>(
    rt: &R,
    tx: &mut Active<'a, J>,
    disc: &DiscProcess<'a, D, J>,
    trails: &[AuditWriter<'a, D, J>],
    step: &Step,
    share: &mut Share<ActsOf<J>>,
) -> bool
    requires run { (J.found ≡ one_found) × (number_of disc.now ≡ 1) }
    requires trails { AreTrails one_config trails.now }
    requires valid { is_transid tx.old.tx ≡ true }
    requires step { step.now.file ≡ 1 }
    requires token { MayGive share.old }
{
    disc.lock(rt).write(rt, tx, trails, step, share).is_ok()
}

/// An attempt of the second worker, which puts a key. It is then given up, with no undo. Whether the key was put.
fn change<'a, D: Disk, J: DeviceRun<D>, R: Wait>(
    rt: &R,
    node: &'a NodeSeats<'a, J>,
    disc: &DiscProcess<'a, D, J>,
    trails: &[AuditWriter<'a, D, J>],
    hand: Hand<J>,
) -> bool
    requires run { IsOneRun J.opening J.found × (number_of disc.now ≡ 1) }
    requires trails { AreTrails one_config trails.now }
    requires hand { IsFirstHand 2 hand.seat hand.share }
{
    let Hand { seat, mut share } = hand;
    let tx = attempt(&seat, 2);
    let Some(step) = step_of(b"a1") else {
        return false;
    };
    let Ok(mut active) = begin(seat, tx, node) else {
        return false;
    };
    let is_put = put(rt, &mut active, disc, trails, &step, &mut share);
    let _ = active.quit();
    is_put
}

/// Whether the disc may have one more event.
fn has_room<'g, 'a, D: Disk, J: DeviceRun<D>>(at: &DiscGuard<'g, 'a, D, J>) -> bool
    ensures { IsTrue result → length (own_events (held_disc at.now).seat) < (held_disc at.now).part.config.steps }
{
    at.lawful();
    let steps = at.config().steps;
    let events = at.events();
    events < steps
}

/// Begins a dump at the disc for the item of the third worker, which is then held. Whether it has begun.
fn hold<'a, D: Disk, J: DeviceRun<D>, R: Wait>(
    rt: &R,
    disc: &DiscProcess<'a, D, J>,
    state: &mut DumperState<'a, D, J>,
    hand: &mut Hand<J>,
) -> bool
    requires numbers { (number_of disc.now ≡ 1) × (state.old.seat.part.number ≡ 1) }
    requires token { MayGive hand.old.share }
    ensures { state.new.seat.part.number ≡ 1 }
{
    let item = first_of(3);
    let Ok(()) = state.settle(By::Attempt(item)) else {
        return false;
    };
    let mut at = disc.lock(rt);
    if !has_room(&at) {
        return false;
    }
    start_at(&mut at, state, &mut hand.seat, item, &mut hand.share).is_some()
}

/// Whether the only block of a dump's body has the key that was put.
fn has_key<D: Disk, R: Abort>(
    rt: &R,
    alloc: Global,
    device: &mut D,
    body: u32,
) -> Result<bool, Fail> {
    let mut bytes = [0; BLOCK_BYTES];
    assert!(rt; device.read(body, 0, &mut bytes) == Ok(BLOCK_BYTES));
    match Block::decode(alloc, &bytes) {
        Ok(block) => Ok(block.get(&Key::new(b"a1")?).is_some()),
        Err(_) => Err(Fail::new("no block")),
    }
}

/// What the run stands on: the trail, the volume's blocks and its dump device.
#[derive(Drop)]
struct Stores<D: Disk> {
    trail: Trail<D, AuditRecord>,
    blocks: Blocks<D>,
    dumps: DumpFile<D>,
}

/// The dumps of the run: two are made, and one is turned away. The state of the dump device.
fn dump_all<'a, D: Disk + Drop, J: DeviceRun<D>, R: Abort + Wait>(
    rt: &R,
    node: &'a NodeSeats<'a, J>,
    disc: &DiscProcess<'a, D, J>,
    trails: &[AuditWriter<'a, D, J>],
    dumper: Dumper<'a, D, J>,
    hands: Hands<J>,
) -> DumperState<'a, D, J>
    requires run { IsOneRun J.opening J.found × (number_of disc.now ≡ 1) × (dumper_number dumper ≡ 1) }
    requires trails { AreTrails one_config trails.now }
    requires hands { IsFirstHand 1 hands.first.seat hands.first.share × IsFirstHand 2 hands.second.seat hands.second.share × IsFirstHand 3 hands.third.seat hands.third.share }
{
    let Hands {
        mut first,
        second,
        mut third,
    } = hands;
    assert_eq!(rt; dumped(rt, disc, trails, &dumper, &mut first), Ok(1));
    assert!(rt; change(rt, node, disc, trails, second));
    assert_eq!(rt; dumped(rt, disc, trails, &dumper, &mut first), Ok(1));
    let mut state = dumper.into_state(rt);
    assert!(rt; hold(rt, disc, &mut state, &mut third));
    let dumper = Dumper::new(1, state);
    assert_eq!(rt;
        dumped(rt, disc, trails, &dumper, &mut first),
        Err(DumpRefused::Dumping)
    );
    dumper.into_state(rt)
}

/// The disc, once no thread has its lock: how many events it has had.
fn disc_events<'a, D: Disk + Drop, J: DeviceRun<D>, R: Wait>(
    rt: &R,
    disc: DiscProcess<'a, D, J>,
) -> u64 {
    let (state, _) = disc.into_state(rt);
    state.events()
}

/// What stands on the device of the dumps: the start that it tells, and two bodies, of which the second has the key.
fn look<D: Disk + Drop, R: Abort>(rt: &R, alloc: Global, file: DumpFile<D>) -> Result<(), Fail> {
    assert_eq!(rt; file.rest(), Some(1));
    let mut device = file.into_device();
    assert!(rt; !has_key(rt, alloc, &mut device, 2)?);
    assert!(rt; has_key(rt, alloc, &mut device, 3)?);
    Ok(())
}

/// The whole run under its name.
fn run_under<'a, D: Disk + Drop, J: DeviceRun<D>, R: Abort + Wait>(
    rt: &R,
    alloc: Global,
    node: &'a NodeSeats<'a, J>,
    seats: Vec<Seat<NodeMachine, J>>,
    stores: Stores<D>,
    blank: Blank,
) -> Result<(), Fail>
    requires run { IsOneRun J.opening J.found × (node.now.config.now ≡ one_config) }
    requires trail { HasTrail D.Disk J.rules J.faults J.premise J.devices stores.trail }
    requires volume { HasVolume D.Disk J.faults J.devices stores.blocks }
    requires dumps { HasDumps D.Disk J.faults J.premise J.devices stores.dumps }
    requires seats { seats.items ≡ new_seats 37 }
    requires blank { (blank.name ≡ J.acts) × (blank.parts ≡ 25) }
{
    let Dealt {
        hands,
        disc: disc_part,
        trail: trail_part,
        dumps: dump_part,
    } = deal(seats, blank);
    let Stores {
        trail,
        blocks,
        dumps,
    } = stores;
    let writer = writer(alloc, node.chronicle, trail_part, trail)?;
    let trails = array::from_ref(&writer);
    let disc = disc(alloc, node.chronicle, node.config, disc_part, blocks);
    let dumper = dumper(node.chronicle, dump_part, dumps);
    let state = dump_all(rt, node, &disc, trails, dumper, hands);
    assert_eq!(rt; state.events(), 6);
    assert_eq!(rt; disc_events(rt, disc), 7);
    let (file, _) = state.into_parts();
    look(rt, alloc, file)
}

/// The same, under the chronicle that is started.
fn run_named<D: Disk + Drop, J: DeviceRun<D>, R: Abort + Wait>(
    rt: &R,
    alloc: Global,
    started: Started<NodeMachine>,
    config: &Config,
    stores: Stores<D>,
    blank: Blank,
) -> Result<(), Fail>
    requires name { (started.table ≡ J.table) × (started.states ≡ J.opening) }
    requires run { IsOneRun J.opening J.found × (config.now ≡ one_config) }
    requires trail { HasTrail D.Disk J.rules J.faults J.premise J.devices stores.trail }
    requires volume { HasVolume D.Disk J.faults J.devices stores.blocks }
    requires dumps { HasDumps D.Disk J.faults J.premise J.devices stores.dumps }
    requires blank { (blank.name ≡ J.acts) × (blank.parts ≡ 25) }
{
    let (chronicle, seats) = started.named::<J>(alloc).map_err(|_| "memory")?;
    let node = NodeSeats {
        chronicle: &chronicle,
        config,
        steps: config.steps,
        monitor: 0,
    };
    run_under(rt, alloc, &node, seats, stores, blank)
}

fn started(alloc: Global) -> Result<Started<NodeMachine>, Fail>
    ensures { IfOk result (λ s. s.states ≡ opening_parts one_found) }
{
    match Started::<NodeMachine>::new(alloc, 37, &Opening { from: &OneDump }) {
        Ok(started) => Ok(started),
        Err(_) => Err(Fail::new("no memory")),
    }
}

#[test]
fn a_volume_is_dumped_twice(rt: HostRuntime) -> Result<(), Fail> {
    let alloc = rt.alloc();
    let config = config(alloc)?;
    let trail = formatted(alloc, MemDisk::new(alloc, 0, &[]).map_err(|_| "memory")?)?;
    let blocks = volume_blocks(alloc, volume_device(alloc, &config)?, &config)?;
    let dumps = dump_file(alloc, MemDisk::new(alloc, 0, &[]).map_err(|_| "memory")?)?;
    let stores = Stores {
        trail,
        blocks,
        dumps,
    };
    run_named::<MemDisk, Brand, _>(&rt, alloc, started(alloc)?, &config, stores, Blank::new(25))
}
