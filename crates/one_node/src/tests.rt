//! What no clause says: that the calls are Ok where there is memory and no device fails, that two transactions at once have their audit on the trail once, which
//! files a control point's purge removes, that its low position waits for a change that is under way, in which order a backout undoes, and which device each failed
//! call names.
ghost use Rattle.std.specs.Prelude.{◌≡◌};
ghost use Rattle.chronicle.specs.Seats.{new_seats};
ghost use Rattle.one_node.specs.OneNode.{AreHands, AreParts, HasMonitor, HasTrail, HasVolume, IsOneRun, one_config};

use crate::cases::{Case, Task, done};
use crate::left::{listed, record, records};
use crate::parts::{
    Dealt, Stores, begun, config, deal, disc, formatted, monitor, started, taken_apart,
    volume_blocks, volume_device, writer,
};
use audit_writer::NodeRun;
use chronicle::Started;
use commit_boxcar::{MonitorRun, OpenRequests, RequestsName, open_requests};
use disk_model::{Disk, MemDisk};
use node_machine::NodeMachine;
use std::alloc::Global;
use std::array;
use std::marker::Brand;
use std::process::Abort;
use std::sync::Wait;
use std::sync::ledger::Blank;
use std::test::*;
use std::thread::Threads;
use tmf_model::{Config, Key, Value};
use trail_files::AuditKind;
use txn_states::NodeSeats;

/// The whole run, with its queue of requests, under its name, and what it leaves.
fn run_queued<
    'a,
    D: Disk + Drop + Send,
    J: MonitorRun<D> + Send + Sync,
    Q: RequestsName,
    R: Abort + Threads + Wait + Sync,
>(
    rt: &R,
    alloc: Global,
    node: &'a NodeSeats<'a, J>,
    stores: Stores<D>,
    queue: OpenRequests<J>,
    task: (Case, Dealt<J>),
) -> Result<Stores<D>, Fail>
    requires run { IsOneRun J.opening J.found × (node.now.config.now ≡ one_config) }
    requires monitor { HasMonitor D.Disk J.before J.faults J.premise J.devices stores.monitor }
    requires trail { HasTrail D.Disk J.rules J.faults J.premise J.devices stores.trail }
    requires volume { HasVolume D.Disk J.faults J.devices stores.blocks }
    requires queue { queue ≡ Q.queue }
    requires hands { AreHands task.1.hands.first.worker task.1.hands.first.seat task.1.hands.first.share task.1.hands.second.worker task.1.hands.second.seat task.1.hands.second.share task.1.hands.third.worker task.1.hands.third.seat task.1.hands.third.share }
    requires parts { AreParts task.1.disc task.1.share task.1.trail task.1.monitor }
{
    let (case, dealt) = task;
    let writer = writer(alloc, node.chronicle, dealt.trail, stores.trail)?;
    let disc = disc(
        alloc,
        node.chronicle,
        node.config,
        dealt.disc,
        dealt.share,
        stores.blocks,
    );
    let monitor = monitor::<D, J, Q>(alloc, node.chronicle, dealt.monitor, stores.monitor, queue)?;
    let (discs, trails) = (array::from_ref(&disc), array::from_ref(&writer));
    let hands = dealt.hands;
    done(rt, node, discs, trails, &monitor, Task { case, hands })?;
    Ok(taken_apart(rt, monitor, writer, disc))
}

/// The configuration, and what the test does.
#[derive(Drop)]
struct Setup {
    config: Config,
    case: Case,
}

/// The run under its name, and what it leaves.
fn run_named<
    D: Disk + Drop + Send,
    J: MonitorRun<D> + Send + Sync,
    R: Abort + Threads + Wait + Sync,
>(
    rt: &R,
    alloc: Global,
    started: Started<NodeMachine>,
    blank: Blank,
    stores: Stores<D>,
    setup: &Setup,
) -> Result<Stores<D>, Fail>
    requires name { (started.table ≡ J.table) × (started.states ≡ J.opening) }
    requires blank { (blank.name ≡ J.acts) × (blank.parts ≡ 25) }
    requires run { IsOneRun J.opening J.found × (setup.now.config ≡ one_config) }
    requires monitor { HasMonitor D.Disk J.before J.faults J.premise J.devices stores.monitor }
    requires trail { HasTrail D.Disk J.rules J.faults J.premise J.devices stores.trail }
    requires volume { HasVolume D.Disk J.faults J.devices stores.blocks }
{
    let (chronicle, seats) = started.named::<J>(alloc).map_err(|_| "memory")?;
    let node = NodeSeats {
        chronicle: &chronicle,
        config: &setup.config,
        steps: 1000,
        monitor: 0,
    };
    let queue = open_requests::<J>(alloc).map_err(|_| "memory")?;
    let dealt = deal(seats, blank);
    run_queued::<D, J, Brand, R>(rt, alloc, &node, stores, queue, (setup.case, dealt))
}

/// The run over devices of the monitor trail and of the trail of which these calls fail, and what it leaves.
fn run_on<R: Abort + Threads + Wait + Sync>(
    rt: &R,
    alloc: Global,
    monitor_fails: &[u64],
    trail_fails: &[u64],
    case: Case,
) -> Result<Stores<MemDisk>, Fail> {
    let config = config(alloc)?;
    let monitor = begun(
        alloc,
        MemDisk::new(alloc, 0, monitor_fails).map_err(|_| "memory")?,
    )?;
    let trail = formatted(
        alloc,
        MemDisk::new(alloc, 0, trail_fails).map_err(|_| "memory")?,
    )?;
    let blocks = volume_blocks(alloc, volume_device(alloc, &config)?, &config)?;
    let stores = Stores {
        monitor,
        trail,
        blocks,
    };
    let started = started(alloc)?;
    let setup = Setup { config, case };
    run_named::<MemDisk, Brand, _>(rt, alloc, started, Blank::new(25), stores, &setup)
}

#[test]
fn two_phases_at_one_disc(rt: HostRuntime) -> Result<(), Fail> {
    let left = run_on(&rt, rt.alloc(), &[], &[], Case::TwoPhases)?;
    // Whose record lands first is not known: each has one at its position.
    let one = record(AuditKind::Change, 1, b"a")?;
    let other = record(AuditKind::Change, 2, b"a")?;
    assert!(rt; records(left.trail) == [one, other, None, None]);
    Ok(())
}

#[test]
fn a_failed_trail_stops_one_phase(rt: HostRuntime) -> Result<(), Fail> {
    // The calls behind the two of the format: the batch is written and synced, its gate is opened and synced.
    for call in 2..6 {
        run_on(&rt, rt.alloc(), &[], &[call], Case::OneStopped)?;
    }
    Ok(())
}

#[test]
fn a_control_point_purges_the_trail(rt: HostRuntime) -> Result<(), Fail> {
    let before = run_on(&rt, rt.alloc(), &[], &[], Case::ThreeCommits)?;
    assert_eq!(rt; before.blocks.low(), 1);
    assert_eq!(rt;
        (before.trail.least_file(), before.trail.present_file()),
        (1, 3)
    );
    let left = run_on(&rt, rt.alloc(), &[], &[], Case::Control)?;
    assert_eq!(rt; left.blocks.low(), 25);
    assert_eq!(rt;
        (left.trail.least_file(), left.trail.present_file()),
        (3, 3)
    );
    let found = records(left.trail);
    assert!(rt; found[0] == record(AuditKind::Change, 17, b"a")?);
    Ok(())
}

#[test]
fn a_backout_undoes_the_newest_first(rt: HostRuntime) -> Result<(), Fail> {
    let left = run_on(&rt, rt.alloc(), &[], &[], Case::BackOut)?;
    let one = record(AuditKind::Change, 1, b"a")?;
    let other = record(AuditKind::Change, 2, b"b")?;
    let newest = record(AuditKind::Undo, 3, b"a")?;
    let oldest = Some((AuditKind::Undo, 4, None));
    assert!(rt; records(left.trail) == [one, other, newest, oldest]);
    Ok(())
}

#[test]
fn a_failed_car_of_an_abort_hangs(rt: HostRuntime) -> Result<(), Fail> {
    // The calls behind the six that make the monitor trail and land its start: the car is written and synced, its gate is opened and synced.
    for call in 6..10 {
        run_on(&rt, rt.alloc(), &[call], &[], Case::Hanging)?;
    }
    Ok(())
}

#[test]
fn a_low_position_waits_for_a_change_under_way(rt: HostRuntime) -> Result<(), Fail> {
    let alloc = rt.alloc();
    // The same calls, behind those of the car of a commit.
    for call in 10..14 {
        let left = run_on(&rt, alloc, &[call], &[], Case::ControlOfOne)?;
        assert_eq!(rt; left.blocks.low(), 2);
        let found = listed(alloc, left)?;
        let kept = [(Key::new(b"k2")?, Value::new(b"a")?)];
        assert!(rt; found.as_slice() == kept.as_slice());
    }
    Ok(())
}
