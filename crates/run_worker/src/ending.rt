//! The end of an attempt: its commit, or its backout.
ghost use Rattle.std.specs.Prelude.{◌≡◌, [], ◌∷◌, IsSome, Some};
ghost use Rattle.node_machine.specs.declared.event.Event.TheVariants.{OfWorker};
ghost use Rattle.node_machine.specs.declared.event.WorkerEvent.TheVariants.{End};
ghost use Rattle.txn_states.specs.Txn.{HasStepped};
ghost use Rattle.commit_boxcar.specs.Settled.{IsOfRun};
ghost use Rattle.phase_one.specs.Stopped.{HasDisc, HaveDiscs};
ghost use Rattle.backout.specs.Backed.{HasCome, HasLeft, HaveLeft};
ghost use Rattle.run_worker.specs.Ended.{HasGivenUp, IsClosed, IsSettled, hang_of, told_by_stop};
ghost use Rattle.run_worker.specs.Shared.{IsShared};

use crate::finding::disc_of;
use crate::shared::Shared;
use audit_writer::{DeviceRun, NodeRun};
use backout::{Hanging, back_out};
use boxcar_timer::Depart;
use chronicle::Seat;
use commit_boxcar::{InDoubt, MonitorRun, RequestsName};
use disc_lock::DiscProcess;
use disk_model::Disk;
use node_machine::NodeMachine;
use phase_one::{Stopped, run};
use run_outcomes::{Gate, Hang, Told};
use std::sync::Wait;
use tmf_model::{Sequence, Value};
use txn_states::{Aborting, Active, Ended, Flushed};

/// The number of the monitor trail's device.
const MONITOR: u8 = 0;

/// What a hanging backout is to an outcome.
fn hang_of(hanging: Hanging) -> Hang
    ensures { result ≡ hang_of hanging }
{
    match hanging {
        Hanging::Failed(device) => Hang::Device(device),
        Hanging::Damaged(device, damage) => Hang::Damaged(device, damage),
        Hanging::NoMemory => Hang::Memory,
    }
}

/// What is to be told where phase one was stopped.
fn told_by_stop(stopped: Stopped) -> Told
    ensures { result ≡ told_by_stop stopped }
{
    match stopped {
        Stopped::Failed(device) => Told::Failed { device },
        Stopped::NoMemory => Told::Memory,
    }
}

/// Backs an attempt out, and answers what is to be told then; or that it hangs.
pub fn give_up<'s, 'a, R: Wait, D: Disk, J: MonitorRun<D>, C: Depart, Q: RequestsName, G: Gate>(
    rt: &R,
    shared: &Shared<'s, 'a, D, J, C, Q, G>,
    tx: Aborting<'a, J>,
    why: Told,
) -> (Seat<NodeMachine, J>, Told)
    requires shared { IsShared J.found shared.now.config.now shared.now.trails.now shared.now.discs.now }
    requires discs { HaveDiscs shared.now.discs.now tx.discs }
    requires run { IsOfRun J.found tx.tx }
    requires come { HasCome tx }
    ensures { HasGivenUp D.Disk J.opening (J.found).config J.devices tx.entry why result.0 result.1 }
{
    match back_out(rt, tx, shared.discs, shared.trails, shared.monitor) {
        Ok(ended) => (ended.finish(), why),
        Err((seat, hanging)) => {
            let why = hang_of(hanging);
            (seat, Told::Hanging { why })
        }
    }
}

/// Frees what a committed attempt holds at the disc with this number, in one hold of its lock.
fn release_at<'a, R: Wait, D: Disk, J: DeviceRun<D>>(
    rt: &R,
    tx: &mut Ended<'a, J>,
    number: u8,
    discs: &[DiscProcess<'a, D, J>],
)
    requires disc { HasDisc discs.now number }
    requires committed { IsSome tx.old.place }
    ensures left { HasLeft tx.old.txn tx.new.txn.seat number }
    ensures txn { HasStepped J.opening tx.old.txn [] tx.new.txn }
    ensures place { tx.new.place ≡ tx.old.place }
{
    disc_of(discs, number).lock(rt).release(tx);
}

/// Frees what a committed attempt holds at each disc that it has enlisted.
pub(crate) fn release_all<'a, R: Wait, D: Disk, J: DeviceRun<D>>(
    rt: &R,
    tx: &mut Ended<'a, J>,
    discs: &[DiscProcess<'a, D, J>],
)
    requires discs { HaveDiscs discs.now tx.old.txn.discs }
    requires committed { IsSome tx.old.place }
    ensures left { HaveLeft tx.old.txn tx.new.txn.seat }
    ensures txn { HasStepped J.opening tx.old.txn [] tx.new.txn }
    ensures place { tx.new.place ≡ tx.old.place }
{
    let count = tx.discs().len();
    for index in 0..count {
        let number = tx.discs()[index];
        release_at(rt, tx, number, discs);
    }
}

/// The place of an attempt's commit, which stands there.
fn commit_place<'a, J: NodeRun>(tx: &Ended<'a, J>) -> u64
    requires { IsSome tx.now.place }
    ensures { tx.now.place ≡ Some result }
{
    match tx.receipt() {
        Some(receipt) => receipt.place,
        None => unreachable!(),
    }
}

/// Has the commit of an attempt recorded whose audit has landed, and frees what it holds.
fn record_commit<'s, 'a, R: Wait, D: Disk, J: MonitorRun<D>, C: Depart, Q: RequestsName, G: Gate>(
    rt: &R,
    shared: &Shared<'s, 'a, D, J, C, Q, G>,
    tx: Flushed<'a, J>,
    reads: Vec<(u8, Option<Value>)>,
) -> (Seat<NodeMachine, J>, Told)
    requires discs { HaveDiscs shared.now.discs.now tx.discs }
    requires run { IsOfRun J.found tx.tx }
    requires come { HasCome tx }
    ensures { IsSettled J.opening tx.entry (OfWorker (End tx.entry.tx) ∷ []) reads.items result.0 result.1 }
{
    match shared.monitor.settle(rt, tx) {
        Ok(ended) => {
            let mut ended = ended;
            release_all(rt, &mut ended, shared.discs);
            let place = commit_place(&ended);
            let reads = Sequence::new(reads);
            (ended.finish(), Told::Committed { place, reads })
        }
        Err(InDoubt { tx: _, seat }) => (seat, Told::InDoubt { device: MONITOR }),
    }
}

/// Commits an attempt that has carried out its steps: its audit lands at each disc, its commit is recorded, and it frees what it holds. Where its audit does not land it is backed out.
pub fn commit<'s, 'a, R: Wait, D: Disk, J: MonitorRun<D>, C: Depart, Q: RequestsName, G: Gate>(
    rt: &R,
    shared: &Shared<'s, 'a, D, J, C, Q, G>,
    tx: Active<'a, J>,
    reads: Vec<(u8, Option<Value>)>,
) -> (Seat<NodeMachine, J>, Told)
    requires shared { IsShared J.found shared.now.config.now shared.now.trails.now shared.now.discs.now }
    requires discs { HaveDiscs shared.now.discs.now tx.discs }
    requires run { IsOfRun J.found tx.tx }
    requires come { HasCome tx }
    ensures { IsClosed D.Disk J.opening (J.found).config J.devices tx.entry reads.items result.0 result.1 }
{
    match run(rt, tx.end(), shared.discs, shared.trails) {
        Ok(flushed) => record_commit(rt, shared, flushed, reads),
        Err((ending, stopped)) => give_up(rt, shared, ending.quit(), told_by_stop(stopped)),
    }
}
