//! Backout, from the newest change to the last release.
ghost use Rattle.std.specs.Prelude.{◌≡◌, [], IfErr, IfOk, MatchResult, None};
ghost use Rattle.txn_states.specs.Txn.{HasAdvanced, HasStepped};
ghost use Rattle.commit_boxcar.specs.Settled.{IsOfRun};
ghost use Rattle.disc_process.specs.Disc.{AreTrails};
ghost use Rattle.phase_one.specs.Stopped.{HaveDiscs};
ghost use Rattle.backout.specs.Backed.{HasBackedOut, HasRecorded, IsHanging};

use crate::hanging::{Hanging, hanging_from};
use crate::releasing::release_everywhere;
use crate::undoing::undo_everywhere;
use audit_writer::AuditWriter;
use boxcar_timer::Depart;
use chronicle::Seat;
use commit_boxcar::{InDoubt, Monitor, MonitorRun, RequestsName};
use disc_lock::DiscProcess;
use disk_model::Disk;
use node_machine::NodeMachine;
use std::sync::Wait;
use txn_states::{Aborting, Ended};

/// The number of the monitor trail's device.
const MONITOR: u8 = 0;

/// Undoes all that is left of a transaction at its discs, and then has its abort recorded.
fn undo_and_record<'a, R: Wait, D: Disk, J: MonitorRun<D>, C: Depart, Q: RequestsName>(
    rt: &R,
    tx: Aborting<'a, J>,
    discs: &[DiscProcess<'a, D, J>],
    trails: &[AuditWriter<'a, D, J>],
    monitor: &Monitor<'a, D, J, C, Q>,
) -> Result<Ended<'a, J>, (Seat<NodeMachine, J>, Hanging)>
    requires discs { HaveDiscs discs.now tx.discs }
    requires trails { AreTrails (J.found).config trails.now }
    requires run { IsOfRun J.found tx.tx }
    ensures recorded { IfOk result (HasRecorded J.opening tx.entry) }
    ensures hanging { IfErr result (λ hanging. IsHanging D.Disk J.opening (J.found).config J.devices tx.entry hanging.0 hanging.1) }
    ensures seat { IfErr result (λ hanging. HasAdvanced J.opening tx.entry.seat [] hanging.0) }
{
    let mut tx = tx;
    if let Err(refusal) = undo_everywhere(rt, &mut tx, discs, trails) {
        return Err((tx.into_seat(), hanging_from(refusal)));
    }
    match monitor.record_abort(rt, tx.done()) {
        Ok(ended) => Ok(ended),
        Err(InDoubt { tx: _, seat }) => Err((seat, Hanging::Failed(MONITOR))),
    }
}

/// Backs a transaction out: it undoes all that is left of it at each disc that it has enlisted, the newest change first, has its abort recorded, and then
/// frees what it holds at each. It flushes no audit but that of a block which is drawn to make room. Where it is refused the worker's seat comes back.
pub fn back_out<'a, R: Wait, D: Disk, J: MonitorRun<D>, C: Depart, Q: RequestsName>(
    rt: &R,
    tx: Aborting<'a, J>,
    discs: &[DiscProcess<'a, D, J>],
    trails: &[AuditWriter<'a, D, J>],
    monitor: &Monitor<'a, D, J, C, Q>,
) -> Result<Ended<'a, J>, (Seat<NodeMachine, J>, Hanging)>
    requires discs { HaveDiscs discs.now tx.discs }
    requires trails { AreTrails (J.found).config trails.now }
    requires run { IsOfRun J.found tx.tx }
    ensures backed_out { IfOk result (HasBackedOut J.opening tx.entry) }
    ensures hanging { IfErr result (λ hanging. IsHanging D.Disk J.opening (J.found).config J.devices tx.entry hanging.0 hanging.1) }
    ensures txn { MatchResult result (λ ended. HasStepped J.opening tx.entry [] ended.txn) (λ hanging. HasAdvanced J.opening tx.entry.seat [] hanging.0) }
{
    match undo_and_record(rt, tx, discs, trails, monitor) {
        Ok(ended) => {
            let mut ended = ended;
            match release_everywhere(rt, &mut ended, discs, trails) {
                Ok(()) => Ok(ended),
                Err(refusal) => Err((ended.into_seat(), hanging_from(refusal))),
            }
        }
        Err(hanging) => Err(hanging),
    }
}
