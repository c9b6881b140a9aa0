//! How the monitor ends a transaction, in one hold of its lock.
ghost use Rattle.std.specs.Prelude.{◌≡◌, [], IfOk, IfErr};
ghost use Rattle.trail_files.specs.declared.monitor_record.MonitorRecord.TheVariants.{Commit as CommitRecord, Abort as AbortRecord};
ghost use Rattle.commit_boxcar.specs.Cars.{HasLineFor, IsIdle, when_told};
ghost use Rattle.commit_boxcar.specs.Line.{IsNext};
ghost use Rattle.commit_boxcar.specs.Monitor.{line};
ghost use Rattle.commit_boxcar.specs.Settled.{IsRecordedAt, HasAborted, IsInDoubt, IsOfRun};

use crate::monitor::MonitorState;
use crate::name::MonitorRun;
use crate::queue::{Asked, RequestsName};
use crate::waiting::Waiting;
use audit_writer::NodeRun;
use boxcar_timer::Depart;
use chronicle::Seat;
use disk_model::Disk;
use node_machine::{By, NodeMachine};
use std::sync::Wait;
use tmf_model::Transid;
use trail_files::MonitorRecord;
use txn_states::{Committed, Ended, Undone};

/// The monitor's device failed. Whether the record stands in the trail is told by a later car, or by recovery.
#[derive(Drop)]
pub struct InDoubt<J: NodeRun> {
    pub tx: Transid,
    pub seat: Seat<NodeMachine, J>,
}

impl<'a, D: Disk, J: MonitorRun<D>, C: Depart, Q: RequestsName> MonitorState<'a, D, J, C, Q> {
    /// Takes in what the ask for the transaction's commit has come to, and makes cars until that commit is recorded, the last one of it alone
    /// where no other has it. Whatever is answered, the requests of others that it pops are taken, in their order.
    pub fn commit<'n, R: Wait>(
        &mut self,
        rt: &R,
        tx: Committed<'n, J>,
        asked: Asked<J, Q>,
    ) -> Result<Ended<'n, J>, InDoubt<J>>
        requires run { IsOfRun J.found tx.tx }
        requires asked { asked.request ≡ CommitRecord tx.tx }
        ensures recorded { IfOk result (IsRecordedAt J.opening tx.entry) }
        ensures line { HasLineFor (CommitRecord tx.entry.tx) (when_told asked.pushed self.old) self.new }
        ensures in_doubt { IfErr result (λ e. IsInDoubt J.opening tx.entry [] e.tx e.seat) }
    {
        let mut tx = tx;
        let id = tx.tx();
        self.hear_of(asked);
        let mut caller = tx.note();
        let found = self.record(rt, &mut caller, By::Attempt(id), MonitorRecord::Commit(id));
        tx.meet(&mut caller);
        match found {
            Ok(found) => match found {
                Some(place) => Ok(tx.ended(place)),
                None => self.commit_alone(tx),
            },
            Err(_) => Err(InDoubt {
                tx: id,
                seat: tx.into_seat(),
            }),
        }
    }

    // Makes a car of the transaction's commit alone.
    fn commit_alone<'n>(&mut self, tx: Committed<'n, J>) -> Result<Ended<'n, J>, InDoubt<J>>
        requires run { IsOfRun J.found tx.tx }
        requires idle { IsIdle self.old }
        requires next { IsNext (line self.old) (CommitRecord tx.tx) }
        ensures line { HasLineFor (CommitRecord tx.entry.tx) self.old self.new }
        ensures recorded { IfOk result (IsRecordedAt J.opening tx.entry) }
        ensures in_doubt { IfErr result (λ e. IsInDoubt J.opening tx.entry [] e.tx e.seat) }
    {
        let mut tx = tx;
        let id = tx.tx();
        let waiting = Waiting::new(MonitorRecord::Commit(id), tx.note());
        let mut caller = tx.note();
        let place = self.record_alone(&mut caller, By::Attempt(id), waiting);
        tx.meet(&mut caller);
        match place {
            Ok(place) => Ok(tx.ended(place)),
            Err(_) => Err(InDoubt {
                tx: id,
                seat: tx.into_seat(),
            }),
        }
    }

    /// The same for a transaction's abort.
    pub fn abort<'n, R: Wait>(
        &mut self,
        rt: &R,
        tx: Undone<'n, J>,
        asked: Asked<J, Q>,
    ) -> Result<Ended<'n, J>, InDoubt<J>>
        requires run { IsOfRun J.found tx.tx }
        requires asked { asked.request ≡ AbortRecord tx.tx }
        ensures aborted { IfOk result (HasAborted J.opening tx.entry) }
        ensures line { HasLineFor (AbortRecord tx.entry.tx) (when_told asked.pushed self.old) self.new }
        ensures in_doubt { IfErr result (λ e. IsInDoubt J.opening tx.entry [] e.tx e.seat) }
    {
        let mut tx = tx;
        let id = tx.tx();
        self.hear_of(asked);
        let mut caller = tx.note();
        let found = self.record(rt, &mut caller, By::Attempt(id), MonitorRecord::Abort(id));
        tx.meet(&mut caller);
        match found {
            Ok(found) => match found {
                Some(_) => Ok(tx.ended()),
                None => self.abort_alone(tx),
            },
            Err(_) => Err(InDoubt {
                tx: id,
                seat: tx.into_seat(),
            }),
        }
    }

    // Makes a car of the transaction's abort alone.
    fn abort_alone<'n>(&mut self, tx: Undone<'n, J>) -> Result<Ended<'n, J>, InDoubt<J>>
        requires run { IsOfRun J.found tx.tx }
        requires idle { IsIdle self.old }
        requires next { IsNext (line self.old) (AbortRecord tx.tx) }
        ensures line { HasLineFor (AbortRecord tx.entry.tx) self.old self.new }
        ensures aborted { IfOk result (HasAborted J.opening tx.entry) }
        ensures in_doubt { IfErr result (λ e. IsInDoubt J.opening tx.entry [] e.tx e.seat) }
    {
        let mut tx = tx;
        let id = tx.tx();
        let waiting = Waiting::new(MonitorRecord::Abort(id), tx.note());
        let mut caller = tx.note();
        let place = self.record_alone(&mut caller, By::Attempt(id), waiting);
        tx.meet(&mut caller);
        match place {
            Ok(_) => Ok(tx.ended()),
            Err(_) => Err(InDoubt {
                tx: id,
                seat: tx.into_seat(),
            }),
        }
    }
}
