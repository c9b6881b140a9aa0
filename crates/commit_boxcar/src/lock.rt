//! The lock round the monitor, and the calls that end a transaction.
ghost use Rattle.std.specs.Prelude.{◌≡◌, ◌∷◌, [], ◌-◌, ◌^◌, length, min, IfOk, IfErr};
ghost use Rattle.chronicle.specs.Histories.{events_of};
ghost use Rattle.chronicle.specs.Seats.{HasGrown, HasLearned};
ghost use Rattle.node_machine.specs.declared.event.Event.TheVariants.{OfWorker};
ghost use Rattle.node_machine.specs.declared.event.WorkerEvent.TheVariants.{End};
ghost use Rattle.node_machine.specs.Node.{node};
ghost use Rattle.node_machine.specs.Opening.{monitor_part};
ghost use Rattle.commit_boxcar.specs.Line.{IsWaiting};
ghost use Rattle.commit_boxcar.specs.Requests.{IsAsFar};
ghost use Rattle.commit_boxcar.specs.Settled.{HasSettled, HasAborted, IsInDoubt, IsOfRun};

use crate::ending::InDoubt;
use crate::monitor::MonitorState;
use crate::name::MonitorRun;
use crate::queue::{Asked, Askers, PushReceipt, RequestsName};
use crate::waiting::Waiting;
use boxcar_timer::Depart;
use chronicle::{NoMemory, Seat};
use disk_model::Disk;
use node_machine::NodeMachine;
use std::sync::{Mutex, MutexGuard, Wait};
use trail_files::MonitorRecord;
use txn_states::{Ended, Flushed, Undone};

/// The monitor under a lock, and the workers' passes of the queue in front of it. Both ends carry the queue's name.
#[derive(Drop)]
pub struct Monitor<'a, D: Disk, J: MonitorRun<D>, C: Depart, Q: RequestsName> {
    state: Mutex<MonitorState<'a, D, J, C, Q>>,
    askers: Askers<J, Q>,
}

impl<'a, D: Disk, J: MonitorRun<D>, C: Depart, Q: RequestsName> Monitor<'a, D, J, C, Q> {
    /// The lock round a state, with the other end of its queue.
    pub fn new(state: MonitorState<'a, D, J, C, Q>, askers: Askers<J, Q>) -> Self {
        Monitor {
            state: Mutex::new(state),
            askers,
        }
    }

    /// The state, once no thread has the lock. What is still queued stays with the state's end of the queue, and ends with it.
    pub fn into_state(self) -> MonitorState<'a, D, J, C, Q> {
        let Monitor { state, .. } = self;
        state.into_inner()
    }

    /// Takes the lock.
    pub fn lock<'g, R: Wait>(&'g self, rt: &R) -> MutexGuard<'g, MonitorState<'a, D, J, C, Q>> {
        self.state.lock(rt)
    }

    /// The request waits in the queue, with its note, and not behind the monitor's lock. Where it, or a later one of its worker, was pushed
    /// already, nothing changes. Where memory runs out, a note comes back that has seen what it asks.
    pub fn ask<R: Wait>(
        &self,
        rt: &R,
        request: MonitorRecord,
        note: Seat<NodeMachine, J>,
    ) -> Result<PushReceipt<J, Q>, (Seat<NodeMachine, J>, NoMemory)>
        requires asks { IsWaiting J.opening J.found.epoch note request }
        ensures asked { IfOk result (λ receipt. IsAsFar request receipt) }
        ensures note { IfErr result (λ e. IsWaiting J.opening J.found.epoch e.0 request) }
    {
        match self.askers.ask(rt, Waiting::new(request, note)) {
            Ok(receipt) => Ok(receipt),
            Err(waiting) => {
                let (_, note) = waiting.into_parts();
                Err((note, NoMemory))
            }
        }
    }

    /// The same, and what it has come to, as `commit` and `abort` of the state ask for it.
    pub fn ask_for<R: Wait>(
        &self,
        rt: &R,
        request: MonitorRecord,
        note: Seat<NodeMachine, J>,
    ) -> Asked<J, Q>
        requires asks { IsWaiting J.opening J.found.epoch note request }
        ensures asked { result.request ≡ request }
    {
        self.askers.ask_for(rt, Waiting::new(request, note))
    }

    /// Lets the monitor's seat and the caller's tell each other what they have seen.
    pub fn meet<R: Wait>(&self, rt: &R, caller: &mut Seat<NodeMachine, J>)
        ensures grown { HasGrown caller.old caller.new }
        ensures learned { HasLearned node J.opening caller.old caller.new }
    {
        self.state.lock(rt).meet(caller);
    }

    /// The number of the monitor's own events, or 2^64 - 1 where there are more. The caller has then seen so many.
    pub fn events<R: Wait>(&self, rt: &R, caller: &mut Seat<NodeMachine, J>) -> u64
        ensures count { result ≡ min (length (events_of monitor_part caller.new.seen)) (2 ^ 64 - 1) }
        ensures grown { HasGrown caller.old caller.new }
        ensures learned { HasLearned node J.opening caller.old caller.new }
    {
        let mut state = self.state.lock(rt);
        state.meet(caller);
        state.events()
    }

    // Waits while the car is held, and gives the lock up between the holds.
    fn await_departure<R: Wait>(&self, rt: &R) {
        let mut holds = 0;
        while self.state.lock(rt).hold(rt, holds) {
            holds += 1;
        }
    }

    /// Decides a transaction's commit and has it recorded, in a car that it shares with others. Where it is in doubt, a call of the
    /// device has failed for it.
    pub fn settle<'n, R: Wait>(
        &self,
        rt: &R,
        tx: Flushed<'n, J>,
    ) -> Result<Ended<'n, J>, InDoubt<J>>
        requires run { IsOfRun J.found tx.tx }
        ensures settled { IfOk result (HasSettled J.opening tx.entry) }
        ensures in_doubt { IfErr result (λ e. IsInDoubt J.opening tx.entry (OfWorker (End tx.entry.tx) ∷ []) e.tx e.seat) }
    {
        let mut decided = tx.decide();
        let id = decided.tx();
        let note = decided.note();
        // Where it cannot wait for want of memory, the call makes a car of it alone.
        let asked = self.ask_for(rt, MonitorRecord::Commit(id), note);
        self.await_departure(rt);
        self.state.lock(rt).commit(rt, decided, asked)
    }

    /// Has a transaction's abort recorded, in a car that it shares with others. Where it is in doubt, a call of the device has failed
    /// for it.
    pub fn record_abort<'n, R: Wait>(
        &self,
        rt: &R,
        tx: Undone<'n, J>,
    ) -> Result<Ended<'n, J>, InDoubt<J>>
        requires run { IsOfRun J.found tx.tx }
        ensures aborted { IfOk result (HasAborted J.opening tx.entry) }
        ensures in_doubt { IfErr result (λ e. IsInDoubt J.opening tx.entry [] e.tx e.seat) }
    {
        let mut undone = tx;
        let id = undone.tx();
        let note = undone.note();
        // Where it cannot wait for want of memory, the call makes a car of it alone.
        let asked = self.ask_for(rt, MonitorRecord::Abort(id), note);
        self.await_departure(rt);
        self.state.lock(rt).abort(rt, undone, asked)
    }
}
