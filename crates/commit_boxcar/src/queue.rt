//! The queue of requests in front of the monitor's lock, its rule, and the passes of it.
ghost use Rattle.std.specs.Prelude.{◌≡◌, ◌∷◌, [], length, Some, None, IfOk, IfErr, IfSome, MatchOption, MatchResult};
ghost use Rattle.crossbeam_queue.specs.SegTies.{IsSegPassOf};
ghost use Rattle.node_machine.specs.Monitor.{ended_by};
ghost use Rattle.commit_boxcar.specs.Requests.{ArePopped, HasFoundEmpty, IsAsFar, IsCovered, IsDue, IsOf, asking, asking_for, that_heard, last_push, workers_from};

use crate::room::{ended, is_before};
use crate::waiting::Waiting;
use audit_writer::NodeRun;
use chronicle::NoMemory;
use crossbeam_queue::protocol::{Join, Lesson, Outcome, Protocol, Split};
use crossbeam_queue::{RuledSegQueue, SegPass};
use std::alloc::Global;
use std::marker::{Brand, Model, PhantomData};
use std::sync::{Arc, Mutex, Wait};
use tmf_model::Transid;
use trail_files::MonitorRecord;

/// A run has no more workers, from 0 on.
const WORKERS: u16 = 17;

/// What a pass may do, and what it knows. No value of it is made.
pub struct Asking;

impl Model for Asking {
    ghost use Rattle.commit_boxcar.specs.Requests.{Sharing, all_rights};

    ghost Value = { Sharing };

    ghost view = { λ _. all_rights };
}

/// The rule: what was popped is the front of what was pushed, and each worker's requests rise.
pub struct InTurn;

impl<J: NodeRun> Protocol<Waiting<J>, Asking> for InTurn {
    ghost use Rattle.commit_boxcar.specs.Requests.{IsRuled, all_rights};

    ghost holds = { IsRuled };

    ghost first = { all_rights };
}

/// Cuts off the right to pop.
struct ToPop;

impl Split<Asking> for ToPop {
    ghost use Rattle.commit_boxcar.specs.Requests.{without_pops, pops_of};

    ghost left = { without_pops };

    ghost right = { pops_of };
}

/// Cuts off the right to push for the first worker.
struct ToAsk;

impl Split<Asking> for ToAsk {
    ghost use Rattle.commit_boxcar.specs.Requests.{without_first, first_asking};

    ghost left = { without_first };

    ghost right = { first_asking };
}

/// Tells another pass which request one has pushed last.
struct ToTell;

impl Split<Asking> for ToTell {
    ghost use Rattle.commit_boxcar.specs.Requests.{knowing, lasts};

    ghost left = { λ v. v };

    ghost right = { λ v. knowing (lasts v.asks) };
}

impl Join<Asking> for ToTell {
    ghost use Rattle.std.specs.Prelude.{[]};
    ghost use Rattle.commit_boxcar.specs.Requests.{with_told, knowing};

    ghost both = { with_told };

    ghost spent = { knowing [] };
}

/// A request was pushed.
struct Pushed;

impl<J: NodeRun> Outcome<Waiting<J>, Asking> for Pushed {
    ghost use Rattle.commit_boxcar.specs.Requests.{HasPushed};

    ghost then = { HasPushed };
}

/// A request was popped.
struct Popped;

impl<J: NodeRun> Outcome<Waiting<J>, Asking> for Popped {
    ghost use Rattle.commit_boxcar.specs.Requests.{HasPopped};

    ghost then = { HasPopped };
}

impl<J: NodeRun> Lesson<Waiting<J>, Asking> for Popped {
    ghost use Rattle.commit_boxcar.specs.Requests.{EmptyTells};

    ghost fact = { EmptyTells };
}

/// A queue of requests.
pub type Requests<J> = RuledSegQueue<Waiting<J>, Asking, InTurn>;

/// A pass of it.
pub type RequestPass<J> = SegPass<Waiting<J>, Asking>;

/// The queue, which ends with its last owner.
pub struct RequestQueue<J: NodeRun> {
    requests: Requests<J>,
}

impl<J: NodeRun> Drop for RequestQueue<J> {
    fn drop(self) {
        let Self { requests } = self;
        requests.destroy();
    }
}

/// Which queue it is: all that is of a queue carries its name.
pub trait RequestsName {
    ghost use Rattle.commit_boxcar.specs.Requests.{QueueId};

    ghost queue: { QueueId };
}

impl RequestsName for Brand {
    ghost use Rattle.commit_boxcar.specs.Requests.{no_queue};

    ghost queue = { no_queue };
}

/// A receipt for a request that was pushed. Contracts see the request.
#[derive(Drop)]
pub struct PushReceipt<J: NodeRun, Q: RequestsName> {
    pass: RequestPass<J>,
    request: MonitorRecord,
    of: PhantomData<Q>,
}

impl<J: NodeRun, Q: RequestsName> Model for PushReceipt<J, Q> {
    ghost use Rattle.std.specs.Prelude.{◌≡◌, ◌∷◌, []};
    ghost use Rattle.trail_files.specs.declared.monitor_record.MonitorRecord.{MonitorRecord};
    ghost use Rattle.crossbeam_queue.specs.SegTies.{IsSegPassOf};
    ghost use Rattle.commit_boxcar.specs.Requests.{knowing};

    ghost Value = { MonitorRecord };

    ghost view = { λ r. r.request };

    ghost invariant = { λ r. IsSegPassOf Q.queue r.pass × (r.pass.me.view.client ≡ knowing (r.request ∷ [])) };
}

/// What an ask has come to: a receipt, or none where memory ran out. Asking alone makes it. Contracts see what was asked for, and what was pushed
/// for it.
#[derive(Drop)]
pub struct Asked<J: NodeRun, Q: RequestsName> {
    request: MonitorRecord,
    receipt: Option<PushReceipt<J, Q>>,
}

impl<J: NodeRun, Q: RequestsName> Model for Asked<J, Q> {
    ghost use Rattle.std.specs.Prelude.{IfSome};
    ghost use Rattle.commit_boxcar.specs.Requests.{AskedFor, IsAsFar};

    ghost Value = { AskedFor };

    ghost view = { λ a. record { request = a.request; pushed = a.receipt } };

    ghost invariant = { λ a. IfSome a.receipt (IsAsFar a.request) };
}

impl<J: NodeRun, Q: RequestsName> Asked<J, Q> {
    /// The receipt, where there is one.
    pub fn into_receipt(self) -> Option<PushReceipt<J, Q>>
        ensures receipt { result ≡ self.pushed }
        ensures asked { IfSome result (IsAsFar self.request) }
    {
        let Asked { receipt, .. } = self;
        receipt
    }
}

/// The monitor's end of the queue. Contracts see what was popped, what it was told, and how often it found the queue empty.
#[derive(Drop)]
pub struct PopEnd<J: NodeRun, Q: RequestsName> {
    line: Arc<RequestQueue<J>, Global>,
    pass: RequestPass<J>,
    empties: u64,
    of: PhantomData<Q>,
}

impl<J: NodeRun, Q: RequestsName> Model for PopEnd<J, Q> {
    ghost use Rattle.std.specs.Prelude.{◌≡◌};
    ghost use Rattle.std.specs.Arc.{arc_value};
    ghost use Rattle.crossbeam_queue.specs.SegTies.{IsSegPassOf};
    ghost use Rattle.commit_boxcar.specs.Requests.{QueueEnd, end_of, listed, popping};

    ghost Value = { QueueEnd };

    ghost view = { λ e. end_of e.pass.me.view.client e.empties };

    ghost invariant = { λ e. ((arc_value e.line).requests ≡ Q.queue) × IsSegPassOf Q.queue e.pass × (e.pass.me.view.client ≡ popping (listed e.pass.me.view.client.popped) e.pass.me.view.client.told) };
}

impl<J: NodeRun, Q: RequestsName> PopEnd<J, Q> {
    /// The oldest request. Where there is none, all was popped of which it was told that it was pushed.
    pub fn pop<R: Wait>(&mut self, rt: &R) -> Option<Waiting<J>>
        ensures { MatchOption result (ArePopped [] self.old self.new × HasFoundEmpty self.old self.new) (λ x. ArePopped (x ∷ []) self.old self.new) }
    {
        match self.line.requests.pop_as::<Popped, R>(rt, &mut self.pass) {
            Some(waiting) => Some(waiting),
            None => {
                self.empties = self.empties.saturating_add(1);
                None
            }
        }
    }

    /// Takes in what a receipt of its queue tells.
    pub fn hear(&mut self, receipt: PushReceipt<J, Q>)
        ensures { self.new ≡ that_heard receipt self.old }
    {
        let PushReceipt { pass, .. } = receipt;
        self.line.requests.absorb::<ToTell>(&mut self.pass, pass);
    }
}

/// The pass of one worker, and the last request that it pushed.
#[derive(Drop)]
pub(crate) struct Asker<J: NodeRun, Q: RequestsName> {
    pass: RequestPass<J>,
    worker: u16,
    last: Option<MonitorRecord>,
    of: PhantomData<Q>,
}

impl<J: NodeRun, Q: RequestsName> Model for Asker<J, Q> {
    ghost use Rattle.std.specs.Prelude.{◌≡◌};
    ghost use Rattle.crossbeam_queue.specs.SegTies.{IsSegPassOf};
    ghost use Rattle.commit_boxcar.specs.Requests.{IsOwnPush, LastPush, last_push, asking};

    ghost Value = { LastPush };

    ghost view = { λ a. last_push a.worker a.last };

    ghost invariant = { λ a. IsSegPassOf Q.queue a.pass × (a.pass.me.view.client ≡ asking a.worker a.last) × IsOwnPush (last_push a.worker a.last) };
}

impl<J: NodeRun, Q: RequestsName> Asker<J, Q> {
    // The pass of a worker, for whom nothing was pushed.
    fn new(pass: RequestPass<J>, worker: u16) -> Self
        requires own { IsSegPassOf Q.queue pass }
        requires alone { pass.me.view.client ≡ asking worker None }
        ensures { result ≡ last_push worker None }
    {
        Asker {
            pass,
            worker,
            last: None,
            of: PhantomData,
        }
    }

    // The last request that it pushed, where that is of this worker and not earlier.
    fn covering(&self, tx: Transid) -> Option<MonitorRecord>
        requires { tx.worker ≡ self.now.worker }
        ensures { IsCovered self.now tx result }
    {
        let last = self.last?;
        match ended(last) {
            Some(before) if is_before(before, tx) => None,
            _ => Some(last),
        }
    }

    // A receipt for the last request that it pushed.
    fn receipt(&mut self, line: &RequestQueue<J>, last: MonitorRecord) -> PushReceipt<J, Q>
        requires queue { line.now.requests ≡ Q.queue }
        requires last { self.old.last ≡ Some last }
        ensures receipt { result ≡ last }
        ensures same { self.new ≡ self.old }
    {
        let pass = line.requests.another::<ToTell>(&mut self.pass);
        PushReceipt {
            pass,
            request: last,
            of: PhantomData,
        }
    }

    // Pushes a request of its worker that is later than the last one. Where memory runs out it comes back.
    fn push<R: Wait>(
        &mut self,
        rt: &R,
        line: &RequestQueue<J>,
        waiting: Waiting<J>,
    ) -> Result<(), Waiting<J>>
        requires queue { line.now.requests ≡ Q.queue }
        requires own { IsOf self.old.worker waiting }
        requires due { IsDue self.old.last waiting }
        ensures pushed { MatchResult result (λ _. self.new ≡ last_push self.old.worker (Some waiting)) (λ back. (back ≡ waiting) × (self.new ≡ self.old)) }
    {
        let request = waiting.request();
        line.requests
            .push_as::<Pushed, R>(rt, &mut self.pass, waiting)?;
        self.last = Some(request);
        Ok(())
    }

    /// Pushes a request, where none that is as late was pushed for its worker. It comes back where memory runs out, or where it is not of this
    /// worker.
    pub(crate) fn ask<R: Wait>(
        &mut self,
        rt: &R,
        line: &RequestQueue<J>,
        waiting: Waiting<J>,
        tx: Transid,
    ) -> Result<PushReceipt<J, Q>, Waiting<J>>
        requires queue { line.now.requests ≡ Q.queue }
        requires ends { ended_by waiting ≡ Some tx }
        ensures asked { IfOk result (λ receipt. IsAsFar waiting receipt) }
        ensures back { IfErr result (λ back. back ≡ waiting) }
    {
        if tx.worker != self.worker {
            return Err(waiting);
        }
        if let Some(last) = self.covering(tx) {
            return Ok(self.receipt(line, last));
        }
        let request = waiting.request();
        self.push(rt, line, waiting)?;
        Ok(self.receipt(line, request))
    }
}

/// The passes of all workers, each behind a lock of its own: there are 17. Contracts see which queue they are of.
#[derive(Drop)]
pub struct Askers<J: NodeRun, Q: RequestsName> {
    line: Arc<RequestQueue<J>, Global>,
    locks: Vec<Mutex<Asker<J, Q>>>,
}

impl<J: NodeRun, Q: RequestsName> Model for Askers<J, Q> {
    ghost use Rattle.std.specs.Prelude.{◌≡◌, length};
    ghost use Rattle.std.specs.Arc.{arc_value};
    ghost use Rattle.commit_boxcar.specs.Requests.{QueueId};

    ghost Value = { QueueId };

    ghost view = { λ a. (arc_value a.line).requests };

    ghost invariant = { λ a. ((arc_value a.line).requests ≡ Q.queue) × (length a.locks.items ≡ 17) };
}

impl<J: NodeRun, Q: RequestsName> Askers<J, Q> {
    /// Pushes a request, where none that is as late was pushed for its worker. It comes back where memory runs out, or where it is of no
    /// worker that has a pass.
    pub(crate) fn ask<R: Wait>(
        &self,
        rt: &R,
        waiting: Waiting<J>,
    ) -> Result<PushReceipt<J, Q>, Waiting<J>>
        ensures asked { IfOk result (λ receipt. IsAsFar waiting receipt) }
        ensures back { IfErr result (λ back. back ≡ waiting) }
    {
        let Some(tx) = ended(waiting.request()) else {
            return Err(waiting);
        };
        match self.locks.get(usize::from(tx.worker)) {
            Some(lock) => lock.lock(rt).ask(rt, &self.line, waiting, tx),
            None => Err(waiting),
        }
    }

    /// The same, and what it has come to.
    pub(crate) fn ask_for<R: Wait>(&self, rt: &R, waiting: Waiting<J>) -> Asked<J, Q>
        ensures { result.request ≡ waiting }
    {
        let request = waiting.request();
        Asked {
            request,
            receipt: self.ask(rt, waiting).ok(),
        }
    }
}

/// An empty queue that has no name yet. Contracts see which queue it is.
#[derive(Drop)]
pub struct OpenRequests<J: NodeRun> {
    line: Arc<RequestQueue<J>, Global>,
    pass: RequestPass<J>,
    theirs: Arc<RequestQueue<J>, Global>,
    pops: RequestPass<J>,
}

impl<J: NodeRun> Model for OpenRequests<J> {
    ghost use Rattle.std.specs.Prelude.{◌≡◌, []};
    ghost use Rattle.std.specs.Arc.{arc_value};
    ghost use Rattle.crossbeam_queue.specs.SegTies.{IsSegPassOf};
    ghost use Rattle.commit_boxcar.specs.Requests.{QueueId, asking_for, popping, workers_from};

    ghost Value = { QueueId };

    ghost view = { λ q. (arc_value q.line).requests };

    ghost invariant = { λ q. ((arc_value q.theirs).requests ≡ (arc_value q.line).requests) × IsSegPassOf (arc_value q.line).requests q.pass × IsSegPassOf (arc_value q.line).requests q.pops
        × (q.pass.me.view.client ≡ asking_for (workers_from 0 17)) × (q.pops.me.view.client ≡ popping [] []) };
}

impl<J: NodeRun> OpenRequests<J> {
    /// The two ends of the queue under its name: the workers' passes, and the monitor's end. It takes room for the locks.
    pub fn named<Q: RequestsName>(
        self,
        alloc: Global,
    ) -> Result<(Askers<J, Q>, PopEnd<J, Q>), NoMemory>
        requires { self ≡ Q.queue }
        ensures { IfOk result (λ ends. ends.1 ≡ record { popped = []; told = []; empties = 0 }) }
    {
        let OpenRequests {
            line,
            pass,
            theirs,
            pops,
        } = self;
        let locks = locks_of::<J, Q>(alloc, &line, pass)?;
        let end = PopEnd {
            line: theirs,
            pass: pops,
            empties: 0,
            of: PhantomData,
        };
        Ok((Askers { line, locks }, end))
    }
}

// A lock for each worker, with its pass.
fn locks_of<J: NodeRun, Q: RequestsName>(
    alloc: Global,
    line: &RequestQueue<J>,
    mut pass: RequestPass<J>,
) -> Result<Vec<Mutex<Asker<J, Q>>>, NoMemory>
    requires queue { line.now.requests ≡ Q.queue }
    requires own { IsSegPassOf Q.queue pass }
    requires all { pass.me.view.client ≡ asking_for (workers_from 0 17) }
    ensures many { IfOk result (λ locks. length locks.items ≡ 17) }
{
    let mut locks = Vec::with_capacity(alloc, usize::from(WORKERS))?;
    for worker in 0..WORKERS {
        let theirs = line.requests.another::<ToAsk>(&mut pass);
        locks.push(Mutex::new(Asker::new(theirs, worker)))?;
    }
    Ok(locks)
}

/// An empty queue.
pub fn open_requests<J: NodeRun>(alloc: Global) -> Result<OpenRequests<J>, NoMemory> {
    let (requests, mut pass) = Requests::<J>::with_rule(alloc)?;
    let pops = requests.another::<ToPop>(&mut pass);
    let line = Arc::new(alloc, RequestQueue { requests })?;
    let theirs = Arc::try_clone(&line)?;
    Ok(OpenRequests {
        line,
        pass,
        theirs,
        pops,
    })
}

fn is_sent<T: Send>() {}

fn is_shared<T: Sync>() {}

/// Says that the monitor's end may go to other threads, and that threads may share the workers' passes. It does nothing.
pub fn ends_are_shared<J: NodeRun + Send + Sync, Q: RequestsName + Send + Sync>() {
    is_sent::<PopEnd<J, Q>>();
    is_shared::<Askers<J, Q>>();
}
