//! The lock round a writer, and the queue in front of it: discs hand in without the lock.
ghost use Rattle.std.specs.Prelude.{◌≡◌, ◌≢◌, ◌<◌, ◌≤◌, ◌-◌, ◌^◌, [], length, min, IsOk, OnOk, OnErr, IfOk, IfErr, MatchResult};
ghost use Rattle.chronicle.specs.Histories.{events_of};
ghost use Rattle.chronicle.specs.Seats.{HasGrown, HasLearned, HasNewlySeen, Knows};
ghost use Rattle.node_machine.specs.declared.event.Event.TheVariants.{OfTrail};
ghost use Rattle.node_machine.specs.declared.event.TrailEvent.TheVariants.{Failed};
ghost use Rattle.node_machine.specs.Opening.{trail_part};
ghost use Rattle.node_machine.specs.Node.{node};
ghost use Rattle.node_machine.specs.Parts.Fact.{Durable, Floor};
ghost use Rattle.node_machine.specs.Trail.{trail_of};
ghost use Rattle.audit_writer.specs.Handing.{MayHand, disc_of, last_of};
ghost use Rattle.audit_writer.specs.Locked.{HasFailed, WasHeld};
ghost use Rattle.audit_writer.specs.Parcels.{Has, IsReached, MayPush, WasFull, all_discs, has_pushed_to, holding, told_by, without_disc};
ghost use Rattle.audit_writer.specs.Purge.{HasPurgedFor};
ghost use Rattle.audit_writer.specs.Writer.{IsWriter, Writer};
ghost use Rattle.audit_writer.specs.Writes.{HasToldBound};

use crate::lock::FlushRefused;
use crate::name::DeviceRun;
use crate::parcel::{Parcel, last};
use crate::pass::DiscPass;
use crate::queue::{Entrance, OpenQueue, Passes, PicksDisc, QueueName, Receipt};
use crate::queued::QueuedWriter;
use crate::writer::WriterState;
use chronicle::{Chronicle, Seat};
use disk_model::{Disk, DiskFault};
use node_machine::{By, NodeMachine};
use std::sync::{Mutex, MutexGuard, Wait};
use std::thread;
use trail_files::AuditRecord;

/// The lock round the writer of the trail with one number, and the discs' end of its queue. Both ends carry the queue's name.
#[derive(Drop)]
pub struct QueuedLock<'a, D: Disk, J: DeviceRun<D>, Q: QueueName, const N: u8> {
    lock: Mutex<QueuedWriter<'a, D, J, Q, N>>,
    chronicle: &'a Chronicle<NodeMachine, J>,
    entrance: Entrance<J, Q, N>,
}

impl<'a, D: Disk, J: DeviceRun<D>, Q: QueueName, const N: u8> QueuedLock<'a, D, J, Q, N> {
    /// The lock round a state, in front of which stands an empty queue, and the passes of the queue's discs. It takes room for one parcel; want
    /// of memory is its only refusal.
    pub fn new(
        state: WriterState<'a, D, J>,
        queue: OpenQueue<J, N>,
    ) -> Result<(Self, Passes<J, Q, N>), WriterState<'a, D, J>>
        requires number { state.seat.part.number ≡ N }
        requires named { queue ≡ Q.queue }
        ensures untaken { IfOk result (λ w. w.1.pass.hands ≡ all_discs) }
        ensures err { IfErr result (λ s. s ≡ state.entry) }
    {
        let chronicle = state.chronicle();
        let (entrance, end, passes) = queue.named::<Q>();
        let writer = QueuedWriter::new(state, end)?;
        let lock = QueuedLock {
            lock: Mutex::new(writer),
            chronicle,
            entrance,
        };
        Ok((lock, passes))
    }

    /// The pass of a disc of this queue, which was not taken.
    pub fn take_pass<X: PicksDisc>(passes: &mut Passes<J, Q, N>, disc: u8) -> DiscPass<J, N>
        requires picked { X.disc ≡ disc }
        requires trail { trail_of J.found.config disc ≡ N }
        requires small { disc ≤ 8 }
        requires untaken { Has passes.old.pass.hands (disc, 0) }
        ensures pass { result ≡ holding Q.queue disc 0 }
        ensures taken { passes.new.pass ≡ without_disc disc passes.old.pass }
    {
        passes.lawful();
        DiscPass::new(passes.take::<X>(disc), disc)
    }

    /// Pushes records of a disc as one parcel, without the lock. They come back only where this push has found the queue full.
    pub fn hand<R: Wait>(
        &self,
        rt: &R,
        seat: &mut Seat<NodeMachine, J>,
        pass: &mut DiscPass<J, N>,
        before: u64,
        records: Vec<AuditRecord>,
    ) -> Result<(), Vec<AuditRecord>>
        requires queue { pass.old.queue ≡ Q.queue }
        requires may { MayPush J.opening J.found (J.rules N) N seat.old pass.old before records.items }
        ensures handed { MatchResult result (λ _. pass.new ≡ has_pushed_to (last_of records.items) pass.old) (λ back. (back.items ≡ records.items) × WasFull pass.old pass.new) }
        ensures seat { seat.new ≡ seat.old }
    {
        self.entrance.lawful();
        let parcel = Parcel::new(self.chronicle.note(seat), records, before);
        match pass.push(rt, &self.entrance, parcel) {
            Ok(()) => Ok(()),
            Err(back) => Err(back.into_records()),
        }
    }

    /// A receipt for what a pass of this queue has pushed.
    pub fn receipt(&self, pass: &mut DiscPass<J, N>) -> Receipt<J, N>
        requires queue { pass.old.queue ≡ Q.queue }
        ensures receipt { result ≡ told_by pass.old }
        ensures same { pass.new ≡ pass.old }
    {
        self.entrance.lawful();
        pass.receipt(&self.entrance)
    }

    /// Takes in and lands what the queue has, one hold after the other, until it was seen empty. Then the caller has seen durable all that
    /// was pushed up to the position of any receipt of this queue that it shows. It takes no memory.
    pub fn flush_receipt<R: Wait>(
        &self,
        rt: &R,
        disc: &mut Seat<NodeMachine, J>,
        by: By,
        receipt: &mut Receipt<J, N>,
    ) -> Result<(), DiskFault>
        requires queue { receipt.old.queue ≡ Q.queue }
        ensures empty { OnOk result (IsReached (Knows node J.opening disc.new) receipt.old) }
        ensures same { receipt.new ≡ receipt.old }
        ensures grown { HasGrown disc.old disc.new }
        ensures learned { HasLearned node J.opening disc.old disc.new }
        ensures failed { OnErr result (HasNewlySeen (trail_part N) (OfTrail (Failed by)) disc.old disc.new) }
    {
        disc.lawful();
        for _ in rt.forever() {
            if self.lock.lock(rt).flush_receipt(disc, by, receipt)? {
                return Ok(());
            }
            thread::yield_now();
        }
        unreachable!()
    }

    /// Hands a disc's records in and lands them, and what the queue has, until it was seen empty: then the caller has seen durable all that
    /// was pushed up to the position of any receipt of this queue that it shows. Where there are no records it does nothing.
    pub fn flush<R: Wait>(
        &self,
        rt: &R,
        disc: &mut Seat<NodeMachine, J>,
        by: By,
        records: &[AuditRecord],
        receipt: &mut Receipt<J, N>,
    ) -> Result<(), FlushRefused>
        requires queue { receipt.old.queue ≡ Q.queue }
        requires may { records.now ≢ [] → MayHand J.opening J.found (J.rules N) N disc.old (disc_of records.now) records.now }
        ensures durable { OnOk result (records.now ≢ [] → Knows node J.opening disc.new (Durable (disc_of records.now) (last_of records.now))) }
        ensures empty { OnOk result (records.now ≢ [] → IsReached (Knows node J.opening disc.new) receipt.old) }
        ensures none { records.now ≡ [] → IsOk result × (disc.new ≡ disc.old) }
        ensures grown { HasGrown disc.old disc.new }
        ensures learned { HasLearned node J.opening disc.old disc.new }
        ensures failed { IfErr result (HasFailed N by disc.old disc.new) }
        ensures memory { IfErr result (λ e. e ≡ FlushRefused.NoMemory → disc.new ≡ disc.old) }
    {
        disc.lawful();
        let Some(_) = last(records) else {
            return Ok(());
        };
        self.lock.lock(rt).flush(disc, by, records)?;
        match self.flush_receipt(rt, disc, by, receipt) {
            Ok(()) => Ok(()),
            Err(_) => Err(FlushRefused::Failed(N)),
        }
    }

    /// Lands what a disc's pass has pushed, and what stands before it in the queue.
    pub fn flush_handed<R: Wait>(
        &self,
        rt: &R,
        disc: &mut Seat<NodeMachine, J>,
        by: By,
        pass: &DiscPass<J, N>,
    ) -> Result<(), DiskFault>
        ensures durable { OnOk result (0 < pass.now.pushed → Knows node J.opening disc.new (Durable pass.now.disc pass.now.pushed)) }
        ensures grown { HasGrown disc.old disc.new }
        ensures learned { HasLearned node J.opening disc.old disc.new }
        ensures failed { OnErr result (HasNewlySeen (trail_part N) (OfTrail (Failed by)) disc.old disc.new) }
    {
        disc.lawful();
        pass.lawful();
        if pass.pushed() == 0 {
            return Ok(());
        }
        for _ in rt.forever() {
            if self
                .lock
                .lock(rt)
                .flush_up_to(disc, by, pass.disc(), pass.pushed())?
            {
                return Ok(());
            }
            thread::yield_now();
        }
        unreachable!()
    }

    /// Lets the writer's seat and the caller's tell each other what they have seen.
    pub fn meet<R: Wait>(&self, rt: &R, caller: &mut Seat<NodeMachine, J>)
        ensures grown { HasGrown caller.old caller.new }
        ensures learned { HasLearned node J.opening caller.old caller.new }
        ensures same { (w : Writer D) × IsWriter D.Disk J.opening J.found J.rules J.faults J.premise J.devices w × (w.seat.part.number ≡ N) × (caller.new.seen ≡ w.seat.sight.seen) }
    {
        let mut writer = self.lock.lock(rt);
        writer.meet(caller);
        writer.lawful();
    }

    /// The number of the part's events, or 2^64 - 1 where there are more. The caller has then seen them.
    pub fn events<R: Wait>(&self, rt: &R, caller: &mut Seat<NodeMachine, J>) -> u64
        ensures count { result ≡ min (length (events_of (trail_part N) caller.new.seen)) (2 ^ 64 - 1) }
        ensures grown { HasGrown caller.old caller.new }
        ensures learned { HasLearned node J.opening caller.old caller.new }
    {
        self.lock.lock(rt).events(caller)
    }

    /// A disc tells below which position it needs none of its records.
    pub fn tell<R: Wait>(&self, rt: &R, disc: &mut Seat<NodeMachine, J>, number: u8, bound: u64)
        requires small { number ≤ 8 }
        requires floor { Knows node J.opening disc.old (Floor number bound) }
        ensures told { WasHeld (IsWriter D.Disk J.opening J.found J.rules J.faults J.premise J.devices) N (HasToldBound number bound disc.new) }
        ensures grown { HasGrown disc.old disc.new }
        ensures learned { HasLearned node J.opening disc.old disc.new }
    {
        let mut writer = self.lock.lock(rt);
        writer.lawful();
        writer.tell(disc, number, bound);
        writer.lawful();
    }

    /// Removes the files before the present one that no disc needs. Where a call of the device fails, the caller has newly seen that.
    pub fn purge<R: Wait>(
        &self,
        rt: &R,
        caller: &mut Seat<NodeMachine, J>,
        by: By,
    ) -> Result<(), DiskFault>
        ensures purged { WasHeld (IsWriter D.Disk J.opening J.found J.rules J.faults J.premise J.devices) N (HasPurgedFor D.Disk by caller.new result) }
        ensures grown { HasGrown caller.old caller.new }
        ensures learned { HasLearned node J.opening caller.old caller.new }
        ensures failed { OnErr result (HasNewlySeen (trail_part N) (OfTrail (Failed by)) caller.old caller.new) }
    {
        let mut writer = self.lock.lock(rt);
        writer.lawful();
        let purged = writer.purge(caller, by);
        writer.lawful();
        purged
    }

    /// Takes the lock, for several calls of the writer in one hold.
    pub fn lock<'g, R: Wait>(&'g self, rt: &R) -> MutexGuard<'g, QueuedWriter<'a, D, J, Q, N>> {
        self.lock.lock(rt)
    }

    /// The state, once no thread has the lock. What is still queued is dropped: it was not offered, so no event and no image has it.
    pub fn into_state(self) -> WriterState<'a, D, J>
        ensures { result.seat.part.number ≡ N }
    {
        let QueuedLock { lock, .. } = self;
        lock.into_inner().into_state()
    }
}

fn is_sent<T: Send>() {}

fn is_shared<T: Sync>() {}

/// Says that threads may share the lock, and that a disc's pass may go to another thread. It does nothing.
pub fn lock_is_shared<
    'a,
    D: Disk + Send + 'a,
    J: DeviceRun<D> + Send + Sync + 'a,
    Q: QueueName + Send + Sync + 'a,
    const N: u8,
>() {
    is_sent::<DiscPass<J, N>>();
    is_shared::<QueuedLock<'a, D, J, Q, N>>();
}
