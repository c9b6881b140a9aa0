//! A trail's writer at its end of the queue through which discs hand in.
ghost use Rattle.std.specs.Prelude.{◌≡◌, ◌≢◌, ◌^◌, ◌-◌, ◌<◌, ◌≤◌, [], Some, length, min, true, IsOk, OnOk, OnErr, IfOk, IfErr, MatchBool, MatchResult};
ghost use Rattle.disk_model.specs.Held.{HasCause, Rose};
ghost use Rattle.chronicle.specs.Seats.{HasGrown, HasLearned, HasNewlySeen, Knows};
ghost use Rattle.chronicle.specs.Histories.{events_of};
ghost use Rattle.node_machine.specs.declared.event.Event.TheVariants.{OfTrail};
ghost use Rattle.node_machine.specs.declared.event.TrailEvent.TheVariants.{Failed};
ghost use Rattle.node_machine.specs.Opening.{trail_part};
ghost use Rattle.node_machine.specs.Node.{node};
ghost use Rattle.node_machine.specs.Parts.Fact.{Durable, Floor};
ghost use Rattle.node_machine.specs.Trail.{trail_of};
ghost use Rattle.audit_writer.specs.Drains.{Drains, HasAllTold, at_queue};
ghost use Rattle.audit_writer.specs.Handing.{MayHand, Takes, disc_of, last_of};
ghost use Rattle.audit_writer.specs.Locked.{HasFailed, IsFlushStop};
ghost use Rattle.audit_writer.specs.Parcels.{Has, HasMissed, HasTurned, IsReached, IsSameEnd, popping};
ghost use Rattle.audit_writer.specs.Purge.{HasPurged, HasPurgeStopped, HasRemoved};
ghost use Rattle.audit_writer.specs.Writer.{IsWriter, with_bounds};
ghost use Rattle.audit_writer.specs.Writes.{Writes, HasWritten, HasStopped, HasTold, HasUpTo, IsRaised};

use crate::lock::FlushRefused;
use crate::name::DeviceRun;
use crate::parcel::{Parcel, last};
use crate::queue::{PopEnd, QueueName, Receipt};
use crate::writer::WriterState;
use chronicle::{NoMemory, Seat};
use disk_model::{Disk, DiskFault};
use node_machine::{By, NodeMachine};
use std::marker::Model;
use trail_files::AuditRecord;

/// For so many records the writer makes room at the begin; a parcel has at most as many.
const PARCEL: usize = 4096;

/// The writer of the trail with the number `N`. Contracts see its state, and its end of the queue.
#[derive(Drop)]
pub struct QueuedWriter<'a, D: Disk, J: DeviceRun<D>, Q: QueueName, const N: u8> {
    state: WriterState<'a, D, J>,
    end: PopEnd<J, Q, N>,
    // A parcel that was popped and is not taken in yet.
    held: Option<Parcel<J, N>>,
}

impl<'a, D: Disk, J: DeviceRun<D>, Q: QueueName, const N: u8> Model
    for QueuedWriter<'a, D, J, Q, N> {
    ghost use Rattle.std.specs.Prelude.{◌≡◌};
    ghost use Rattle.audit_writer.specs.Drains.{AtQueue, IsTied, at_queue};

    ghost Value = { AtQueue D };

    ghost view = { λ w. at_queue w.state w.end };

    ghost invariant = { λ w. (w.state.seat.part.number ≡ N) × IsTied w.state w.held w.end.pass };
}

impl<'a, D: Disk, J: DeviceRun<D>, Q: QueueName, const N: u8> QueuedWriter<'a, D, J, Q, N> {
    /// A state at the end of an empty queue. It takes room for one parcel; want of memory is its only refusal.
    pub fn new(
        mut state: WriterState<'a, D, J>,
        end: PopEnd<J, Q, N>,
    ) -> Result<Self, WriterState<'a, D, J>>
        requires number { state.seat.part.number ≡ N }
        requires none { end.pass ≡ popping [] [] }
        ensures ok { IfOk result (λ w. w ≡ at_queue state.entry end) }
        ensures err { IfErr result (λ s. s ≡ state.entry) }
    {
        match state.make_room(PARCEL) {
            Ok(()) => Ok(QueuedWriter {
                state,
                end,
                held: None,
            }),
            Err(NoMemory) => Err(state),
        }
    }

    /// The state.
    pub(crate) fn into_state(self) -> WriterState<'a, D, J>
        ensures same { result ≡ self.entry.writer }
        ensures number { result.seat.part.number ≡ N }
    {
        let QueuedWriter { state, .. } = self;
        state
    }

    /// Says what is known of it. It does nothing.
    pub fn lawful(&self)
        ensures lawful { IsWriter D.Disk J.opening J.found J.rules J.faults J.premise J.devices self.now.writer }
        ensures number { self.now.writer.seat.part.number ≡ N }
        ensures seat { self.now.writer.seat.sight.part ≡ Some (trail_part N) }
    {
        self.state.lawful();
    }

    // Holds the oldest parcel of the queue, if it did not hold one. It waits for nobody.
    fn pop(&mut self) -> bool
        ensures writer { self.new.writer ≡ self.old.writer }
        ensures end { IsSameEnd self.old.end self.new.end }
        ensures turned { MatchBool result (HasTurned 1 0 self.old.end self.new.end) (HasTurned 1 1 self.old.end self.new.end) }
    {
        if self.held.is_some() {
            self.end.turn();
            return true;
        }
        match self.end.pop() {
            Some(parcel) => {
                self.held = Some(parcel);
                true
            }
            None => false,
        }
    }

    // Takes in what it holds, where there is room.
    fn take(&mut self) -> bool
        ensures takes { Takes self.old.writer self.new.writer }
        ensures end { self.new.end ≡ self.old.end }
    {
        let Some(parcel) = self.held.take() else {
            return true;
        };
        match self.state.take_parcel(parcel) {
            Ok(()) => true,
            Err(back) => {
                self.held = Some(back);
                false
            }
        }
    }

    // Whether it holds no parcel and the queue was seen empty. Then it has all of which it was told that it was pushed.
    fn is_empty(&mut self) -> bool
        ensures same { self.new ≡ self.old }
        ensures all { result ≡ true → HasAllTold self.new }
    {
        if self.held.is_some() {
            return false;
        }
        self.end.is_empty()
    }

    // Lands all that waits.
    fn land(&mut self, by: By) -> Result<(), DiskFault>
        ensures kept { Drains D.Disk self.old.writer self.new.writer }
        ensures end { self.new.end ≡ self.old.end }
        ensures all { OnOk result (self.new.writer.queue ≡ []) }
        ensures events { OnOk result (HasWritten self.old.writer self.new.writer) }
        ensures events_err { OnErr result (HasStopped by self.old.writer self.new.writer) }
        ensures cause { HasCause (D.faults self.old.writer.trail.device) (D.faults self.new.writer.trail.device) result }
    {
        self.state.land_all(by)
    }

    // Takes in what it holds, or lands all that waits where there is no room.
    fn take_or_land(&mut self, by: By) -> Result<(), DiskFault>
        ensures kept { Drains D.Disk self.old.writer self.new.writer }
        ensures end { self.new.end ≡ self.old.end }
        ensures events { OnOk result (HasWritten self.old.writer self.new.writer) }
        ensures events_err { OnErr result (HasStopped by self.old.writer self.new.writer) }
        ensures cause { HasCause (D.faults self.old.writer.trail.device) (D.faults self.new.writer.trail.device) result }
    {
        if self.take() {
            return Ok(());
        }
        self.land(by)
    }

    // Takes in what the queue has, until none is found, and lands where there is no room. It says whether the queue was then seen empty.
    fn gather(&mut self, by: By) -> Result<bool, DiskFault>
        ensures kept { Drains D.Disk self.old.writer self.new.writer }
        ensures end { IsSameEnd self.old.end self.new.end }
        ensures popped { OnOk result (HasMissed self.old.end self.new.end) }
        ensures told { IfOk result (λ empty. empty ≡ true → HasAllTold self.new) }
        ensures events { OnOk result (HasWritten self.old.writer self.new.writer) }
        ensures events_err { OnErr result (HasStopped by self.old.writer self.new.writer) }
        ensures cause { HasCause (D.faults self.old.writer.trail.device) (D.faults self.new.writer.trail.device) result }
    {
        for _ in 0..u64::MAX {
            if !self.pop() {
                return Ok(self.is_empty());
            }
            self.take_or_land(by)?;
        }
        Ok(false)
    }

    // The same, and lands all that waits.
    fn drain(&mut self, by: By) -> Result<bool, DiskFault>
        ensures kept { Drains D.Disk self.old.writer self.new.writer }
        ensures end { IsSameEnd self.old.end self.new.end }
        ensures popped { OnOk result (HasMissed self.old.end self.new.end) }
        ensures told { IfOk result (λ empty. empty ≡ true → HasAllTold self.new) }
        ensures all { OnOk result (self.new.writer.queue ≡ []) }
        ensures events { OnOk result (HasWritten self.old.writer self.new.writer) }
        ensures events_err { OnErr result (HasStopped by self.old.writer self.new.writer) }
        ensures cause { HasCause (D.faults self.old.writer.trail.device) (D.faults self.new.writer.trail.device) result }
    {
        let empty = self.gather(by)?;
        self.land(by)?;
        Ok(empty)
    }

    /// Takes in what the queue has, until a pop finds none, and lands all that waits. It says whether the queue was then seen empty; if so it has
    /// all of which it was told that it was pushed.
    pub fn flush_queue(
        &mut self,
        caller: &mut Seat<NodeMachine, J>,
        by: By,
    ) -> Result<bool, DiskFault>
        ensures kept { Drains D.Disk self.old.writer self.new.writer × IsSameEnd self.old.end self.new.end }
        ensures popped { OnOk result (HasMissed self.old.end self.new.end) }
        ensures told { IfOk result (λ empty. empty ≡ true → HasAllTold self.new) }
        ensures all { OnOk result (self.new.writer.queue ≡ []) }
        ensures events { MatchResult result (λ _. HasWritten self.old.writer self.new.writer) (λ _. HasStopped by self.old.writer self.new.writer) }
        ensures grown { HasGrown caller.old caller.new }
        ensures learned { HasLearned node J.opening caller.old caller.new }
        ensures failed { OnErr result (HasNewlySeen (trail_part N) (OfTrail (Failed by)) caller.old caller.new) }
        ensures cause { HasCause (D.faults self.old.writer.trail.device) (D.faults self.new.writer.trail.device) result }
    {
        self.lawful();
        self.meet(caller);
        let drained = self.drain(by);
        self.meet(caller);
        drained
    }

    /// Lands all that it has. Then the caller has seen the disc's records up to the position durable.
    pub fn flush_to(
        &mut self,
        caller: &mut Seat<NodeMachine, J>,
        by: By,
        disc: u8,
        position: u64,
    ) -> Result<(), DiskFault>
        requires has { HasUpTo self.old.writer disc position }
        ensures kept { Writes D.Disk self.old.writer self.new.writer }
        ensures end { self.new.end ≡ self.old.end }
        ensures all { OnOk result (self.new.writer.queue ≡ []) }
        ensures events { MatchResult result (λ _. HasWritten self.old.writer self.new.writer) (λ _. HasStopped by self.old.writer self.new.writer) }
        ensures durable { OnOk result (Knows node J.opening caller.new (Durable disc position)) }
        ensures grown { HasGrown caller.old caller.new }
        ensures learned { HasLearned node J.opening caller.old caller.new }
        ensures failed { OnErr result (HasNewlySeen (trail_part N) (OfTrail (Failed by)) caller.old caller.new) }
        ensures cause { HasCause (D.faults self.old.writer.trail.device) (D.faults self.new.writer.trail.device) result }
    {
        self.state.flush_to(caller, by, disc, position)
    }

    // Whether it has the disc's records up to the position.
    fn has(&self, disc: u8, position: u64) -> bool
        requires own { trail_of J.found.config disc ≡ N }
        requires small { disc ≤ 8 }
        ensures { result ≡ true → HasUpTo self.now.writer disc position }
    {
        self.state.has(disc, position)
    }

    /// Takes in what the queue has and lands all that waits. Where the queue was seen empty and the writer has the
    /// disc's records up to the position, it answers true, and the caller has then seen them durable.
    pub fn flush_up_to(
        &mut self,
        caller: &mut Seat<NodeMachine, J>,
        by: By,
        disc: u8,
        position: u64,
    ) -> Result<bool, DiskFault>
        requires own { trail_of J.found.config disc ≡ N }
        requires small { disc ≤ 8 }
        ensures kept { Drains D.Disk self.old.writer self.new.writer × IsSameEnd self.old.end self.new.end }
        ensures popped { OnOk result (HasMissed self.old.end self.new.end) }
        ensures all { OnOk result (self.new.writer.queue ≡ []) }
        ensures events { MatchResult result (λ _. HasWritten self.old.writer self.new.writer) (λ _. HasStopped by self.old.writer self.new.writer) }
        ensures durable { IfOk result (λ done. done ≡ true → Knows node J.opening caller.new (Durable disc position)) }
        ensures grown { HasGrown caller.old caller.new }
        ensures learned { HasLearned node J.opening caller.old caller.new }
        ensures failed { OnErr result (HasNewlySeen (trail_part N) (OfTrail (Failed by)) caller.old caller.new) }
        ensures cause { HasCause (D.faults self.old.writer.trail.device) (D.faults self.new.writer.trail.device) result }
    {
        let empty = self.flush_queue(caller, by)?;
        if !empty {
            return Ok(false);
        }
        if !self.has(disc, position) {
            return Ok(false);
        }
        self.flush_to(caller, by, disc, position)?;
        Ok(true)
    }

    /// The same for what a receipt of the queue tells. Where the queue was seen empty, it answers true, and the caller has then seen durable
    /// all that was pushed up to the receipt's position.
    pub fn flush_receipt(
        &mut self,
        caller: &mut Seat<NodeMachine, J>,
        by: By,
        receipt: &mut Receipt<J, N>,
    ) -> Result<bool, DiskFault>
        requires queue { receipt.old.queue ≡ Q.queue }
        ensures kept { Drains D.Disk self.old.writer self.new.writer }
        ensures popped { OnOk result (HasMissed self.old.end self.new.end) }
        ensures all { OnOk result (self.new.writer.queue ≡ []) }
        ensures events { MatchResult result (λ _. HasWritten self.old.writer self.new.writer) (λ _. HasStopped by self.old.writer self.new.writer) }
        ensures durable { IfOk result (λ empty. empty ≡ true → IsReached (Knows node J.opening caller.new) receipt.old) }
        ensures same { receipt.new ≡ receipt.old }
        ensures grown { HasGrown caller.old caller.new }
        ensures learned { HasLearned node J.opening caller.old caller.new }
        ensures failed { OnErr result (HasNewlySeen (trail_part N) (OfTrail (Failed by)) caller.old caller.new) }
        ensures cause { HasCause (D.faults self.old.writer.trail.device) (D.faults self.new.writer.trail.device) result }
    {
        let (disc, position) = receipt.reached();
        self.hear(receipt);
        let empty = self.flush_queue(caller, by)?;
        if !empty {
            return Ok(false);
        }
        if position == 0 {
            return Ok(true);
        }
        self.flush_to(caller, by, disc, position)?;
        Ok(true)
    }

    // Takes in what a receipt of its queue tells.
    fn hear(&mut self, receipt: &mut Receipt<J, N>)
        requires queue { receipt.old.queue ≡ Q.queue }
        ensures writer { self.new.writer ≡ self.old.writer }
        ensures told { Has self.new.end.pass.told (receipt.old.disc, receipt.old.pushed) }
        ensures same { (receipt.new ≡ receipt.old) × (self.new.end.misses ≡ self.old.end.misses) }
    {
        self.end.lawful();
        self.end.hear(receipt);
    }

    /// Hands a disc's records in, takes in what the queue has, and lands all. It says whether the queue was seen empty; then it has all of which it
    /// was told that it was pushed. Where there are no records it looks at nothing.
    pub fn flush(
        &mut self,
        disc: &mut Seat<NodeMachine, J>,
        by: By,
        records: &[AuditRecord],
    ) -> Result<bool, FlushRefused>
        requires may { records.now ≢ [] → MayHand J.opening J.found (J.rules N) N disc.old (disc_of records.now) records.now }
        ensures kept { Drains D.Disk self.old.writer self.new.writer × IsSameEnd self.old.end self.new.end }
        ensures popped { OnOk result (records.now ≢ [] → HasMissed self.old.end self.new.end) }
        ensures told { records.now ≢ [] → IfOk result (λ empty. empty ≡ true → HasAllTold self.new) }
        ensures all { OnOk result (records.now ≢ [] → self.new.writer.queue ≡ []) }
        ensures events { MatchResult result (λ _. HasWritten self.old.writer self.new.writer) (IsFlushStop D.faults by self.old.writer self.new.writer) }
        ensures durable { OnOk result (records.now ≢ [] → Knows node J.opening disc.new (Durable (disc_of records.now) (last_of records.now))) }
        ensures none { records.now ≡ [] → IsOk result × (self.new ≡ self.old) × (disc.new ≡ disc.old) }
        ensures grown { HasGrown disc.old disc.new }
        ensures learned { HasLearned node J.opening disc.old disc.new }
        ensures failed { IfErr result (HasFailed N by disc.old disc.new) }
        ensures memory { IfErr result (λ e. e ≡ FlushRefused.NoMemory → disc.new ≡ disc.old) }
    {
        disc.lawful();
        let Some(last) = last(records) else {
            return Ok(true);
        };
        match self.hand(disc, records) {
            Err(NoMemory) => Err(FlushRefused::NoMemory),
            Ok(()) => self.land_up_to(disc, by, last.disc, last.position),
        }
    }

    // Takes in what the queue has, and lands all, where the writer has the disc's records up to the position.
    fn land_up_to(
        &mut self,
        caller: &mut Seat<NodeMachine, J>,
        by: By,
        disc: u8,
        position: u64,
    ) -> Result<bool, FlushRefused>
        requires has { HasUpTo self.old.writer disc position }
        ensures kept { Drains D.Disk self.old.writer self.new.writer × IsSameEnd self.old.end self.new.end }
        ensures popped { OnOk result (HasMissed self.old.end self.new.end) }
        ensures all { OnOk result (self.new.writer.queue ≡ []) }
        ensures events { MatchResult result (λ _. HasWritten self.old.writer self.new.writer) (λ e. (e ≡ FlushRefused.Failed N) × HasStopped by self.old.writer self.new.writer × Rose (D.faults self.old.writer.trail.device) (D.faults self.new.writer.trail.device)) }
        ensures told { IfOk result (λ empty. empty ≡ true → HasAllTold self.new) }
        ensures durable { OnOk result (Knows node J.opening caller.new (Durable disc position)) }
        ensures grown { HasGrown caller.old caller.new }
        ensures learned { HasLearned node J.opening caller.old caller.new }
        ensures failed { IfErr result (HasFailed N by caller.old caller.new) }
    {
        let Ok(empty) = self.flush_queue(caller, by) else {
            return Err(FlushRefused::Failed(N));
        };
        match self.flush_to(caller, by, disc, position) {
            Ok(()) => Ok(empty),
            Err(_) => Err(FlushRefused::Failed(N)),
        }
    }

    /// Takes records in that a disc hands in, but for those that the writer has. Where memory runs out it takes none.
    pub fn hand(
        &mut self,
        disc: &mut Seat<NodeMachine, J>,
        records: &[AuditRecord],
    ) -> Result<(), NoMemory>
        requires may { records.now ≢ [] → MayHand J.opening J.found (J.rules N) N disc.old (disc_of records.now) records.now }
        ensures takes { MatchResult result (λ _. Takes self.old.writer self.new.writer) (λ _. (self.new.writer ≡ self.old.writer) × (disc.new ≡ disc.old)) }
        ensures end { self.new.end ≡ self.old.end }
        ensures has { OnOk result (records.now ≢ [] → HasUpTo self.new.writer (disc_of records.now) (last_of records.now)) }
        ensures none { records.now ≡ [] → IsOk result × (self.new ≡ self.old) × (disc.new ≡ disc.old) }
        ensures grown { HasGrown disc.old disc.new }
        ensures learned { HasLearned node J.opening disc.old disc.new }
    {
        self.state.hand(disc, records)
    }

    /// Lets the writer's seat and the caller's tell each other what they have seen.
    pub fn meet(&mut self, caller: &mut Seat<NodeMachine, J>)
        ensures told { HasTold self.old.writer self.new.writer }
        ensures end { self.new.end ≡ self.old.end }
        ensures grown { HasGrown caller.old caller.new }
        ensures learned { HasLearned node J.opening caller.old caller.new }
        ensures same { caller.new.seen ≡ self.new.writer.seat.sight.seen }
    {
        self.state.meet(caller);
    }

    /// The number of the part's events, or 2^64 - 1 where there are more. The caller has then seen them.
    pub fn events(&mut self, caller: &mut Seat<NodeMachine, J>) -> u64
        ensures count { result ≡ min (length (events_of (trail_part N) caller.new.seen)) (2 ^ 64 - 1) }
        ensures told { HasTold self.old.writer self.new.writer }
        ensures end { self.new.end ≡ self.old.end }
        ensures grown { HasGrown caller.old caller.new }
        ensures learned { HasLearned node J.opening caller.old caller.new }
    {
        self.state.lawful();
        self.state.meet(caller);
        self.state.events()
    }

    /// A disc tells below which position it needs none of its records.
    pub fn tell(&mut self, disc: &mut Seat<NodeMachine, J>, number: u8, bound: u64)
        requires small { number ≤ 8 }
        requires floor { Knows node J.opening disc.old (Floor number bound) }
        ensures told { HasTold (with_bounds self.new.writer.bounds self.old.writer) self.new.writer × (self.new.end ≡ self.old.end) }
        ensures raised { IsRaised number bound self.old.writer.bounds self.new.writer.bounds }
        ensures grown { HasGrown disc.old disc.new }
        ensures learned { HasLearned node J.opening disc.old disc.new }
        ensures same { disc.new.seen ≡ self.new.writer.seat.sight.seen }
    {
        self.state.tell(disc, number, bound);
    }

    /// Removes the files before the present one that no disc needs. Where a call of the device fails, the caller has newly seen that.
    pub fn purge(&mut self, caller: &mut Seat<NodeMachine, J>, by: By) -> Result<(), DiskFault>
        ensures kept { Writes D.Disk self.old.writer self.new.writer × (self.new.writer.queue ≡ self.old.writer.queue) }
        ensures end { self.new.end ≡ self.old.end }
        ensures removes { HasRemoved D.Disk self.old.writer.bounds self.old.writer.trail self.new.writer.trail result }
        ensures events { MatchResult result (λ _. HasPurged self.old.writer self.new.writer) (λ _. HasPurgeStopped by self.old.writer self.new.writer) }
        ensures grown { HasGrown caller.old caller.new }
        ensures learned { HasLearned node J.opening caller.old caller.new }
        ensures failed { OnErr result (HasNewlySeen (trail_part N) (OfTrail (Failed by)) caller.old caller.new) }
        ensures cause { HasCause (D.faults self.old.writer.trail.device) (D.faults self.new.writer.trail.device) result }
        ensures same { caller.new.seen ≡ self.new.writer.seat.sight.seen }
    {
        self.state.purge(caller, by)
    }
}
