//! The lock round a trail's writer, which shows the trail's number outside.
ghost use Rattle.std.specs.Prelude.{◌≡◌, ◌≢◌, ◌⊎◌, ◌≤◌, ◌+◌, ◌-◌, ◌^◌, ◌++◌, ◌∷◌, [], ℕ, List, length, min, IsOk, OnOk, OnErr, IfErr, MatchResult};
ghost use Rattle.disk_model.specs.Held.{HasCause};
ghost use Rattle.chronicle.specs.Seats.{HasGrown, HasLearned, HasNewlySeen, Knows};
ghost use Rattle.chronicle.specs.Histories.{events_of};
ghost use Rattle.node_machine.specs.declared.event.Event.TheVariants.{OfTrail};
ghost use Rattle.node_machine.specs.declared.event.TrailEvent.TheVariants.{Failed};
ghost use Rattle.node_machine.specs.Opening.{trail_part};
ghost use Rattle.node_machine.specs.Node.{node};
ghost use Rattle.node_machine.specs.Parts.Fact.{Durable, Floor};
ghost use Rattle.trail_files.specs.declared.audit_record.AuditRecord.{AuditRecord};
ghost use Rattle.audit_writer.specs.Drains.{Drains};
ghost use Rattle.audit_writer.specs.Handing.{MayHand, Takes, disc_of, last_of};
ghost use Rattle.audit_writer.specs.Locked.{HasFailed, IsFlushStop, WasHeld};
ghost use Rattle.audit_writer.specs.Purge.{HasPurged, HasPurgedFor, HasPurgeStopped, HasRemoved};
ghost use Rattle.audit_writer.specs.Writer.{IsWriter, Writer, with_bounds};
ghost use Rattle.audit_writer.specs.Writes.{HasTold, HasToldBound, HasUpTo, HasWritten, IsRaised, Writes};

use crate::name::DeviceRun;
use crate::parcel::last;
use crate::writer::WriterState;
use chronicle::{NoMemory, Seat};
use disk_model::{Disk, DiskFault};
use node_machine::{By, NodeMachine};
use std::sync::{Mutex, MutexGuard, Wait};
use trail_files::AuditRecord;

/// Why audit was not flushed.
#[derive(Clone, Copy, Debug, PartialEq, Eq)]
pub enum FlushRefused {
    /// The device with this number failed.
    Failed(u8),
    NoMemory,
}

/// The writer of the trail with one number.
#[derive(Drop)]
pub struct WriterAt<'a, D: Disk, J: DeviceRun<D>, const N: u8> {
    state: WriterState<'a, D, J>,
    ghost is: { state.seat.part.number ≡ N },
}

impl<'a, D: Disk, J: DeviceRun<D>, const N: u8> WriterAt<'a, D, J, N> {
    /// Says what is known of it. It does nothing.
    pub fn lawful(&self)
        ensures lawful { IsWriter D.Disk J.opening J.found J.rules J.faults J.premise J.devices self.now.state }
        ensures number { self.now.state.seat.part.number ≡ N }
    {
        self.state.lawful();
    }

    /// Hands a disc's records in and lands them.
    pub fn flush(
        &mut self,
        disc: &mut Seat<NodeMachine, J>,
        by: By,
        records: &[AuditRecord],
    ) -> Result<(), FlushRefused>
        requires may { records.now ≢ [] → MayHand J.opening J.found (J.rules N) N disc.old (disc_of records.now) records.now }
        ensures durable { OnOk result (records.now ≢ [] → Knows node J.opening disc.new (Durable (disc_of records.now) (last_of records.now))) }
        ensures kept { Drains D.Disk self.old.state self.new.state }
        ensures all { OnOk result (records.now ≢ [] → self.new.state.queue ≡ []) }
        ensures events { MatchResult result (λ _. HasWritten self.old.state self.new.state) (IsFlushStop D.faults by self.old.state self.new.state) }
        ensures none { records.now ≡ [] → IsOk result × (self.new ≡ self.old) × (disc.new ≡ disc.old) }
        ensures grown { HasGrown disc.old disc.new }
        ensures learned { HasLearned node J.opening disc.old disc.new }
        ensures failed { IfErr result (HasFailed N by disc.old disc.new) }
        ensures memory { IfErr result (λ e. e ≡ FlushRefused.NoMemory → disc.new ≡ disc.old) }
    {
        disc.lawful();
        let Some(last) = last(records) else {
            return Ok(());
        };
        match self.state.hand(disc, records) {
            Err(NoMemory) => Err(FlushRefused::NoMemory),
            Ok(()) => match self.state.flush_to(disc, by, last.disc, last.position) {
                Err(_) => Err(FlushRefused::Failed(N)),
                Ok(()) => Ok(()),
            },
        }
    }

    /// Takes records in that a disc hands in, but for those that the writer has. Where memory runs out it takes none.
    pub fn hand(
        &mut self,
        disc: &mut Seat<NodeMachine, J>,
        records: &[AuditRecord],
    ) -> Result<(), NoMemory>
        requires may { records.now ≢ [] → MayHand J.opening J.found (J.rules N) N disc.old (disc_of records.now) records.now }
        ensures takes { MatchResult result (λ _. Takes self.old.state self.new.state) (λ _. (self.new.state ≡ self.old.state) × (disc.new ≡ disc.old)) }
        ensures has { OnOk result (records.now ≢ [] → HasUpTo self.new.state (disc_of records.now) (last_of records.now)) }
        ensures none { records.now ≡ [] → IsOk result × (self.new.state ≡ self.old.state) × (disc.new ≡ disc.old) }
        ensures grown { HasGrown disc.old disc.new }
        ensures learned { HasLearned node J.opening disc.old disc.new }
    {
        self.state.hand(disc, records)
    }

    /// Lets the writer's seat and the caller's tell each other what they have seen.
    pub fn meet(&mut self, caller: &mut Seat<NodeMachine, J>)
        ensures told { HasTold self.old.state self.new.state }
        ensures grown { HasGrown caller.old caller.new }
        ensures learned { HasLearned node J.opening caller.old caller.new }
        ensures same { caller.new.seen ≡ self.new.state.seat.sight.seen }
    {
        self.state.meet(caller);
    }

    /// The number of the part's events, or 2^64 - 1 where there are more. The caller has then seen them.
    pub fn events(&mut self, caller: &mut Seat<NodeMachine, J>) -> u64
        ensures count { result ≡ min (length (events_of (trail_part N) caller.new.seen)) (2 ^ 64 - 1) }
        ensures told { HasTold self.old.state self.new.state }
        ensures grown { HasGrown caller.old caller.new }
        ensures learned { HasLearned node J.opening caller.old caller.new }
    {
        self.state.lawful();
        self.state.meet(caller);
        self.state.events()
    }

    /// A disc tells below which position it needs none of its records.
    pub fn tell(&mut self, disc: &mut Seat<NodeMachine, J>, number: u8, bound: u64)
        requires small { number ≤ 8 }
        requires floor { Knows node J.opening disc.old (Floor number bound) }
        ensures told { HasTold (with_bounds self.new.state.bounds self.old.state) self.new.state }
        ensures raised { IsRaised number bound self.old.state.bounds self.new.state.bounds }
        ensures grown { HasGrown disc.old disc.new }
        ensures learned { HasLearned node J.opening disc.old disc.new }
        ensures same { disc.new.seen ≡ self.new.state.seat.sight.seen }
    {
        self.state.tell(disc, number, bound);
    }

    /// Removes the files before the present one that no disc needs. Where a call of the device fails, the caller has newly seen that.
    pub fn purge(&mut self, caller: &mut Seat<NodeMachine, J>, by: By) -> Result<(), DiskFault>
        ensures kept { Writes D.Disk self.old.state self.new.state × (self.new.state.queue ≡ self.old.state.queue) }
        ensures removes { HasRemoved D.Disk self.old.state.bounds self.old.state.trail self.new.state.trail result }
        ensures events { MatchResult result (λ _. HasPurged self.old.state self.new.state) (λ _. HasPurgeStopped by self.old.state self.new.state) }
        ensures grown { HasGrown caller.old caller.new }
        ensures learned { HasLearned node J.opening caller.old caller.new }
        ensures failed { OnErr result (HasNewlySeen (trail_part N) (OfTrail (Failed by)) caller.old caller.new) }
        ensures cause { HasCause (D.faults self.old.state.trail.device) (D.faults self.new.state.trail.device) result }
        ensures same { caller.new.seen ≡ self.new.state.seat.sight.seen }
    {
        self.state.purge(caller, by)
    }
}

/// A trail's writer under a lock. It shows the trail's number.
#[derive(Drop)]
pub enum AuditWriter<'a, D: Disk, J: DeviceRun<D>> {
    One(Mutex<WriterAt<'a, D, J, 1>>),
    Two(Mutex<WriterAt<'a, D, J, 2>>),
    Three(Mutex<WriterAt<'a, D, J, 3>>),
    Four(Mutex<WriterAt<'a, D, J, 4>>),
}

impl<'a, D: Disk, J: DeviceRun<D>> AuditWriter<'a, D, J> {
    ghost use Rattle.audit_writer.specs.Writers.{number_of, held_number};

    /// The lock round the writer of the trail with this number.
    pub fn new(number: u8, state: WriterState<'a, D, J>) -> Self
        requires state { state.seat.part.number ≡ number }
        requires small { (1 ≤ number) × (number ≤ 4) }
        ensures { number_of result ≡ number }
    {
        match number {
            1 => AuditWriter::One(Mutex::new(WriterAt { state })),
            2 => AuditWriter::Two(Mutex::new(WriterAt { state })),
            3 => AuditWriter::Three(Mutex::new(WriterAt { state })),
            _ => AuditWriter::Four(Mutex::new(WriterAt { state })),
        }
    }

    /// The trail's number.
    pub fn number(&self) -> u8
        ensures { result ≡ number_of self.now }
    {
        match self {
            AuditWriter::One(_) => 1,
            AuditWriter::Two(_) => 2,
            AuditWriter::Three(_) => 3,
            AuditWriter::Four(_) => 4,
        }
    }

    /// Hands a disc's records in and lands them, in one hold of the lock. Then the disc's seat has seen them durable.
    pub fn flush<R: Wait>(
        &self,
        rt: &R,
        disc: &mut Seat<NodeMachine, J>,
        by: By,
        records: &[AuditRecord],
    ) -> Result<(), FlushRefused>
        requires may { records.now ≢ [] → MayHand J.opening J.found (J.rules (number_of self.now)) (number_of self.now) disc.old (disc_of records.now) records.now }
        ensures durable { OnOk result (records.now ≢ [] → Knows node J.opening disc.new (Durable (disc_of records.now) (last_of records.now))) }
        ensures none { records.now ≡ [] → IsOk result × (disc.new ≡ disc.old) }
        ensures grown { HasGrown disc.old disc.new }
        ensures learned { HasLearned node J.opening disc.old disc.new }
        ensures failed { IfErr result (HasFailed (number_of self.now) by disc.old disc.new) }
        ensures memory { IfErr result (λ e. e ≡ FlushRefused.NoMemory → disc.new ≡ disc.old) }
    {
        match self {
            AuditWriter::One(lock) => lock.lock(rt).flush(disc, by, records),
            AuditWriter::Two(lock) => lock.lock(rt).flush(disc, by, records),
            AuditWriter::Three(lock) => lock.lock(rt).flush(disc, by, records),
            AuditWriter::Four(lock) => lock.lock(rt).flush(disc, by, records),
        }
    }

    /// Lets the writer's seat and the caller's tell each other what they have seen.
    pub fn meet<R: Wait>(&self, rt: &R, caller: &mut Seat<NodeMachine, J>)
        ensures grown { HasGrown caller.old caller.new }
        ensures learned { HasLearned node J.opening caller.old caller.new }
        ensures same { (w : Writer D) × IsWriter D.Disk J.opening J.found J.rules J.faults J.premise J.devices w × (w.seat.part.number ≡ number_of self.now) × (caller.new.seen ≡ w.seat.sight.seen) }
    {
        let mut writer = self.lock(rt);
        writer.meet(caller);
        writer.lawful();
    }

    /// The number of the part's events, or 2^64 - 1 where there are more. The caller has then seen them.
    pub fn events<R: Wait>(&self, rt: &R, caller: &mut Seat<NodeMachine, J>) -> u64
        ensures count { result ≡ min (length (events_of (trail_part (number_of self.now)) caller.new.seen)) (2 ^ 64 - 1) }
        ensures grown { HasGrown caller.old caller.new }
        ensures learned { HasLearned node J.opening caller.old caller.new }
    {
        match self {
            AuditWriter::One(lock) => lock.lock(rt).events(caller),
            AuditWriter::Two(lock) => lock.lock(rt).events(caller),
            AuditWriter::Three(lock) => lock.lock(rt).events(caller),
            AuditWriter::Four(lock) => lock.lock(rt).events(caller),
        }
    }

    /// A disc tells below which position it needs none of its records.
    pub fn tell<R: Wait>(&self, rt: &R, disc: &mut Seat<NodeMachine, J>, number: u8, bound: u64)
        requires small { number ≤ 8 }
        requires floor { Knows node J.opening disc.old (Floor number bound) }
        ensures told { WasHeld (IsWriter D.Disk J.opening J.found J.rules J.faults J.premise J.devices) (number_of self.now) (HasToldBound number bound disc.new) }
        ensures grown { HasGrown disc.old disc.new }
        ensures learned { HasLearned node J.opening disc.old disc.new }
    {
        let mut writer = self.lock(rt);
        writer.lawful();
        writer.tell(disc, number, bound);
        writer.lawful();
    }

    /// Removes the files before the present one that no disc needs. Where a call of the device fails, the caller has newly seen that.
    pub fn purge<R: Wait>(
        &self,
        rt: &R,
        caller: &mut Seat<NodeMachine, J>,
        by: By,
    ) -> Result<(), DiskFault>
        ensures purged { WasHeld (IsWriter D.Disk J.opening J.found J.rules J.faults J.premise J.devices) (number_of self.now) (HasPurgedFor D.Disk by caller.new result) }
        ensures grown { HasGrown caller.old caller.new }
        ensures learned { HasLearned node J.opening caller.old caller.new }
        ensures failed { OnErr result (HasNewlySeen (trail_part (number_of self.now)) (OfTrail (Failed by)) caller.old caller.new) }
    {
        let mut writer = self.lock(rt);
        writer.lawful();
        let purged = writer.purge(caller, by);
        writer.lawful();
        purged
    }

    /// Takes the lock, for several calls in one hold.
    pub fn lock<'g, R: Wait>(&'g self, rt: &R) -> WriterGuard<'g, 'a, D, J>
        ensures { held_number result ≡ number_of self.now }
    {
        match self {
            AuditWriter::One(lock) => WriterGuard::One(lock.lock(rt)),
            AuditWriter::Two(lock) => WriterGuard::Two(lock.lock(rt)),
            AuditWriter::Three(lock) => WriterGuard::Three(lock.lock(rt)),
            AuditWriter::Four(lock) => WriterGuard::Four(lock.lock(rt)),
        }
    }

    /// The state, once no thread has the lock.
    pub fn into_state(self) -> WriterState<'a, D, J>
        ensures { result.seat.part.number ≡ number_of self.entry }
    {
        match self {
            AuditWriter::One(lock) => {
                let WriterAt { state } = lock.into_inner();
                state
            }
            AuditWriter::Two(lock) => {
                let WriterAt { state } = lock.into_inner();
                state
            }
            AuditWriter::Three(lock) => {
                let WriterAt { state } = lock.into_inner();
                state
            }
            AuditWriter::Four(lock) => {
                let WriterAt { state } = lock.into_inner();
                state
            }
        }
    }
}

/// A trail's writer whose lock is held.
#[derive(Drop)]
pub enum WriterGuard<'g, 'a, D: Disk, J: DeviceRun<D>> {
    One(MutexGuard<'g, WriterAt<'a, D, J, 1>>),
    Two(MutexGuard<'g, WriterAt<'a, D, J, 2>>),
    Three(MutexGuard<'g, WriterAt<'a, D, J, 3>>),
    Four(MutexGuard<'g, WriterAt<'a, D, J, 4>>),
}

impl<'g, 'a, D: Disk, J: DeviceRun<D>> WriterGuard<'g, 'a, D, J> {
    ghost use Rattle.audit_writer.specs.Writers.{held_number, held_writer};

    /// Says what is known of the writer. It does nothing.
    pub fn lawful(&self)
        ensures lawful { IsWriter D.Disk J.opening J.found J.rules J.faults J.premise J.devices (held_writer self.now) }
        ensures number { (held_writer self.now).seat.part.number ≡ held_number self.now }
    {
        match self {
            WriterGuard::One(writer) => writer.lawful(),
            WriterGuard::Two(writer) => writer.lawful(),
            WriterGuard::Three(writer) => writer.lawful(),
            WriterGuard::Four(writer) => writer.lawful(),
        }
    }

    /// Hands a disc's records in and lands them. Then the disc's seat has seen them durable.
    pub fn flush(
        &mut self,
        disc: &mut Seat<NodeMachine, J>,
        by: By,
        records: &[AuditRecord],
    ) -> Result<(), FlushRefused>
        requires may { records.now ≢ [] → MayHand J.opening J.found (J.rules (held_number self.old)) (held_number self.old) disc.old (disc_of records.now) records.now }
        ensures kept { Drains D.Disk (held_writer self.old) (held_writer self.new) }
        ensures all { OnOk result (records.now ≢ [] → (held_writer self.new).queue ≡ []) }
        ensures events { MatchResult result (λ _. HasWritten (held_writer self.old) (held_writer self.new)) (IsFlushStop D.faults by (held_writer self.old) (held_writer self.new)) }
        ensures durable { OnOk result (records.now ≢ [] → Knows node J.opening disc.new (Durable (disc_of records.now) (last_of records.now))) }
        ensures none { records.now ≡ [] → IsOk result × (held_writer self.new ≡ held_writer self.old) × (disc.new ≡ disc.old) }
        ensures grown { HasGrown disc.old disc.new }
        ensures learned { HasLearned node J.opening disc.old disc.new }
        ensures failed { IfErr result (HasFailed (held_number self.old) by disc.old disc.new) }
        ensures memory { IfErr result (λ e. e ≡ FlushRefused.NoMemory → disc.new ≡ disc.old) }
        ensures number { held_number self.new ≡ held_number self.old }
    {
        match self {
            WriterGuard::One(writer) => writer.flush(disc, by, records),
            WriterGuard::Two(writer) => writer.flush(disc, by, records),
            WriterGuard::Three(writer) => writer.flush(disc, by, records),
            WriterGuard::Four(writer) => writer.flush(disc, by, records),
        }
    }

    /// Takes records in that a disc hands in, but for those that the writer has. Where memory runs out it takes none.
    pub fn hand(
        &mut self,
        disc: &mut Seat<NodeMachine, J>,
        records: &[AuditRecord],
    ) -> Result<(), NoMemory>
        requires may { records.now ≢ [] → MayHand J.opening J.found (J.rules (held_number self.old)) (held_number self.old) disc.old (disc_of records.now) records.now }
        ensures takes { MatchResult result (λ _. Takes (held_writer self.old) (held_writer self.new)) (λ _. (held_writer self.new ≡ held_writer self.old) × (disc.new ≡ disc.old)) }
        ensures has { OnOk result (records.now ≢ [] → HasUpTo (held_writer self.new) (disc_of records.now) (last_of records.now)) }
        ensures none { records.now ≡ [] → IsOk result × (held_writer self.new ≡ held_writer self.old) × (disc.new ≡ disc.old) }
        ensures grown { HasGrown disc.old disc.new }
        ensures learned { HasLearned node J.opening disc.old disc.new }
        ensures number { held_number self.new ≡ held_number self.old }
    {
        match self {
            WriterGuard::One(writer) => writer.hand(disc, records),
            WriterGuard::Two(writer) => writer.hand(disc, records),
            WriterGuard::Three(writer) => writer.hand(disc, records),
            WriterGuard::Four(writer) => writer.hand(disc, records),
        }
    }

    /// Lets the writer's seat and the caller's tell each other what they have seen.
    pub fn meet(&mut self, caller: &mut Seat<NodeMachine, J>)
        ensures told { HasTold (held_writer self.old) (held_writer self.new) }
        ensures grown { HasGrown caller.old caller.new }
        ensures learned { HasLearned node J.opening caller.old caller.new }
        ensures same { caller.new.seen ≡ (held_writer self.new).seat.sight.seen }
        ensures number { held_number self.new ≡ held_number self.old }
    {
        match self {
            WriterGuard::One(writer) => writer.meet(caller),
            WriterGuard::Two(writer) => writer.meet(caller),
            WriterGuard::Three(writer) => writer.meet(caller),
            WriterGuard::Four(writer) => writer.meet(caller),
        }
    }

    /// The number of the part's events, or 2^64 - 1 where there are more. The caller has then seen them.
    pub fn events(&mut self, caller: &mut Seat<NodeMachine, J>) -> u64
        ensures count { result ≡ min (length (events_of (trail_part (held_number self.old)) caller.new.seen)) (2 ^ 64 - 1) }
        ensures told { HasTold (held_writer self.old) (held_writer self.new) }
        ensures grown { HasGrown caller.old caller.new }
        ensures learned { HasLearned node J.opening caller.old caller.new }
        ensures number { held_number self.new ≡ held_number self.old }
    {
        match self {
            WriterGuard::One(writer) => writer.events(caller),
            WriterGuard::Two(writer) => writer.events(caller),
            WriterGuard::Three(writer) => writer.events(caller),
            WriterGuard::Four(writer) => writer.events(caller),
        }
    }

    /// A disc tells below which position it needs none of its records.
    pub fn tell(&mut self, disc: &mut Seat<NodeMachine, J>, number: u8, bound: u64)
        requires small { number ≤ 8 }
        requires floor { Knows node J.opening disc.old (Floor number bound) }
        ensures told { HasTold (with_bounds (held_writer self.new).bounds (held_writer self.old)) (held_writer self.new) }
        ensures raised { IsRaised number bound (held_writer self.old).bounds (held_writer self.new).bounds }
        ensures grown { HasGrown disc.old disc.new }
        ensures learned { HasLearned node J.opening disc.old disc.new }
        ensures same { disc.new.seen ≡ (held_writer self.new).seat.sight.seen }
        ensures number { held_number self.new ≡ held_number self.old }
    {
        match self {
            WriterGuard::One(writer) => writer.tell(disc, number, bound),
            WriterGuard::Two(writer) => writer.tell(disc, number, bound),
            WriterGuard::Three(writer) => writer.tell(disc, number, bound),
            WriterGuard::Four(writer) => writer.tell(disc, number, bound),
        }
    }

    /// Removes the files before the present one that no disc needs. Where a call of the device fails, the caller has newly seen that.
    pub fn purge(&mut self, caller: &mut Seat<NodeMachine, J>, by: By) -> Result<(), DiskFault>
        ensures kept { Writes D.Disk (held_writer self.old) (held_writer self.new) × ((held_writer self.new).queue ≡ (held_writer self.old).queue) }
        ensures removes { HasRemoved D.Disk (held_writer self.old).bounds (held_writer self.old).trail (held_writer self.new).trail result }
        ensures events { MatchResult result (λ _. HasPurged (held_writer self.old) (held_writer self.new)) (λ _. HasPurgeStopped by (held_writer self.old) (held_writer self.new)) }
        ensures grown { HasGrown caller.old caller.new }
        ensures learned { HasLearned node J.opening caller.old caller.new }
        ensures failed { OnErr result (HasNewlySeen (trail_part (held_number self.old)) (OfTrail (Failed by)) caller.old caller.new) }
        ensures cause { HasCause (D.faults (held_writer self.old).trail.device) (D.faults (held_writer self.new).trail.device) result }
        ensures same { caller.new.seen ≡ (held_writer self.new).seat.sight.seen }
        ensures number { held_number self.new ≡ held_number self.old }
    {
        match self {
            WriterGuard::One(writer) => writer.purge(caller, by),
            WriterGuard::Two(writer) => writer.purge(caller, by),
            WriterGuard::Three(writer) => writer.purge(caller, by),
            WriterGuard::Four(writer) => writer.purge(caller, by),
        }
    }
}
