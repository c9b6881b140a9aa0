//! Steps of transactions, on keys and on whole files: what a step comes to in its block, and how it is carried out.
ghost use Rattle.std.specs.Prelude.{◌≡◌, ◌<◌, ◌≤◌, ◌+◌, ◌-◌, ◌++◌, ◌∷◌, [], Option, Some, None, Ok, Err, IfOk, IfSome, IfNone, OnOk, OnErr, ⊤, true, false, bytes_eq};
ghost use mathlib.Core.List.{IsPrefix};
ghost use Rattle.chronicle.specs.Seats.{own_events};
ghost use Rattle.node_machine.specs.declared.event.Event.TheVariants.{OfDisc};
ghost use Rattle.node_machine.specs.declared.event.DiscEvent.TheVariants as did;
ghost use Rattle.node_machine.specs.declared.event.Cause.TheVariants as cause;
ghost use Rattle.node_machine.specs.Disc.{IsNoOther, IsOther, is_lock};
ghost use Rattle.node_machine.specs.Made.{blocks_of, holder, home_block, next_position, volume_of};
ghost use Rattle.std.specs.List.{IsDistinct};
ghost use Rattle.disc_process.specs.Found.{is_put};
ghost use Rattle.block_cache.specs.Blocks.{InCache, home_of};
ghost use Rattle.keyed_file.specs.Volume.{blocks_of as label_blocks};
ghost use Rattle.tmf_model.specs.Config.{IsDeclared, IsValidConfig};
ghost use Rattle.tmf_model.specs.Transid.{is_transid};
ghost use Rattle.tmf_model.specs.Word.{is_key};
ghost use Rattle.trail_files.specs.AuditFormat.{is_image};
ghost use Rattle.trail_files.specs.declared.audit_record.AuditKind.TheVariants.{Change as ChangeKind};
ghost use Rattle.disc_process.specs.Write.{HasDone, IsAnswered, IsDone, IsKeyAnswered};
ghost use Rattle.disc_process.specs.Damage.{WasRight};
ghost use Rattle.disc_process.specs.Disc.{AreKept, AreTrails, Finds, IsHolding, hold_event, last_position};
ghost use Rattle.disc_process.specs.InTime.{IsUnended};
ghost use Rattle.disc_process.specs.Later.{IsLaterDisc, IsLaterTxn};
ghost use Rattle.disc_process.specs.Seats.{IsLaterSeat};
ghost use Rattle.disc_process.specs.declared.found.Found.{Found as TheFound};

use crate::disc::{DiscState, blocks_of};
use crate::found::{Found, found_in, is_lock, is_put};
use crate::refused::WriteRefused;
use audit_writer::{AuditWriter, DeviceRun};
use block_cache::BlockNo;
use disk_model::Disk;
use node_machine::{Cause, DiscEvent};
use record_locks::NoMemory;
use std::sync::Wait;
use tmf_model::{Config, Key, Step, Transid, Value, place_of};
use trail_files::{AuditKind, AuditRecord, Damage, DamageKind};
use txn_states::Active;

/// The block that a step's key lives in.
fn home(config: &Config, step: &Step) -> BlockNo
    requires valid { IsValidConfig config.now }
    requires declared { IsDeclared config.now.files step.now.file }
    ensures file { result.file ≡ step.now.file }
    ensures number { result.number ≡ home_block config.now step.now.file step.now.key }
    ensures within { result.number < blocks_of config.now step.now.file }
{
    BlockNo {
        file: step.file,
        number: place_of(&step.key, blocks_of(config, step.file)),
    }
}

/// The damage of a block that would pass its most records.
pub(crate) fn crowded(n: BlockNo) -> Damage
    ensures { result ≡ record { file = 1 + n.file; at = n.number; kind = DamageKind.BadBlock } }
{
    Damage {
        file: u32::from(n.file) + 1,
        at: u64::from(n.number),
        kind: DamageKind::BadBlock,
    }
}

/// The event of a step that holds its key and changes nothing.
fn hold_event(t: Transid, step: &Step, what: &Found) -> DiscEvent
    ensures { result ≡ hold_event t step.now what.now }
{
    match what {
        Found::Value(value) => DiscEvent::Read(t, step.file, step.key, *value),
        Found::Refused(reason) => DiscEvent::Turn(t, Cause::Refused(*step, *reason)),
        _ => DiscEvent::Turn(t, Cause::Full(*step)),
    }
}

/// Says that a record's key is a key, and the values of its images are values. It does nothing.
pub(crate) fn lawful_words(item: &AuditRecord)
    ensures key { is_key item.now.key ≡ true }
    ensures before { is_image item.now.before ≡ true }
    ensures after { is_image item.now.after ≡ true }
{
    let _ = item.key.as_bytes();
    if let Some(value) = &item.before {
        let _ = value.as_bytes();
    }
    if let Some(value) = &item.after {
        let _ = value.as_bytes();
    }
}

/// The audit record of a step's change.
fn change_record(
    volume: u8,
    t: Transid,
    step: &Step,
    position: u64,
    before: Option<Value>,
    after: Option<Value>,
) -> AuditRecord
    ensures value { result ≡ record { kind = ChangeKind; disc = volume; file = step.now.file; tx = t; position = position; key = step.now.key; before = before; after = after } }
    ensures key { is_key step.now.key ≡ true }
    ensures before { is_image before ≡ true }
    ensures after { is_image after ≡ true }
{
    let change = AuditRecord {
        kind: AuditKind::Change,
        disc: volume,
        file: step.file,
        tx: t,
        position,
        key: step.key,
        before,
        after,
    };
    lawful_words(&change);
    change
}

impl<'a, D: Disk, J: DeviceRun<D>> DiscState<'a, D, J> {
    /// Notes that a step was turned away, since another transaction holds its key.
    fn turn_busy(&mut self, t: Transid, step: &Step, other: Transid)
        requires here { volume_of self.old.part.config step.now.file ≡ self.old.part.number }
        requires other { IsOther other t }
        requires holds { holder self.old.part.events step.now.file step.now.key ≡ Some other }
        requires keyed { is_lock step.now.op ≡ false }
        ensures events { own_events self.new.seat ≡ own_events self.old.seat ++ OfDisc (did.Turn t (cause.Busy step.now other)) ∷ [] }
        ensures blocks { self.new.blocks ≡ self.old.blocks }
        ensures later_seat { IsLaterSeat self.old.seat self.new.seat }
    {
        self.chronicle.append(
            &mut self.seat,
            &DiscEvent::Turn(t, Cause::Busy(*step, other)),
        );
    }

    /// Another transaction that holds the step's key.
    fn other_holder(&self, t: Transid, step: &Step) -> Option<Transid>
        ensures busy { IfSome result (λ h. IsOther h t × (holder self.now.part.events step.now.file step.now.key ≡ Some h)) }
        ensures free { IfNone result (IsNoOther (holder self.now.part.events step.now.file step.now.key) t) }
    {
        match self.locks.held(step.file, &step.key) {
            Some(holder) if holder != t => Some(holder),
            _ => None,
        }
    }

    /// The keys of a step's block that are held by writing, where the step asks for them.
    fn kept_keys(&self, step: &Step) -> Result<Vec<Key>, NoMemory>
        requires { IsDeclared self.now.part.config.files step.now.file }
        ensures distinct { IfOk result (λ kept. IsDistinct bytes_eq kept.items) }
        ensures are { IfOk result (λ kept. is_put step.now.op ≡ true
            → AreKept self.now.part step.now.file (home_block self.now.part.config step.now.file step.now.key) kept.items) }
    {
        if !is_put(&step.op) {
            return Ok(Vec::new(self.alloc));
        }
        let n = home(self.config, step);
        self.locks
            .kept(step.file, n.number, blocks_of(self.config, step.file))
    }

    /// What a step comes to in its block, which is in the cache.
    fn find(&self, step: &Step) -> Result<Found, NoMemory>
        requires declared { IsDeclared self.now.part.config.files step.now.file }
        requires here { volume_of self.now.part.config step.now.file ≡ self.now.part.number }
        requires cached { InCache self.now.blocks.cache step.now.file (home_block self.now.part.config step.now.file step.now.key) (λ f. ⊤) }
        ensures found { IfOk result (λ what. Finds self.now step.now what) }
        ensures baseless { IfOk result (λ what. what ≡ TheFound.Crowded → self.now.part.base ≡ None) }
        ensures right { OnOk result (WasRight D.Disk self.now.handed_in (home_of self.now.blocks step.now.file (home_block self.now.part.config step.now.file step.now.key))) }
    {
        let kept = self.kept_keys(step)?;
        let n = home(self.config, step);
        Ok(found_in(self.blocks.get(n), kept.as_slice(), step))
    }

    /// Holds the key of a step that changes nothing, with what it has come to.
    #[tactic(auto, using(crate::proofs::Drawn::prefix_then, crate::proofs::Drawn::prefix_same, crate::proofs::Seats::seat_then, crate::proofs::Seats::seat_same, crate::proofs::Later::same_txn))]
    fn hold(&mut self, tx: &mut Active<'a, J>, step: &Step, what: &Found) -> Result<(), NoMemory>
        requires here { volume_of self.old.part.config step.now.file ≡ self.old.part.number }
        requires free { IsNoOther (holder self.old.part.events step.now.file step.now.key) tx.old.tx }
        requires found { Finds self.old step.now what.now }
        requires holding { IsHolding what.now }
        ensures done { OnOk result (HasDone self.old self.new tx.old tx.new step.now what.now) }
        ensures unchanged { OnErr result ((self.new ≡ self.old) × (tx.new ≡ tx.old)) }
        ensures txn { IsLaterTxn J.opening tx.old tx.new }
        ensures later_seat { IsLaterSeat self.old.seat self.new.seat }
        ensures behind { OnOk result (IsPrefix tx.new.seat.seen self.new.seat.seen) }
        ensures blocks { self.new.blocks ≡ self.old.blocks }
    {
        let t = tx.tx();
        let event = hold_event(t, step, what);
        self.locks.always();
        self.live.reserve(t)?;
        if self.locks.take(step.file, step.key, t).is_err() {
            return Err(NoMemory);
        }
        tx.enlist_here(self.volume);
        tx.meet(&mut self.seat);
        self.chronicle.append(&mut self.seat, &event);
        self.live.arrive(t);
        Ok(())
    }

    /// Carries out a step's change, with what it has come to.
    #[tactic(auto, using(crate::proofs::Drawn::prefix_then, crate::proofs::Drawn::prefix_same, crate::proofs::Seats::seat_then, crate::proofs::Seats::seat_same, crate::proofs::Later::same_txn))]
    fn change(
        &mut self,
        tx: &mut Active<'a, J>,
        step: &Step,
        before: Option<Value>,
        after: Option<Value>,
    ) -> Result<(), NoMemory>
        requires declared { IsDeclared self.old.part.config.files step.now.file }
        requires here { volume_of self.old.part.config step.now.file ≡ self.old.part.number }
        requires free { IsNoOther (holder self.old.part.events step.now.file step.now.key) tx.old.tx }
        requires found { Finds self.old step.now (TheFound.Change before after) }
        requires room { next_position self.old.part < last_position }
        requires valid { is_transid tx.old.tx ≡ true }
        ensures done { OnOk result (HasDone self.old self.new tx.old tx.new step.now (TheFound.Change before after)) }
        ensures unchanged { OnErr result ((self.new ≡ self.old) × (tx.new ≡ tx.old)) }
        ensures txn { IsLaterTxn J.opening tx.old tx.new }
        ensures later_seat { IsLaterSeat self.old.seat self.new.seat }
        ensures behind { OnOk result (IsPrefix tx.new.seat.seen self.new.seat.seen) }
        ensures device { self.new.blocks.device ≡ self.old.blocks.device }
    {
        let t = tx.tx();
        let n = home(self.config, step);
        self.locks.always();
        self.live.reserve(t)?;
        if self.pending.reserve(1).is_err() {
            return Err(NoMemory);
        }
        if self.locks.take(step.file, step.key, t).is_err() {
            return Err(NoMemory);
        }
        tx.enlist_here(self.volume);
        tx.meet(&mut self.seat);
        let change = change_record(self.volume, t, step, self.next, before, after);
        self.chronicle
            .append(&mut self.seat, &DiscEvent::Write(change, step.op));
        self.blocks.set(n, &step.key, change.after, self.next);
        self.locks.mark(step.file, &step.key);
        self.live.note(&change);
        self.pending.push_reserved(change);
        self.next += 1;
        Ok(())
    }

    /// The block of a step.
    fn home(&self, step: &Step) -> BlockNo
        requires declared { IsDeclared self.now.part.config.files step.now.file }
        requires here { volume_of self.now.part.config step.now.file ≡ self.now.part.number }
        ensures file { result.file ≡ step.now.file }
        ensures number { result.number ≡ home_block self.now.part.config step.now.file step.now.key }
        ensures within { result.number < label_blocks self.now.blocks.label.files result.file }
    {
        home(self.config, step)
    }

    /// Carries out what a step has come to.
    #[tactic(auto, using(crate::proofs::Drawn::prefix_then, crate::proofs::Drawn::prefix_same, crate::proofs::Seats::seat_then, crate::proofs::Seats::seat_same, crate::proofs::Later::same_txn))]
    fn carry_out(
        &mut self,
        tx: &mut Active<'a, J>,
        step: &Step,
        what: &Found,
    ) -> Result<Option<Value>, WriteRefused>
        requires declared { IsDeclared self.old.part.config.files step.now.file }
        requires here { volume_of self.old.part.config step.now.file ≡ self.old.part.number }
        requires valid { is_transid tx.old.tx ≡ true }
        requires room { next_position self.old.part < last_position }
        requires free { IsNoOther (holder self.old.part.events step.now.file step.now.key) tx.old.tx }
        requires found { Finds self.old step.now what.now }
        requires baseless { what.now ≡ TheFound.Crowded → self.old.part.base ≡ None }
        requires right { WasRight D.Disk self.old.handed_in (home_of self.old.blocks step.now.file (home_block self.old.part.config step.now.file step.now.key)) }
        requires behind { IsPrefix tx.old.seat.seen self.old.seat.seen }
        ensures done { IsDone D.Disk self.old self.new tx.old tx.new step.now result }
        ensures txn { IsLaterTxn J.opening tx.old tx.new }
        ensures later_seat { IsLaterSeat self.old.seat self.new.seat }
        ensures behind { IsPrefix tx.new.seat.seen self.new.seat.seen }
        ensures device { self.new.blocks.device ≡ self.old.blocks.device }
    {
        match what {
            Found::Change(before, after) => {
                self.change(tx, step, *before, *after)?;
                Ok(*after)
            }
            Found::Value(value) => {
                self.hold(tx, step, what)?;
                Ok(*value)
            }
            Found::Full => {
                self.hold(tx, step, what)?;
                Err(WriteRefused::Full)
            }
            Found::Refused(reason) => {
                self.hold(tx, step, what)?;
                Err(WriteRefused::Refused(*reason))
            }
            Found::Crowded => {
                let n = self.home(step);
                Err(WriteRefused::Damaged(self.device(), crowded(n)))
            }
        }
    }

    /// Carries out a step on a key, or refuses it. What the worker's seat has seen the disc's has.
    #[tactic(auto, using(crate::proofs::Drawn::prefix_then, crate::proofs::Drawn::prefix_same, crate::proofs::Seats::seat_then, crate::proofs::Seats::seat_same, crate::proofs::Later::later_then, crate::proofs::Own::own_still))]
    fn attempt_key<R: Wait>(
        &mut self,
        rt: &R,
        tx: &mut Active<'a, J>,
        trails: &[AuditWriter<'a, D, J>],
        step: &Step,
    ) -> Result<Option<Value>, WriteRefused>
        requires declared { IsDeclared self.old.part.config.files step.now.file }
        requires here { volume_of self.old.part.config step.now.file ≡ self.old.part.number }
        requires trails { AreTrails self.old.part.config trails.now }
        requires valid { is_transid tx.old.tx ≡ true }
        requires keyed { is_lock step.now.op ≡ false }
        ensures answered { IsKeyAnswered D.Disk self.old self.new tx.old tx.new step.now result }
        ensures txn { IsLaterTxn J.opening tx.old tx.new }
        ensures later_seat { IsLaterSeat self.old.seat self.new.seat }
        ensures behind { IsPrefix tx.new.seat.seen self.new.seat.seen }
        ensures later { D.faults self.old.blocks.device ≤ D.faults self.new.blocks.device }
    {
        self.lawful();
        if let Some(part) = self.spent(rt, tx, trails) {
            return Err(WriteRefused::Spent(part));
        }
        let t = tx.tx();
        if let Some(other) = self.other_holder(t, step) {
            self.turn_busy(t, step, other);
            return Err(WriteRefused::Busy(other));
        }
        let n = self.home(step);
        if let Err(refusal) = self.bring(rt, t, trails, n) {
            return Err(refusal);
        }
        let what = self.find(step)?;
        self.carry_out(tx, step, &what)
    }

    /// Carries out a step, or refuses it. What the worker's seat has seen the disc's has.
    fn attempt<R: Wait>(
        &mut self,
        rt: &R,
        tx: &mut Active<'a, J>,
        trails: &[AuditWriter<'a, D, J>],
        step: &Step,
    ) -> Result<Option<Value>, WriteRefused>
        requires declared { IsDeclared self.old.part.config.files step.now.file }
        requires here { volume_of self.old.part.config step.now.file ≡ self.old.part.number }
        requires trails { AreTrails self.old.part.config trails.now }
        requires valid { is_transid tx.old.tx ≡ true }
        ensures answered { IsAnswered D.Disk self.old self.new tx.old tx.new step.now result }
        ensures txn { IsLaterTxn J.opening tx.old tx.new }
        ensures later_seat { IsLaterSeat self.old.seat self.new.seat }
        ensures behind { IsPrefix tx.new.seat.seen self.new.seat.seen }
        ensures later { D.faults self.old.blocks.device ≤ D.faults self.new.blocks.device }
    {
        if is_lock(&step.op) {
            return self.attempt_file(rt, tx, trails, step.file);
        }
        self.attempt_key(rt, tx, trails, step)
    }

    /// Carries out a step, or refuses it, and lets the two seats tell each other.
    fn write_step<R: Wait>(
        &mut self,
        rt: &R,
        tx: &mut Active<'a, J>,
        trails: &[AuditWriter<'a, D, J>],
        step: &Step,
    ) -> Result<Option<Value>, WriteRefused>
        requires declared { IsDeclared self.old.part.config.files step.now.file }
        requires here { volume_of self.old.part.config step.now.file ≡ self.old.part.number }
        requires trails { AreTrails self.old.part.config trails.now }
        requires valid { is_transid tx.old.tx ≡ true }
        ensures answered { IsAnswered D.Disk self.old self.new tx.old tx.new step.now result }
        ensures txn { IsLaterTxn J.opening tx.old tx.new }
        ensures seen { tx.new.seat.seen ≡ self.new.seat.seen }
        ensures in_time { IsUnended tx.old.tx self.new.seat.seen }
        ensures later_seat { IsLaterSeat self.old.seat self.new.seat }
        ensures later { D.faults self.old.blocks.device ≤ D.faults self.new.blocks.device }
    {
        let answer = self.attempt(rt, tx, trails, step);
        tx.meet(&mut self.seat);
        answer
    }

    /// Carries out a step, or refuses it. Its worker has not ended the attempt's steps in what both seats have then seen.
    pub fn write<R: Wait>(
        &mut self,
        rt: &R,
        tx: &mut Active<'a, J>,
        trails: &[AuditWriter<'a, D, J>],
        step: &Step,
    ) -> Result<Option<Value>, WriteRefused>
        requires declared { IsDeclared self.old.part.config.files step.now.file }
        requires here { volume_of self.old.part.config step.now.file ≡ self.old.part.number }
        requires trails { AreTrails self.old.part.config trails.now }
        requires valid { is_transid tx.old.tx ≡ true }
        ensures answered { IsAnswered D.Disk self.old self.new tx.old tx.new step.now result }
        ensures disc { IsLaterDisc J.opening self.old self.new }
        ensures txn { IsLaterTxn J.opening tx.old tx.new }
        ensures seen { tx.new.seat.seen ≡ self.new.seat.seen }
        ensures in_time { IsUnended tx.old.tx self.new.seat.seen }
        ensures later { D.faults self.old.blocks.device ≤ D.faults self.new.blocks.device }
    {
        self.lawful();
        let answer = self.write_step(rt, tx, trails, step);
        self.lawful();
        answer
    }
}
