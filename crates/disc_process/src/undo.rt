//! Undoing a transaction's changes, the newest first.
ghost use Rattle.std.specs.Prelude.{◌≡◌, ◌<◌, ◌≤◌, [], IfNone, IfSome, None, OnErr, OnOk, false, true, ⊤};
ghost use Rattle.chronicle.specs.Seats.{Knows};
ghost use Rattle.block_cache.specs.Blocks.{InCache, home_of};
ghost use Rattle.keyed_file.specs.Block.{KeyedBlock, value_at};
ghost use Rattle.keyed_file.specs.Volume.{blocks_of as label_blocks};
ghost use Rattle.node_machine.specs.declared.event.DiscEvent.TheVariants as did;
ghost use Rattle.node_machine.specs.Disc.{IsBackedOut};
ghost use Rattle.node_machine.specs.Made.{changes_left, volume_of};
ghost use Rattle.node_machine.specs.Node.{node};
ghost use Rattle.tmf_model.specs.Transid.{is_transid};
ghost use Rattle.tmf_model.specs.Word.{is_key};
ghost use Rattle.trail_files.specs.AuditFormat.{is_image};
ghost use Rattle.trail_files.specs.declared.audit_record.AuditKind.TheVariants.{Undo as UndoKind};
ghost use Rattle.txn_states.specs.Txn.{HasStepped};
ghost use Rattle.disc_process.specs.Damage.{WasRight};
ghost use Rattle.disc_process.specs.Disc.{AreTrails};
ghost use Rattle.disc_process.specs.Later.{IsLaterDisc};
ghost use Rattle.disc_process.specs.Release.{HasFreed, IsReleaseSeen};
ghost use Rattle.disc_process.specs.Seats.{IsLaterSeat};
ghost use Rattle.disc_process.specs.Undo.{HasPutBack, HasTakenBack, IsNewest, IsReleaseAnswer, IsRestAnswer, IsUndoAnswer, home_of_change, takes_back, undo_refusal};

use crate::disc::{DiscState, blocks_of};
use crate::live::Change;
use crate::refused::WriteRefused;
use crate::step::{crowded, lawful_words};
use crate::undo_refused::UndoRefused;
use audit_writer::{AuditWriter, DeviceRun};
use block_cache::BlockNo;
use disk_model::Disk;
use keyed_file::Block;
use node_machine::DiscEvent;
use record_locks::NoMemory;
use std::sync::Wait;
use tmf_model::{Transid, Value, place_of};
use trail_files::{AuditKind, AuditRecord};
use txn_states::{Aborting, Ended};

/// The audit record that takes a change back.
fn undo_record(
    volume: u8,
    t: Transid,
    change: &Change,
    position: u64,
    before: Option<Value>,
) -> AuditRecord
    ensures value { result ≡ record { kind = UndoKind; disc = volume; file = change.now.file; tx = t; position = position; key = change.now.key; before = before; after = change.now.before } }
    ensures key { is_key change.now.key ≡ true }
    ensures before { is_image before ≡ true }
    ensures after { is_image change.now.before ≡ true }
{
    let item = AuditRecord {
        kind: AuditKind::Undo,
        disc: volume,
        file: change.file,
        tx: t,
        position,
        key: change.key,
        before,
        after: change.before,
    };
    lawful_words(&item);
    item
}

/// The event of an audit record that takes a change back.
fn undo_event(item: &AuditRecord) -> DiscEvent
    ensures { result ≡ did.Undo item.now }
{
    DiscEvent::Undo(AuditRecord {
        kind: item.kind,
        disc: item.disc,
        file: item.file,
        tx: item.tx,
        position: item.position,
        key: item.key,
        before: item.before,
        after: item.after,
    })
}

/// Whether the block can take the change back, from the value that stands.
fn takes_back(block: &Block, change: &Change, before: &Option<Value>) -> bool
    ensures { result ≡ takes_back block.now change.now.before before.now }
{
    before.is_some() || (change.before.is_some() && block.records().len() < 62)
}

/// Why a change is not undone, where its block was not read.
fn refusal_of(e: WriteRefused) -> UndoRefused
    ensures { result ≡ undo_refusal e }
{
    match e {
        WriteRefused::Failed(device) => UndoRefused::Failed(device),
        WriteRefused::Damaged(device, damage) => UndoRefused::Damaged(device, damage),
        _ => UndoRefused::NoMemory,
    }
}

impl<'a, D: Disk, J: DeviceRun<D>> DiscState<'a, D, J> {
    /// Undoes the newest change of a transaction here that is not undone, and answers whether there was one.
    pub fn undo_one<R: Wait>(
        &mut self,
        rt: &R,
        tx: &mut Aborting<'a, J>,
        trails: &[AuditWriter<'a, D, J>],
    ) -> Result<bool, UndoRefused>
        requires trails { AreTrails self.old.part.config trails.now }
        requires valid { is_transid tx.old.tx ≡ true }
        ensures undone { IsUndoAnswer D.Disk self.old self.new tx.old.tx result }
        ensures disc { IsLaterDisc J.opening self.old self.new }
        ensures txn { HasStepped J.opening tx.old [] tx.new }
        ensures seen { tx.new.seat.seen ≡ self.new.seat.seen }
        ensures later { D.faults self.old.blocks.device ≤ D.faults self.new.blocks.device }
    {
        self.lawful();
        let answer = self.undo_step(rt, tx, trails);
        self.lawful();
        answer
    }

    /// The same, without the frame of the disc.
    fn undo_step<R: Wait>(
        &mut self,
        rt: &R,
        tx: &mut Aborting<'a, J>,
        trails: &[AuditWriter<'a, D, J>],
    ) -> Result<bool, UndoRefused>
        requires trails { AreTrails self.old.part.config trails.now }
        requires valid { is_transid tx.old.tx ≡ true }
        ensures undone { IsUndoAnswer D.Disk self.old self.new tx.old.tx result }
        ensures txn { HasStepped J.opening tx.old [] tx.new }
        ensures seen { tx.new.seat.seen ≡ self.new.seat.seen }
        ensures later_seat { IsLaterSeat self.old.seat self.new.seat }
        ensures later { D.faults self.old.blocks.device ≤ D.faults self.new.blocks.device }
    {
        let t = tx.tx();
        tx.meet(&mut self.seat);
        let answer = self.undo(rt, t, trails);
        tx.meet(&mut self.seat);
        answer
    }

    /// Undoes the newest change of a transaction that is to be backed out, as the disc's seat knows.
    #[tactic(auto, using(crate::proofs::Seats::seat_then, crate::proofs::Seats::seat_same))]
    fn undo<R: Wait>(
        &mut self,
        rt: &R,
        t: Transid,
        trails: &[AuditWriter<'a, D, J>],
    ) -> Result<bool, UndoRefused>
        requires trails { AreTrails self.old.part.config trails.now }
        requires valid { is_transid t ≡ true }
        requires decided { IsBackedOut (Knows node J.opening self.old.seat) t }
        ensures undone { IsUndoAnswer D.Disk self.old self.new t result }
        ensures later_seat { IsLaterSeat self.old.seat self.new.seat }
        ensures later { D.faults self.old.blocks.device ≤ D.faults self.new.blocks.device }
    {
        let Some(change) = self.newest_change(t) else {
            return Ok(false);
        };
        let n = self.home_of(&change);
        self.lawful();
        if let Err(refusal) = self.bring(rt, t, trails, n) {
            return Err(refusal_of(refusal));
        }
        self.lawful();
        self.take_back(t, n, &change)?;
        Ok(true)
    }

    /// The newest change of a transaction that is to be backed out, as the disc's seat knows.
    fn newest_change(&self, t: Transid) -> Option<Change>
        requires { IsBackedOut (Knows node J.opening self.now.seat) t }
        ensures some { IfSome result (λ change. IsNewest self.now.part t change) }
        ensures none { IfNone result (changes_left self.now.part.events t ≡ []) }
    {
        self.seat.lawful();
        self.live.newest(&t)
    }

    /// The block of a change.
    fn home_of(&self, change: &Change) -> BlockNo
        requires { volume_of self.now.part.config change.now.file ≡ self.now.part.number }
        ensures file { result.file ≡ change.now.file }
        ensures number { result.number ≡ home_of_change self.now.part change.now }
        ensures within { result.number < label_blocks self.now.blocks.label.files result.file }
    {
        BlockNo {
            file: change.file,
            number: place_of(&change.key, blocks_of(self.config, change.file)),
        }
    }

    /// Says of a volume whose block cannot take a change back that it told no values at the opening, and that the block was right when its device was handed
    /// in. It does nothing.
    fn lawful_back(&self, t: Transid, n: BlockNo, change: &Change)
        requires newest { IsNewest self.now.part t change.now }
        requires file { n.file ≡ change.now.file }
        requires number { n.number ≡ home_of_change self.now.part change.now }
        requires cached { InCache self.now.blocks.cache n.file n.number (λ f. takes_back f.block change.now.before (value_at f.block change.now.key) ≡ false) }
        ensures baseless { self.now.part.base ≡ None }
        ensures right { WasRight D.Disk self.now.handed_in (home_of self.now.blocks change.now.file (home_of_change self.now.part change.now)) }
    {
        let _ = (t, self.blocks.get(n).get(&change.key));
    }

    /// Takes a change back in its block, which is in the cache.
    fn take_back(&mut self, t: Transid, n: BlockNo, change: &Change) -> Result<(), UndoRefused>
        requires newest { IsNewest self.old.part t change.now }
        requires file { n.file ≡ change.now.file }
        requires number { n.number ≡ home_of_change self.old.part change.now }
        requires cached { InCache self.old.blocks.cache n.file n.number (λ f. ⊤) }
        requires decided { IsBackedOut (Knows node J.opening self.old.seat) t }
        requires valid { is_transid t ≡ true }
        ensures taken { HasTakenBack D.Disk self.old self.new t change.now result }
        ensures later_seat { IsLaterSeat self.old.seat self.new.seat }
        ensures device { D.faults self.new.blocks.device ≡ D.faults self.old.blocks.device }
    {
        let before = self.blocks.get(n).get(&change.key);
        if !takes_back(self.blocks.get(n), change, &before) {
            self.lawful_back(t, n, change);
            return Err(UndoRefused::Damaged(self.device(), crowded(n)));
        }
        self.put_back(t, n, change, before)?;
        Ok(())
    }

    /// Puts the earlier value back, which its block can take.
    fn put_back(
        &mut self,
        t: Transid,
        n: BlockNo,
        change: &Change,
        before: Option<Value>,
    ) -> Result<(), NoMemory>
        requires newest { IsNewest self.old.part t change.now }
        requires file { n.file ≡ change.now.file }
        requires number { n.number ≡ home_of_change self.old.part change.now }
        requires cached { InCache self.old.blocks.cache n.file n.number (λ f. (value_at f.block change.now.key ≡ before) × (takes_back f.block change.now.before before ≡ true)) }
        requires decided { IsBackedOut (Knows node J.opening self.old.seat) t }
        requires valid { is_transid t ≡ true }
        ensures undone { OnOk result ((block : KeyedBlock) × HasPutBack self.old self.new t change.now block) }
        ensures unchanged { OnErr result (self.new ≡ self.old) }
        ensures later_seat { IsLaterSeat self.old.seat self.new.seat }
        ensures device { D.faults self.new.blocks.device ≡ D.faults self.old.blocks.device }
    {
        if self.pending.reserve(1).is_err() {
            return Err(NoMemory);
        }
        let item = undo_record(self.volume, t, change, self.next, before);
        let event = undo_event(&item);
        self.chronicle.append(&mut self.seat, &event);
        self.blocks.set(n, &change.key, change.before, self.next);
        self.live.take_back(&t, self.next);
        self.pending.push_reserved(item);
        self.next += 1;
        Ok(())
    }

    /// Undoes each change that is left of a transaction here that was backed out, and then frees what it holds. A second call changes nothing, nor does
    /// one for a transaction that never came here. The transaction's seat has then seen its release here, if it has come here.
    pub fn release_undone<R: Wait>(
        &mut self,
        rt: &R,
        tx: &mut Ended<'a, J>,
        trails: &[AuditWriter<'a, D, J>],
    ) -> Result<(), UndoRefused>
        requires backed_out { tx.old.place ≡ None }
        requires trails { AreTrails self.old.part.config trails.now }
        requires valid { is_transid tx.old.txn.tx ≡ true }
        ensures released { IsReleaseAnswer D.Disk J.opening self.old self.new tx.old.txn.tx result }
        ensures disc { IsLaterDisc J.opening self.old self.new }
        ensures txn { HasStepped J.opening tx.old.txn [] tx.new.txn }
        ensures place { tx.new.place ≡ tx.old.place }
        ensures seen { tx.new.txn.seat.seen ≡ self.new.seat.seen }
        ensures own { OnOk result (IsReleaseSeen self.old.part tx.old.txn tx.new.txn) }
        ensures later { D.faults self.old.blocks.device ≤ D.faults self.new.blocks.device }
    {
        self.lawful();
        let answer = self.release_undone_step(rt, tx, trails);
        self.lawful();
        answer
    }

    /// The same, without the frame of the disc.
    fn release_undone_step<R: Wait>(
        &mut self,
        rt: &R,
        tx: &mut Ended<'a, J>,
        trails: &[AuditWriter<'a, D, J>],
    ) -> Result<(), UndoRefused>
        requires backed_out { tx.old.place ≡ None }
        requires trails { AreTrails self.old.part.config trails.now }
        requires valid { is_transid tx.old.txn.tx ≡ true }
        ensures released { IsReleaseAnswer D.Disk J.opening self.old self.new tx.old.txn.tx result }
        ensures txn { HasStepped J.opening tx.old.txn [] tx.new.txn }
        ensures place { tx.new.place ≡ tx.old.place }
        ensures seen { tx.new.txn.seat.seen ≡ self.new.seat.seen }
        ensures later_seat { IsLaterSeat self.old.seat self.new.seat }
        ensures later { D.faults self.old.blocks.device ≤ D.faults self.new.blocks.device }
    {
        let t = tx.tx();
        tx.meet(&mut self.seat);
        let answer = self.undo_and_free(rt, t, trails);
        tx.meet(&mut self.seat);
        answer
    }

    /// Undoes what is left of a transaction that is to be backed out, as the disc's seat knows, and frees what it holds.
    #[tactic(auto, using(crate::proofs::Seats::seat_then, crate::proofs::Seats::seat_same))]
    fn undo_and_free<R: Wait>(
        &mut self,
        rt: &R,
        t: Transid,
        trails: &[AuditWriter<'a, D, J>],
    ) -> Result<(), UndoRefused>
        requires trails { AreTrails self.old.part.config trails.now }
        requires valid { is_transid t ≡ true }
        requires decided { IsBackedOut (Knows node J.opening self.old.seat) t }
        ensures released { IsReleaseAnswer D.Disk J.opening self.old self.new t result }
        ensures later_seat { IsLaterSeat self.old.seat self.new.seat }
        ensures later { D.faults self.old.blocks.device ≤ D.faults self.new.blocks.device }
    {
        self.undo_rest(rt, t, trails)?;
        self.free_undone(t);
        Ok(())
    }

    /// Undoes what is left of a transaction that is to be backed out, as the disc's seat knows.
    fn undo_rest<R: Wait>(
        &mut self,
        rt: &R,
        t: Transid,
        trails: &[AuditWriter<'a, D, J>],
    ) -> Result<(), UndoRefused>
        requires trails { AreTrails self.old.part.config trails.now }
        requires valid { is_transid t ≡ true }
        requires decided { IsBackedOut (Knows node J.opening self.old.seat) t }
        ensures undone { IsRestAnswer D.Disk J.opening self.old self.new t result }
        ensures disc { IsLaterDisc J.opening self.old self.new }
        ensures later { D.faults self.old.blocks.device ≤ D.faults self.new.blocks.device }
    {
        while self.newest_change(t).is_some() {
            self.undo_next(rt, t, trails)?;
        }
        Ok(())
    }

    /// Undoes the newest change, with the frame of the disc.
    fn undo_next<R: Wait>(
        &mut self,
        rt: &R,
        t: Transid,
        trails: &[AuditWriter<'a, D, J>],
    ) -> Result<bool, UndoRefused>
        requires trails { AreTrails self.old.part.config trails.now }
        requires valid { is_transid t ≡ true }
        requires decided { IsBackedOut (Knows node J.opening self.old.seat) t }
        ensures undone { IsUndoAnswer D.Disk self.old self.new t result }
        ensures disc { IsLaterDisc J.opening self.old self.new }
        ensures later { D.faults self.old.blocks.device ≤ D.faults self.new.blocks.device }
    {
        self.lawful();
        let answer = self.undo(rt, t, trails);
        self.lawful();
        answer
    }

    /// Frees what a transaction holds here, of which nothing is left.
    fn free_undone(&mut self, t: Transid)
        requires decided { IsBackedOut (Knows node J.opening self.old.seat) t }
        requires none { changes_left self.old.part.events t ≡ [] }
        ensures { HasFreed self.old self.new t }
    {
        if !self.live.has_come(&t) {
            return;
        }
        self.free(t);
    }
}
