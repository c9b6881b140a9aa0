//! Landing a disc's audit, and drawing its blocks behind it.
ghost use Rattle.std.specs.Prelude.{◌≡◌, ◌<◌, ◌≤◌, ◌+◌, ◌-◌, ◌++◌, ◌∷◌, [], ℕ, IfErr, IfSome, IfNone, OnOk, OnErr, true, false};
ghost use Rattle.chronicle.specs.Seats.{HasLearned, Knows, own_events};
ghost use Rattle.node_machine.specs.declared.event.Event.TheVariants.{OfDisc};
ghost use Rattle.node_machine.specs.declared.event.DiscEvent.TheVariants as did;
ghost use Rattle.node_machine.specs.Made.{blocks_of, next_position, volume_of};
ghost use Rattle.node_machine.specs.Trail.{trail_of};
ghost use Rattle.node_machine.specs.declared.event.By.{By};
ghost use Rattle.disc_process.specs.Blocks.{HasMarked, IsHeldUp, KeepsContents, begun_in, ended_in, half_in, position_in};
ghost use Rattle.audit_writer.specs.declared.lock.FlushRefused.TheVariants as refusal;
ghost use Rattle.audit_writer.specs.Locked.{HasFailed as HasTrailFailed};
ghost use Rattle.block_cache.specs.Blocks.{InCache};
ghost use Rattle.block_cache.specs.Cache.{entry_at, is_settled};
ghost use Rattle.disk_model.specs.Held.{HasCause};
ghost use Rattle.block_cache.specs.declared.pair.PairPhase.{PairPhase};
ghost use Rattle.keyed_file.specs.Volume.{blocks_of as label_blocks};
ghost use Rattle.node_machine.specs.Node.{node};
ghost use Rattle.node_machine.specs.Parts.Fact.{Durable};
ghost use Rattle.disc_process.specs.Draw.{HasBegun, HasDrawnBlock, HasOnlySeen, IsClean, IsDrawRefusal, IsFirstDirty, IsStopped, KeepsDraw, SameWork, drawings, endings};
ghost use Rattle.disc_process.specs.Device.{IsUntold, device_of};
ghost use Rattle.disc_process.specs.Disc.{AreTrails};
ghost use Rattle.disc_process.specs.Later.{IsLaterDisc};
ghost use Rattle.disc_process.specs.Seats.{IsLaterSeat};

use crate::disc::{DiscState, trail_of, writer_of};
use audit_writer::{AuditWriter, DeviceRun, FlushRefused};
use block_cache::BlockNo;
use disk_model::{Disk, DiskFault};
use node_machine::{By, DiscEvent};
use std::sync::Wait;

impl<'a, D: Disk, J: DeviceRun<D>> DiscState<'a, D, J> {
    /// Lands all audit of this disc.
    pub(crate) fn land<R: Wait>(
        &mut self,
        rt: &R,
        by: By,
        trails: &[AuditWriter<'a, D, J>],
    ) -> Result<(), FlushRefused>
        requires { AreTrails self.old.part.config trails.now }
        ensures idle { HasOnlySeen self.old self.new }
        ensures learned { HasLearned node J.opening self.old.seat self.new.seat }
        ensures durable { OnOk result (Knows node J.opening self.new.seat (Durable self.new.part.number (next_position self.new.part - 1))) }
        ensures refused { IfErr result (HasTrailFailed (trail_of self.old.part.config self.old.part.number) by self.old.seat self.new.seat) }
    {
        let writer = writer_of(trails, self.config, trail_of(self.config, self.volume));
        let landed = writer.flush(rt, &mut self.seat, by, self.pending.as_slice());
        self.seat.lawful();
        if landed.is_err() {
            return landed;
        }
        self.pending.clear();
        Ok(())
    }

    /// Notes that the volume has failed in a call.
    pub(crate) fn note_failure(&mut self, by: By) -> FlushRefused
        requires { IsUntold (J.faults (device_of self.old.part.number)) (D.faults self.old.blocks.device) self.old.part.events }
        ensures events { own_events self.new.seat ≡ own_events self.old.seat ++ OfDisc (did.Failed by) ∷ [] }
        ensures config { self.new.part.config ≡ self.old.part.config }
        ensures number { self.new.part.number ≡ self.old.part.number }
        ensures work { SameWork self.old.part self.new.part }
        ensures blocks { self.new.blocks ≡ self.old.blocks }
        ensures later_seat { IsLaterSeat self.old.seat self.new.seat }
        ensures device { result ≡ refusal.Failed (4 + self.old.part.number) }
    {
        self.chronicle
            .append(&mut self.seat, &DiscEvent::Failed(by));
        FlushRefused::Failed(self.device())
    }

    /// Writes the body of a block that is to be drawn.
    fn draw_body(&mut self, n: BlockNo) -> Result<(), DiskFault>
        requires within { n.number < label_blocks self.old.blocks.label.files n.file }
        requires dirty { InCache self.old.blocks.cache n.file n.number (λ f. (f.dirty ≡ true) × (f.phase ≡ PairPhase.Settled)) }
        requires durable { Knows node J.opening self.old.seat (Durable self.old.part.number (next_position self.old.part - 1)) }
        ensures events { OnOk result (own_events self.new.seat ≡ own_events self.old.seat
            ++ OfDisc (did.Draw n.file n.number (position_in (entry_at self.old.blocks.cache n.file n.number))) ∷ []) }
        ensures entry { OnOk result (HasMarked self.old.blocks self.new.blocks n.file n.number begun_in) }
        ensures cache { OnErr result (self.new.blocks.cache ≡ self.old.blocks.cache) }
        ensures frame { KeepsDraw self.old self.new n.file n.number }
        ensures seat { OnErr result (self.new.seat ≡ self.old.seat) }
        ensures cause { HasCause (D.faults self.old.blocks.device) (D.faults self.new.blocks.device) result }
        ensures untold { OnErr result (IsUntold (J.faults (device_of self.new.part.number)) (D.faults self.new.blocks.device) self.new.part.events) }
    {
        let position = self.blocks.get(n).position();
        self.blocks.draw_body(n)?;
        self.chronicle.append(&mut self.seat, &DiscEvent::Draw(n.file, n.number, position));
        Ok(())
    }

    /// Ends the draw of a block that is half done.
    fn draw_select(&mut self, n: BlockNo) -> Result<(), DiskFault>
        requires { InCache self.old.blocks.cache n.file n.number (λ f. is_settled f.phase ≡ false) }
        ensures events { OnOk result (own_events self.new.seat ≡ own_events self.old.seat ++ OfDisc (did.Drawn n.file n.number) ∷ []) }
        ensures entry { OnOk result (HasMarked self.old.blocks self.new.blocks n.file n.number ended_in) }
        ensures half { OnErr result (half_in (entry_at self.new.blocks.cache n.file n.number) ≡ true) }
        ensures frame { KeepsDraw self.old self.new n.file n.number }
        ensures seat { OnErr result (self.new.seat ≡ self.old.seat) }
        ensures cause { HasCause (D.faults self.old.blocks.device) (D.faults self.new.blocks.device) result }
        ensures untold { OnErr result (IsUntold (J.faults (device_of self.new.part.number)) (D.faults self.new.blocks.device) self.new.part.events) }
    {
        self.blocks.draw_select(n)?;
        self.chronicle
            .append(&mut self.seat, &DiscEvent::Drawn(n.file, n.number));
        Ok(())
    }

    /// Draws a block whose draw is not half done, where it is to be drawn.
    #[tactic(auto, using(crate::proofs::Seats::seat_then, crate::proofs::Seats::seat_same))]
    fn draw_dirty<R: Wait>(
        &mut self,
        rt: &R,
        by: By,
        trails: &[AuditWriter<'a, D, J>],
        n: BlockNo,
    ) -> Result<(), FlushRefused>
        requires trails { AreTrails self.old.part.config trails.now }
        requires within { n.number < label_blocks self.old.blocks.label.files n.file }
        requires whole { half_in (entry_at self.old.blocks.cache n.file n.number) ≡ false }
        ensures clean { OnOk result (IsClean self.new.blocks n.file n.number) }
        ensures events { OnOk result (own_events self.new.seat ≡ own_events self.old.seat
            ++ drawings n.file n.number (entry_at self.old.blocks.cache n.file n.number)) }
        ensures begun { OnErr result (HasBegun by (drawings n.file n.number (entry_at self.old.blocks.cache n.file n.number)) self.old.seat self.new.seat) }
        ensures held_up { OnErr result (IsHeldUp (entry_at self.old.blocks.cache n.file n.number) (entry_at self.new.blocks.cache n.file n.number)) }
        ensures frame { KeepsDraw self.old self.new n.file n.number }
        ensures refused { IfErr result (IsDrawRefusal D.faults by self.old self.new) }
        ensures later { D.faults self.old.blocks.device ≤ D.faults self.new.blocks.device }
    {
        if !self.blocks.is_changed(n) {
            return Ok(());
        }
        self.land(rt, by, trails)?;
        if self.draw_body(n).is_err() {
            return Err(self.note_failure(by));
        }
        if self.draw_select(n).is_err() {
            return Err(self.note_failure(by));
        }
        Ok(())
    }

    /// Draws a block, where it is to be drawn or its draw is half done. It reads no block.
    pub fn draw<R: Wait>(
        &mut self,
        rt: &R,
        by: By,
        trails: &[AuditWriter<'a, D, J>],
        n: BlockNo,
    ) -> Result<(), FlushRefused>
        requires trails { AreTrails self.old.part.config trails.now }
        requires here { volume_of self.old.part.config n.file ≡ self.old.part.number }
        requires within { n.number < blocks_of self.old.part.config n.file }
        ensures drawn { OnOk result (HasDrawnBlock self.old self.new n.file n.number) }
        ensures begun { OnErr result (HasBegun by (endings n.file n.number (entry_at self.old.blocks.cache n.file n.number)
            ++ drawings n.file n.number (entry_at self.old.blocks.cache n.file n.number)) self.old.seat self.new.seat) }
        ensures stopped { OnErr result (IsStopped (entry_at self.old.blocks.cache n.file n.number) (entry_at self.new.blocks.cache n.file n.number)) }
        ensures refused { IfErr result (IsDrawRefusal D.faults by self.old self.new) }
        ensures work { SameWork self.old.part self.new.part }
        ensures contents { KeepsContents self.old.blocks self.new.blocks n.file n.number }
        ensures disc { IsLaterDisc J.opening self.old self.new }
        ensures later { D.faults self.old.blocks.device ≤ D.faults self.new.blocks.device }
    {
        self.lawful();
        let drawn = self.draw_block(rt, by, trails, n);
        self.lawful();
        drawn
    }

    /// The same of a block that the label has, without the frame of the disc.
    #[tactic(auto, using(crate::proofs::Seats::seat_then, crate::proofs::Seats::seat_same))]
    pub(crate) fn draw_block<R: Wait>(
        &mut self,
        rt: &R,
        by: By,
        trails: &[AuditWriter<'a, D, J>],
        n: BlockNo,
    ) -> Result<(), FlushRefused>
        requires trails { AreTrails self.old.part.config trails.now }
        requires within { n.number < label_blocks self.old.blocks.label.files n.file }
        ensures clean { OnOk result (IsClean self.new.blocks n.file n.number) }
        ensures events { OnOk result (own_events self.new.seat ≡ own_events self.old.seat
            ++ (endings n.file n.number (entry_at self.old.blocks.cache n.file n.number)
            ++ drawings n.file n.number (entry_at self.old.blocks.cache n.file n.number))) }
        ensures begun { OnErr result (HasBegun by (endings n.file n.number (entry_at self.old.blocks.cache n.file n.number)
            ++ drawings n.file n.number (entry_at self.old.blocks.cache n.file n.number)) self.old.seat self.new.seat) }
        ensures stopped { OnErr result (IsStopped (entry_at self.old.blocks.cache n.file n.number) (entry_at self.new.blocks.cache n.file n.number)) }
        ensures refused { IfErr result (IsDrawRefusal D.faults by self.old self.new) }
        ensures frame { KeepsDraw self.old self.new n.file n.number }
        ensures later { D.faults self.old.blocks.device ≤ D.faults self.new.blocks.device }
    {
        if !self.blocks.half_drawn(n) {
            return self.draw_dirty(rt, by, trails, n);
        }
        if self.draw_select(n).is_err() {
            return Err(self.note_failure(by));
        }
        self.draw_dirty(rt, by, trails, n)
    }

    /// The first block, by files and then by numbers, that is to be drawn, or whose draw is to be ended.
    pub fn dirty(&self) -> Option<BlockNo>
        ensures some { IfSome result (λ n. IsFirstDirty self.now n.file n.number) }
        ensures none { IfNone result ((f n : ℕ) → n < 256 → IsClean self.now.blocks f n) }
    {
        self.blocks.dirty()
    }
}
