//! Bringing a block into the cache, behind the draws that make room for it.
ghost use Rattle.std.specs.Prelude.{◌≡◌, ◌<◌, ◌≤◌, ◌+◌, ◌-◌, ◌++◌, ◌∷◌, [], Some, None, Ok, Err, IfErr, OnOk, OnErr, ⊤, true, false};
ghost use Rattle.chronicle.specs.Seats.{own_events};
ghost use Rattle.node_machine.specs.declared.event.Event.TheVariants.{OfDisc};
ghost use Rattle.node_machine.specs.declared.event.DiscEvent.TheVariants as did;
ghost use Rattle.node_machine.specs.declared.event.By.{By};
ghost use Rattle.block_cache.specs.Blocks.{IfCached, InCache};
ghost use Rattle.block_cache.specs.Cache.{is_dirty};
ghost use Rattle.block_cache.specs.Damage.{BlockCause, Tells};
ghost use Rattle.keyed_file.specs.Volume.{blocks_of as label_blocks};
ghost use Rattle.disc_process.specs.Blocks.{BringsIn, SameCached};
ghost use Rattle.disc_process.specs.Draw.{HasDrawn, HasMadeRoom, HasRoom, HasSoughtRoom, HasWay, IsDrawRefusal, SameWork};
ghost use Rattle.disc_process.specs.Write.{HasBadBlock, IsUnread};
ghost use Rattle.disc_process.specs.Device.{IsUntold, device_of};
ghost use Rattle.disc_process.specs.Disc.{AreTrails};
ghost use Rattle.disc_process.specs.Seats.{IsLaterSeat};

use crate::disc::DiscState;
use crate::refused::WriteRefused;
use audit_writer::{AuditWriter, DeviceRun, FlushRefused};
use block_cache::{BlockFault, BlockNo};
use disk_model::Disk;
use node_machine::{By, DiscEvent};
use std::sync::Wait;
use tmf_model::Transid;
use trail_files::Damage;

impl<'a, D: Disk, J: DeviceRun<D>> DiscState<'a, D, J> {
    /// Notes that the volume has failed in a call for an attempt.
    fn note_failed(&mut self, t: Transid)
        requires { IsUntold (J.faults (device_of self.old.part.number)) (D.faults self.old.blocks.device) self.old.part.events }
        ensures events { own_events self.new.seat ≡ own_events self.old.seat ++ OfDisc (did.Failed (By.Attempt t)) ∷ [] }
        ensures number { self.new.part.number ≡ self.old.part.number }
        ensures blocks { self.new.blocks ≡ self.old.blocks }
        ensures later_seat { IsLaterSeat self.old.seat self.new.seat }
    {
        self.chronicle
            .append(&mut self.seat, &DiscEvent::Failed(By::Attempt(t)));
    }

    /// Draws the block that has to give way, where one has, before this one can be read.
    #[tactic(auto, using(crate::proofs::Seats::seat_then, crate::proofs::Seats::seat_same))]
    fn make_room<R: Wait>(
        &mut self,
        rt: &R,
        by: By,
        trails: &[AuditWriter<'a, D, J>],
        n: BlockNo,
    ) -> Result<(), FlushRefused>
        requires trails { AreTrails self.old.part.config trails.now }
        requires within { n.number < label_blocks self.old.blocks.label.files n.file }
        ensures way { OnOk result (HasWay self.old.blocks self.new.blocks n.file n.number) }
        ensures later_seat { IsLaterSeat self.old.seat self.new.seat }
        ensures drawn { OnOk result (HasDrawn self.old.seat self.new.seat × SameWork self.old.part self.new.part) }
        ensures made { OnOk result (HasMadeRoom self.old.blocks n.file n.number self.old.seat self.new.seat) }
        ensures sought { OnErr result (HasSoughtRoom by self.old.blocks n.file n.number self.old.seat self.new.seat) }
        ensures same { SameCached self.old.blocks self.new.blocks }
        ensures refused { IfErr result (IsDrawRefusal D.faults by self.old self.new) }
        ensures later { D.faults self.old.blocks.device ≤ D.faults self.new.blocks.device }
    {
        match self.blocks.crowded(n) {
            Some(other) => {
                let drawn = self.draw_block(rt, by, trails, other);
                self.blocks.always();
                drawn
            }
            None => Ok(()),
        }
    }

    /// Reads a block into the cache.
    fn load(&mut self, n: BlockNo) -> Result<(), BlockFault>
        requires within { n.number < label_blocks self.old.blocks.label.files n.file }
        requires room { HasRoom self.old.blocks n.file n.number }
        ensures part { self.new.part ≡ self.old.part }
        ensures seat { self.new.seat ≡ self.old.seat }
        ensures label { self.new.blocks.label ≡ self.old.blocks.label }
        ensures cached { OnOk result (InCache self.new.blocks.cache n.file n.number (λ f. ⊤)) }
        ensures brings { BringsIn self.old.blocks self.new.blocks n.file n.number }
        ensures cause { IfErr result (BlockCause (D.faults self.old.blocks.device) (D.faults self.new.blocks.device)) }
        ensures untold { IfErr result (λ e. e ≡ BlockFault.Failed → IsUntold (J.faults (device_of self.new.part.number)) (D.faults self.new.blocks.device) self.new.part.events) }
        ensures damage { IfErr result (λ e. IfCached self.new.blocks.cache n.file n.number (λ f. is_dirty f ≡ false) → Tells (HasBadBlock D.Disk self.new n.file n.number) e) }
        ensures cache { OnErr result (self.new.blocks.cache ≡ self.old.blocks.cache) }
        ensures later { D.faults self.old.blocks.device ≤ D.faults self.new.blocks.device }
    {
        self.blocks.always();
        let loaded = self.blocks.load(n);
        self.blocks.always();
        loaded
    }

    /// Whether a block is to be drawn, or its draw is to be ended. It is then in the cache.
    fn is_to_draw(&self, n: BlockNo) -> bool
        requires { n.number < label_blocks self.now.blocks.label.files n.file }
        ensures there { result ≡ true → InCache self.now.blocks.cache n.file n.number (λ f. ⊤) }
        ensures rests { result ≡ false → IfCached self.now.blocks.cache n.file n.number (λ f. is_dirty f ≡ false) }
    {
        self.blocks.is_changed(n) || self.blocks.half_drawn(n)
    }

    /// Brings a step's block into the cache.
    #[tactic(auto, using(crate::proofs::Seats::seat_then, crate::proofs::Seats::seat_same))]
    pub(crate) fn bring<R: Wait>(
        &mut self,
        rt: &R,
        t: Transid,
        trails: &[AuditWriter<'a, D, J>],
        n: BlockNo,
    ) -> Result<(), WriteRefused>
        requires trails { AreTrails self.old.part.config trails.now }
        requires within { n.number < label_blocks self.old.blocks.label.files n.file }
        ensures cached { OnOk result (InCache self.new.blocks.cache n.file n.number (λ f. ⊤)) }
        ensures brings { BringsIn self.old.blocks self.new.blocks n.file n.number }
        ensures drawn { OnOk result (HasDrawn self.old.seat self.new.seat × SameWork self.old.part self.new.part) }
        ensures made { OnOk result (HasMadeRoom self.old.blocks n.file n.number self.old.seat self.new.seat) }
        ensures refused { IfErr result (IsUnread D.Disk t n.file n.number self.old self.new) }
        ensures later { D.faults self.old.blocks.device ≤ D.faults self.new.blocks.device }
        ensures later_seat { IsLaterSeat self.old.seat self.new.seat }
    {
        self.make_room(rt, By::Attempt(t), trails, n)?;
        match self.load(n) {
            Ok(()) => Ok(()),
            Err(BlockFault::NoMemory) => Err(WriteRefused::NoMemory),
            Err(BlockFault::Damaged(damage)) => self.damaged(n, damage),
            Err(BlockFault::Failed) => {
                self.note_failed(t);
                Err(WriteRefused::Failed(self.device()))
            }
        }
    }

    /// What a block that was not read is refused with. One that is to be drawn is in the cache already.
    fn damaged(&self, n: BlockNo, damage: Damage) -> Result<(), WriteRefused>
        requires within { n.number < label_blocks self.now.blocks.label.files n.file }
        requires bad { IfCached self.now.blocks.cache n.file n.number (λ f. is_dirty f ≡ false) → HasBadBlock D.Disk self.now n.file n.number damage }
        ensures cached { OnOk result (InCache self.now.blocks.cache n.file n.number (λ f. ⊤)) }
        ensures refused { IfErr result (λ e. (e ≡ WriteRefused.Damaged (4 + self.now.part.number) damage) × HasBadBlock D.Disk self.now n.file n.number damage) }
    {
        if self.is_to_draw(n) {
            return Ok(());
        }
        Err(WriteRefused::Damaged(self.device(), damage))
    }
}
