//! The audit of a disc whose lock is held, and its blocks behind it.
ghost use Rattle.std.specs.Prelude.{◌≡◌, ◌<◌, ◌≤◌, ◌-◌, ℕ, IfSome, IfNone, IfOk, IfErr, OnOk, OnErr};
ghost use Rattle.chronicle.specs.Seats.{Knows};
ghost use Rattle.node_machine.specs.Made.{blocks_of, next_position, volume_of};
ghost use Rattle.node_machine.specs.Trail.{trail_of};
ghost use Rattle.node_machine.specs.Node.{node};
ghost use Rattle.node_machine.specs.Parts.Fact.{Durable};
ghost use Rattle.audit_writer.specs.Locked.{HasFailed as HasTrailFailed};
ghost use Rattle.block_cache.specs.Cache.{entry_at};
ghost use Rattle.disc_process.specs.Blocks.{KeepsContents};
ghost use Rattle.disc_process.specs.Disc.{AreTrails};
ghost use Rattle.disc_process.specs.Draw.{HasDrawnBlock, IsClean, IsDrawRefusal, IsFirstDirty, IsStopped, SameWork};
ghost use Rattle.disc_process.specs.Later.{HaveGrown, IsLaterDisc};
ghost use Rattle.disc_lock.specs.Locks.{held_disc};

use crate::guard::DiscGuard;
use crate::numbered::DiscAt;
use audit_writer::{AuditWriter, DeviceRun, FlushRefused};
use block_cache::BlockNo;
use chronicle::Seat;
use disk_model::Disk;
use node_machine::{By, NodeMachine};
use std::sync::Wait;

impl<'a, D: Disk, J: DeviceRun<D>> DiscAt<'a, D, J> {
    /// Lands all audit of the disc, and answers its next position. Landed or not, the disc's seat and the caller's have then seen the same.
    pub fn flush<R: Wait>(
        &mut self,
        rt: &R,
        by: By,
        caller: &mut Seat<NodeMachine, J>,
        trails: &[AuditWriter<'a, D, J>],
    ) -> Result<u64, FlushRefused>
        requires { AreTrails self.old.state.part.config trails.now }
        ensures part { self.new.state.part ≡ self.old.state.part }
        ensures blocks { self.new.state.blocks ≡ self.old.state.blocks }
        ensures next { IfOk result (λ next. next ≡ next_position self.new.state.part) }
        ensures durable { OnOk result (Knows node J.opening self.new.state.seat (Durable self.new.state.part.number (next_position self.new.state.part - 1))) }
        ensures shown { OnOk result (Knows node J.opening caller.new (Durable self.new.state.part.number (next_position self.new.state.part - 1))) }
        ensures seats { HaveGrown J.opening self.old.state.seat self.new.state.seat caller.old caller.new }
        ensures same { self.new.state.seat.seen ≡ caller.new.seen }
        ensures refused { IfErr result (HasTrailFailed (trail_of self.old.state.part.config self.old.state.part.number) by self.old.state.seat self.new.state.seat) }
        ensures told { IfErr result (HasTrailFailed (trail_of self.old.state.part.config self.old.state.part.number) by caller.old caller.new) }
    {
        self.state.flush(rt, by, caller, trails)
    }

    /// Draws one block, behind its audit. It reads no block.
    pub fn draw<R: Wait>(
        &mut self,
        rt: &R,
        by: By,
        trails: &[AuditWriter<'a, D, J>],
        n: BlockNo,
    ) -> Result<(), FlushRefused>
        requires trails { AreTrails self.old.state.part.config trails.now }
        requires here { volume_of self.old.state.part.config n.file ≡ self.old.state.part.number }
        requires within { n.number < blocks_of self.old.state.part.config n.file }
        ensures drawn { OnOk result (HasDrawnBlock self.old.state self.new.state n.file n.number) }
        ensures stopped { OnErr result (IsStopped (entry_at self.old.state.blocks.cache n.file n.number) (entry_at self.new.state.blocks.cache n.file n.number)) }
        ensures refused { IfErr result (IsDrawRefusal D.faults by self.old.state self.new.state) }
        ensures work { SameWork self.old.state.part self.new.state.part }
        ensures contents { KeepsContents self.old.state.blocks self.new.state.blocks n.file n.number }
        ensures disc { IsLaterDisc J.opening self.old.state self.new.state }
        ensures later { D.faults self.old.state.blocks.device ≤ D.faults self.new.state.blocks.device }
    {
        self.state.draw(rt, by, trails, n)
    }

    /// The first block, by files and then by numbers, that is to be drawn or whose draw is to be ended.
    pub fn dirty(&self) -> Option<BlockNo>
        ensures some { IfSome result (λ n. IsFirstDirty self.now.state n.file n.number) }
        ensures none { IfNone result ((f n : ℕ) → n < 256 → IsClean self.now.state.blocks f n) }
    {
        self.state.dirty()
    }
}

impl<'g, 'a, D: Disk, J: DeviceRun<D>> DiscGuard<'g, 'a, D, J> {
    /// Lands all audit of the disc, and answers its next position. Landed or not, the disc's seat and the caller's have then seen the same.
    pub fn flush<R: Wait>(
        &mut self,
        rt: &R,
        by: By,
        caller: &mut Seat<NodeMachine, J>,
        trails: &[AuditWriter<'a, D, J>],
    ) -> Result<u64, FlushRefused>
        requires { AreTrails (held_disc self.old).part.config trails.now }
        ensures part { (held_disc self.new).part ≡ (held_disc self.old).part }
        ensures blocks { (held_disc self.new).blocks ≡ (held_disc self.old).blocks }
        ensures next { IfOk result (λ next. next ≡ next_position (held_disc self.new).part) }
        ensures durable { OnOk result (Knows node J.opening (held_disc self.new).seat (Durable (held_disc self.new).part.number (next_position (held_disc self.new).part - 1))) }
        ensures shown { OnOk result (Knows node J.opening caller.new (Durable (held_disc self.new).part.number (next_position (held_disc self.new).part - 1))) }
        ensures seats { HaveGrown J.opening (held_disc self.old).seat (held_disc self.new).seat caller.old caller.new }
        ensures same { (held_disc self.new).seat.seen ≡ caller.new.seen }
        ensures refused { IfErr result (HasTrailFailed (trail_of (held_disc self.old).part.config (held_disc self.old).part.number) by (held_disc self.old).seat (held_disc self.new).seat) }
        ensures told { IfErr result (HasTrailFailed (trail_of (held_disc self.old).part.config (held_disc self.old).part.number) by caller.old caller.new) }
    {
        self.disc.flush(rt, by, caller, trails)
    }

    /// Draws one block, behind its audit. It reads no block.
    pub fn draw<R: Wait>(
        &mut self,
        rt: &R,
        by: By,
        trails: &[AuditWriter<'a, D, J>],
        n: BlockNo,
    ) -> Result<(), FlushRefused>
        requires trails { AreTrails (held_disc self.old).part.config trails.now }
        requires here { volume_of (held_disc self.old).part.config n.file ≡ (held_disc self.old).part.number }
        requires within { n.number < blocks_of (held_disc self.old).part.config n.file }
        ensures drawn { OnOk result (HasDrawnBlock (held_disc self.old) (held_disc self.new) n.file n.number) }
        ensures stopped { OnErr result (IsStopped (entry_at (held_disc self.old).blocks.cache n.file n.number) (entry_at (held_disc self.new).blocks.cache n.file n.number)) }
        ensures refused { IfErr result (IsDrawRefusal D.faults by (held_disc self.old) (held_disc self.new)) }
        ensures work { SameWork (held_disc self.old).part (held_disc self.new).part }
        ensures contents { KeepsContents (held_disc self.old).blocks (held_disc self.new).blocks n.file n.number }
        ensures disc { IsLaterDisc J.opening (held_disc self.old) (held_disc self.new) }
        ensures later { D.faults (held_disc self.old).blocks.device ≤ D.faults (held_disc self.new).blocks.device }
    {
        self.disc.draw(rt, by, trails, n)
    }

    /// The first block, by files and then by numbers, that is to be drawn or whose draw is to be ended.
    pub fn dirty(&self) -> Option<BlockNo>
        ensures some { IfSome result (λ n. IsFirstDirty (held_disc self.now) n.file n.number) }
        ensures none { IfNone result ((f n : ℕ) → n < 256 → IsClean (held_disc self.now).blocks f n) }
    {
        self.disc.dirty()
    }
}
