//! The undo of changes at a disc whose lock is held.
ghost use Rattle.std.specs.Prelude.{◌≡◌, ◌≤◌, [], true};
ghost use Rattle.tmf_model.specs.Transid.{is_transid};
ghost use Rattle.txn_states.specs.Txn.{HasStepped};
ghost use Rattle.disc_process.specs.Disc.{AreTrails};
ghost use Rattle.disc_process.specs.Later.{IsLaterDisc};
ghost use Rattle.disc_process.specs.Undo.{IsUndoAnswer};
ghost use Rattle.disc_lock.specs.Locks.{held_disc};

use crate::guard::DiscGuard;
use crate::numbered::DiscAt;
use audit_writer::{AuditWriter, DeviceRun};
use disc_process::UndoRefused;
use disk_model::Disk;
use std::sync::Wait;
use txn_states::Aborting;

impl<'a, D: Disk, J: DeviceRun<D>> DiscAt<'a, D, J> {
    /// Undoes the newest change of a transaction here that is not undone, and answers whether there was one.
    pub fn undo_one<R: Wait>(
        &mut self,
        rt: &R,
        tx: &mut Aborting<'a, J>,
        trails: &[AuditWriter<'a, D, J>],
    ) -> Result<bool, UndoRefused>
        requires trails { AreTrails self.old.state.part.config trails.now }
        requires valid { is_transid tx.old.tx ≡ true }
        ensures undone { IsUndoAnswer D.Disk self.old.state self.new.state tx.old.tx result }
        ensures disc { IsLaterDisc J.opening self.old.state self.new.state }
        ensures txn { HasStepped J.opening tx.old [] tx.new }
        ensures seen { tx.new.seat.seen ≡ self.new.state.seat.seen }
        ensures later { D.faults self.old.state.blocks.device ≤ D.faults self.new.state.blocks.device }
    {
        self.state.undo_one(rt, tx, trails)
    }
}

impl<'g, 'a, D: Disk, J: DeviceRun<D>> DiscGuard<'g, 'a, D, J> {
    /// Undoes the newest change of a transaction here that is not undone, and answers whether there was one.
    pub fn undo_one<R: Wait>(
        &mut self,
        rt: &R,
        tx: &mut Aborting<'a, J>,
        trails: &[AuditWriter<'a, D, J>],
    ) -> Result<bool, UndoRefused>
        requires trails { AreTrails (held_disc self.old).part.config trails.now }
        requires valid { is_transid tx.old.tx ≡ true }
        ensures undone { IsUndoAnswer D.Disk (held_disc self.old) (held_disc self.new) tx.old.tx result }
        ensures disc { IsLaterDisc J.opening (held_disc self.old) (held_disc self.new) }
        ensures txn { HasStepped J.opening tx.old [] tx.new }
        ensures seen { tx.new.seat.seen ≡ (held_disc self.new).seat.seen }
        ensures later { D.faults (held_disc self.old).blocks.device ≤ D.faults (held_disc self.new).blocks.device }
    {
        self.disc.undo_one(rt, tx, trails)
    }
}
