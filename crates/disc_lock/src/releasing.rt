//! The release of a transaction at a disc whose lock is held.
ghost use Rattle.std.specs.Prelude.{◌≡◌, ◌≤◌, [], IsSome, None, OnOk, true};
ghost use Rattle.tmf_model.specs.Transid.{is_transid};
ghost use Rattle.txn_states.specs.Txn.{HasStepped};
ghost use Rattle.disc_process.specs.Disc.{AreTrails};
ghost use Rattle.disc_process.specs.Later.{IsLaterDisc};
ghost use Rattle.disc_process.specs.Release.{HasFreed, IsReleaseSeen};
ghost use Rattle.disc_process.specs.Undo.{IsReleaseAnswer};
ghost use Rattle.disc_lock.specs.Locks.{held_disc};

use crate::guard::DiscGuard;
use crate::numbered::DiscAt;
use audit_writer::{AuditWriter, DeviceRun};
use disc_process::UndoRefused;
use disk_model::Disk;
use std::sync::Wait;
use txn_states::Ended;

impl<'a, D: Disk, J: DeviceRun<D>> DiscAt<'a, D, J> {
    /// Frees what a committed transaction holds here. A second call changes nothing.
    pub fn release(&mut self, tx: &mut Ended<'a, J>)
        requires { IsSome tx.old.place }
        ensures freed { HasFreed self.old.state self.new.state tx.old.txn.tx }
        ensures disc { IsLaterDisc J.opening self.old.state self.new.state }
        ensures txn { HasStepped J.opening tx.old.txn [] tx.new.txn }
        ensures place { tx.new.place ≡ tx.old.place }
        ensures seen { tx.new.txn.seat.seen ≡ self.new.state.seat.seen }
        ensures own { IsReleaseSeen self.old.state.part tx.old.txn tx.new.txn }
    {
        self.state.release(tx);
    }

    /// Undoes what is left of a transaction that is backed out, and frees what it holds here.
    pub fn release_undone<R: Wait>(
        &mut self,
        rt: &R,
        tx: &mut Ended<'a, J>,
        trails: &[AuditWriter<'a, D, J>],
    ) -> Result<(), UndoRefused>
        requires backed_out { tx.old.place ≡ None }
        requires trails { AreTrails self.old.state.part.config trails.now }
        requires valid { is_transid tx.old.txn.tx ≡ true }
        ensures released { IsReleaseAnswer D.Disk J.opening self.old.state self.new.state tx.old.txn.tx result }
        ensures disc { IsLaterDisc J.opening self.old.state self.new.state }
        ensures txn { HasStepped J.opening tx.old.txn [] tx.new.txn }
        ensures place { tx.new.place ≡ tx.old.place }
        ensures seen { tx.new.txn.seat.seen ≡ self.new.state.seat.seen }
        ensures own { OnOk result (IsReleaseSeen self.old.state.part tx.old.txn tx.new.txn) }
        ensures later { D.faults self.old.state.blocks.device ≤ D.faults self.new.state.blocks.device }
    {
        self.state.release_undone(rt, tx, trails)
    }
}

impl<'g, 'a, D: Disk, J: DeviceRun<D>> DiscGuard<'g, 'a, D, J> {
    /// Frees what a committed transaction holds here. A second call changes nothing.
    pub fn release(&mut self, tx: &mut Ended<'a, J>)
        requires { IsSome tx.old.place }
        ensures freed { HasFreed (held_disc self.old) (held_disc self.new) tx.old.txn.tx }
        ensures disc { IsLaterDisc J.opening (held_disc self.old) (held_disc self.new) }
        ensures txn { HasStepped J.opening tx.old.txn [] tx.new.txn }
        ensures place { tx.new.place ≡ tx.old.place }
        ensures seen { tx.new.txn.seat.seen ≡ (held_disc self.new).seat.seen }
        ensures own { IsReleaseSeen (held_disc self.old).part tx.old.txn tx.new.txn }
    {
        self.disc.release(tx);
    }

    /// Undoes what is left of a transaction that is backed out, and frees what it holds here.
    pub fn release_undone<R: Wait>(
        &mut self,
        rt: &R,
        tx: &mut Ended<'a, J>,
        trails: &[AuditWriter<'a, D, J>],
    ) -> Result<(), UndoRefused>
        requires backed_out { tx.old.place ≡ None }
        requires trails { AreTrails (held_disc self.old).part.config trails.now }
        requires valid { is_transid tx.old.txn.tx ≡ true }
        ensures released { IsReleaseAnswer D.Disk J.opening (held_disc self.old) (held_disc self.new) tx.old.txn.tx result }
        ensures disc { IsLaterDisc J.opening (held_disc self.old) (held_disc self.new) }
        ensures txn { HasStepped J.opening tx.old.txn [] tx.new.txn }
        ensures place { tx.new.place ≡ tx.old.place }
        ensures seen { tx.new.txn.seat.seen ≡ (held_disc self.new).seat.seen }
        ensures own { OnOk result (IsReleaseSeen (held_disc self.old).part tx.old.txn tx.new.txn) }
        ensures later { D.faults (held_disc self.old).blocks.device ≤ D.faults (held_disc self.new).blocks.device }
    {
        self.disc.release_undone(rt, tx, trails)
    }
}
