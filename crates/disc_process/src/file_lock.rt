//! Steps that lock a whole file: they read no block and make no audit.
ghost use Rattle.std.specs.Prelude.{◌≡◌, ◌⊎◌, ℕ, ◌≤◌, ◌++◌, ◌∷◌, [], List, Some, IfSome, IfNone, OnOk, OnErr};
ghost use mathlib.Core.List.{IsPrefix};
ghost use Rattle.chronicle.specs.Seats.{own_events};
ghost use Rattle.node_machine.specs.declared.event.Event.TheVariants.{OfDisc};
ghost use Rattle.node_machine.specs.declared.event.DiscEvent.TheVariants as did;
ghost use Rattle.node_machine.specs.declared.event.Cause.TheVariants as cause;
ghost use Rattle.node_machine.specs.Disc.{IsOther};
ghost use Rattle.node_machine.specs.Made.{file_holder, holder, volume_of};
ghost use Rattle.disc_process.specs.Disc.{AreTrails};
ghost use Rattle.disc_process.specs.FileLocks.{BlocksFile, IsFileFree};
ghost use Rattle.disc_process.specs.Later.{IsLaterTxn};
ghost use Rattle.disc_process.specs.Seats.{IsLaterSeat};
ghost use Rattle.disc_process.specs.Write.{IsEnlisted, IsLockAnswered, IsLockDone};

use crate::disc::DiscState;
use crate::refused::WriteRefused;
use audit_writer::{AuditWriter, DeviceRun};
use disk_model::Disk;
use node_machine::{Cause, DiscEvent};
use record_locks::NoMemory;
use std::sync::Wait;
use tmf_model::{Transid, Value};
use txn_states::Active;

impl<'a, D: Disk, J: DeviceRun<D>> DiscState<'a, D, J> {
    /// Another transaction that stands against this one's lock of the file.
    fn file_blocker(&self, tx: &Active<'a, J>, file: u8) -> Option<Transid>
        ensures busy { IfSome result (BlocksFile self.now.part tx.now.tx file) }
        ensures free { IfNone result (IsFileFree self.now.part tx.now.tx file) }
    {
        let t = tx.tx();
        self.locks.always();
        self.locks.file_blocker(file, t)
    }

    /// Notes that a step was turned away, since another transaction holds the file that it is to lock, or a key of it.
    fn turn_busy_file(&mut self, t: Transid, file: u8, other: Transid)
        requires here { volume_of self.old.part.config file ≡ self.old.part.number }
        requires other { IsOther other t }
        requires holds { (file_holder self.old.part.events file ≡ Some other) ⊎ ((key : List ℕ) × (holder self.old.part.events file key ≡ Some other)) }
        ensures events { own_events self.new.seat ≡ own_events self.old.seat ++ OfDisc (did.Turn t (cause.BusyFile file other)) ∷ [] }
        ensures blocks { self.new.blocks ≡ self.old.blocks }
        ensures later_seat { IsLaterSeat self.old.seat self.new.seat }
    {
        self.chronicle.append(
            &mut self.seat,
            &DiscEvent::Turn(t, Cause::BusyFile(file, other)),
        );
    }

    /// Locks the file for a transaction that nobody stands against.
    #[tactic(auto, using(crate::proofs::Drawn::prefix_then, crate::proofs::Drawn::prefix_same, crate::proofs::Seats::seat_then, crate::proofs::Seats::seat_same, crate::proofs::Later::same_txn))]
    fn hold_file(&mut self, tx: &mut Active<'a, J>, file: u8) -> Result<(), NoMemory>
        requires here { volume_of self.old.part.config file ≡ self.old.part.number }
        requires free { IsFileFree self.old.part tx.old.tx file }
        ensures events { OnOk result (own_events self.new.seat ≡ own_events self.old.seat ++ OfDisc (did.Lock tx.old.tx file) ∷ []) }
        ensures enlisted { OnOk result (IsEnlisted self.old.part.number tx.old tx.new) }
        ensures unchanged { OnErr result ((self.new ≡ self.old) × (tx.new ≡ tx.old)) }
        ensures txn { IsLaterTxn J.opening tx.old tx.new }
        ensures later_seat { IsLaterSeat self.old.seat self.new.seat }
        ensures behind { OnOk result (IsPrefix tx.new.seat.seen self.new.seat.seen) }
        ensures blocks { self.new.blocks ≡ self.old.blocks }
    {
        let t = tx.tx();
        self.live.reserve(t)?;
        if self.locks.take_file(file, t).is_err() {
            return Err(NoMemory);
        }
        tx.enlist_here(self.volume);
        tx.meet(&mut self.seat);
        self.chronicle
            .append(&mut self.seat, &DiscEvent::Lock(t, file));
        self.live.arrive(t);
        Ok(())
    }

    /// Locks the file for the transaction, or turns it away.
    #[tactic(auto, using(crate::proofs::Drawn::prefix_then, crate::proofs::Drawn::prefix_same, crate::proofs::Seats::seat_then, crate::proofs::Seats::seat_same, crate::proofs::Later::same_txn))]
    fn lock_file(&mut self, tx: &mut Active<'a, J>, file: u8) -> Result<Option<Value>, WriteRefused>
        requires here { volume_of self.old.part.config file ≡ self.old.part.number }
        requires behind { IsPrefix tx.old.seat.seen self.old.seat.seen }
        ensures done { IsLockDone self.old self.new tx.old tx.new file result }
        ensures txn { IsLaterTxn J.opening tx.old tx.new }
        ensures later_seat { IsLaterSeat self.old.seat self.new.seat }
        ensures behind { IsPrefix tx.new.seat.seen self.new.seat.seen }
        ensures blocks { self.new.blocks ≡ self.old.blocks }
    {
        if let Some(other) = self.file_blocker(tx, file) {
            self.turn_busy_file(tx.tx(), file, other);
            return Err(WriteRefused::Busy(other));
        }
        self.hold_file(tx, file)?;
        Ok(None)
    }

    /// Carries out a step that locks a file, or refuses it. What the worker's seat has seen the disc's has.
    #[tactic(auto, using(crate::proofs::Drawn::prefix_then, crate::proofs::Drawn::prefix_same, crate::proofs::Seats::seat_then, crate::proofs::Seats::seat_same, crate::proofs::Later::later_then, crate::proofs::Own::own_still))]
    pub(crate) fn attempt_file<R: Wait>(
        &mut self,
        rt: &R,
        tx: &mut Active<'a, J>,
        trails: &[AuditWriter<'a, D, J>],
        file: u8,
    ) -> Result<Option<Value>, WriteRefused>
        requires here { volume_of self.old.part.config file ≡ self.old.part.number }
        requires trails { AreTrails self.old.part.config trails.now }
        ensures answered { IsLockAnswered self.old self.new tx.old tx.new file result }
        ensures txn { IsLaterTxn J.opening tx.old tx.new }
        ensures later_seat { IsLaterSeat self.old.seat self.new.seat }
        ensures behind { IsPrefix tx.new.seat.seen self.new.seat.seen }
        ensures later { D.faults self.old.blocks.device ≤ D.faults self.new.blocks.device }
    {
        self.lawful();
        if let Some(part) = self.spent(rt, tx, trails) {
            return Err(WriteRefused::Spent(part));
        }
        self.lock_file(tx, file)
    }
}
