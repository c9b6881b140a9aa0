//! The release of a transaction that has ended.
ghost use Rattle.std.specs.Prelude.{IsSome, ◌≡◌, [], true};
ghost use Rattle.chronicle.specs.Seats.{Knows};
ghost use Rattle.node_machine.specs.declared.event.DiscEvent.TheVariants as did;
ghost use Rattle.node_machine.specs.Disc.{DiscAsks};
ghost use Rattle.node_machine.specs.Node.{node};
ghost use Rattle.txn_states.specs.Txn.{HasStepped};
ghost use Rattle.disc_process.specs.Coming.{is_live};
ghost use Rattle.disc_process.specs.Later.{IsLaterDisc};
ghost use Rattle.disc_process.specs.Release.{HasFreed, IsReleaseSeen};

use crate::disc::DiscState;
use audit_writer::DeviceRun;
use disk_model::Disk;
use node_machine::DiscEvent;
use tmf_model::Transid;
use txn_states::Ended;

impl<'a, D: Disk, J: DeviceRun<D>> DiscState<'a, D, J> {
    /// Frees what a committed transaction holds here. A second call changes nothing, nor does one for a transaction that never came here.
    /// The transaction's seat has then seen its release here, if it has come here.
    pub fn release(&mut self, tx: &mut Ended<'a, J>)
        requires { IsSome tx.old.place }
        ensures freed { HasFreed self.old self.new tx.old.txn.tx }
        ensures disc { IsLaterDisc J.opening self.old self.new }
        ensures txn { HasStepped J.opening tx.old.txn [] tx.new.txn }
        ensures place { tx.new.place ≡ tx.old.place }
        ensures seen { tx.new.txn.seat.seen ≡ self.new.seat.seen }
        ensures own { IsReleaseSeen self.old.part tx.old.txn tx.new.txn }
    {
        self.lawful();
        self.release_step(tx);
        self.lawful();
    }

    /// The same, without the frame of the disc.
    fn release_step(&mut self, tx: &mut Ended<'a, J>)
        requires { IsSome tx.old.place }
        ensures freed { HasFreed self.old self.new tx.old.txn.tx }
        ensures txn { HasStepped J.opening tx.old.txn [] tx.new.txn }
        ensures place { tx.new.place ≡ tx.old.place }
        ensures seen { tx.new.txn.seat.seen ≡ self.new.seat.seen }
    {
        let t = tx.tx();
        tx.meet(&mut self.seat);
        if !self.live.has_come(&t) {
            return;
        }
        self.free(t);
        tx.meet(&mut self.seat);
    }

    /// Frees what a transaction holds here that has ended.
    pub(crate) fn free(&mut self, t: Transid)
        requires live { is_live self.old.part.events t ≡ true }
        requires ended { DiscAsks (Knows node J.opening self.old.seat) self.old.part (did.Release t) }
        ensures { HasFreed self.old self.new t }
    {
        self.chronicle
            .append(&mut self.seat, &DiscEvent::Release(t));
        self.locks.release(t);
        self.live.remove(&t);
    }
}
