//! The end of a transaction's changes at a disc whose lock is held.
ghost use Rattle.std.specs.Prelude.{◌≡◌, ◌⊎◌, ◌++◌, ◌==◌, [], IfOk, MatchResult, OnOk, OnErr, true};
ghost use Rattle.std.specs.List.{list_any};
ghost use Rattle.chronicle.specs.Seats.{Knows, own_events};
ghost use Rattle.node_machine.specs.Made.{last_write};
ghost use Rattle.node_machine.specs.Node.{node};
ghost use Rattle.node_machine.specs.Parts.Fact.{Closed};
ghost use Rattle.txn_states.specs.Txn.{HasStepped};
ghost use Rattle.disc_process.specs.CloseLanded.{HasClosed, IsIdleDisc};
ghost use Rattle.disc_process.specs.Disc.{closings};
ghost use Rattle.disc_process.specs.Later.{HaveGrown, IsLaterDisc};
ghost use Rattle.disc_lock.specs.Locks.{held_disc};

use crate::guard::DiscGuard;
use crate::numbered::DiscAt;
use audit_writer::DeviceRun;
use disc_process::Handover;
use disk_model::Disk;
use record_locks::NoMemory;
use txn_states::Ending;

impl<'a, D: Disk, J: DeviceRun<D>> DiscAt<'a, D, J> {
    /// Ends what a transaction asks for here, and answers the position of its last change here, 0 where it has made none.
    pub fn close(&mut self, tx: &mut Ending<'a, J>) -> Result<u64, NoMemory>
        requires { list_any (λ d. d == self.old.state.part.number) tx.old.discs ≡ true }
        ensures closed { IfOk result (λ p. (p ≡ last_write self.old.state.part.events tx.old.tx) × Knows node J.opening tx.new.seat (Closed tx.old.tx self.old.state.part.number p)) }
        ensures events { OnOk result (own_events self.new.state.seat ≡ own_events self.old.state.seat ++ closings self.old.state.part.events tx.old.tx) }
        ensures unchanged { OnErr result ((self.new.state ≡ self.old.state) × (tx.new ≡ tx.old)) }
        ensures disc { IsLaterDisc J.opening self.old.state self.new.state }
        ensures txn { HasStepped J.opening tx.old [] tx.new }
        ensures seen { OnOk result (tx.new.seat.seen ≡ self.new.state.seat.seen) }
        ensures blocks { self.new.state.blocks ≡ self.old.state.blocks }
    {
        self.state.close(tx)
    }

    /// Ends what a transaction asks for here, and hands out the disc's audit, which then lands without the disc's lock (`land` of `disc_process`).
    pub fn close_handing(&mut self, tx: &mut Ending<'a, J>) -> Result<Handover<'a, J>, NoMemory>
        requires { list_any (λ d. d == self.old.state.part.number) tx.old.discs ≡ true }
        ensures handed { IfOk result (λ h. (h.tx ≡ tx.old.tx) × (h.disc ≡ self.old.state.part.number) × (h.seat.seen ≡ self.new.state.seat.seen)) }
        ensures closed { OnOk result (Knows node J.opening tx.new.seat (Closed tx.old.tx self.old.state.part.number (last_write self.old.state.part.events tx.old.tx))) }
        ensures events { MatchResult result (λ _. HasClosed self.old.state self.new.state tx.old.tx) (λ _. IsIdleDisc self.old.state self.new.state ⊎ HasClosed self.old.state self.new.state tx.old.tx) }
        ensures disc { IsLaterDisc J.opening self.old.state self.new.state }
        ensures txn { HasStepped J.opening tx.old [] tx.new }
        ensures seen { MatchResult result (λ _. tx.new.seat.seen ≡ self.new.state.seat.seen) (λ _. IsIdleDisc self.old.state self.new.state ⊎ (tx.new.seat.seen ≡ self.new.state.seat.seen)) }
        ensures blocks { self.new.state.blocks ≡ self.old.state.blocks }
    {
        self.state.close_handing(tx)
    }

    /// Takes in what a handover of the disc knows, and forgets the audit that it has landed.
    pub fn settle(&mut self, handover: &mut Handover<'a, J>)
        requires { handover.old.disc ≡ self.old.state.part.number }
        ensures part { self.new.state.part ≡ self.old.state.part }
        ensures blocks { self.new.state.blocks ≡ self.old.state.blocks }
        ensures seats { HaveGrown J.opening self.old.state.seat self.new.state.seat handover.old.seat handover.new.seat }
        ensures same { self.new.state.seat.seen ≡ handover.new.seat.seen }
    {
        self.state.settle(handover);
    }
}

impl<'g, 'a, D: Disk, J: DeviceRun<D>> DiscGuard<'g, 'a, D, J> {
    /// Ends what a transaction asks for here, and answers the position of its last change here, 0 where it has made none.
    pub fn close(&mut self, tx: &mut Ending<'a, J>) -> Result<u64, NoMemory>
        requires { list_any (λ d. d == (held_disc self.old).part.number) tx.old.discs ≡ true }
        ensures closed { IfOk result (λ p. (p ≡ last_write (held_disc self.old).part.events tx.old.tx) × Knows node J.opening tx.new.seat (Closed tx.old.tx (held_disc self.old).part.number p)) }
        ensures events { OnOk result (own_events (held_disc self.new).seat ≡ own_events (held_disc self.old).seat ++ closings (held_disc self.old).part.events tx.old.tx) }
        ensures unchanged { OnErr result (((held_disc self.new) ≡ (held_disc self.old)) × (tx.new ≡ tx.old)) }
        ensures disc { IsLaterDisc J.opening (held_disc self.old) (held_disc self.new) }
        ensures txn { HasStepped J.opening tx.old [] tx.new }
        ensures seen { OnOk result (tx.new.seat.seen ≡ (held_disc self.new).seat.seen) }
        ensures blocks { (held_disc self.new).blocks ≡ (held_disc self.old).blocks }
    {
        self.disc.close(tx)
    }

    /// Ends what a transaction asks for here, and hands out the disc's audit, which then lands without the disc's lock (`land` of `disc_process`).
    pub fn close_handing(&mut self, tx: &mut Ending<'a, J>) -> Result<Handover<'a, J>, NoMemory>
        requires { list_any (λ d. d == (held_disc self.old).part.number) tx.old.discs ≡ true }
        ensures handed { IfOk result (λ h. (h.tx ≡ tx.old.tx) × (h.disc ≡ (held_disc self.old).part.number) × (h.seat.seen ≡ (held_disc self.new).seat.seen)) }
        ensures closed { OnOk result (Knows node J.opening tx.new.seat (Closed tx.old.tx (held_disc self.old).part.number (last_write (held_disc self.old).part.events tx.old.tx))) }
        ensures events { MatchResult result (λ _. HasClosed (held_disc self.old) (held_disc self.new) tx.old.tx) (λ _. IsIdleDisc (held_disc self.old) (held_disc self.new) ⊎ HasClosed (held_disc self.old) (held_disc self.new) tx.old.tx) }
        ensures disc { IsLaterDisc J.opening (held_disc self.old) (held_disc self.new) }
        ensures txn { HasStepped J.opening tx.old [] tx.new }
        ensures seen { MatchResult result (λ _. tx.new.seat.seen ≡ (held_disc self.new).seat.seen) (λ _. IsIdleDisc (held_disc self.old) (held_disc self.new) ⊎ (tx.new.seat.seen ≡ (held_disc self.new).seat.seen)) }
        ensures blocks { (held_disc self.new).blocks ≡ (held_disc self.old).blocks }
    {
        self.disc.close_handing(tx)
    }

    /// Takes in what a handover of the disc knows, and forgets the audit that it has landed.
    pub fn settle(&mut self, handover: &mut Handover<'a, J>)
        requires { handover.old.disc ≡ (held_disc self.old).part.number }
        ensures part { (held_disc self.new).part ≡ (held_disc self.old).part }
        ensures blocks { (held_disc self.new).blocks ≡ (held_disc self.old).blocks }
        ensures seats { HaveGrown J.opening (held_disc self.old).seat (held_disc self.new).seat handover.old.seat handover.new.seat }
        ensures same { (held_disc self.new).seat.seen ≡ handover.new.seat.seen }
    {
        self.disc.settle(handover);
    }
}
