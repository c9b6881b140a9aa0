//! Part 1, which takes. Its thread owns it, so it needs no lock.
ghost use Rattle.std.specs.Prelude.{◌≡◌, ℕ, ◌+◌, List, [], ◌∷◌, ◌++◌, Some, MatchBool};
ghost use Rattle.chronicle.specs.Seats.{new_seat, own_events, part_state};
ghost use Rattle.relay.specs.Relay.{relay};
ghost use Rattle.relay.specs.declared.machine.Event.TheVariants.{Taken};
ghost use Rattle.relay.specs.declared.machine.PartState.TheVariants.{Taking};

use crate::machine::{Event, PartState, Relay};
use crate::sender::Sender;
use chronicle::{Chronicle, Run, Seat};
use std::marker::Model;
use std::sync::Wait;

/// Contracts see the last number that was taken, and the events that the part has had.
#[derive(Drop)]
pub struct Taker<J: Run<PartState>> {
    taken: u64,
    seat: Seat<Relay, J>,
}

impl<J: Run<PartState>> Model for Taker<J> {
    ghost use Rattle.std.specs.Prelude.{◌≡◌, ℕ, List, Some};
    ghost use Rattle.chronicle.specs.Seats.{own_events, part_state};
    ghost use Rattle.relay.specs.Relay.{relay};
    ghost use Rattle.relay.specs.declared.machine.Event.{Event};
    ghost use Rattle.relay.specs.declared.machine.PartState.TheVariants.{Taking};

    ghost Value = { ℕ × List Event };

    ghost view = { λ t. (t.taken, own_events t.seat) };

    ghost invariant = { λ t. (t.seat.part ≡ Some 1) × (part_state relay J.opening t.seat ≡ Some (Taking t.taken)) };
}

impl<J: Run<PartState>> Taker<J> {
    /// The part that has taken nothing.
    pub fn new(seat: Seat<Relay, J>) -> Taker<J>
        requires seat { seat ≡ new_seat 1 }
        requires opening { part_state relay J.opening seat ≡ Some (Taking 0) }
        ensures { result ≡ (0, []) }
    {
        Taker { taken: 0, seat }
    }

    /// The last number that was taken.
    pub fn taken(&self) -> u64
        ensures { result ≡ self.now.0 }
    {
        self.taken
    }

    /// Takes the next number, if it was sent, and answers whether it was.
    pub fn take(
        &mut self,
        rt: &impl Wait,
        chronicle: &Chronicle<Relay, J>,
        sender: &Sender<J>,
    ) -> bool
        ensures { MatchBool result (self.new ≡ (self.old.0 + 1, self.old.1 ++ Taken (self.old.0 + 1) ∷ [])) (self.new ≡ self.old) }
    {
        let sent = sender.show(rt, chronicle, &mut self.seat);
        if sent <= self.taken {
            return false;
        }
        let next = self.taken + 1;
        chronicle.append(&mut self.seat, &Event::Taken(next));
        self.taken = next;
        true
    }

    /// The part's seat, to be gathered.
    pub fn into_seat(self) -> Seat<Relay, J>
        ensures part { result.part ≡ Some 1 }
        ensures state { part_state relay J.opening result ≡ Some (Taking self.0) }
        ensures events { own_events result ≡ self.1 }
    {
        let Taker { taken: _, seat } = self;
        seat
    }
}
