//! Part 0, which sends. Its state stands behind a lock, with the seat that appends its events.
ghost use Rattle.std.specs.Prelude.{◌≡◌, ℕ, ◌+◌, ◌<◌, ◌^◌, [], ◌∷◌, ◌++◌, Some, slice_get};
ghost use Rattle.chronicle.specs.Histories.{states_after};
ghost use Rattle.chronicle.specs.Seats.{HasGrown, HasLearned, HasNewlySeen, new_seat, own_events, part_state};
ghost use Rattle.relay.specs.Relay.{relay};
ghost use Rattle.relay.specs.declared.machine.Event.TheVariants.{Sent};
ghost use Rattle.relay.specs.declared.machine.PartState.TheVariants.{Sending};

use crate::machine::{Event, PartState, Relay};
use chronicle::{Chronicle, Run, Seat};
use std::marker::Model;
use std::sync::{Mutex, Wait};

/// What stands behind the lock. Its fields are tied to the part's state in what its seat has seen.
/// Contracts see the last number that was sent, and the events that the part has had.
#[derive(Drop)]
pub struct SenderState<J: Run<PartState>> {
    sent: u64,
    seat: Seat<Relay, J>,
}

impl<J: Run<PartState>> Model for SenderState<J> {
    ghost use Rattle.std.specs.Prelude.{◌≡◌, ℕ, List, Some};
    ghost use Rattle.chronicle.specs.Seats.{own_events, part_state};
    ghost use Rattle.relay.specs.Relay.{relay};
    ghost use Rattle.relay.specs.declared.machine.Event.{Event};
    ghost use Rattle.relay.specs.declared.machine.PartState.TheVariants.{Sending};

    ghost Value = { ℕ × List Event };

    ghost view = { λ s. (s.sent, own_events s.seat) };

    ghost invariant = { λ s. (s.seat.part ≡ Some 0) × (part_state relay J.opening s.seat ≡ Some (Sending s.sent)) };
}

impl<J: Run<PartState>> SenderState<J> {
    /// The state of a part that has sent nothing.
    pub fn new(seat: Seat<Relay, J>) -> SenderState<J>
        requires seat { seat ≡ new_seat 0 }
        requires opening { part_state relay J.opening seat ≡ Some (Sending 0) }
        ensures { result ≡ (0, []) }
    {
        SenderState { sent: 0, seat }
    }

    /// The last number that was sent.
    pub fn sent(&self) -> u64
        ensures { result ≡ self.now.0 }
    {
        self.sent
    }

    /// Sends the next number.
    pub fn send(&mut self, chronicle: &Chronicle<Relay, J>)
        requires { self.old.0 + 1 < 2 ^ 64 }
        ensures { self.new ≡ (self.old.0 + 1, self.old.1 ++ Sent (self.old.0 + 1) ∷ []) }
    {
        let next = self.sent + 1;
        chronicle.append(&mut self.seat, &Event::Sent(next));
        self.sent = next;
    }

    /// Shows another seat what was sent, and answers the last number.
    pub fn show(&mut self, chronicle: &Chronicle<Relay, J>, other: &mut Seat<Relay, J>) -> u64
        ensures same { self.new ≡ self.old }
        ensures last { result ≡ self.old.0 }
        ensures grown { HasGrown other.old other.new }
        ensures learned { HasLearned relay J.opening other.old other.new }
        ensures seen { slice_get (states_after relay J.opening other.new.seen) 0 ≡ Some (Sending result) }
    {
        chronicle.meet(&mut self.seat, other);
        self.sent
    }

    /// Sends the next number, and shows it to another seat, which had not seen it before: the two meet
    /// once before the event and once after it.
    pub fn send_shown(&mut self, chronicle: &Chronicle<Relay, J>, other: &mut Seat<Relay, J>)
        requires { self.old.0 + 1 < 2 ^ 64 }
        ensures sent { self.new ≡ (self.old.0 + 1, self.old.1 ++ Sent (self.old.0 + 1) ∷ []) }
        ensures grown { HasGrown other.old other.new }
        ensures shown { HasNewlySeen 0 (Sent (self.old.0 + 1)) other.old other.new }
    {
        chronicle.meet(&mut self.seat, other);
        self.send(chronicle);
        chronicle.meet(&mut self.seat, other);
    }

    /// The part's seat, to be gathered.
    pub fn into_seat(self) -> Seat<Relay, J>
        ensures part { result.part ≡ Some 0 }
        ensures state { part_state relay J.opening result ≡ Some (Sending self.0) }
        ensures events { own_events result ≡ self.1 }
    {
        let SenderState { sent: _, seat } = self;
        seat
    }
}

/// The lock round the state. Each call takes the lock for the one call of the state.
#[derive(Drop)]
pub struct Sender<J: Run<PartState>> {
    state: Mutex<SenderState<J>>,
}

impl<J: Run<PartState>> Sender<J> {
    pub fn new(state: SenderState<J>) -> Sender<J> {
        Sender {
            state: Mutex::new(state),
        }
    }

    /// Sends the next number, where there is one.
    pub fn send(&self, rt: &impl Wait, chronicle: &Chronicle<Relay, J>) {
        let mut state = self.state.lock(rt);
        if state.sent() < u64::MAX {
            state.send(chronicle);
        }
    }

    /// Shows another seat what was sent, and answers the last number.
    pub fn show(
        &self,
        rt: &impl Wait,
        chronicle: &Chronicle<Relay, J>,
        other: &mut Seat<Relay, J>,
    ) -> u64
        ensures grown { HasGrown other.old other.new }
        ensures learned { HasLearned relay J.opening other.old other.new }
        ensures seen { slice_get (states_after relay J.opening other.new.seen) 0 ≡ Some (Sending result) }
    {
        self.state.lock(rt).show(chronicle, other)
    }

    /// The part's seat, to be gathered.
    pub fn into_seat(self) -> Seat<Relay, J>
        ensures part { result.part ≡ Some 0 }
        ensures state { (n : ℕ) × (part_state relay J.opening result ≡ Some (Sending n)) }
    {
        let Sender { state } = self;
        state.into_inner().into_seat()
    }
}
