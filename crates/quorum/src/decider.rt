//! The decider: part 4.
ghost use Rattle.std.specs.Prelude.{◌≡◌, ◌≢◌, ◌+◌, ◌<◌, ◌≤◌, ◌^◌, Some};
ghost use Rattle.chronicle.specs.Seats.{new_seat, part_state};
ghost use Rattle.quorum.specs.Quorum.{quorum};
ghost use Rattle.quorum.specs.declared.machine.PartState.TheVariants.{Deciding};

use crate::machine::{Decision, Event, PartState, Quorum};
use crate::vote::Vote;
use chronicle::{Chronicle, Run, Seat};
use std::marker::Model;

/// Contracts see the last round that was decided.
#[derive(Drop)]
pub struct Decider<J: Run<PartState>> {
    round: u64,
    seat: Seat<Quorum, J>,
}

impl<J: Run<PartState>> Model for Decider<J> {
    ghost use Rattle.std.specs.Prelude.{◌≡◌, ℕ, Some};
    ghost use Rattle.chronicle.specs.Seats.{part_state};
    ghost use Rattle.quorum.specs.Quorum.{quorum};
    ghost use Rattle.quorum.specs.declared.machine.PartState.TheVariants.{Deciding};

    ghost Value = { ℕ };

    ghost view = { λ d. d.round };

    ghost invariant = { λ d. (d.seat.part ≡ Some 4) × (part_state quorum J.opening d.seat ≡ Some (Deciding d.round)) };
}

impl<J: Run<PartState>> Decider<J> {
    /// The decider before any round was decided.
    pub fn new(seat: Seat<Quorum, J>) -> Decider<J>
        requires seat { seat ≡ new_seat 4 }
        requires opening { part_state quorum J.opening seat ≡ Some (Deciding 0) }
        ensures { result ≡ 0 }
    {
        Decider { round: 0, seat }
    }

    /// The last round that was decided.
    pub fn round(&self) -> u64
        ensures { result ≡ self.now }
    {
        self.round
    }

    /// Decides the next round by two votes of it.
    pub fn decide(&mut self, chronicle: &Chronicle<Quorum, J>, first: Vote<J>, second: Vote<J>)
        requires room { self.old + 1 < 2 ^ 64 }
        requires rounds { (first.round ≡ self.old + 1) × (second.round ≡ self.old + 1) }
        requires two { first.voter ≢ second.voter }
        ensures { self.new ≡ self.old + 1 }
    {
        let decision = Decision {
            round: self.round + 1,
            first: first.voter(),
            second: second.voter(),
        };
        chronicle.join(&mut self.seat, first.into_note());
        chronicle.join(&mut self.seat, second.into_note());
        chronicle.append(&mut self.seat, &Event::Decided(decision));
        self.round = decision.round;
    }

    /// Takes a vote beside one that is kept, and decides where the two are enough. It answers the vote
    /// to be kept.
    pub fn hear(
        &mut self,
        chronicle: &Chronicle<Quorum, J>,
        kept: Option<Vote<J>>,
        vote: Vote<J>,
    ) -> Option<Vote<J>>
        ensures { self.old ≤ self.new }
    {
        if self.round == u64::MAX || vote.round() != self.round + 1 {
            return kept;
        }
        match kept {
            Some(first) if first.round() == self.round + 1 && first.voter() != vote.voter() => {
                self.decide(chronicle, first, vote);
                None
            }
            _ => Some(vote),
        }
    }

    /// The part's seat, to be gathered.
    pub fn into_seat(self) -> Seat<Quorum, J>
        ensures part { result.part ≡ Some 4 }
        ensures state { part_state quorum J.opening result ≡ Some (Deciding self) }
    {
        let Decider { round: _, seat } = self;
        seat
    }
}
