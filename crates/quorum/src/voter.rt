//! Voters: the parts 0 to 3.
ghost use Rattle.std.specs.Prelude.{◌≡◌, ◌+◌, ◌<◌, ◌^◌, Some};
ghost use Rattle.chronicle.specs.Seats.{new_seat, part_state};
ghost use Rattle.quorum.specs.Quorum.{quorum, vote_of};
ghost use Rattle.quorum.specs.declared.machine.PartState.TheVariants.{Voting};

use crate::machine::{Event, PartState, Quorum};
use crate::vote::Vote;
use chronicle::{Chronicle, Run, Seat};
use crossbeam_queue::ArrayQueue;
use std::alloc::Global;
use std::marker::Model;
use std::sync::Wait;

/// One voter. Contracts see its number and the last round in which it voted.
#[derive(Drop)]
pub struct Voter<J: Run<PartState>> {
    voter: u64,
    round: u64,
    seat: Seat<Quorum, J>,
}

impl<J: Run<PartState>> Model for Voter<J> {
    ghost use Rattle.std.specs.Prelude.{◌≡◌, Some};
    ghost use Rattle.chronicle.specs.Seats.{part_state};
    ghost use Rattle.quorum.specs.Quorum.{quorum, vote_of};
    ghost use Rattle.quorum.specs.declared.machine.HasVoted.{HasVoted};
    ghost use Rattle.quorum.specs.declared.machine.PartState.TheVariants.{Voting};

    ghost Value = { HasVoted };

    ghost view = { λ v. vote_of v.voter v.round };

    ghost invariant = { λ v. (v.seat.part ≡ Some v.voter) × (part_state quorum J.opening v.seat ≡ Some (Voting v.voter v.round)) };
}

impl<J: Run<PartState>> Voter<J> {
    /// A voter that has not voted.
    pub fn new(seat: Seat<Quorum, J>, voter: u64) -> Voter<J>
        requires seat { seat ≡ new_seat voter }
        requires opening { part_state quorum J.opening seat ≡ Some (Voting voter 0) }
        ensures { result ≡ vote_of voter 0 }
    {
        Voter {
            voter,
            round: 0,
            seat,
        }
    }

    /// The last round in which it voted.
    pub fn round(&self) -> u64
        ensures { result ≡ self.now.round }
    {
        self.round
    }

    /// Votes in the next round.
    pub fn vote(&mut self, chronicle: &Chronicle<Quorum, J>) -> Vote<J>
        requires { self.old.round + 1 < 2 ^ 64 }
        ensures voter { self.new ≡ vote_of self.old.voter (self.old.round + 1) }
        ensures vote { result ≡ self.new }
    {
        let next = self.round + 1;
        chronicle.append(&mut self.seat, &Event::Voted(next));
        self.round = next;
        Vote::new(chronicle.note(&mut self.seat), self.voter, next)
    }

    /// Votes in the next round, where there is one, and puts the vote into the queue. A vote that finds
    /// the queue full is dropped.
    pub fn cast(
        &mut self,
        rt: &impl Wait,
        chronicle: &Chronicle<Quorum, J>,
        queue: &ArrayQueue<Vote<J>, Global>,
    )
        ensures { self.new.voter ≡ self.old.voter }
    {
        if self.round < u64::MAX {
            let _ = queue.push(rt, self.vote(chronicle));
        }
    }

    /// The part's seat, to be gathered.
    pub fn into_seat(self) -> Seat<Quorum, J>
        ensures part { result.part ≡ Some self.voter }
        ensures state { part_state quorum J.opening result ≡ Some (Voting self.voter self.round) }
    {
        let Voter {
            voter: _,
            round: _,
            seat,
        } = self;
        seat
    }
}

/// The four voters, in order.
#[derive(Drop)]
pub struct Voters<J: Run<PartState>> {
    pub first: Voter<J>,
    pub second: Voter<J>,
    pub third: Voter<J>,
    pub fourth: Voter<J>,
    ghost numbers: { (first.voter ≡ 0) × (second.voter ≡ 1) × (third.voter ≡ 2) × (fourth.voter ≡ 3) },
}

impl<J: Run<PartState>> Voters<J> {
    /// Lets each vote in its next round.
    pub fn cast(
        &mut self,
        rt: &impl Wait,
        chronicle: &Chronicle<Quorum, J>,
        queue: &ArrayQueue<Vote<J>, Global>,
    ) {
        self.first.cast(rt, chronicle, queue);
        self.second.cast(rt, chronicle, queue);
        self.third.cast(rt, chronicle, queue);
        self.fourth.cast(rt, chronicle, queue);
    }
}
