//! A vote, as it goes through a queue: a note that has seen it.
ghost use Rattle.std.specs.Prelude.{◌≡◌, None};
ghost use Rattle.chronicle.specs.Seats.{Knows};
ghost use Rattle.quorum.specs.Quorum.{quorum, vote_of};

use crate::machine::{PartState, Quorum};
use chronicle::{Run, Seat};
use std::marker::Model;

/// The note knows that the voter voted in the round. Contracts see the voter and the round.
#[derive(Drop)]
pub struct Vote<J: Run<PartState>> {
    note: Seat<Quorum, J>,
    voter: u64,
    round: u64,
}

impl<J: Run<PartState>> Model for Vote<J> {
    ghost use Rattle.std.specs.Prelude.{◌≡◌, None};
    ghost use Rattle.chronicle.specs.Seats.{Knows};
    ghost use Rattle.quorum.specs.Quorum.{quorum, vote_of};
    ghost use Rattle.quorum.specs.declared.machine.HasVoted.{HasVoted};

    ghost Value = { HasVoted };

    ghost view = { λ v. vote_of v.voter v.round };

    ghost invariant = { λ v. (v.note.part ≡ None) × Knows quorum J.opening v.note (vote_of v.voter v.round) };
}

impl<J: Run<PartState>> Vote<J> {
    /// A vote that the note has seen.
    pub fn new(note: Seat<Quorum, J>, voter: u64, round: u64) -> Vote<J>
        requires note { note.part ≡ None }
        requires seen { Knows quorum J.opening note (vote_of voter round) }
        ensures { result ≡ vote_of voter round }
    {
        Vote { note, voter, round }
    }

    /// Who voted.
    pub fn voter(&self) -> u64
        ensures { result ≡ self.now.voter }
    {
        self.voter
    }

    /// In which round.
    pub fn round(&self) -> u64
        ensures { result ≡ self.now.round }
    {
        self.round
    }

    /// The note, to be joined into a seat.
    pub fn into_note(self) -> Seat<Quorum, J>
        ensures note { result.part ≡ None }
        ensures seen { Knows quorum J.opening result self }
    {
        let Vote {
            note,
            voter: _,
            round: _,
        } = self;
        note
    }
}
