//! The machine: its parts' states, events and facts.
use chronicle::{Machine, Names, Opens};

/// The state of a part. Parts 0 to 3 vote, and part 4 decides.
#[derive(Drop)]
pub enum PartState {
    /// The voter's number, and the last round in which it voted.
    Voting(u64, u64),
    /// The last round that was decided.
    Deciding(u64),
}

/// A decided round, and two voters who voted in it.
#[derive(Clone, Copy)]
pub struct Decision {
    pub round: u64,
    pub first: u64,
    pub second: u64,
}

/// What happens: a voter voted in a round, or a round was decided.
#[derive(Clone, Copy)]
pub enum Event {
    Voted(u64),
    Decided(Decision),
}

/// The fact that the voter voted in the round.
#[derive(Clone, Copy)]
pub struct HasVoted {
    pub voter: u64,
    pub round: u64,
}

/// The machine of the quorum. No value of it is made.
pub struct Quorum;

impl Machine for Quorum {
    type State = PartState;

    type Event = Event;

    type Fact = HasVoted;

    ghost use Rattle.quorum.specs.Quorum.{quorum};
    ghost use Rattle.quorum.specs.Laws.{quorum_facts_stay, quorum_monotone};

    ghost rules = { quorum };

    ghost facts_stay = { quorum_facts_stay };

    ghost monotone = { quorum_monotone };
}

impl Names<Quorum> for Event {
    ghost event = { λ e. e };
}

/// The opening at which no round had a vote.
#[derive(Clone, Copy)]
pub struct Fresh;

impl Opens<Quorum> for Fresh {
    ghost use Rattle.quorum.specs.Quorum.{fresh};

    ghost opening = { λ _. fresh };
}
