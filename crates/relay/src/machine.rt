//! The machine: its parts' states, events and facts.
use chronicle::{Machine, Names, Opens};

/// The state of a part: the last number that it sent, or took.
#[derive(Drop)]
pub enum PartState {
    Sending(u64),
    Taking(u64),
}

/// What happens: a number was sent by part 0, or taken by part 1.
#[derive(Clone, Copy)]
pub enum Event {
    Sent(u64),
    Taken(u64),
}

/// The fact that the number was sent.
#[derive(Clone, Copy)]
pub struct WasSent(pub u64);

/// The machine of the relay. No value of it is made.
pub struct Relay;

impl Machine for Relay {
    type State = PartState;

    type Event = Event;

    type Fact = WasSent;

    ghost use Rattle.relay.specs.Relay.{relay};
    ghost use Rattle.relay.specs.Laws.{relay_facts_stay, relay_monotone};

    ghost rules = { relay };

    ghost facts_stay = { relay_facts_stay };

    ghost monotone = { relay_monotone };
}

impl Names<Relay> for Event {
    ghost event = { λ e. e };
}

/// The opening at which nothing was sent, and nothing taken.
#[derive(Clone, Copy)]
pub struct Unsent;

impl Opens<Relay> for Unsent {
    ghost use Rattle.relay.specs.Relay.{unsent};

    ghost opening = { λ _. unsent };
}
