//! The machine: its parts' states, events and facts.
use crate::event::Event;
use chronicle::Machine;
use std::marker::Model;

/// The state of a part. No value of it is made.
pub struct Part {
    nothing: u8,
}

impl Model for Part {
    ghost use Rattle.node_machine.specs.Parts.{PartState, some_state};

    ghost Value = { PartState };

    ghost view = { λ _. some_state };
}

/// What a part makes true for the others. No value of it is made.
pub struct Truth {
    nothing: u8,
}

impl Model for Truth {
    ghost use Rattle.node_machine.specs.Parts.{Fact, some_fact};

    ghost Value = { Fact };

    ghost view = { λ _. some_fact };
}

/// The machine of a node. No value of it is made.
pub struct NodeMachine;

impl Machine for NodeMachine {
    type State = Part;

    type Event = Event;

    type Fact = Truth;

    ghost use Rattle.node_machine.specs.Node.{node};
    ghost use Rattle.node_machine.specs.Laws.{node_facts_stay, node_monotone};

    ghost rules = { node };

    ghost facts_stay = { node_facts_stay };

    ghost monotone = { node_monotone };
}
