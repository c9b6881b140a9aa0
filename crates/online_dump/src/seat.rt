//! The seat of a dump device's part.
ghost use Rattle.std.specs.Prelude.{◌≡◌, ◌∷◌, [], ◌-◌, ◌^◌, length, min};
ghost use Rattle.chronicle.specs.Histories.{IsHistory};
ghost use Rattle.chronicle.specs.Seats.{note_of, own_events};
ghost use Rattle.node_machine.specs.Node.{node};
ghost use Rattle.online_dump.specs.Seat.{HasMet, HasStepped, IsDumpAt, MayStep, sight_of};

use audit_writer::NodeRun;
use chronicle::{Chronicle, Seat};
use node_machine::{DumpEvent, NodeMachine};
use std::marker::Model;

/// The seat of a dump device's part. Contracts see the part's state and what the seat has seen.
#[derive(Drop)]
pub struct DumpSeat<'a, J: NodeRun> {
    chronicle: &'a Chronicle<NodeMachine, J>,
    seat: Seat<NodeMachine, J>,
}

impl<'a, J: NodeRun> Model for DumpSeat<'a, J> {
    ghost use Rattle.online_dump.specs.Seat.{DumpSight, IsDumpAt, sight_of};

    ghost Value = { DumpSight };

    ghost view = { λ s. sight_of J.opening s.seat };

    ghost invariant = { λ s. IsDumpAt J.opening J.found (sight_of J.opening s.seat) };
}

impl<'a, J: NodeRun> DumpSeat<'a, J> {
    /// The seat of a dump device's part in a chronicle.
    pub fn attach(chronicle: &'a Chronicle<NodeMachine, J>, seat: Seat<NodeMachine, J>) -> Self
        requires { IsDumpAt J.opening J.found (sight_of J.opening seat) }
        ensures { result ≡ sight_of J.opening seat }
    {
        DumpSeat { chronicle, seat }
    }

    /// Says what is known of it. It does nothing.
    pub fn lawful(&self)
        ensures at { IsDumpAt J.opening J.found self.now }
        ensures history { IsHistory node J.opening self.now.sight.seen }
    {
        self.seat.lawful();
    }

    /// Appends an event of the part.
    pub fn append(&mut self, event: &DumpEvent)
        requires { MayStep J.opening self.old event.now }
        ensures { HasStepped J.opening J.found (event.now ∷ []) self.old self.new }
    {
        self.chronicle.append(&mut self.seat, event);
    }

    /// Lets the seat and another one tell each other what they have seen.
    pub fn meet(&mut self, caller: &mut Seat<NodeMachine, J>)
        ensures { HasMet J.opening J.found self.old self.new caller.old caller.new }
    {
        self.chronicle.meet(&mut self.seat, caller);
    }

    /// A seat without a part that has seen what this one has seen.
    pub fn note(&mut self) -> Seat<NodeMachine, J>
        ensures same { self.new ≡ self.old }
        ensures note { result ≡ note_of self.old.sight }
    {
        self.chronicle.note(&mut self.seat)
    }

    /// The number of the part's own events, or 2^64 - 1 where there are more.
    pub fn events(&self) -> u64
        ensures { result ≡ min (length (own_events self.now.sight)) (2 ^ 64 - 1) }
    {
        self.chronicle.counted(&self.seat)
    }

    /// The seat.
    pub fn into_seat(self) -> Seat<NodeMachine, J>
        ensures { result ≡ self.entry.sight }
    {
        let DumpSeat { chronicle: _, seat } = self;
        seat
    }
}
