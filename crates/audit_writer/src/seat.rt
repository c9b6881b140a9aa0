//! The seat of a trail's part.
ghost use Rattle.std.specs.Prelude.{◌≡◌, ◌++◌, ◌∷◌, [], ◌-◌, ◌^◌, length, min};
ghost use Rattle.chronicle.specs.Histories.{IsHistory};
ghost use Rattle.chronicle.specs.Seats.{own_events};
ghost use Rattle.node_machine.specs.Node.{node};
ghost use Rattle.node_machine.specs.declared.event.TrailEvent.TheVariants.{Offer};
ghost use Rattle.audit_writer.specs.Seat.{sight_of, IsTrailAt, MayStep, HasStepped, HasMet};

use crate::name::NodeRun;
use chronicle::{Chronicle, Seat};
use node_machine::{AuditOffer, NodeMachine, TrailEvent};
use std::marker::Model;
use trail_files::AuditRecord;

/// The seat of a trail's part. Contracts see the part's state and what the seat has seen.
#[derive(Drop)]
pub struct TrailSeat<'a, J: NodeRun> {
    chronicle: &'a Chronicle<NodeMachine, J>,
    seat: Seat<NodeMachine, J>,
}

impl<'a, J: NodeRun> Model for TrailSeat<'a, J> {
    ghost use Rattle.audit_writer.specs.Seat.{TrailSight, sight_of, IsTrailAt};

    ghost Value = { TrailSight };

    ghost view = { λ s. sight_of J.opening s.seat };

    ghost invariant = { λ s. IsTrailAt J.opening J.found (sight_of J.opening s.seat) };
}

impl<'a, J: NodeRun> TrailSeat<'a, J> {
    /// The seat of a trail's part in a chronicle.
    pub fn attach(chronicle: &'a Chronicle<NodeMachine, J>, seat: Seat<NodeMachine, J>) -> Self
        requires { IsTrailAt J.opening J.found (sight_of J.opening seat) }
        ensures { result ≡ sight_of J.opening seat }
    {
        TrailSeat { chronicle, seat }
    }

    /// The chronicle.
    pub fn chronicle(&self) -> &'a Chronicle<NodeMachine, J> {
        self.chronicle
    }

    /// Says what is known of it. It does nothing.
    pub fn lawful(&self)
        ensures at { IsTrailAt J.opening J.found self.now }
        ensures history { IsHistory node J.opening self.now.sight.seen }
    {
        self.seat.lawful();
    }

    /// Appends an event of the part.
    pub fn append(&mut self, event: &TrailEvent)
        requires { MayStep J.opening self.old event.now }
        ensures { HasStepped J.opening J.found event.now self.old self.new }
    {
        self.chronicle.append(&mut self.seat, event);
    }

    /// Appends the offer of a batch, without a copy of its records.
    pub fn offer(&mut self, file: u32, records: &[AuditRecord])
        requires { MayStep J.opening self.old (Offer file records.now) }
        ensures { HasStepped J.opening J.found (Offer file records.now) self.old self.new }
    {
        self.chronicle
            .append(&mut self.seat, &AuditOffer { file, records });
    }

    /// Lets the seat and another one tell each other what they have seen.
    pub fn meet(&mut self, caller: &mut Seat<NodeMachine, J>)
        ensures { HasMet J.opening J.found self.old self.new caller.old caller.new }
    {
        self.chronicle.meet(&mut self.seat, caller);
    }

    /// The number of the part's own events, or 2^64 - 1 where there are more.
    pub fn events(&self) -> u64
        ensures { result ≡ min (length (own_events self.now.sight)) (2 ^ 64 - 1) }
    {
        self.chronicle.counted(&self.seat)
    }

    /// The seat.
    pub fn into_seat(self) -> Seat<NodeMachine, J>
        ensures { result ≡ self.entry.sight }
    {
        let TrailSeat { chronicle: _, seat } = self;
        seat
    }
}
