//! The seat of the monitor.
ghost use Rattle.std.specs.Prelude.{◌≡◌, ◌++◌, ◌∷◌, [], ◌-◌, ◌^◌, length, min, None};
ghost use Rattle.chronicle.specs.Seats.{own_events};
ghost use Rattle.node_machine.specs.declared.event.MonitorEvent.TheVariants.{Offer};
ghost use Rattle.commit_boxcar.specs.Seat.{sight_of, IsMonitorAt, MayStep, HasStepped, HasHeard, HasMet};

use audit_writer::NodeRun;
use chronicle::{Chronicle, Seat};
use node_machine::{CarOffer, MonitorEvent, NodeMachine};
use std::marker::Model;
use trail_files::MonitorRecord;

/// The seat of the monitor. Contracts see the part's state and what the seat has seen.
#[derive(Drop)]
pub struct MonitorSeat<'a, J: NodeRun> {
    chronicle: &'a Chronicle<NodeMachine, J>,
    seat: Seat<NodeMachine, J>,
}

impl<'a, J: NodeRun> Model for MonitorSeat<'a, J> {
    ghost use Rattle.commit_boxcar.specs.Seat.{MonitorSight, sight_of, IsMonitorAt};

    ghost Value = { MonitorSight };

    ghost view = { λ s. sight_of J.opening s.seat };

    ghost invariant = { λ s. IsMonitorAt J.opening J.found (sight_of J.opening s.seat) };
}

impl<'a, J: NodeRun> MonitorSeat<'a, J> {
    /// The seat of the monitor in a chronicle.
    pub fn attach(chronicle: &'a Chronicle<NodeMachine, J>, seat: Seat<NodeMachine, J>) -> Self
        requires { IsMonitorAt J.opening J.found (sight_of J.opening seat) }
        ensures { result ≡ sight_of J.opening seat }
    {
        MonitorSeat { chronicle, seat }
    }

    /// Says what is known of it. It does nothing.
    pub fn lawful(&self)
        ensures { IsMonitorAt J.opening J.found self.now }
    {
        let _ = &self.seat;
    }

    /// Appends an event of the monitor.
    pub fn append(&mut self, event: &MonitorEvent)
        requires { MayStep J.opening self.old event.now }
        ensures { HasStepped J.opening J.found (event.now ∷ []) self.old self.new }
    {
        self.chronicle.append(&mut self.seat, event);
    }

    /// Appends the offer of a car, without a copy of its records.
    pub fn offer(&mut self, records: &[MonitorRecord])
        requires { MayStep J.opening self.old (Offer records.now) }
        ensures { HasStepped J.opening J.found (Offer records.now ∷ []) self.old self.new }
    {
        self.chronicle.append(&mut self.seat, &CarOffer { records });
    }

    /// Lets the seat and another one tell each other what they have seen.
    pub fn meet(&mut self, caller: &mut Seat<NodeMachine, J>)
        ensures { HasMet J.opening J.found self.old self.new caller.old caller.new }
    {
        self.chronicle.meet(&mut self.seat, caller);
    }

    /// Takes a note in.
    pub fn join(&mut self, note: Seat<NodeMachine, J>)
        requires { note.part ≡ None }
        ensures { HasHeard J.opening J.found self.old self.new note }
    {
        self.chronicle.join(&mut self.seat, note);
    }

    /// The number of the monitor's own events, or 2^64 - 1 where there are more.
    pub fn events(&self) -> u64
        ensures { result ≡ min (length (own_events self.now.sight)) (2 ^ 64 - 1) }
    {
        self.chronicle.counted(&self.seat)
    }

    /// The seat.
    pub fn into_seat(self) -> Seat<NodeMachine, J>
        ensures { result ≡ self.entry.sight }
    {
        let MonitorSeat { chronicle: _, seat } = self;
        seat
    }
}
