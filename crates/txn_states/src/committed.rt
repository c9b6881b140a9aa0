//! A transaction whose commit is decided.
ghost use Rattle.std.specs.Prelude.{◌≡◌, ◌^◌, ◌-◌, length, min};
ghost use Rattle.chronicle.specs.Seats.{Knows, note_of, own_events};
ghost use Rattle.node_machine.specs.Node.{node};
ghost use Rattle.std.specs.Prelude.{Some};
ghost use Rattle.node_machine.specs.Parts.Fact.{Recorded};
ghost use Rattle.trail_files.specs.declared.monitor_record.MonitorRecord.TheVariants.{Commit};
ghost use Rattle.txn_states.specs.Txn.{HasMet, IsCommittedTxn};

use crate::discs::Discs;
use crate::ended::Ended;
use crate::node::NodeSeats;
use chronicle::{Run, Seat};
use node_machine::{NodeMachine, Part};
use std::marker::Model;
use tmf_model::Transid;

/// A transaction whose commit is decided.
#[derive(Drop)]
pub struct Committed<'a, J: Run<Part>> {
    node: &'a NodeSeats<'a, J>,
    tx: Transid,
    discs: Discs,
    seat: Seat<NodeMachine, J>,
}

impl<'a, J: Run<Part>> Model for Committed<'a, J> {
    ghost use Rattle.txn_states.specs.Txn.{Txn, IsCommittedTxn};

    ghost Value = { Txn };

    ghost view = { λ a. record { tx = a.tx; discs = a.discs; seat = a.seat; steps = a.node.now.steps } };

    ghost invariant = { λ a. IsCommittedTxn J.opening (record { tx = a.tx; discs = a.discs; seat = a.seat; steps = a.node.now.steps }) };
}

impl<'a, J: Run<Part>> Committed<'a, J> {
    pub(crate) fn new(
        node: &'a NodeSeats<'a, J>,
        tx: Transid,
        discs: Discs,
        seat: Seat<NodeMachine, J>,
    ) -> Committed<'a, J>
        requires { IsCommittedTxn J.opening (record { tx = tx; discs = discs; seat = seat; steps = node.now.steps }) }
        ensures { result ≡ record { tx = tx; discs = discs; seat = seat; steps = node.now.steps } }
    {
        Committed {
            node,
            tx,
            discs,
            seat,
        }
    }

    /// Its identifier. Whoever asks learns what the state says.
    pub fn tx(&self) -> Transid
        ensures tx { result ≡ self.now.tx }
        ensures state { IsCommittedTxn J.opening self.now }
    {
        self.tx
    }

    /// The discs that it has enlisted, each once, in order.
    pub fn discs(&self) -> &[u8]
        ensures { result.now ≡ self.now.discs }
    {
        self.discs.as_slice()
    }

    /// How many events its worker has had.
    pub fn events(&self) -> u64
        ensures { result ≡ min (length (own_events self.now.seat)) (2 ^ 64 - 1) }
    {
        self.node.chronicle.counted(&self.seat)
    }

    /// Lets its worker's seat and another tell each other what they have seen.
    pub fn meet(&mut self, other: &mut Seat<NodeMachine, J>)
        ensures met { HasMet J.opening self.old self.new other.old other.new }
        ensures state { IsCommittedTxn J.opening self.new }
    {
        self.node.chronicle.meet(&mut self.seat, other);
    }

    /// A seat without a part that has seen what its worker's seat has seen.
    pub fn note(&mut self) -> Seat<NodeMachine, J>
        ensures same { self.new ≡ self.old }
        ensures note { result ≡ note_of self.old.seat }
    {
        self.node.chronicle.note(&mut self.seat)
    }

    /// Its worker's seat.
    pub fn into_seat(self) -> Seat<NodeMachine, J>
        ensures { result ≡ self.entry.seat }
    {
        self.seat
    }

    /// Its commit stands in the monitor trail, at this place.
    pub fn ended(self, place: u64) -> Ended<'a, J>
        requires { Knows node J.opening self.seat (Recorded (Commit self.tx) place) }
        ensures { result ≡ record { txn = self.entry; place = Some place } }
    {
        let Committed {
            node,
            tx,
            discs,
            seat,
        } = self;
        Ended::new(node, tx, discs, seat, Some(place))
    }
}
