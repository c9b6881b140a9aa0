//! A transaction that has ended: its commit or its abort stands in the monitor trail.
ghost use Rattle.std.specs.Prelude.{◌≡◌, ◌^◌, ◌-◌, length, min};
ghost use Rattle.chronicle.specs.Seats.{note_of, own_events};
ghost use Rattle.txn_states.specs.Txn.{HasMet, HasReleasedAll, IsEndedTxn, receipt_of};

use crate::discs::Discs;
use crate::node::NodeSeats;
use chronicle::{Run, Seat};
use node_machine::{NodeMachine, Part};
use std::marker::Model;
use tmf_model::Transid;

/// Where a commit stands in the monitor trail.
#[derive(Clone, Copy, Debug, PartialEq, Eq)]
pub struct Receipt {
    pub tx: Transid,
    pub place: u64,
}

/// A transaction that has ended: its commit or its abort stands in the monitor trail.
#[derive(Drop)]
pub struct Ended<'a, J: Run<Part>> {
    node: &'a NodeSeats<'a, J>,
    tx: Transid,
    discs: Discs,
    seat: Seat<NodeMachine, J>,
    place: Option<u64>,
}

impl<'a, J: Run<Part>> Model for Ended<'a, J> {
    ghost use Rattle.txn_states.specs.Txn.{EndedView, IsEndedTxn};

    ghost Value = { EndedView };

    ghost view = { λ a. record { txn = record { tx = a.tx; discs = a.discs; seat = a.seat; steps = a.node.now.steps }; place = a.place } };

    ghost invariant = { λ a. IsEndedTxn J.opening (record { txn = record { tx = a.tx; discs = a.discs; seat = a.seat; steps = a.node.now.steps }; place = a.place }) };
}

impl<'a, J: Run<Part>> Ended<'a, J> {
    pub(crate) fn new(
        node: &'a NodeSeats<'a, J>,
        tx: Transid,
        discs: Discs,
        seat: Seat<NodeMachine, J>,
        place: Option<u64>,
    ) -> Ended<'a, J>
        requires { IsEndedTxn J.opening (record { txn = record { tx = tx; discs = discs; seat = seat; steps = node.now.steps }; place = place }) }
        ensures { result ≡ record { txn = record { tx = tx; discs = discs; seat = seat; steps = node.now.steps }; place = place } }
    {
        Ended {
            node,
            tx,
            discs,
            seat,
            place,
        }
    }

    /// Its identifier. Whoever asks learns what the state says.
    pub fn tx(&self) -> Transid
        ensures tx { result ≡ self.now.txn.tx }
        ensures state { IsEndedTxn J.opening self.now }
    {
        self.tx
    }

    /// The discs that it has enlisted, each once, in order.
    pub fn discs(&self) -> &[u8]
        ensures { result.now ≡ self.now.txn.discs }
    {
        self.discs.as_slice()
    }

    /// How many events its worker has had.
    pub fn events(&self) -> u64
        ensures { result ≡ min (length (own_events self.now.txn.seat)) (2 ^ 64 - 1) }
    {
        self.node.chronicle.counted(&self.seat)
    }

    /// Lets its worker's seat and another tell each other what they have seen.
    pub fn meet(&mut self, other: &mut Seat<NodeMachine, J>)
        ensures met { HasMet J.opening self.old.txn self.new.txn other.old other.new }
        ensures place { self.new.place ≡ self.old.place }
        ensures state { IsEndedTxn J.opening self.new }
    {
        self.node.chronicle.meet(&mut self.seat, other);
    }

    /// A seat without a part that has seen what its worker's seat has seen.
    pub fn note(&mut self) -> Seat<NodeMachine, J>
        ensures same { self.new ≡ self.old }
        ensures note { result ≡ note_of self.old.txn.seat }
    {
        self.node.chronicle.note(&mut self.seat)
    }

    /// Its worker's seat.
    pub fn into_seat(self) -> Seat<NodeMachine, J>
        ensures { result ≡ self.entry.txn.seat }
    {
        self.seat
    }

    /// Where its commit stands; none after a backout.
    pub fn receipt(&self) -> Option<Receipt>
        ensures { result ≡ receipt_of self.now }
    {
        match self.place {
            Some(place) => Some(Receipt { tx: self.tx, place }),
            None => None,
        }
    }

    /// Its worker's seat, once it has released at each disc that it has enlisted.
    pub fn finish(self) -> Seat<NodeMachine, J>
        requires { HasReleasedAll self.txn }
        ensures { result ≡ self.entry.txn.seat }
    {
        self.seat
    }
}
