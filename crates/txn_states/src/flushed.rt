//! A transaction whose audit has landed at each disc.
ghost use Rattle.std.specs.Prelude.{◌≡◌, ◌^◌, ◌-◌, [], ◌∷◌, length, min};
ghost use Rattle.chronicle.specs.Seats.{note_of, own_events};
ghost use Rattle.node_machine.specs.declared.event.Event.TheVariants.{OfWorker};
ghost use Rattle.node_machine.specs.declared.event.WorkerEvent.TheVariants.{End};
ghost use Rattle.txn_states.specs.Txn.{HasMet, HasStepped, IsFlushedTxn};

use crate::committed::Committed;
use crate::discs::Discs;
use crate::node::NodeSeats;
use chronicle::{Run, Seat};
use node_machine::{NodeMachine, Part, WorkerEvent};
use std::marker::Model;
use tmf_model::Transid;

/// A transaction whose audit has landed at each disc.
#[derive(Drop)]
pub struct Flushed<'a, J: Run<Part>> {
    node: &'a NodeSeats<'a, J>,
    tx: Transid,
    discs: Discs,
    seat: Seat<NodeMachine, J>,
}

impl<'a, J: Run<Part>> Model for Flushed<'a, J> {
    ghost use Rattle.txn_states.specs.Txn.{Txn, IsFlushedTxn};

    ghost Value = { Txn };

    ghost view = { λ a. record { tx = a.tx; discs = a.discs; seat = a.seat; steps = a.node.now.steps } };

    ghost invariant = { λ a. IsFlushedTxn J.opening (record { tx = a.tx; discs = a.discs; seat = a.seat; steps = a.node.now.steps }) };
}

impl<'a, J: Run<Part>> Flushed<'a, J> {
    pub(crate) fn new(
        node: &'a NodeSeats<'a, J>,
        tx: Transid,
        discs: Discs,
        seat: Seat<NodeMachine, J>,
    ) -> Flushed<'a, J>
        requires { IsFlushedTxn J.opening (record { tx = tx; discs = discs; seat = seat; steps = node.now.steps }) }
        ensures { result ≡ record { tx = tx; discs = discs; seat = seat; steps = node.now.steps } }
    {
        Flushed {
            node,
            tx,
            discs,
            seat,
        }
    }

    /// Its identifier. Whoever asks learns what the state says.
    pub fn tx(&self) -> Transid
        ensures tx { result ≡ self.now.tx }
        ensures state { IsFlushedTxn J.opening self.now }
    {
        self.tx
    }

    /// The discs that it has enlisted, each once, in order.
    pub fn discs(&self) -> &[u8]
        ensures { result.now ≡ self.now.discs }
    {
        self.discs.as_slice()
    }

    /// How many events its worker has had.
    pub fn events(&self) -> u64
        ensures { result ≡ min (length (own_events self.now.seat)) (2 ^ 64 - 1) }
    {
        self.node.chronicle.counted(&self.seat)
    }

    /// Lets its worker's seat and another tell each other what they have seen.
    pub fn meet(&mut self, other: &mut Seat<NodeMachine, J>)
        ensures met { HasMet J.opening self.old self.new other.old other.new }
        ensures state { IsFlushedTxn J.opening self.new }
    {
        self.node.chronicle.meet(&mut self.seat, other);
    }

    /// A seat without a part that has seen what its worker's seat has seen.
    pub fn note(&mut self) -> Seat<NodeMachine, J>
        ensures same { self.new ≡ self.old }
        ensures note { result ≡ note_of self.old.seat }
    {
        self.node.chronicle.note(&mut self.seat)
    }

    /// Its worker's seat.
    pub fn into_seat(self) -> Seat<NodeMachine, J>
        ensures { result ≡ self.entry.seat }
    {
        self.seat
    }

    /// Decides its commit.
    pub fn decide(self) -> Committed<'a, J>
        ensures { HasStepped J.opening self.entry (OfWorker (End self.entry.tx) ∷ []) result }
    {
        let Flushed {
            node,
            tx,
            discs,
            mut seat,
        } = self;
        node.chronicle.append(&mut seat, &WorkerEvent::End(tx));
        Committed::new(node, tx, discs, seat)
    }
}
