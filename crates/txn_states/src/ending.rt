//! A transaction that asks for no more changes, and is to be committed.
ghost use Rattle.std.specs.Prelude.{◌≡◌, ◌^◌, ◌-◌, [], ◌∷◌, length, min};
ghost use Rattle.chronicle.specs.Seats.{note_of, own_events};
ghost use Rattle.node_machine.specs.declared.event.Event.TheVariants.{OfWorker};
ghost use Rattle.node_machine.specs.declared.event.WorkerEvent.TheVariants.{Quit};
ghost use Rattle.txn_states.specs.Txn.{AreFlushed, HasMet, HasStepped, IsEndingTxn};

use crate::aborting::Aborting;
use crate::discs::Discs;
use crate::flushed::Flushed;
use crate::node::NodeSeats;
use chronicle::{Run, Seat};
use node_machine::{NodeMachine, Part, WorkerEvent};
use std::marker::Model;
use tmf_model::Transid;

/// A transaction that asks for no more changes, and is to be committed.
#[derive(Drop)]
pub struct Ending<'a, J: Run<Part>> {
    node: &'a NodeSeats<'a, J>,
    tx: Transid,
    discs: Discs,
    seat: Seat<NodeMachine, J>,
}

impl<'a, J: Run<Part>> Model for Ending<'a, J> {
    ghost use Rattle.txn_states.specs.Txn.{Txn, IsEndingTxn};

    ghost Value = { Txn };

    ghost view = { λ a. record { tx = a.tx; discs = a.discs; seat = a.seat; steps = a.node.now.steps } };

    ghost invariant = { λ a. IsEndingTxn J.opening (record { tx = a.tx; discs = a.discs; seat = a.seat; steps = a.node.now.steps }) };
}

impl<'a, J: Run<Part>> Ending<'a, J> {
    pub(crate) fn new(
        node: &'a NodeSeats<'a, J>,
        tx: Transid,
        discs: Discs,
        seat: Seat<NodeMachine, J>,
    ) -> Ending<'a, J>
        requires { IsEndingTxn J.opening (record { tx = tx; discs = discs; seat = seat; steps = node.now.steps }) }
        ensures { result ≡ record { tx = tx; discs = discs; seat = seat; steps = node.now.steps } }
    {
        Ending {
            node,
            tx,
            discs,
            seat,
        }
    }

    /// Its identifier. Whoever asks learns what the state says.
    pub fn tx(&self) -> Transid
        ensures tx { result ≡ self.now.tx }
        ensures state { IsEndingTxn J.opening self.now }
    {
        self.tx
    }

    /// The discs that it has enlisted, each once, in order.
    pub fn discs(&self) -> &[u8]
        ensures { result.now ≡ self.now.discs }
    {
        self.discs.as_slice()
    }

    /// How many events its worker has had.
    pub fn events(&self) -> u64
        ensures { result ≡ min (length (own_events self.now.seat)) (2 ^ 64 - 1) }
    {
        self.node.chronicle.counted(&self.seat)
    }

    /// Lets its worker's seat and another tell each other what they have seen.
    pub fn meet(&mut self, other: &mut Seat<NodeMachine, J>)
        ensures met { HasMet J.opening self.old self.new other.old other.new }
        ensures state { IsEndingTxn J.opening self.new }
    {
        self.node.chronicle.meet(&mut self.seat, other);
    }

    /// A seat without a part that has seen what its worker's seat has seen.
    pub fn note(&mut self) -> Seat<NodeMachine, J>
        ensures same { self.new ≡ self.old }
        ensures note { result ≡ note_of self.old.seat }
    {
        self.node.chronicle.note(&mut self.seat)
    }

    /// Its worker's seat.
    pub fn into_seat(self) -> Seat<NodeMachine, J>
        ensures { result ≡ self.entry.seat }
    {
        self.seat
    }

    /// It is to be backed out instead.
    pub fn quit(self) -> Aborting<'a, J>
        ensures { HasStepped J.opening self.entry (OfWorker (Quit self.entry.tx) ∷ []) result }
    {
        let Ending {
            node,
            tx,
            discs,
            mut seat,
        } = self;
        node.chronicle.append(&mut seat, &WorkerEvent::Quit(tx));
        Aborting::new(node, tx, discs, seat)
    }

    /// Its audit has landed at each disc.
    pub fn flushed(self) -> Flushed<'a, J>
        requires { AreFlushed J.opening self }
        ensures { result ≡ self.entry }
    {
        let Ending {
            node,
            tx,
            discs,
            seat,
        } = self;
        Flushed::new(node, tx, discs, seat)
    }
}
