//! A transaction that is under way, and may make changes.
ghost use Rattle.std.specs.Prelude.{◌≡◌, ◌^◌, ◌-◌, [], ◌∷◌, length, min};
ghost use Rattle.chronicle.specs.Seats.{note_of, own_events};
ghost use Rattle.std.specs.Prelude.{◌≤◌, ◌<◌, true, false, IfOk, IfErr, OnOk, OnErr};
ghost use Rattle.node_machine.specs.declared.event.Event.TheVariants.{OfWorker};
ghost use Rattle.node_machine.specs.declared.event.WorkerEvent.TheVariants.{Begin, Finish, Quit};
ghost use Rattle.node_machine.specs.Seats.{CanBegin};
ghost use Rattle.txn_states.specs.Txn.{HasAdvanced, HasBegun, HasEnlisted, HasMet, HasStepped, IsActiveTxn, IsBeginRefusal, is_spent_for};

use crate::aborting::Aborting;
use crate::discs::Discs;
use crate::ending::Ending;
use crate::node::{MONITOR_PART, NodeSeats};
use chronicle::{Run, Seat};
use node_machine::{NodeMachine, Part, WorkerEvent};
use std::marker::Model;
use tmf_model::Transid;

/// Begins an attempt, unless its worker or the monitor has had as many events as the node allows: it is then refused with that part.
pub fn begin<'a, J: Run<Part>>(
    seat: Seat<NodeMachine, J>,
    tx: Transid,
    node: &'a NodeSeats<'a, J>,
) -> Result<Active<'a, J>, (Seat<NodeMachine, J>, u32)>
    requires can { CanBegin J.opening seat tx }
    requires worker { 1 ≤ tx.worker }
    ensures begun { IfOk result (λ active. HasBegun J.opening seat tx node.now.steps node.now.monitor active) }
    ensures refused { IfErr result (λ refused. IsBeginRefusal seat tx node.now.steps node.now.monitor refused.0 refused.1) }
{
    if node.steps <= node.chronicle.counted(&seat) {
        return Err((seat, worker_part(tx)));
    }
    if node.steps <= node.monitor {
        return Err((seat, MONITOR_PART));
    }
    Ok(Active::begin_here(seat, tx, node))
}

/// The part of the attempt's worker.
fn worker_part(tx: Transid) -> u32
    requires { 1 ≤ tx.worker }
    ensures { result ≡ tx.worker - 1 }
{
    u32::from(tx.worker) - 1
}

/// A transaction that is under way, and may make changes.
#[derive(Drop)]
pub struct Active<'a, J: Run<Part>> {
    node: &'a NodeSeats<'a, J>,
    tx: Transid,
    discs: Discs,
    seat: Seat<NodeMachine, J>,
}

impl<'a, J: Run<Part>> Model for Active<'a, J> {
    ghost use Rattle.txn_states.specs.Txn.{Txn, IsActiveTxn};

    ghost Value = { Txn };

    ghost view = { λ a. record { tx = a.tx; discs = a.discs; seat = a.seat; steps = a.node.now.steps } };

    ghost invariant = { λ a. IsActiveTxn J.opening (record { tx = a.tx; discs = a.discs; seat = a.seat; steps = a.node.now.steps }) };
}

impl<'a, J: Run<Part>> Active<'a, J> {
    /// Its identifier. Whoever asks learns what the state says.
    pub fn tx(&self) -> Transid
        ensures tx { result ≡ self.now.tx }
        ensures state { IsActiveTxn J.opening self.now }
    {
        self.tx
    }

    /// The discs that it has enlisted, each once, in order.
    pub fn discs(&self) -> &[u8]
        ensures { result.now ≡ self.now.discs }
    {
        self.discs.as_slice()
    }

    /// How many events its worker has had.
    pub fn events(&self) -> u64
        ensures { result ≡ min (length (own_events self.now.seat)) (2 ^ 64 - 1) }
    {
        self.node.chronicle.counted(&self.seat)
    }

    /// Lets its worker's seat and another tell each other what they have seen.
    pub fn meet(&mut self, other: &mut Seat<NodeMachine, J>)
        ensures met { HasMet J.opening self.old self.new other.old other.new }
        ensures state { IsActiveTxn J.opening self.new }
    {
        self.node.chronicle.meet(&mut self.seat, other);
    }

    /// A seat without a part that has seen what its worker's seat has seen.
    pub fn note(&mut self) -> Seat<NodeMachine, J>
        ensures same { self.new ≡ self.old }
        ensures note { result ≡ note_of self.old.seat }
    {
        self.node.chronicle.note(&mut self.seat)
    }

    /// Its worker's seat.
    pub fn into_seat(self) -> Seat<NodeMachine, J>
        ensures { result ≡ self.entry.seat }
    {
        self.seat
    }

    /// Begins an attempt where nothing is spent.
    fn begin_here(
        seat: Seat<NodeMachine, J>,
        tx: Transid,
        node: &'a NodeSeats<'a, J>,
    ) -> Active<'a, J>
        requires can { CanBegin J.opening seat tx }
        requires worker { 1 ≤ tx.worker }
        ensures tx { result.tx ≡ tx }
        ensures discs { result.discs ≡ [] }
        ensures steps { result.steps ≡ node.now.steps }
        ensures seat { HasAdvanced J.opening seat (OfWorker (Begin tx) ∷ []) result.seat }
    {
        let mut seat = seat;
        node.chronicle.append(&mut seat, &WorkerEvent::Begin(tx));
        Active {
            node,
            tx,
            discs: Discs::new(),
            seat,
        }
    }

    /// Enlists the disc where it is new, unless its worker has had as many events as the node allows: it is then refused with that part.
    pub fn enlist(&mut self, disc: u8) -> Result<(), u32>
        requires { disc < 9 }
        ensures enlisted { OnOk result (HasEnlisted J.opening self.old disc self.new) }
        ensures room { OnOk result (is_spent_for self.old disc ≡ false) }
        ensures refused { IfErr result (λ part. (part ≡ self.old.tx.worker - 1) × (is_spent_for self.old disc ≡ true)) }
        ensures unchanged { OnErr result (self.new ≡ self.old) }
    {
        if !self.discs.has(disc) && self.node.steps <= self.events() {
            return Err(worker_part(self.tx));
        }
        self.enlist_here(disc);
        Ok(())
    }

    /// Enlists the disc where it is new. The node's limit of events is the caller's to look at.
    pub fn enlist_here(&mut self, disc: u8)
        requires { disc < 9 }
        ensures { HasEnlisted J.opening self.old disc self.new }
    {
        if !self.discs.has(disc) {
            self.node
                .chronicle
                .append(&mut self.seat, &WorkerEvent::Enlist(self.tx, disc));
            self.discs.push(disc);
        }
    }

    /// It asks for no more changes, and is to be committed.
    pub fn end(self) -> Ending<'a, J>
        ensures { HasStepped J.opening self.entry (OfWorker (Finish self.entry.tx) ∷ []) result }
    {
        let Active {
            node,
            tx,
            discs,
            mut seat,
        } = self;
        node.chronicle.append(&mut seat, &WorkerEvent::Finish(tx));
        Ending::new(node, tx, discs, seat)
    }

    /// It is to be backed out.
    pub fn quit(self) -> Aborting<'a, J>
        ensures { HasStepped J.opening self.entry (OfWorker (Quit self.entry.tx) ∷ []) result }
    {
        let Active {
            node,
            tx,
            discs,
            mut seat,
        } = self;
        node.chronicle.append(&mut seat, &WorkerEvent::Quit(tx));
        Aborting::new(node, tx, discs, seat)
    }
}
