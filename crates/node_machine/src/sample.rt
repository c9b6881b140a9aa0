//! A few calls on seats, as the crates above make them.
ghost use Rattle.std.specs.Prelude.{◌≡◌, ◌==◌, ℕ, ◌++◌, [], ◌∷◌, List, Some, false};
ghost use Rattle.std.specs.List.{list_any};
ghost use Rattle.chronicle.specs.Seats.{Knows, own_events, part_state};
ghost use Rattle.node_machine.specs.declared.event.Event.TheVariants.{OfDisc, OfMonitor, OfTrail, OfWorker};
ghost use Rattle.node_machine.specs.declared.event.DiscEvent.TheVariants.{Write};
ghost use Rattle.node_machine.specs.declared.event.MonitorEvent.TheVariants.{Offer};
ghost use Rattle.node_machine.specs.declared.event.TrailEvent.TheVariants.{Offer as OfferBatch};
ghost use Rattle.node_machine.specs.declared.event.WorkerEvent.TheVariants.{Begin, End, Enlist, Finish};
ghost use Rattle.node_machine.specs.Parts.{DiscPart};
ghost use Rattle.node_machine.specs.Parts.Fact.{Decided, Enlisted};
ghost use Rattle.node_machine.specs.Parts.PartState.{Disc};
ghost use Rattle.node_machine.specs.Node.{node};
ghost use Rattle.node_machine.specs.Seats.{CanBegin, CanOffer, CanOfferAudit, CanWrite, IsActive, IsCommitting};
ghost use Rattle.tmf_model.specs.declared.script.Close.TheVariants.{Commit};

use crate::event::{AuditOffer, CarOffer, DiscEvent, WorkerEvent};
use crate::machine::{NodeMachine, Part};
use chronicle::{Chronicle, Run, Seat};
use tmf_model::{Op, Transid};
use trail_files::{AuditRecord, MonitorRecord};

/// Begins an attempt.
pub fn begin<J: Run<Part>>(
    chronicle: &Chronicle<NodeMachine, J>,
    seat: &mut Seat<NodeMachine, J>,
    tx: Transid,
)
    requires { CanBegin J.opening seat.old tx }
    ensures active { IsActive J.opening seat.new tx [] }
    ensures mine { own_events seat.new ≡ own_events seat.old ++ OfWorker (Begin tx) ∷ [] }
{
    chronicle.append(seat, &WorkerEvent::Begin(tx));
}

/// Enlists a disc that the attempt has not enlisted.
pub fn enlist<J: Run<Part>>(
    chronicle: &Chronicle<NodeMachine, J>,
    seat: &mut Seat<NodeMachine, J>,
    tx: Transid,
    number: u8,
)
    ghost discs: { List ℕ }
    requires active { IsActive J.opening seat.old tx discs }
    requires fresh { list_any (λ other. other == number) discs ≡ false }
    ensures active { IsActive J.opening seat.new tx (discs ++ number ∷ []) }
    ensures knows { Knows node J.opening seat.new (Enlisted tx number) }
    ensures mine { own_events seat.new ≡ own_events seat.old ++ OfWorker (Enlist tx number) ∷ [] }
{
    chronicle.append(seat, &WorkerEvent::Enlist(tx, number));
}

/// Asks for no more changes.
pub fn finish<J: Run<Part>>(
    chronicle: &Chronicle<NodeMachine, J>,
    seat: &mut Seat<NodeMachine, J>,
    tx: Transid,
)
    ghost discs: { List ℕ }
    requires { IsActive J.opening seat.old tx discs }
    ensures { IsCommitting J.opening seat.new tx discs }
{
    chronicle.append(seat, &WorkerEvent::Finish(tx));
}

/// Decides that the attempt is to be committed.
pub fn decide<J: Run<Part>>(
    chronicle: &Chronicle<NodeMachine, J>,
    seat: &mut Seat<NodeMachine, J>,
    tx: Transid,
)
    ghost discs: { List ℕ }
    requires { IsCommitting J.opening seat.old tx discs }
    ensures { Knows node J.opening seat.new (Decided tx Commit discs) }
{
    chronicle.append(seat, &WorkerEvent::End(tx));
}

/// Makes a change of an attempt whose seat knows that it has enlisted the disc.
pub fn write<J: Run<Part>>(
    chronicle: &Chronicle<NodeMachine, J>,
    seat: &mut Seat<NodeMachine, J>,
    caller: &mut Seat<NodeMachine, J>,
    change: &AuditRecord,
    op: &Op,
)
    ghost part: { DiscPart }
    requires can { CanWrite J.opening seat.old part change.now op.now }
    requires enlisted { Knows node J.opening caller.old (Enlisted change.now.tx part.number) }
    ensures state { part_state node J.opening seat.new ≡ Some (Disc (record part { events = Write change.now op.now ∷ part.events })) }
{
    chronicle.meet(seat, caller);
    chronicle.append(seat, &DiscEvent::Write(*change, *op));
}

/// Offers a car whose records are decided, and whose commits are flushed, as the seat knows.
pub fn offer<J: Run<Part>>(
    chronicle: &Chronicle<NodeMachine, J>,
    seat: &mut Seat<NodeMachine, J>,
    records: &[MonitorRecord],
)
    requires { CanOffer J.opening seat.old records.now }
    ensures { own_events seat.new ≡ own_events seat.old ++ OfMonitor (Offer records.now) ∷ [] }
{
    chronicle.append(seat, &CarOffer { records });
}

/// Offers a batch of the next records of each of its discs, as the seat knows, in this file of the trail.
pub fn offer_audit<J: Run<Part>>(
    chronicle: &Chronicle<NodeMachine, J>,
    seat: &mut Seat<NodeMachine, J>,
    file: u32,
    records: &[AuditRecord],
)
    requires { CanOfferAudit J.opening seat.old file records.now }
    ensures { own_events seat.new ≡ own_events seat.old ++ OfTrail (OfferBatch file records.now) ∷ [] }
{
    chronicle.append(seat, &AuditOffer { file, records });
}
