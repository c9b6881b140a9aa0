//! The end of a transaction's changes at a disc, and the landing of their audit without the disc's lock.
ghost use Rattle.std.specs.Prelude.{◌≡◌, ◌==◌, ◌-◌, ◌≤◌, ℕ, true, ◌⊎◌, [], IfErr, IfOk, MatchResult, OnOk};
ghost use Rattle.std.specs.List.{list_any};
ghost use Rattle.chronicle.specs.Seats.{Knows};
ghost use Rattle.node_machine.specs.Made.{last_write, next_position};
ghost use Rattle.node_machine.specs.Monitor.{IsFlushed};
ghost use Rattle.node_machine.specs.Node.{node};
ghost use Rattle.node_machine.specs.Parts.Fact.{Closed, Durable};
ghost use Rattle.node_machine.specs.Trail.{trail_of};
ghost use Rattle.node_machine.specs.declared.event.By.TheVariants.{Attempt};
ghost use Rattle.audit_writer.specs.Locked.{HasFailed};
ghost use Rattle.txn_states.specs.Txn.{HasStepped};
ghost use Rattle.disc_process.specs.Disc.{AreTrails};
ghost use Rattle.disc_process.specs.CloseLanded.{HasClosed, IsIdleDisc};
ghost use Rattle.disc_process.specs.Later.{HaveGrown, IsLaterDisc};

use crate::disc::{DiscState, trail_of, writer_of};
use audit_writer::{AuditWriter, DeviceRun, FlushRefused, NodeRun};
use chronicle::Seat;
use disk_model::Disk;
use node_machine::{By, NodeMachine};
use record_locks::NoMemory;
use std::marker::Model;
use std::sync::Wait;
use tmf_model::{Config, Transid};
use trail_files::AuditRecord;
use txn_states::Ending;

/// What a disc hands out to a transaction that has closed there: the audit that its seat has not seen durable, and a note of that seat.
#[derive(Drop)]
pub struct Handover<'a, J: NodeRun> {
    config: &'a Config,
    volume: u8,
    tx: Transid,
    records: Vec<AuditRecord>,
    /// The position of the disc's last record.
    last: u64,
    /// Up to this position the note knows the disc's audit to be durable.
    landed: u64,
    note: Seat<NodeMachine, J>,
}

impl<'a, J: NodeRun> Model for Handover<'a, J> {
    ghost use Rattle.disc_process.specs.Handover.{HandoverView, IsHandover};

    ghost Value = { HandoverView };

    ghost view = { λ h. record { seat = h.note; tx = h.tx; disc = h.volume } };

    ghost invariant = { λ h. IsHandover J.opening J.found J.rules h.config.now h.volume h.tx h.records.items h.last h.landed h.note };
}

/// Lands what a disc has handed out, without the disc's lock. Then the transaction's seat knows that what it has changed there has landed. Where the
/// trail has failed, or memory is wanting, it may be called again.
pub fn land<'a, R: Wait, D: Disk, J: DeviceRun<D>>(
    rt: &R,
    handover: &mut Handover<'a, J>,
    tx: &mut Ending<'a, J>,
    trails: &[AuditWriter<'a, D, J>],
) -> Result<(), FlushRefused>
    requires { AreTrails (J.found).config trails.now }
    ensures flushed { OnOk result (IsFlushed (Knows node J.opening tx.new.seat) handover.old.tx handover.old.disc) }
    ensures refused { IfErr result (HasFailed (trail_of (J.found).config handover.old.disc) (Attempt tx.old.tx) tx.old.seat tx.new.seat) }
    ensures txn { HasStepped J.opening tx.old [] tx.new }
    ensures same { (handover.new.tx ≡ handover.old.tx) × (handover.new.disc ≡ handover.old.disc) }
    ensures seen { tx.new.seat.seen ≡ handover.new.seat.seen }
{
    let t = tx.tx();
    tx.meet(&mut handover.note);
    let writer = writer_of(
        trails,
        handover.config,
        trail_of(handover.config, handover.volume),
    );
    let landed = writer.flush(
        rt,
        &mut handover.note,
        By::Attempt(t),
        handover.records.as_slice(),
    );
    tx.meet(&mut handover.note);
    if landed.is_err() {
        return landed;
    }
    handover.landed = handover.last;
    Ok(())
}

impl<'a, D: Disk, J: DeviceRun<D>> DiscState<'a, D, J> {
    /// Ends what a transaction asks for here, and hands out the disc's audit, which then lands without the disc's lock (`land`). Where memory is
    /// wanting it may have closed.
    pub fn close_handing(&mut self, tx: &mut Ending<'a, J>) -> Result<Handover<'a, J>, NoMemory>
        requires { list_any (λ d. d == self.old.part.number) tx.old.discs ≡ true }
        ensures handed { IfOk result (λ h. (h.tx ≡ tx.old.tx) × (h.disc ≡ self.old.part.number) × (h.seat.seen ≡ self.new.seat.seen)) }
        ensures closed { OnOk result (Knows node J.opening tx.new.seat (Closed tx.old.tx self.old.part.number (last_write self.old.part.events tx.old.tx))) }
        ensures events { MatchResult result (λ _. HasClosed self.old self.new tx.old.tx) (λ _. IsIdleDisc self.old self.new ⊎ HasClosed self.old self.new tx.old.tx) }
        ensures disc { IsLaterDisc J.opening self.old self.new }
        ensures txn { HasStepped J.opening tx.old [] tx.new }
        ensures seen { MatchResult result (λ _. tx.new.seat.seen ≡ self.new.seat.seen) (λ _. IsIdleDisc self.old self.new ⊎ (tx.new.seat.seen ≡ self.new.seat.seen)) }
        ensures blocks { self.new.blocks ≡ self.old.blocks }
    {
        let _ = &self.alloc;
        let t = tx.tx();
        self.close(tx)?;
        self.hand_out(t)
    }

    /// Hands out the audit that the disc's seat has not seen durable, for a transaction that has closed.
    fn hand_out(&mut self, t: Transid) -> Result<Handover<'a, J>, NoMemory>
        requires { (p : ℕ) × Knows node J.opening self.old.seat (Closed t self.old.part.number p) × (p ≤ next_position self.old.part - 1) }
        ensures handed { IfOk result (λ h. (h.tx ≡ t) × (h.disc ≡ self.old.part.number) × (h.seat.seen ≡ self.old.seat.seen)) }
        ensures same { self.new ≡ self.old }
    {
        let mut records = Vec::new(self.alloc);
        if records.extend_from_slice(self.pending.as_slice()).is_err() {
            return Err(NoMemory);
        }
        let note = self.chronicle.note(&mut self.seat);
        let last = self.next.saturating_sub(1);
        let landed = last.saturating_sub(self.pending.len() as u64);
        Ok(Handover {
            config: self.config,
            volume: self.volume,
            tx: t,
            records,
            last,
            landed,
            note,
        })
    }

    /// Takes in what a handover knows, and forgets the audit that it has landed.
    pub fn settle(&mut self, handover: &mut Handover<'a, J>)
        requires { handover.old.disc ≡ self.old.part.number }
        ensures part { self.new.part ≡ self.old.part }
        ensures blocks { self.new.blocks ≡ self.old.blocks }
        ensures seats { HaveGrown J.opening self.old.seat self.new.seat handover.old.seat handover.new.seat }
        ensures same { self.new.seat.seen ≡ handover.new.seat.seen }
    {
        self.meet(&mut handover.note);
        self.forget(handover.landed);
    }

    /// Forgets the audit up to a position up to which the disc's seat knows it durable.
    fn forget(&mut self, landed: u64)
        requires { Knows node J.opening self.old.seat (Durable self.old.part.number landed) }
        ensures { self.new ≡ self.old }
    {
        let kept = self.next.saturating_sub(1).saturating_sub(landed);
        let count = self.pending.len();
        if count as u64 <= kept {
            return;
        }
        let Ok(rest) = self.pending.split_off(count - kept as usize) else {
            return;
        };
        self.pending = rest;
    }
}
