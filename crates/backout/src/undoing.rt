//! The undo of a transaction's changes, disc by disc.
ghost use Rattle.std.specs.Prelude.{◌≡◌, [], true, IfErr, OnOk};
ghost use Rattle.node_machine.specs.Made.{changes_left};
ghost use Rattle.tmf_model.specs.Transid.{is_transid};
ghost use Rattle.txn_states.specs.Txn.{HasStepped};
ghost use Rattle.disc_process.specs.Disc.{AreTrails};
ghost use Rattle.disc_process.specs.Later.{IsLaterDisc};
ghost use Rattle.disc_lock.specs.Locks.{held_disc};
ghost use Rattle.phase_one.specs.Stopped.{HasDisc, HaveDiscs};
ghost use Rattle.backout.specs.Backed.{AreUndone, IsStuckAt, IsStuckBehind, IsStuckSomewhere, WasUndone};

use crate::finding::disc_of;
use audit_writer::{AuditWriter, DeviceRun};
use disc_lock::{DiscGuard, DiscProcess};
use disc_process::UndoRefused;
use disk_model::Disk;
use std::sync::Wait;
use txn_states::Aborting;

/// Undoes all that is left of a transaction at a disc whose lock is held, the newest change first.
fn undo_all<'g, 'a, R: Wait, D: Disk, J: DeviceRun<D>>(
    rt: &R,
    disc: &mut DiscGuard<'g, 'a, D, J>,
    tx: &mut Aborting<'a, J>,
    trails: &[AuditWriter<'a, D, J>],
) -> Result<(), UndoRefused>
    requires trails { AreTrails (held_disc disc.old).part.config trails.now }
    requires valid { is_transid tx.old.tx ≡ true }
    ensures undone { OnOk result (changes_left (held_disc disc.new).part.events tx.old.tx ≡ []) }
    ensures stuck { IfErr result (IsStuckBehind D.Disk J.opening (held_disc disc.old) (held_disc disc.new) tx.old.tx) }
    ensures disc { IsLaterDisc J.opening (held_disc disc.old) (held_disc disc.new) }
    ensures txn { HasStepped J.opening tx.old [] tx.new }
    ensures seen { tx.new.seat.seen ≡ (held_disc disc.new).seat.seen }
{
    while disc.undo_one(rt, tx, trails)? {}
    Ok(())
}

/// The same at the disc with this number, in one hold of its lock.
fn undo_at<'a, R: Wait, D: Disk, J: DeviceRun<D>>(
    rt: &R,
    tx: &mut Aborting<'a, J>,
    number: u8,
    discs: &[DiscProcess<'a, D, J>],
    trails: &[AuditWriter<'a, D, J>],
) -> Result<(), UndoRefused>
    requires disc { HasDisc discs.now number }
    requires trails { AreTrails (J.found).config trails.now }
    requires valid { is_transid tx.old.tx ≡ true }
    ensures undone { OnOk result (WasUndone J.opening tx.old.tx tx.old.seat.seen tx.new.seat.seen number) }
    ensures stuck { IfErr result (IsStuckAt D.Disk J.opening (J.found).config J.devices tx.old.tx tx.old.seat tx.new.seat number) }
    ensures txn { HasStepped J.opening tx.old [] tx.new }
{
    let mut note = tx.note();
    let mut disc = disc_of(discs, number).lock(rt);
    disc.meet(&mut note);
    disc.lawful();
    let answer = undo_all(rt, &mut disc, tx, trails);
    disc.lawful();
    disc.device_lawful();
    answer
}

/// Undoes all that is left of a transaction at each disc that it has enlisted.
pub(crate) fn undo_everywhere<'a, R: Wait, D: Disk, J: DeviceRun<D>>(
    rt: &R,
    tx: &mut Aborting<'a, J>,
    discs: &[DiscProcess<'a, D, J>],
    trails: &[AuditWriter<'a, D, J>],
) -> Result<(), UndoRefused>
    requires discs { HaveDiscs discs.now tx.old.discs }
    requires trails { AreTrails (J.found).config trails.now }
    requires valid { is_transid tx.old.tx ≡ true }
    ensures undone { OnOk result (AreUndone J.opening tx.old tx.new.seat) }
    ensures stuck { IfErr result (IsStuckSomewhere D.Disk J.opening (J.found).config J.devices tx.old tx.new.seat) }
    ensures txn { HasStepped J.opening tx.old [] tx.new }
{
    let count = tx.discs().len();
    for index in 0..count {
        let number = tx.discs()[index];
        match undo_at(rt, tx, number, discs, trails) {
            Ok(()) => {}
            Err(refusal) => return Err(refusal),
        }
    }
    Ok(())
}
