//! The release of a transaction that is backed out, disc by disc.
ghost use Rattle.std.specs.Prelude.{◌≡◌, [], true, IfErr, None, OnOk};
ghost use Rattle.tmf_model.specs.Transid.{is_transid};
ghost use Rattle.txn_states.specs.Txn.{HasStepped};
ghost use Rattle.disc_process.specs.Disc.{AreTrails};
ghost use Rattle.phase_one.specs.Stopped.{HasDisc, HaveDiscs};
ghost use Rattle.backout.specs.Backed.{HasLeft, HaveLeft, IsStuckAt, IsStuckSomewhere};

use crate::finding::disc_of;
use audit_writer::{AuditWriter, DeviceRun};
use disc_lock::DiscProcess;
use disc_process::UndoRefused;
use disk_model::Disk;
use std::sync::Wait;
use txn_states::Ended;

/// Frees what a transaction holds at the disc with this number, in one hold of its lock. What is left of it there is undone before that.
fn release_at<'a, R: Wait, D: Disk, J: DeviceRun<D>>(
    rt: &R,
    tx: &mut Ended<'a, J>,
    number: u8,
    discs: &[DiscProcess<'a, D, J>],
    trails: &[AuditWriter<'a, D, J>],
) -> Result<(), UndoRefused>
    requires disc { HasDisc discs.now number }
    requires trails { AreTrails (J.found).config trails.now }
    requires valid { is_transid tx.old.txn.tx ≡ true }
    requires backed_out { tx.old.place ≡ None }
    ensures left { OnOk result (HasLeft tx.old.txn tx.new.txn.seat number) }
    ensures stuck { IfErr result (IsStuckAt D.Disk J.opening (J.found).config J.devices tx.old.txn.tx tx.old.txn.seat tx.new.txn.seat number) }
    ensures txn { HasStepped J.opening tx.old.txn [] tx.new.txn }
    ensures place { tx.new.place ≡ None }
{
    let mut note = tx.note();
    let mut disc = disc_of(discs, number).lock(rt);
    disc.meet(&mut note);
    disc.lawful();
    let answer = disc.release_undone(rt, tx, trails);
    disc.lawful();
    disc.device_lawful();
    answer
}

/// Frees what a transaction holds at each disc that it has enlisted.
pub(crate) fn release_everywhere<'a, R: Wait, D: Disk, J: DeviceRun<D>>(
    rt: &R,
    tx: &mut Ended<'a, J>,
    discs: &[DiscProcess<'a, D, J>],
    trails: &[AuditWriter<'a, D, J>],
) -> Result<(), UndoRefused>
    requires discs { HaveDiscs discs.now tx.old.txn.discs }
    requires trails { AreTrails (J.found).config trails.now }
    requires valid { is_transid tx.old.txn.tx ≡ true }
    requires backed_out { tx.old.place ≡ None }
    ensures left { OnOk result (HaveLeft tx.old.txn tx.new.txn.seat) }
    ensures stuck { IfErr result (IsStuckSomewhere D.Disk J.opening (J.found).config J.devices tx.old.txn tx.new.txn.seat) }
    ensures txn { HasStepped J.opening tx.old.txn [] tx.new.txn }
    ensures place { tx.new.place ≡ None }
{
    let count = tx.discs().len();
    for index in 0..count {
        let number = tx.discs()[index];
        match release_at(rt, tx, number, discs, trails) {
            Ok(()) => {}
            Err(refusal) => return Err(refusal),
        }
    }
    Ok(())
}
