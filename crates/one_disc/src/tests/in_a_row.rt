//! Calls in a row, each by the clauses of those before it.
ghost use Rattle.std.specs.Prelude.{IsSome, ◌≡◌, true};
ghost use Rattle.node_machine.specs.Made.{volume_of};
ghost use Rattle.tmf_model.specs.Config.{IsDeclared};
ghost use Rattle.tmf_model.specs.Transid.{is_transid};
ghost use Rattle.disc_process.specs.Disc.{AreTrails};

use audit_writer::{AuditWriter, DeviceRun};
use disc_process::DiscState;
use disk_model::Disk;
use node_machine::By;
use std::sync::Wait;
use tmf_model::Step;
use txn_states::{Active, Ended};

/// Two steps of a transaction, its close, a flush, and a draw of what is to be drawn: what the first step asks for is all that is asked.
fn in_a_row<'a, D: Disk, J: DeviceRun<D>, R: Wait>(
    rt: &R,
    disc: &mut DiscState<'a, D, J>,
    tx: Active<'a, J>,
    trails: &[AuditWriter<'a, D, J>],
    step: &Step,
) -> bool
    requires declared { IsDeclared disc.old.part.config.files step.now.file }
    requires here { volume_of disc.old.part.config step.now.file ≡ disc.old.part.number }
    requires trails { AreTrails disc.old.part.config trails.now }
    requires valid { is_transid tx.tx ≡ true }
{
    let mut tx = tx;
    if disc.write(rt, &mut tx, trails, step).is_err() {
        return false;
    }
    let again = disc.write(rt, &mut tx, trails, step).is_ok();
    let mut tx = tx.end();
    let closed = disc.close(&mut tx).is_ok();
    let by = By::Attempt(tx.tx());
    let mut note = tx.note();
    let flushed = disc.flush(rt, by, &mut note, trails).is_ok();
    let drawn = match disc.dirty() {
        Some(n) => disc.draw(rt, by, trails, n).is_ok(),
        None => true,
    };
    again && closed && flushed && drawn
}

/// A release of a transaction that has ended, one more, and a step of another: what the first release and the step ask for at the beginning is all that is asked.
fn behind_release<'a, D: Disk, J: DeviceRun<D>, R: Wait>(
    rt: &R,
    disc: &mut DiscState<'a, D, J>,
    ended: &mut Ended<'a, J>,
    tx: &mut Active<'a, J>,
    trails: &[AuditWriter<'a, D, J>],
    step: &Step,
) -> bool
    requires ended { IsSome ended.old.place }
    requires declared { IsDeclared disc.old.part.config.files step.now.file }
    requires here { volume_of disc.old.part.config step.now.file ≡ disc.old.part.number }
    requires trails { AreTrails disc.old.part.config trails.now }
    requires valid { is_transid tx.old.tx ≡ true }
{
    disc.release(ended);
    disc.release(ended);
    disc.write(rt, tx, trails, step).is_ok()
}
