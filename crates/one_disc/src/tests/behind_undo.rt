//! An undo, and a release behind it, each by the clauses of the calls before it.
ghost use Rattle.std.specs.Prelude.{◌≡◌, ℕ, true};
ghost use Rattle.chronicle.specs.Seats.{Knows};
ghost use Rattle.node_machine.specs.Made.{volume_of};
ghost use Rattle.node_machine.specs.Node.{node};
ghost use Rattle.node_machine.specs.Parts.Fact.{Recorded};
ghost use Rattle.tmf_model.specs.Config.{IsDeclared};
ghost use Rattle.tmf_model.specs.Transid.{is_transid};
ghost use Rattle.trail_files.specs.declared.monitor_record.MonitorRecord.TheVariants.{Abort};
ghost use Rattle.disc_process.specs.Disc.{AreTrails};

use audit_writer::{AuditWriter, DeviceRun};
use disc_process::DiscState;
use disk_model::Disk;
use std::sync::Wait;
use tmf_model::Step;
use txn_states::{Aborting, Active};

/// A change of a transaction is undone, the transaction is released and once more, and then comes a step of another. What the undo, the abort's record and
/// the step ask for at the beginning is all that is asked.
fn behind_undo<'a, D: Disk, J: DeviceRun<D>, R: Wait>(
    rt: &R,
    disc: &mut DiscState<'a, D, J>,
    undoing: Aborting<'a, J>,
    tx: &mut Active<'a, J>,
    trails: &[AuditWriter<'a, D, J>],
    step: &Step,
) -> bool
    requires recorded { (place : ℕ) × Knows node J.opening undoing.seat (Recorded (Abort undoing.tx) place) }
    requires backed { is_transid undoing.tx ≡ true }
    requires declared { IsDeclared disc.old.part.config.files step.now.file }
    requires here { volume_of disc.old.part.config step.now.file ≡ disc.old.part.number }
    requires trails { AreTrails disc.old.part.config trails.now }
    requires valid { is_transid tx.old.tx ≡ true }
{
    let mut undoing = undoing;
    let undone = disc.undo_one(rt, &mut undoing, trails).is_ok();
    let mut ended = undoing.done().ended();
    let released = disc.release_undone(rt, &mut ended, trails).is_ok();
    let again = disc.release_undone(rt, &mut ended, trails).is_ok();
    let stepped = disc.write(rt, tx, trails, step).is_ok();
    undone && released && again && stepped
}
