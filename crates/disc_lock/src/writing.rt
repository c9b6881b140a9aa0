//! The steps of a transaction at a disc whose lock is held.
ghost use Rattle.std.specs.Prelude.{◌≡◌, ◌≤◌, true};
ghost use Rattle.node_machine.specs.Made.{volume_of};
ghost use Rattle.tmf_model.specs.Config.{IsDeclared};
ghost use Rattle.tmf_model.specs.Transid.{is_transid};
ghost use Rattle.disc_process.specs.Disc.{AreTrails};
ghost use Rattle.disc_process.specs.InTime.{IsUnended};
ghost use Rattle.disc_process.specs.Later.{IsLaterDisc, IsLaterTxn};
ghost use Rattle.disc_process.specs.Write.{IsAnswered};
ghost use Rattle.disc_lock.specs.Locks.{held_disc};
ghost use Rattle.disc_lock.specs.Tokens.{HasGiven, MayGive, is_told};

use crate::acts::ActsOf;
use crate::guard::DiscGuard;
use crate::numbered::DiscAt;
use audit_writer::{AuditWriter, DeviceRun};
use disc_process::WriteRefused;
use disk_model::Disk;
use std::sync::Wait;
use std::sync::ledger::Share;
use tmf_model::{Step, Value};
use txn_states::Active;

/// Whether the disc tells the answer by an act.
fn is_told(answer: &Result<Option<Value>, WriteRefused>) -> bool
    ensures { result ≡ is_told answer.now }
{
    matches!(
        answer,
        Ok(_) | Err(WriteRefused::Busy(_) | WriteRefused::Full | WriteRefused::Refused(_))
    )
}

impl<'a, D: Disk, J: DeviceRun<D>> DiscAt<'a, D, J> {
    /// Carries out a step of a transaction, or refuses it. Its worker has not ended the attempt's steps in what both seats have then seen.
    /// Where the disc tells the answer by an act, it takes one of the caller's tokens.
    pub fn write<R: Wait>(
        &mut self,
        rt: &R,
        tx: &mut Active<'a, J>,
        trails: &[AuditWriter<'a, D, J>],
        step: &Step,
        share: &mut Share<ActsOf<J>>,
    ) -> Result<Option<Value>, WriteRefused>
        requires declared { IsDeclared self.old.state.part.config.files step.now.file }
        requires here { volume_of self.old.state.part.config step.now.file ≡ self.old.state.part.number }
        requires trails { AreTrails self.old.state.part.config trails.now }
        requires valid { is_transid tx.old.tx ≡ true }
        requires token { MayGive share.old }
        ensures answered { IsAnswered D.Disk self.old.state self.new.state tx.old tx.new step.now result }
        ensures disc { IsLaterDisc J.opening self.old.state self.new.state }
        ensures txn { IsLaterTxn J.opening tx.old tx.new }
        ensures seen { tx.new.seat.seen ≡ self.new.state.seat.seen }
        ensures in_time { IsUnended tx.old.tx self.new.state.seat.seen }
        ensures later { D.faults self.old.state.blocks.device ≤ D.faults self.new.state.blocks.device }
        ensures given { HasGiven (is_told result) share.old share.new }
    {
        let answer = self.state.write(rt, tx, trails, step);
        let told = is_told(&answer);
        if told {
            share.transfer(&mut self.share, 1);
        }
        answer
    }
}

impl<'g, 'a, D: Disk, J: DeviceRun<D>> DiscGuard<'g, 'a, D, J> {
    /// Carries out a step of a transaction, or refuses it. Its worker has not ended the attempt's steps in what both seats have then seen.
    /// Where the disc tells the answer by an act, it takes one of the caller's tokens.
    pub fn write<R: Wait>(
        &mut self,
        rt: &R,
        tx: &mut Active<'a, J>,
        trails: &[AuditWriter<'a, D, J>],
        step: &Step,
        share: &mut Share<ActsOf<J>>,
    ) -> Result<Option<Value>, WriteRefused>
        requires declared { IsDeclared (held_disc self.old).part.config.files step.now.file }
        requires here { volume_of (held_disc self.old).part.config step.now.file ≡ (held_disc self.old).part.number }
        requires trails { AreTrails (held_disc self.old).part.config trails.now }
        requires valid { is_transid tx.old.tx ≡ true }
        requires token { MayGive share.old }
        ensures answered { IsAnswered D.Disk (held_disc self.old) (held_disc self.new) tx.old tx.new step.now result }
        ensures disc { IsLaterDisc J.opening (held_disc self.old) (held_disc self.new) }
        ensures txn { IsLaterTxn J.opening tx.old tx.new }
        ensures seen { tx.new.seat.seen ≡ (held_disc self.new).seat.seen }
        ensures in_time { IsUnended tx.old.tx (held_disc self.new).seat.seen }
        ensures later { D.faults (held_disc self.old).blocks.device ≤ D.faults (held_disc self.new).blocks.device }
        ensures given { HasGiven (is_told result) share.old share.new }
    {
        self.disc.write(rt, tx, trails, step, share)
    }
}
