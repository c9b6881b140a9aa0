//! One step of an attempt, at the disc of its file.
ghost use Rattle.std.specs.Prelude.{◌≡◌, ◌⊎◌, IfErr};
ghost use Rattle.node_machine.specs.Made.{volume_of};
ghost use Rattle.disc_process.specs.Later.{IsLaterTxn};
ghost use Rattle.disc_process.specs.Write.{IsEnlisted, IsIdle};
ghost use Rattle.disc_lock.specs.Tokens.{HasGiven, MayGive, is_told};
ghost use Rattle.backout.specs.Backed.{HasCome};
ghost use Rattle.run_worker.specs.Refused.{IsStepRefusal};
ghost use Rattle.run_worker.specs.Shared.{IsActor, IsRunStep, IsShared};
ghost use Rattle.run_worker.specs.Steps.{HasMadeStep, reach_of};

use crate::finding::{disc_of, volume_of};
use crate::shared::Shared;
use boxcar_timer::Depart;
use commit_boxcar::{MonitorRun, RequestsName};
use disc_lock::ActsOf;
use disc_process::WriteRefused;
use disk_model::Disk;
use run_outcomes::{Gate, knowing_law};
use std::sync::Wait;
use std::sync::ledger::Share;
use tmf_model::{Step, Value};
use txn_states::Active;

/// Carries out a step of an attempt at the disc of its file, in one hold of that disc's lock, or says why not.
pub fn carry_out_step<
    's,
    'a,
    R: Wait,
    D: Disk,
    J: MonitorRun<D>,
    C: Depart,
    Q: RequestsName,
    G: Gate,
>(
    rt: &R,
    shared: &Shared<'s, 'a, D, J, C, Q, G>,
    tx: &mut Active<'a, J>,
    share: &mut Share<ActsOf<J>>,
    step: &Step,
) -> Result<Option<Value>, WriteRefused>
    requires shared { IsShared J.found shared.now.config.now shared.now.trails.now shared.now.discs.now }
    requires step { IsRunStep J.found step.now }
    requires actor { IsActor tx.old }
    requires token { MayGive share.old }
    ensures made { HasMadeStep J.opening (J.found).config tx.old.tx step.now (reach_of tx.old share.old) (reach_of tx.new share.new) result }
    ensures given { HasGiven (is_told result) share.old share.new }
    ensures refused { IfErr result (IsStepRefusal D.Disk J.opening (J.found).config J.devices tx.old tx.new.seat step.now) }
    ensures txn { IsLaterTxn J.opening tx.old tx.new }
    ensures worker { IsIdle tx.old tx.new ⊎ IsEnlisted (volume_of (J.found).config step.now.file) tx.old tx.new }
    ensures come { HasCome tx.old → HasCome tx.new }
{
    knowing_law();
    let mut note = tx.note();
    let mut disc = disc_of(shared.discs, volume_of(shared.config, step.file)).lock(rt);
    disc.meet(&mut note);
    disc.lawful();
    let answer = disc.write(rt, tx, shared.trails, step, share);
    disc.lawful();
    disc.device_lawful();
    answer
}
