//! The steps of an attempt, one behind the other.
ghost use Rattle.std.specs.Prelude.{◌≡◌, ◌<◌, ◌++◌, ◌∷◌, [], true, IfErr, if◌then◌else◌, length, vec_capacity};
ghost use Rattle.disc_process.specs.Later.{IsLaterTxn};
ghost use Rattle.run_outcomes.specs.Concerned.{volumes_of_steps};
ghost use Rattle.run_outcomes.specs.Told.{is_read};
ghost use Rattle.run_worker.specs.Going.{AreRunSteps, HasGivenSome, HasGoneOn, HasOnlyEnlisted, HasRoomForReads, IsStoppedAt, MayGiveSome};
ghost use Rattle.run_worker.specs.Shared.{IsActor, IsShared, KeepsItsDiscs};
ghost use Rattle.run_worker.specs.Steps.{reach_of};

use crate::shared::Shared;
use crate::stepping::carry_out_step;
use boxcar_timer::Depart;
use commit_boxcar::{MonitorRun, RequestsName};
use disc_lock::ActsOf;
use disc_process::WriteRefused;
use disk_model::Disk;
use run_outcomes::{Gate, knowing_law};
use std::sync::Wait;
use std::sync::ledger::Share;
use tmf_model::{Op, Step, Value};
use txn_states::Active;

/// Whether an operation reads.
fn is_read(op: &Op) -> bool
    ensures { result ≡ is_read op.now }
{
    match op {
        Op::Read => true,
        Op::Put(_) | Op::Add(_) | Op::Del | Op::Lock => false,
    }
}

/// Keeps what a step has found, with its number, where it is a read.
fn keep_read(reads: &mut Vec<(u8, Option<Value>)>, number: u8, op: &Op, value: Option<Value>)
    requires { is_read op.now ≡ true → length reads.old.items < vec_capacity reads.old }
    ensures kept { reads.new.items ≡ reads.old.items ++ (if is_read op.now then (number, value) ∷ [] else []) }
    ensures room { vec_capacity reads.new ≡ vec_capacity reads.old }
{
    if is_read(op) {
        reads.push_reserved((number, value));
    }
}

/// Carries out the steps of an attempt in their order, and keeps what its reads have found; or answers the first that is refused, by its number from 1.
pub fn carry_out_steps<
    's,
    'a,
    R: Wait,
    D: Disk,
    J: MonitorRun<D>,
    C: Depart,
    Q: RequestsName,
    G: Gate,
>(
    rt: &R,
    shared: &Shared<'s, 'a, D, J, C, Q, G>,
    tx: &mut Active<'a, J>,
    share: &mut Share<ActsOf<J>>,
    steps: &[Step],
    reads: &mut Vec<(u8, Option<Value>)>,
) -> Result<(), (u8, WriteRefused)>
    requires shared { IsShared J.found shared.now.config.now shared.now.trails.now shared.now.discs.now }
    requires steps { AreRunSteps J.found steps.now }
    requires actor { IsActor tx.old }
    requires tokens { MayGiveSome (length steps.now) share.old }
    requires room { HasRoomForReads steps.now reads.old }
    ensures gone { HasGoneOn J.opening (J.found).config tx.old.tx steps.now reads.new.items (reach_of tx.old share.old) (reach_of tx.new share.new) result }
    ensures given { HasGivenSome (length steps.now) share.old share.new }
    ensures refused { IfErr result (λ stop. IsStoppedAt D.Disk J.opening (J.found).config J.devices tx.old tx.new.seat steps.now stop.0 stop.1) }
    ensures txn { IsLaterTxn J.opening tx.old tx.new }
    ensures worker { HasOnlyEnlisted (volumes_of_steps (J.found).config steps.now) tx.old tx.new }
    ensures discs { KeepsItsDiscs shared.now.discs.now tx.old tx.new }
    ensures space { vec_capacity reads.new ≡ vec_capacity reads.old }
{
    knowing_law();
    let id = tx.tx();
    let mut number: u8 = 0;
    for step in steps {
        number += 1;
        shared.gate.pass(id.worker, id.ordinal, number);
        match carry_out_step(rt, shared, tx, share, step) {
            Ok(value) => keep_read(reads, number, &step.op, value),
            Err(refused) => return Err((number, refused)),
        }
    }
    Ok(())
}
