//! A phase of a run over the devices of a node.
ghost use Rattle.std.specs.Prelude.{◌≡◌, ◌≤◌, true, IfOk, IfErr, List, length};
ghost use Rattle.node_machine.specs.Opening.{opening_parts};
ghost use Rattle.node_run.specs.Named.{AreAllKept};
ghost use Rattle.node_run.specs.Over.{AreOpenedFor, IsExactTold};
ghost use Rattle.run_opening.specs.Found.{IsOnlyList, found_of};
ghost use Rattle.run_outcomes.specs.Devices.{AreReturned, fuse_kind, told_in};
ghost use Rattle.run_outcomes.specs.Run.{HasNotRun, HasRun, IsExact};
ghost use Rattle.run_states.specs.Begun.{device_in};
ghost use Rattle.tmf_model.specs.Config.{IsValidConfig};
ghost use Rattle.tmf_model.specs.Script.{IsValidPhase};
ghost use Rattle.tmf_model.specs.Transid.{is_between};
ghost use Rattle.tmf_model.specs.declared.config.Config.{Config};

use crate::laws::{over_law, phase_law};
use crate::ready::Ready;
use crate::room::PhaseRoom;
use crate::under::{Start, run_as};
use chronicle::{NoMemory, Started};
use disk_model::{Bay, Disk, Fuse};
use node_machine::{Finds, NodeMachine, Opening};
use run_opening::{Begun, Kept, open_devices};
use run_outcomes::{Gate, Outcome, PhaseError};
use std::alloc::Global;
use std::marker::Brand;
use std::sync::Wait;
use std::sync::ledger::Blank;
use std::thread::Threads;
use tmf_model::{Config, Phase, Sequence};

/// How many parts a node has.
const PARTS: u32 = 37;

/// How many parts the ledger of a run has: one for each of 16 workers and 8 discs, and one at home.
const LEDGER_PARTS: u64 = 25;

/// What a run finds of its devices when it begins, by what is kept of them.
struct Plan<'c, 'k, D: Disk> {
    config: &'c Config,
    epoch: u32,
    kept: &'k [Kept<D>],
}

impl<'c, 'k, D: Disk> Finds for Plan<'c, 'k, D> {
    ghost use Rattle.run_opening.specs.Found.{IsOnlyList, found_of};

    ghost found = { λ p. found_of D.Disk p.config.now p.epoch p.kept.now };
}

/// An empty history, which opens with what is found of the devices that are kept.
fn start_chronicle<D: Disk>(
    alloc: Global,
    run: Begun<'_>,
    kept: &[Kept<D>],
) -> Result<Started<NodeMachine>, NoMemory>
    ensures { IfOk result (λ started. started.states ≡ opening_parts (found_of D.Disk run.entry.config.now run.entry.epoch kept.now)) }
{
    let plan = Plan {
        config: run.config,
        epoch: run.epoch,
        kept,
    };
    let started = Started::<NodeMachine>::new(alloc, PARTS, &Opening { from: &plan });
    let Plan {
        config: _,
        epoch: _,
        kept: _,
    } = plan;
    started
}

/// Runs a phase over devices that were opened for it. Where there is no memory for that, no worker has begun, and the devices come back.
fn run_opened<R: Threads + Wait + Sync, D: Disk + Send, G: Gate + Sync>(
    rt: &R,
    alloc: Global,
    run: Begun<'_>,
    gate: &G,
    ready: Ready<D>,
) -> (Result<Vec<Outcome>, PhaseError>, Vec<D>)
    requires valid { IsValidConfig run.config.now }
    requires phase { IsValidPhase run.config.now run.phase.now }
    requires epoch { is_between 1 4294967295 run.epoch ≡ true }
    requires opened { (old : List D) × AreOpenedFor D.Disk run.config.now run.phase.now run.epoch old ready.opened }
    requires all { AreAllKept ready.opened }
    requires list { (same : Config) → IsOnlyList same (told_in D.Disk (device_in ready.opened.kept.items)) ready.list }
    ensures ran { (old : List D) → AreOpenedFor D.Disk run.entry.config.now run.entry.phase.now run.entry.epoch old ready.opened → IfOk result.0 (λ outcomes. HasRun D.Disk run.entry.config.now run.entry.phase.now run.entry.epoch old result.1.items outcomes.items) }
    ensures not_run { (old : List D) → AreOpenedFor D.Disk run.entry.config.now run.entry.phase.now run.entry.epoch old ready.opened → IfErr result.0 (HasNotRun D.Disk run.entry.config.now run.entry.phase.now run.entry.epoch old result.1.items) }
    ensures returned { (old : List D) → AreOpenedFor D.Disk run.entry.config.now run.entry.phase.now run.entry.epoch old ready.opened → AreReturned D.Disk run.entry.config.now old result.1.items }
    ensures memory { IfErr result.0 (λ why. why ≡ PhaseError.NoMemory) }
{
    over_law::<D>();
    phase_law::<D>();
    let Ok(room) = PhaseRoom::take(alloc, run.config, run.phase) else {
        return (Err(PhaseError::NoMemory), ready.close());
    };
    let Ok(started) = start_chronicle(alloc, run, ready.kept()) else {
        return (Err(PhaseError::NoMemory), ready.close());
    };
    let blank = Blank::new(LEDGER_PARTS);
    let start = Start {
        started,
        blank,
        ready,
        room,
    };
    run_as::<R, D, Brand, G>(rt, alloc, run, gate, start)
}

/// Runs a phase over the 21 devices of a node: the items of each worker, the workers side by side, with a thread for each disc. It answers what each attempt came to, in the order of
/// workers, items and attempts. Where no worker has begun, it says why. All devices come back.
pub fn run_devices<R: Threads + Wait + Sync, D: Disk + Send, G: Gate + Sync>(
    rt: &R,
    alloc: Global,
    run: Begun<'_>,
    gate: &G,
    devices: Vec<D>,
) -> (Result<Vec<Outcome>, PhaseError>, Vec<D>)
    requires valid { IsValidConfig run.config.now }
    requires phase { IsValidPhase run.config.now run.phase.now }
    requires epoch { is_between 1 4294967295 run.epoch ≡ true }
    requires count { length devices.items ≡ 21 }
    ensures ran { IfOk result.0 (λ outcomes. HasRun D.Disk run.entry.config.now run.entry.phase.now run.entry.epoch devices.items result.1.items outcomes.items) }
    ensures not_run { IfErr result.0 (HasNotRun D.Disk run.entry.config.now run.entry.phase.now run.entry.epoch devices.items result.1.items) }
    ensures exact { IsExactTold D.Disk run.entry.config.now run.entry.phase.now run.entry.epoch devices.items result.0 }
    ensures returned { AreReturned D.Disk run.entry.config.now devices.items result.1.items }
{
    phase_law::<D>();
    match open_devices(alloc, run, devices) {
        Ok(opened) => run_opened(rt, alloc, run, gate, Ready::new(opened)),
        Err((why, devices)) => (Err(why), devices),
    }
}

/// Runs a phase over the devices of a bay, which comes back: the items of each worker, the workers side by side. It answers what each attempt came to, in the order of workers, items and
/// attempts. Where no worker has begun, it says why.
pub fn run_phase<R: Threads + Wait + Sync, G: Gate + Sync, D: Disk + Send>(
    rt: &R,
    alloc: Global,
    config: &Config,
    epoch: u32,
    phase: &Phase,
    gate: &G,
    bay: Bay<D>,
) -> (Result<Sequence<Outcome>, PhaseError>, Bay<D>)
    requires valid { IsValidConfig config.now }
    requires phase { IsValidPhase config.now phase.now }
    requires epoch { 1 ≤ epoch }
    // On any devices, and whichever of their calls fail: the outcomes and the devices that come back are those of one history.
    ensures ran { IfOk result.0 (HasRun (fuse_kind D.Disk) config.now phase.now epoch bay result.1) }
    // Where no worker has begun, each device holds what it held; one that is told as failed has failed, and one that is told as damaged is the first that is unfit.
    ensures not_run { IfErr result.0 (HasNotRun (fuse_kind D.Disk) config.now phase.now epoch bay result.1) }
    // Where a device is unfit, no worker begins, and no other damage is told than the first.
    ensures exact { IsExact (fuse_kind D.Disk) config.now phase.now epoch bay result.0 }
    // The devices come back, each in its place, and those that the configuration leaves out as they were.
    ensures returned { AreReturned (fuse_kind D.Disk) config.now bay result.1 }
{
    let run = Begun {
        config,
        phase,
        epoch,
    };
    let (result, fuses) = run_devices::<R, Fuse<D>, G>(rt, alloc, run, gate, bay.into_fuses());
    let bay = Bay::from_fuses(fuses);
    match result {
        Ok(outcomes) => (Ok(Sequence::new(outcomes)), bay),
        Err(why) => (Err(why), bay),
    }
}
