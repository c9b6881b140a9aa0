//! The threads of a run over its states.
ghost use Rattle.std.specs.Prelude.{◌≡◌, ◌+◌, ◌≤◌, length};
ghost use Rattle.chronicle.specs.Seats.{new_seats};
ghost use Rattle.node_run.specs.Closing.{AreTakenDown};
ghost use Rattle.node_run.specs.Named.{IsRunOf, IsUnderName};
ghost use Rattle.node_run.specs.Room.{HasDevicesRoom, HasHandsRoom, HasSeatsRoom};
ghost use Rattle.node_run.specs.Tokens.{AreHome};
ghost use Rattle.run_outcomes.specs.Room.{AreRooms};
ghost use Rattle.run_states.specs.Rows.{AreLocked};
ghost use Rattle.run_threads.specs.Dealt.{AreIdle};
ghost use Rattle.run_threads.specs.Hands.{HaveBegun, HaveWorked};
ghost use Rattle.run_threads.specs.Room.{IsRoomForAll};
ghost use Rattle.run_worker.specs.Attempted.{IsNode};

use crate::building::Built;
use crate::closing::{Left, Tokens, take_down};
use crate::room::{PhaseRoom, RunRoom};
use audit_writer::NodeRun;
use boxcar_timer::Timer;
use chronicle::{Chronicle, Seat};
use commit_boxcar::{MonitorRun, RequestsName};
use disk_model::Disk;
use node_machine::NodeMachine;
use run_opening::Begun;
use run_outcomes::{Gate, Room};
use run_states::Stage;
use run_threads::{Crew, Hand, make_hands, take_turns};
use run_worker::Shared;
use std::sync::Wait;
use std::thread::Threads;
use tmf_model::Phase;
use txn_states::NodeSeats;
use worker_thread::Work;

/// How many discs a run has.
fn count_discs<'a, D: Disk, J: MonitorRun<D>, Q: RequestsName>(
    stage: &Stage<'a, D, J, Timer, Q>,
) -> usize
    ensures { result ≡ length stage.now.rows.discs }
{
    stage.rows.discs().len()
}

/// The hands of a run are made: one for each of so many discs, and one for each worker of the phase.
fn make_crew<J: NodeRun>(
    chronicle: &Chronicle<NodeMachine, J>,
    discs: usize,
    phase: &Phase,
    rooms: Vec<Room>,
    tokens: &mut Tokens<J>,
    crew: &mut Crew<J>,
)
    requires few { discs ≤ 8 }
    requires workers { length phase.now.workers ≤ 16 }
    requires rooms { AreRooms phase.now.workers rooms.items }
    requires tokens { AreHome discs 0 tokens.old.book tokens.old.home }
    requires crew { HasHandsRoom crew.old.hands × (crew.old.seats.items ≡ new_seats 16) }
    ensures begun { HaveBegun discs phase.now crew.new.hands.items }
    ensures idle { AreIdle phase.now crew.new.seats }
    ensures tokens { AreHome (discs + length phase.now.workers) (length phase.now.workers) tokens.new.book tokens.new.home }
{
    make_hands(chronicle, discs, phase, rooms, &mut tokens.home, crew);
}

/// The turns of all threads over the states of a run.
fn work_all<
    'a,
    R: Threads + Wait + Sync,
    D: Disk + Send + 'a,
    J: MonitorRun<D> + Send + Sync + 'a,
    Q: RequestsName + Send + Sync + 'a,
    G: Gate + Sync,
>(
    rt: &R,
    run: Begun<'a>,
    gate: &G,
    node: &'a NodeSeats<'a, J>,
    stage: &Stage<'a, D, J, Timer, Q>,
    hands: &mut [Hand<J>],
)
    requires name { IsUnderName D.Disk J.opening J.found J.before J.rules J.faults J.premise J.devices }
    requires run { IsRunOf J.found run.config.now run.phase.now run.epoch }
    requires node { IsNode (J.found).config node.now.steps node.now.monitor }
    requires locked { AreLocked J.found stage.now.rows }
    requires begun { HaveBegun (length stage.now.rows.discs) run.phase.now hands.old }
    ensures { HaveWorked D.Disk J.found run.entry.phase.now J.devices hands.new }
{
    let shared = Shared {
        config: run.config,
        node,
        gate,
        monitor: &stage.monitor,
        trails: stage.rows.trails(),
        discs: stage.rows.discs(),
    };
    let work = Work {
        shared: &shared,
        dumpers: stage.rows.dumpers(),
        phase: run.phase,
        epoch: run.epoch,
    };
    take_turns(rt, &work, hands);
    let Work {
        shared: _,
        dumpers: _,
        phase: _,
        epoch: _,
    } = work;
    let Shared {
        config: _,
        node: _,
        gate: _,
        monitor: _,
        trails: _,
        discs: _,
    } = shared;
}

/// Runs the items of a phase over the states of a run, and takes these apart. It takes no memory of its own.
pub fn run_built<
    'a,
    R: Threads + Wait + Sync,
    D: Disk + Send + 'a,
    J: MonitorRun<D> + Send + Sync + 'a,
    Q: RequestsName + Send + Sync + 'a,
    G: Gate + Sync,
>(
    rt: &R,
    run: Begun<'a>,
    gate: &G,
    node: &'a NodeSeats<'a, J>,
    built: Built<'a, D, J, Q>,
    room: RunRoom<J>,
) -> Left<D, J>
    requires name { IsUnderName D.Disk J.opening J.found J.before J.rules J.faults J.premise J.devices }
    requires run { IsRunOf J.found run.config.now run.phase.now run.epoch }
    requires node { IsNode (J.found).config node.now.steps node.now.monitor }
    requires built { AreLocked J.found built.stage.rows × AreHome (length built.stage.rows.discs) 0 built.tokens.book built.tokens.home × (built.seats.items ≡ new_seats 16) × HasDevicesRoom built.devices }
    requires room { AreRooms run.phase.now.workers room.phase.workers.items × IsRoomForAll run.phase.now room.phase.outcomes × HasHandsRoom room.hands × HasSeatsRoom room.seats }
    ensures { AreTakenDown D.Disk J.found run.entry.phase.now J.faults J.devices result.outcomes.items result.seats.items result.devices.items }
{
    let Built {
        stage,
        tokens,
        seats,
        devices,
    } = built;
    let RunRoom {
        phase,
        hands,
        seats: all,
    } = room;
    let PhaseRoom { workers, outcomes } = phase;
    let mut tokens = tokens;
    let mut crew = Crew { hands, seats };
    let discs = count_discs(&stage);
    make_crew(
        node.chronicle,
        discs,
        run.phase,
        workers,
        &mut tokens,
        &mut crew,
    );
    work_all(rt, run, gate, node, &stage, crew.hands.as_mut_slice());
    let left = Left {
        outcomes,
        seats: all,
        devices,
    };
    take_down(rt, run.phase, crew, stage, tokens, left)
}
