//! A run under its name: its chronicle, its states and its threads, and the history that they have made.
ghost use Rattle.std.specs.Prelude.{◌≡◌, IfOk, IfErr, map};
ghost use Rattle.chronicle.specs.Seats.{new_seats};
ghost use Rattle.node_run.specs.Closing.{AreTakenDown, IsRunOver};
ghost use Rattle.node_run.specs.Named.{AreAllKept, IsRunOf, MayRun};
ghost use Rattle.node_run.specs.Tokens.{AreHome};
ghost use Rattle.run_opening.specs.Kept.{device_kept};
ghost use Rattle.run_outcomes.specs.Room.{AreRooms};
ghost use Rattle.run_threads.specs.Room.{IsRoomForAll};
ghost use Rattle.run_worker.specs.Attempted.{IsNode};

use crate::building::{Ends, build};
use crate::closing::{Left, Tokens, gather_all};
use crate::ready::Ready;
use crate::room::{PhaseRoom, RunRoom};
use crate::running::run_built;
use audit_writer::NodeRun;
use chronicle::{Chronicle, Seat, Started};
use commit_boxcar::{MonitorRun, OpenRequests, RequestsName, open_requests};
use disk_model::Disk;
use node_machine::NodeMachine;
use run_opening::Begun;
use run_outcomes::{Gate, Outcome, PhaseError};
use run_states::{Site, begun_law};
use std::alloc::Global;
use std::marker::Brand;
use std::sync::Wait;
use std::sync::ledger::Blank;
use std::thread::Threads;
use txn_states::NodeSeats;

/// The tokens of a worker when it begins, sixteen times.
const ALL_TOKENS: u64 = 17_592_186_044_416;

/// What a run begins with before it has a name.
#[derive(Drop)]
pub struct Start<D: Disk> {
    pub started: Started<NodeMachine>,
    pub blank: Blank,
    pub ready: Ready<D>,
    pub room: PhaseRoom,
}

/// What a run under its name begins with, beside its chronicle: the seats of all parts, its queue of requests, its tokens, its devices, and its room.
#[derive(Drop)]
pub struct Parts<D: Disk, J: NodeRun> {
    pub seats: Vec<Seat<NodeMachine, J>>,
    pub queue: OpenRequests<J>,
    pub tokens: Tokens<J>,
    pub ready: Ready<D>,
    pub room: PhaseRoom,
}

/// All tokens of a run are at home.
fn all_tokens<J: NodeRun>(blank: Blank) -> Tokens<J>
    requires { (blank.name ≡ J.acts) × (blank.parts ≡ 25) }
    ensures { AreHome 0 0 result.book result.home }
{
    let (mut book, mut home) = blank.open();
    book.add(&mut home, ALL_TOKENS);
    Tokens { book, home }
}

/// Runs a phase over the parts of a run and takes them apart. Where there is no memory for that, no worker has begun, and the devices come back as they were opened.
fn run_parts<
    'a,
    R: Threads + Wait + Sync,
    D: Disk + Send + 'a,
    J: MonitorRun<D> + Send + Sync + 'a,
    Q: RequestsName + Send + Sync + 'a,
    G: Gate + Sync,
>(
    rt: &R,
    site: &Site<'a, J>,
    run: Begun<'a>,
    gate: &G,
    node: &'a NodeSeats<'a, J>,
    parts: Parts<D, J>,
) -> Result<Left<D, J>, Vec<D>>
    requires may { MayRun D.Disk site.now.config.now run.epoch parts.ready.opened J.opening J.found J.before J.rules J.faults J.premise J.devices }
    requires all { AreAllKept parts.ready.opened }
    requires run { IsRunOf J.found run.config.now run.phase.now run.epoch }
    requires node { IsNode (J.found).config node.now.steps node.now.monitor }
    requires parts { (parts.seats.items ≡ new_seats 37) × AreHome 0 0 parts.tokens.book parts.tokens.home }
    requires queue { parts.queue ≡ Q.queue }
    requires room { AreRooms run.phase.now.workers parts.room.workers.items × IsRoomForAll run.phase.now parts.room.outcomes }
    ensures down { IfOk result (λ left. AreTakenDown D.Disk J.found run.entry.phase.now J.faults J.devices left.outcomes.items left.seats.items left.devices.items) }
    ensures refused { IfErr result (λ devices. devices.items ≡ map device_kept parts.ready.opened.kept.items) }
{
    begun_law::<D, J>();
    let Parts {
        seats,
        queue,
        tokens,
        ready,
        room,
    } = parts;
    let Ok(room) = RunRoom::take(site.alloc, room) else {
        return Err(ready.close());
    };
    let Ok((askers, end)) = queue.named::<Q>(site.alloc) else {
        return Err(ready.close());
    };
    match build(site, ready, seats, Ends { askers, end }, tokens) {
        Ok(built) => Ok(run_built(rt, run, gate, node, built, room)),
        Err(devices) => Err(devices),
    }
}

/// Runs a phase over the parts of a run under the name of its queue, and gathers its history.
fn run_queued<
    R: Threads + Wait + Sync,
    D: Disk + Send,
    J: MonitorRun<D> + Send + Sync,
    Q: RequestsName + Send + Sync,
    G: Gate + Sync,
>(
    rt: &R,
    alloc: Global,
    run: Begun<'_>,
    gate: &G,
    chronicle: Chronicle<NodeMachine, J>,
    parts: Parts<D, J>,
) -> (Result<Vec<Outcome>, PhaseError>, Vec<D>)
    requires may { MayRun D.Disk run.config.now run.epoch parts.ready.opened J.opening J.found J.before J.rules J.faults J.premise J.devices }
    requires all { AreAllKept parts.ready.opened }
    requires run { IsRunOf J.found run.config.now run.phase.now run.epoch }
    requires parts { (parts.seats.items ≡ new_seats 37) × AreHome 0 0 parts.tokens.book parts.tokens.home }
    requires queue { parts.queue ≡ Q.queue }
    requires room { AreRooms run.phase.now.workers parts.room.workers.items × IsRoomForAll run.phase.now parts.room.outcomes }
    ensures over { IfOk result.0 (λ outcomes. IsRunOver D.Disk J.found run.entry.phase.now J.faults J.devices outcomes.items result.1.items) }
    ensures refused { IfErr result.0 (λ why. (why ≡ PhaseError.NoMemory) × (result.1.items ≡ map device_kept parts.ready.opened.kept.items)) }
{
    let node = NodeSeats {
        chronicle: &chronicle,
        config: run.config,
        steps: run.config.steps,
        monitor: 0,
    };
    let site = Site {
        alloc,
        chronicle: &chronicle,
        config: run.config,
    };
    let ran = run_parts::<R, D, J, Q, G>(rt, &site, run, gate, &node, parts);
    let Site {
        alloc: _,
        chronicle: _,
        config: _,
    } = site;
    match ran {
        Ok(left) => {
            let (outcomes, devices) = gather_all(run.phase, chronicle, left);
            (Ok(outcomes), devices)
        }
        Err(devices) => (Err(PhaseError::NoMemory), devices),
    }
}

/// Runs a phase under the name J.
pub fn run_as<
    R: Threads + Wait + Sync,
    D: Disk + Send,
    J: MonitorRun<D> + Send + Sync,
    G: Gate + Sync,
>(
    rt: &R,
    alloc: Global,
    run: Begun<'_>,
    gate: &G,
    start: Start<D>,
) -> (Result<Vec<Outcome>, PhaseError>, Vec<D>)
    requires name { (start.started.table ≡ J.table) × (start.started.states ≡ J.opening) }
    requires blank { (start.blank.name ≡ J.acts) × (start.blank.parts ≡ 25) }
    requires may { MayRun D.Disk run.config.now run.epoch start.ready.opened J.opening J.found J.before J.rules J.faults J.premise J.devices }
    requires all { AreAllKept start.ready.opened }
    requires run { IsRunOf J.found run.config.now run.phase.now run.epoch }
    requires room { AreRooms run.phase.now.workers start.room.workers.items × IsRoomForAll run.phase.now start.room.outcomes }
    ensures over { IfOk result.0 (λ outcomes. IsRunOver D.Disk J.found run.entry.phase.now J.faults J.devices outcomes.items result.1.items) }
    ensures refused { IfErr result.0 (λ why. (why ≡ PhaseError.NoMemory) × (result.1.items ≡ map device_kept start.ready.opened.kept.items)) }
{
    let Start {
        started,
        blank,
        ready,
        room,
    } = start;
    let Ok((chronicle, seats)) = started.named::<J>(alloc) else {
        return (Err(PhaseError::NoMemory), ready.close());
    };
    let Ok(queue) = open_requests::<J>(alloc) else {
        return (Err(PhaseError::NoMemory), ready.close());
    };
    let tokens = all_tokens(blank);
    let parts = Parts {
        seats,
        queue,
        tokens,
        ready,
        room,
    };
    run_queued::<R, D, J, Brand, G>(rt, alloc, run, gate, chronicle, parts)
}
