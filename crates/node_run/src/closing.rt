//! The end of a run: its states are taken apart, and its history is gathered.
ghost use Rattle.std.specs.Prelude.{◌≡◌, ◌+◌, ◌≤◌, ◌++◌, length, vec_capacity, vec_len};
ghost use Rattle.node_machine.specs.Opening.{opening_parts};
ghost use Rattle.node_run.specs.Closing.{AreTakenDown, IsRunOver};
ghost use Rattle.node_run.specs.Named.{IsUnderName};
ghost use Rattle.node_run.specs.Room.{HasDevicesRoom, HasSeatsRoom};
ghost use Rattle.node_run.specs.Tokens.{AreHome};
ghost use Rattle.run_states.specs.Rows.{AreLocked};
ghost use Rattle.run_threads.specs.Dealt.{AreIdle};
ghost use Rattle.run_threads.specs.Hands.{HaveWorked};
ghost use Rattle.run_threads.specs.Room.{IsRoomForAll};

use crate::laws::closing_law;
use audit_writer::NodeRun;
use boxcar_timer::Timer;
use chronicle::{Chronicle, Seat};
use commit_boxcar::{MonitorRun, RequestsName};
use disc_lock::ActsOf;
use disk_model::Disk;
use node_machine::NodeMachine;
use run_outcomes::Outcome;
use run_states::{Row, Stage, gather, take_apart};
use run_threads::{Crew, end_hands};
use std::sync::Wait;
use std::sync::ledger::{Book, Share};
use tmf_model::Phase;

/// The tokens of a run: the book of all, and those that are home.
#[derive(Drop)]
pub struct Tokens<J: NodeRun> {
    pub book: Book<ActsOf<J>>,
    pub home: Share<ActsOf<J>>,
}

/// What a run leaves: the outcomes of its items, the seats of all parts, and its devices.
#[derive(Drop)]
pub struct Left<D: Disk, J: NodeRun> {
    pub outcomes: Vec<Outcome>,
    pub seats: Vec<Seat<NodeMachine, J>>,
    pub devices: Vec<D>,
}

/// Moves seats behind others.
fn move_seats<J: NodeRun>(own: Vec<Seat<NodeMachine, J>>, seats: &mut Vec<Seat<NodeMachine, J>>)
    requires { vec_len seats.old + length own.items ≤ vec_capacity seats.old }
    ensures moved { seats.new.items ≡ seats.old.items ++ own.items }
    ensures room { vec_capacity seats.new ≡ vec_capacity seats.old }
{
    let mut rest = Row::new(own);
    while let Some(seat) = rest.take() {
        seats.push_reserved(seat);
    }
    rest.end();
}

/// Takes the states of a run apart behind its turns. What it leaves has the outcomes of all items, the seats of all parts, and each device in its place. It takes no memory.
pub fn take_down<'a, R: Wait, D: Disk, J: MonitorRun<D>, Q: RequestsName>(
    rt: &R,
    phase: &Phase,
    crew: Crew<J>,
    stage: Stage<'a, D, J, Timer, Q>,
    tokens: Tokens<J>,
    room: Left<D, J>,
) -> Left<D, J>
    requires name { IsUnderName D.Disk J.opening J.found J.before J.rules J.faults J.premise J.devices }
    requires worked { HaveWorked D.Disk J.found phase.now J.devices crew.hands.items }
    requires idle { AreIdle phase.now crew.seats }
    requires locked { AreLocked J.found stage.rows }
    requires tokens { AreHome (length stage.rows.discs + length phase.now.workers) (length phase.now.workers) tokens.book tokens.home }
    requires room { IsRoomForAll phase.now room.outcomes × HasSeatsRoom room.seats × HasDevicesRoom room.devices }
    ensures { AreTakenDown D.Disk J.found phase.now J.faults J.devices result.outcomes.items result.seats.items result.devices.items }
{
    let Tokens { book, home } = tokens;
    let mut book = book;
    let mut home = home;
    let mut left = room;
    let seats = end_hands::<D, J>(phase, crew, &mut home, &mut left.outcomes);
    move_seats(seats, &mut left.seats);
    let posts = stage.into_posts(rt, &mut home);
    book.audit(&mut home);
    take_apart(posts, &mut left.devices, &mut left.seats);
    left
}

/// Gathers the history of a run that was taken down. Its outcomes and its devices are those of that history.
pub fn gather_all<D: Disk, J: MonitorRun<D>>(
    phase: &Phase,
    chronicle: Chronicle<NodeMachine, J>,
    left: Left<D, J>,
) -> (Vec<Outcome>, Vec<D>)
    requires opens { J.opening ≡ opening_parts J.found }
    requires down { AreTakenDown D.Disk J.found phase.now J.faults J.devices left.outcomes.items left.seats.items left.devices.items }
    ensures { IsRunOver D.Disk J.found phase.now J.faults J.devices result.0.items result.1.items }
{
    let _ = phase;
    closing_law::<D>();
    let Left {
        outcomes,
        seats,
        devices,
    } = left;
    let _history = gather(chronicle, seats, devices.as_slice());
    (outcomes, devices)
}
