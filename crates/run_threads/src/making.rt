//! The hands of a run, as they are made.
ghost use Rattle.std.specs.Prelude.{◌≡◌, ◌≤◌, ◌<◌, ◌+◌, ◌-◌, [], None, false, length, vec_capacity};
ghost use Rattle.chronicle.specs.Seats.{new_seats};
ghost use Rattle.run_outcomes.specs.Devices.{workers};
ghost use Rattle.run_outcomes.specs.Reach.{first_tokens};
ghost use Rattle.run_outcomes.specs.Room.{AreRooms};
ghost use Rattle.run_threads.specs.Dealt.{AreIdle, HasDealt, IsEmptyCrew, MayDeal};
ghost use Rattle.run_threads.specs.Hands.{AreMade, HaveBegun, disc_hands};

use crate::hand::{Crew, Hand};
use audit_writer::NodeRun;
use chronicle::{Chronicle, Seat};
use disc_lock::ActsOf;
use disc_thread::DiscHand;
use node_machine::NodeMachine;
use run_outcomes::{Room, Row};
use run_worker::Worker;
use std::sync::ledger::Share;
use tmf_model::Phase;
use worker_thread::WorkerHand;

/// How many tokens a worker begins with.
const FIRST_TOKENS: u64 = 1_099_511_627_776;

/// A note of what the first of the seats has seen, which all stay as they are.
fn first_note<J: NodeRun>(
    chronicle: &Chronicle<NodeMachine, J>,
    seats: &mut [Seat<NodeMachine, J>],
) -> Seat<NodeMachine, J>
    requires { 0 < length seats.old }
    ensures note { result.part ≡ None }
    ensures seats { seats.new ≡ seats.old }
{
    chronicle.note(&mut seats[0])
}

/// A hand for each of so many discs, in their order. Each gets a note.
fn add_discs<J: NodeRun>(
    chronicle: &Chronicle<NodeMachine, J>,
    note: Seat<NodeMachine, J>,
    discs: usize,
    hands: &mut Vec<Hand<J>>,
)
    requires note { note.part ≡ None }
    requires empty { hands.old.items ≡ [] }
    requires room { discs ≤ vec_capacity hands.old }
    ensures hands { hands.new.items ≡ disc_hands discs }
    ensures room { vec_capacity hands.new ≡ vec_capacity hands.old }
{
    let mut first = note;
    for place in 0..discs {
        let own = chronicle.note(&mut first);
        hands.push_reserved(Hand::Disc(DiscHand::new(place, own)));
    }
}

/// A worker that begins, with its seat and its room. It gets one part of the ledger, and its tokens.
fn new_worker<J: NodeRun>(
    number: u16,
    seat: Seat<NodeMachine, J>,
    room: Room,
    home: &mut Share<ActsOf<J>>,
) -> WorkerHand<J>
    requires { MayDeal 1 home.old }
    ensures number { result.number ≡ number }
    ensures seat { result.worker.seat ≡ seat }
    ensures room { (result.worker.outcomes ≡ room.outcomes) × (result.reads ≡ room.reads) }
    ensures share { (result.worker.share.parts ≡ 1) × (result.worker.share.amount ≡ first_tokens) }
    ensures begins { result.ended ≡ false }
    ensures dealt { HasDealt 1 home.old home.new }
{
    let Room { outcomes, reads } = room;
    let share = home.split_off(1, FIRST_TOKENS);
    let worker = Worker {
        seat,
        share,
        outcomes,
    };
    WorkerHand {
        number,
        worker,
        reads,
        ended: false,
    }
}

/// A hand for each worker of the phase, in their order, behind the hands that are there. Each has its own seat and its own room.
fn add_workers<J: NodeRun>(
    phase: &Phase,
    rooms: Vec<Room>,
    home: &mut Share<ActsOf<J>>,
    crew: &mut Crew<J>,
)
    requires rooms { AreRooms phase.now.workers rooms.items }
    requires few { length phase.now.workers ≤ workers }
    requires home { MayDeal (length phase.now.workers) home.old }
    requires room { length crew.old.hands.items + length phase.now.workers ≤ vec_capacity crew.old.hands }
    requires seats { crew.old.seats.items ≡ new_seats workers }
    ensures made { AreMade phase.now (length phase.now.workers) crew.old.hands.items crew.new.hands.items }
    ensures idle { AreIdle phase.now crew.new.seats }
    ensures dealt { HasDealt (length phase.now.workers) home.old home.new }
{
    let _ = phase;
    let mut rest = Row::new(rooms);
    let mut number: u16 = 0;
    while let Some(room) = rest.take() {
        number += 1;
        let seat = crew.seats.remove(0);
        let worker = new_worker(number, seat, room, home);
        crew.hands.push_reserved(Hand::Worker(worker));
    }
    rest.end();
}

/// The hands of a run: one for each of so many discs, and behind these one for each worker of the phase. Each worker has its own seat and room, one part of the ledger and its tokens. It takes no memory.
pub fn make_hands<J: NodeRun>(
    chronicle: &Chronicle<NodeMachine, J>,
    discs: usize,
    phase: &Phase,
    rooms: Vec<Room>,
    home: &mut Share<ActsOf<J>>,
    crew: &mut Crew<J>,
)
    requires rooms { AreRooms phase.now.workers rooms.items }
    requires few { length phase.now.workers ≤ workers }
    requires home { MayDeal (length phase.now.workers) home.old }
    requires crew { IsEmptyCrew discs phase.now crew.old.hands crew.old.seats }
    ensures begun { HaveBegun discs phase.now crew.new.hands.items }
    ensures idle { AreIdle phase.now crew.new.seats }
    ensures dealt { HasDealt (length phase.now.workers) home.old home.new }
{
    let note = first_note(chronicle, crew.seats.as_mut_slice());
    add_discs(chronicle, note, discs, &mut crew.hands);
    add_workers(phase, rooms, home, crew);
}
