//! The hands of a run, as they are ended.
ghost use Rattle.std.specs.Prelude.{◌≡◌, ◌≤◌, ◌<◌, ◌+◌, ◌*◌, ◌++◌, ◌∷◌, [], length, map, vec_capacity, vec_len};
ghost use Rattle.std.specs.List.{flat_map};
ghost use Rattle.run_outcomes.specs.Devices.{workers};
ghost use Rattle.run_outcomes.specs.Reach.{first_tokens};
ghost use Rattle.run_threads.specs.Dealt.{AreIdle, HasMerged};
ghost use Rattle.run_threads.specs.Ended.{HaveEnded};
ghost use Rattle.run_threads.specs.Hands.{HaveWorked, workers_of};
ghost use Rattle.run_threads.specs.Room.{IsRoomForAll};

use crate::hand::{Crew, Hand};
use audit_writer::NodeRun;
use chronicle::Seat;
use commit_boxcar::MonitorRun;
use disc_lock::ActsOf;
use disk_model::Disk;
use node_machine::NodeMachine;
use run_outcomes::{Outcome, Row, knowing_law};
use run_worker::Worker;
use std::sync::ledger::Share;
use tmf_model::Phase;
use worker_thread::WorkerHand;

/// Moves outcomes behind others, in their order.
fn move_outcomes(own: Vec<Outcome>, outcomes: &mut Vec<Outcome>)
    requires { length outcomes.old.items + length own.items ≤ vec_capacity outcomes.old }
    ensures moved { outcomes.new.items ≡ outcomes.old.items ++ own.items }
    ensures room { vec_capacity outcomes.new ≡ vec_capacity outcomes.old }
{
    let mut rest = Row::new(own);
    while let Some(outcome) = rest.take() {
        outcomes.push_reserved(outcome);
    }
    rest.end();
}

/// Ends a worker: its share is merged, its seat goes behind the others, and its outcomes behind those of others.
fn end_worker<J: NodeRun>(
    hand: WorkerHand<J>,
    home: &mut Share<ActsOf<J>>,
    seats: &mut Vec<Seat<NodeMachine, J>>,
    outcomes: &mut Vec<Outcome>,
)
    requires seats { length seats.old.items < vec_capacity seats.old }
    requires outcomes { length outcomes.old.items + length hand.worker.outcomes.items ≤ vec_capacity outcomes.old }
    ensures seat { seats.new.items ≡ seats.old.items ++ hand.worker.seat ∷ [] }
    ensures outcomes { outcomes.new.items ≡ outcomes.old.items ++ hand.worker.outcomes.items }
    ensures merged { HasMerged (hand ∷ []) home.old home.new }
    ensures room { (vec_capacity seats.new ≡ vec_capacity seats.old) × (vec_capacity outcomes.new ≡ vec_capacity outcomes.old) }
{
    let WorkerHand {
        number: _,
        worker,
        reads: _,
        ended: _,
    } = hand;
    let Worker {
        seat,
        share,
        outcomes: own,
    } = worker;
    home.merge(share);
    seats.push_reserved(seat);
    move_outcomes(own, outcomes);
}

/// Ends a hand. A disc has nothing that is to be kept.
fn end_hand<J: NodeRun>(
    hand: Hand<J>,
    home: &mut Share<ActsOf<J>>,
    seats: &mut Vec<Seat<NodeMachine, J>>,
    outcomes: &mut Vec<Outcome>,
)
    requires seats { length seats.old.items + length (workers_of (hand ∷ [])) ≤ vec_capacity seats.old }
    requires outcomes { length outcomes.old.items + length (flat_map (λ one. one.worker.outcomes.items) (workers_of (hand ∷ []))) ≤ vec_capacity outcomes.old }
    ensures seats { seats.new.items ≡ seats.old.items ++ map (λ one. one.worker.seat) (workers_of (hand ∷ [])) }
    ensures outcomes { outcomes.new.items ≡ outcomes.old.items ++ flat_map (λ one. one.worker.outcomes.items) (workers_of (hand ∷ [])) }
    ensures merged { HasMerged (workers_of (hand ∷ [])) home.old home.new }
    ensures room { (vec_capacity seats.new ≡ vec_capacity seats.old) × (vec_capacity outcomes.new ≡ vec_capacity outcomes.old) }
{
    match hand {
        Hand::Disc(_) => {}
        Hand::Worker(worker) => end_worker(worker, home, seats, outcomes),
    }
}

/// Ends each hand in their order.
fn end_each<J: NodeRun>(
    hands: Vec<Hand<J>>,
    home: &mut Share<ActsOf<J>>,
    seats: &mut Vec<Seat<NodeMachine, J>>,
    outcomes: &mut Vec<Outcome>,
)
    requires seats { length seats.old.items + length (workers_of hands.items) ≤ vec_capacity seats.old }
    requires outcomes { length outcomes.old.items + length (flat_map (λ one. one.worker.outcomes.items) (workers_of hands.items)) ≤ vec_capacity outcomes.old }
    ensures seats { seats.new.items ≡ seats.old.items ++ map (λ one. one.worker.seat) (workers_of hands.items) }
    ensures outcomes { outcomes.new.items ≡ outcomes.old.items ++ flat_map (λ one. one.worker.outcomes.items) (workers_of hands.items) }
    ensures merged { HasMerged (workers_of hands.items) home.old home.new }
    ensures room { vec_capacity seats.new ≡ vec_capacity seats.old }
{
    let mut rest = Row::new(hands);
    while let Some(hand) = rest.take() {
        end_hand(hand, home, seats, outcomes);
    }
    rest.end();
}

/// Ends the hands of a run behind their turns. What was dealt to the workers is merged, their seats are with those of the others, and their outcomes stand in the order of the phase. It takes no memory.
pub fn end_hands<D: Disk, J: MonitorRun<D>>(
    phase: &Phase,
    crew: Crew<J>,
    home: &mut Share<ActsOf<J>>,
    outcomes: &mut Vec<Outcome>,
) -> Vec<Seat<NodeMachine, J>>
    requires worked { HaveWorked D.Disk J.found phase.now J.devices crew.hands.items }
    requires idle { AreIdle phase.now crew.seats }
    requires room { IsRoomForAll phase.now outcomes.old }
    requires rest { home.old.amount + length phase.now.workers * first_tokens ≡ workers * first_tokens }
    ensures ended { HaveEnded D.Disk J.found phase.now J.devices result.items home.new.amount outcomes.new.items }
    ensures parts { home.new.parts ≡ home.old.parts + length phase.now.workers }
    ensures seats { (vec_len result ≡ workers) × (vec_capacity result ≡ vec_capacity crew.seats) }
{
    let _ = phase;
    knowing_law();
    let Crew { hands, seats } = crew;
    let mut seats = seats;
    end_each(hands, home, &mut seats, outcomes);
    seats
}
