//! The voters on one thread and the decider on another, with a queue of votes between them.
ghost use Rattle.std.specs.Prelude.{◌≡◌, ℕ, ◌%◌, ◌^◌, List, length, IfOk};
ghost use Rattle.chronicle.specs.Histories.{IsHistory};
ghost use Rattle.chronicle.specs.Seats.{AreAll, new_seats};
ghost use Rattle.quorum.specs.Quorum.{fresh, quorum};
ghost use Rattle.quorum.specs.declared.machine.Event.{Event};

use crate::decider::Decider;
use crate::machine::{Fresh, PartState, Quorum};
use crate::vote::Vote;
use crate::voter::{Voter, Voters};
use chronicle::{Chronicle, NoMemory, Run, Seat, Started};
use crossbeam_queue::ArrayQueue;
use std::alloc::Global;
use std::marker::Brand;
use std::sync::Wait;
use std::thread;
use std::thread::{Threads, join};

fn vote_all<J: Run<PartState>>(
    rt: &impl Wait,
    chronicle: &Chronicle<Quorum, J>,
    queue: &ArrayQueue<Vote<J>, Global>,
    mut voters: Voters<J>,
    rounds: u64,
) -> Voters<J> {
    for _ in 0..rounds {
        voters.cast(rt, chronicle, queue);
    }
    voters
}

fn decide_all<J: Run<PartState>>(
    rt: &impl Wait,
    chronicle: &Chronicle<Quorum, J>,
    queue: &ArrayQueue<Vote<J>, Global>,
    mut decider: Decider<J>,
    rounds: u64,
) -> Decider<J> {
    let mut kept = None;
    for _ in rt.forever() {
        if decider.round() >= rounds {
            return decider;
        }
        match queue.pop(rt) {
            Some(vote) => kept = decider.hear(chronicle, kept, vote),
            None => thread::yield_now(),
        }
    }
    unreachable!()
}

// The parts of the seats that were dealt.
fn parts_of<J: Run<PartState>>(mut seats: Vec<Seat<Quorum, J>>) -> (Voters<J>, Decider<J>)
    requires seats { seats.items ≡ new_seats 5 }
    requires opening { J.opening ≡ fresh }
{
    let Some(fifth) = seats.pop() else {
        unreachable!()
    };
    let Some(fourth) = seats.pop() else {
        unreachable!()
    };
    let Some(third) = seats.pop() else {
        unreachable!()
    };
    let Some(second) = seats.pop() else {
        unreachable!()
    };
    let Some(first) = seats.pop() else {
        unreachable!()
    };
    let voters = Voters {
        first: Voter::new(first, 0),
        second: Voter::new(second, 1),
        third: Voter::new(third, 2),
        fourth: Voter::new(fourth, 3),
    };
    (voters, Decider::new(fifth))
}

// The seats of all parts, to be gathered.
fn seats_of<J: Run<PartState>>(
    alloc: Global,
    voters: Voters<J>,
    decider: Decider<J>,
) -> Result<Vec<Seat<Quorum, J>>, NoMemory>
    ensures { IfOk result (λ seats. AreAll 5 seats.items) }
{
    let Voters {
        first,
        second,
        third,
        fourth,
    } = voters;
    let mut seats = Vec::new(alloc);
    seats.push(first.into_seat())?;
    seats.push(second.into_seat())?;
    seats.push(third.into_seat())?;
    seats.push(fourth.into_seat())?;
    seats.push(decider.into_seat())?;
    Ok(seats)
}

fn run_as<J: Run<PartState> + Send + Sync, R: Threads + Wait + Sync>(
    rt: &R,
    alloc: Global,
    started: Started<Quorum>,
    rounds: u32,
) -> Result<u64, NoMemory>
    requires name { (started.table ≡ J.table) × (started.states ≡ J.opening) }
    requires opening { J.opening ≡ fresh }
    ensures { IfOk result (λ n. (log : List (ℕ × Event)) × IsHistory quorum fresh log × (n ≡ length log % 2 ^ 64)) }
{
    let (chronicle, seats) = started.named::<J>(alloc)?;
    let queue = ArrayQueue::new(alloc, rounds as usize * 4 + 1)?;
    let (voters, decider) = parts_of(seats);
    let rounds = rounds as u64;
    let (voters, decider) = join(
        rt,
        || vote_all(rt, &chronicle, &queue, voters, rounds),
        || decide_all(rt, &chronicle, &queue, decider, rounds),
    );
    let gathered = chronicle.gather(seats_of(alloc, voters, decider)?);
    gathered.lawful();
    Ok(gathered.events())
}

/// Lets four voters vote in so many rounds on one thread while another thread decides them, and answers
/// the number of events. It returns once all rounds were decided.
pub fn run_quorum<R: Threads + Wait + Sync>(
    rt: &R,
    alloc: Global,
    rounds: u32,
) -> Result<u64, NoMemory>
    ensures { IfOk result (λ n. (log : List (ℕ × Event)) × IsHistory quorum fresh log × (n ≡ length log % 2 ^ 64)) }
{
    let started = Started::<Quorum>::new(alloc, 5, &Fresh)?;
    run_as::<Brand, R>(rt, alloc, started, rounds)
}
