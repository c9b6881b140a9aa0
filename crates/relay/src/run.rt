//! The two parts on two threads, and what is true of every history of theirs.
ghost use Rattle.std.specs.Prelude.{◌≡◌, ℕ, ◌≤◌, ◌%◌, ◌^◌, List, length, IfOk};
ghost use Rattle.chronicle.specs.Histories.{IsHistory, events_of};
ghost use Rattle.relay.specs.Relay.{relay, unsent};
ghost use Rattle.relay.specs.declared.machine.Event.{Event};

use crate::machine::{PartState, Relay, Unsent};
use crate::sender::{Sender, SenderState};
use crate::taker::Taker;
use chronicle::{Chronicle, NoMemory, Run, Started};
use std::alloc::Global;
use std::marker::Brand;
use std::sync::Wait;
use std::thread::{Threads, join};

fn send_all<J: Run<PartState>>(
    rt: &impl Wait,
    chronicle: &Chronicle<Relay, J>,
    sender: &Sender<J>,
    count: u64,
) {
    for _ in 0..count {
        sender.send(rt, chronicle);
    }
}

fn take_all<J: Run<PartState>>(
    rt: &impl Wait,
    chronicle: &Chronicle<Relay, J>,
    sender: &Sender<J>,
    mut taker: Taker<J>,
    count: u64,
) -> Taker<J> {
    for _ in rt.forever() {
        if taker.taken() >= count {
            return taker;
        }
        taker.take(rt, chronicle, sender);
    }
    unreachable!()
}

fn run_as<J: Run<PartState> + Send + Sync, R: Threads + Wait + Sync>(
    rt: &R,
    alloc: Global,
    started: Started<Relay>,
    count: u64,
) -> Result<u64, NoMemory>
    requires name { (started.table ≡ J.table) × (started.states ≡ J.opening) }
    requires opening { J.opening ≡ unsent }
    ensures { IfOk result (λ n. (log : List (ℕ × Event)) × IsHistory relay unsent log × (n ≡ length log % 2 ^ 64)) }
{
    let (chronicle, mut seats) = started.named::<J>(alloc)?;
    let Some(second) = seats.pop() else {
        unreachable!()
    };
    let Some(first) = seats.pop() else {
        unreachable!()
    };
    let sender = Sender::new(SenderState::new(first));
    let taker = Taker::new(second);
    let ((), taker) = join(
        rt,
        || send_all(rt, &chronicle, &sender, count),
        || take_all(rt, &chronicle, &sender, taker, count),
    );
    seats.push(sender.into_seat())?;
    seats.push(taker.into_seat())?;
    let gathered = chronicle.gather(seats);
    gathered.lawful();
    Ok(gathered.events())
}

/// Sends and takes so many numbers on two threads, and answers the number of events. It returns once
/// all were taken.
pub fn run_relay<R: Threads + Wait + Sync>(
    rt: &R,
    alloc: Global,
    count: u64,
) -> Result<u64, NoMemory>
    ensures { IfOk result (λ n. (log : List (ℕ × Event)) × IsHistory relay unsent log × (n ≡ length log % 2 ^ 64)) }
{
    let started = Started::<Relay>::new(alloc, 2, &Unsent)?;
    run_as::<Brand, R>(rt, alloc, started, count)
}

/// In no history more numbers are taken than were sent. It does nothing.
pub fn relay_law()
    ensures { (log : List (ℕ × Event)) → IsHistory relay unsent log
        → length (events_of 1 log) ≤ length (events_of 0 log) }
{}
