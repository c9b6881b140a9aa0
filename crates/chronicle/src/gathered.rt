//! The gathered history: all seats put together, and the table closed.
ghost use Rattle.std.specs.Prelude.{◌≡◌, ℕ, ◌<◌, ◌%◌, ◌^◌, length, Some, slice_get};
ghost use Rattle.std.specs.List.{Contains};
ghost use Rattle.chronicle.specs.Histories.{IsHistory, states_after};
ghost use Rattle.chronicle.specs.Seats.{AreAll, IsWholeOf, Sight, part_state};
ghost use Rattle.chronicle.specs.Holders.{IsHolder, Took};

use crate::counter;
use crate::counter::{Counter, Pass};
use crate::machine::Machine;
use crate::run::Run;
use crate::seat::Seat;
use std::marker::Model;

/// The whole history. Contracts see it as its list of entries, each a part's number and its event.
#[derive(Drop)]
pub struct Gathered<M: Machine, J: Run<M::State>> {
    note: Seat<M, J>,
    events: u64,
}

impl<M: Machine, J: Run<M::State>> Model for Gathered<M, J> {
    ghost use Rattle.std.specs.Prelude.{◌≡◌, ℕ, List, length, ◌%◌, ◌^◌};

    ghost Value = { List (ℕ × M.Event) };

    ghost view = { λ g. g.note.seen };

    ghost invariant = { λ g. g.events ≡ length g.note.seen % 2 ^ 64 };
}

impl<M: Machine, J: Run<M::State>> Gathered<M, J> {
    /// How many events there are, modulo 2^64.
    pub fn events(&self) -> u64
        ensures { result ≡ length self.now % 2 ^ 64 }
    {
        self.events
    }

    /// Says that it is a history. It does nothing.
    pub fn lawful(&self)
        ensures { IsHistory M.rules J.opening self.now }
    {
        self.note.lawful();
    }

    pub(crate) fn close(counter: Counter<M>, seats: Vec<Seat<M, J>>) -> Gathered<M, J>
        requires own { (counter.shared.table_id ≡ J.table) × (counter.shared.table_id.words ≡ 1)
            × (counter.shared.table_id.slots ≡ 0) }
        requires some { 0 < length J.opening }
        requires all { AreAll (length J.opening) seats.items }
        ensures history { IsHistory M.rules J.opening result }
        ensures whole { (v : Sight M.Event) → Contains seats.items v → IsWholeOf result v }
        ensures states { (v : Sight M.Event) (p : ℕ) → Contains seats.items v → v.part ≡ Some p
            → slice_get (states_after M.rules J.opening result) p ≡ part_state M.rules J.opening v }
    {
        let mut all = unite::<M, J>(&counter, seats);
        let note = Seat::new(counter::note::<M>(&counter, &mut all));
        let closed = counter.close_with(all);
        let events = closed.word(0);
        closed.free();
        Gathered { note, events }
    }
}

// Puts a seat into one that takes all.
fn put_in<M: Machine, J: Run<M::State>>(counter: &Counter<M>, all: &mut Pass<M>, seat: Seat<M, J>)
    requires own { (counter.now.shared.table_id ≡ J.table) × (0 < counter.now.shared.table_id.words) }
    requires united { IsHolder M.rules J.table J.opening all.old }
    ensures united { IsHolder M.rules J.table J.opening all.new }
    ensures took { Took all.new.me.0 seat }
    ensures kept { (v : Sight M.Event) → Took all.old.me.0 v → Took all.new.me.0 v }
{
    counter::join::<M>(counter, all, seat.into_pass());
}

// One seat of the table with the parts of all seats.
fn unite<M: Machine, J: Run<M::State>>(counter: &Counter<M>, mut seats: Vec<Seat<M, J>>) -> Pass<M>
    requires own { (counter.now.shared.table_id ≡ J.table) × (0 < counter.now.shared.table_id.words) }
    requires some { 0 < length seats.items }
    ensures united { IsHolder M.rules J.table J.opening result }
    ensures took { (v : Sight M.Event) → Contains seats.items v → Took result.me.0 v }
{
    let Some(first) = seats.pop() else {
        unreachable!()
    };
    let mut all = first.into_pass();
    while let Some(seat) = seats.pop() {
        put_in::<M, J>(counter, &mut all, seat);
    }
    all
}
