//! The chronicle: the calls that threads make on one history.
ghost use Rattle.std.specs.Prelude.{◌≡◌, ℕ, ◌<◌, ◌^◌, ◌-◌, [], ◌∷◌, ◌++◌, length, min, Some, None, slice_get};
ghost use Rattle.std.specs.List.{Contains};
ghost use Rattle.std.specs.Option.{option_map};
ghost use mathlib.Core.List.{IsPrefix};
ghost use Rattle.chronicle.specs.Histories.{IsHistory, states_after};
ghost use Rattle.chronicle.specs.Seats.{AreAll, HasAppended, HasGrown, HasLearned, IsUnion, IsWholeOf, Knows, MayAppend, Sight, note_of, own_events, part_state};

use crate::counter::Counter;
use crate::gathered::Gathered;
use crate::machine::{Machine, Names};
use crate::run::Run;
use crate::seat::Seat;
use std::marker::PhantomData;

/// One counted history, which many threads append to and look at.
#[derive(Drop)]
pub struct Chronicle<M: Machine, J: Run<M::State>> {
    counter: Counter<M>,
    of: PhantomData<J>,
    ghost table: { counter.shared.table_id ≡ J.table },
    ghost words: { counter.shared.table_id.words ≡ 1 },
    ghost slots: { counter.shared.table_id.slots ≡ 0 },
    ghost parts: { 0 < length J.opening },
}

impl<M: Machine, J: Run<M::State>> Chronicle<M, J> {
    pub(crate) fn new(counter: Counter<M>) -> Chronicle<M, J>
        requires own { (counter.shared.table_id ≡ J.table) × (counter.shared.table_id.words ≡ 1)
            × (counter.shared.table_id.slots ≡ 0) }
        requires some { 0 < length J.opening }
    {
        Chronicle {
            counter,
            of: PhantomData,
        }
    }

    /// Appends the event that `event` names, of the seat's part. It answers the event's number in the
    /// history, from 0 and modulo 2^64.
    pub fn append<E: Names<M>>(&self, seat: &mut Seat<M, J>, event: &E) -> u64
        requires { MayAppend M.rules J.opening seat.old (E.event event.now) }
        ensures added { HasAppended seat.old (E.event event.now) result seat.new }
        ensures part { seat.new.part ≡ seat.old.part }
        ensures begins { IsPrefix seat.old.seen seat.new.seen }
        ensures mine { own_events seat.new ≡ own_events seat.old ++ E.event event.now ∷ [] }
        ensures state { part_state M.rules J.opening seat.new
            ≡ option_map (λ s. M.rules.step s (E.event event.now)) (part_state M.rules J.opening seat.old) }
        ensures history { IsHistory M.rules J.opening seat.new.seen }
        ensures knows { (f : M.Fact) → Knows M.rules J.opening seat.old f
            → Knows M.rules J.opening seat.new f }
        ensures makes { (s : M.State) (f : M.Fact) → part_state M.rules J.opening seat.new ≡ Some s
            → M.rules.makes s f → Knows M.rules J.opening seat.new f }
    {
        let number = seat.append(&self.counter, event);
        seat.lawful();
        number
    }

    /// The number of the events of the seat's own part, or 2^64 - 1 where there are more. A note has none.
    pub fn counted(&self, seat: &Seat<M, J>) -> u64
        ensures { result ≡ min (length (own_events seat.now)) (2 ^ 64 - 1) }
    {
        seat.count()
    }

    /// A seat without a part that has seen what `seat` has seen. It may cross to another thread, as in
    /// a queue, and be joined into a seat there.
    pub fn note(&self, seat: &mut Seat<M, J>) -> Seat<M, J>
        ensures same { seat.new ≡ seat.old }
        ensures note { result ≡ note_of seat.old }
    {
        seat.note(&self.counter)
    }

    /// Takes a note in: the seat has then seen all that either had seen.
    pub fn join(&self, seat: &mut Seat<M, J>, note: Seat<M, J>)
        requires { note.part ≡ None }
        ensures grown { HasGrown seat.old seat.new }
        ensures union { IsUnion seat.old.seen note.seen seat.new.seen }
        ensures learned { HasLearned M.rules J.opening seat.old seat.new }
        ensures told { (f : M.Fact) → Knows M.rules J.opening note f → Knows M.rules J.opening seat.new f }
    {
        seat.join(&self.counter, note);
        seat.lawful();
    }

    fn meet_seats(&self, a: &mut Seat<M, J>, b: &mut Seat<M, J>)
        ensures first { HasGrown a.old a.new }
        ensures second { HasGrown b.old b.new }
        ensures same { a.new.seen ≡ b.new.seen }
        ensures union { IsUnion a.old.seen b.old.seen b.new.seen }
    {
        let note = a.note(&self.counter);
        b.join(&self.counter, note);
        let note = b.note(&self.counter);
        a.join(&self.counter, note);
    }

    /// Lets two seats tell each other: each has then seen all that either had seen.
    pub fn meet(&self, a: &mut Seat<M, J>, b: &mut Seat<M, J>)
        ensures first { HasGrown a.old a.new }
        ensures second { HasGrown b.old b.new }
        ensures same { a.new.seen ≡ b.new.seen }
        ensures union { IsUnion a.old.seen b.old.seen b.new.seen }
        ensures first_learned { HasLearned M.rules J.opening a.old a.new }
        ensures second_learned { HasLearned M.rules J.opening b.old b.new }
        ensures told { (f : M.Fact) → Knows M.rules J.opening b.old f → Knows M.rules J.opening a.new f }
        ensures tells { (f : M.Fact) → Knows M.rules J.opening a.old f → Knows M.rules J.opening b.new f }
    {
        self.meet_seats(a, b);
        a.lawful();
        b.lawful();
    }

    /// Ends the chronicle, and gives the whole history. The seats of all parts are among `seats`; notes
    /// may be too.
    pub fn gather(self, seats: Vec<Seat<M, J>>) -> Gathered<M, J>
        requires { AreAll (length J.opening) seats.items }
        ensures history { IsHistory M.rules J.opening result }
        ensures whole { (v : Sight M.Event) → Contains seats.items v → IsWholeOf result v }
        ensures states { (v : Sight M.Event) (p : ℕ) → Contains seats.items v → v.part ≡ Some p
            → slice_get (states_after M.rules J.opening result) p ≡ part_state M.rules J.opening v }
    {
        let Chronicle { counter, of: _ } = self;
        Gathered::close(counter, seats)
    }
}
