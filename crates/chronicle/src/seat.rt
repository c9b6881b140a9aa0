//! Seats: what one thread has seen of the history, and the part that is its own.
ghost use Rattle.std.specs.Prelude.{◌≡◌, ℕ, ◌<◌, [], ◌∷◌, ◌++◌, Some, None};
ghost use Rattle.std.specs.Option.{option_map};
ghost use Rattle.chronicle.specs.Histories.{IsHistory};
ghost use Rattle.chronicle.specs.Seats.{HasAppended, HasGrown, IsUnion, MayAppend, note_of, own_events, part_state};
ghost use Rattle.chronicle.specs.Views.{first_part, parts_of};
ghost use Rattle.chronicle.specs.Holders.{IsHolder, own_count, sight_of};

use crate::counter;
use crate::counter::{Counter, Pass};
use crate::machine::{Machine, Names};
use crate::run::Run;
use std::marker::{Brand, Model, PhantomData};

/// A thread's place in the history. It has seen the first entries of it, with all events of its own part.
/// Contracts see it as a `Sight`, its part and what it has seen; a note is a seat without a part.
#[derive(Drop)]
pub struct Seat<M: Machine, J: Run<M::State>> {
    pass: Pass<M>,
    count: u64,
    of: PhantomData<J>,
}

impl<M: Machine, J: Run<M::State>> Model for Seat<M, J> {
    ghost use Rattle.chronicle.specs.Seats.{Sight};
    ghost use Rattle.chronicle.specs.Holders.{IsSeat, sight_of};

    ghost Value = { Sight M.Event };

    ghost view = { λ s. sight_of s.pass.me.0 };

    ghost invariant = { λ s. IsSeat M.rules J.table J.opening s.pass s.count };
}

impl<M: Machine, J: Run<M::State>> Seat<M, J> {
    /// Says that what the seat has seen is a history. It does nothing.
    pub fn lawful(&self)
        ensures { IsHistory M.rules J.opening self.now.seen }
    {
        let _ = &self.count;
    }

    // A seat of at most one part that has had no event.
    pub(crate) fn new(pass: Pass<M>) -> Seat<M, J>
        requires holder { IsHolder M.rules J.table J.opening pass }
        requires one { pass.me.0.parts ≡ parts_of (first_part pass.me.0.parts) }
        requires none { own_count (sight_of pass.me.0) ≡ 0 }
        ensures { result ≡ sight_of pass.me.0 }
    {
        Seat {
            pass,
            count: 0,
            of: PhantomData,
        }
    }

    pub(crate) fn into_pass(self) -> Pass<M>
        ensures holder { IsHolder M.rules J.table J.opening result }
        ensures same { sight_of result.me.0 ≡ self }
        ensures one { result.me.0.parts ≡ parts_of self.part }
    {
        let Seat {
            pass,
            count: _,
            of: _,
        } = self;
        pass
    }

    // The number of its own part's events, which stops at 2^64 - 1.
    pub(crate) fn count(&self) -> u64
        ensures { result ≡ own_count self.now }
    {
        self.count
    }

    pub(crate) fn append<E: Names<M>>(&mut self, counter: &Counter<M>, event: &E) -> u64
        requires own { (counter.now.shared.table_id ≡ J.table) × (0 < counter.now.shared.table_id.words) }
        requires may { MayAppend M.rules J.opening self.old (E.event event.now) }
        ensures added { HasAppended self.old (E.event event.now) result self.new }
        ensures part { self.new.part ≡ self.old.part }
        ensures mine { own_events self.new ≡ own_events self.old ++ E.event event.now ∷ [] }
        ensures state { part_state M.rules J.opening self.new
            ≡ option_map (λ s. M.rules.step s (E.event event.now)) (part_state M.rules J.opening self.old) }
    {
        let number = counter::append::<M, E, Brand>(counter, &mut self.pass, event);
        self.count = self.count.saturating_add(1);
        number
    }

    pub(crate) fn note(&mut self, counter: &Counter<M>) -> Seat<M, J>
        requires { (counter.now.shared.table_id ≡ J.table) × (0 < counter.now.shared.table_id.words) }
        ensures same { self.new ≡ self.old }
        ensures note { result ≡ note_of self.old }
    {
        Seat::new(counter::note::<M>(counter, &mut self.pass))
    }

    pub(crate) fn join(&mut self, counter: &Counter<M>, note: Seat<M, J>)
        requires own { (counter.now.shared.table_id ≡ J.table) × (0 < counter.now.shared.table_id.words) }
        requires note { note.part ≡ None }
        ensures grown { HasGrown self.old self.new }
        ensures union { IsUnion self.old.seen note.seen self.new.seen }
    {
        counter::join::<M>(counter, &mut self.pass, note.into_pass());
    }
}
