//! The rule of the table, and the steps that its seats make.
use crate::machine::Machine;
use crate::view::View;
use atomic_table::{Join, Play, Split, TableRule};
use std::marker::{Brand, PhantomData};

/// The word counts one history of the machine.
pub struct HistoryRule<M: Machine> {
    of: PhantomData<M>,
}

impl<M: Machine> TableRule<(), View<M::State, M::Event>, ()> for HistoryRule<M> {
    ghost use Rattle.chronicle.specs.Counting.{Counts};
    ghost use Rattle.chronicle.specs.Views.{unopened};

    ghost holds = { λ _ s. Counts M.rules s.words s.views };

    ghost first = { λ _. unopened };
}

/// The opening state of each part, as a call picks it.
pub trait PicksOpening<S> {
    ghost use Rattle.std.specs.Prelude.{List};

    ghost opening: { List S };
}

impl<S> PicksOpening<S> for Brand {
    ghost use Rattle.std.specs.Prelude.{[]};

    ghost opening = { [] };
}

/// An event, as a call picks it.
pub trait PicksEvent<E> {
    ghost use Rattle.std.specs.Prelude.{Option};

    ghost event: { Option E };
}

impl<E> PicksEvent<E> for Brand {
    ghost use Rattle.std.specs.Prelude.{None};

    ghost event = { None };
}

/// The step that opens the history.
pub struct Open<O> {
    of: PhantomData<O>,
}

impl<S, E, O: PicksOpening<S>> Play<(), View<S, E>> for Open<O> {
    ghost use Rattle.chronicle.specs.Counting.{Opened};

    ghost then = { Opened O.opening };
}

/// The step that appends an event.
pub struct Append<M, X> {
    of: PhantomData<(M, X)>,
}

impl<M: Machine, X: PicksEvent<M::Event>> Play<(), View<M::State, M::Event>> for Append<M, X> {
    ghost use Rattle.chronicle.specs.Counting.{Appended};

    ghost then = { Appended M.rules X.event };
}

/// The step that takes in what a seat that was put in had seen.
pub struct Settle<M> {
    of: PhantomData<M>,
}

impl<M: Machine> Play<(), View<M::State, M::Event>> for Settle<M> {
    ghost use Rattle.chronicle.specs.Counting.{Settled};

    ghost then = { Settled M.rules };
}

/// Cuts off a seat without a part.
pub struct Note;

impl<S, E> Split<View<S, E>> for Note {
    ghost use Rattle.chronicle.specs.Views.{without_parts};

    ghost left = { λ v. v };

    ghost right = { without_parts };
}

/// Cuts off the seat of the first part.
pub struct Deal;

impl<S, E> Split<View<S, E>> for Deal {
    ghost use Rattle.chronicle.specs.Views.{with_first, with_others};

    ghost left = { with_others };

    ghost right = { with_first };
}

/// Puts one seat into another.
pub struct PutIn;

impl<S, E> Join<View<S, E>> for PutIn {
    ghost use Rattle.chronicle.specs.Views.{joined, spent};

    ghost both = { joined };

    ghost spent = { spent };
}
