//! The table of one word that counts the history, and the moves on it.
ghost use Rattle.std.specs.Prelude.{◌≡◌, ℕ, ◌<◌, [], ◌∷◌, Some, length};
ghost use Rattle.chronicle.specs.Histories.{IsEnabled, states_after};
ghost use Rattle.chronicle.specs.Counting.{IsAppended, IsSettled};
ghost use Rattle.chronicle.specs.Views.{FirstIsAlone, first_part, joined, numbers, unopened, view_of, with_first, with_others, without_parts};

use crate::machine::{Machine, Names, Opens};
use crate::rule::{Append, Deal, HistoryRule, Note, Open, PicksEvent, PicksOpening, PutIn, Settle};
use crate::view::View;
use atomic_table::{Seat, Table};
use std::alloc::Global;

/// The table. Its word is the length of the history modulo 2^64.
pub(crate) type Counter<M> = Table<
    (),
    View<<M as Machine>::State, <M as Machine>::Event>,
    (),
    HistoryRule<M>,
    Global,
>;

/// A seat of the table.
pub(crate) type Pass<M> = Seat<(), View<<M as Machine>::State, <M as Machine>::Event>>;

/// Opens the history as `from` says.
pub(crate) fn open<M: Machine, T: Opens<M>, O: PicksOpening<M::State>>(
    counter: &Counter<M>,
    pass: &mut Pass<M>,
    from: &T,
)
    requires own { (pass.old.table_id ≡ counter.now.shared.table_id)
        × (0 < counter.now.shared.table_id.words) }
    requires picked { O.opening ≡ T.opening from.now }
    requires first { pass.old.me ≡ (unopened, []) }
    ensures own { pass.new.table_id ≡ pass.old.table_id }
    ensures all { pass.new.me
        ≡ (view_of (T.opening from.now) (numbers 0 (length (T.opening from.now))) [], []) }
{
    let _ = from;
    counter.shared.load::<Open<O>>(pass, 0);
}

/// Appends the event that `event` names, of the first part of the seat.
pub(crate) fn append<M: Machine, E: Names<M>, X: PicksEvent<M::Event>>(
    counter: &Counter<M>,
    pass: &mut Pass<M>,
    event: &E,
) -> u64
    requires own { (pass.old.table_id ≡ counter.now.shared.table_id)
        × (0 < counter.now.shared.table_id.words) }
    requires picked { X.event ≡ Some (E.event event.now) }
    requires live { pass.old.me.0.stage ≡ 1 }
    requires may { (p : ℕ) × (first_part pass.old.me.0.parts ≡ Some p)
        × IsEnabled M.rules (states_after M.rules pass.old.me.0.opening pass.old.me.0.seen) (p, E.event event.now) }
    ensures own { (pass.new.table_id ≡ pass.old.table_id) × (pass.new.me.1 ≡ pass.old.me.1) }
    ensures added { IsAppended M.rules (E.event event.now) pass.old.me.0 result pass.new.me.0 }
{
    let _ = event;
    counter.shared.fetch_add::<Append<M, X>>(pass, 0, 1)
}

/// Cuts off a seat without a part.
pub(crate) fn note<M: Machine>(counter: &Counter<M>, pass: &mut Pass<M>) -> Pass<M>
    requires own { (pass.old.table_id ≡ counter.now.shared.table_id)
        × (0 < counter.now.shared.table_id.words) }
    requires live { pass.old.me.0.stage ≡ 1 }
    ensures kept { (pass.new.table_id ≡ pass.old.table_id) × (pass.new.me ≡ pass.old.me) }
    ensures given { (result.table_id ≡ pass.old.table_id) × (result.me ≡ (without_parts pass.old.me.0, [])) }
{
    counter.shared.split_seat::<Note>(pass)
}

/// Cuts off the seat of the first part.
pub(crate) fn deal<M: Machine>(counter: &Counter<M>, pass: &mut Pass<M>) -> Pass<M>
    requires own { (pass.old.table_id ≡ counter.now.shared.table_id)
        × (0 < counter.now.shared.table_id.words) }
    requires live { (pass.old.me.0.stage ≡ 1) × (pass.old.me.0.more ≡ []) }
    requires alone { FirstIsAlone pass.old.me.0.parts }
    ensures kept { (pass.new.table_id ≡ pass.old.table_id)
        × (pass.new.me ≡ (with_others pass.old.me.0, pass.old.me.1)) }
    ensures given { (result.table_id ≡ pass.old.table_id) × (result.me ≡ (with_first pass.old.me.0, [])) }
{
    counter.shared.split_seat::<Deal>(pass)
}

/// Puts the seat `other` into `pass`, and takes in what it had seen.
pub(crate) fn join<M: Machine>(counter: &Counter<M>, pass: &mut Pass<M>, other: Pass<M>)
    requires own { (pass.old.table_id ≡ counter.now.shared.table_id)
        × (0 < counter.now.shared.table_id.words) }
    requires live { pass.old.me.0.stage ≡ 1 }
    requires other { (other.table_id ≡ counter.now.shared.table_id) × (other.me.1 ≡ [])
        × (other.me.0.more ≡ []) }
    ensures own { (pass.new.table_id ≡ pass.old.table_id) × (pass.new.me.1 ≡ pass.old.me.1) }
    ensures taken { IsSettled M.rules (joined pass.old.me.0 other.me.0) pass.new.me.0 }
{
    counter.shared.join_seat::<PutIn>(pass, other);
    counter.shared.load::<Settle<M>>(pass, 0);
}
