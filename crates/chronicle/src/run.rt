//! The name of a run, by which the type of a seat says whose seat it is.
use std::marker::Brand;

/// A run's name: which chronicle it is, and the state of each part at the opening. Two seats with one
/// name are of one chronicle.
pub trait Run<S> {
    ghost use Rattle.std.specs.Prelude.{List};
    ghost use Rattle.atomic_table.specs.Seated.{TableId};

    ghost table: { TableId };

    ghost opening: { List S };
}

impl<S> Run<S> for Brand {
    ghost use Rattle.std.specs.Prelude.{[]};
    ghost use Rattle.chronicle.specs.Counting.{no_table};

    ghost table = { no_table };

    ghost opening = { [] };
}
