//! The ledger of acts.
use audit_writer::NodeRun;
use std::marker::PhantomData;
use std::sync::ledger::Ledger;

/// The ledger of the acts of a run, under the name that the run's name carries. No value of it is made.
pub struct ActsOf<J> {
    of: PhantomData<J>,
}

impl<J: NodeRun> Ledger for ActsOf<J> {
    ghost name = { J.acts };

    // one for each of 16 workers and 8 discs, and one for whoever opens the book
    ghost parts = { 25 };
}
