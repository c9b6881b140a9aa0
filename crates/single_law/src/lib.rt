//! What the history of a run of one worker says of its outcomes: each ends as its item does, behind those before it.
#![tactic(auto)]

mod laws;

pub use laws::{dumps_law, front_law, one_end_law, one_run_law, order_law, row_law, single_law};
