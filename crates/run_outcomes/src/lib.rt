//! What a run of a node's workers answers, and what that answer says of its history and its devices.
#![tactic(auto)]

mod laws;
mod outcome;
mod room;
mod row;

pub use laws::{
    counted_law, joined_law, knowing_law, next_law, ran_law, reread_law, returned_law, seen_law,
    told_law,
};
pub use outcome::{Gate, Hang, Outcome, PhaseError, Told};
pub use room::{Room, rooms_of};
pub use row::Row;
