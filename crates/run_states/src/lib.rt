//! What a run of a node's workers on threads begins and ends with: states and their locks, and its parts when it is over.
#![tactic(auto)]

mod crossing;
mod join;
mod laws;
mod parts;
mod post;
mod rows;
mod seats;
mod stage;
mod state;

pub use crossing::states_are_shared;
pub use join::{Site, join_all, state_of};
pub use laws::{begun_law, disc_post_law, dump_post_law};
pub use parts::{gather, take_apart};
pub use post::Post;
pub use rows::Rows;
pub use run_outcomes::{
    Gate, Hang, Outcome, PhaseError, Room, Row, Told, counted_law, joined_law, knowing_law,
    next_law, ran_law, reread_law, returned_law, rooms_of, seen_law, told_law,
};
pub use seats::Seats;
pub use stage::{Stage, lock_all};
pub use state::{Aside, State, into_devices};
