//! The thread of a disc in a run: it draws the disc's blocks while workers go on.
#![tactic(auto)]

mod drawing;
mod hand;
mod limits;
mod pace;

pub use drawing::{Stopped, draw_first};
pub use hand::DiscHand;
