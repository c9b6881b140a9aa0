//! The thread of a worker in a run: it does its items one behind the other.
#![tactic(auto)]

mod carrying;
mod hand;
mod work;
mod working;

pub use hand::WorkerHand;
pub use work::Work;
pub use working::do_items;
