//! The states of a transaction, as types. Each owns its worker's seat, and what it says is known to that seat.
//!
//! `Active` may change records. `end` makes it `Ending`, which is `Flushed` once its audit has landed at each disc, `Committed` once its commit is decided, and
//! `Ended` with a receipt once the monitor trail has the commit. `quit` makes it `Aborting`, which is `Undone` once the caller says that all is undone, and
//! `Ended` without a receipt once the monitor trail has the abort.
#![tactic(auto)]

mod aborting;
mod active;
mod committed;
mod discs;
mod ended;
mod ending;
mod flushed;
mod node;
mod undone;

pub use aborting::Aborting;
pub use active::{Active, begin};
pub use committed::Committed;
pub use ended::{Ended, Receipt};
pub use ending::Ending;
pub use flushed::Flushed;
pub use node::{MONITOR_PART, NodeSeats};
pub use undone::Undone;
