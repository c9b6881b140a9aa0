//! A lost volume, written anew: its newest dump, the filling of a volume with records, and the rollforward.
#![tactic(auto)]

mod audit;
mod block;
mod body;
mod dump;
mod dump_label;
mod errors;
mod filling;
mod gather;
mod homes;
mod laws;
mod monitor;
mod newest;
mod roll;
mod rolled;
mod volume;

pub use errors::{FillError, RollError};
pub use filling::fill;
pub use laws::rolled_law;
pub use newest::newest_dump;
pub use roll::roll_forward;
