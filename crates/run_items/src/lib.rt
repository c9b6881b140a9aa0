//! What the worker of a run on threads does for an item that is no transaction.
#![tactic(auto)]

mod controlling;
mod dumping;
mod finding;
mod laws;
mod volumes;

pub use controlling::control_item;
pub use dumping::dump_item;
pub use laws::{control_law, dump_law};
pub use volumes::Volumes;
