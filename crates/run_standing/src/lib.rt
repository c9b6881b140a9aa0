//! What a run on threads makes of a node that is up: what its devices stand for afterwards, by the script's transactions; and why it begins.
#![tactic(auto)]

mod laws;

pub use laws::{stands_law, telling_law, undamaged_law};
