//! Backout: a transaction that is given up takes back its changes at each disc, has its abort recorded, and then releases everywhere.
#![tactic(auto)]

mod backing;
mod finding;
mod hanging;
mod releasing;
mod undoing;

pub use backing::back_out;
pub use hanging::Hanging;
