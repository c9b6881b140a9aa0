//! The worker of a run on threads: what it does for one attempt at a transaction.
#![tactic(auto)]

mod attempting;
mod ending;
mod finding;
mod going;
mod laws;
mod shared;
mod stepping;
mod trying;

pub use attempting::{Plan, attempt};
pub use ending::{commit, give_up};
pub use going::carry_out_steps;
pub use laws::{acting_law, attempt_law};
pub use shared::Shared;
pub use stepping::carry_out_step;
pub use trying::{Worker, attempts};
