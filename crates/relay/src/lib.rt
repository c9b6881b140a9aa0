//! An example of the counted history: one part sends numbers in order, and the other takes each that was sent.
#![tactic(auto)]

mod machine;
mod run;
mod sender;
mod taker;

pub use machine::{Event, PartState, Relay, Unsent, WasSent};
pub use run::{relay_law, run_relay};
pub use sender::{Sender, SenderState};
pub use taker::Taker;

#[cfg(test)]
mod tests;
