//! An example of the counted history: four voters and a decider, whose decisions need the votes of two voters.
#![tactic(auto)]

mod decider;
mod machine;
mod run;
mod vote;
mod voter;

pub use decider::Decider;
pub use machine::{Decision, Event, Fresh, HasVoted, PartState, Quorum};
pub use run::run_quorum;
pub use vote::Vote;
pub use voter::{Voter, Voters};

#[cfg(test)]
mod tests;
