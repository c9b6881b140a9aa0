//! The threads of a run: what each owns, how they are made, their turns, and how they are ended.
#![tactic(auto)]

mod ending;
mod hand;
mod laws;
mod making;
mod room;
mod turning;

pub use ending::end_hands;
pub use hand::{Crew, Hand};
pub use laws::ended_law;
pub use making::make_hands;
pub use room::room_for_outcomes;
pub use turning::take_turns;
