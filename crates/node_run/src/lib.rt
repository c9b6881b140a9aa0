//! The run of a phase: workers, and a disc thread for each volume, at once over the devices of a node, and the one history that they have made.
#![tactic(auto)]

mod building;
mod closing;
mod laws;
mod phase;
mod ready;
mod room;
mod running;
mod under;

pub use laws::{closing_law, over_law, phase_law, seat_tokens_law};
pub use phase::{run_devices, run_phase};
pub use run_opening::Begun;
pub use run_outcomes::{Gate, Hang, Outcome, PhaseError, Told};
