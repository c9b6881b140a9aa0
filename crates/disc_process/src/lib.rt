//! Disc processes: the locks, the blocks and the audit of one volume.
#![tactic(auto)]

mod bring;
mod disc;
mod draw;
mod dump;
mod file_lock;
mod found;
mod handed;
mod live;
mod low;
mod moves;
mod parts;
mod quiet;
mod refused;
mod release;
mod step;
mod undo;
mod undo_refused;

pub use disc::DiscState;
pub use handed::{Handover, land};
pub use refused::WriteRefused;
pub use undo_refused::UndoRefused;
