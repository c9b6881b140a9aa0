//! One counted history for any machine of parts, which threads append to and read through seats of their own.
#![tactic(auto)]

mod chronicle;
mod counter;
mod gathered;
mod machine;
mod no_memory;
mod rule;
mod run;
mod seat;
mod started;
mod view;

pub use chronicle::Chronicle;
pub use gathered::Gathered;
pub use machine::{Machine, Names, Opens};
pub use no_memory::NoMemory;
pub use run::Run;
pub use seat::Seat;
pub use started::Started;
