//! What the trails of a node say together: the rules of each trail by the configuration, the transactions that are committed, and what the audit makes of each key.
#![tactic(auto)]

mod committed;
mod device_queue;
mod found;
mod home;
mod refused;
mod replay;
mod rules;

pub use committed::Commits;
pub use device_queue::DeviceQueue;
pub use found::{Found, commits, listing, take_in};
pub use home::{FileLocation, home_of};
pub use refused::handed_back;
pub use replay::{FoundFiles, read_commits};
pub use rules::{MONITOR, rules_of_monitor, rules_of_trail};
