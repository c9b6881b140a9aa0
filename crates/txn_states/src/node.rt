//! What a worker needs of its node to begin a transaction.
use chronicle::{Chronicle, Run};
use node_machine::{NodeMachine, Part};
use tmf_model::Config;

/// The monitor's part.
pub const MONITOR_PART: u32 = 28;

/// The chronicle of the run, its configuration, and how many events a part may have before new work is refused.
#[derive(Drop)]
pub struct NodeSeats<'a, J: Run<Part>> {
    pub chronicle: &'a Chronicle<NodeMachine, J>,
    pub config: &'a Config,
    pub steps: u64,
    /// The monitor's own count, as the caller last read it.
    pub monitor: u64,
}
