//! When a boxcar departs: whether the batch that several commits share still waits for more of them.
#![tactic(auto)]

mod timer;

pub use timer::{Depart, Timer};
