//! The opening of a run's devices in the order of their numbers: what is kept of each, and why no worker begins.
#![tactic(auto)]

mod audit;
mod audit_kept;
mod dumps;
mod kept;
mod lasts;
mod laws;
mod monitor;
mod named;
mod opening;
mod refusal;
mod volume;

pub use audit_kept::AuditKept;
pub use dumps::{open_dump, open_dump_of};
pub use kept::{Kept, MonitorKept};
pub use lasts::Lasts;
pub use laws::{found_law, unfit_law};
pub use opening::{
    Begun, Opened, close, keep_audit, keep_dump, keep_monitor, open_devices, open_disc,
};
