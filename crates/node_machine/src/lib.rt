//! The machine of a node: what happens at its workers, discs, trails, monitor and dumps, when it may happen, and what is true of the
//! devices after a crash.
#![tactic(auto)]

mod event;
mod machine;
mod names;
mod opening;
mod sample;

pub use event::{
    AuditOffer, By, CarOffer, Cause, DiscEvent, DumpEvent, Event, MonitorEvent, TrailEvent,
    WorkerEvent,
};
pub use machine::{NodeMachine, Part, Truth};
pub use names::{PartName, part_name};
pub use opening::{Finds, Opening, Sample};
pub use sample::{begin, decide, enlist, finish, offer, offer_audit, write};
