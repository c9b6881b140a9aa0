//! The writer of an audit trail: what several discs hand in lands in batches.
#![tactic(auto)]

mod batch;
mod lock;
mod name;
mod parcel;
mod pass;
mod purge;
mod queue;
mod queued;
mod queued_lock;
mod seat;
mod writer;

pub use batch::load_batch;
pub use disk_model::DiskFault as Failed;
pub use lock::{AuditWriter, FlushRefused, WriterAt, WriterGuard};
pub use name::{DeviceRun, NodeRun};
pub use parcel::Parcel;
pub use pass::DiscPass;
pub use purge::first_kept;
pub use queue::{
    DiscRows, Entrance, HandOff, HandOffPass, Hands, OpenQueue, Passes, PicksDisc, PopEnd,
    QueueName, Receipt, open_queue,
};
pub use queued::QueuedWriter;
pub use queued_lock::{QueuedLock, lock_is_shared};
pub use seat::TrailSeat;
pub use writer::WriterState;
