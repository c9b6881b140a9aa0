//! Group commit: commit and abort records of several transactions share one batch of the monitor trail, a boxcar.
#![tactic(auto)]

mod aside;
mod ending;
mod lock;
mod monitor;
mod name;
mod queue;
mod room;
mod seat;
mod waiting;

pub use disk_model::DiskFault as Failed;
pub use ending::InDoubt;
pub use lock::Monitor;
pub use monitor::MonitorState;
pub use name::MonitorRun;
pub use queue::{
    Asked, Askers, Asking, InTurn, OpenRequests, PopEnd, PushReceipt, RequestPass, RequestQueue,
    Requests, RequestsName, ends_are_shared, open_requests,
};
pub use seat::MonitorSeat;
pub use waiting::Waiting;
