//! A node's devices as a failure leaves them: their format, their recovery, and the listing of a file.
#![tactic(auto)]

mod audit;
mod errors;
mod format;
mod landing;
mod monitor;
mod monitor_device;
mod recovery;
pub mod volumes;

pub use errors::{FormatError, ListError, RecoverError};
pub use landing::land;
pub use recovery::Recovered;
