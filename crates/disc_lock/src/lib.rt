//! The lock round a disc.
#![tactic(auto)]

mod acts;
mod closing;
mod drawing;
mod dumping;
mod guard;
mod lock;
mod lowering;
mod numbered;
mod releasing;
mod undoing;
mod writing;

pub use acts::ActsOf;
pub use guard::DiscGuard;
pub use lock::DiscProcess;
