//! Exclusive locks on the records of files, and on whole files.
//!
//! A lock has a name: a file and a key in it, or a file alone. A transaction takes a lock where no other one holds it, keeps it to its end, and
//! then releases all that it holds at once. A lock that its holder has changed the record under is held by writing.
#![tactic(auto)]

mod held;
mod locks;
mod name;
mod refused;
mod table;

pub use locks::Locks;
pub use name::LockName;
pub use refused::{NoMemory, TakeRefused};
pub use table::Lock;
