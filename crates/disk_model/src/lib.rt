//! Devices of numbered files that lose what is not synced when they crash: the trait `Disk`, a
//! device in memory, the bay of a node's devices, and a device that is watched for tests.
#![tactic(auto)]

mod base;
mod bay;
mod disk;
mod draws;
mod extent;
mod fuse;
mod lent;
mod mem_disk;
mod mem_file;
mod scatter;
mod watched;

pub use bay::{Bay, BayRefused};
pub use disk::{Disk, DiskFault};
pub use fuse::Fuse;
pub use mem_disk::{MemDisk, MemRefused, NoMemory};
pub use watched::{Watch, Watched};
