//! The blocks of one volume: pairs of slots on its device, and a bounded cache over them.
#![tactic(auto)]

mod blocks;
mod cache;
mod change;
mod contents;
mod create;
mod data_file;
mod fault;
mod frame;
mod label_file;
mod laws;
mod number;
mod pair;
mod reading;

pub use blocks::Blocks;
pub use cache::Cache;
pub use change::{change_block, change_volume, move_low};
pub use contents::{Change, FileContents};
pub use create::{append_block, create_file, create_label, create_volume, finish_file};
pub use data_file::{read_file, take_block};
pub use fault::{AttachFault, BlockFault};
pub use frame::Frame;
pub use laws::{resting_law, rewriting_law, volume_images_law};
pub use number::BlockNo;
pub use pair::PairPhase;
