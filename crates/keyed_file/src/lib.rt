//! The blocks of a volume's files, and the labels of volumes and dumps: their values and their bytes.
#![tactic(auto)]

mod block;
mod block_bytes;
mod dump_label;
mod fault;
mod field;
mod home;
mod label;
mod label_file;
mod laws;
mod record;
mod search;

pub use block::{BLOCK_BYTES, Block, block_fault};
pub use dump_label::DumpLabel;
pub use fault::{BadBlock, BadLabel, BlockFault, Full, LabelFault, NoMemory};
pub use home::Home;
pub use label::Label;
pub use laws::{
    block_room_law, block_spelling_law, dump_label_spelling_law, label_spelling_law,
    spelling_length_law,
};
