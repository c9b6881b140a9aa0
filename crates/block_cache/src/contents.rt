//! What a volume's blocks are given.

use crate::number::BlockNo;
use keyed_file::Block;
use tmf_model::Sequence;

/// The contents of a file's blocks, in their order.
#[derive(Drop)]
pub struct FileContents {
    pub file: u8,
    pub blocks: Sequence<Block>,
}

/// A block that gets another content, and the slot that its selector names.
#[derive(Drop)]
pub struct Change {
    pub n: BlockNo,
    pub slot: u8,
    pub content: Block,
}
