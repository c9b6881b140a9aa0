//! A frame of the cache, and which block it holds.

use crate::pair::PairPhase;
use keyed_file::Block;

/// Room for one block.
#[derive(Drop)]
pub struct Frame {
    /// The place of its block among those of the volume, if it holds one.
    pub place: Option<u16>,
    pub block: Block,
    /// Whether the block is to be drawn.
    pub dirty: bool,
    /// Where the block's pair stands between the steps of a draw.
    pub phase: PairPhase,
    /// The slot of its pair that has the landed content.
    pub slot: u8,
}
