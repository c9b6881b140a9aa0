//! Where a block stands.

/// The place of a block: a file, a block's number in it, from 0, and how many blocks the file has, 1 to 256.
#[derive(Clone, Copy, Debug, PartialEq, Eq)]
pub struct Home {
    pub file: u8,
    pub number: u16,
    pub blocks: u16,
}
