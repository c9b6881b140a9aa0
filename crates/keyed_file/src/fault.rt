//! Why a call of this crate is refused.

/// There was no memory.
#[derive(Clone, Copy, Debug, PartialEq, Eq)]
pub struct NoMemory;

/// The block has no room for a further key.
#[derive(Clone, Copy, Debug, PartialEq, Eq)]
pub struct Full;

/// The bytes are those of no block.
#[derive(Clone, Copy, Debug, PartialEq, Eq)]
pub struct BadBlock {
    /// The first offset that is wrong.
    pub at: u16,
}

/// Why no block was read.
#[derive(Clone, Copy, Debug, PartialEq, Eq)]
pub enum BlockFault {
    Bad(BadBlock),
    NoMemory,
}

/// The bytes are those of no label.
#[derive(Clone, Copy, Debug, PartialEq, Eq)]
pub struct BadLabel {
    /// The first offset that is wrong.
    pub at: u16,
}

/// Why no volume's label was read.
#[derive(Clone, Copy, Debug, PartialEq, Eq)]
pub enum LabelFault {
    Bad(BadLabel),
    NoMemory,
}
