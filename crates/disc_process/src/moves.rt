//! How far the low position and the dumps of a volume have come.

/// What is known of the low position and of the dumps.
#[derive(Clone, Copy)]
pub struct Moves {
    /// Whether a low position is written and may not have landed.
    pub lowering: bool,
    /// How many dumps have begun.
    pub dumps: u64,
    /// The start of the dump under way.
    pub dump: Option<u64>,
    /// The start of the dump that the disc counts on.
    pub rest: Option<u64>,
}
