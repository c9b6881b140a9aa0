//! The dump that is being copied.

/// The dump that is being copied: its number and its start.
#[derive(Clone, Copy, Debug, PartialEq, Eq)]
pub struct Copying {
    pub number: u64,
    pub start: u64,
}
