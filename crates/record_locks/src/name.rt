//! The names of locks.
use tmf_model::Key;

/// A record of a file, or without a key the whole file. A file stands before its records, and these stand in the order of their keys.
#[derive(Clone, Copy, PartialEq, Eq, PartialOrd, Ord)]
pub struct LockName {
    pub file: u8,
    pub key: Option<Key>,
}
