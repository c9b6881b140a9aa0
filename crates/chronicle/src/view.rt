//! What a seat of the table knows.
use std::collections::LinkedList;

/// The view of a seat. Proofs alone speak of it, and no value of it is made.
pub struct View<S, E> {
    /// 0 before the opening, 1 after it, and 2 once the seat was put into another.
    pub stage: u64,
    pub opening: LinkedList<S>,
    pub parts: LinkedList<u64>,
    pub seen: LinkedList<(u64, E)>,
    /// The parts of a seat that was put in, and what it had seen.
    pub more: LinkedList<u64>,
    pub heard: LinkedList<(u64, E)>,
}
