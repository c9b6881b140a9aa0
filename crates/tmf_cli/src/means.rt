//! What the actions of a script are carried out with.
use std::alloc::{AllocError, Global};

/// The runtime, on whose threads the workers of a run go, and the allocator.
pub struct Means<'a, R> {
    pub rt: &'a R,
    pub alloc: Global,
}

impl<'a, R> Clone for Means<'a, R> {
    fn clone(&self) -> Result<Self, AllocError> {
        Ok(*self)
    }
}

impl<'a, R> Copy for Means<'a, R> {}
