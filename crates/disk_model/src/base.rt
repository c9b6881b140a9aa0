//! What is kept of the moment at which a file was last synced.

ghost use Rattle.std.specs.Prelude.{◌≡◌, ◌≤◌, [], ℕ, true, length, slice_index, OnOk};
ghost use Rattle.disk_model.specs.Held.{is_within};
ghost use Rattle.disk_model.specs.MemDisk.{earlier_byte, synced_byte};

use crate::extent::Extent;
use std::alloc::{AllocError, Global};

/// Bytes that were written over, with the offset of the first.
#[derive(Drop)]
pub(crate) struct Overwritten {
    pub(crate) at: usize,
    pub(crate) bytes: Vec<u8>,
}

/// What is kept of the moment at which a file was last synced.
#[derive(Drop)]
pub(crate) struct Base {
    alloc: Global,
    pub(crate) length: usize,
    // The ranges of that moment that were written over since, as far as they are below its length.
    // Where two have an offset, the first has its byte.
    replaced: Vec<Overwritten>,
}

// The byte of that moment at an offset at which this byte stands now.
fn earlier_byte(replaced: &[Overwritten], at: usize, now: u8) -> u8
    ensures { result ≡ earlier_byte replaced.now at now }
{
    let mut rest = replaced;
    while let Some((range, later)) = rest.split_first() {
        let extent = Extent {
            at: range.at,
            size: range.bytes.len(),
        };
        if extent.has(at) {
            return range.bytes[at - range.at];
        }
        rest = later;
    }
    now
}

impl Base {
    pub(crate) fn new(alloc: Global, length: usize) -> Base
        ensures length { result.length ≡ length }
        ensures none { result.replaced.items ≡ [] }
    {
        Base {
            alloc,
            length,
            replaced: Vec::new(alloc),
        }
    }

    /// Keeps the bytes of a range, as far as they are of that moment.
    pub(crate) fn keep(&mut self, at: usize, size: usize, bytes: &[u8]) -> Result<(), AllocError>
        requires { self.old.length ≤ length bytes.now }
        ensures length { self.new.length ≡ self.old.length }
        ensures same { (i : ℕ) → synced_byte self.new i (slice_index bytes.now i) ≡ synced_byte self.old i (slice_index bytes.now i) }
        ensures kept { OnOk result ((i now : ℕ) → is_within at size i ≡ true → synced_byte self.new i now ≡ synced_byte self.old i (slice_index bytes.now i)) }
    {
        let Some(left) = self.length.checked_sub(at) else {
            return Ok(());
        };
        let over = Vec::from_slice(self.alloc, &bytes[at..at + left.min(size)])?;
        self.replaced.push(Overwritten { at, bytes: over })?;
        Ok(())
    }

    /// The byte of that moment at an offset at which this byte stands now.
    pub(crate) fn byte(&self, at: usize, now: u8) -> u8
        ensures { result ≡ synced_byte self.now at now }
    {
        if at < self.length {
            earlier_byte(&self.replaced, at, now)
        } else {
            0
        }
    }

    /// Moves it to this moment.
    pub(crate) fn reset(&mut self, length: usize)
        ensures length { self.new.length ≡ length }
        ensures none { self.new.replaced.items ≡ [] }
    {
        self.replaced.clear();
        self.length = length;
    }
}
