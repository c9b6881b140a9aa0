//! A file of a memory disk.

ghost use Rattle.std.specs.Prelude.{◌≡◌, ◌⊎◌, ◌<◌, ◌≤◌, ◌+◌, ◌-◌, ◌^◌, ◌++◌, ◌∷◌, ◌||◌, [], ℕ, true, false, nat_le, Some, length, take, drop, slice_index, OnOk, OnErr, IfOk, vec_len, vec_capacity, if◌then◌else◌};

use crate::base::Base;
use crate::draws::Draws;
use crate::extent::Extent;
use crate::scatter::scatter_bytes;
use std::alloc::{AllocError, Global};

// One more than the length of the longest file.
const LIMIT: usize = 1 << 63;

/// The bytes of a file, and what a crash may take of them.
#[derive(Drop)]
pub(crate) struct MemFile {
    bytes: Vec<u8>,
    base: Base,
    // The ranges that were written since the last sync, and a free place for one more.
    risk: Vec<Extent>,
    ghost synced_within: { base.length ≤ length bytes.items },
    ghost short: { length bytes.items < 2 ^ 63 },
    ghost has_place: { 1 ≤ vec_capacity risk },
}

// Records a range as at risk. Room for the next range is taken with this one, so that a write that
// finds no memory can be recorded too.
fn mark(risk: &mut Vec<Extent>, at: usize, size: usize) -> Result<(), AllocError>
    ensures ok { OnOk result (risk.new.items ≡ risk.old.items ++ record { at = at; size = size } ∷ []) }
    ensures marked { (risk.new.items ≡ risk.old.items ++ record { at = at; size = size } ∷ []) ⊎ ((vec_capacity risk.old ≤ length risk.old.items) × (risk.new.items ≡ risk.old.items)) }
    ensures place { OnOk result (length risk.new.items < vec_capacity risk.new) }
    ensures capacity { vec_capacity risk.old ≤ vec_capacity risk.new }
{
    let spare = risk.reserve(2);
    if risk.len() < risk.capacity() {
        risk.push_reserved(Extent { at, size });
    }
    spare
}

// Writes over what is there, and past the end. If memory runs out nothing changes.
fn overwrite(bytes: &mut Vec<u8>, at: usize, new: &[u8]) -> Result<(), AllocError>
    requires at { at ≤ length bytes.old.items }
    ensures ok { OnOk result (bytes.new.items ≡ take at bytes.old.items ++ new.now ++ drop (at + length new.now) bytes.old.items) }
    ensures err { OnErr result (bytes.new.items ≡ bytes.old.items) }
{
    let over = (bytes.len() - at).min(new.len());
    let (front, back) = new.split_at(over);
    bytes.extend_from_slice(back)?;
    bytes[at..at + over].copy_from_slice(front);
    Ok(())
}

// Takes the bytes from an offset on away, if they are to be cut.
fn cut_to(bytes: &mut Vec<u8>, end: usize, cut: bool)
    requires { end ≤ length bytes.old.items }
    ensures same { (i : ℕ) → i < length bytes.new.items → slice_index bytes.new.items i ≡ slice_index bytes.old.items i }
    ensures length { length bytes.new.items ≡ (if cut then end else length bytes.old.items) }
{
    if cut {
        bytes.truncate(end);
    }
}

impl MemFile {
    ghost use Rattle.disk_model.specs.Held.{EndangersOrKeeps, at_rest, written, synced, LeavesFile, Tears};
    ghost use Rattle.disk_model.specs.Image.{IsImage, number_after, risked_in};
    ghost use Rattle.disk_model.specs.MemDisk.{HasPlace, IsFresh, earlier_of, file_of};

    /// A file of these bytes, with nothing at risk.
    pub(crate) fn new(alloc: Global, bytes: Vec<u8>) -> Result<MemFile, AllocError>
        requires { length bytes.items < 2 ^ 63 }
        ensures file { IfOk result (λ f. file_of f ≡ at_rest bytes.items) }
        ensures fresh { IfOk result IsFresh }
    {
        let risk = Vec::with_capacity(alloc, 1)?;
        let base = Base::new(alloc, bytes.len());
        Ok(MemFile { bytes, base, risk })
    }

    pub(crate) fn bytes(&self) -> &[u8]
        ensures { result.now ≡ (file_of self.now).bytes }
    {
        &self.bytes
    }

    /// Takes it off risk.
    pub(crate) fn settle(&mut self)
        ensures synced { file_of self.new ≡ synced (file_of self.old) }
        ensures fresh { IsFresh self.new }
    {
        self.base.reset(self.bytes.len());
        self.risk.clear();
    }

    /// Puts a range at risk.
    pub(crate) fn tear(&mut self, at: usize, size: usize)
        ensures torn { Tears at size (file_of self.old) (file_of self.new) }
        ensures endangered { EndangersOrKeeps (HasPlace self.old) at size (file_of self.old) (file_of self.new) }
        ensures earlier { (i : ℕ) → earlier_of self.new i ≡ earlier_of self.old i }
    {
        let _spare = mark(&mut self.risk, at, size);
    }

    /// Writes bytes at an offset, or puts their range at risk. It fails where their end is past
    /// the longest file's, or where it finds no memory.
    pub(crate) fn write(&mut self, at: usize, bytes: &[u8]) -> Result<(), AllocError>
        requires { at ≤ length (file_of self.old).bytes }
        ensures ok { OnOk result (file_of self.new ≡ written at bytes.now (file_of self.old)) }
        ensures small { OnOk result (at + length bytes.now < 2 ^ 63) }
        ensures err { OnErr result (Tears at (length bytes.now) (file_of self.old) (file_of self.new)) }
        ensures endangered { OnErr result (EndangersOrKeeps (HasPlace self.old) at (length bytes.now) (file_of self.old) (file_of self.new)) }
        ensures earlier { (i : ℕ) → earlier_of self.new i ≡ earlier_of self.old i }
        ensures place { OnOk result (HasPlace self.new) }
    {
        mark(&mut self.risk, at, bytes.len())?;
        if bytes.len() >= LIMIT - at {
            return Err(AllocError);
        }
        self.base.keep(at, bytes.len(), &self.bytes)?;
        overwrite(&mut self.bytes, at, bytes)?;
        Ok(())
    }

    /// Becomes the image that the draws pick, of its synced length if it is to be cut.
    pub(crate) fn scatter(&mut self, draws: &mut Draws, cut: bool)
        ensures image { IsImage cut draws.old.state (earlier_of self.old) (file_of self.old) (file_of self.new) }
        ensures leaves { LeavesFile (file_of self.old) (file_of self.new) }
        ensures next { draws.new.state ≡ number_after draws.old.state (risked_in (Some (file_of self.old))) }
        ensures fresh { IsFresh self.new }
    {
        scatter_bytes(&mut self.bytes, &self.risk, &self.base, draws);
        cut_to(&mut self.bytes, self.base.length, cut);
        self.settle();
    }
}
