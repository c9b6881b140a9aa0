//! Records that are gathered by the blocks that they live in.
ghost use Rattle.std.specs.Prelude.{◌≡◌, ◌≢◌, ◌<◌, ◌≤◌, ◌+◌, ◌++◌, ◌∷◌, [], ℕ, List, length, vec_len, IfOk, IfSome, IfNone, OnOk};
ghost use Rattle.tmf_model.specs.Place.{block_of};
ghost use Rattle.keyed_file.specs.Dump.{blocks_before, blocks_in_all};
ghost use Rattle.keyed_file.specs.LabelFormat.{file_row};
ghost use Rattle.keyed_file.specs.Row.{IsRow};
ghost use Rattle.keyed_file.specs.Volume.{blocks_of};
ghost use Rattle.rollforward.specs.Filled.{values_of};
ghost use Rattle.rollforward.specs.Gathered.{group_at, values_gathered};

use std::alloc::{AllocError, Global};
use tmf_model::{Key, Sequence, Value, place_of};

/// A record: its file, its key and its value.
pub type Entry = (u8, Key, Value);

/// How many blocks these files have.
fn count_blocks(files: &[(u8, u16)]) -> usize
    requires few { length files.now ≤ 16 }
    requires row { IsRow file_row 0 files.now }
    ensures { result ≡ blocks_in_all files.now }
{
    let mut total = 0;
    for (_, blocks) in files {
        total += usize::from(*blocks);
    }
    total
}

/// The number of the block that a key of a file lives in, among the blocks of these files, one file behind the other. A file that is not among them
/// has none.
fn slot_of(files: &[(u8, u16)], file: u8, key: &Key) -> Option<usize>
    requires few { length files.now ≤ 16 }
    requires row { IsRow file_row 0 files.now }
    ensures some { IfSome result (λ slot. (0 < blocks_of files.now file) × (slot ≡ blocks_before files.now file + block_of key.now (blocks_of files.now file)) × (slot < blocks_in_all files.now)) }
    ensures none { IfNone result (blocks_of files.now file ≡ 0) }
{
    let mut before = 0;
    for (other, blocks) in files {
        if *other == file {
            return Some(before + usize::from(place_of(key, *blocks)));
        }
        before += usize::from(*blocks);
    }
    None
}

/// No records, of so many blocks.
fn no_records(alloc: Global, count: usize) -> Result<Vec<Sequence<Entry>>, AllocError>
    ensures count { IfOk result (λ groups. length groups.items ≡ count) }
    ensures none { IfOk result (λ groups. (n : ℕ) → group_at groups.items n ≡ []) }
{
    let mut groups = Vec::with_capacity(alloc, count)?;
    for _ in 0..count {
        groups.push_reserved(Sequence::new(Vec::new(alloc)));
    }
    Ok(groups)
}

/// Puts a record behind those of a block.
fn add_to(groups: &mut Vec<Sequence<Entry>>, slot: usize, entry: Entry) -> Result<(), AllocError>
    requires { slot < length groups.old.items }
    ensures here { OnOk result (group_at groups.new.items slot ≡ group_at groups.old.items slot ++ entry ∷ []) }
    ensures others { (n : ℕ) → n ≢ slot → group_at groups.new.items n ≡ group_at groups.old.items n }
    ensures count { length groups.new.items ≡ length groups.old.items }
{
    groups[slot].push(entry)
}

/// The records of each block of these files, in the order in which they come. Records of other files are passed over.
pub fn gather(
    alloc: Global,
    files: &[(u8, u16)],
    records: &[Entry],
) -> Result<Vec<Sequence<Entry>>, AllocError>
    requires few { length files.now ≤ 16 }
    requires row { IsRow file_row 0 files.now }
    ensures count { IfOk result (λ groups. length groups.items ≡ blocks_in_all files.now) }
    ensures values { IfOk result (λ groups. (file : ℕ) (key : List ℕ) → 0 < blocks_of files.now file → values_gathered files.now groups.items file key ≡ values_of records.now file key) }
{
    let mut groups = no_records(alloc, count_blocks(files))?;
    for entry in records {
        if let Some(slot) = slot_of(files, entry.0, &entry.1) {
            add_to(&mut groups, slot, *entry)?;
        }
    }
    Ok(groups)
}
