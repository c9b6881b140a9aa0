//! What was found of a file's keys, block by block.
ghost use Rattle.std.specs.Prelude.{◌≡◌, ◌≤◌, ◌∷◌, [], ℕ, List, Option, None, Some, length, slice_get, IfOk, OnOk};
ghost use Rattle.tmf_model.specs.Config.{IsWithin};
ghost use Rattle.tmf_model.specs.Place.{block_of};
ghost use Rattle.volume_restore.specs.Changed.{ArePartsBut, ArePartsOf, Changes, HaveOwnKeys, change_of};

use std::alloc::{AllocError, Global};
use std::collections::BTreeMap;
use tmf_model::{Key, Value, place_of};
use trail_replay::Found;

/// Nothing, for each of so many blocks.
fn nothing_found(alloc: Global, blocks: u16) -> Result<Vec<Found>, AllocError>
    ensures count { IfOk result (λ parts. length parts.items ≡ blocks) }
    ensures none { IfOk result (λ parts. (n : ℕ) (part : Changes) → slice_get parts.items n ≡ Some part → (key : List ℕ) → change_of part key ≡ None) }
{
    let mut parts = Vec::with_capacity(alloc, usize::from(blocks))?;
    for _ in 0..blocks {
        parts.push_reserved(BTreeMap::new(alloc));
    }
    Ok(parts)
}

/// Takes in the change of a key at its block.
fn take_change(
    parts: &mut Vec<Found>,
    blocks: u16,
    key: &Key,
    change: &Option<Value>,
) -> Result<(), AllocError>
    requires blocks { IsWithin 1 256 blocks }
    requires count { length parts.old.items ≡ blocks }
    ensures taken { (found : Changes) (left : List (List ℕ × Option (List ℕ))) → change_of found key.now ≡ Some change.now → ArePartsBut found blocks ((key.now, change.now) ∷ left) parts.old.items
        → OnOk result (ArePartsBut found blocks left parts.new.items) }
    ensures own { HaveOwnKeys blocks parts.old.items → OnOk result (HaveOwnKeys blocks parts.new.items) }
    ensures count { length parts.new.items ≡ blocks }
{
    parts[usize::from(place_of(key, blocks))].insert(*key, *change)?;
    Ok(())
}

/// The changes found of a file's keys, those of the keys of each of its blocks by themselves.
pub fn found_by_block(alloc: Global, found: &Found, blocks: u16) -> Result<Vec<Found>, AllocError>
    requires few { blocks ≤ 256 }
    ensures { IfOk result (λ parts. ArePartsOf found.now blocks parts.items) }
{
    let mut parts = nothing_found(alloc, blocks)?;
    if blocks == 0 {
        return Ok(parts);
    }
    for (key, change) in found.iter() {
        take_change(&mut parts, blocks, key, change)?;
    }
    Ok(parts)
}
