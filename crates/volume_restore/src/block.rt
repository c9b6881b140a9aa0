//! A block with the changes that were found of its keys.
ghost use Rattle.std.specs.Prelude.{◌≡◌, ◌≢◌, ◌<◌, [], ℕ, List, None, Some, Err, true, false, IsSome, OnOk, OnErr, IfOk, IfErr, MatchOption, bytes_eq, if◌then◌else◌};
ghost use Rattle.tmf_model.specs.Config.{IsWithin};
ghost use Rattle.tmf_model.specs.Place.{block_of};
ghost use Rattle.keyed_file.specs.Block.{CanTake, IsBlock, has_room, value_at};
ghost use Rattle.keyed_file.specs.BlockFormat.{is_at_home};
ghost use Rattle.keyed_file.specs.Volume.{IsContent};
ghost use Rattle.volume_restore.specs.Changed.{HasRoomIn, IsOverfull, IsPart, IsUnchanged, change_of, changed_values};
ghost use Rattle.volume_restore.specs.Pass.{IsChangedBlock, IsMadeAnew};

use keyed_file::{BLOCK_BYTES, Block, Full, Home, block_room_law};
use std::alloc::Global;
use tmf_model::{Key, Value, place_of};
use trail_replay::Found;

/// Why a block was not recovered.
#[derive(Clone, Copy, Debug, PartialEq, Eq)]
pub enum RestoreFault {
    /// It would hold more than 62 keys.
    Full,
    /// Memory ran out.
    NoMemory,
}

/// Whether a block can take a value at a key: where the key gets one it has to have room.
fn can_take(block: &Block, key: &Key, value: &Option<Value>) -> bool
    ensures can { result ≡ true → CanTake block.now.records key.now value.now }
    ensures full { result ≡ false → IsSome value.now × (has_room block.now [] key.now ≡ false) }
    ensures valid { IsBlock block.now }
{
    block_room_law();
    let has_room = block.room(key, &[]).is_ok();
    value.is_none() || has_room
}

/// Gives a key its value, or takes its record away.
fn give(block: &mut Block, key: &Key, value: Option<Value>, position: u64) -> Result<(), Full>
    ensures content { OnOk result ((at : List ℕ) → value_at block.new at ≡ (if bytes_eq at key.now then value else value_at block.old at)) }
    ensures position { OnOk result (block.new.position ≡ position) }
    ensures full { OnErr result (IsSome value × (has_room block.old [] key.now ≡ false)) }
    ensures file { block.new.file ≡ block.old.file }
    ensures number { block.new.number ≡ block.old.number }
    ensures was { IsBlock block.old }
    ensures valid { IsBlock block.new }
{
    if !can_take(block, key, &value) {
        return Err(Full);
    }
    block.set(key, value, position);
    Ok(())
}

/// Takes over the records of a block of whose keys no change was found.
fn keep_records(
    made: &mut Block,
    block: &Block,
    home: Home,
    changes: &Found,
    position: u64,
) -> Result<(), Full>
    requires home { is_at_home (Some home) block.now ≡ true }
    requires part { IsPart home (changed_values changes.now block.now) made.old }
    requires valid { IsBlock made.old }
    ensures part { OnOk result (IsPart home (changed_values changes.now block.now) made.new) }
    ensures kept { (key : List ℕ) → change_of changes.now key ≡ None → IsSome (value_at block.now key) → OnOk result (value_at made.new key ≡ value_at block.now key) }
    ensures full { OnErr result (IsOverfull home.blocks home.number (changed_values changes.now block.now)) }
    ensures valid { IsBlock made.new }
{
    for (key, value) in block.records() {
        if !changes.contains_key(key) {
            give(made, key, Some(*value), position)?;
        }
    }
    Ok(())
}

/// Makes the changes of the keys that live in a block.
fn make_changes(
    made: &mut Block,
    block: &Block,
    home: Home,
    changes: &Found,
    position: u64,
) -> Result<(), Full>
    requires blocks { IsWithin 1 256 home.blocks }
    requires part { IsPart home (changed_values changes.now block.now) made.old }
    requires valid { IsBlock made.old }
    ensures part { OnOk result (IsPart home (changed_values changes.now block.now) made.new) }
    ensures made { (key : List ℕ) → block_of key home.blocks ≡ home.number → IsSome (change_of changes.now key)
        → OnOk result ((value_at made.new key ≡ changed_values changes.now block.now key) × (made.new.position ≡ position)) }
    ensures stays { (key : List ℕ) → change_of changes.now key ≡ None → OnOk result (value_at made.new key ≡ value_at made.old key) }
    ensures full { OnErr result (IsOverfull home.blocks home.number (changed_values changes.now block.now)) }
    ensures valid { IsBlock made.new }
{
    for (key, value) in changes.iter() {
        if place_of(key, home.blocks) == home.number {
            give(made, key, *value, position)?;
        }
    }
    Ok(())
}

/// Whether a key that lives in the block has a change.
fn is_changed(place: Home, changes: &Found) -> bool
    requires blocks { IsWithin 1 256 place.blocks }
    ensures changed { IsUnchanged place.blocks place.number changes.now → result ≡ false }
    ensures unchanged { result ≡ false → IsUnchanged place.blocks place.number changes.now }
{
    for (key, _) in changes.iter() {
        if place_of(key, place.blocks) == place.number {
            return true;
        }
    }
    false
}

/// Whether two blocks are the same, their positions too.
fn is_same(block: &Block, other: &Block) -> bool
    ensures same { result ≡ true → block.now ≡ other.now }
    ensures exact { block.now ≡ other.now → result ≡ true }
{
    if block.file() != other.file() || block.number() != other.number() {
        return false;
    }
    block.position() == other.position() && block.records() == other.records()
}

/// The block itself once more.
fn copied(alloc: Global, block: &Block, home: Home) -> Result<Block, RestoreFault>
    requires home { is_at_home (Some home) block.now ≡ true }
    requires blocks { IsWithin 1 256 home.blocks }
    ensures same { IfOk result (λ copy. copy ≡ block.now) }
    ensures valid { IsBlock block.now }
    ensures err { OnErr result (result ≡ Err RestoreFault.NoMemory) }
{
    let mut bytes = [0; BLOCK_BYTES];
    block.encode(&mut bytes);
    match Block::decode_at(alloc, home, &bytes) {
        Ok(copy) => Ok(copy),
        Err(_) => Err(RestoreFault::NoMemory),
    }
}

/// The block made anew, behind the disc's records up to a position: what no change speaks of, and then the changes.
fn made_anew(
    alloc: Global,
    block: &Block,
    home: Home,
    changes: &Found,
    position: u64,
) -> Result<Block, RestoreFault>
    requires home { is_at_home (Some home) block.now ≡ true }
    requires blocks { IsWithin 1 256 home.blocks }
    ensures content { IfOk result (λ made. (key : List ℕ) → block_of key home.blocks ≡ home.number → value_at made key ≡ changed_values changes.now block.now key) }
    ensures position { IfOk result (λ made. (key : List ℕ) → block_of key home.blocks ≡ home.number → IsSome (change_of changes.now key) → made.position ≡ position) }
    ensures home { IfOk result (λ made. is_at_home (Some home) made ≡ true) }
    ensures room { IfOk result (λ _. HasRoomIn home.blocks home.number (changed_values changes.now block.now)) }
    ensures full { IfErr result (λ e. e ≡ RestoreFault.Full → IsOverfull home.blocks home.number (changed_values changes.now block.now)) }
{
    let Ok(mut made) = Block::empty(alloc, home.file, home.number) else {
        return Err(RestoreFault::NoMemory);
    };
    if keep_records(&mut made, block, home, changes, position).is_err()
        || make_changes(&mut made, block, home, changes, position).is_err()
    {
        return Err(RestoreFault::Full);
    }
    Ok(made)
}

/// The block as the changes found of its keys make it, behind the disc's records up to a position. It is refused exactly where more than 62 of its
/// keys would have a value. Without changes it is the block itself, with its position.
pub fn recovered_block(
    alloc: Global,
    block: &Block,
    home: Home,
    changes: &Found,
    position: u64,
) -> Result<Block, RestoreFault>
    requires home { is_at_home (Some home) block.now ≡ true }
    requires blocks { IsWithin 1 256 home.blocks }
    ensures content { IfOk result (λ made. (key : List ℕ) → block_of key home.blocks ≡ home.number → value_at made key ≡ changed_values changes.now block.now key) }
    ensures position { IfOk result (λ made. (key : List ℕ) → block_of key home.blocks ≡ home.number → IsSome (change_of changes.now key) → made.position ≡ position) }
    ensures same { IsUnchanged home.blocks home.number changes.now → IfOk result (λ made. made ≡ block.now) }
    ensures home { IfOk result (λ made. is_at_home (Some home) made ≡ true) }
    ensures room { IfOk result (λ _. HasRoomIn home.blocks home.number (changed_values changes.now block.now)) }
    ensures full { IfErr result (λ e. e ≡ RestoreFault.Full → IsOverfull home.blocks home.number (changed_values changes.now block.now)) }
{
    if is_changed(home, changes) {
        made_anew(alloc, block, home, changes, position)
    } else {
        copied(alloc, block, home)
    }
}

/// The block as the changes found of its keys make it, behind the disc's records up to a position; none where that is the block as it is. It is refused
/// exactly where more than 62 of its keys would have a value.
pub(crate) fn changed_block(
    alloc: Global,
    block: &Block,
    home: Home,
    changes: &Found,
    position: u64,
) -> Result<Option<Block>, RestoreFault>
    requires content { IsContent home.file home.blocks home.number block.now }
    requires blocks { IsWithin 1 256 home.blocks }
    ensures made { IfOk result (λ made. MatchOption made (IsChangedBlock home changes.now block.now block.now) (IsMadeAnew home changes.now position block.now)) }
    ensures room { IfOk result (λ _. HasRoomIn home.blocks home.number (changed_values changes.now block.now)) }
    ensures full { IfErr result (λ e. e ≡ RestoreFault.Full → IsOverfull home.blocks home.number (changed_values changes.now block.now)) }
{
    if !is_changed(home, changes) {
        return Ok(None);
    }
    let made = made_anew(alloc, block, home, changes, position)?;
    if is_same(block, &made) {
        Ok(None)
    } else {
        Ok(Some(made))
    }
}
