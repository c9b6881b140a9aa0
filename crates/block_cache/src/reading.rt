//! A block, read from its pair.
ghost use Rattle.std.specs.Prelude.{◌≡◌, ◌<◌, ◌≤◌, ◌+◌, length, IsTrue, IfOk, IfErr, IfNone, None, vec_len, ℕ, List};
ghost use Rattle.disk_model.specs.Frame.{IsLater, WorksOn};
ghost use Rattle.disk_model.specs.Held.{IfThere, IsThere, HasCause};
ghost use Rattle.tmf_model.specs.Config.{IsWithin};
ghost use Rattle.keyed_file.specs.declared.block.TheConstants.{BLOCK_BYTES};
ghost use Rattle.keyed_file.specs.BlockFormat.{bad_block};
ghost use Rattle.trail_files.specs.declared.damage.DamageKind.TheVariants.{BadBlock};
ghost use Rattle.block_cache.specs.Damage.{BlockCause, IsRead, TellsBlock, bad_data_in, bad_selected, first_bad};
ghost use Rattle.block_cache.specs.Shown.{byte_at};
ghost use Rattle.keyed_file.specs.Layout.{data_length, selected_by};

use crate::blocks::{SELECTORS, slot_offset};
use crate::fault::BlockFault;
use crate::number::BlockNo;
use disk_model::{Disk, DiskFault};
use keyed_file::{BLOCK_BYTES, Home, block_fault};
use trail_files::{Damage, DamageKind};

impl From<DiskFault> for BlockFault {
    ghost use Rattle.block_cache.specs.declared.fault.BlockFault.TheVariants.{Failed};

    ghost from_gives = { λ _ e. e ≡ Failed };

    fn from(_: DiskFault) -> Self {
        BlockFault::Failed
    }
}

/// The slot that a selector byte names.
pub fn slot_named(byte: u8) -> u8
    ensures named { result ≡ selected_by byte }
    ensures small { result < 2 }
{
    if byte == 1 { 1 } else { 0 }
}

/// The slot that a block's selector names, or slot 0 where the file ends before it.
fn read_selector<D: Disk>(device: &mut D, n: BlockNo) -> Result<u8, DiskFault>
    ensures device { D.is_same device.old device.new }
    ensures tells { D.tells device.new ≡ D.tells device.old }
    ensures same { D.held device.new ≡ D.held device.old }
    ensures slot { IfOk result (λ slot. slot < 2) }
    ensures named { IsTrue (D.tells device.old) → IfOk result (λ slot. slot ≡ selected_by (byte_at (D.held device.old (1 + n.file)) n.number)) }
    ensures cause { HasCause (D.faults device.old) (D.faults device.new) result }
{
    let mut byte = [0];
    device.read(u32::from(n.file) + 1, u64::from(n.number), &mut byte)?;
    Ok(slot_named(byte[0]))
}

/// Where a data file is damaged, at a block or at its end.
pub fn damage(file: u8, at: u64) -> BlockFault
    ensures { result ≡ BlockFault.Damaged (record { file = 1 + file; at = at; kind = BadBlock }) }
{
    BlockFault::Damaged(Damage {
        file: u32::from(file) + 1,
        at,
        kind: DamageKind::BadBlock,
    })
}

/// Reads the block's selected slot into the room, and answers which slot that is, and how many of its bytes were there.
fn read_slot<D: Disk>(
    device: &mut D,
    home: Home,
    room: &mut Vec<u8>,
) -> Result<(u8, usize), DiskFault>
    requires room { vec_len room.old ≡ BLOCK_BYTES }
    requires number { home.number < 256 }
    ensures room { vec_len room.new ≡ BLOCK_BYTES }
    ensures works { WorksOn D.Disk device.old device.new result }
    ensures same { D.held device.new ≡ D.held device.old }
    ensures slot { IfOk result (λ found. found.0 < 2) }
    ensures read { IsTrue (D.tells device.old) → IfOk result (λ found. IfThere (D.held device.old) (1 + home.file) (λ f. IsRead home f.bytes found.0 found.1 room.new.items)) }
{
    let n = BlockNo {
        file: home.file,
        number: home.number,
    };
    let slot = read_selector(device, n)?;
    let at = slot_offset(home.number, slot);
    let count = device.read(u32::from(home.file) + 1, at, &mut room[..])?;
    Ok((slot, count))
}

/// Where a block is wrong first, of whose selected slot so many bytes were read: nothing is said of a slot that is cut short.
pub fn slot_fault(home: Home, slot: u8, count: usize, bytes: &[u8]) -> Option<u64>
    requires slot { slot < 2 }
    requires number { home.number < 256 }
    requires blocks { IsWithin 1 256 home.blocks }
    requires bytes { length bytes.now ≡ BLOCK_BYTES }
    ensures fine { BLOCK_BYTES ≤ count → IfNone result (bad_block (Some home) bytes.now ≡ None) }
    ensures exact { (file : List ℕ) → IsRead home file slot count bytes.now → result ≡ bad_selected home file }
{
    if count < BLOCK_BYTES {
        return None;
    }
    match block_fault(Some(home), bytes) {
        Some(bad) => Some(slot_offset(home.number, slot) + u64::from(bad)),
        None => None,
    }
}

/// Where a data file that is too short is wrong first: at one of its blocks, or at its end.
fn short_fault<D: Disk>(
    device: &mut D,
    home: Home,
    length_: u64,
    room: &mut Vec<u8>,
) -> Result<u64, DiskFault>
    requires room { vec_len room.old ≡ BLOCK_BYTES }
    requires blocks { IsWithin 1 256 home.blocks }
    ensures room { vec_len room.new ≡ BLOCK_BYTES }
    ensures works { WorksOn D.Disk device.old device.new result }
    ensures same { D.held device.new ≡ D.held device.old }
    ensures first { IsTrue (D.tells device.old) → IfOk result (λ at. IfThere (D.held device.old) (1 + home.file) (λ f. length_ ≡ length f.bytes → first_bad home f.bytes ≡ at)) }
{
    for number in 0..home.blocks {
        let block = Home { number, ..home };
        let (slot, count) = read_slot(device, block, room)?;
        match slot_fault(block, slot, count, room) {
            Some(at) => return Ok(at),
            None => {}
        }
    }
    Ok(length_)
}

/// Reads the block's selected slot into the room, and answers which slot that is.
pub fn read_block<D: Disk>(device: &mut D, home: Home, room: &mut Vec<u8>) -> Result<u8, BlockFault>
    requires room { vec_len room.old ≡ BLOCK_BYTES }
    requires number { home.number < home.blocks }
    requires blocks { IsWithin 1 256 home.blocks }
    ensures room { vec_len room.new ≡ BLOCK_BYTES }
    ensures works { IsLater D.Disk device.old device.new }
    ensures same { D.held device.new ≡ D.held device.old }
    ensures slot { IfOk result (λ slot. slot < 2) }
    ensures fine { IfOk result (λ _. bad_block (Some home) room.new.items ≡ None) }
    ensures read { IsTrue (D.tells device.old) → IfOk result (λ slot. IsThere (D.held device.old) (1 + home.file) (λ f. (data_length home.blocks ≤ length f.bytes)
        × IsRead home f.bytes slot BLOCK_BYTES room.new.items)) }
    ensures damaged { IsTrue (D.tells device.old) → IfErr result (TellsBlock home (D.held device.old)) }
    ensures exact { IsTrue (D.tells device.old) → IfOk result (λ _. bad_data_in home (D.held device.old (1 + home.file)) ≡ None) }
    ensures cause { IfErr result (BlockCause (D.faults device.old) (D.faults device.new)) }
{
    let Some(length) = device.length(u32::from(home.file) + 1)? else {
        return Err(damage(home.file, 0));
    };
    if length < SELECTORS + 2 * u64::from(home.blocks) * BLOCK_BYTES as u64 {
        let at = short_fault(device, home, length, room)?;
        return Err(damage(home.file, at));
    }
    let (slot, count) = read_slot(device, home, room)?;
    if count < BLOCK_BYTES {
        return Err(damage(home.file, length));
    }
    match slot_fault(home, slot, count, room) {
        Some(at) => Err(damage(home.file, at)),
        None => Ok(slot),
    }
}
