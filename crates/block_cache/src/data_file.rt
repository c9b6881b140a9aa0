//! A data file that is read in one piece, and the blocks in its bytes.
ghost use Rattle.std.specs.Prelude.{◌≡◌, ◌<◌, ◌≤◌, ◌+◌, length, IsTrue, IfOk, IfErr, OnOk, OnErr, MatchResult, Option, ℕ, option_map, slice_index};
ghost use Rattle.disk_model.specs.Frame.{IsLater};
ghost use Rattle.tmf_model.specs.Config.{IsWithin};
ghost use Rattle.keyed_file.specs.Fault.{IsBlockFault};
ghost use Rattle.keyed_file.specs.Layout.{data_length, selected_by};
ghost use Rattle.block_cache.specs.Damage.{BlockCause, TellsBlock, bad_selected, first_bad};
ghost use Rattle.block_cache.specs.OnePiece.{AreFileBytes, SpellsIn, TellsIn};

use crate::blocks::slot_offset;
use crate::fault::BlockFault;
use crate::reading::{damage, slot_fault, slot_named};
use disk_model::Disk;
use keyed_file::{BLOCK_BYTES, Block, BlockFault as Undecoded, Home};
use std::alloc::Global;

/// The slot that a block's selector names, or slot 0 where the bytes end before it.
fn selected_slot(number: u16, bytes: &[u8]) -> u8
    ensures named { result ≡ selected_by (slice_index bytes.now number) }
    ensures small { result < 2 }
{
    match bytes.get(usize::from(number)) {
        Some(byte) => slot_named(*byte),
        None => 0,
    }
}

/// Where a block is wrong first in a data file with these bytes: nothing is said of a slot that is cut short.
fn fault_in(home: Home, bytes: &[u8]) -> Option<u64>
    requires number { home.number < 256 }
    requires blocks { IsWithin 1 256 home.blocks }
    ensures { result ≡ bad_selected home bytes.now }
{
    let slot = selected_slot(home.number, bytes);
    let from = slot_offset(home.number, slot) as usize;
    if bytes.len() < from + BLOCK_BYTES {
        return None;
    }
    slot_fault(home, slot, BLOCK_BYTES, &bytes[from..from + BLOCK_BYTES])
}

/// Where a data file with these bytes, which is too short, is wrong first: at one of its blocks, or at its end.
fn short_file_fault(home: Home, bytes: &[u8]) -> u64
    requires { IsWithin 1 256 home.blocks }
    ensures { result ≡ first_bad home bytes.now }
{
    for number in 0..home.blocks {
        match fault_in(Home { number, ..home }, bytes) {
            Some(at) => return at,
            None => {}
        }
    }
    bytes.len() as u64
}

/// Reads the data file of a block as far as its blocks reach.
pub fn read_file<D: Disk>(device: &mut D, home: Home, bytes: &mut [u8]) -> Result<(), BlockFault>
    requires blocks { IsWithin 1 256 home.blocks }
    requires room { length bytes.old ≡ data_length home.blocks }
    ensures room { length bytes.new ≡ data_length home.blocks }
    ensures told { IsTrue (D.tells device.old) → MatchResult result (λ _. AreFileBytes home (D.held device.old) bytes.new) (TellsBlock home (D.held device.old)) }
    ensures same { D.held device.new ≡ D.held device.old }
    ensures works { IsLater D.Disk device.old device.new }
    ensures cause { IfErr result (BlockCause (D.faults device.old) (D.faults device.new)) }
{
    let count = device.read(u32::from(home.file) + 1, 0, bytes)?;
    if count < bytes.len() {
        let at = short_file_fault(home, &bytes[..count]);
        return Err(damage(home.file, at));
    }
    Ok(())
}

/// What is wrong with a slot that is no block, where it begins at this offset of its data file.
fn slot_refused(home: Home, from: u64, fault: Undecoded) -> BlockFault
    requires { from < 4611686018427387904 }
    ensures { (bad : Option ℕ) → IsBlockFault bad fault → TellsIn home (option_map (λ at. from + at) bad) result }
{
    match fault {
        Undecoded::Bad(bad) => damage(home.file, from + u64::from(bad.at)),
        Undecoded::NoMemory => BlockFault::NoMemory,
    }
}

/// Makes a block the one that its selected slot spells in the bytes of its data file, which are looked at once, and answers that slot; or else leaves
/// it, and tells where it is wrong first.
pub fn take_block(
    alloc: Global,
    home: Home,
    bytes: &[u8],
    block: &mut Block,
) -> Result<u8, BlockFault>
    requires number { home.number < home.blocks }
    requires blocks { IsWithin 1 256 home.blocks }
    requires whole { length bytes.now ≡ data_length home.blocks }
    ensures slot { IfOk result (λ slot. (slot ≡ selected_by (slice_index bytes.now home.number)) × (slot < 2)) }
    ensures spelled { OnOk result (SpellsIn home block.new bytes.now) }
    ensures bad { IfErr result (TellsIn home (bad_selected home bytes.now)) }
    ensures stays { OnErr result (block.new ≡ block.old) }
{
    let slot = selected_slot(home.number, bytes);
    let from = slot_offset(home.number, slot);
    let at = from as usize;
    match Block::decode_at(alloc, home, &bytes[at..at + BLOCK_BYTES]) {
        Ok(decoded) => {
            *block = decoded;
            Ok(slot)
        }
        Err(fault) => Err(slot_refused(home, from, fault)),
    }
}
