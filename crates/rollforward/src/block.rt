//! One block of a volume that is being filled.
ghost use Rattle.std.specs.Prelude.{◌≡◌, true, Some};
ghost use Rattle.tmf_model.specs.Config.{IsWithin};
ghost use Rattle.keyed_file.specs.Block.{IsBlock};
ghost use Rattle.keyed_file.specs.BlockFormat.{is_at_home};
ghost use Rattle.block_cache.specs.Rewrite.{IsContentOf};
ghost use Rattle.volume_restore.specs.Changed.{HasRoomIn};
ghost use Rattle.rollforward.specs.Filled.{values_of};

use keyed_file::{Block, Home};
use tmf_model::{Key, Value, place_of};

/// Makes it the block of a place, with those of the records that live there, behind its disc's records up to a position.
pub fn fill_block(block: &mut Block, home: Home, records: &[(u8, Key, Value)], position: u64)
    requires blocks { IsWithin 1 256 home.blocks }
    requires room { HasRoomIn home.blocks home.number (values_of records.now home.file) }
    ensures content { IsContentOf (values_of records.now) home.file home.blocks home.number block.new }
    ensures home { is_at_home (Some home) block.new ≡ true }
    ensures valid { IsBlock block.new }
{
    block.clear(home.file, home.number);
    for (file, key, value) in records {
        if *file == home.file && place_of(key, home.blocks) == home.number {
            block.set(key, Some(*value), position);
        }
    }
}
