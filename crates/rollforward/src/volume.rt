//! A volume that is filled on its device: its data files block by block, and its label last.
ghost use Rattle.std.specs.Prelude.{◌≡◌, ◌<◌, ◌≤◌, ◌+◌, ℕ, IsTrue, OnOk, length, vec_len};
ghost use Rattle.disk_model.specs.Frame.{WorksOn};
ghost use Rattle.disk_model.specs.Held.{Elsewhere, Held, Leaves};
ghost use Rattle.tmf_model.specs.Config.{IsWithin};
ghost use Rattle.keyed_file.specs.declared.block.TheConstants.{BLOCK_BYTES};
ghost use Rattle.keyed_file.specs.Dump.{blocks_in_all};
ghost use Rattle.keyed_file.specs.LabelFormat.{IsLabel};
ghost use Rattle.block_cache.specs.Created.{OffVolume};
ghost use Rattle.volume_restore.specs.Changed.{HasRoomIn};
ghost use Rattle.rollforward.specs.Gathered.{values_by_block, values_gathered};
ghost use Rattle.rollforward.specs.Filling.{HasRoomFor, IsBeingFilled, IsFileFilled, IsVolumeFilled};

use crate::block::fill_block;
use crate::gather::Entry;
use block_cache::{Blocks, append_block, create_file, create_label, finish_file};
use disk_model::{Disk, DiskFault};
use keyed_file::{BLOCK_BYTES, Block, Home, Label, spelling_length_law};
use tmf_model::Sequence;

/// The file of a volume's label.
const LABEL_FILE: u32 = 1;

/// Makes the data file of which this is the first block's place, and takes it off risk. Each block has its records of these, behind its disc's
/// records up to a position.
fn fill_file<D: Disk>(
    device: &mut D,
    first: Home,
    groups: &[Sequence<Entry>],
    position: u64,
    block: &mut Block,
    room: &mut Vec<u8>,
) -> Result<(), DiskFault>
    requires space { vec_len room.old ≡ BLOCK_BYTES }
    requires blocks { IsWithin 1 256 first.blocks }
    requires groups { first.blocks ≤ length groups.now }
    requires room { (number : ℕ) → number < first.blocks → HasRoomIn first.blocks number (values_by_block first.blocks groups.now first.file) }
    ensures space { vec_len room.new ≡ BLOCK_BYTES }
    ensures others { IsTrue (D.tells device.old) → Elsewhere (1 + first.file) (D.held device.old) (D.held device.new) }
    ensures filled { IsTrue (D.tells device.old) → OnOk result (IsFileFilled (values_by_block first.blocks groups.now) first.file first.blocks (D.held device.new)) }
    ensures works { WorksOn D.Disk device.old device.new result }
{
    create_file(device, first.file)?;
    for number in 0..first.blocks {
        let records = groups[usize::from(number)].as_slice();
        fill_block(block, Home { number, ..first }, records, position);
        append_block(device, first.file, number, block, room)?;
    }
    finish_file(device, first.file)
}

/// Fills a volume with the records of its blocks: the label that stands goes first, then each data file is made, and at last the label. What a crash leaves is as
/// before, or it has no label, or the volume is whole. One block is in memory at a time.
pub fn fill_volume<D: Disk>(
    device: &mut D,
    label: &Label,
    groups: &[Sequence<Entry>],
    block: &mut Block,
    room: &mut Vec<u8>,
) -> Result<(), DiskFault>
    requires label { IsLabel label.now }
    requires space { vec_len room.old ≡ BLOCK_BYTES }
    requires groups { length groups.now ≡ blocks_in_all label.now.files }
    requires room { HasRoomFor label.now.files (values_gathered label.now.files groups.now) }
    ensures space { vec_len room.new ≡ BLOCK_BYTES }
    ensures others { IsTrue (D.tells device.old) → OffVolume label.now.files (D.held device.old) (D.held device.new) }
    ensures filled { IsTrue (D.tells device.old) → OnOk result (IsVolumeFilled label.now (values_gathered label.now.files groups.now) (D.held device.new)) }
    ensures every { (image : Held) → IsTrue (D.tells device.old) → Leaves (D.held device.new) image → IsBeingFilled label.now (values_gathered label.now.files groups.now) (D.held device.old) image }
    ensures works { WorksOn D.Disk device.old device.new result }
{
    spelling_length_law();
    Blocks::<D>::at_rest();
    device.create(LABEL_FILE)?;
    let position = label.low - 1;
    let mut rest = groups;
    for (file, blocks) in label.files.as_slice() {
        let first = Home {
            file: *file,
            number: 0,
            blocks: *blocks,
        };
        let (own, more) = rest.split_at(usize::from(*blocks));
        fill_file(device, first, own, position, block, room)?;
        rest = more;
    }
    create_label(device, label, room)
}
