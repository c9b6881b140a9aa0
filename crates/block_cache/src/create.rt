//! A volume's files, written where no label stands: its data files first, and its label last.
ghost use Rattle.std.specs.Prelude.{◌≡◌, ◌<◌, ◌≤◌, ◌+◌, ◌*◌, ◌^◌, ℕ, Some, None, IsTrue, OnOk, OnErr, IsSome, length, slice_index, vec_len};
ghost use Rattle.disk_model.specs.Frame.{WorksOn};
ghost use Rattle.disk_model.specs.Held.{HasCause, Held, File, IsThere, Elsewhere, Leaves};
ghost use Rattle.tmf_model.specs.Config.{IsWithin};
ghost use Rattle.keyed_file.specs.declared.block.TheConstants.{BLOCK_BYTES};
ghost use Rattle.keyed_file.specs.Block.{IsBlock, KeyedBlock};
ghost use Rattle.trail_files.specs.Landed.{IsSettled};
ghost use Rattle.keyed_file.specs.LabelFormat.{IsLabel, label_text};
ghost use Rattle.block_cache.specs.Created.{AreAllFiles, AreBlocksOf, AreGiven, IsBeingMade, IsFinished, IsMade, IsPartFile, IsSurelyLost, MayBeLabelled, OffVolume};
ghost use Rattle.block_cache.specs.Rewrite.{AreAtHome};
ghost use Rattle.keyed_file.specs.Layout.{data_length, IsSpelledAt};
ghost use Rattle.keyed_file.specs.Volume.{Contents, IsContent, SpellsFile, SpellsLabel};

use crate::blocks::SELECTORS;
use crate::contents::FileContents;
use crate::pair::put;
use disk_model::{Disk, DiskFault};
use keyed_file::{BLOCK_BYTES, Block, Label, spelling_length_law};

/// Makes a data file with the selectors of its blocks, each of which names slot 0.
pub fn create_file<D: Disk>(device: &mut D, file: u8) -> Result<(), DiskFault>
    ensures device { D.is_same device.old device.new }
    ensures tells { D.tells device.new ≡ D.tells device.old }
    ensures others { IsTrue (D.tells device.old) → Elsewhere (1 + file) (D.held device.old) (D.held device.new) }
    ensures ok { (contents : Contents) → IsTrue (D.tells device.old) → OnOk result (IsThere (D.held device.new) (1 + file) (λ f. IsPartFile file 0 contents f.bytes)) }
    ensures cause { HasCause (D.faults device.old) (D.faults device.new) result }
{
    let number = u32::from(file) + 1;
    device.create(number)?;
    device.write(number, 0, &[0; SELECTORS as usize])
}

/// Writes the pair of the next block of a data file: its content into slot 0, and zeros into slot 1.
pub fn append_block<D: Disk>(
    device: &mut D,
    file: u8,
    number: u16,
    content: &Block,
    room: &mut Vec<u8>,
) -> Result<(), DiskFault>
    requires room { vec_len room.old ≡ BLOCK_BYTES }
    requires number { number < 256 }
    requires there { IsTrue (D.tells device.old) → IsThere (D.held device.old) (1 + file) (λ f. length f.bytes ≡ data_length number) }
    ensures room { vec_len room.new ≡ BLOCK_BYTES }
    ensures valid { IsBlock content.now }
    ensures ok { (contents : Contents) → IsTrue (D.tells device.old) → IsThere (D.held device.old) (1 + file) (λ f. IsPartFile file number contents f.bytes)
        → contents file number ≡ content.now → OnOk result (IsThere (D.held device.new) (1 + file) (λ f. IsPartFile file (number + 1) contents f.bytes)) }
    ensures device { D.is_same device.old device.new }
    ensures tells { D.tells device.new ≡ D.tells device.old }
    ensures others { IsTrue (D.tells device.old) → Elsewhere (1 + file) (D.held device.old) (D.held device.new) }
    ensures cause { HasCause (D.faults device.old) (D.faults device.new) result }
{
    let at = SELECTORS + 2 * u64::from(number) * BLOCK_BYTES as u64;
    let bytes = &mut room[..];
    content.encode(bytes);
    device.write(u32::from(file) + 1, at, bytes)?;
    bytes.fill(0);
    device.write(u32::from(file) + 1, at + BLOCK_BYTES as u64, bytes)
}

/// Takes what was written of a data file off risk.
pub fn finish_file<D: Disk>(device: &mut D, file: u8) -> Result<(), DiskFault>
    requires { IsTrue (D.tells device.old) → IsSome (D.held device.old (1 + file)) }
    ensures device { D.is_same device.old device.new }
    ensures tells { D.tells device.new ≡ D.tells device.old }
    ensures others { IsTrue (D.tells device.old) → Elsewhere (1 + file) (D.held device.old) (D.held device.new) }
    ensures ok { (contents : Contents) (blocks : ℕ) → IsTrue (D.tells device.old) → IsThere (D.held device.old) (1 + file) (λ f. IsPartFile file blocks contents f.bytes) → blocks ≤ 256
        → ((number : ℕ) → number < blocks → IsContent file blocks number (contents file number))
        → OnOk result (IsThere (D.held device.new) (1 + file) (λ f. IsSettled f × SpellsFile file blocks contents f.bytes)) }
    ensures cause { HasCause (D.faults device.old) (D.faults device.new) result }
{
    device.sync(u32::from(file) + 1)
}

/// Makes a data file with these blocks, the first one first, and takes it off risk.
fn write_file<D: Disk>(
    device: &mut D,
    file: u8,
    blocks: &[Block],
    room: &mut Vec<u8>,
) -> Result<(), DiskFault>
    requires room { vec_len room.old ≡ BLOCK_BYTES }
    requires few { length blocks.now ≤ 256 }
    requires homes { AreAtHome file (length blocks.now) blocks.now }
    ensures room { vec_len room.new ≡ BLOCK_BYTES }
    ensures others { IsTrue (D.tells device.old) → Elsewhere (1 + file) (D.held device.old) (D.held device.new) }
    ensures ok { (contents : Contents) → IsTrue (D.tells device.old) → AreBlocksOf contents file blocks.now → OnOk result (IsFinished file (length blocks.now) contents (D.held device.new)) }
    ensures works { WorksOn D.Disk device.old device.new result }
{
    create_file(device, file)?;
    for (number, content) in blocks.iter().enumerate() {
        append_block(device, file, number as u16, content, room)?;
    }
    finish_file(device, file)
}

/// Writes what stands behind the gate of a new label's file: the selector of slot 0, the label in that slot, and zeros.
fn fill_label(label: &Label, into: &mut [u8])
    requires label { IsLabel label.now }
    requires bytes { length into.old ≡ 767 }
    ensures selector { slice_index into.new 0 ≡ 0 }
    ensures spelled { IsSpelledAt into.new 255 (label_text label.now) }
{
    let (front, slots) = into.split_at_mut(255);
    let (first, second) = slots.split_at_mut(256);
    front.fill(0);
    label.encode(first);
    second.fill(0);
}

/// Makes the label of a volume that has none, behind its data files: until its gate is written no image has a label, and from then
/// on each has none or this one.
pub fn create_label<D: Disk>(
    device: &mut D,
    label: &Label,
    room: &mut Vec<u8>,
) -> Result<(), DiskFault>
    requires label { IsLabel label.now }
    requires room { vec_len room.old ≡ BLOCK_BYTES }
    requires lost { IsTrue (D.tells device.old) → IsSurelyLost (D.held device.old) }
    ensures room { vec_len room.new ≡ BLOCK_BYTES }
    ensures device { D.is_same device.old device.new }
    ensures tells { D.tells device.new ≡ D.tells device.old }
    ensures others { IsTrue (D.tells device.old) → Elsewhere 1 (D.held device.old) (D.held device.new) }
    ensures ok { IsTrue (D.tells device.old) → OnOk result (IsThere (D.held device.new) 1 (λ f. IsSettled f × SpellsLabel label.now f.bytes)) }
    ensures err { IsTrue (D.tells device.old) → OnErr result (MayBeLabelled label.now (D.held device.new)) }
    ensures cause { HasCause (D.faults device.old) (D.faults device.new) result }
{
    spelling_length_law();
    device.create(1)?;
    let bytes = &mut room[..767];
    fill_label(label, bytes);
    put(device, 1, 1, bytes)?;
    put(device, 1, 0, &[1])
}

/// Makes a volume anew: the label that stands goes first, then each data file is made, and at last the label. What a crash leaves is as
/// before, or it has no label, or the volume is whole.
pub fn create_volume<D: Disk>(
    device: &mut D,
    label: &Label,
    contents: &[FileContents],
    room: &mut Vec<u8>,
) -> Result<(), DiskFault>
    requires label { IsLabel label.now }
    requires room { vec_len room.old ≡ BLOCK_BYTES }
    requires all { AreAllFiles label.now.files contents.now }
    ensures room { vec_len room.new ≡ BLOCK_BYTES }
    ensures others { IsTrue (D.tells device.old) → OffVolume label.now.files (D.held device.old) (D.held device.new) }
    ensures made { (made : Contents) → IsTrue (D.tells device.old) → AreGiven made contents.now → OnOk result (IsMade label.now made (D.held device.new)) }
    ensures every { (made : Contents) (image : Held) → IsTrue (D.tells device.old) → AreGiven made contents.now → Leaves (D.held device.new) image
        → IsBeingMade label.now made (D.held device.old) image }
    ensures works { WorksOn D.Disk device.old device.new result }
{
    spelling_length_law();
    device.create(1)?;
    for one in contents {
        write_file(device, one.file, one.blocks.as_slice(), room)?;
    }
    create_label(device, label, room)
}
