//! A volume, or a dump device, made anew.
ghost use Rattle.std.specs.Prelude.{◌≡◌, ◌⊎◌, [], ℕ, List, None, Some, Err, IsTrue, IfOk, OnOk, OnErr};
ghost use Rattle.disk_model.specs.Frame.{IsLater, WorksOn};
ghost use Rattle.disk_model.specs.Held.{Elsewhere, Held, Leaves, Rose};
ghost use Rattle.tmf_model.specs.Config.{IsDeclared, IsValidConfig, IsWithin};
ghost use Rattle.tmf_model.specs.declared.config.Config.{Config};
ghost use Rattle.tmf_model.specs.RecordMap.{empty_map};
ghost use Rattle.trail_files.specs.declared.monitor_record.MonitorRecord.{MonitorRecord};
ghost use Rattle.trail_files.specs.StandsFor.{VolumeStandsFor};
ghost use Rattle.keyed_file.specs.Volume.{SpellsVolume, files_on, label_of};
ghost use Rattle.block_cache.specs.Created.{IsBeingMade, IsMade, OffVolume};
ghost use Rattle.block_cache.specs.Volume.{HasBase, HasNoLabel};
ghost use Rattle.volume_restore.specs.Bases.{empty_base};
ghost use Rattle.volume_restore.specs.Bases.{next_behind};
ghost use Rattle.volume_restore.specs.Formatted.{AreEmptyFiles, IsCleared, IsEmptyFile, empty_contents};

use block_cache::{Blocks, FileContents, create_volume};
use disk_model::{Disk, DiskFault};
use keyed_file::{BLOCK_BYTES, Block, Label};
use std::alloc::Global;
use tmf_model::{Config, Sequence};

/// The low position of a new volume.
const FIRST_POSITION: u64 = 1;

/// The file of a dump's label, and those of the two bodies.
const DUMP_LABEL: u32 = 1;

const FIRST_BODY: u32 = 2;

const SECOND_BODY: u32 = 3;

/// Why a volume was not made anew.
#[derive(Clone, Copy, Debug, PartialEq, Eq)]
pub enum FormatFault {
    /// The device failed.
    Failed,
    /// Memory ran out.
    NoMemory,
}

/// The blocks of a file, without records.
fn empty_file(alloc: Global, file: u8, count: u16) -> Result<FileContents, FormatFault>
    ensures given { IfOk result (IsEmptyFile file count) }
    ensures err { OnErr result (result ≡ Err FormatFault.NoMemory) }
{
    let Ok(mut blocks) = Vec::with_capacity(alloc, usize::from(count)) else {
        return Err(FormatFault::NoMemory);
    };
    for number in 0..count {
        let Ok(block) = Block::empty(alloc, file, number) else {
            return Err(FormatFault::NoMemory);
        };
        blocks.push_reserved(block);
    }
    Ok(FileContents {
        file,
        blocks: Sequence::new(blocks),
    })
}

/// The blocks of each file of a label, without records.
fn empty_files(alloc: Global, files: &[(u8, u16)]) -> Result<Vec<FileContents>, FormatFault>
    ensures given { IfOk result (λ given. AreEmptyFiles files.now given.items) }
    ensures err { OnErr result (result ≡ Err FormatFault.NoMemory) }
{
    let Ok(mut given) = Vec::with_capacity(alloc, files.len()) else {
        return Err(FormatFault::NoMemory);
    };
    for (file, count) in files {
        given.push_reserved(empty_file(alloc, *file, *count)?);
    }
    Ok(given)
}

/// Makes a volume of a configuration anew: its label with the low position 1, and each of its files with blocks without records. What a
/// crash leaves on the way is as before, or it has no label, or it is the whole volume.
pub fn format_volume<D: Disk>(
    alloc: Global,
    device: &mut D,
    config: &Config,
    volume: u8,
) -> Result<(), FormatFault>
    requires config { IsValidConfig config.now }
    requires volume { IsDeclared config.now.volumes volume }
    ensures made { IsTrue (D.tells device.old) → OnOk result (IsMade (label_of config.now volume 1) empty_contents (D.held device.new)) }
    ensures images { (image : Held) → IsTrue (D.tells device.old) → Leaves (D.held device.new) image → OnOk result (HasBase config.now volume image (Some empty_base)) }
    ensures every { (image : Held) → IsTrue (D.tells device.old) → Leaves (D.held device.new) image
        → IsBeingMade (label_of config.now volume 1) empty_contents (D.held device.old) image }
    ensures others { IsTrue (D.tells device.old) → OffVolume (files_on volume 1 config.now.files) (D.held device.old) (D.held device.new) }
    ensures keeps { IsLater D.Disk device.old device.new }
    ensures cause { result ≡ Err FormatFault.Failed → Rose (D.faults device.old) (D.faults device.new) }
{
    formatted_law();
    Blocks::<D>::at_rest();
    let Ok(label) = Label::of_volume(alloc, config, volume, FIRST_POSITION) else {
        return Err(FormatFault::NoMemory);
    };
    let Ok(mut room) = vec![in alloc; 0; BLOCK_BYTES] else {
        return Err(FormatFault::NoMemory);
    };
    let given = empty_files(alloc, label.files.as_slice())?;
    match create_volume(device, &label, given.as_slice(), &mut room) {
        Ok(()) => Ok(()),
        Err(_) => Err(FormatFault::Failed),
    }
}

/// Takes a file away, where it is there.
pub(crate) fn remove_file<D: Disk>(device: &mut D, file: u32) -> Result<(), DiskFault>
    ensures gone { IsTrue (D.tells device.old) → OnOk result (D.held device.new file ≡ None) }
    ensures left { IsTrue (D.tells device.old) → OnErr result ((D.held device.new file ≡ D.held device.old file) ⊎ (D.held device.new file ≡ None)) }
    ensures others { IsTrue (D.tells device.old) → Elsewhere file (D.held device.old) (D.held device.new) }
    ensures works { WorksOn D.Disk device.old device.new result }
{
    if device.length(file)?.is_some() {
        device.remove(file)?;
    }
    Ok(())
}

/// Takes a dump away: its label first, and then its bodies. What a crash leaves on the way is as before, or it has no dump.
pub fn clear_dump<D: Disk>(device: &mut D) -> Result<(), DiskFault>
    ensures cleared { IsTrue (D.tells device.old) → OnOk result (IsCleared (D.held device.new)) }
    ensures images { (image : Held) → IsTrue (D.tells device.old) → Leaves (D.held device.new) image → OnOk result (HasNoLabel image) }
    ensures every { (image : Held) → IsTrue (D.tells device.old) → Leaves (D.held device.new) image → Leaves (D.held device.old) image ⊎ HasNoLabel image }
    ensures others { (file : ℕ) → IsTrue (D.tells device.old) → ¬ IsWithin 1 3 file → D.held device.new file ≡ D.held device.old file }
    ensures works { WorksOn D.Disk device.old device.new result }
{
    remove_file(device, DUMP_LABEL)?;
    remove_file(device, FIRST_BODY)?;
    remove_file(device, SECOND_BODY)
}

/// A new volume has no records and the low position 1, which is its disc's next one: with a trail without records and without a dump it stands
/// for the empty map.
pub fn formatted_law()
    ensures base { (config : Config) (volume : ℕ) (image : Held) → SpellsVolume (label_of config volume 1) image empty_contents → HasBase config volume image (Some empty_base) }
    ensures stands { (config : Config) (volume : ℕ) (list : List MonitorRecord) → VolumeStandsFor config volume [] (Some empty_base) None list empty_map }
    ensures next { (volume : ℕ) → next_behind volume empty_base.position [] ≡ empty_base.position }
{}
