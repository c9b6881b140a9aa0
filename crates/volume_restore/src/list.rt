//! The records of one file of a volume, by the selected slots.
ghost use Rattle.std.specs.Prelude.{◌≡◌, ◌≢◌, ◌<◌, ◌+◌, ℕ, List, None, Some, Err, IsTrue, IfOk, IfErr, OnOk, MatchResult, length};
ghost use Rattle.disk_model.specs.Held.{Held};
ghost use Rattle.disk_model.specs.Frame.{IsLater};
ghost use Rattle.tmf_model.specs.Config.{IsDeclared, IsValidConfig, IsWithin};
ghost use Rattle.tmf_model.specs.RecordMap.{RecordMap, IsListing};
ghost use Rattle.trail_files.specs.StandsFor.{Base};
ghost use Rattle.keyed_file.specs.Block.{KeyedBlock};
ghost use Rattle.keyed_file.specs.Layout.{data_length};
ghost use Rattle.keyed_file.specs.Volume.{label_of};
ghost use Rattle.block_cache.specs.Blocks.{OnlyReads};
ghost use Rattle.block_cache.specs.Damage.{bad_data_in};
ghost use Rattle.block_cache.specs.OnePiece.{AreFileBytes};
ghost use Rattle.block_cache.specs.Shows.{SpellsContent};
ghost use Rattle.block_cache.specs.Volume.{HasBase, RestsFor};
ghost use Rattle.volume_restore.specs.Damage.{IsFileFine, ShowsFile, blocks_on};
ghost use Rattle.volume_restore.specs.Listed.{AreFine, AreRead, HasAdded, IsFileListing, IsFineFile, ListCause, ShowsRecords, TellsFile, TellsListing, list_fault, opening_fault, value_in};
ghost use Rattle.volume_restore.specs.Bases.{volume_on};

use crate::fault::handed_back;
use block_cache::{AttachFault, BlockFault, Blocks, take_block};
use disk_model::Disk;
use keyed_file::{BLOCK_BYTES, Block, Home};
use std::alloc::{AllocError, Global};
use std::collections::BTreeMap;
use tmf_model::{Config, Key, Value};
use trail_files::Damage;

/// Why a file was not listed.
#[derive(Clone, Copy, Debug, PartialEq, Eq)]
pub enum ListFault {
    /// The volume has no label.
    Lost,
    /// The device's bytes are no label of the volume, or no block of the file.
    Damaged(Damage),
    /// The device failed.
    Failed,
    /// Memory ran out.
    NoMemory,
}

/// What a fault of a block is to the listing of its file.
fn of_block(fault: BlockFault) -> ListFault
    ensures { result ≡ list_fault fault }
{
    match fault {
        BlockFault::Failed => ListFault::Failed,
        BlockFault::Damaged(damage) => ListFault::Damaged(damage),
        BlockFault::NoMemory => ListFault::NoMemory,
    }
}

/// What a fault of the opening of a volume is to the listing of a file.
fn of_opening(fault: AttachFault) -> ListFault
    ensures { result ≡ opening_fault fault }
{
    match fault {
        AttachFault::Lost => ListFault::Lost,
        AttachFault::Damaged(damage) => ListFault::Damaged(damage),
        AttachFault::Failed => ListFault::Failed,
        AttachFault::NoMemory => ListFault::NoMemory,
    }
}

/// Adds the records of a block.
fn add_records(records: &mut BTreeMap<Key, Value>, block: &Block) -> Result<(), AllocError>
    ensures { OnOk result (HasAdded block.now records.old records.new) }
{
    for (key, value) in block.records() {
        records.insert(*key, *value)?;
    }
    Ok(())
}

/// Adds the records of a block, decoded out of the bytes of its file.
fn add_block(
    alloc: Global,
    home: Home,
    bytes: &[u8],
    block: &mut Block,
    records: &mut BTreeMap<Key, Value>,
) -> Result<(), ListFault>
    requires block { home.number < home.blocks }
    requires few { IsWithin 1 256 home.blocks }
    requires whole { length bytes.now ≡ data_length home.blocks }
    ensures added { (held : Held) → AreFileBytes home held bytes.now → OnOk result ((content : KeyedBlock) × SpellsContent home content held × HasAdded content records.old records.new) }
    ensures told { (held : Held) → AreFileBytes home held bytes.now → MatchResult result
        (λ _. bad_data_in home (held (1 + home.file)) ≡ None)
        (λ e. AreFine home.file home.blocks home.number held → TellsFile home.file home.blocks held e) }
    ensures works { IfErr result (λ e. e ≢ ListFault.Failed) }
{
    match take_block(alloc, home, bytes, block) {
        Ok(_) => {}
        Err(fault) => return Err(of_block(fault)),
    }
    match add_records(records, block) {
        Ok(()) => Ok(()),
        Err(_) => Err(ListFault::NoMemory),
    }
}

/// The records of the blocks of a file whose bytes were read.
fn add_blocks(alloc: Global, first: Home, bytes: &[u8]) -> Result<BTreeMap<Key, Value>, ListFault>
    requires few { IsWithin 1 256 first.blocks }
    requires whole { length bytes.now ≡ data_length first.blocks }
    ensures read { (held : Held) → AreFileBytes first held bytes.now → IfOk result (AreRead first.file first.blocks first.blocks held) }
    ensures told { (held : Held) → AreFileBytes first held bytes.now → MatchResult result
        (λ _. IsFileFine first.file first.blocks held)
        (TellsFile first.file first.blocks held) }
    ensures works { IfErr result (λ e. e ≢ ListFault.Failed) }
{
    let Ok(mut block) = Block::empty(alloc, first.file, 0) else {
        return Err(ListFault::NoMemory);
    };
    let mut records = BTreeMap::new(alloc);
    for number in 0..first.blocks {
        add_block(
            alloc,
            Home { number, ..first },
            bytes,
            &mut block,
            &mut records,
        )?;
    }
    Ok(records)
}

/// The records of the blocks of a file, which is read by one call of the device.
fn read_file<D: Disk>(
    alloc: Global,
    blocks: &mut Blocks<D>,
    file: u8,
    count: u16,
) -> Result<BTreeMap<Key, Value>, ListFault>
    requires few { IsWithin 1 256 count }
    ensures read { IsTrue (D.tells blocks.old.device) → IfOk result (AreRead file count count (D.held blocks.old.device)) }
    ensures told { IsTrue (D.tells blocks.old.device) → MatchResult result
        (λ _. IsFileFine file count (D.held blocks.old.device))
        (TellsFile file count (D.held blocks.old.device)) }
    ensures reads { OnlyReads D.Disk blocks.old blocks.new }
    ensures cause { IfErr result (ListCause (D.faults blocks.old.device) (D.faults blocks.new.device)) }
{
    blocks.always();
    let first = Home {
        file,
        number: 0,
        blocks: count,
    };
    let Ok(mut bytes) = vec![in alloc; 0; 256 + 2 * usize::from(count) * BLOCK_BYTES] else {
        return Err(ListFault::NoMemory);
    };
    match blocks.read_file(first, &mut bytes) {
        Ok(()) => {}
        Err(fault) => return Err(of_block(fault)),
    }
    add_blocks(alloc, first, &bytes)
}

/// The records, in rising order of their keys.
fn listing(alloc: Global, records: &BTreeMap<Key, Value>) -> Result<Vec<(Key, Value)>, AllocError>
    ensures { (map : RecordMap) (file : ℕ) → ((key : List ℕ) → value_in records.now key ≡ map file key) → IfOk result (λ entries. IsListing map file entries.items) }
{
    let mut entries = Vec::new(alloc);
    for (key, value) in records.iter() {
        entries.push((*key, *value))?;
    }
    Ok(entries)
}

/// The records of a file of a volume that is opened, in rising order of their keys.
fn list_blocks<D: Disk>(
    alloc: Global,
    blocks: &mut Blocks<D>,
    file: u8,
    count: u16,
) -> Result<Vec<(Key, Value)>, ListFault>
    requires few { IsWithin 1 256 count }
    ensures listed { (map : RecordMap) → IsTrue (D.tells blocks.old.device) → ShowsRecords map file count (D.held blocks.old.device) → IfOk result (λ entries. IsListing map file entries.items) }
    ensures shown { IsTrue (D.tells blocks.old.device) → OnOk result (ShowsFile file count (D.held blocks.old.device)) }
    ensures told { IsTrue (D.tells blocks.old.device) → MatchResult result
        (λ _. IsFileFine file count (D.held blocks.old.device))
        (TellsFile file count (D.held blocks.old.device)) }
    ensures reads { OnlyReads D.Disk blocks.old blocks.new }
    ensures cause { IfErr result (ListCause (D.faults blocks.old.device) (D.faults blocks.new.device)) }
{
    let records = read_file(alloc, blocks, file, count)?;
    match listing(alloc, &records) {
        Ok(entries) => Ok(entries),
        Err(_) => Err(ListFault::NoMemory),
    }
}

/// The records of a file that lies on this volume with so many blocks.
fn list_on<D: Disk>(
    alloc: Global,
    device: &mut D,
    config: &Config,
    volume: u8,
    file: u8,
    count: u16,
) -> Result<Vec<(Key, Value)>, ListFault>
    requires config { IsValidConfig config.now }
    requires volume { IsDeclared config.now.volumes volume }
    requires count { count ≡ blocks_on config.now volume file }
    requires few { IsWithin 1 256 count }
    ensures listed { (base : Base) → IsTrue (D.tells device.old) → HasBase config.now volume (D.held device.old) (Some base)
        → RestsFor (label_of config.now volume base.position) (D.held device.old) → IfOk result (λ entries. IsListing base.records file entries.items) }
    ensures shown { IsTrue (D.tells device.old) → IfOk result (λ entries. IsFileListing config.now volume file (D.held device.old) entries.items) }
    ensures fine { IsTrue (D.tells device.old) → IfOk result (λ _. IsFineFile config.now volume file (D.held device.old)) }
    ensures told { IsTrue (D.tells device.old) → IfErr result (TellsListing config.now volume file (D.held device.old)) }
    ensures same { D.held device.new ≡ D.held device.old }
    ensures keeps { IsLater D.Disk device.old device.new }
    ensures cause { IfErr result (ListCause (D.faults device.old) (D.faults device.new)) }
{
    match Blocks::<&mut D>::attach(alloc, device, config, volume, 1) {
        Err(refused) => {
            let fault = of_opening(refused.1);
            let _device = handed_back(refused);
            Err(fault)
        }
        Ok(opened) => {
            let mut blocks = opened;
            let entries = list_blocks(alloc, &mut blocks, file, count);
            let _device = blocks.into_device();
            entries
        }
    }
}

/// The records of one file, by the selected slots of its volume, in rising order of their keys. It writes nothing, and has the records of this
/// file alone in memory.
pub fn list_volume<D: Disk>(
    alloc: Global,
    device: &mut D,
    config: &Config,
    file: u8,
) -> Result<Vec<(Key, Value)>, ListFault>
    requires config { IsValidConfig config.now }
    requires file { IsDeclared config.now.files file }
    ensures listed { (base : Base) → IsTrue (D.tells device.old) → HasBase config.now (volume_on config.now file) (D.held device.old) (Some base)
        → RestsFor (label_of config.now (volume_on config.now file) base.position) (D.held device.old) → IfOk result (λ entries. IsListing base.records file entries.items) }
    // Whatever the other files of the volume hold.
    ensures shown { IsTrue (D.tells device.old) → IfOk result (λ entries. IsFileListing config.now (volume_on config.now file) file (D.held device.old) entries.items) }
    ensures fine { IsTrue (D.tells device.old) → IfOk result (λ _. IsFineFile config.now (volume_on config.now file) file (D.held device.old)) }
    ensures told { IsTrue (D.tells device.old) → IfErr result (TellsListing config.now (volume_on config.now file) file (D.held device.old)) }
    ensures same { D.held device.new ≡ D.held device.old }
    ensures keeps { IsLater D.Disk device.old device.new }
    ensures cause { IfErr result (ListCause (D.faults device.old) (D.faults device.new)) }
{
    let line = config.file(file).unwrap();
    list_on(alloc, device, config, line.volume, file, line.blocks)
}
