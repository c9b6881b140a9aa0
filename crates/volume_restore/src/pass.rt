//! One pass over the blocks of a volume, each of which is decoded once.
ghost use Rattle.std.specs.Prelude.{◌≡◌, ◌≢◌, ◌<◌, ◌≤◌, ◌+◌, [], ℕ, List, None, Some, true, IfOk, IfErr, IsTrue, MatchResult, OnOk, length, slice_get, vec_len};
ghost use Rattle.disk_model.specs.Held.{Held};
ghost use Rattle.tmf_model.specs.Config.{IsWithin};
ghost use Rattle.tmf_model.specs.declared.config.Config.{Config};
ghost use Rattle.keyed_file.specs.Block.{KeyedBlock};
ghost use Rattle.keyed_file.specs.Layout.{data_length};
ghost use Rattle.keyed_file.specs.Volume.{files_on};
ghost use Rattle.block_cache.specs.Blocks.{OnlyReads};
ghost use Rattle.block_cache.specs.Changes.{AreNamed};
ghost use Rattle.block_cache.specs.OnePiece.{AreFileBytes};
ghost use Rattle.block_cache.specs.Shows.{SpellsContent};
ghost use Rattle.trail_replay.specs.declared.replay.FoundFiles.{FoundFiles};
ghost use Rattle.volume_restore.specs.Changed.{ArePartsOf, Changes};
ghost use Rattle.volume_restore.specs.Damage.{blocks_on};
ghost use Rattle.volume_restore.specs.Inspected.{TellsBad};
ghost use Rattle.volume_restore.specs.Pass.{AreBefore, HasPassed, IfDiffers, IsChangeAt, IsSeen, TellsWrong};
ghost use Rattle.volume_restore.specs.Restored.{VolumeCause, WereFound, WereFoundAt};

use crate::block::{RestoreFault, changed_block};
use crate::fault::{VolumeFault, fault_of_block};
use crate::gather::found_by_block;
use block_cache::{BlockNo, Blocks, Change, take_block};
use disk_model::Disk;
use keyed_file::{BLOCK_BYTES, Block, Home};
use std::alloc::Global;
use trail_files::{Damage, DamageKind};
use trail_replay::Found;

/// What a pass sees of a block that is right.
#[derive(Drop)]
enum Seen {
    /// It has what it gets.
    Stays,
    /// It gets another content.
    Differs(Change),
    /// It would hold more than 62 keys.
    Full,
}

/// Damage of a block that would hold too much, told by its number.
fn damage_of(home: Home, at: u64) -> Damage
    ensures { result ≡ record { file = 1 + home.file; at = at; kind = DamageKind.BadBlock } }
{
    Damage {
        file: u32::from(home.file) + 1,
        at,
        kind: DamageKind::BadBlock,
    }
}

/// Decodes a block out of its file's bytes, and sees what it gets by the changes that were found of its keys.
fn look(
    alloc: Global,
    home: Home,
    bytes: &[u8],
    block: &mut Block,
    changes: &Found,
    position: u64,
) -> Result<Seen, VolumeFault>
    requires number { home.number < home.blocks }
    requires blocks { IsWithin 1 256 home.blocks }
    requires whole { length bytes.now ≡ data_length home.blocks }
    ensures seen { (files : FoundFiles) (held : Held) → AreFileBytes home held bytes.now → WereFoundAt files home changes.now
        → MatchResult result (λ seen. (was : KeyedBlock) × SpellsContent home was held × IsSeen files home held was seen) (TellsWrong home held) }
    ensures change { IfOk result (IfDiffers (IsChangeAt home position)) }
    ensures works { IfErr result (λ e. e ≢ VolumeFault.Failed) }
{
    let slot = match take_block(alloc, home, bytes, block) {
        Ok(slot) => slot,
        Err(fault) => return Err(fault_of_block(fault)),
    };
    match changed_block(alloc, block, home, changes, position) {
        Ok(None) => Ok(Seen::Stays),
        Ok(Some(content)) => {
            let n = BlockNo {
                file: home.file,
                number: home.number,
            };
            Ok(Seen::Differs(Change { n, slot, content }))
        }
        Err(RestoreFault::Full) => Ok(Seen::Full),
        Err(RestoreFault::NoMemory) => Err(VolumeFault::NoMemory),
    }
}

/// What a pass has found, and its room.
#[derive(Drop)]
pub(crate) struct Pass {
    pub row: Vec<Change>,
    /// The first block that would hold too much.
    pub full: Option<Damage>,
    /// Room for the bytes of one file.
    bytes: Vec<u8>,
    /// Room for one block.
    block: Block,
}

impl Pass {
    /// A pass that has gone over no block.
    pub fn new(alloc: Global) -> Result<Pass, VolumeFault>
        ensures new { IfOk result (λ pass. (pass.row.items ≡ []) × (pass.full ≡ None)) }
        ensures memory { IfErr result (λ e. e ≡ VolumeFault.NoMemory) }
    {
        let Ok(block) = Block::empty(alloc, 1, 0) else {
            return Err(VolumeFault::NoMemory);
        };
        Ok(Pass {
            row: Vec::new(alloc),
            full: None,
            bytes: Vec::new(alloc),
            block,
        })
    }

    /// Takes in what was seen of the next block. Behind one that would hold too much nothing is kept.
    fn take(&mut self, home: Home, seen: Seen) -> Result<(), VolumeFault>
        requires { home.number < home.blocks }
        ensures passed { (config : Config) (volume position : ℕ) (files : FoundFiles) (held : Held) (was : KeyedBlock) → home.blocks ≡ blocks_on config volume home.file
            → SpellsContent home was held → IsSeen files home held was seen → IfDiffers (IsChangeAt home position) seen
            → HasPassed config volume files held home.file home.number self.old.full self.old.row.items → OnOk result (HasPassed config volume files held home.file (home.number + 1) self.new.full self.new.row.items) }
        ensures before { (config : Config) (volume position : ℕ) → home.blocks ≡ blocks_on config volume home.file → IfDiffers (IsChangeAt home position) seen
            → AreBefore config volume home.file home.number position self.old.row.items → OnOk result (AreBefore config volume home.file (home.number + 1) position self.new.row.items) }
        ensures named { (config : Config) (volume position : ℕ) (files : FoundFiles) (held : Held) (was : KeyedBlock) → home.blocks ≡ blocks_on config volume home.file
            → IsSeen files home held was seen → IfDiffers (IsChangeAt home position) seen
            → AreNamed (files_on volume 1 config.files) self.old.row.items held → OnOk result (AreNamed (files_on volume 1 config.files) self.new.row.items held) }
        ensures bytes { self.new.bytes ≡ self.old.bytes }
        ensures memory { IfErr result (λ e. e ≡ VolumeFault.NoMemory) }
    {
        if self.full.is_some() {
            return Ok(());
        }
        match seen {
            Seen::Stays => Ok(()),
            Seen::Differs(change) => {
                match self.row.push(change) {
                    Ok(()) => {}
                    Err(_) => return Err(VolumeFault::NoMemory),
                }
                Ok(())
            }
            Seen::Full => {
                self.full = Some(damage_of(home, u64::from(home.number)));
                Ok(())
            }
        }
    }

    /// Has room for so many bytes.
    fn make_room(&mut self, alloc: Global, size: usize) -> Result<(), VolumeFault>
        ensures size { OnOk result (vec_len self.new.bytes ≡ size) }
        ensures row { self.new.row ≡ self.old.row }
        ensures full { self.new.full ≡ self.old.full }
        ensures memory { IfErr result (λ e. e ≡ VolumeFault.NoMemory) }
    {
        if self.bytes.len() == size {
            return Ok(());
        }
        let Ok(bytes) = vec![in alloc; 0; size] else {
            return Err(VolumeFault::NoMemory);
        };
        self.bytes = bytes;
        Ok(())
    }

    /// Goes over the blocks of a file whose bytes were read, by the changes that were found of the keys of each.
    fn see_blocks(
        &mut self,
        alloc: Global,
        first: Home,
        parts: &[Found],
        position: u64,
    ) -> Result<(), VolumeFault>
        requires blocks { IsWithin 1 256 first.blocks }
        requires whole { vec_len self.old.bytes ≡ data_length first.blocks }
        requires parts { length parts.now ≡ first.blocks }
        ensures passed { (config : Config) (volume : ℕ) (files : FoundFiles) (held : Held) → first.blocks ≡ blocks_on config volume first.file → AreFileBytes first held self.old.bytes.items
            → ((n : ℕ) (part : Changes) → slice_get parts.now n ≡ Some part → WereFoundAt files (record first { number = n }) part)
            → HasPassed config volume files held first.file 0 self.old.full self.old.row.items
            → MatchResult result (λ _. HasPassed config volume files held first.file first.blocks self.new.full self.new.row.items) (TellsBad config volume held) }
        ensures before { (config : Config) (volume : ℕ) → first.blocks ≡ blocks_on config volume first.file
            → AreBefore config volume first.file 0 position self.old.row.items → OnOk result (AreBefore config volume first.file first.blocks position self.new.row.items) }
        ensures named { (config : Config) (volume : ℕ) (files : FoundFiles) (held : Held) → first.blocks ≡ blocks_on config volume first.file → AreFileBytes first held self.old.bytes.items
            → ((n : ℕ) (part : Changes) → slice_get parts.now n ≡ Some part → WereFoundAt files (record first { number = n }) part)
            → AreNamed (files_on volume 1 config.files) self.old.row.items held → OnOk result (AreNamed (files_on volume 1 config.files) self.new.row.items held) }
        ensures works { IfErr result (λ e. e ≢ VolumeFault.Failed) }
    {
        for number in 0..first.blocks {
            let home = Home { number, ..first };
            let changes = &parts[usize::from(number)];
            let seen = look(alloc, home, &self.bytes, &mut self.block, changes, position)?;
            self.take(home, seen)?;
        }
        Ok(())
    }

    /// Reads a file that has so many blocks, if any, and goes over them.
    pub fn see_file<D: Disk>(
        &mut self,
        alloc: Global,
        blocks: &mut Blocks<D>,
        first: Home,
        found: &Found,
        position: u64,
    ) -> Result<(), VolumeFault>
        requires blocks { first.blocks ≤ 256 }
        requires first { first.number ≡ 0 }
        ensures passed { (config : Config) (volume : ℕ) (files : FoundFiles) → IsTrue (D.tells blocks.old.device) → first.blocks ≡ blocks_on config volume first.file → WereFound files first.file found.now
            → HasPassed config volume files (D.held blocks.old.device) first.file 0 self.old.full self.old.row.items
            → MatchResult result (λ _. HasPassed config volume files (D.held blocks.old.device) (first.file + 1) 0 self.new.full self.new.row.items) (TellsBad config volume (D.held blocks.old.device)) }
        ensures before { (config : Config) (volume : ℕ) → first.blocks ≡ blocks_on config volume first.file
            → AreBefore config volume first.file 0 position self.old.row.items → OnOk result (AreBefore config volume (first.file + 1) 0 position self.new.row.items) }
        ensures named { (config : Config) (volume : ℕ) (files : FoundFiles) → IsTrue (D.tells blocks.old.device) → first.blocks ≡ blocks_on config volume first.file → WereFound files first.file found.now
            → AreNamed (files_on volume 1 config.files) self.old.row.items (D.held blocks.old.device) → OnOk result (AreNamed (files_on volume 1 config.files) self.new.row.items (D.held blocks.old.device)) }
        ensures cache { blocks.new.cache ≡ blocks.old.cache }
        ensures reads { OnlyReads D.Disk blocks.old blocks.new }
        ensures cause { IfErr result (VolumeCause (D.faults blocks.old.device) (D.faults blocks.new.device)) }
    {
        blocks.always();
        if first.blocks == 0 {
            return Ok(());
        }
        self.make_room(alloc, 256 + 2 * usize::from(first.blocks) * BLOCK_BYTES)?;
        match blocks.read_file(first, &mut self.bytes) {
            Ok(()) => {}
            Err(fault) => return Err(fault_of_block(fault)),
        }
        let Ok(parts) = found_by_block(alloc, found, first.blocks) else {
            return Err(VolumeFault::NoMemory);
        };
        self.see_blocks(alloc, first, &parts, position)
    }
}
