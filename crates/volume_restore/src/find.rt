//! The blocks of a volume that get another content, by what was found of its keys.
ghost use Rattle.std.specs.Prelude.{◌≡◌, ◌≤◌, ◌-◌, ℕ, List, None, IfErr, IfOk, IsTrue, MatchResult, length, true};
ghost use Rattle.tmf_model.specs.Config.{IsValidConfig};
ghost use Rattle.keyed_file.specs.Volume.{files_on};
ghost use Rattle.block_cache.specs.Blocks.{OnlyReads};
ghost use Rattle.block_cache.specs.Changes.{AreChanges, AreNamed};
ghost use Rattle.trail_replay.specs.Replay.{maps_of};
ghost use Rattle.volume_restore.specs.Changed.{change_of};
ghost use Rattle.volume_restore.specs.Damage.{AreBlocksFine, blocks_on};
ghost use Rattle.volume_restore.specs.Inspected.{TellsBad};
ghost use Rattle.volume_restore.specs.Pass.{HavePosition, IfChanges, TellsNeeded};
ghost use Rattle.volume_restore.specs.Restored.{VolumeCause};

use crate::fault::VolumeFault;
use crate::pass::Pass;
use block_cache::{Blocks, Change};
use disk_model::Disk;
use keyed_file::Home;
use std::alloc::Global;
use tmf_model::Config;
use trail_files::Damage;
use trail_replay::{Found, FoundFiles};

/// How many blocks a file has on a volume: none, where it lies on another one.
pub fn count_on(config: &Config, volume: u8, file: u8) -> u16
    ensures { result ≡ blocks_on config.now volume file }
{
    match config.file(file) {
        Some(line) => {
            if line.volume == volume {
                line.blocks
            } else {
                0
            }
        }
        None => 0,
    }
}

/// How a volume is recovered: to which next position of its disc, and whether each of its blocks is known to be fine, as an inspection tells.
#[derive(Clone, Copy)]
pub struct Recovery {
    pub next: u64,
    pub is_fine: bool,
}

/// What a pass finds of a volume none of whose blocks is wrong.
#[derive(Drop)]
pub enum Needed {
    /// Each block has room for what it gets, and these get another content than they have.
    Changes(Vec<Change>),
    /// This block is the first that would hold more than 62 keys.
    Full(Damage),
}

/// Whether a file need not be read: it is known to be fine, and nothing was found of its keys.
fn stays_whole(is_fine: bool, found: &Found) -> bool
    ensures fine { result ≡ true → is_fine ≡ true }
    ensures none { result ≡ true → (key : List ℕ) → change_of found.now key ≡ None }
{
    is_fine && found.is_empty()
}

/// The blocks of a volume that get another content, by one reading of each file and one decoding of each block; or else the first that would hold too
/// much. Damage of any block is told before that. Of a volume none of whose blocks is wrong, as an inspection has told, a file is not read of whose keys
/// nothing was found. It writes nothing.
pub fn find_changes<D: Disk>(
    alloc: Global,
    blocks: &mut Blocks<D>,
    config: &Config,
    volume: u8,
    files: &FoundFiles,
    recovery: Recovery,
) -> Result<Needed, VolumeFault>
    requires valid { IsValidConfig config.now }
    requires count { length (maps_of files.now) ≡ length config.now.files }
    requires next { 1 ≤ recovery.next }
    ensures told { IsTrue (D.tells blocks.old.device) → (recovery.is_fine ≡ true → AreBlocksFine config.now volume (D.held blocks.old.device)) → MatchResult result
        (λ needed. AreBlocksFine config.now volume (D.held blocks.old.device) × TellsNeeded config.now volume files.now (D.held blocks.old.device) needed)
        (TellsBad config.now volume (D.held blocks.old.device)) }
    ensures named { IsTrue (D.tells blocks.old.device) → IfOk result (IfChanges (λ row. AreNamed (files_on volume 1 config.now.files) row (D.held blocks.old.device))) }
    ensures changes { IfOk result (IfChanges (AreChanges (files_on volume 1 config.now.files))) }
    ensures position { IfOk result (IfChanges (HavePosition (recovery.next - 1))) }
    ensures cache { blocks.new.cache ≡ blocks.old.cache }
    ensures reads { OnlyReads D.Disk blocks.old blocks.new }
    ensures cause { IfErr result (VolumeCause (D.faults blocks.old.device) (D.faults blocks.new.device)) }
{
    blocks.always();
    let mut pass = Pass::new(alloc)?;
    for before in 0..config.files.len() as u8 {
        let file = before + 1;
        let found = files.of_file(file);
        if stays_whole(recovery.is_fine, found) {
            continue;
        }
        let first = Home {
            file,
            number: 0,
            blocks: count_on(config, volume, file),
        };
        pass.see_file(alloc, blocks, first, found, recovery.next - 1)?;
    }
    let Pass { row, full, .. } = pass;
    match full {
        Some(damage) => Ok(Needed::Full(damage)),
        None => Ok(Needed::Changes(row)),
    }
}
