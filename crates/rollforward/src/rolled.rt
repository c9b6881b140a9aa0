//! The records that the changes make of a dump's blocks.
ghost use Rattle.std.specs.Prelude.{◌≡◌, ◌≢◌, ◌+◌, ◌++◌, true, IfOk, IfErr, OnOk, Some, length};
ghost use Rattle.tmf_model.specs.Config.{IsWithin};
ghost use Rattle.keyed_file.specs.Block.{IsBlock};
ghost use Rattle.keyed_file.specs.BlockFormat.{is_at_home};
ghost use Rattle.trail_replay.specs.Replay.{maps_of};
ghost use Rattle.trail_replay.specs.declared.replay.FoundFiles.{FoundFiles};
ghost use Rattle.volume_restore.specs.Restored.{HasRoomFor, WereFoundAt};
ghost use Rattle.rollforward.specs.Body.{AreInPlace};
ghost use Rattle.rollforward.specs.Rolled.{AreApart, AreInRow, AreRolled, ArePartsAt, HaveFound, IsRolledBlock, TellsFullBlock, TellsFullOf, entries_of};

use crate::gather::Entry;
use keyed_file::{Block, Home};
use std::alloc::Global;
use trail_files::{Damage, DamageKind};
use trail_replay::{Found, FoundFiles};
use volume_restore::{RestoreFault, VolumeFault, found_by_block, recovered_block};

/// What a block with too many keys is to its volume.
fn full_block(home: Home) -> VolumeFault
    ensures { result ≡ VolumeFault.Damaged (record { file = 1 + home.file; at = home.number; kind = DamageKind.BadBlock }) }
{
    VolumeFault::Damaged(Damage {
        file: u32::from(home.file) + 1,
        at: u64::from(home.number),
        kind: DamageKind::BadBlock,
    })
}

/// Has the changes of a file's keys in hand, those of each of its blocks by themselves, from the file's first block on.
fn take_parts(
    alloc: Global,
    home: Home,
    files: &FoundFiles,
    parts: &mut Vec<Found>,
) -> Result<(), VolumeFault>
    requires blocks { IsWithin 1 256 home.blocks }
    requires file { IsWithin 1 (length (maps_of files.now)) home.file }
    ensures first { home.number ≡ 0 → OnOk result (ArePartsAt files.now home parts.new.items) }
    ensures same { home.number ≢ 0 → OnOk result (parts.new.items ≡ parts.old.items) }
    ensures err { IfErr result (λ e. e ≡ VolumeFault.NoMemory) }
{
    if home.number == 0 {
        match found_by_block(alloc, files.of_file(home.file), home.blocks) {
            Ok(own) => *parts = own,
            Err(_) => return Err(VolumeFault::NoMemory),
        }
    }
    Ok(())
}

/// A block of a dump with the changes made that were found of its keys.
fn rolled_block(
    alloc: Global,
    block: &Block,
    home: Home,
    changes: &Found,
) -> Result<Block, VolumeFault>
    requires home { is_at_home (Some home) block.now ≡ true }
    requires blocks { IsWithin 1 256 home.blocks }
    ensures values { (files : FoundFiles) → WereFoundAt files home changes.now → IfOk result (IsRolledBlock files home block.now) }
    ensures home { IfOk result (λ made. IsBlock made × (is_at_home (Some home) made ≡ true)) }
    ensures room { (files : FoundFiles) → WereFoundAt files home changes.now → IfOk result (λ _. HasRoomFor files home block.now) }
    ensures full { (files : FoundFiles) → WereFoundAt files home changes.now → IfErr result (TellsFullBlock files home block.now) }
{
    match recovered_block(alloc, block, home, changes, block.position()) {
        Ok(made) => Ok(made),
        Err(RestoreFault::Full) => Err(full_block(home)),
        Err(RestoreFault::NoMemory) => Err(VolumeFault::NoMemory),
    }
}

/// Puts the records of a block of a file behind the others.
fn push_records(records: &mut Vec<Entry>, file: u8, block: &Block) -> Result<(), VolumeFault>
    ensures ok { OnOk result (records.new.items ≡ records.old.items ++ entries_of file block.now.records) }
    ensures err { IfErr result (λ e. e ≡ VolumeFault.NoMemory) }
{
    for (key, value) in block.records() {
        if records.push((file, *key, *value)).is_err() {
            return Err(VolumeFault::NoMemory);
        }
    }
    Ok(())
}

/// The records of the blocks at these places, with the changes made that were found of their keys. The first block that would hold too much is told.
pub fn rolled_records(
    alloc: Global,
    homes: &[Home],
    blocks: &[Block],
    files: &FoundFiles,
) -> Result<Vec<Entry>, VolumeFault>
    requires places { AreInPlace homes.now blocks.now }
    requires found { HaveFound homes.now files.now }
    requires apart { AreApart homes.now }
    requires row { AreInRow homes.now }
    ensures rolled { IfOk result (λ records. AreRolled homes.now blocks.now files.now records.items) }
    ensures full { IfErr result (TellsFullOf homes.now blocks.now files.now) }
{
    let mut records = Vec::new(alloc);
    let mut parts = Vec::new(alloc);
    for index in 0..homes.len() {
        let home = homes[index];
        take_parts(alloc, home, files, &mut parts)?;
        let changes = &parts[usize::from(home.number)];
        let block = rolled_block(alloc, &blocks[index], home, changes)?;
        push_records(&mut records, home.file, &block)?;
    }
    Ok(records)
}
