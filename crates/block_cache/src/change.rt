//! The writing of a volume's blocks that get another content. Nothing is read of them.
ghost use Rattle.std.specs.Prelude.{◌≡◌, None, Some, ℕ, IsTrue, OnOk, IfErr};
ghost use Rattle.disk_model.specs.Frame.{WorksOn};
ghost use Rattle.disk_model.specs.Held.{Held, Leaves};
ghost use Rattle.tmf_model.specs.Config.{IsWithin};
ghost use Rattle.tmf_model.specs.RecordMap.{RecordMap};
ghost use Rattle.keyed_file.specs.Volume.{Contents};
ghost use Rattle.block_cache.specs.declared.pair.PairPhase.TheVariants.{Settled};
ghost use Rattle.block_cache.specs.Blocks.{Holds, IsBlocks, WritesLabel, with_content, with_low};
ghost use Rattle.block_cache.specs.Cache.{entry_at};
ghost use Rattle.block_cache.specs.Changes.{AreChanges, AreNamed, ChangesBlock, ChangesBlocks, Each, HoldsMap, IsChange, MakeMap, OffRow, ShowsRow, change_home};
ghost use Rattle.block_cache.specs.Rest.{KeepsRest, LeavesSettled};
ghost use Rattle.block_cache.specs.Rewrite.{AreMixed, EveryLowers, EveryShows, IsCalm, ShowsEither};
ghost use Rattle.block_cache.specs.Shows.{NamesSlot, SpellsContent};
ghost use Rattle.block_cache.specs.Whole.{IsOnTheWay};

use crate::blocks::Blocks;
use crate::contents::Change;
use disk_model::{Disk, DiskFault};

/// Gives a block another content: every image has the old content or the new one, and once it is done the new one.
pub fn change_block<D: Disk>(blocks: &mut Blocks<D>, change: Change) -> Result<(), DiskFault>
    requires change { IsChange blocks.old.label.files change }
    requires named { IsTrue (D.tells blocks.old.device) → NamesSlot (change_home blocks.old.label.files change) change.slot (D.held blocks.old.device) }
    requires uncached { entry_at blocks.old.cache change.n.file change.n.number ≡ None }
    requires calm { IsCalm blocks.old.cache }
    requires settled { blocks.old.label_phase ≡ Settled }
    ensures landed { (landed next : Contents) → IsTrue (D.tells blocks.old.device) → Holds D.held blocks.old landed next
        → OnOk result ((later : Contents) × Holds D.held blocks.new (with_content landed change.n.file change.n.number change.content) later) }
    ensures kept { (landed next : Contents) → IsTrue (D.tells blocks.old.device) → Holds D.held blocks.old landed next
        → EveryShows D.held blocks.new (ShowsEither blocks.old.label.files landed change.n.file change.n.number change.content) }
    ensures shows { IsTrue (D.tells blocks.old.device) → OnOk result (SpellsContent (change_home blocks.old.label.files change) change.content (D.held blocks.new.device)) }
    ensures settles { OnOk result (LeavesSettled D.Disk blocks.old blocks.new) }
    ensures frame { ChangesBlock D.Disk blocks.old blocks.new change.n.file change.n.number }
    ensures works { WorksOn D.Disk blocks.old.device blocks.new.device result }
{
    Blocks::<D>::every_image();
    let Change { n, slot, content } = change;
    match blocks.crowded(n) {
        Some(_) => unreachable!(),
        None => {}
    }
    blocks.place(n, slot, content);
    blocks.draw_body(n)?;
    blocks.draw_select(n)?;
    Ok(())
}

/// Gives each block of a row its new content, the last one first: every image has of each block the old content or the new one.
fn change_blocks<D: Disk>(blocks: &mut Blocks<D>, row: Vec<Change>) -> Result<(), DiskFault>
    requires row { AreChanges blocks.old.label.files row.items }
    requires named { IsTrue (D.tells blocks.old.device) → AreNamed blocks.old.label.files row.items (D.held blocks.old.device) }
    requires uncached { Each (λ change. entry_at blocks.old.cache change.n.file change.n.number ≡ None) row.items }
    requires calm { IsCalm blocks.old.cache }
    requires settled { blocks.old.label_phase ≡ Settled }
    ensures landed { (map : RecordMap) (was next : Contents) → IsTrue (D.tells blocks.old.device) → Holds D.held blocks.old was next
        → MakeMap map blocks.old.label.files was row.items → OnOk result (HoldsMap D.held blocks.new map) }
    ensures kept { (map : RecordMap) (was next : Contents) → IsTrue (D.tells blocks.old.device) → Holds D.held blocks.old was next
        → MakeMap map blocks.old.label.files was row.items → IfErr result (λ _. EveryShows D.held blocks.new (AreMixed blocks.old.label.files was map)) }
    ensures shows { IsTrue (D.tells blocks.old.device) → OnOk result (ShowsRow blocks.old.label.files row.items (D.held blocks.old.device) (D.held blocks.new.device)) }
    ensures settles { OnOk result (LeavesSettled D.Disk blocks.old blocks.new) }
    ensures frame { ChangesBlocks D.Disk blocks.old blocks.new row.items }
    ensures works { WorksOn D.Disk blocks.old.device blocks.new.device result }
{
    blocks.always();
    let mut rest = row;
    while let Some(change) = rest.pop() {
        change_block(blocks, change)?;
    }
    Ok(())
}

/// Moves the low position: every image has the old one or the new one, and once it is done the new one.
pub fn move_low<D: Disk>(blocks: &mut Blocks<D>, low: u64) -> Result<(), DiskFault>
    requires low { IsWithin 1 4611686018427387904 low }
    requires calm { IsCalm blocks.old.cache }
    requires settled { blocks.old.label_phase ≡ Settled }
    ensures holds { (landed next : Contents) → IsTrue (D.tells blocks.old.device) → Holds D.held blocks.old landed next → Holds D.held blocks.new landed next }
    ensures rests { IsTrue (D.tells blocks.old.device) → OnOk result (KeepsRest blocks.old.label (D.held blocks.old.device) (D.held blocks.new.device)) }
    ensures label { OnOk result ((blocks.new.label ≡ with_low blocks.old.label low) × (blocks.new.label_phase ≡ Settled)) }
    ensures kept { (landed next : Contents) → IsTrue (D.tells blocks.old.device) → Holds D.held blocks.old landed next
        → EveryLowers D.held blocks.new blocks.old.label low landed }
    ensures frame { WritesLabel D.Disk blocks.old blocks.new }
    ensures works { WorksOn D.Disk blocks.old.device blocks.new.device result }
{
    Blocks::<D>::every_image();
    blocks.low_body(low)?;
    blocks.low_select()
}

/// Gives each block of a row its new content, and then the volume's label the new low position: until the label's selector is written
/// every image has the old low position, and of each block the old content or the new one.
pub fn change_volume<D: Disk>(
    blocks: &mut Blocks<D>,
    row: Vec<Change>,
    low: u64,
) -> Result<(), DiskFault>
    requires low { IsWithin 1 4611686018427387904 low }
    requires row { AreChanges blocks.old.label.files row.items }
    requires named { IsTrue (D.tells blocks.old.device) → AreNamed blocks.old.label.files row.items (D.held blocks.old.device) }
    requires uncached { Each (λ change. entry_at blocks.old.cache change.n.file change.n.number ≡ None) row.items }
    requires calm { IsCalm blocks.old.cache }
    requires settled { blocks.old.label_phase ≡ Settled }
    ensures every { (map : RecordMap) (was next : Contents) (image : Held) → IsTrue (D.tells blocks.old.device) → Holds D.held blocks.old was next
        → MakeMap map blocks.old.label.files was row.items → Leaves (D.held blocks.new.device) image → IsOnTheWay blocks.old.label low was map image }
    ensures whole { (map : RecordMap) (was next : Contents) → IsTrue (D.tells blocks.old.device) → Holds D.held blocks.old was next
        → MakeMap map blocks.old.label.files was row.items → OnOk result (HoldsMap D.held blocks.new map) }
    ensures label { OnOk result ((blocks.new.label ≡ with_low blocks.old.label low) × (blocks.new.label_phase ≡ Settled) × LeavesSettled D.Disk blocks.old blocks.new) }
    ensures others { IsTrue (D.tells blocks.old.device) → OffRow row.items (D.held blocks.old.device) (D.held blocks.new.device) }
    ensures shows { IsTrue (D.tells blocks.old.device) → OnOk result (ShowsRow blocks.old.label.files row.items (D.held blocks.old.device) (D.held blocks.new.device)) }
    ensures valid { IsBlocks D.tells D.held blocks.new }
    ensures works { WorksOn D.Disk blocks.old.device blocks.new.device result }
{
    change_blocks(blocks, row)?;
    move_low(blocks, low)
}
