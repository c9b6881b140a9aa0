//! The recovery of one volume.
ghost use Rattle.std.specs.Prelude.{◌≡◌, ◌≢◌, ℕ, List, None, IsTrue, IfErr, MatchResult, OnOk, length, true};
ghost use Rattle.disk_model.specs.Held.{Held, Leaves};
ghost use Rattle.tmf_model.specs.Config.{IsDeclared, IsValidConfig, IsWithin};
ghost use Rattle.trail_files.specs.declared.audit_record.AuditRecord.{AuditRecord};
ghost use Rattle.trail_files.specs.declared.monitor_record.MonitorRecord.{MonitorRecord};
ghost use Rattle.keyed_file.specs.Volume.{Contents, label_of};
ghost use Rattle.block_cache.specs.declared.pair.PairPhase.TheVariants.{Settled};
ghost use Rattle.block_cache.specs.Blocks.{Holds, OnlyReads};
ghost use Rattle.block_cache.specs.Cache.{entry_at};
ghost use Rattle.trail_replay.specs.Replay.{maps_of};
ghost use Rattle.volume_restore.specs.Bases.{IsRewritten, MayRewrite};
ghost use Rattle.volume_restore.specs.Damage.{AreBlocksFine};
ghost use Rattle.volume_restore.specs.Found.{AreFoundIn};
ghost use Rattle.volume_restore.specs.Inspected.{TellsRoom};
ghost use Rattle.volume_restore.specs.Pass.{AreShown, TellsVolume};
ghost use Rattle.volume_restore.specs.declared.inspect.Inspected.TheVariants.{Ready};
ghost use Rattle.volume_restore.specs.Restored.{IsRecoveredAt, VolumeCause, WritesChanged};

use crate::fault::VolumeFault;
use crate::find::{Needed, Recovery, find_changes};
use block_cache::{Blocks, change_volume};
use disk_model::Disk;
use std::alloc::Global;
use tmf_model::Config;
use trail_replay::FoundFiles;

/// Recovers a volume that was just opened: each block gets what was found of its keys, and then the label the next position. All blocks are
/// read, and have room, before the first is written; where they are known to be fine those alone that may change.
pub fn restore_volume<D: Disk>(
    alloc: Global,
    blocks: &mut Blocks<D>,
    config: &Config,
    volume: u8,
    files: &FoundFiles,
    recovery: Recovery,
) -> Result<(), VolumeFault>
    requires valid { IsValidConfig config.now × IsDeclared config.now.volumes volume }
    requires label { blocks.old.label ≡ label_of config.now volume blocks.old.label.low }
    requires fresh { (blocks.old.label_phase ≡ Settled) × ((file n : ℕ) → entry_at blocks.old.cache file n ≡ None) }
    requires found { (length (maps_of files.now) ≡ length config.now.files) × IsWithin 1 4611686018427387904 recovery.next }
    ensures every { (was later : Contents) (audit : List AuditRecord) (list : List MonitorRecord) (image : Held) → IsTrue (D.tells blocks.old.device) → Holds D.held blocks.old was later
        → AreFoundIn config.now volume blocks.old.label.low audit list files.now recovery.next → Leaves (D.held blocks.new.device) image → MayRewrite config.now volume blocks.old.label.low was audit list image }
    ensures whole { (was later : Contents) (audit : List AuditRecord) (list : List MonitorRecord) → IsTrue (D.tells blocks.old.device) → Holds D.held blocks.old was later
        → AreFoundIn config.now volume blocks.old.label.low audit list files.now recovery.next
        → OnOk result ((image : Held) → Leaves (D.held blocks.new.device) image → IsRewritten config.now volume blocks.old.label.low was audit list image) }
    ensures left { IsTrue (D.tells blocks.old.device) → MatchResult result (λ _. IsRecoveredAt D.Disk blocks.old blocks.new recovery.next)
        (λ e. e ≢ VolumeFault.Failed → OnlyReads D.Disk blocks.old blocks.new) }
    ensures damage { IsTrue (D.tells blocks.old.device) → (recovery.is_fine ≡ true → AreBlocksFine config.now volume (D.held blocks.old.device)) → MatchResult result
        (λ _. AreBlocksFine config.now volume (D.held blocks.old.device) × TellsRoom config.now volume files.now (AreShown config.now volume (D.held blocks.old.device)) Ready)
        (TellsVolume config.now volume files.now (D.held blocks.old.device)) }
    ensures frame { WritesChanged D.Disk config.now volume recovery.is_fine files.now blocks.old blocks.new }
    ensures cause { IfErr result (VolumeCause (D.faults blocks.old.device) (D.faults blocks.new.device)) }
{
    Blocks::<D>::every_image();
    blocks.always();
    match find_changes(alloc, blocks, config, volume, files, recovery)? {
        Needed::Full(damage) => Err(VolumeFault::Damaged(damage)),
        Needed::Changes(row) => match change_volume(blocks, row, recovery.next) {
            Ok(()) => Ok(()),
            Err(_) => Err(VolumeFault::Failed),
        },
    }
}
