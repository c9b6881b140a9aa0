//! What the restored contents of a volume are to the map that its audit and the commits give.
ghost use Rattle.std.specs.Prelude.{◌⊎◌, ◌<◌, ℕ, List, Some};
ghost use Rattle.disk_model.specs.Held.{Held};
ghost use Rattle.tmf_model.specs.Config.{IsDeclared, IsValidConfig};
ghost use Rattle.trail_files.specs.StandsFor.{Base};
ghost use Rattle.block_cache.specs.Volume.{HasBase};
ghost use Rattle.keyed_file.specs.Block.{KeyedBlock};
ghost use Rattle.keyed_file.specs.Volume.{Contents, SpellsVolume, label_of};
ghost use Rattle.tmf_model.specs.declared.config.Config.{Config};
ghost use Rattle.trail_files.specs.declared.audit_record.AuditRecord.{AuditRecord};
ghost use Rattle.trail_files.specs.declared.monitor_record.MonitorRecord.{MonitorRecord};
ghost use Rattle.block_cache.specs.Rewrite.{IsContentOf};
ghost use Rattle.trail_replay.specs.declared.replay.FoundFiles.{FoundFiles};
ghost use Rattle.trail_replay.specs.Home.{LiesOn};
ghost use Rattle.volume_restore.specs.Bases.{IsPartlyRecovered, IsRecoveredBase, IsRewritten, MayRewrite, recovered_from};
ghost use Rattle.volume_restore.specs.Damage.{blocks_on};
ghost use Rattle.volume_restore.specs.Found.{IsFoundOn};
ghost use Rattle.volume_restore.specs.Inspected.{IsFineVolume};
ghost use Rattle.volume_restore.specs.Pass.{home_on};
ghost use Rattle.volume_restore.specs.Restored.{IsRestored};

use keyed_file::spelling_length_law;

/// The restored content of a block is that of the map that recovery finds, from what the volume had, its audit and the commits.
pub fn restored_law()
    ensures { (config : Config) (volume low file trail number : ℕ) (was : Contents) (audit : List AuditRecord) (list : List MonitorRecord) (files : FoundFiles) (content : KeyedBlock)
        → IsFoundOn config volume low audit list files → LiesOn config file volume trail → 0 < blocks_on config volume file → IsRestored files (home_on config volume file number) (was file number) content
        → IsContentOf (recovered_from config volume low was audit list) file (blocks_on config volume file) number content }
{}

/// What each image says of a volume whose recovery has stopped, or is done: the base on the way, at the old position, or the recovered base, at the
/// disc's next one.
pub fn recovery_images_law()
    ensures way { (config : Config) (volume low : ℕ) (was : Contents) (audit : List AuditRecord) (list : List MonitorRecord) (image : Held) → IsValidConfig config → IsDeclared config.volumes volume
        → MayRewrite config volume low was audit list image
        → (base : Base) × HasBase config volume image (Some base) × (IsPartlyRecovered config volume low was audit list base ⊎ IsRecoveredBase config volume low was audit list base) }
    ensures whole { (config : Config) (volume low : ℕ) (was : Contents) (audit : List AuditRecord) (list : List MonitorRecord) (image : Held) → IsValidConfig config → IsDeclared config.volumes volume
        → IsRewritten config volume low was audit list image
        → (base : Base) × HasBase config volume image (Some base) × IsRecoveredBase config volume low was audit list base }
{}

/// Nothing is wrong in a volume that is spelled, neither in its label nor in a block; and a volume of which nothing is wrong spells a label, with some
/// low position, and contents.
pub fn spelled_volume_law()
    ensures fine { (config : Config) (volume low : ℕ) (image : Held) (contents : Contents) → SpellsVolume (label_of config volume low) image contents → IsFineVolume config volume image }
    ensures spelled { (config : Config) (volume : ℕ) (image : Held) → IsFineVolume config volume image → (low : ℕ) × (was : Contents) × SpellsVolume (label_of config volume low) image was }
{
    spelling_length_law();
}
