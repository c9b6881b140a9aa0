//! Laws of the images of a node with volumes.
ghost use Rattle.std.specs.Prelude.{◌≡◌, ℕ, ◌<◌, [], ◌∷◌, List, Option, Some, length};
ghost use Rattle.disk_model.specs.Held.{Held, Leaves};
ghost use Rattle.tmf_model.specs.Config.{IsValidConfig, IsWithin};
ghost use Rattle.tmf_model.specs.declared.config.Config.{Config};
ghost use Rattle.tmf_model.specs.declared.config.FileLine.{FileLine};
ghost use Rattle.tmf_model.specs.declared.config.Volume.{Volume};
ghost use Rattle.tmf_model.specs.RecordMap.{RecordMap, empty_map};
ghost use Rattle.trail_files.specs.declared.audit_record.AuditRecord.{AuditRecord};
ghost use Rattle.trail_files.specs.declared.monitor_record.MonitorRecord.{MonitorRecord};
ghost use Rattle.trail_files.specs.declared.monitor_record.MonitorRecord.TheVariants.{Start};
ghost use Rattle.trail_files.specs.AuditRecord.{audit_format};
ghost use Rattle.trail_files.specs.StandsFor.{Base, IsNumber};
ghost use Rattle.trail_files.specs.Text.{Spells};
ghost use Rattle.trail_replay.specs.Rules.{rules_of};
ghost use Rattle.keyed_file.specs.Volume.{label_of};
ghost use Rattle.block_cache.specs.Volume.{HasBase, HasDump, RestsFor};
ghost use Rattle.volume_recovery.specs.Losing.{MayLose};
ghost use Rattle.volume_recovery.specs.Node.{next_epoch};
ghost use Rattle.volume_recovery.specs.VolumeAnswers.{lost_among};
ghost use Rattle.volume_recovery.specs.VolumeNode.{AreLowered, DumpRests, IsFormatted, RestsWithVolumes, StandsWithVolumes, StartedWithVolumes};
ghost use Rattle.volume_recovery.specs.VolumeRecovery.{IsRecovered, IsRecovering};

use block_cache::{Blocks, resting_law, volume_images_law};
use disk_model::Disk;
use trail_files::{AuditRecord, MonitorRecord, Trail};

/// Whatever a recovery leaves, whole or stopped, stands for the same map, and for the list with the new Start or without it.
pub fn recovering_law()
    ensures { (config : Config) (images left : ℕ → Held) (list other : List MonitorRecord) (map : RecordMap) → IsValidConfig config
        → StandsWithVolumes config images list map → IsRecovering config images left list other → StandsWithVolumes config left other map }
{
    volume_images_law();
}

/// What a whole recovery leaves stands for the list with the new Start and for the same map; each volume that has a label has its disc's next
/// position as its low one; and no audit is of the new epoch, where an image spells one list at most.
pub fn recovered_law()
    ensures { (config : Config) (images left : ℕ → Held) (list : List MonitorRecord) (map : RecordMap) → IsValidConfig config
        → ((trail : ℕ) (xs ys : List AuditRecord) → Spells (audit_format (rules_of config trail)) (left trail) xs → Spells (audit_format (rules_of config trail)) (left trail) ys → xs ≡ ys)
        → StandsWithVolumes config images list map → IsRecovered config images left list → StartedWithVolumes config left list (next_epoch list) map }
{}

/// A node that was formatted stands for its first Start and no records, and each of its volumes is lowered.
pub fn formatted_law()
    ensures { (config : Config) (images : ℕ → Held) → IsFormatted config images
        → (stands : StandsWithVolumes config images (Start 1 ∷ []) empty_map) × AreLowered config images (Start 1 ∷ []) empty_map stands }
{}

/// The selected slots of a volume that is lowered have the map's values.
pub fn lowered_law()
    ensures { (config : Config) (images : ℕ → Held) (list : List MonitorRecord) (map : RecordMap) (stands : StandsWithVolumes config images list map) (volume : ℕ) (line : Volume) (base : Base)
        (number : ℕ) (file : FileLine) (key : List ℕ) → IsValidConfig config → AreLowered config images list map stands → IsNumber config.volumes volume line → stands.bases volume ≡ Some base
        → IsNumber config.files number file → file.volume ≡ volume → map number key ≡ base.records number key }
{}

/// Whatever a loss of a volume leaves, whole or stopped, stands for the same list and the same map.
pub fn lost_law()
    ensures { (config : Config) (images left : ℕ → Held) (list : List MonitorRecord) (map : RecordMap) (volume : ℕ) → IsValidConfig config → IsWithin 1 8 volume
        → StandsWithVolumes config images list map → MayLose volume images left → StandsWithVolumes config left list map }
{}

/// What a node at rest stands for each image of its devices stands for, and the same volumes are lost. What a volume or a dump says of whose own files
/// nothing is at risk, each image of it says.
pub fn resting_node_law<D: Disk>()
    ensures volume { (config : Config) (volume : ℕ) (base : Option Base) (held image : Held) → HasBase config volume held base → RestsFor (label_of config volume 1) held → Leaves held image → HasBase config volume image base }
    ensures dump { (config : Config) (volume : ℕ) (dump : Option Base) (held image : Held) → HasDump config volume held dump → DumpRests held → Leaves held image → HasDump config volume image dump }
    ensures stands { (config : Config) (held images : ℕ → Held) (list : List MonitorRecord) (map : RecordMap) → IsValidConfig config → RestsWithVolumes config held list map
        → ((n : ℕ) → n < 21 → Leaves (held n) (images n)) → StandsWithVolumes config images list map }
    ensures lost { (config : Config) (held images : ℕ → Held) (list : List MonitorRecord) (map : RecordMap) → IsValidConfig config → RestsWithVolumes config held list map
        → ((n : ℕ) → n < 21 → Leaves (held n) (images n)) → lost_among images (length config.volumes) ≡ lost_among held (length config.volumes) }
{
    resting_law();
    Blocks::<D>::at_rest();
    Trail::<D, AuditRecord>::every_image();
    Trail::<D, MonitorRecord>::every_image();
}
