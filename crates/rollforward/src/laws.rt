//! What a rollforward leaves of a node.
ghost use Rattle.std.specs.Prelude.{◌≡◌, ◌≢◌, ℕ, ◌<◌, List, Some, length};
ghost use Rattle.disk_model.specs.Held.{Held, Leaves};
ghost use Rattle.tmf_model.specs.Config.{IsDeclared, IsValidConfig};
ghost use Rattle.tmf_model.specs.declared.config.Config.{Config};
ghost use Rattle.tmf_model.specs.RecordMap.{RecordMap};
ghost use Rattle.trail_files.specs.declared.monitor_record.MonitorRecord.{MonitorRecord};
ghost use Rattle.trail_files.specs.StandsFor.{Base};
ghost use Rattle.block_cache.specs.Volume.{HasBase};
ghost use Rattle.volume_recovery.specs.VolumeAnswers.{lost_among};
ghost use Rattle.volume_recovery.specs.VolumeNode.{AreLowered, RestsWithVolumes, StandsWithVolumes, volume_device};
ghost use Rattle.rollforward.specs.RolledNode.{SaysSame, without};
ghost use Rattle.rollforward.specs.Rolls.{MayRoll, RollsForward};
ghost use Rattle.rollforward.specs.Texts.{AreTexts};

use disk_model::Disk;
use keyed_file::{block_spelling_law, dump_label_spelling_law, spelling_length_law};
use trail_files::{AuditRecord, MonitorRecord, Trail};
use volume_recovery::volumes::resting_node_law;
use volume_restore::spelled_volume_law;

/// Each trail, dump label and block spells one thing at most, and nothing is wrong of what is spelled.
pub fn texts_law<D: Disk>()
    ensures { AreTexts }
{
    Trail::<D, MonitorRecord>::one_spelling();
    Trail::<D, AuditRecord>::one_spelling();
    dump_label_spelling_law();
    block_spelling_law();
    spelling_length_law();
    spelled_volume_law();
}

/// Whatever a rollforward leaves, whole or stopped, of images that stand for a list and a map stands for the same ones, where they say what it has
/// read. A whole one leaves a node lowered that was, and of the volumes that were lost all but its own.
pub fn rolled_law<D: Disk>()
    ensures stands { (config : Config) (held images left : ℕ → Held) (list : List MonitorRecord) (map : RecordMap) (volume : ℕ) → IsValidConfig config → IsDeclared config.volumes volume
        → StandsWithVolumes config images list map → SaysSame config volume held images → MayRoll config volume held images left → StandsWithVolumes config left list map }
    ensures whole { (config : Config) (held images left : ℕ → Held) (list : List MonitorRecord) (map : RecordMap) (volume : ℕ) (base : Base) (node : StandsWithVolumes config images list map) → IsValidConfig config
        → IsDeclared config.volumes volume → SaysSame config volume held images → RollsForward config volume held base → ((n : ℕ) → n ≢ volume_device volume → left n ≡ images n)
        → HasBase config volume (left (volume_device volume)) (Some base)
        → (stands : StandsWithVolumes config left list map) × (AreLowered config images list map node → AreLowered config left list map stands) }
    ensures found { (config : Config) (images left : ℕ → Held) (volume : ℕ) (base : Base) → ((n : ℕ) → n ≢ volume_device volume → left n ≡ images n) → HasBase config volume (left (volume_device volume)) (Some base)
        → lost_among left (length config.volumes) ≡ without volume (lost_among images (length config.volumes)) }
    // What devices at rest say, each image of them says.
    ensures same { (config : Config) (volume : ℕ) (held images : ℕ → Held) (list : List MonitorRecord) (map : RecordMap) → IsValidConfig config → IsDeclared config.volumes volume
        → RestsWithVolumes config held list map → ((n : ℕ) → n < 21 → Leaves (held n) (images n)) → SaysSame config volume held images }
{
    Trail::<D, MonitorRecord>::every_image();
    Trail::<D, AuditRecord>::every_image();
    resting_node_law::<D>();
    texts_law::<D>();
}
