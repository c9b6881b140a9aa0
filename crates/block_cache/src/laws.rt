//! Laws of a volume that a recovery rewrites, and of devices at rest.
ghost use Rattle.std.specs.Prelude.{◌≡◌, ◌<◌, [], ℕ, List, All, Option, Some};
ghost use Rattle.disk_model.specs.Held.{Held, Leaves};
ghost use Rattle.keyed_file.specs.Volume.{Contents, files_on, label_of, map_of};
ghost use Rattle.tmf_model.specs.Config.{IsValidConfig};
ghost use Rattle.tmf_model.specs.declared.config.Config.{Config};
ghost use Rattle.tmf_model.specs.RecordMap.{RecordMap};
ghost use Rattle.trail_files.specs.declared.audit_record.AuditRecord.{AuditRecord};
ghost use Rattle.trail_files.specs.declared.monitor_record.MonitorRecord.{MonitorRecord};
ghost use Rattle.trail_files.specs.Recovered.{kept_records, recovered_value};
ghost use Rattle.trail_files.specs.StandsFor.{Base, VolumeStandsFor, next_position, position_of};
ghost use Rattle.block_cache.specs.Rewriting.{AgreesOff, IsRewriting, IsRewritten};
ghost use Rattle.block_cache.specs.Volume.{HasBase, HasDump, IsAtRest};
ghost use Rattle.block_cache.specs.Whole.{IsOnTheWay};

use keyed_file::spelling_length_law;

/// A volume stands for the same map while its blocks are rewritten, whatever they have at the keys of its audit, and after
/// its low position has moved behind the audit.
pub fn rewriting_law()
    ensures value { (base other : RecordMap) (audit : List AuditRecord) (monitor : List MonitorRecord) (file : ℕ) (key : List ℕ)
        → AgreesOff audit base other → recovered_value other audit monitor file key ≡ recovered_value base audit monitor file key }
    ensures recovered { (base : RecordMap) (audit : List AuditRecord) (monitor : List MonitorRecord)
        → AgreesOff audit base (recovered_value base audit monitor) }
    ensures rewriting { (config : Config) (disc : ℕ) (audit : List AuditRecord) (base other : Base) (dump : Option Base) (monitor : List MonitorRecord) (map : RecordMap)
        → VolumeStandsFor config disc audit (Some base) dump monitor map → IsRewriting disc audit base other
        → VolumeStandsFor config disc audit (Some other) dump monitor map }
    ensures rewritten { (config : Config) (disc : ℕ) (audit : List AuditRecord) (base other : Base) (dump : Option Base) (monitor : List MonitorRecord) (map : RecordMap)
        → All (λ r. r.disc ≡ disc → r.position < next_position (kept_records disc 0 audit) (position_of (Some base)) (position_of dump)) audit
        → VolumeStandsFor config disc audit (Some base) dump monitor map → IsRewritten config disc audit base dump map other
        → VolumeStandsFor config disc audit (Some other) dump monitor map }
{}

/// Each image of a volume on the way, which gets what recovery finds and then its disc's next position, stands for the same list and map.
pub fn volume_images_law()
    ensures { (config : Config) (volume : ℕ) (audit : List AuditRecord) (base : Base) (dump : Option Base) (monitor : List MonitorRecord) (map : RecordMap) (was : Contents) (low : ℕ) (image : Held) → IsValidConfig config
        → All (λ r. r.disc ≡ volume → r.position < next_position (kept_records volume 0 audit) (position_of (Some base)) (position_of dump)) audit
        → VolumeStandsFor config volume audit (Some base) dump monitor map → base.records ≡ map_of (files_on volume 1 config.files) was
        → low ≡ next_position (kept_records volume 0 audit) (position_of (Some base)) (position_of dump)
        → IsOnTheWay (label_of config volume base.position) low was (recovered_value base.records (kept_records volume base.position audit) monitor) image
        → (other : Base) × HasBase config volume image (Some other) × VolumeStandsFor config volume audit (Some other) dump monitor map }
{}

/// What a device at rest says of its volume, or of its dump, each image of it says.
pub fn resting_law()
    ensures volume { (config : Config) (volume : ℕ) (base : Option Base) (held image : Held) → HasBase config volume held base → IsAtRest held → Leaves held image → HasBase config volume image base }
    ensures dump { (config : Config) (volume : ℕ) (dump : Option Base) (held image : Held) → HasDump config volume held dump → IsAtRest held → Leaves held image → HasDump config volume image dump }
{
    spelling_length_law();
}
