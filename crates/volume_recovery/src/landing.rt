//! Landing a batch on a trail.
ghost use Rattle.std.specs.Prelude.{◌≡◌, ◌<◌, ◌≤◌, ◌++◌, length, true, IsTrue, OnOk, MatchResult};
ghost use Rattle.disk_model.specs.Held.{HasCause};
ghost use Rattle.trail_files.specs.Format.{AllValid};
ghost use Rattle.trail_files.specs.Content.{Content, IsUnlanded, landed_in, with_batch};
ghost use Rattle.trail_files.specs.Content.Pending.{Nothing};
ghost use Rattle.trail_files.specs.Holds.{Holds, Keeps};
ghost use Rattle.trail_files.specs.Trail.{IsWritable, fits_in};

use disk_model::{Disk, DiskFault};
use trail_files::{Spelled, Trail, TrailPhase};

/// Lands records as one batch behind those of the trail, in its next file where they do not fit into the present one. After Ok every image of the
/// device has them. After a fault an image has all of them or none.
pub fn land<D: Disk, R: Spelled>(trail: &mut Trail<D, R>, records: &[R]) -> Result<(), DiskFault>
    requires ready { trail.old.phase ≡ TrailPhase.Ready }
    requires some { 0 < length records.now }
    requires most { length records.now ≤ (R.format trail.old.rules).most }
    requires valid { AllValid (R.format trail.old.rules) records.now }
    requires writable { IsWritable D.tells D.held trail.old }
    ensures holds { (content : Content R) → Holds D.Disk R.format trail.old content → content.pending ≡ Nothing
        → (IsTrue (D.tells trail.old.device) → (R.format trail.old.rules).in_order (landed_in content ++ records.now) ≡ true)
        → MatchResult result (λ _. Holds D.Disk R.format trail.new (with_batch trail.new.file records.now content))
        (λ _. (after : Content R) × IsUnlanded records.now content after × Holds D.Disk R.format trail.new after) }
    ensures stays { fits_in R.record_length trail.old (length records.now) ≡ true → trail.new.file ≡ trail.old.file }
    ensures keeps { Keeps D.Disk trail.old trail.new }
    ensures phase { OnOk result (trail.new.phase ≡ TrailPhase.Ready) }
    ensures cause { HasCause (D.faults trail.old.device) (D.faults trail.new.device) result }
{
    if !trail.fits(records.len() as u32) {
        trail.roll()?;
    }
    trail.load(records)?;
    trail.gate()
}
