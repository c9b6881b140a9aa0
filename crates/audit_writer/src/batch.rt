//! Putting a batch behind those that a trail has landed.
ghost use Rattle.std.specs.Prelude.{◌≡◌, ◌⊎◌, ◌<◌, ◌≤◌, ◌++◌, [], length, true, IsTrue, OnOk, OnErr, MatchResult};
ghost use Rattle.disk_model.specs.Held.{HasCause};
ghost use Rattle.trail_files.specs.Format.{AllValid};
ghost use Rattle.trail_files.specs.Trail.{IsWritable};
ghost use Rattle.trail_files.specs.Content.{Content, batch_of, landed_in, with_loaded};
ghost use Rattle.trail_files.specs.Holds.{Holds, Keeps};

use disk_model::{Disk, DiskFault};
use trail_files::{Spelled, Trail, TrailPhase};

/// Loads records as one batch behind those of the trail, in its next file where they do not fit into the present one. It goes on
/// with a roll that an earlier call began. The batch's gate stays closed.
pub fn load_batch<D: Disk, R: Spelled>(
    trail: &mut Trail<D, R>,
    records: &[R],
) -> Result<(), DiskFault>
    requires phase { (trail.old.phase ≡ TrailPhase.Ready) ⊎ (trail.old.phase ≡ TrailPhase.RollOffered) }
    requires more { trail.old.phase ≡ TrailPhase.RollOffered → trail.old.file < 4294967295 }
    requires some { 0 < length records.now }
    requires most { length records.now ≤ (R.format trail.old.rules).most }
    requires valid { AllValid (R.format trail.old.rules) records.now }
    requires writable { IsWritable D.tells D.held trail.old }
    ensures holds { (content : Content R) → Holds D.Disk R.format trail.old content → batch_of content.pending ≡ []
        → (IsTrue (D.tells trail.old.device) → (R.format trail.old.rules).in_order (landed_in content ++ records.now) ≡ true)
        → MatchResult result (λ _. (here : Content R) × (here.placed ≡ content.placed) × Holds D.Disk R.format trail.new (with_loaded records.now here))
        (λ _. (here : Content R) × (here.placed ≡ content.placed) × (batch_of here.pending ≡ []) × Holds D.Disk R.format trail.new here) }
    ensures phase { OnOk result (trail.new.phase ≡ TrailPhase.Loaded) }
    ensures phase_err { OnErr result ((trail.new.phase ≡ TrailPhase.Ready) ⊎ (trail.new.phase ≡ TrailPhase.RollOffered)) }
    ensures more { trail.new.phase ≡ TrailPhase.RollOffered → trail.new.file < 4294967295 }
    ensures file { trail.old.file ≤ trail.new.file }
    ensures writable { IsWritable D.tells D.held trail.new }
    ensures keeps { Keeps D.Disk trail.old trail.new }
    ensures cause { HasCause (D.faults trail.old.device) (D.faults trail.new.device) result }
{
    if trail.phase() == TrailPhase::RollOffered || !trail.fits(records.len() as u32) {
        trail.roll()?;
    }
    trail.load(records)
}
