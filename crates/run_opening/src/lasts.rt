//! The position behind the last record that a disc has on its trail.
ghost use Rattle.std.specs.Prelude.{◌≡◌, ◌≢◌, ◌≤◌, ◌+◌, ◌++◌, ◌∷◌, [], ℕ, List};
ghost use Rattle.tmf_model.specs.Config.{IsNumber, IsValidConfig};
ghost use Rattle.tmf_model.specs.declared.config.Volume.{Volume};
ghost use Rattle.trail_files.specs.declared.audit_record.AuditRecord.{AuditRecord};
ghost use Rattle.run_opening.specs.Lasts.{IsNextFor, next_at, with_next};

use tmf_model::Config;
use trail_files::AuditRecord;

/// The position behind the last record that each disc has on its trail. A node has at most 8 discs.
#[derive(Clone, Copy)]
pub struct Lasts {
    // By the number of the disc; none has the number 0. It is 0 where no record was seen.
    next: [u64; 9],
}

/// The position behind that of a record, as far as numbers go.
fn position_behind(position: u64) -> u64
    ensures some { 1 ≤ result }
    ensures behind { 1 + position ≤ 4611686018427387904 → result ≡ 1 + position }
{
    if position < u64::MAX {
        position + 1
    } else {
        position
    }
}

impl Lasts {
    /// Those of discs of which no record was seen.
    pub fn none() -> Lasts
        ensures { (disc : ℕ) → next_at result disc ≡ 0 }
    {
        Lasts { next: [0; 9] }
    }

    /// The position behind the disc's last record, or 0.
    pub fn next_at(&self, disc: u8) -> u64
        requires { disc ≤ 8 }
        ensures { result ≡ next_at self.now disc }
    {
        self.next[usize::from(disc)]
    }

    /// Lets this position follow the last record of a disc.
    fn set(&mut self, disc: u8, next: u64)
        requires { disc ≤ 8 }
        ensures { next_at self.new ≡ with_next disc next (next_at self.old) }
    {
        self.next[usize::from(disc)] = next;
    }

    /// Sees one record of a trail, where it is of a disc that is audited to it.
    pub fn see(&mut self, config: &Config, trail: u8, item: &AuditRecord)
        requires { IsValidConfig config.now }
        ensures own { (volume low : ℕ) (line : Volume) (audit : List AuditRecord) → IsNumber config.now.volumes volume line → line.trail ≡ trail
            → IsNextFor volume low audit (next_at self.old volume) → IsNextFor volume low (audit ++ item.now ∷ []) (next_at self.new volume) }
        ensures others { (volume : ℕ) (line : Volume) → IsNumber config.now.volumes volume line → line.trail ≢ trail → next_at self.new volume ≡ next_at self.old volume }
    {
        if config.trail_of(item.disc) != Some(trail) {
            return;
        }
        self.set(item.disc, position_behind(item.position));
    }
}
