//! Reading out of a trail which of its files no disc needs.
ghost use Rattle.std.specs.Prelude.{◌≡◌, ◌≤◌, ◌<◌, IsTrue, IfOk, slice_index, true, false};
ghost use Rattle.disk_model.specs.Held.{HasCause};
ghost use Rattle.trail_files.specs.AuditRecord.{audit_format};
ghost use Rattle.trail_files.specs.Content.{Content};
ghost use Rattle.trail_files.specs.Holds.{Holds, Keeps};
ghost use Rattle.trail_files.specs.declared.audit_record.AuditRecord.{AuditRecord};
ghost use Rattle.audit_writer.specs.Purge.{IsSpent, IsFirstKept};

use disk_model::{Disk, DiskFault};
use trail_files::{AuditRecord, Trail, TrailFault};

/// The first file of a trail that is kept: it is the present one, or has a record that is not below what its disc has told, or damage.
pub fn first_kept<D: Disk>(
    trail: &mut Trail<D, AuditRecord>,
    bounds: &[u64],
) -> Result<u32, DiskFault>
    ensures present { IfOk result (λ file. file ≤ trail.old.file) }
    ensures first { (content : Content AuditRecord) → IsTrue (D.tells trail.old.device) → Holds D.Disk audit_format trail.old content
        → IfOk result (IsFirstKept bounds.now content) }
    ensures holds { (content : Content AuditRecord) → Holds D.Disk audit_format trail.old content → Holds D.Disk audit_format trail.new content }
    ensures keeps { Keeps D.Disk trail.old trail.new }
    ensures phase { trail.new.phase ≡ trail.old.phase }
    ensures files { (trail.new.least ≡ trail.old.least) × (trail.new.file ≡ trail.old.file) }
    ensures cause { HasCause (D.faults trail.old.device) (D.faults trail.new.device) result }
{
    Trail::<D, AuditRecord>::in_files();
    let present = trail.present_file();
    let mut cursor = trail.cursor();
    loop {
        match trail.next(&mut cursor) {
            Ok(Some(item)) => {
                if !is_spent(&item, bounds) {
                    return Ok(cursor.file().min(present));
                }
            }
            Ok(None) => return Ok(present),
            Err(TrailFault::Damaged(damage)) => return Ok(damage.file.min(present)),
            Err(_) => return Err(DiskFault::Failed),
        }
    }
}

// Whether the record stands below what its disc has told.
fn is_spent(item: &AuditRecord, bounds: &[u64]) -> bool
    ensures yes { result ≡ true → IsSpent bounds.now item.now }
    ensures no { result ≡ false → slice_index bounds.now item.now.disc ≤ item.now.position }
{
    match bounds.get(usize::from(item.disc)) {
        Some(bound) => item.position < *bound,
        None => false,
    }
}
