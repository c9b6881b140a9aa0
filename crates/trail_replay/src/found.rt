//! What the audit of a volume says of the keys of a file.
ghost use Rattle.std.specs.Prelude.{◌≡◌, ◌++◌, ◌∷◌, ◌==◌, ◌&&◌, nat_le, [], ℕ, List, IfOk, IfErr, OnOk};
ghost use Rattle.tmf_model.specs.RecordMap.{IsListing};
ghost use Rattle.trail_files.specs.declared.audit_record.AuditRecord.{AuditRecord};
ghost use Rattle.trail_files.specs.declared.monitor_record.MonitorRecord.{MonitorRecord};
ghost use Rattle.trail_files.specs.Recovered.{is_committed, kept_records};
ghost use Rattle.trail_replay.specs.Found.{IsFound, records_found};
ghost use Rattle.trail_replay.specs.Reading.{HasCommits};

use crate::committed::Commits;
use crate::home::FileLocation;
use std::alloc::{AllocError, Global};
use std::collections::BTreeMap;
use tmf_model::{Key, Value};
use trail_files::{AuditRecord, MonitorRecord, TrailFault};

/// The value, or none, of each key of a file that some audit speaks of.
pub type Found = BTreeMap<Key, Option<Value>>;

/// The transactions that the records commit.
pub fn commits(alloc: Global, records: &[MonitorRecord]) -> Result<Commits, AllocError>
    ensures { IfOk result (λ commits. HasCommits records.now commits) }
{
    let mut transids = Vec::new(alloc);
    for item in records {
        if let MonitorRecord::Commit(tx) = item {
            transids.push(*tx)?;
        }
    }
    Ok(Commits::new(transids))
}

/// Whether the record is of the file, and its volume's audit from this position on.
fn is_of(item: &AuditRecord, home: FileLocation, low: u64) -> bool
    ensures { result ≡ ((item.now.disc == home.volume && nat_le low item.now.position) && (home.file == item.now.file)) }
{
    item.disc == home.volume && item.position >= low && home.file == item.file
}

/// Redoes the record of a committed transaction, and undoes that of another, where it is the first of its key.
fn recover_one(found: &mut Found, item: &AuditRecord, committed: bool) -> Result<(), AllocError>
    ensures { (file : ℕ) (audit : List AuditRecord) (monitor : List MonitorRecord) → file ≡ item.now.file → committed ≡ is_committed monitor item.now → IsFound file audit monitor found.old
        → OnOk result (IsFound file (audit ++ item.now ∷ []) monitor found.new) }
{
    if committed {
        found.insert(item.key, item.after)?;
    } else if !found.contains_key(&item.key) {
        found.insert(item.key, item.before)?;
    }
    Ok(())
}

/// Takes one record of a trail into what was found of a file, of whose volume the audit from the low position on is taken.
pub fn take_in(
    found: &mut Found,
    item: &AuditRecord,
    commits: &Commits,
    home: FileLocation,
    low: u64,
) -> Result<(), TrailFault>
    ensures ok { (audit : List AuditRecord) (list : List MonitorRecord) → HasCommits list commits.now → IsFound home.file (kept_records home.volume low audit) list found.old
        → OnOk result (IsFound home.file (kept_records home.volume low (audit ++ item.now ∷ [])) list found.new) }
    ensures err { IfErr result (λ e. e ≡ TrailFault.NoMemory) }
{
    if !is_of(item, home, low) {
        return Ok(());
    }
    let committed = commits.contains(&item.tx);
    match recover_one(found, item, committed) {
        Ok(()) => Ok(()),
        Err(_) => Err(TrailFault::NoMemory),
    }
}

/// The records that have a value, in rising order of their keys.
pub fn listing(alloc: Global, found: &Found) -> Result<Vec<(Key, Value)>, AllocError>
    ensures { (file : ℕ) → IfOk result (λ entries. IsListing (records_found found.now) file entries.items) }
{
    let mut entries = Vec::new(alloc);
    for (key, value) in found.iter() {
        if let Some(value) = value {
            entries.push((*key, *value))?;
        }
    }
    Ok(entries)
}
