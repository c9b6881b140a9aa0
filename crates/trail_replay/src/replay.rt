//! What the audit of a node says of the keys of all its files, taken record by record.
ghost use Rattle.std.specs.Prelude.{◌≡◌, ◌≢◌, ◌≤◌, ◌-◌, ◌++◌, ◌∷◌, [], ℕ, List, Some, length, slice_get, IfOk, IfErr, OnOk, MatchResult};
ghost use Rattle.disk_model.specs.Held.{Rose};
ghost use Rattle.tmf_model.specs.Config.{IsDeclared, IsValidConfig};
ghost use Rattle.tmf_model.specs.RecordMap.{RecordMap, IsListing};
ghost use Rattle.trail_files.specs.declared.audit_record.AuditRecord.{AuditRecord};
ghost use Rattle.trail_files.specs.declared.monitor_record.MonitorRecord.{MonitorRecord};
ghost use Rattle.trail_files.specs.Content.{Content};
ghost use Rattle.trail_files.specs.Fault.{IsUndamaged};
ghost use Rattle.trail_files.specs.Holds.{Holds, Keeps};
ghost use Rattle.trail_files.specs.Recovered.{commits_of, kept_records};
ghost use Rattle.trail_replay.specs.Home.{LiesOn};
ghost use Rattle.trail_replay.specs.Landed.{IsReadAs};
ghost use Rattle.trail_replay.specs.Reading.{HasCommits};
ghost use Rattle.trail_replay.specs.Replay.{IsFoundAt, maps_of, records_at};
ghost use Rattle.trail_replay.specs.Rules.{monitor_formats};

use crate::committed::Commits;
use crate::found::{Found, listing, take_in};
use crate::home::home_of;
use disk_model::Disk;
use std::alloc::{AllocError, Global};
use std::collections::BTreeMap;
use tmf_model::{Config, Key, Transid, Value};
use trail_files::{AuditRecord, MonitorRecord, Trail, TrailFault};

/// What the audit says of the keys of each file.
#[derive(Drop)]
pub struct FoundFiles {
    // By the files' numbers from 1.
    files: Vec<Found>,
}

/// Adds the transaction that a record commits.
fn add_commit(transids: &mut Vec<Transid>, item: &MonitorRecord) -> Result<(), TrailFault>
    ensures ok { (list : List MonitorRecord) → transids.old.items ≡ commits_of list → OnOk result (transids.new.items ≡ commits_of (list ++ item.now ∷ [])) }
    ensures err { IfErr result (λ e. e ≡ TrailFault.NoMemory) }
{
    if let MonitorRecord::Commit(tx) = item {
        if transids.push(*tx).is_err() {
            return Err(TrailFault::NoMemory);
        }
    }
    Ok(())
}

/// The transactions that the records of a trail commit, whether it rests or not. It writes nothing.
pub fn read_commits<D: Disk>(
    alloc: Global,
    monitor: &mut Trail<D, MonitorRecord>,
) -> Result<Commits, TrailFault>
    ensures told { (list : List MonitorRecord) → IsReadAs D.Disk monitor_formats monitor.old list → MatchResult result (HasCommits list) IsUndamaged }
    ensures holds { (content : Content MonitorRecord) → Holds D.Disk monitor_formats monitor.old content → Holds D.Disk monitor_formats monitor.new content }
    ensures keeps { Keeps D.Disk monitor.old monitor.new }
    ensures same { D.held monitor.new.device ≡ D.held monitor.old.device }
    ensures phase { monitor.new.phase ≡ monitor.old.phase }
    ensures cause { IfErr result (λ e. e ≡ TrailFault.Failed → Rose (D.faults monitor.old.device) (D.faults monitor.new.device)) }
{
    let mut cursor = monitor.cursor();
    let mut transids = Vec::new(alloc);
    while let Some(item) = monitor.next(&mut cursor)? {
        add_commit(&mut transids, &item)?;
    }
    Ok(Commits::new(transids))
}

impl FoundFiles {
    /// Nothing, of so many files.
    pub fn new(alloc: Global, count: usize) -> Result<FoundFiles, AllocError>
        ensures count { IfOk result (λ files. length (maps_of files) ≡ count) }
        ensures none { IfOk result (λ files. (file disc : ℕ) (list : List MonitorRecord) → 1 ≤ file → file ≤ count → IsFoundAt file (kept_records disc 1 []) list files) }
    {
        let mut files = Vec::with_capacity(alloc, count)?;
        for _ in 0..count {
            files.push_reserved(BTreeMap::new(alloc));
        }
        Ok(FoundFiles { files })
    }

    /// Takes in one record of a trail, of whose disc the audit from the low position on is taken.
    pub fn take_in(
        &mut self,
        config: &Config,
        item: &AuditRecord,
        commits: &Commits,
        low: u64,
    ) -> Result<(), TrailFault>
        requires valid { IsValidConfig config.now }
        requires count { length (maps_of self.old) ≡ length config.now.files }
        ensures taken { (file disc trail from : ℕ) (audit : List AuditRecord) (list : List MonitorRecord) → LiesOn config.now file disc trail → (item.now.disc ≡ disc → from ≡ low) → HasCommits list commits.now
            → IsFoundAt file (kept_records disc from audit) list self.old → OnOk result (IsFoundAt file (kept_records disc from (audit ++ item.now ∷ [])) list self.new) }
        // A record says nothing of the files of another volume.
        ensures others { (file disc trail : ℕ) → LiesOn config.now file disc trail → item.now.disc ≢ disc → slice_get (maps_of self.new) (file - 1) ≡ slice_get (maps_of self.old) (file - 1) }
        ensures count { length (maps_of self.new) ≡ length (maps_of self.old) }
        ensures err { IfErr result (λ e. e ≡ TrailFault.NoMemory) }
    {
        if item.file == 0 || usize::from(item.file) > self.files.len() {
            return Ok(());
        }
        let home = home_of(config, item.file);
        if home.volume != item.disc {
            return Ok(());
        }
        take_in(
            &mut self.files[usize::from(item.file) - 1],
            item,
            commits,
            home,
            low,
        )
    }

    /// What was found of the keys of a file.
    pub fn of_file(&self, file: u8) -> &Found
        requires some { 1 ≤ file }
        requires few { file ≤ length (maps_of self.now) }
        ensures { slice_get (maps_of self.now) (file - 1) ≡ Some result.now }
    {
        &self.files[usize::from(file) - 1]
    }

    /// The records of a file that have a value, in rising order of their keys.
    pub fn listing(&self, alloc: Global, file: u8) -> Result<Vec<(Key, Value)>, AllocError>
        requires some { 1 ≤ file }
        requires few { file ≤ length (maps_of self.now) }
        ensures { IfOk result (λ entries. IsListing (records_at self.now) file entries.items) }
    {
        listing(alloc, &self.files[usize::from(file) - 1])
    }
}
