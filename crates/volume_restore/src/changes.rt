//! What the trails of a node say of the keys of its files, from each volume's low position on.
ghost use Rattle.std.specs.Prelude.{◌≡◌, ◌≢◌, ◌≤◌, ◌+◌, ◌-◌, ◌++◌, ◌∷◌, [], ℕ, List, Some, length, slice_get, IsTrue, IsErr, IfOk, IfErr, OnOk, MatchResult};
ghost use Rattle.disk_model.specs.Frame.{IsLater};
ghost use Rattle.disk_model.specs.Held.{Rose};
ghost use Rattle.tmf_model.specs.Config.{IsNumber, IsValidConfig, IsWithin};
ghost use Rattle.tmf_model.specs.declared.config.Volume.{Volume};
ghost use Rattle.trail_files.specs.declared.audit_record.AuditRecord.{AuditRecord};
ghost use Rattle.trail_files.specs.declared.damage.Damage.{Damage};
ghost use Rattle.trail_files.specs.declared.monitor_record.MonitorRecord.{MonitorRecord};
ghost use Rattle.trail_files.specs.AuditRecord.{audit_format};
ghost use Rattle.trail_files.specs.Fault.{IsUndamaged};
ghost use Rattle.trail_files.specs.Scanned.{TellsOnly};
ghost use Rattle.trail_files.specs.Text.{Spells};
ghost use Rattle.trail_files.specs.Trail.{Reads};
ghost use Rattle.trail_replay.specs.Texts.{IsAuditDamage, SpellsAudit};
ghost use Rattle.trail_replay.specs.Reading.{HasCommits};
ghost use Rattle.trail_replay.specs.Rules.{rules_of};
ghost use Rattle.volume_restore.specs.Found.{AreFoundFor, AreFoundSoFar, FitsNode, HasTaken, IsLeftOut};

use crate::fault::handed_back;
use disk_model::Disk;
use std::alloc::{AllocError, Global};
use tmf_model::Config;
use trail_files::{AuditRecord, Trail, TrailFault};
use trail_replay::{Commits, FoundFiles, rules_of_trail};

/// The greatest position that a label may have.
const LAST_POSITION: u64 = 4_611_686_018_427_387_904;

/// The positions of a disc.
#[derive(Clone, Copy, Debug, Drop, PartialEq, Eq)]
pub struct DiscPlace {
    /// From which on its audit is taken: its volume's low position.
    pub low: u64,
    /// The one that it gives out next.
    pub next: u64,
}

/// What was found of the keys of a node's files, and the positions of its discs.
#[derive(Drop)]
pub struct NodeChanges {
    files: FoundFiles,
    // By the volumes' numbers from 1.
    places: Vec<DiscPlace>,
}

/// The position behind that of a record.
fn position_behind(position: u64) -> u64
    ensures within { IsWithin 1 4611686018427387904 result }
    ensures behind { 1 + position ≤ 4611686018427387904 → result ≡ 1 + position }
{
    if position < LAST_POSITION {
        position + 1
    } else {
        LAST_POSITION
    }
}

impl NodeChanges {
    ghost use Rattle.volume_restore.specs.declared.changes.DiscPlace.{DiscPlace};

    /// Nothing found, with these low positions of the volumes, by rising number.
    pub fn new(alloc: Global, config: &Config, lows: &[u64]) -> Result<NodeChanges, AllocError>
        requires count { length lows.now ≡ length config.now.volumes }
        requires within { (n low : ℕ) → slice_get lows.now n ≡ Some low → IsWithin 1 4611686018427387904 low }
        ensures fits { IfOk result (FitsNode config.now) }
        ensures none { IfOk result (λ changes. (volume low : ℕ) (list : List MonitorRecord) → 1 ≤ volume → slice_get lows.now (volume - 1) ≡ Some low → AreFoundFor config.now volume low [] list changes) }
    {
        let mut places = Vec::with_capacity(alloc, lows.len())?;
        for low in lows {
            places.push_reserved(DiscPlace {
                low: *low,
                next: *low,
            });
        }
        let files = FoundFiles::new(alloc, config.files.len())?;
        Ok(NodeChanges { files, places })
    }

    /// What was found of the keys of each file.
    pub fn files(&self) -> &FoundFiles
        ensures { result.now ≡ self.now.files }
    {
        &self.files
    }

    /// The position that the disc of a volume gives out next.
    pub fn next_of(&self, volume: u8) -> u64
        requires some { 1 ≤ volume }
        requires few { volume ≤ length self.now.places.items }
        ensures { (low : ℕ) × (slice_get self.now.places.items (volume - 1) ≡ Some (record { low = low; next = result })) }
    {
        self.places[usize::from(volume) - 1].next
    }

    /// Takes in one record of a trail, where it is of a volume that is audited to it.
    fn take_in(
        &mut self,
        config: &Config,
        trail: u8,
        item: &AuditRecord,
        commits: &Commits,
    ) -> Result<(), TrailFault>
        requires valid { IsValidConfig config.now }
        requires fits { FitsNode config.now self.old }
        ensures own { (volume low : ℕ) (line : Volume) (audit : List AuditRecord) (list : List MonitorRecord) → IsNumber config.now.volumes volume line → line.trail ≡ trail → HasCommits list commits.now
            → AreFoundSoFar config.now volume low audit list self.old → OnOk result (AreFoundSoFar config.now volume low (audit ++ item.now ∷ []) list self.new) }
        ensures others { (volume : ℕ) (line : Volume) → IsNumber config.now.volumes volume line → line.trail ≢ trail → IsLeftOut config.now volume self.old self.new }
        ensures fits { FitsNode config.now self.new }
        ensures err { IfErr result (λ e. e ≡ TrailFault.NoMemory) }
    {
        if config.trail_of(item.disc) != Some(trail) {
            return Ok(());
        }
        let place = &mut self.places[usize::from(item.disc) - 1];
        place.next = position_behind(item.position);
        let low = place.low;
        self.files.take_in(config, item, commits, low)
    }
}

/// Takes in the records of an open trail, with these transactions committed.
fn read_records<A: Disk>(
    audit: &mut Trail<A, AuditRecord>,
    config: &Config,
    trail: u8,
    commits: &Commits,
    changes: &mut NodeChanges,
) -> Result<(), TrailFault>
    requires valid { IsValidConfig config.now }
    requires fits { FitsNode config.now changes.old }
    ensures own { (written : List AuditRecord) (list : List MonitorRecord) → IsTrue (A.tells audit.old.device) → Reads A.held audit_format audit.old written → HasCommits list commits.now
        → OnOk result ((volume low : ℕ) (line : Volume) → IsNumber config.now.volumes volume line → line.trail ≡ trail
        → AreFoundSoFar config.now volume low [] list changes.old → AreFoundSoFar config.now volume low written list changes.new) }
    ensures others { (volume : ℕ) (line : Volume) → IsNumber config.now.volumes volume line → line.trail ≢ trail → IsLeftOut config.now volume changes.old changes.new }
    ensures fits { FitsNode config.now changes.new }
    ensures undamaged { (written : List AuditRecord) → IsTrue (A.tells audit.old.device) → Reads A.held audit_format audit.old written → IfErr result IsUndamaged }
    ensures same { A.held audit.new.device ≡ A.held audit.old.device }
    ensures keeps { IsLater A.Disk audit.old.device audit.new.device }
    ensures cause { IfErr result (λ e. e ≡ TrailFault.Failed → Rose (A.faults audit.old.device) (A.faults audit.new.device)) }
{
    let mut cursor = audit.cursor();
    while let Some(item) = audit.next(&mut cursor)? {
        changes.take_in(config, trail, &item, commits)?;
    }
    Ok(())
}

/// Takes in what a trail says, with these transactions committed: of the keys of the files on its volumes, from each volume's low position on,
/// and of the position that each volume's disc gives out next. It writes nothing.
pub fn read_trail<E: Disk>(
    alloc: Global,
    device: &mut E,
    config: &Config,
    trail: u8,
    commits: &Commits,
    changes: &mut NodeChanges,
) -> Result<(), TrailFault>
    requires valid { IsValidConfig config.now }
    requires fits { FitsNode config.now changes.old }
    ensures taken { (written : List AuditRecord) (list : List MonitorRecord) → IsTrue (E.tells device.old) → Spells (audit_format (rules_of config.now trail)) (E.held device.old) written
        → HasCommits list commits.now → OnOk result (HasTaken config.now trail written list changes.old changes.new) }
    ensures fits { FitsNode config.now changes.new }
    ensures read { IsTrue (E.tells device.old) → MatchResult result (λ _. SpellsAudit config.now trail (E.held device.old)) (TellsOnly (IsAuditDamage config.now trail (E.held device.old))) }
    ensures undamaged { IsTrue (E.tells device.old) → SpellsAudit config.now trail (E.held device.old) → IfErr result IsUndamaged }
    ensures exact { (damage : Damage) → IsTrue (E.tells device.old) → IsAuditDamage config.now trail (E.held device.old) damage → MatchResult result (λ _. ⊥) (TellsOnly (λ told. told ≡ damage)) }
    ensures same { E.held device.new ≡ E.held device.old }
    ensures keeps { IsLater E.Disk device.old device.new }
    ensures cause { IfErr result (λ e. e ≡ TrailFault.Failed → Rose (E.faults device.old) (E.faults device.new)) }
{
    let Ok(rules) = rules_of_trail(alloc, config, trail) else {
        return Err(TrailFault::NoMemory);
    };
    match Trail::<&mut E, AuditRecord>::attach(alloc, device, rules) {
        Err(refused) => {
            let fault = refused.1;
            let _device = handed_back(refused);
            Err(fault)
        }
        Ok(opened) => {
            let mut audit = opened;
            let read = read_records(&mut audit, config, trail, commits, changes);
            let _device = audit.into_device();
            read
        }
    }
}
