//! The opening of an audit trail.
ghost use Rattle.std.specs.Prelude.{◌≡◌, ◌≢◌, [], ℕ, List, IsTrue, IfOk, IfErr, OnOk};
ghost use Rattle.disk_model.specs.Held.{Rose};
ghost use Rattle.tmf_model.specs.Config.{IsNumber, IsValidConfig};
ghost use Rattle.tmf_model.specs.declared.config.Volume.{Volume};
ghost use Rattle.trail_files.specs.AuditRecord.{audit_format};
ghost use Rattle.trail_files.specs.Calls.{KeepsContent};
ghost use Rattle.trail_files.specs.Fault.{IsUndamaged};
ghost use Rattle.trail_files.specs.Text.{Spells};
ghost use Rattle.trail_files.specs.Trail.{Reads};
ghost use Rattle.trail_files.specs.declared.audit_record.AuditRecord.{AuditRecord};
ghost use Rattle.trail_replay.specs.Opening.{IsOpened};
ghost use Rattle.trail_replay.specs.Rules.{rules_of};
ghost use Rattle.trail_replay.specs.Texts.{IsAuditDamage};
ghost use Rattle.run_opening.specs.Lasts.{IsNextFor, next_at};
ghost use Rattle.run_opening.specs.Refusal.{IsRefused, TellsAt};

use crate::lasts::Lasts;
use crate::refusal::refusal_by;
use disk_model::Disk;
use run_outcomes::PhaseError;
use std::alloc::Global;
use tmf_model::Config;
use trail_files::{AuditRecord, Trail, TrailFault};
use trail_replay::rules_of_trail;

/// Sees the records of an open trail. It writes nothing.
fn see_records<D: Disk>(
    trail: &mut Trail<D, AuditRecord>,
    config: &Config,
    number: u8,
    lasts: &mut Lasts,
) -> Result<(), TrailFault>
    requires { IsValidConfig config.now }
    ensures own { (audit : List AuditRecord) → IsTrue (D.tells trail.old.device) → Reads D.held audit_format trail.old audit
        → OnOk result ((volume low : ℕ) (line : Volume) → IsNumber config.now.volumes volume line → line.trail ≡ number → IsNextFor volume low [] (next_at lasts.old volume) → IsNextFor volume low audit (next_at lasts.new volume)) }
    ensures others { (volume : ℕ) (line : Volume) → IsNumber config.now.volumes volume line → line.trail ≢ number → next_at lasts.new volume ≡ next_at lasts.old volume }
    ensures undamaged { (audit : List AuditRecord) → IsTrue (D.tells trail.old.device) → Reads D.held audit_format trail.old audit → IfErr result IsUndamaged }
    ensures frame { KeepsContent D.Disk audit_format trail.old trail.new }
    ensures cause { IfErr result (λ e. e ≡ TrailFault.Failed → Rose (D.faults trail.old.device) (D.faults trail.new.device)) }
{
    let mut cursor = trail.cursor();
    while let Some(item) = trail.next(&mut cursor)? {
        lasts.see(config, number, &item);
    }
    Ok(())
}

/// Sees the last record that an open trail has of each of its discs. It writes nothing.
fn with_seen<D: Disk>(
    opened: Trail<D, AuditRecord>,
    config: &Config,
    number: u8,
    lasts: &mut Lasts,
) -> Result<Trail<D, AuditRecord>, (D, PhaseError)>
    requires { IsValidConfig config.now }
    ensures kept { IfOk result (KeepsContent D.Disk audit_format opened) }
    ensures own { (audit : List AuditRecord) → IsTrue (D.tells opened.device) → Reads D.held audit_format opened audit
        → OnOk result ((volume low : ℕ) (line : Volume) → IsNumber config.now.volumes volume line → line.trail ≡ number → IsNextFor volume low [] (next_at lasts.old volume) → IsNextFor volume low audit (next_at lasts.new volume)) }
    ensures others { (volume : ℕ) (line : Volume) → IsNumber config.now.volumes volume line → line.trail ≢ number → next_at lasts.new volume ≡ next_at lasts.old volume }
    ensures refused { IfErr result (λ e. IsRefused D.Disk number opened.device e.0 e.1) }
    ensures undamaged { (audit : List AuditRecord) → IsTrue (D.tells opened.device) → Reads D.held audit_format opened audit → IfErr result (λ e. TellsAt number (λ damage. ⊥) e.1) }
{
    let mut trail = opened;
    match see_records(&mut trail, config, number, lasts) {
        Ok(()) => Ok(trail),
        Err(fault) => Err((trail.into_device(), refusal_by(number, fault))),
    }
}

/// Opens an audit trail, and sees the last record that it has of each of its discs. It writes nothing.
pub fn open_audit<D: Disk>(
    alloc: Global,
    config: &Config,
    number: u8,
    device: D,
    lasts: &mut Lasts,
) -> Result<Trail<D, AuditRecord>, (D, PhaseError)>
    requires { IsValidConfig config.now }
    ensures kept { IfOk result (IsOpened D.Disk audit_format (rules_of config.now number) device) }
    ensures own { (audit : List AuditRecord) → IsTrue (D.tells device) → Spells (audit_format (rules_of config.now number)) (D.held device) audit
        → OnOk result ((volume low : ℕ) (line : Volume) → IsNumber config.now.volumes volume line → line.trail ≡ number → IsNextFor volume low [] (next_at lasts.old volume) → IsNextFor volume low audit (next_at lasts.new volume)) }
    ensures others { (volume : ℕ) (line : Volume) → IsNumber config.now.volumes volume line → line.trail ≢ number → next_at lasts.new volume ≡ next_at lasts.old volume }
    ensures refused { IfErr result (λ e. IsRefused D.Disk number device e.0 e.1) }
    ensures damage { IsTrue (D.tells device) → IfErr result (λ e. TellsAt number (IsAuditDamage config.now number (D.held device)) e.1) }
{
    let Ok(rules) = rules_of_trail(alloc, config, number) else {
        return Err((device, PhaseError::NoMemory));
    };
    match Trail::<D, AuditRecord>::attach(alloc, device, rules) {
        Err((left, fault)) => Err((left, refusal_by(number, fault))),
        Ok(opened) => with_seen(opened, config, number, lasts),
    }
}
