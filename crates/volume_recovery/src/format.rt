//! The format of a node's trails.
ghost use Rattle.std.specs.Prelude.{◌≡◌, ◌⊎◌, ◌<◌, ◌≤◌, ◌+◌, ◌∷◌, [], ℕ, length, slice_get, None, Err, OnOk, OnErr};
ghost use Rattle.tmf_model.specs.Config.{IsValidConfig};
ghost use Rattle.trail_files.specs.declared.monitor_record.MonitorRecord.TheVariants.{Start};
ghost use Rattle.trail_files.specs.AuditRecord.{audit_format};
ghost use Rattle.trail_files.specs.MonitorRecord.{monitor_format};
ghost use Rattle.trail_files.specs.Trail.{Rests};
ghost use Rattle.disk_model.specs.Devices.{AreLater, DevicesTell, DeviceAt, HoldSame, RoseAt, SameBut, SameFrom};
ghost use Rattle.trail_replay.specs.Rules.{rules_of};

use crate::audit::format_audit;
use crate::errors::FormatError;
use crate::monitor::{format_monitor, unformat};
use disk_model::{Bay, Disk};
use std::alloc::Global;
use tmf_model::Config;
use trail_replay::MONITOR;

/// Takes the monitor trail's first file away.
pub(crate) fn clear_monitor<D: Disk>(bay: &mut Bay<D>) -> Result<(), FormatError>
    ensures gone { DevicesTell D.tells bay.old → OnOk result (DeviceAt (λ d. D.held d 1 ≡ None) bay.new 0) }
    ensures left { DevicesTell D.tells bay.old → OnErr result (HoldSame D.held bay.old bay.new ⊎ DeviceAt (λ d. D.held d 1 ≡ None) bay.new 0) }
    ensures others { SameBut 0 bay.old bay.new }
    ensures keeps { AreLater D.Disk bay.old bay.new }
    ensures cause { (number : ℕ) → result ≡ Err (FormatError.Failed number) → (number ≡ 0) × RoseAt D.faults bay.old bay.new number }
{
    match unformat(bay.device(MONITOR)) {
        Ok(()) => Ok(()),
        Err(fault) => Err(FormatError::at(MONITOR, fault)),
    }
}

/// Makes the monitor trail, with the Start of the first epoch.
pub(crate) fn begin_monitor<D: Disk>(
    alloc: Global,
    bay: &mut Bay<D>,
    config: &Config,
) -> Result<(), FormatError>
    ensures told { DevicesTell D.tells bay.old → OnOk result (DeviceAt (λ d. Rests monitor_format (D.held d) (Start 1 ∷ [])) bay.new 0) }
    ensures others { SameBut 0 bay.old bay.new }
    ensures keeps { AreLater D.Disk bay.old bay.new }
    ensures cause { (number : ℕ) → result ≡ Err (FormatError.Failed number) → (number ≡ 0) × RoseAt D.faults bay.old bay.new number }
{
    match format_monitor(alloc, bay.device(MONITOR), config.roll) {
        Ok(()) => Ok(()),
        Err(fault) => Err(FormatError::at(MONITOR, fault)),
    }
}

/// Makes the trail with this number, empty.
fn format_trail<D: Disk>(
    alloc: Global,
    bay: &mut Bay<D>,
    config: &Config,
    trail: u8,
) -> Result<(), FormatError>
    requires valid { IsValidConfig config.now }
    requires few { trail < 21 }
    ensures told { DevicesTell D.tells bay.old → OnOk result (DeviceAt (λ d. Rests (audit_format (rules_of config.now trail)) (D.held d) []) bay.new trail) }
    ensures others { SameBut trail bay.old bay.new }
    ensures keeps { AreLater D.Disk bay.old bay.new }
    ensures cause { (number : ℕ) → result ≡ Err (FormatError.Failed number) → (number ≡ trail) × RoseAt D.faults bay.old bay.new number }
{
    match format_audit(alloc, bay.device(trail), config, trail) {
        Ok(()) => Ok(()),
        Err(fault) => Err(FormatError::at(trail, fault)),
    }
}

/// Makes each trail of the configuration, empty.
pub(crate) fn format_trails<D: Disk>(
    alloc: Global,
    bay: &mut Bay<D>,
    config: &Config,
) -> Result<(), FormatError>
    requires { IsValidConfig config.now }
    ensures told { DevicesTell D.tells bay.old
        → OnOk result ((n : ℕ) → 1 ≤ n → n ≤ length config.now.trails → DeviceAt (λ d. Rests (audit_format (rules_of config.now n)) (D.held d) []) bay.new n) }
    ensures monitor { slice_get bay.new 0 ≡ slice_get bay.old 0 }
    ensures others { SameFrom (1 + length config.now.trails) bay.old bay.new }
    ensures keeps { AreLater D.Disk bay.old bay.new }
    ensures cause { (number : ℕ) → result ≡ Err (FormatError.Failed number) → (number ≤ length config.now.trails) × RoseAt D.faults bay.old bay.new number }
{
    let count = config.trails.len() as u8;
    let mut trail = 0;
    while trail < count {
        trail += 1;
        format_trail(alloc, bay, config, trail)?;
    }
    Ok(())
}
