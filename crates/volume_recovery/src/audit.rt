//! The audit trail of a device.
ghost use Rattle.std.specs.Prelude.{[], IsTrue, IfErr, OnOk, ◌≡◌};
ghost use Rattle.disk_model.specs.Frame.{IsLater};
ghost use Rattle.disk_model.specs.Held.{Rose};
ghost use Rattle.tmf_model.specs.Config.{IsValidConfig};
ghost use Rattle.trail_files.specs.AuditRecord.{audit_format};
ghost use Rattle.trail_files.specs.Fault.{IsUndamaged};
ghost use Rattle.trail_files.specs.Trail.{Rests};
ghost use Rattle.trail_replay.specs.Rules.{rules_of};

use disk_model::Disk;
use std::alloc::Global;
use tmf_model::Config;
use trail_files::{AuditRecord, Trail, TrailFault};
use trail_replay::{handed_back, rules_of_trail};

/// Makes an empty trail.
pub fn format_audit<E: Disk>(
    alloc: Global,
    device: &mut E,
    config: &Config,
    trail: u8,
) -> Result<(), TrailFault>
    requires { IsValidConfig config.now }
    ensures told { IsTrue (E.tells device.old) → OnOk result (Rests (audit_format (rules_of config.now trail)) (E.held device.new) []) }
    ensures keeps { IsLater E.Disk device.old device.new }
    ensures cause { IfErr result (λ e. e ≡ TrailFault.Failed → Rose (E.faults device.old) (E.faults device.new)) }
    ensures undamaged { IfErr result IsUndamaged }
{
    Trail::<&mut E, AuditRecord>::every_image();
    let Ok(rules) = rules_of_trail(alloc, config, trail) else {
        return Err(TrailFault::NoMemory);
    };
    match Trail::<&mut E, AuditRecord>::format(alloc, device, rules) {
        Err(refused) => {
            let fault = refused.1;
            let _device = handed_back(refused);
            Err(fault)
        }
        Ok(trail) => {
            let _device = trail.into_device();
            Ok(())
        }
    }
}
