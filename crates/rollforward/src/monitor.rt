//! The commits of a node, read from its monitor trail.
ghost use Rattle.std.specs.Prelude.{◌≡◌, List, IsTrue, IfOk, IfErr, MatchResult};
ghost use Rattle.disk_model.specs.Frame.{IsLater};
ghost use Rattle.disk_model.specs.Held.{Rose};
ghost use Rattle.trail_files.specs.declared.monitor_record.MonitorRecord.{MonitorRecord};
ghost use Rattle.trail_files.specs.MonitorRecord.{monitor_format};
ghost use Rattle.trail_files.specs.Scanned.{TellsOnly};
ghost use Rattle.trail_files.specs.Text.{Spells};
ghost use Rattle.trail_replay.specs.Reading.{HasCommits};
ghost use Rattle.trail_replay.specs.Texts.{IsMonitorDamage};

use disk_model::Disk;
use std::alloc::Global;
use trail_files::{MonitorRecord, Trail, TrailFault};
use trail_replay::{Commits, handed_back, read_commits, rules_of_monitor};

/// The transactions that the records of a device's monitor trail commit. It writes nothing.
pub fn monitor_commits<E: Disk>(
    alloc: Global,
    device: &mut E,
    roll: u64,
) -> Result<Commits, TrailFault>
    ensures told { IsTrue (E.tells device.old) → MatchResult result (λ commits. (list : List MonitorRecord) × Spells monitor_format (E.held device.old) list × HasCommits list commits)
        (TellsOnly (IsMonitorDamage (E.held device.old))) }
    ensures same { E.held device.new ≡ E.held device.old }
    ensures keeps { IsLater E.Disk device.old device.new }
    ensures cause { IfErr result (λ e. e ≡ TrailFault.Failed → Rose (E.faults device.old) (E.faults device.new)) }
{
    match Trail::<&mut E, MonitorRecord>::attach(alloc, device, rules_of_monitor(alloc, roll)) {
        Err(refused) => {
            let fault = refused.1;
            let _device = handed_back(refused);
            Err(fault)
        }
        Ok(opened) => {
            let mut trail = opened;
            let commits = read_commits(alloc, &mut trail);
            let _device = trail.into_device();
            commits
        }
    }
}
