//! The monitor trail of a device.
ghost use Rattle.std.specs.Prelude.{◌≡◌, ◌⊎◌, ◌++◌, ◌∷◌, [], List, None, IsTrue, IfOk, IfErr, OnOk, OnErr};
ghost use Rattle.disk_model.specs.Frame.{IsLater};
ghost use Rattle.disk_model.specs.Held.{Rose};
ghost use Rattle.trail_files.specs.declared.monitor_record.MonitorRecord.{MonitorRecord};
ghost use Rattle.trail_files.specs.declared.monitor_record.MonitorRecord.TheVariants.{Start};
ghost use Rattle.trail_files.specs.Content.{Content};
ghost use Rattle.trail_files.specs.Fault.{IsUndamaged};
ghost use Rattle.trail_files.specs.Holds.{Holds, Keeps};
ghost use Rattle.trail_files.specs.MonitorRecord.{monitor_format};
ghost use Rattle.trail_files.specs.Trail.{Reads, Rests};
ghost use Rattle.trail_replay.specs.Rules.{monitor_formats};

use crate::landing::land;
use disk_model::Disk;
use std::alloc::Global;
use trail_files::{MonitorRecord, Trail, TrailFault};
use trail_replay::{handed_back, rules_of_monitor};

/// The number of a trail's first file.
const FIRST_FILE: u32 = 1;

/// The first epoch of a node.
const FIRST_EPOCH: u32 = 1;

/// Adds a record behind the others.
fn push_record(records: &mut Vec<MonitorRecord>, item: MonitorRecord) -> Result<(), TrailFault>
    ensures ok { OnOk result (records.new.items ≡ records.old.items ++ item ∷ []) }
    ensures err { IfErr result (λ e. e ≡ TrailFault.NoMemory) }
{
    match records.push(item) {
        Ok(()) => Ok(()),
        Err(_) => Err(TrailFault::NoMemory),
    }
}

/// The records of a trail, in their order. It writes nothing.
pub fn read_records<M: Disk>(
    alloc: Global,
    monitor: &mut Trail<M, MonitorRecord>,
) -> Result<Vec<MonitorRecord>, TrailFault>
    ensures told { (list : List MonitorRecord) → IsTrue (M.tells monitor.old.device) → Reads M.held monitor_formats monitor.old list
        → IfOk result (λ records. records.items ≡ list) }
    ensures undamaged { (list : List MonitorRecord) → IsTrue (M.tells monitor.old.device) → Reads M.held monitor_formats monitor.old list → IfErr result IsUndamaged }
    ensures holds { (content : Content MonitorRecord) → Holds M.Disk monitor_formats monitor.old content → Holds M.Disk monitor_formats monitor.new content }
    ensures cause { IfErr result (λ e. e ≡ TrailFault.Failed → Rose (M.faults monitor.old.device) (M.faults monitor.new.device)) }
    ensures keeps { Keeps M.Disk monitor.old monitor.new }
    ensures same { M.held monitor.new.device ≡ M.held monitor.old.device }
    ensures phase { monitor.new.phase ≡ monitor.old.phase }
{
    let mut cursor = monitor.cursor();
    let mut records = Vec::new(alloc);
    while let Some(item) = monitor.next(&mut cursor)? {
        push_record(&mut records, item)?;
    }
    Ok(records)
}

/// Makes a trail whose first record is the Start of the first epoch.
pub fn format_monitor<E: Disk>(alloc: Global, device: &mut E, roll: u64) -> Result<(), TrailFault>
    ensures told { IsTrue (E.tells device.old) → OnOk result (Rests monitor_format (E.held device.new) (Start 1 ∷ [])) }
    ensures keeps { IsLater E.Disk device.old device.new }
    ensures cause { IfErr result (λ e. e ≡ TrailFault.Failed → Rose (E.faults device.old) (E.faults device.new)) }
    ensures undamaged { IfErr result IsUndamaged }
{
    Trail::<&mut E, MonitorRecord>::every_image();
    match Trail::<&mut E, MonitorRecord>::format(alloc, device, rules_of_monitor(alloc, roll)) {
        Err(refused) => {
            let fault = refused.1;
            let _device = handed_back(refused);
            Err(fault)
        }
        Ok(made) => {
            let mut trail = made;
            let landed = land(&mut trail, &[MonitorRecord::Start(FIRST_EPOCH)]);
            let _device = trail.into_device();
            match landed {
                Ok(()) => Ok(()),
                Err(_) => Err(TrailFault::Failed),
            }
        }
    }
}

/// Takes the first file of a monitor trail away, so that no image has an old list beside new audit.
pub fn unformat<E: Disk>(device: &mut E) -> Result<(), TrailFault>
    ensures gone { IsTrue (E.tells device.old) → OnOk result (E.held device.new 1 ≡ None) }
    ensures left { IsTrue (E.tells device.old) → OnErr result ((E.held device.new ≡ E.held device.old) ⊎ (E.held device.new 1 ≡ None)) }
    ensures keeps { IsLater E.Disk device.old device.new }
    ensures cause { IfErr result (λ e. (e ≡ TrailFault.Failed) × Rose (E.faults device.old) (E.faults device.new)) }
{
    if device.length(FIRST_FILE)?.is_some() {
        device.remove(FIRST_FILE)?;
    }
    Ok(())
}
