//! The purge of a trail, in one hold of its writer's lock.
ghost use Rattle.std.specs.Prelude.{◌≤◌, OnErr, OnOk};
ghost use Rattle.chronicle.specs.Seats.{HasNewlySeen, Knows};
ghost use Rattle.node_machine.specs.declared.event.Event.TheVariants.{OfTrail};
ghost use Rattle.node_machine.specs.declared.event.TrailEvent.TheVariants as trail_did;
ghost use Rattle.node_machine.specs.Node.{node};
ghost use Rattle.node_machine.specs.Opening.{trail_part};
ghost use Rattle.node_machine.specs.Parts.Fact.{Floor};
ghost use Rattle.audit_writer.specs.Writer.{IsWriter};
ghost use Rattle.audit_writer.specs.Writers.{number_of as trail_number};
ghost use Rattle.disc_lock.specs.Seats.{HasSeenMore};
ghost use Rattle.control_point.specs.Purged.{WasPurged};

use audit_writer::{AuditWriter, DeviceRun};
use chronicle::Seat;
use disk_model::{Disk, DiskFault};
use node_machine::{By, NodeMachine};
use std::sync::Wait;

/// Removes the files of a trail before the present one that no disc needs. Its writer is told first below which floor the disc with this number needs none.
pub(crate) fn purge_trail<'a, R: Wait, D: Disk, J: DeviceRun<D>>(
    rt: &R,
    writer: &AuditWriter<'a, D, J>,
    caller: &mut Seat<NodeMachine, J>,
    floor: (u8, u64),
    by: By,
) -> Result<(), DiskFault>
    requires small { floor.0 ≤ 8 }
    requires known { Knows node J.opening caller.old (Floor floor.0 floor.1) }
    ensures purged { OnOk result (WasPurged D.Disk (IsWriter D.Disk J.opening J.found J.rules J.faults J.premise J.devices) (trail_number writer.now) floor.0 floor.1) }
    ensures failed { OnErr result (HasNewlySeen (trail_part (trail_number writer.now)) (OfTrail (trail_did.Failed by)) caller.old caller.new) }
    ensures seat { HasSeenMore J.opening caller.old caller.new }
{
    let mut held = writer.lock(rt);
    let (number, bound) = floor;
    held.tell(caller, number, bound);
    held.lawful();
    held.purge(caller, by)
}
