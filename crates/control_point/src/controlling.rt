//! The control point of a volume.
ghost use Rattle.std.specs.Prelude.{◌≡◌, IfErr, IfOk};
ghost use Rattle.node_machine.specs.declared.event.By.TheVariants.{Attempt};
ghost use Rattle.audit_writer.specs.Writer.{IsWriter};
ghost use Rattle.disc_process.specs.Disc.{AreTrails};
ghost use Rattle.disc_lock.specs.Locks.{number_of};
ghost use Rattle.disc_lock.specs.Tokens.{MayGive};
ghost use Rattle.disc_lock.specs.Seats.{HasSeenMore};
ghost use Rattle.control_point.specs.Control.{HasControlled, IsControlRefusal};
ghost use Rattle.control_point.specs.Given.{HasGivenToControl};

use crate::lowering::moved;
use crate::purging::purge_trail;
use crate::refused::{ControlRefused, refused_from};
use crate::spending::{spent, writer_of};
use audit_writer::{AuditWriter, DeviceRun};
use chronicle::Seat;
use disc_lock::{ActsOf, DiscProcess};
use disk_model::Disk;
use node_machine::{By, NodeMachine};
use std::sync::Wait;
use std::sync::ledger::Share;
use tmf_model::Transid;

/// Makes the greatest position below which nothing is unfinished the low position of a volume, removes the files of its trail that no disc needs, and answers
/// the position. Its device calls are made for an item of a script. The caller's seat has then seen the move, which it had not seen before. The move takes one of the caller's tokens.
pub fn control<'a, R: Wait, D: Disk, J: DeviceRun<D>>(
    rt: &R,
    disc: &DiscProcess<'a, D, J>,
    trails: &[AuditWriter<'a, D, J>],
    seat: &mut Seat<NodeMachine, J>,
    item: Transid,
    share: &mut Share<ActsOf<J>>,
) -> Result<u64, ControlRefused>
    requires trails { AreTrails (J.found).config trails.now }
    requires token { MayGive share.old }
    ensures controlled { IfOk result (λ low. HasControlled D.Disk (IsWriter D.Disk J.opening J.found J.rules J.faults J.premise J.devices) J.opening (J.found).config (number_of disc.now) (Attempt item) low seat.old seat.new) }
    ensures refused { IfErr result (IsControlRefusal D.Disk J.opening (J.found).config (number_of disc.now) (Attempt item) seat.old seat.new) }
    ensures seat { HasSeenMore J.opening seat.old seat.new }
    ensures given { HasGivenToControl (J.found).config (number_of disc.now) item seat.old seat.new result share.old share.new }
{
    let writer = writer_of(rt, disc, trails);
    match spent(rt, disc, writer, seat) {
        Some(part) => return Err(ControlRefused::Spent(part)),
        None => {}
    }
    let (low, floor) = match moved(rt, disc, item, trails, seat, share) {
        Ok(Some(position)) => position,
        Ok(None) => return Err(ControlRefused::Spent(15 + u32::from(disc.number()))),
        Err(refused) => return Err(refused_from(refused)),
    };
    match purge_trail(rt, writer, seat, (disc.number(), floor), By::Attempt(item)) {
        Ok(()) => Ok(low),
        Err(_) => Err(ControlRefused::Failed(writer.number())),
    }
}
