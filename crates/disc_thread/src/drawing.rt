//! One turn at a disc whose lock is held.
ghost use Rattle.std.specs.Prelude.{◌≡◌, ◌≤◌, IfErr, IfOk};
ghost use Rattle.disc_process.specs.Disc.{AreTrails};
ghost use Rattle.disc_process.specs.Draw.{SameWork};
ghost use Rattle.disc_process.specs.Later.{IsLaterDisc};
ghost use Rattle.disc_lock.specs.Locks.{held_disc};
ghost use Rattle.disc_lock.specs.Seats.{HasSeenMore};
ghost use Rattle.disc_thread.specs.Turns.{HasTakenTurn, IsStopped};

use crate::limits::{is_spent, writer_of};
use audit_writer::{AuditWriter, DeviceRun, FlushRefused};
use chronicle::Seat;
use disc_lock::DiscGuard;
use disk_model::Disk;
use node_machine::{By, NodeMachine};
use std::sync::Wait;

/// Why a disc's thread draws no further block.
#[derive(Clone, Copy, Debug, PartialEq, Eq)]
pub enum Stopped {
    /// The disc, or its trail, has had as many events as the node allows.
    Spent,
    /// A draw was refused.
    Refused(FlushRefused),
}

/// Draws the first block that is to be drawn, where neither the disc, of the volume with this number, nor its trail has had as many events as the node allows. It
/// answers whether there was one.
pub fn draw_first<'g, 'a, R: Wait, D: Disk, J: DeviceRun<D>>(
    rt: &R,
    disc: &mut DiscGuard<'g, 'a, D, J>,
    number: u8,
    trails: &[AuditWriter<'a, D, J>],
    note: &mut Seat<NodeMachine, J>,
) -> Result<bool, Stopped>
    requires number { number ≡ (held_disc disc.old).part.number }
    requires trails { AreTrails (held_disc disc.old).part.config trails.now }
    ensures turn { IfOk result (HasTakenTurn (held_disc disc.old) (held_disc disc.new) note.new.seen) }
    ensures stopped { IfErr result (IsStopped D.faults (held_disc disc.old) (held_disc disc.new) note.new.seen) }
    ensures work { SameWork (held_disc disc.old).part (held_disc disc.new).part }
    ensures disc { IsLaterDisc J.opening (held_disc disc.old) (held_disc disc.new) }
    ensures note { HasSeenMore J.opening note.old note.new }
    ensures later { D.faults (held_disc disc.old).blocks.device ≤ D.faults (held_disc disc.new).blocks.device }
{
    disc.lawful();
    note.lawful();
    let Some(block) = disc.dirty() else {
        return Ok(false);
    };
    let writer = writer_of(trails, disc.config(), number);
    if is_spent(rt, disc, writer, note) {
        return Err(Stopped::Spent);
    }
    match disc.draw(rt, By::Disc(number), trails, block) {
        Ok(()) => Ok(true),
        Err(refused) => Err(Stopped::Refused(refused)),
    }
}
