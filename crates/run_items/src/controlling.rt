//! The control point of a volume, as an item of a worker.
ghost use Rattle.std.specs.Prelude.{◌≡◌, IsSome};
ghost use Rattle.node_machine.specs.Opening.{found_volume};
ghost use Rattle.audit_writer.specs.Writer.{IsWriter};
ghost use Rattle.disc_lock.specs.Tokens.{MayGive};
ghost use Rattle.disc_lock.specs.Seats.{HasSeenMore};
ghost use Rattle.run_items.specs.Controlled.{HasDoneControl, IsControlAnswered, told_by, told_by_refusal};
ghost use Rattle.run_outcomes.specs.Reach.{reach_at};
ghost use Rattle.run_items.specs.Item.{HasGivenOneAtMost};
ghost use Rattle.run_items.specs.Volumes.{AreVolumes};

use crate::finding::disc_of;
use crate::volumes::Volumes;
use audit_writer::DeviceRun;
use chronicle::Seat;
use control_point::{ControlRefused, control};
use disc_lock::ActsOf;
use disk_model::Disk;
use node_machine::NodeMachine;
use run_outcomes::{Told, knowing_law};
use std::sync::Wait;
use std::sync::ledger::Share;
use tmf_model::Transid;

/// What is to be told where a control point was refused.
fn told_by_refusal(refused: ControlRefused) -> Told
    ensures { result ≡ told_by_refusal refused }
{
    match refused {
        ControlRefused::Spent(part) => Told::Spent { part },
        ControlRefused::Failed(device) => Told::Failed { device },
        ControlRefused::NoMemory => Told::Memory,
    }
}

/// What a control point of a volume is told as.
fn told_by(volume: u8, answer: Result<u64, ControlRefused>) -> Told
    ensures { result ≡ told_by volume answer }
{
    match answer {
        Ok(low) => Told::Controlled { volume, low },
        Err(refused) => told_by_refusal(refused),
    }
}

/// Makes the control point of a volume for an item of a worker, and answers what is to be told of it.
pub fn control_item<'s, 'a, R: Wait, D: Disk, J: DeviceRun<D>>(
    rt: &R,
    volumes: &Volumes<'s, 'a, D, J>,
    volume: u8,
    item: Transid,
    seat: &mut Seat<NodeMachine, J>,
    share: &mut Share<ActsOf<J>>,
) -> Told
    requires volumes { AreVolumes J.found volumes.now.trails.now volumes.now.discs.now volumes.now.dumpers.now }
    requires volume { IsSome (found_volume J.found volume) }
    requires token { MayGive share.old }
    ensures done { HasDoneControl (J.found).config volume item (reach_at seat.old share.old) (reach_at seat.new share.new) result }
    ensures answered { IsControlAnswered D.Disk (IsWriter D.Disk J.opening J.found J.rules J.faults J.premise J.devices) J.opening (J.found).config volume item seat.old seat.new result }
    ensures seat { HasSeenMore J.opening seat.old seat.new }
    ensures given { HasGivenOneAtMost share.old share.new }
{
    knowing_law();
    let answer = control(
        rt,
        disc_of(volumes.discs, volume),
        volumes.trails,
        seat,
        item,
        share,
    );
    told_by(volume, answer)
}
