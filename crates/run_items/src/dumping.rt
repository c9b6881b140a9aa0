//! The dump of a volume, as an item of a worker.
ghost use Rattle.std.specs.Prelude.{◌≡◌, IsSome};
ghost use Rattle.node_machine.specs.Opening.{found_volume};
ghost use Rattle.disc_lock.specs.Tokens.{MayGive};
ghost use Rattle.disc_lock.specs.Seats.{HasSeenMore};
ghost use Rattle.run_items.specs.Dumped.{HasDoneDump, IsDumpAnswered, told_by, told_by_refusal};
ghost use Rattle.run_outcomes.specs.Reach.{reach_at};
ghost use Rattle.run_items.specs.Item.{HasGivenOneAtMost};
ghost use Rattle.run_items.specs.Volumes.{AreVolumes};

use crate::finding::{disc_of, dumper_of};
use crate::volumes::Volumes;
use audit_writer::DeviceRun;
use chronicle::Seat;
use disc_lock::ActsOf;
use disk_model::Disk;
use node_machine::NodeMachine;
use online_dump::{DumpRefused, dump};
use run_outcomes::{Told, knowing_law};
use std::sync::Wait;
use std::sync::ledger::Share;
use tmf_model::Transid;

/// What is to be told where a dump of a volume was refused.
fn told_by_refusal(volume: u8, refused: DumpRefused) -> Told
    ensures { result ≡ told_by_refusal volume refused }
{
    match refused {
        DumpRefused::Spent(part) => Told::Spent { part },
        DumpRefused::Dumping => Told::Dumping { volume },
        DumpRefused::Failed(device) => Told::Failed { device },
        DumpRefused::Damaged(device, damage) => Told::Damaged { device, damage },
        DumpRefused::NoMemory => Told::Memory,
    }
}

/// What a dump of a volume is told as.
fn told_by(volume: u8, answer: Result<u64, DumpRefused>) -> Told
    ensures { result ≡ told_by volume answer }
{
    match answer {
        Ok(start) => Told::Dumped { volume, start },
        Err(refused) => told_by_refusal(volume, refused),
    }
}

/// Dumps a volume for an item of a worker, while others go on writing, and answers what is to be told of it.
pub fn dump_item<'s, 'a, R: Wait, D: Disk, J: DeviceRun<D>>(
    rt: &R,
    volumes: &Volumes<'s, 'a, D, J>,
    volume: u8,
    item: Transid,
    seat: &mut Seat<NodeMachine, J>,
    share: &mut Share<ActsOf<J>>,
) -> Told
    requires volumes { AreVolumes J.found volumes.now.trails.now volumes.now.discs.now volumes.now.dumpers.now }
    requires volume { IsSome (found_volume J.found volume) }
    requires token { MayGive share.old }
    ensures done { HasDoneDump D.Disk J.devices J.found volume item (reach_at seat.old share.old) (reach_at seat.new share.new) result }
    ensures answered { IsDumpAnswered D.Disk J.devices J.opening J.found volume item seat.old seat.new share.old share.new result }
    ensures seat { HasSeenMore J.opening seat.old seat.new }
    ensures given { HasGivenOneAtMost share.old share.new }
{
    knowing_law();
    let disc = disc_of(volumes.discs, volume);
    let dumper = dumper_of(volumes.dumpers, volume);
    let answer = dump(rt, disc, volumes.trails, dumper, seat, item, share);
    told_by(volume, answer)
}
