//! The steps of a dump while the device's lock is held. The disc's lock is held for each call of the disc alone.
ghost use Rattle.std.specs.Prelude.{◌≡◌, IfErr, IfOk, Some, None, option_map};
ghost use Rattle.std.specs.Option.{MatchOption};
ghost use Rattle.chronicle.specs.Seats.{Knows};
ghost use Rattle.node_machine.specs.Dump.{offered_label};
ghost use Rattle.node_machine.specs.Node.{node};
ghost use Rattle.node_machine.specs.Parts.Fact.{Over};
ghost use Rattle.disc_process.specs.Disc.{AreTrails};
ghost use Rattle.disc_lock.specs.Locks.{number_of};
ghost use Rattle.disc_lock.specs.Tokens.{MayGive};
ghost use Rattle.disc_lock.specs.Seats.{HasSeenMore};
ghost use Rattle.online_dump.specs.AtDisc.{HasOnlySeen};
ghost use Rattle.online_dump.specs.Dumped.{HasBegunFor, HasSeenEnd, HasSeenRaise, IsStartRefusal, WasFit, WasSpent};
ghost use Rattle.online_dump.specs.Dumper.{least_rest};
ghost use Rattle.online_dump.specs.Dumping.{MayBegin};

use crate::at_disc::{meet_all, raise_at, start_at};
use crate::copying::Copying;
use crate::dumper::DumperState;
use crate::refused::DumpRefused;
use crate::spending::spent_at;
use audit_writer::{AuditWriter, DeviceRun};
use chronicle::Seat;
use disc_lock::{ActsOf, DiscProcess};
use disk_model::Disk;
use node_machine::NodeMachine;
use std::sync::Wait;
use std::sync::ledger::Share;
use tmf_model::Transid;

/// Ends a dump at its disc that is over at the device. The caller's seat has then seen that.
pub(crate) fn raise_in<'a, R: Wait, D: Disk, J: DeviceRun<D>>(
    rt: &R,
    disc: &DiscProcess<'a, D, J>,
    trails: &[AuditWriter<'a, D, J>],
    state: &mut DumperState<'a, D, J>,
    seat: &mut Seat<NodeMachine, J>,
    number: u64,
)
    requires number { state.old.seat.part.number ≡ number_of disc.now }
    requires trails { AreTrails (J.found).config trails.now }
    requires over { Knows node J.opening state.old.seat.sight (Over state.old.seat.part.number number (least_rest state.old)) }
    ensures raised { HasSeenRaise (number_of disc.now) number seat.new }
    ensures state { HasOnlySeen J.opening J.found state.old state.new }
    ensures seat { HasSeenMore J.opening seat.old seat.new }
{
    let mut at = disc.lock(rt);
    raise_at(rt, &mut at, state, trails, number);
    at.lawful();
    at.meet(seat);
}

/// Gives up the dump of this number, which is being copied, and ends it at its disc. The caller's seat has then seen that.
pub(crate) fn give_up_in<'a, R: Wait, D: Disk, J: DeviceRun<D>>(
    rt: &R,
    disc: &DiscProcess<'a, D, J>,
    trails: &[AuditWriter<'a, D, J>],
    state: &mut DumperState<'a, D, J>,
    seat: &mut Seat<NodeMachine, J>,
    number: u64,
)
    requires number { state.old.seat.part.number ≡ number_of disc.now }
    requires trails { AreTrails (J.found).config trails.now }
    requires current { option_map (λ c. c.number) state.old.current ≡ Some number }
    ensures ended { HasSeenEnd (number_of disc.now) number seat.new }
    ensures number { state.new.seat.part.number ≡ state.old.seat.part.number }
    ensures seat { HasSeenMore J.opening seat.old seat.new }
{
    state.give_up();
    state.meet(seat);
    raise_in(rt, disc, trails, state, seat, number);
}

/// The first that is spent, the disc or then its dump device, if one is.
pub(crate) fn spent_in<'a, R: Wait, D: Disk, J: DeviceRun<D>>(
    rt: &R,
    disc: &DiscProcess<'a, D, J>,
    state: &mut DumperState<'a, D, J>,
    seat: &mut Seat<NodeMachine, J>,
) -> Option<u32>
    requires number { state.old.seat.part.number ≡ number_of disc.now }
    ensures spent { MatchOption result (WasFit D.Disk J.opening J.found (number_of disc.now) seat.old seat.new) (WasSpent D.Disk J.opening J.found (number_of disc.now) seat.old seat.new) }
    ensures state { HasOnlySeen J.opening J.found state.old state.new }
    ensures seat { HasSeenMore J.opening seat.old seat.new }
{
    let mut at = disc.lock(rt);
    meet_all(&mut at, state, seat);
    at.lawful();
    state.lawful();
    spent_at(&at, state)
}

/// Starts the next dump at the disc, which may then begin at the device.
pub(crate) fn start_in<'a, R: Wait, D: Disk, J: DeviceRun<D>>(
    rt: &R,
    disc: &DiscProcess<'a, D, J>,
    state: &mut DumperState<'a, D, J>,
    seat: &mut Seat<NodeMachine, J>,
    item: Transid,
    share: &mut Share<ActsOf<J>>,
) -> Result<Copying, DumpRefused>
    requires token { MayGive share.old }
    requires number { state.old.seat.part.number ≡ number_of disc.now }
    requires certain { offered_label state.old.seat.part.events ≡ None }
    ensures started { IfOk result (λ c. HasBegunFor (number_of disc.now) item c.number c.start seat.old seat.new share.old share.new × MayBegin (Knows node J.opening state.new.seat.sight) state.new.seat.part c.number c.start) }
    ensures refused { IfErr result (IsStartRefusal D.Disk J.opening J.found (number_of disc.now) item seat.old seat.new share.old share.new) }
    ensures state { HasOnlySeen J.opening J.found state.old state.new }
    ensures seat { HasSeenMore J.opening seat.old seat.new }
{
    let mut at = disc.lock(rt);
    meet_all(&mut at, state, seat);
    at.lawful();
    state.lawful();
    match spent_at(&at, state) {
        Some(part) => Err(DumpRefused::Spent(part)),
        None => match start_at(&mut at, state, seat, item, share) {
            Some(copying) => Ok(copying),
            None => Err(DumpRefused::Dumping),
        },
    }
}
