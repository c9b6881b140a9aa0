//! A dump device over a disc whose lock is held.
ghost use Rattle.std.specs.Prelude.{◌≡◌, ◌<◌, ◌≤◌, IfErr, IfNone, IfOk, IfSome, IsSome, OnOk, length, option_map, true};
ghost use Rattle.std.specs.Option.{MatchOption};
ghost use Rattle.chronicle.specs.Seats.{Knows, own_events};
ghost use Rattle.keyed_file.specs.Dump.{blocks_in_all};
ghost use Rattle.keyed_file.specs.declared.block.TheConstants.{BLOCK_BYTES};
ghost use Rattle.node_machine.specs.Dump.{offered_label};
ghost use Rattle.node_machine.specs.Node.{node};
ghost use Rattle.node_machine.specs.Parts.Fact.{Over};
ghost use Rattle.node_machine.specs.Trail.{trail_of};
ghost use Rattle.audit_writer.specs.Locked.{HasFailed as HasTrailFailed};
ghost use Rattle.disc_process.specs.Disc.{AreTrails};
ghost use Rattle.disc_process.specs.Dumping.{HasHeard, IsDumping};
ghost use Rattle.disc_process.specs.Later.{IsLaterDisc};
ghost use Rattle.disc_lock.specs.Locks.{held_disc};
ghost use Rattle.disc_lock.specs.Tokens.{HasGiven, MayGive};
ghost use Rattle.disc_lock.specs.Seats.{HasSeenMore};
ghost use Rattle.online_dump.specs.AtDisc.{HasEnded, HasOnlySeen, HaveMet, IsCopyAnswer, IsCopyRefusal, MayBeginHere};
ghost use Rattle.online_dump.specs.Copies.{files_of};
ghost use Rattle.online_dump.specs.Dumper.{least_rest, open_dump};
ghost use Rattle.online_dump.specs.Dumping.{MaySealAll};

use crate::copying::Copying;
use crate::dumper::DumperState;
use crate::placed::block_at;
use audit_writer::{AuditWriter, DeviceRun, FlushRefused};
use chronicle::Seat;
use disc_lock::{ActsOf, DiscGuard};
use disc_process::WriteRefused;
use disk_model::Disk;
use node_machine::{By, NodeMachine};
use std::sync::Wait;
use std::sync::ledger::Share;
use tmf_model::Transid;

/// Lets a disc and the dump device of its volume tell each other what they have seen. Neither has an event.
pub(crate) fn meet_at<'g, 'a, D: Disk, J: DeviceRun<D>>(
    disc: &mut DiscGuard<'g, 'a, D, J>,
    state: &mut DumperState<'a, D, J>,
)
    ensures disc { HaveMet (held_disc disc.old) (held_disc disc.new) state.new }
    ensures later { IsLaterDisc J.opening (held_disc disc.old) (held_disc disc.new) }
    ensures state { HasOnlySeen J.opening J.found state.old state.new }
{
    let mut note = state.note();
    disc.meet(&mut note);
    state.meet(&mut note);
}

/// The same of a disc, the dump device of its volume and a caller.
pub(crate) fn meet_all<'g, 'a, D: Disk, J: DeviceRun<D>>(
    disc: &mut DiscGuard<'g, 'a, D, J>,
    state: &mut DumperState<'a, D, J>,
    seat: &mut Seat<NodeMachine, J>,
)
    ensures disc { HaveMet (held_disc disc.old) (held_disc disc.new) state.new }
    ensures later { IsLaterDisc J.opening (held_disc disc.old) (held_disc disc.new) }
    ensures state { HasOnlySeen J.opening J.found state.old state.new }
    ensures same { seat.new.seen ≡ (held_disc disc.new).seat.seen }
    ensures seat { HasSeenMore J.opening seat.old seat.new }
{
    state.meet(seat);
    disc.meet(seat);
    state.meet(seat);
}

/// Starts the next dump of a volume at its disc, for an item of a script. It may then begin at the device. Where a dump is under way at the disc, this is told there by a Turn.
/// Either takes one of the caller's tokens.
pub fn start_at<'g, 'a, D: Disk, J: DeviceRun<D>>(
    disc: &mut DiscGuard<'g, 'a, D, J>,
    state: &mut DumperState<'a, D, J>,
    caller: &mut Seat<NodeMachine, J>,
    item: Transid,
    share: &mut Share<ActsOf<J>>,
) -> Option<Copying>
    requires token { MayGive share.old }
    requires number { (held_disc disc.old).part.number ≡ state.old.seat.part.number }
    requires steps { length (own_events (held_disc disc.old).seat) < (held_disc disc.old).part.config.steps }
    requires certain { offered_label state.old.seat.part.events ≡ None }
    ensures started { MatchOption result (IsDumping item (held_disc disc.old) (held_disc disc.new)) (MayBeginHere J.opening item (held_disc disc.old) (held_disc disc.new) state.new) }
    ensures disc { IsLaterDisc J.opening (held_disc disc.old) (held_disc disc.new) }
    ensures blocks { (held_disc disc.new).blocks ≡ (held_disc disc.old).blocks }
    ensures state { HasOnlySeen J.opening J.found state.old state.new }
    ensures caller { HasHeard J.opening (held_disc disc.new) caller.old caller.new }
    ensures given { HasGiven true share.old share.new }
{
    meet_at(disc, state);
    state.lawful();
    disc.lawful();
    let mut note = state.note();
    let started = disc.start_dump(&mut note, caller, item, share);
    state.meet(&mut note);
    match started {
        Some(begun) => Some(Copying {
            number: begun.0,
            start: begun.1,
        }),
        None => None,
    }
}

/// Copies the next block of the dump that is being copied, as it stands at the disc, and answers whether one was left. After a refusal the dump is to be given up.
pub fn copy_next<'g, 'a, R: Wait, D: Disk, J: DeviceRun<D>>(
    rt: &R,
    disc: &mut DiscGuard<'g, 'a, D, J>,
    state: &mut DumperState<'a, D, J>,
    trails: &[AuditWriter<'a, D, J>],
    item: Transid,
    room: &mut [u8],
) -> Result<bool, WriteRefused>
    requires number { (held_disc disc.old).part.number ≡ state.old.seat.part.number }
    requires trails { AreTrails (held_disc disc.old).part.config trails.now }
    requires open { IsSome (open_dump state.old) }
    requires room { length room.old ≡ BLOCK_BYTES }
    ensures copied { IfOk result (IsCopyAnswer J.opening J.found (held_disc disc.new) state.old state.new) }
    ensures refused { IfErr result (IsCopyRefusal D.Disk J.opening J.found item (held_disc disc.old) (held_disc disc.new) state.old state.new) }
    ensures disc { IsLaterDisc J.opening (held_disc disc.old) (held_disc disc.new) }
    ensures room { length room.new ≡ BLOCK_BYTES }
    ensures later { D.faults (held_disc disc.old).blocks.device ≤ D.faults (held_disc disc.new).blocks.device }
{
    state.lawful();
    disc.lawful();
    let Some(place) = state.filled() else {
        unreachable!()
    };
    let volume = state.volume();
    let Some(block) = block_at(disc.config(), volume, place) else {
        return Ok(false);
    };
    meet_at(disc, state);
    state.lawful();
    disc.lawful();
    let mut note = state.note();
    match disc.copy_block(rt, item, &mut note, trails, block, room) {
        Ok(position) => {
            disc.lawful();
            state.meet(&mut note);
            match state.put(By::Attempt(item), block, position, room) {
                Ok(()) => Ok(true),
                Err(_) => Err(WriteRefused::Failed(state.device())),
            }
        }
        Err(refused) => Err(refused),
    }
}

/// Lands all audit of the disc behind the copies of a dump whose blocks are all copied. It may then be sealed.
pub fn land_at<'g, 'a, R: Wait, D: Disk, J: DeviceRun<D>>(
    rt: &R,
    disc: &mut DiscGuard<'g, 'a, D, J>,
    state: &mut DumperState<'a, D, J>,
    trails: &[AuditWriter<'a, D, J>],
    by: By,
) -> Result<(), FlushRefused>
    requires number { (held_disc disc.old).part.number ≡ state.old.seat.part.number }
    requires trails { AreTrails (held_disc disc.old).part.config trails.now }
    requires open { IsSome (open_dump state.old) }
    requires all { state.old.file.filled ≡ Some (blocks_in_all (files_of state.old.seat.part)) }
    ensures landed { OnOk result (MatchOption (open_dump state.new) ⊥ (MaySealAll (Knows node J.opening state.new.seat.sight) state.new.seat.part state.new.file.filled)) }
    ensures refused { IfErr result (HasTrailFailed (trail_of (held_disc disc.old).part.config (held_disc disc.old).part.number) by (held_disc disc.old).seat (held_disc disc.new).seat) }
    ensures disc { IsLaterDisc J.opening (held_disc disc.old) (held_disc disc.new) }
    ensures still { own_events (held_disc disc.new).seat ≡ own_events (held_disc disc.old).seat }
    ensures state { HasOnlySeen J.opening J.found state.old state.new }
{
    meet_at(disc, state);
    state.lawful();
    disc.lawful();
    let mut note = state.note();
    let landed = disc.flush(rt, by, &mut note, trails);
    state.meet(&mut note);
    match landed {
        Ok(_) => Ok(()),
        Err(refused) => Err(refused),
    }
}

/// Ends a dump at its disc that is over at the device: the disc then counts on the dump that stands there, or else on the one whose label is in doubt. The device has seen that.
pub fn raise_at<'g, 'a, R: Wait, D: Disk, J: DeviceRun<D>>(
    rt: &R,
    disc: &mut DiscGuard<'g, 'a, D, J>,
    state: &mut DumperState<'a, D, J>,
    trails: &[AuditWriter<'a, D, J>],
    number: u64,
)
    requires number { (held_disc disc.old).part.number ≡ state.old.seat.part.number }
    requires trails { AreTrails (held_disc disc.old).part.config trails.now }
    requires over { Knows node J.opening state.old.seat.sight (Over state.old.seat.part.number number (least_rest state.old)) }
    ensures ended { HasEnded number (least_rest state.old) (held_disc disc.old) (held_disc disc.new) }
    ensures met { state.new.seat.sight.seen ≡ (held_disc disc.new).seat.seen }
    ensures disc { IsLaterDisc J.opening (held_disc disc.old) (held_disc disc.new) }
    ensures blocks { (held_disc disc.new).blocks ≡ (held_disc disc.old).blocks }
    ensures state { HasOnlySeen J.opening J.found state.old state.new }
{
    let rest = state.least_start();
    meet_at(disc, state);
    state.lawful();
    disc.lawful();
    let mut heard = state.note();
    disc.raise(rt, &mut heard, trails, number, rest);
    state.meet(&mut heard);
}
