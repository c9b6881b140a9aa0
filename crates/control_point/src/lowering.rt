//! The move of a volume's low position.
ghost use Rattle.std.specs.Prelude.{◌≡◌, IfErr, IfOk, IfSome, MatchOption};
ghost use Rattle.chronicle.specs.Seats.{Knows};
ghost use Rattle.node_machine.specs.declared.event.By.TheVariants.{Attempt};
ghost use Rattle.node_machine.specs.Node.{node};
ghost use Rattle.node_machine.specs.Parts.Fact.{Floor};
ghost use Rattle.disc_process.specs.Disc.{AreTrails};
ghost use Rattle.disc_process.specs.Later.{IsLaterDisc};
ghost use Rattle.disc_lock.specs.Locks.{held_disc, number_of};
ghost use Rattle.disc_lock.specs.Tokens.{MayGive};
ghost use Rattle.disc_lock.specs.Seats.{HasSeenMore};
ghost use Rattle.control_point.specs.Control.{HasMoved, IsDiscRefusal, IsDiscSpent, IsMove, IsReady, IsSpentHere, WasSo, with_floor};
ghost use Rattle.control_point.specs.Given.{HasGivenToMove};

use crate::drawing::{draw_all, draw_some};
use audit_writer::{AuditWriter, DeviceRun, FlushRefused};
use chronicle::Seat;
use disc_lock::{ActsOf, DiscGuard, DiscProcess};
use disk_model::Disk;
use node_machine::{By, NodeMachine};
use std::sync::Wait;
use std::sync::ledger::Share;
use tmf_model::Transid;

/// For so many holds of the lock blocks are drawn ahead at most.
const HOLDS: u32 = 256;

/// Draws some blocks in one hold of the lock, and answers whether none was left.
fn draw_in_one_hold<'a, R: Wait, D: Disk, J: DeviceRun<D>>(
    rt: &R,
    disc: &DiscProcess<'a, D, J>,
    by: By,
    trails: &[AuditWriter<'a, D, J>],
    seat: &mut Seat<NodeMachine, J>,
) -> Result<bool, FlushRefused>
    requires { AreTrails (J.found).config trails.now }
    ensures refused { IfErr result (IsDiscRefusal (J.found).config (number_of disc.now) by seat.old seat.new) }
    ensures seat { HasSeenMore J.opening seat.old seat.new }
{
    let mut held = disc.lock(rt);
    held.meet(seat);
    let answer = draw_some(rt, &mut held, by, trails);
    held.meet(seat);
    answer
}

/// Draws blocks hold by hold, so that others may go on in between.
fn draw_ahead<'a, R: Wait, D: Disk, J: DeviceRun<D>>(
    rt: &R,
    disc: &DiscProcess<'a, D, J>,
    by: By,
    trails: &[AuditWriter<'a, D, J>],
    seat: &mut Seat<NodeMachine, J>,
) -> Result<(), FlushRefused>
    requires { AreTrails (J.found).config trails.now }
    ensures refused { IfErr result (IsDiscRefusal (J.found).config (number_of disc.now) by seat.old seat.new) }
    ensures seat { HasSeenMore J.opening seat.old seat.new }
{
    seat.lawful();
    for _ in 0..HOLDS {
        if draw_in_one_hold(rt, disc, by, trails, seat)? {
            return Ok(());
        }
    }
    Ok(())
}

/// Draws all that is to be drawn, lands the audit, and answers the greatest position below which nothing is unfinished.
fn quiet_low<'g, 'a, R: Wait, D: Disk, J: DeviceRun<D>>(
    rt: &R,
    disc: &mut DiscGuard<'g, 'a, D, J>,
    by: By,
    trails: &[AuditWriter<'a, D, J>],
    caller: &mut Seat<NodeMachine, J>,
) -> Result<u64, FlushRefused>
    requires { AreTrails (held_disc disc.old).part.config trails.now }
    ensures ready { IfOk result (λ low. IsReady J.opening (held_disc disc.new) low) }
    ensures refused { IfErr result (IsDiscRefusal (held_disc disc.old).part.config (held_disc disc.old).part.number by (held_disc disc.old).seat (held_disc disc.new).seat) }
    ensures disc { IsLaterDisc J.opening (held_disc disc.old) (held_disc disc.new) }
    ensures caller { HasSeenMore J.opening caller.old caller.new }
{
    caller.lawful();
    disc.lawful();
    draw_all(rt, disc, by, trails)?;
    disc.flush(rt, by, caller, trails)?;
    Ok(disc.quiet())
}

/// Makes that the volume's low position, and answers it; or none, where the disc has had as many events as the node allows.
fn move_low<'g, 'a, R: Wait, D: Disk, J: DeviceRun<D>>(
    rt: &R,
    disc: &mut DiscGuard<'g, 'a, D, J>,
    item: Transid,
    trails: &[AuditWriter<'a, D, J>],
    caller: &mut Seat<NodeMachine, J>,
    share: &mut Share<ActsOf<J>>,
) -> Result<Option<u64>, FlushRefused>
    requires trails { AreTrails (held_disc disc.old).part.config trails.now }
    requires token { MayGive share.old }
    ensures moved { IfOk result (λ o. MatchOption o (IsSpentHere D.Disk J.opening (held_disc disc.new)) (λ low. IsMove D.Disk J.opening (Attempt item) low (held_disc disc.old) (held_disc disc.new))) }
    ensures refused { IfErr result (IsDiscRefusal (held_disc disc.old).part.config (held_disc disc.old).part.number (Attempt item) (held_disc disc.old).seat (held_disc disc.new).seat) }
    ensures disc { IsLaterDisc J.opening (held_disc disc.old) (held_disc disc.new) }
    ensures caller { HasSeenMore J.opening caller.old caller.new }
    ensures given { HasGivenToMove (held_disc disc.old).part.config (held_disc disc.old).part.number item (held_disc disc.old).seat (held_disc disc.new).seat result share.old share.new }
{
    let low = quiet_low(rt, disc, By::Attempt(item), trails, caller)?;
    disc.lawful();
    if disc.events() >= disc.config().steps {
        return Ok(None);
    }
    disc.lower(rt, item, trails, low, share)?;
    Ok(Some(low))
}

/// The answer of a move, with the floor behind it.
fn with_floor(
    answer: Result<Option<u64>, FlushRefused>,
    floor: u64,
) -> Result<Option<(u64, u64)>, FlushRefused>
    ensures { result ≡ with_floor floor answer }
{
    match answer {
        Ok(Some(low)) => Ok(Some((low, floor))),
        Ok(None) => Ok(None),
        Err(refused) => Err(refused),
    }
}

/// The same in one hold of the lock. With the position it answers the greatest floor of the disc, which the caller's seat then knows.
fn move_in_one_hold<'a, R: Wait, D: Disk, J: DeviceRun<D>>(
    rt: &R,
    disc: &DiscProcess<'a, D, J>,
    item: Transid,
    trails: &[AuditWriter<'a, D, J>],
    seat: &mut Seat<NodeMachine, J>,
    share: &mut Share<ActsOf<J>>,
) -> Result<Option<(u64, u64)>, FlushRefused>
    requires trails { AreTrails (J.found).config trails.now }
    requires token { MayGive share.old }
    ensures moved { IfOk result (λ o. MatchOption o
        (WasSo D.Disk J.opening (J.found).config (number_of disc.now) seat.old seat.new (IsDiscSpent (J.found).config (number_of disc.now)))
        (λ x. HasMoved D.Disk J.opening (J.found).config (number_of disc.now) (Attempt item) x.0 x.1 seat.old seat.new)) }
    ensures floor { IfOk result (λ o. IfSome o (λ x. Knows node J.opening seat.new (Floor (number_of disc.now) x.1))) }
    ensures refused { IfErr result (IsDiscRefusal (J.found).config (number_of disc.now) (Attempt item) seat.old seat.new) }
    ensures seat { HasSeenMore J.opening seat.old seat.new }
    ensures given { HasGivenToMove (J.found).config (number_of disc.now) item seat.old seat.new result share.old share.new }
{
    let mut held = disc.lock(rt);
    held.meet(seat);
    let answer = move_low(rt, &mut held, item, trails, seat, share);
    held.lawful();
    let floor = held.floor();
    held.meet(seat);
    with_floor(answer, floor)
}

/// Moves the low position of a volume, behind blocks that were drawn ahead.
pub(crate) fn moved<'a, R: Wait, D: Disk, J: DeviceRun<D>>(
    rt: &R,
    disc: &DiscProcess<'a, D, J>,
    item: Transid,
    trails: &[AuditWriter<'a, D, J>],
    seat: &mut Seat<NodeMachine, J>,
    share: &mut Share<ActsOf<J>>,
) -> Result<Option<(u64, u64)>, FlushRefused>
    requires trails { AreTrails (J.found).config trails.now }
    requires token { MayGive share.old }
    ensures moved { IfOk result (λ o. MatchOption o
        (WasSo D.Disk J.opening (J.found).config (number_of disc.now) seat.old seat.new (IsDiscSpent (J.found).config (number_of disc.now)))
        (λ x. HasMoved D.Disk J.opening (J.found).config (number_of disc.now) (Attempt item) x.0 x.1 seat.old seat.new)) }
    ensures floor { IfOk result (λ o. IfSome o (λ x. Knows node J.opening seat.new (Floor (number_of disc.now) x.1))) }
    ensures refused { IfErr result (IsDiscRefusal (J.found).config (number_of disc.now) (Attempt item) seat.old seat.new) }
    ensures seat { HasSeenMore J.opening seat.old seat.new }
    ensures given { HasGivenToMove (J.found).config (number_of disc.now) item seat.old seat.new result share.old share.new }
{
    draw_ahead(rt, disc, By::Attempt(item), trails, seat)?;
    move_in_one_hold(rt, disc, item, trails, seat, share)
}
