//! A dump from its beginning to its end, while the device's lock is held.
ghost use Rattle.std.specs.Prelude.{◌≡◌, IfErr, IfOk, IfSome, IsSome, None, OnErr, OnOk, Some, false};
ghost use Rattle.std.specs.Option.{MatchOption};
ghost use Rattle.chronicle.specs.Seats.{Knows};
ghost use Rattle.keyed_file.specs.Dump.{blocks_in_all};
ghost use Rattle.node_machine.specs.declared.event.By.TheVariants.{Attempt};
ghost use Rattle.node_machine.specs.declared.event.DumpEvent.TheVariants.{Failed};
ghost use Rattle.node_machine.specs.declared.event.Event.TheVariants.{OfDump};
ghost use Rattle.node_machine.specs.Dump.{offered_label};
ghost use Rattle.node_machine.specs.Node.{node};
ghost use Rattle.node_machine.specs.Opening.{dump_part};
ghost use Rattle.disc_process.specs.Disc.{AreTrails};
ghost use Rattle.disc_lock.specs.Locks.{number_of};
ghost use Rattle.disc_lock.specs.Tokens.{MayGive};
ghost use Rattle.disc_lock.specs.Seats.{HasSeenMore};
ghost use Rattle.online_dump.specs.AtDisc.{HasOnlySeen};
ghost use Rattle.online_dump.specs.Copies.{files_of};
ghost use Rattle.online_dump.specs.Dumped.{HasBegunFor, HasSeenEnd, HasSeenSeal, HasSeenSince, IsDumpRefusal, IsNextRefusal, IsStopFor, WasFit};
ghost use Rattle.online_dump.specs.Dumper.{open_dump};
ghost use Rattle.online_dump.specs.Dumping.{MayBegin, MaySealAll};
ghost use Rattle.online_dump.specs.Refused.{IsStop, refusal_of, refused_from};

use crate::at_disc::{copy_next, land_at, meet_all};
use crate::copying::Copying;
use crate::dumper::DumperState;
use crate::refused::{DumpRefused, refusal_of, refused_from};
use crate::steps::{give_up_in, raise_in, spent_in, start_in};
use audit_writer::{AuditWriter, DeviceRun, FlushRefused};
use chronicle::Seat;
use disc_lock::{ActsOf, DiscProcess};
use disc_process::WriteRefused;
use disk_model::{Disk, DiskFault};
use keyed_file::BLOCK_BYTES;
use node_machine::{By, NodeMachine};
use std::sync::Wait;
use std::sync::ledger::Share;
use tmf_model::Transid;

/// Ends the doubt about the label of an earlier dump, if there is any.
fn settle_in<'a, D: Disk, J: DeviceRun<D>>(
    state: &mut DumperState<'a, D, J>,
    seat: &mut Seat<NodeMachine, J>,
    item: Transid,
) -> Result<(), DiskFault>
    ensures settled { OnOk result (offered_label state.new.seat.part.events ≡ None) }
    ensures failed { OnErr result (HasSeenSince (dump_part state.old.seat.part.number) (OfDump (Failed (Attempt item))) seat.old seat.new) }
    ensures number { state.new.seat.part.number ≡ state.old.seat.part.number }
    ensures seat { HasSeenMore J.opening seat.old seat.new }
{
    state.meet(seat);
    let settled = state.settle(By::Attempt(item));
    state.meet(seat);
    settled
}

/// Begins a dump at the device that has begun at the disc. Where that is refused the dump is given up.
fn open_in<'a, R: Wait, D: Disk, J: DeviceRun<D>>(
    rt: &R,
    disc: &DiscProcess<'a, D, J>,
    trails: &[AuditWriter<'a, D, J>],
    state: &mut DumperState<'a, D, J>,
    seat: &mut Seat<NodeMachine, J>,
    item: Transid,
    copying: Copying,
) -> Result<(), DumpRefused>
    requires number { state.old.seat.part.number ≡ number_of disc.now }
    requires trails { AreTrails (J.found).config trails.now }
    requires may { MayBegin (Knows node J.opening state.old.seat.sight) state.old.seat.part copying.number copying.start }
    ensures refused { IfErr result (λ refused. IsStopFor D.Disk J.devices J.found (number_of disc.now) item seat.old seat.new refused × HasSeenEnd (number_of disc.now) copying.number seat.new) }
    ensures number { state.new.seat.part.number ≡ state.old.seat.part.number }
    ensures seat { HasSeenMore J.opening seat.old seat.new }
{
    state.meet(seat);
    match state.begin(By::Attempt(item), copying.number, copying.start) {
        Ok(()) => Ok(()),
        Err(_) => {
            state.meet(seat);
            give_up_in(rt, disc, trails, state, seat, copying.number);
            Err(DumpRefused::Failed(state.device()))
        }
    }
}

/// Begins the next dump at the disc and then at the device, of which no label is in doubt.
fn begin_next<'a, R: Wait, D: Disk, J: DeviceRun<D>>(
    rt: &R,
    disc: &DiscProcess<'a, D, J>,
    trails: &[AuditWriter<'a, D, J>],
    state: &mut DumperState<'a, D, J>,
    seat: &mut Seat<NodeMachine, J>,
    item: Transid,
    share: &mut Share<ActsOf<J>>,
) -> Result<Copying, DumpRefused>
    requires token { MayGive share.old }
    requires number { state.old.seat.part.number ≡ number_of disc.now }
    requires trails { AreTrails (J.found).config trails.now }
    requires certain { offered_label state.old.seat.part.events ≡ None }
    ensures begun { IfOk result (λ c. HasBegunFor (number_of disc.now) item c.number c.start seat.old seat.new share.old share.new) }
    ensures refused { IfErr result (IsNextRefusal D.Disk J.devices J.opening J.found (number_of disc.now) item seat.old seat.new share.old share.new) }
    ensures number { state.new.seat.part.number ≡ state.old.seat.part.number }
    ensures seat { HasSeenMore J.opening seat.old seat.new }
{
    match start_in(rt, disc, state, seat, item, share) {
        Ok(copying) => match open_in(rt, disc, trails, state, seat, item, copying) {
            Ok(()) => Ok(copying),
            Err(refused) => Err(refused),
        },
        Err(refused) => Err(refused),
    }
}

/// Begins the next dump. It first ends the doubt about the label of an earlier one, if there is any.
pub(crate) fn begin_in<'a, R: Wait, D: Disk, J: DeviceRun<D>>(
    rt: &R,
    disc: &DiscProcess<'a, D, J>,
    trails: &[AuditWriter<'a, D, J>],
    state: &mut DumperState<'a, D, J>,
    seat: &mut Seat<NodeMachine, J>,
    item: Transid,
    share: &mut Share<ActsOf<J>>,
) -> Result<Copying, DumpRefused>
    requires token { MayGive share.old }
    requires number { state.old.seat.part.number ≡ number_of disc.now }
    requires trails { AreTrails (J.found).config trails.now }
    ensures begun { IfOk result (λ c. WasFit D.Disk J.opening J.found (number_of disc.now) seat.old seat.new × HasBegunFor (number_of disc.now) item c.number c.start seat.old seat.new share.old share.new) }
    ensures refused { IfErr result (IsDumpRefusal D.Disk J.devices J.opening J.found (number_of disc.now) item seat.old seat.new share.old share.new) }
    ensures number { state.new.seat.part.number ≡ state.old.seat.part.number }
    ensures seat { HasSeenMore J.opening seat.old seat.new }
{
    match spent_in(rt, disc, state, seat) {
        Some(part) => Err(DumpRefused::Spent(part)),
        None => match settle_in(state, seat, item) {
            Ok(()) => begin_next(rt, disc, trails, state, seat, item, share),
            Err(_) => Err(DumpRefused::Failed(state.device())),
        },
    }
}

/// Copies the next block while the disc's lock is held, and answers whether one was left.
fn copy_held<'a, R: Wait, D: Disk, J: DeviceRun<D>>(
    rt: &R,
    disc: &DiscProcess<'a, D, J>,
    trails: &[AuditWriter<'a, D, J>],
    state: &mut DumperState<'a, D, J>,
    seat: &mut Seat<NodeMachine, J>,
    item: Transid,
) -> Result<bool, WriteRefused>
    requires number { state.old.seat.part.number ≡ number_of disc.now }
    requires trails { AreTrails (J.found).config trails.now }
    requires open { IsSome (open_dump state.old) }
    ensures copied { IfOk result (λ more. (open_dump state.new ≡ open_dump state.old) × (more ≡ false → state.new.file.filled ≡ Some (blocks_in_all (files_of state.new.seat.part)))) }
    ensures refused { IfErr result (λ refused. IsStop refused × IsStopFor D.Disk J.devices J.found (number_of disc.now) item seat.old seat.new (refusal_of refused)) }
    ensures current { state.new.current ≡ state.old.current }
    ensures number { state.new.seat.part.number ≡ state.old.seat.part.number }
    ensures seat { HasSeenMore J.opening seat.old seat.new }
{
    let mut room = [0; BLOCK_BYTES];
    let mut at = disc.lock(rt);
    meet_all(&mut at, state, seat);
    at.lawful();
    state.lawful();
    let copied = copy_next(rt, &mut at, state, trails, item, &mut room);
    at.lawful();
    at.device_lawful();
    meet_all(&mut at, state, seat);
    copied
}

/// Copies the next block, and answers whether one was left. Where that is refused the dump is given up.
fn copy_in<'a, R: Wait, D: Disk, J: DeviceRun<D>>(
    rt: &R,
    disc: &DiscProcess<'a, D, J>,
    trails: &[AuditWriter<'a, D, J>],
    state: &mut DumperState<'a, D, J>,
    seat: &mut Seat<NodeMachine, J>,
    item: Transid,
    copying: Copying,
) -> Result<bool, DumpRefused>
    requires number { state.old.seat.part.number ≡ number_of disc.now }
    requires trails { AreTrails (J.found).config trails.now }
    requires open { open_dump state.old ≡ Some copying }
    ensures copied { IfOk result (λ more. (open_dump state.new ≡ Some copying) × (more ≡ false → state.new.file.filled ≡ Some (blocks_in_all (files_of state.new.seat.part)))) }
    ensures refused { IfErr result (λ refused. IsStopFor D.Disk J.devices J.found (number_of disc.now) item seat.old seat.new refused × HasSeenEnd (number_of disc.now) copying.number seat.new) }
    ensures number { state.new.seat.part.number ≡ state.old.seat.part.number }
    ensures seat { HasSeenMore J.opening seat.old seat.new }
{
    match copy_held(rt, disc, trails, state, seat, item) {
        Ok(more) => Ok(more),
        Err(refused) => {
            give_up_in(rt, disc, trails, state, seat, copying.number);
            Err(refusal_of(refused))
        }
    }
}

/// Lands the audit of all copies while the disc's lock is held.
fn land_held<'a, R: Wait, D: Disk, J: DeviceRun<D>>(
    rt: &R,
    disc: &DiscProcess<'a, D, J>,
    trails: &[AuditWriter<'a, D, J>],
    state: &mut DumperState<'a, D, J>,
    seat: &mut Seat<NodeMachine, J>,
    item: Transid,
) -> Result<(), FlushRefused>
    requires number { state.old.seat.part.number ≡ number_of disc.now }
    requires trails { AreTrails (J.found).config trails.now }
    requires open { IsSome (open_dump state.old) }
    requires all { state.old.file.filled ≡ Some (blocks_in_all (files_of state.old.seat.part)) }
    ensures landed { OnOk result (MatchOption (open_dump state.new) ⊥ (MaySealAll (Knows node J.opening state.new.seat.sight) state.new.seat.part state.new.file.filled)) }
    ensures refused { IfErr result (λ refused. IsStopFor D.Disk J.devices J.found (number_of disc.now) item seat.old seat.new (refused_from refused)) }
    ensures state { HasOnlySeen J.opening J.found state.old state.new }
    ensures seat { HasSeenMore J.opening seat.old seat.new }
{
    let mut at = disc.lock(rt);
    meet_all(&mut at, state, seat);
    at.lawful();
    let landed = land_at(rt, &mut at, state, trails, By::Attempt(item));
    at.meet(seat);
    landed
}

/// Seals a dump whose copies have landed, and ends it at its disc. Where that is refused the dump is given up.
fn seal_in<'a, R: Wait, D: Disk, J: DeviceRun<D>>(
    rt: &R,
    disc: &DiscProcess<'a, D, J>,
    trails: &[AuditWriter<'a, D, J>],
    state: &mut DumperState<'a, D, J>,
    seat: &mut Seat<NodeMachine, J>,
    item: Transid,
    copying: Copying,
) -> Result<(), DumpRefused>
    requires number { state.old.seat.part.number ≡ number_of disc.now }
    requires trails { AreTrails (J.found).config trails.now }
    requires open { open_dump state.old ≡ Some copying }
    requires may { MaySealAll (Knows node J.opening state.old.seat.sight) state.old.seat.part state.old.file.filled copying }
    ensures sealed { OnOk result (HasSeenSeal (J.found).config (number_of disc.now) copying.number copying.start seat.new) }
    ensures refused { IfErr result (λ refused. IsStopFor D.Disk J.devices J.found (number_of disc.now) item seat.old seat.new refused × HasSeenEnd (number_of disc.now) copying.number seat.new) }
    ensures number { state.new.seat.part.number ≡ state.old.seat.part.number }
    ensures seat { HasSeenMore J.opening seat.old seat.new }
{
    state.meet(seat);
    state.lawful();
    match state.seal(By::Attempt(item)) {
        Ok(()) => {
            state.meet(seat);
            raise_in(rt, disc, trails, state, seat, copying.number);
            Ok(())
        }
        Err(_) => {
            state.meet(seat);
            give_up_in(rt, disc, trails, state, seat, copying.number);
            Err(DumpRefused::Failed(state.device()))
        }
    }
}

/// Ends a dump whose blocks are all copied: their audit lands, and then the dump is sealed. Where that is refused the dump is given up.
fn finish_in<'a, R: Wait, D: Disk, J: DeviceRun<D>>(
    rt: &R,
    disc: &DiscProcess<'a, D, J>,
    trails: &[AuditWriter<'a, D, J>],
    state: &mut DumperState<'a, D, J>,
    seat: &mut Seat<NodeMachine, J>,
    item: Transid,
    copying: Copying,
) -> Result<(), DumpRefused>
    requires number { state.old.seat.part.number ≡ number_of disc.now }
    requires trails { AreTrails (J.found).config trails.now }
    requires open { open_dump state.old ≡ Some copying }
    requires all { state.old.file.filled ≡ Some (blocks_in_all (files_of state.old.seat.part)) }
    ensures sealed { OnOk result (HasSeenSeal (J.found).config (number_of disc.now) copying.number copying.start seat.new) }
    ensures refused { IfErr result (λ refused. IsStopFor D.Disk J.devices J.found (number_of disc.now) item seat.old seat.new refused × HasSeenEnd (number_of disc.now) copying.number seat.new) }
    ensures number { state.new.seat.part.number ≡ state.old.seat.part.number }
    ensures seat { HasSeenMore J.opening seat.old seat.new }
{
    match land_held(rt, disc, trails, state, seat, item) {
        Ok(()) => seal_in(rt, disc, trails, state, seat, item, copying),
        Err(refused) => {
            give_up_in(rt, disc, trails, state, seat, copying.number);
            Err(refused_from(refused))
        }
    }
}

/// Goes on with a dump by one block, or ends it where none is left. It answers how the dump has ended, if it has; and it does nothing where the device is not copying this dump.
pub(crate) fn go_on_in<'a, R: Wait, D: Disk, J: DeviceRun<D>>(
    rt: &R,
    disc: &DiscProcess<'a, D, J>,
    trails: &[AuditWriter<'a, D, J>],
    state: &mut DumperState<'a, D, J>,
    seat: &mut Seat<NodeMachine, J>,
    item: Transid,
    copying: Copying,
) -> Option<Result<(), DumpRefused>>
    requires number { state.old.seat.part.number ≡ number_of disc.now }
    requires trails { AreTrails (J.found).config trails.now }
    ensures ended { IfSome result (λ r. OnOk r (HasSeenSeal (J.found).config (number_of disc.now) copying.number copying.start seat.new)) }
    ensures refused { IfSome result (λ r. IfErr r (λ refused. IsStopFor D.Disk J.devices J.found (number_of disc.now) item seat.old seat.new refused × HasSeenEnd (number_of disc.now) copying.number seat.new)) }
    ensures number { state.new.seat.part.number ≡ state.old.seat.part.number }
    ensures seat { HasSeenMore J.opening seat.old seat.new }
{
    seat.lawful();
    if !state.is_copying(copying) {
        return None;
    }
    match copy_in(rt, disc, trails, state, seat, item, copying) {
        Ok(more) => {
            if more {
                None
            } else {
                Some(finish_in(rt, disc, trails, state, seat, item, copying))
            }
        }
        Err(refused) => Some(Err(refused)),
    }
}
