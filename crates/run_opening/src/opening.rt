//! The opening of a run's devices, in the order of their numbers.
ghost use Rattle.std.specs.Prelude.{◌≡◌, ◌<◌, ◌≤◌, ◌+◌, ◌++◌, [], ℕ, List, length, map, slice_get, vec_capacity, Some, Ok, IfOk, IfErr, IfSome, IfNone, OnOk};
ghost use Rattle.tmf_model.specs.Config.{IsDeclared, IsValidConfig};
ghost use Rattle.run_outcomes.specs.Devices.{AreReturned, IsUntouched, TellUpTo};
ghost use Rattle.run_outcomes.specs.Run.{HasNotRun, volumes_named};
ghost use Rattle.run_opening.specs.Kept.{device_kept};
ghost use Rattle.run_opening.specs.Opening.{AreFitBelow, AreOpened, AreOpenedSoFar, HasSeen, IsExactFor, IsJudged, IsKept, IsKeptAmong, IsNextIn, IsReachedIn, IsRefusedAt};
ghost use Rattle.run_opening.specs.Refusal.{IsRefused};

use crate::audit::open_audit;
use crate::audit_kept::AuditKept;
use crate::dumps::open_dump_of;
use crate::kept::Kept;
use crate::lasts::Lasts;
use crate::laws::spelling_laws;
use crate::monitor::open_monitor;
use crate::named::is_named;
use crate::volume::open_volume;
use disk_model::Disk;
use run_outcomes::PhaseError;
use std::alloc::Global;
use tmf_model::{Config, Phase};
use trail_replay::DeviceQueue;

/// How many devices a node has.
const DEVICES: u8 = 21;

/// The most trails that a node has; the devices of volumes stand behind theirs.
const MOST_TRAILS: u8 = 4;

/// The last device of a volume; those of dumps stand behind them.
const LAST_VOLUME: u8 = 12;

/// What a run is to do: the items of its phase, over a configuration, in an epoch.
#[derive(Clone, Copy)]
pub struct Begun<'r> {
    pub config: &'r Config,
    pub phase: &'r Phase,
    pub epoch: u32,
}

/// What is kept of the devices, in the order of their numbers, and an empty row with room for them.
#[derive(Drop)]
pub struct Opened<D: Disk> {
    pub kept: Vec<Kept<D>>,
    pub row: DeviceQueue<D>,
}

/// Opens the device of the monitor trail.
pub fn keep_monitor<D: Disk>(
    alloc: Global,
    run: Begun<'_>,
    device: D,
) -> Result<Kept<D>, (D, PhaseError)>
    ensures kept { IfOk result (IsKept D.Disk run.entry.config.now run.entry.epoch (volumes_named run.entry.config.now run.entry.phase.now) 0 device) }
    ensures refused { IfErr result (λ e. IsRefused D.Disk 0 device e.0 e.1) }
    ensures judged { (named : List ℕ) (devices : List D) → slice_get devices 0 ≡ Some device → TellUpTo D.Disk 0 devices
        → IsJudged D.Disk run.entry.config.now run.entry.epoch named 0 devices result }
{
    match open_monitor(alloc, run.config, run.epoch, device) {
        Ok(kept) => Ok(Kept::Monitor(kept)),
        Err(refused) => Err(refused),
    }
}

/// Opens the device of an audit trail, and sees its records.
pub fn keep_audit<D: Disk>(
    alloc: Global,
    run: Begun<'_>,
    number: u8,
    device: D,
    lasts: &mut Lasts,
) -> Result<Kept<D>, (D, PhaseError)>
    requires valid { IsValidConfig run.config.now }
    requires number { IsDeclared run.config.now.trails number }
    ensures kept { IfOk result (IsKept D.Disk run.entry.config.now run.entry.epoch (volumes_named run.entry.config.now run.entry.phase.now) number device) }
    ensures refused { IfErr result (λ e. IsRefused D.Disk number device e.0 e.1) }
    ensures judged { (named : List ℕ) (devices : List D) → slice_get devices number ≡ Some device → TellUpTo D.Disk number devices
        → IsJudged D.Disk run.entry.config.now run.entry.epoch named number devices result }
    ensures seen { (devices : List D) → slice_get devices number ≡ Some device → HasSeen D.Disk run.entry.config.now devices number lasts.old → OnOk result (HasSeen D.Disk run.entry.config.now devices (number + 1) lasts.new) }
{
    match open_audit(alloc, run.config, number, device, lasts) {
        Ok(trail) => Ok(Kept::Audit(AuditKept::new(trail))),
        Err(refused) => Err(refused),
    }
}

/// Opens the device of a trail, where it is declared, and sees its records.
fn open_trail<D: Disk>(
    alloc: Global,
    run: Begun<'_>,
    number: u8,
    device: D,
    lasts: &mut Lasts,
) -> Result<Kept<D>, (D, PhaseError)>
    requires valid { IsValidConfig run.config.now }
    requires number { number ≤ 4 }
    ensures kept { IfOk result (IsKept D.Disk run.entry.config.now run.entry.epoch (volumes_named run.entry.config.now run.entry.phase.now) number device) }
    ensures untouched { IsUntouched run.entry.config.now number → result ≡ Ok (Kept.Idle device) }
    ensures refused { IfErr result (λ e. IsRefused D.Disk number device e.0 e.1) }
    ensures judged { (named : List ℕ) (devices : List D) → slice_get devices number ≡ Some device → TellUpTo D.Disk number devices
        → IsJudged D.Disk run.entry.config.now run.entry.epoch named number devices result }
    ensures seen { (devices : List D) → slice_get devices number ≡ Some device → HasSeen D.Disk run.entry.config.now devices number lasts.old → OnOk result (HasSeen D.Disk run.entry.config.now devices (number + 1) lasts.new) }
{
    if number == 0 {
        return keep_monitor(alloc, run, device);
    }
    if usize::from(number) > run.config.trails.len() {
        return Ok(Kept::Idle(device));
    }
    keep_audit(alloc, run, number, device, lasts)
}

/// Opens the device of a volume, where it is declared.
pub fn open_disc<D: Disk>(
    alloc: Global,
    run: Begun<'_>,
    number: u8,
    device: D,
    lasts: &Lasts,
) -> Result<Kept<D>, (D, PhaseError)>
    requires valid { IsValidConfig run.config.now }
    requires number { (4 < number) × (number < 13) }
    ensures kept { IfOk result (IsKept D.Disk run.entry.config.now run.entry.epoch (volumes_named run.entry.config.now run.entry.phase.now) number device) }
    ensures untouched { IsUntouched run.entry.config.now number → result ≡ Ok (Kept.Idle device) }
    ensures refused { IfErr result (λ e. IsRefused D.Disk number device e.0 e.1) }
    ensures judged { (devices : List D) → slice_get devices number ≡ Some device → TellUpTo D.Disk number devices → HasSeen D.Disk run.entry.config.now devices number lasts.now
        → AreFitBelow D.Disk run.entry.config.now run.entry.epoch (volumes_named run.entry.config.now run.entry.phase.now) number devices
        → IsJudged D.Disk run.entry.config.now run.entry.epoch (volumes_named run.entry.config.now run.entry.phase.now) number devices result }
    ensures next { (devices : List D) → slice_get devices number ≡ Some device → HasSeen D.Disk run.entry.config.now devices number lasts.now → IfOk result (IsNextIn D.Disk run.entry.config.now devices number) }
{
    let volume = number - MOST_TRAILS;
    if usize::from(volume) > run.config.volumes.len() {
        return Ok(Kept::Idle(device));
    }
    let named = is_named(run.config, run.phase, volume);
    let next = lasts.next_at(volume);
    open_volume(alloc, run.config, volume, next, named, device)
}

/// Opens the device of a volume's dumps, where the volume is declared and its blocks are kept.
pub fn keep_dump<D: Disk>(
    alloc: Global,
    run: Begun<'_>,
    number: u8,
    device: D,
    kept: &[Kept<D>],
) -> Result<Kept<D>, (D, PhaseError)>
    requires valid { IsValidConfig run.config.now }
    requires number { (12 < number) × (number < 21) }
    requires count { length kept.now ≡ number }
    ensures kept { IfOk result (IsKept D.Disk run.entry.config.now run.entry.epoch (volumes_named run.entry.config.now run.entry.phase.now) number device) }
    ensures reached { IfOk result (IsReachedIn D.Disk run.entry.config.now kept.now number) }
    ensures untouched { IsUntouched run.entry.config.now number → result ≡ Ok (Kept.Idle device) }
    ensures refused { IfErr result (λ e. IsRefused D.Disk number device e.0 e.1) }
    ensures judged { (devices : List D) → slice_get devices number ≡ Some device → TellUpTo D.Disk number devices → AreOpenedSoFar D.Disk run.entry.config.now run.entry.epoch (volumes_named run.entry.config.now run.entry.phase.now) devices kept.now
        → IsJudged D.Disk run.entry.config.now run.entry.epoch (volumes_named run.entry.config.now run.entry.phase.now) number devices result }
{
    spelling_laws::<D>();
    let volume = number - LAST_VOLUME;
    if usize::from(volume) > run.config.volumes.len() {
        return Ok(Kept::Idle(device));
    }
    open_dump_of(alloc, volume, device, kept)
}

/// Opens the device with this number. It writes nothing.
fn open_device<D: Disk>(
    alloc: Global,
    run: Begun<'_>,
    number: u8,
    device: D,
    kept: &[Kept<D>],
    lasts: &mut Lasts,
) -> Result<Kept<D>, (D, PhaseError)>
    requires valid { IsValidConfig run.config.now }
    requires number { number < 21 }
    requires count { length kept.now ≡ number }
    ensures kept { (devices : List D) → slice_get devices number ≡ Some device → HasSeen D.Disk run.entry.config.now devices number lasts.old
        → IfOk result (IsKeptAmong D.Disk run.entry.config.now run.entry.epoch (volumes_named run.entry.config.now run.entry.phase.now) devices kept.now number device) }
    ensures untouched { IsUntouched run.entry.config.now number → result ≡ Ok (Kept.Idle device) }
    ensures refused { IfErr result (λ e. IsRefused D.Disk number device e.0 e.1) }
    ensures judged { (devices : List D) → slice_get devices number ≡ Some device → TellUpTo D.Disk number devices → HasSeen D.Disk run.entry.config.now devices number lasts.old
        → AreOpenedSoFar D.Disk run.entry.config.now run.entry.epoch (volumes_named run.entry.config.now run.entry.phase.now) devices kept.now
        → IsJudged D.Disk run.entry.config.now run.entry.epoch (volumes_named run.entry.config.now run.entry.phase.now) number devices result }
    ensures seen { (devices : List D) → slice_get devices number ≡ Some device → HasSeen D.Disk run.entry.config.now devices number lasts.old → OnOk result (HasSeen D.Disk run.entry.config.now devices (number + 1) lasts.new) }
{
    if number <= MOST_TRAILS {
        return open_trail(alloc, run, number, device, lasts);
    }
    if number <= LAST_VOLUME {
        return open_disc(alloc, run, number, device, lasts);
    }
    keep_dump(alloc, run, number, device, kept)
}

/// Opens the devices of a row, in the order of their numbers, up to the first that is refused, which goes back.
fn open_each<D: Disk>(
    alloc: Global,
    run: Begun<'_>,
    row: &mut DeviceQueue<D>,
    kept: &mut Vec<Kept<D>>,
) -> Option<PhaseError>
    requires valid { IsValidConfig run.config.now }
    requires row { (length row.old.devices ≡ 21) × (21 ≤ row.old.room) }
    requires kept { (kept.old.items ≡ []) × (21 ≤ vec_capacity kept.old) }
    ensures so_far { AreOpenedSoFar D.Disk run.entry.config.now run.entry.epoch (volumes_named run.entry.config.now run.entry.phase.now) row.old.devices kept.new.items }
    ensures room { (row.new.room ≡ row.old.room) × (vec_capacity kept.new ≡ vec_capacity kept.old) }
    ensures all { IfNone result ((length kept.new.items ≡ 21) × (row.new.devices ≡ [])) }
    ensures refused { IfSome result (IsRefusedAt D.Disk run.entry.config.now run.entry.epoch (volumes_named run.entry.config.now run.entry.phase.now) row.old.devices row.new.devices (length kept.new.items)) }
{
    let mut lasts = Lasts::none();
    for number in 0..DEVICES {
        match open_device(
            alloc,
            run,
            number,
            row.take_first(),
            kept.as_slice(),
            &mut lasts,
        ) {
            Ok(one) => kept.push_reserved(one),
            Err((device, why)) => {
                row.put_first(device);
                return Some(why);
            }
        }
    }
    None
}

/// The devices of what is kept go back in front of the others.
fn put_back<D: Disk>(kept: Vec<Kept<D>>, row: &mut DeviceQueue<D>)
    requires { length row.old.devices + length kept.items ≤ row.old.room }
    ensures devices { row.new.devices ≡ map device_kept kept.items ++ row.old.devices }
    ensures room { row.new.room ≡ row.old.room }
{
    let mut rest = kept;
    while let Some(one) = rest.pop() {
        row.put_first(one.into_device());
    }
    rest.destroy_empty();
}

/// The devices of what was opened, in the order of their numbers.
pub fn close<D: Disk>(opened: Opened<D>) -> Vec<D>
    requires { length opened.row.devices + length opened.kept.items ≤ opened.row.room }
    ensures { result.items ≡ map device_kept opened.kept.items ++ opened.row.devices }
{
    let Opened { kept, row } = opened;
    let mut left = row;
    put_back(kept, &mut left);
    left.into_vec()
}

/// Opens the devices of a run, in the order of their numbers. Where one is refused no worker begins, and all devices come back.
pub fn open_devices<D: Disk>(
    alloc: Global,
    run: Begun<'_>,
    devices: Vec<D>,
) -> Result<Opened<D>, (PhaseError, Vec<D>)>
    requires valid { IsValidConfig run.config.now }
    requires count { length devices.items ≡ 21 }
    ensures opened { IfOk result (AreOpened D.Disk run.entry.config.now run.entry.epoch (volumes_named run.entry.config.now run.entry.phase.now) devices.items) }
    ensures returned { IfErr result (λ e. AreReturned D.Disk run.entry.config.now devices.items e.1.items) }
    ensures not_run { IfErr result (λ e. HasNotRun D.Disk run.entry.config.now run.entry.phase.now run.entry.epoch devices.items e.1.items e.0) }
    ensures exact { IsExactFor D.Disk run.entry.config.now run.entry.epoch (volumes_named run.entry.config.now run.entry.phase.now) devices.items result }
{
    spelling_laws::<D>();
    let Ok(room) = Vec::with_capacity(alloc, usize::from(DEVICES)) else {
        return Err((PhaseError::NoMemory, devices));
    };
    let mut kept = room;
    let mut row = DeviceQueue::new(devices);
    match open_each(alloc, run, &mut row, &mut kept) {
        None => Ok(Opened { kept, row }),
        Some(why) => {
            put_back(kept, &mut row);
            Err((why, row.into_vec()))
        }
    }
}
