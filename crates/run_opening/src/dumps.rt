//! The opening of a device of dumps.
ghost use Rattle.std.specs.Prelude.{◌≡◌, ◌<◌, ◌≤◌, ◌+◌, ℕ, length, slice_get, Some, None, Ok, IsTrue, IfOk, IfErr};
ghost use Rattle.online_dump.specs.Found.{start_in};
ghost use Rattle.run_outcomes.specs.Attaching.{misfit};
ghost use Rattle.trail_files.specs.declared.damage.DamageKind.TheVariants.{BadLabel};
ghost use Rattle.run_opening.specs.Dumps.{HasReached, IsDumpRefused, dump_refusal};
ghost use Rattle.run_opening.specs.Kept.{IsDumpOpened, low_kept};
ghost use Rattle.run_opening.specs.Refusal.{IsRefused, TellsAt};

use crate::kept::Kept;
use crate::refusal::misfit;
use disk_model::Disk;
use online_dump::{DumpFile, DumperFault};
use run_outcomes::PhaseError;
use std::alloc::Global;
use trail_files::DamageKind;

/// How many devices stand before those of volumes, less one.
const BEFORE_VOLUMES: u8 = 4;

/// How many stand before those of dumps, less one.
const BEFORE_DUMPS: u8 = 12;

/// The low position of the volume, where its blocks are kept.
fn low_at<D: Disk>(kept: &[Kept<D>], volume: u8) -> Option<u64>
    requires count { 13 ≤ length kept.now }
    requires volume { volume ≤ 8 }
    ensures { result ≡ low_kept (slice_get kept.now (4 + volume)) }
{
    match &kept[usize::from(BEFORE_VOLUMES + volume)] {
        Kept::Volume(blocks) => Some(blocks.low()),
        Kept::Monitor(_) | Kept::Audit(_) | Kept::Dump(_) | Kept::Idle(_) => None,
    }
}

/// Why the device with this number is refused, by the fault of its dump file.
fn dump_refusal(device: u8, fault: DumperFault) -> PhaseError
    ensures { result ≡ dump_refusal device fault }
{
    match fault {
        DumperFault::Failed => PhaseError::Failed(device),
        DumperFault::NoMemory => PhaseError::NoMemory,
        DumperFault::Damaged(damage) => PhaseError::Damaged(device, damage),
    }
}

/// Whether the volume's disc has reached the start of the dump that stands there, where one does.
fn has_reached<D: Disk>(file: &DumpFile<D>, low: u64) -> bool
    ensures { HasReached (start_in file.now.found) low result }
{
    match file.rest() {
        Some(start) => start <= low,
        None => true,
    }
}

/// A dump file that was opened, if the start of its dump is one that the volume's disc has reached.
fn with_start<D: Disk>(file: DumpFile<D>, volume: u8, low: u64) -> Result<Kept<D>, (D, PhaseError)>
    requires { volume ≤ 8 }
    ensures kept { IfOk result (λ k. ((start : ℕ) → start_in file.found ≡ Some start → start ≤ low) × (k ≡ Kept.Dump file)) }
    ensures refused { IfErr result (λ e. ((start : ℕ) × (start_in file.found ≡ Some start) × (low < start)) × (e ≡ (file.device, PhaseError.Damaged (12 + volume) (misfit BadLabel)))) }
{
    if !has_reached(&file, low) {
        let why = PhaseError::Damaged(BEFORE_DUMPS + volume, misfit(DamageKind::BadLabel));
        return Err((file.into_device(), why));
    }
    Ok(Kept::Dump(file))
}

/// Opens the device of a volume's dumps, whose start may not be above the volume's low position. It writes nothing.
pub fn open_dump<D: Disk>(
    alloc: Global,
    volume: u8,
    low: u64,
    device: D,
) -> Result<Kept<D>, (D, PhaseError)>
    requires { volume ≤ 8 }
    ensures kept { IfOk result (IsDumpOpened D.Disk volume low device) }
    ensures refused { IfErr result (λ e. IsRefused D.Disk (12 + volume) device e.0 e.1) }
    ensures damage { IsTrue (D.tells device) → IfErr result (λ e. TellsAt (12 + volume) (IsDumpRefused volume low (D.held device)) e.1) }
{
    match DumpFile::<D>::attach(alloc, device, volume) {
        Ok(file) => {
            file.lawful();
            with_start(file, volume, low)
        }
        Err((left, fault)) => Err((left, dump_refusal(BEFORE_DUMPS + volume, fault))),
    }
}

/// Opens the device of a volume's dumps, where the volume's blocks are kept: else it is left alone. It writes nothing.
pub fn open_dump_of<D: Disk>(
    alloc: Global,
    volume: u8,
    device: D,
    kept: &[Kept<D>],
) -> Result<Kept<D>, (D, PhaseError)>
    requires count { 13 ≤ length kept.now }
    requires volume { volume ≤ 8 }
    ensures alone { low_kept (slice_get kept.now (4 + volume)) ≡ None → result ≡ Ok (Kept.Idle device) }
    ensures kept { (low : ℕ) → low_kept (slice_get kept.now (4 + volume)) ≡ Some low → IfOk result (IsDumpOpened D.Disk volume low device) }
    ensures refused { IfErr result (λ e. IsRefused D.Disk (12 + volume) device e.0 e.1) }
    ensures damage { (low : ℕ) → low_kept (slice_get kept.now (4 + volume)) ≡ Some low → IsTrue (D.tells device) → IfErr result (λ e. TellsAt (12 + volume) (IsDumpRefused volume low (D.held device)) e.1) }
{
    match low_at(kept, volume) {
        Some(low) => open_dump(alloc, volume, low, device),
        None => Ok(Kept::Idle(device)),
    }
}
