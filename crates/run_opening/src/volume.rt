//! The opening of a volume.
ghost use Rattle.std.specs.Prelude.{◌≡◌, ◌≢◌, ◌≤◌, ◌+◌, ◌==◌, true, false, IsTrue, IfOk, IfErr};
ghost use Rattle.run_outcomes.specs.Attaching.{misfit};
ghost use Rattle.trail_files.specs.declared.damage.DamageKind.TheVariants.{BadLabel};
ghost use Rattle.disk_model.specs.Held.{Rose};
ghost use Rattle.tmf_model.specs.Config.{IsDeclared, IsValidConfig};
ghost use Rattle.run_opening.specs.Kept.{IsNextBehind, IsVolumeJudged, IsVolumeKept, IsVolumeRefused, label_refusal};
ghost use Rattle.run_opening.specs.Lasts.{next_from};
ghost use Rattle.run_opening.specs.Refusal.{IsRefused, TellsAt};

use crate::kept::Kept;
use crate::refusal::misfit;
use block_cache::{AttachFault, Blocks};
use disk_model::Disk;
use run_outcomes::PhaseError;
use std::alloc::Global;
use tmf_model::Config;
use trail_files::DamageKind;

/// How many devices stand before those of volumes, less one.
const BEFORE_VOLUMES: u8 = 4;

/// Whether the low position is the one that the disc gives out next: 0 is behind no record.
fn is_next(next: u64, low: u64) -> bool
    ensures { result ≡ (next_from next low == low) }
{
    next == 0 || next == low
}

/// A volume that is opened, if its low position is its disc's next one.
fn with_low<D: Disk>(blocks: Blocks<D>, volume: u8, next: u64) -> Result<Kept<D>, (D, PhaseError)>
    requires { volume ≤ 8 }
    ensures kept { IfOk result (λ k. (next_from next blocks.label.low ≡ blocks.label.low) × (k ≡ Kept.Volume blocks)) }
    ensures refused { IfErr result (λ e. (next_from next blocks.label.low ≢ blocks.label.low) × (e ≡ (blocks.device, PhaseError.Damaged (4 + volume) (misfit BadLabel)))) }
{
    if !is_next(next, blocks.low()) {
        let damage = misfit(DamageKind::BadLabel);
        let why = PhaseError::Damaged(BEFORE_VOLUMES + volume, damage);
        return Err((blocks.into_device(), why));
    }
    Ok(Kept::Volume(blocks))
}

/// A volume that is not opened: where it is lost, and the run does not name it, its device is kept alone.
fn without_label<D: Disk>(
    left: D,
    volume: u8,
    named: bool,
    fault: AttachFault,
) -> Result<Kept<D>, (D, PhaseError)>
    requires { volume ≤ 8 }
    ensures kept { IfOk result (λ k. (fault ≡ AttachFault.Lost) × (named ≡ false) × (k ≡ Kept.Idle left)) }
    ensures refused { IfErr result (λ e. (e.0 ≡ left) × (fault ≡ AttachFault.Lost → named ≡ true) × (e.1 ≡ label_refusal (4 + volume) fault)) }
{
    let device = BEFORE_VOLUMES + volume;
    let why = match fault {
        AttachFault::Lost => {
            if !named {
                return Ok(Kept::Idle(left));
            }
            PhaseError::Damaged(device, misfit(DamageKind::BadLabel))
        }
        AttachFault::Damaged(damage) => PhaseError::Damaged(device, damage),
        AttachFault::Failed => PhaseError::Failed(device),
        AttachFault::NoMemory => PhaseError::NoMemory,
    };
    Err((left, why))
}

/// Opens a volume, whose low position has to be its disc's next one. It writes nothing.
pub fn open_volume<D: Disk>(
    alloc: Global,
    config: &Config,
    volume: u8,
    next: u64,
    named: bool,
    device: D,
) -> Result<Kept<D>, (D, PhaseError)>
    requires valid { IsValidConfig config.now }
    requires volume { IsDeclared config.now.volumes volume }
    ensures kept { IfOk result (IsVolumeKept D.Disk config.now volume named device) }
    ensures next { IfOk result (IsNextBehind next) }
    ensures judged { IsTrue (D.tells device) → IfOk result (IsVolumeJudged config.now volume next named (D.held device)) }
    ensures refused { IfErr result (λ e. IsRefused D.Disk (4 + volume) device e.0 e.1) }
    ensures damage { IsTrue (D.tells device) → IfErr result (λ e. TellsAt (4 + volume) (IsVolumeRefused config.now volume next named (D.held device)) e.1) }
{
    match Blocks::<D>::attach(alloc, device, config, volume, config.cache) {
        Ok(blocks) => with_low(blocks, volume, next),
        Err((left, fault)) => without_label(left, volume, named, fault),
    }
}
