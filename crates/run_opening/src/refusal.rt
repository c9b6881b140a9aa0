//! Why a device is refused.
ghost use Rattle.std.specs.Prelude.{◌≡◌};
ghost use Rattle.run_opening.specs.Refusal.{refusal_by};
ghost use Rattle.run_outcomes.specs.Attaching.{misfit};

use run_outcomes::PhaseError;
use trail_files::{Damage, DamageKind, TrailFault};

/// Why the device with this number is refused, by the fault of its trail.
pub fn refusal_by(device: u8, fault: TrailFault) -> PhaseError
    ensures { result ≡ refusal_by device fault }
{
    match fault {
        TrailFault::Failed => PhaseError::Failed(device),
        TrailFault::NoMemory => PhaseError::NoMemory,
        TrailFault::Damaged(damage) => PhaseError::Damaged(device, damage),
    }
}

/// What does not fit the other devices, told at the front of a device's first file.
pub fn misfit(kind: DamageKind) -> Damage
    ensures { result ≡ misfit kind }
{
    Damage {
        file: 1,
        at: 0,
        kind,
    }
}
