//! Why a transaction was not backed out.
ghost use Rattle.std.specs.Prelude.{◌≡◌};
ghost use Rattle.backout.specs.Backed.{hanging_from};

use disc_process::UndoRefused;
use trail_files::Damage;

/// Why a transaction was not backed out. It keeps its locks at the disc that stopped it and at those behind it, or, where the monitor did, at all.
#[derive(Clone, Copy, Debug, PartialEq, Eq)]
pub enum Hanging {
    /// The device with this number failed.
    Failed(u8),
    /// A block of this device breaks the format, or cannot take a change back.
    Damaged(u8, Damage),
    NoMemory,
}

/// What the refusal at a disc is to a backout.
pub(crate) fn hanging_from(refusal: UndoRefused) -> Hanging
    ensures { result ≡ hanging_from refusal }
{
    match refusal {
        UndoRefused::Failed(device) => Hanging::Failed(device),
        UndoRefused::Damaged(device, damage) => Hanging::Damaged(device, damage),
        UndoRefused::NoMemory => Hanging::NoMemory,
    }
}
