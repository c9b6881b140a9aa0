//! Why a call on a node's devices is refused.
ghost use Rattle.std.specs.Prelude.{◌≡◌};

use thiserror::Error;
use trail_files::{Damage, TrailFault};

/// Why a node was not formatted.
#[derive(Clone, Copy, Debug, PartialEq, Eq, Error)]
pub enum FormatError {
    /// The device with this number failed.
    #[error("device {0} failed")]
    Failed(u8),
    #[error("memory ran out")]
    NoMemory,
}

/// Why a node was not recovered.
#[derive(Clone, Copy, Debug, PartialEq, Eq, Error)]
pub enum RecoverError {
    /// The device with this number failed.
    #[error("device {0} failed")]
    Failed(u8),
    /// The bytes of the device with this number break their format.
    #[error("device {0} is damaged: {1:?}")]
    Damaged(u8, Damage),
    /// The last epoch is the greatest that there is.
    #[error("no epoch is left")]
    EpochsSpent,
    #[error("memory ran out")]
    NoMemory,
}

/// Why a file was not listed.
#[derive(Clone, Copy, Debug, PartialEq, Eq, Error)]
pub enum ListError {
    /// The device with this number failed.
    #[error("device {0} failed")]
    Failed(u8),
    /// The bytes of the device with this number break their format.
    #[error("device {0} is damaged: {1:?}")]
    Damaged(u8, Damage),
    /// The file's volume is lost.
    #[error("the volume is lost")]
    Lost,
    #[error("memory ran out")]
    NoMemory,
}

impl FormatError {
    ghost use Rattle.volume_recovery.specs.Stop.{format_error};

    /// What the fault of a trail's format means.
    pub(crate) fn at(device: u8, fault: TrailFault) -> FormatError
        ensures { result ≡ format_error device fault }
    {
        match fault {
            TrailFault::NoMemory => FormatError::NoMemory,
            TrailFault::Failed | TrailFault::Damaged(_) => FormatError::Failed(device),
        }
    }
}

impl RecoverError {
    ghost use Rattle.volume_recovery.specs.Stop.{recover_error};

    /// What the fault of a trail means.
    pub(crate) fn at(device: u8, fault: TrailFault) -> RecoverError
        ensures { result ≡ recover_error device fault }
    {
        match fault {
            TrailFault::Failed => RecoverError::Failed(device),
            TrailFault::NoMemory => RecoverError::NoMemory,
            TrailFault::Damaged(damage) => RecoverError::Damaged(device, damage),
        }
    }
}
