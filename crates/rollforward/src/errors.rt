//! Why a call of this crate is refused.

use thiserror::Error;
use trail_files::Damage;

/// Why a volume is not rolled forward, in the order in which the reasons are tried.
#[derive(Clone, Copy, Debug, PartialEq, Eq, Error)]
pub enum RollError {
    /// The volume's label is spelled.
    #[error("the volume is not lost")]
    NotLost,
    /// No label of a dump stands.
    #[error("the volume has no dump")]
    NoDump,
    /// The device with this number failed.
    #[error("device {0} failed")]
    Failed(u8),
    /// The bytes of the device with this number break their format.
    #[error("device {0} is damaged: {1:?}")]
    Damaged(u8, Damage),
    #[error("memory ran out")]
    NoMemory,
}

/// Why a volume was not filled.
#[derive(Clone, Copy, Debug, PartialEq, Eq)]
pub enum FillError {
    /// The device with this number failed.
    Failed(u8),
    /// Memory ran out, and nothing was written.
    NoMemory,
}
