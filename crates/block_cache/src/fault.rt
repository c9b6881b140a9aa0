//! Why a call of this crate is refused.

use trail_files::Damage;

/// Why no block was read.
#[derive(Clone, Copy, Debug, PartialEq, Eq)]
pub enum BlockFault {
    /// The device failed.
    Failed,
    /// The device's bytes are no block.
    Damaged(Damage),
    /// Memory ran out.
    NoMemory,
}

/// Why a volume was not opened.
#[derive(Clone, Copy, Debug, PartialEq, Eq)]
pub enum AttachFault {
    /// No label stands.
    Lost,
    /// The device's bytes are no label of this volume.
    Damaged(Damage),
    /// The device failed.
    Failed,
    /// Memory ran out.
    NoMemory,
}
