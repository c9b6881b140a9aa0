//! Why a dump device was not opened.
use trail_files::Damage;

/// Why a dump device was not opened.
#[derive(Clone, Copy, Debug, PartialEq, Eq)]
pub enum DumperFault {
    /// The device failed.
    Failed,
    /// The device's bytes are no dump label of this volume.
    Damaged(Damage),
    NoMemory,
}
