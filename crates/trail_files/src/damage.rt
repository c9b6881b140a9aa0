//! What is wrong with a trail, and how its calls fail.
ghost use Rattle.std.specs.Prelude.{◌≡◌};

use disk_model::DiskFault;

/// A rule of the formats that bytes break.
#[derive(Clone, Copy, Debug, PartialEq, Eq)]
pub enum DamageKind {
    /// A file is not there.
    Missing,
    /// A batch passes the end of its file.
    Short,
    /// A version is not 1.
    Version,
    /// A byte that is to be zero is not.
    Zero,
    /// The count of a batch is out of its range.
    Count,
    /// A field of a record is out of its range, or an identifier stands in a trail twice.
    BadRecord,
    /// A position, a place or an epoch is not the next one.
    Order,
    /// The monitor trail does not begin with the start of epoch 1.
    NoStart,
    /// A label is wrong.
    BadLabel,
    /// A block is wrong.
    BadBlock,
}

/// Where bytes break a rule, and which one: the file's number and an offset in it.
#[derive(Clone, Copy, Debug, PartialEq, Eq)]
pub struct Damage {
    pub file: u32,
    pub at: u64,
    pub kind: DamageKind,
}

/// Why a call of a trail did nothing.
#[derive(Clone, Copy, Debug, PartialEq, Eq)]
pub enum TrailFault {
    /// The device failed.
    Failed,
    /// Memory ran out.
    NoMemory,
    /// The device's bytes are no trail.
    Damaged(Damage),
}

impl From<DiskFault> for TrailFault {
    ghost use Rattle.trail_files.specs.declared.damage.TrailFault.TheVariants.{Failed};

    ghost from_gives = { λ _ e. e ≡ Failed };

    fn from(_: DiskFault) -> Self {
        TrailFault::Failed
    }
}
