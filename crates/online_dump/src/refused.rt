//! Why a dump was refused.
ghost use Rattle.std.specs.Prelude.{◌≡◌};
ghost use Rattle.online_dump.specs.Refused.{IsStop, refusal_of, refused_from};

use audit_writer::FlushRefused;
use disc_process::WriteRefused;
use trail_files::Damage;

/// Why a dump was refused.
#[derive(Clone, Copy, Debug, PartialEq, Eq)]
pub enum DumpRefused {
    /// The part with this number, the disc's or its dump device's, has had as many events as the node allows.
    Spent(u32),
    /// A dump of the disc is under way.
    Dumping,
    /// The device with this number failed.
    Failed(u8),
    /// Bytes of a block on the device with this number break the format.
    Damaged(u8, Damage),
    NoMemory,
}

/// What the refusal of a block's copy is to a dump.
pub(crate) fn refusal_of(refused: WriteRefused) -> DumpRefused
    requires { IsStop refused }
    ensures { result ≡ refusal_of refused }
{
    match refused {
        WriteRefused::Failed(device) => DumpRefused::Failed(device),
        WriteRefused::Damaged(device, damage) => DumpRefused::Damaged(device, damage),
        _ => DumpRefused::NoMemory,
    }
}

/// What the refusal of a disc's audit is to a dump.
pub(crate) fn refused_from(refused: FlushRefused) -> DumpRefused
    ensures { result ≡ refused_from refused }
{
    match refused {
        FlushRefused::Failed(device) => DumpRefused::Failed(device),
        FlushRefused::NoMemory => DumpRefused::NoMemory,
    }
}
