//! Why a control point was refused.
ghost use Rattle.std.specs.Prelude.{◌≡◌};
ghost use Rattle.control_point.specs.Control.{refused_from};

use audit_writer::FlushRefused;

/// Why a control point was refused.
#[derive(Clone, Copy, Debug, PartialEq, Eq)]
pub enum ControlRefused {
    /// The part with this number, the disc's or its trail's, has had as many events as the node allows.
    Spent(u32),
    /// The device with this number failed.
    Failed(u8),
    NoMemory,
}

/// What the refusal of a disc's call is to a control point.
pub(crate) fn refused_from(refused: FlushRefused) -> ControlRefused
    ensures { result ≡ refused_from refused }
{
    match refused {
        FlushRefused::Failed(device) => ControlRefused::Failed(device),
        FlushRefused::NoMemory => ControlRefused::NoMemory,
    }
}
