//! Names of parts, as they are printed.
ghost use Rattle.std.specs.Prelude.{◌≡◌};
ghost use Rattle.node_machine.specs.PartNames.{IsPart, IsNameOf};

use std::fmt;
use tmf_model::{Config, Name};

/// The name of a part: at most 12 bytes.
#[derive(Clone, Copy)]
pub enum PartName {
    /// A worker, by its number.
    Worker(u32),
    /// The disc of the volume with this name.
    Volume(Name),
    /// The audit trail with this name.
    Trail(Name),
    /// The monitor.
    Monitor,
    /// The dump of the volume with this name.
    Dump(Name),
}

/// The name of the part with this number.
pub fn part_name(config: &Config, part: u32) -> PartName
    requires { IsPart config.now part }
    ensures { IsNameOf config.now part result }
{
    match part {
        0..16 => PartName::Worker(part + 1),
        16..24 => PartName::Volume(config.volumes.as_slice()[part as usize - 16].name),
        24..28 => PartName::Trail(config.trails.as_slice()[part as usize - 24]),
        28 => PartName::Monitor,
        _ => PartName::Dump(config.volumes.as_slice()[part as usize - 29].name),
    }
}

impl fmt::Display for PartName {
    ghost use Rattle.std.specs.Prelude.{Some};
    ghost use Rattle.node_machine.specs.PartNames.{part_text};

    ghost output = { λ name. Some (part_text name) };

    fn fmt<W: fmt::Write>(&self, f: &mut fmt::Formatter<W>) -> fmt::Result {
        match self {
            PartName::Worker(number) => write!(f, "W{number}"),
            PartName::Volume(name) | PartName::Trail(name) => write!(f, "{name}"),
            PartName::Monitor => f.write_str("MAT"),
            PartName::Dump(name) => write!(f, "DUMP{name}"),
        }
    }
}
