//! Why a step is refused.
use audit_writer::FlushRefused;
use record_locks::NoMemory;
use tmf_model::{Reason, Transid};
use trail_files::Damage;

/// Why a step was not carried out, in the order in which it is tried; memory may be wanting at any place.
#[derive(Clone, Copy)]
pub enum WriteRefused {
    Spent(u32),
    Busy(Transid),
    NoMemory,
    Failed(u8),
    Damaged(u8, Damage),
    Full,
    Refused(Reason),
}

impl From<NoMemory> for WriteRefused {
    ghost use Rattle.std.specs.Prelude.{◌≡◌};
    ghost use Rattle.disc_process.specs.declared.refused.WriteRefused.TheVariants as refused;

    ghost from_gives = { λ _ e. e ≡ refused.NoMemory };

    fn from(_e: NoMemory) -> WriteRefused {
        WriteRefused::NoMemory
    }
}

impl From<FlushRefused> for WriteRefused {
    ghost use Rattle.disc_process.specs.Refused.{refused_from};
    ghost use Rattle.std.specs.Prelude.{◌≡◌};

    ghost from_gives = { λ e refused. refused ≡ refused_from e };

    fn from(e: FlushRefused) -> WriteRefused {
        match e {
            FlushRefused::Failed(device) => WriteRefused::Failed(device),
            FlushRefused::NoMemory => WriteRefused::NoMemory,
        }
    }
}
