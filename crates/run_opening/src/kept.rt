//! What a run keeps of its devices.
ghost use Rattle.std.specs.Prelude.{◌≡◌};
ghost use Rattle.run_opening.specs.Kept.{device_kept};

use crate::audit_kept::AuditKept;
use block_cache::Blocks;
use disk_model::Disk;
use online_dump::DumpFile;
use trail_files::{MonitorRecord, Trail};

/// The monitor trail, and how many records it has.
#[derive(Drop)]
pub struct MonitorKept<D: Disk> {
    pub trail: Trail<D, MonitorRecord>,
    pub places: u64,
}

/// A device of a run: what was opened over it, or the device alone.
#[derive(Drop)]
pub enum Kept<D: Disk> {
    Monitor(MonitorKept<D>),
    Audit(AuditKept<D>),
    Volume(Blocks<D>),
    Dump(DumpFile<D>),
    Idle(D),
}

impl<D: Disk> Kept<D> {
    /// The device.
    pub fn into_device(self) -> D
        ensures { result ≡ device_kept self }
    {
        match self {
            Kept::Monitor(kept) => {
                let MonitorKept { trail, .. } = kept;
                trail.into_device()
            }
            Kept::Audit(kept) => kept.into_trail().into_device(),
            Kept::Volume(blocks) => blocks.into_device(),
            Kept::Dump(file) => file.into_device(),
            Kept::Idle(device) => device,
        }
    }
}
