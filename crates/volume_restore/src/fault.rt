//! Why a volume was not recovered, and the device that a refusal hands back.
ghost use Rattle.std.specs.Prelude.{◌≡◌};
ghost use Rattle.volume_restore.specs.Restored.{block_fault};

use block_cache::BlockFault;
use trail_files::Damage;

/// Why a volume was not recovered.
#[derive(Clone, Copy, Debug, PartialEq, Eq)]
pub enum VolumeFault {
    /// The device failed.
    Failed,
    /// The device's bytes are no volume, or a block would hold more than 62 keys.
    Damaged(Damage),
    /// Memory ran out.
    NoMemory,
}

/// What a fault of a block is to its volume.
pub(crate) fn fault_of_block(fault: BlockFault) -> VolumeFault
    ensures { result ≡ block_fault fault }
{
    match fault {
        BlockFault::Failed => VolumeFault::Failed,
        BlockFault::Damaged(damage) => VolumeFault::Damaged(damage),
        BlockFault::NoMemory => VolumeFault::NoMemory,
    }
}

/// The device that a refused opening hands back, which goes to the one that lent it.
pub(crate) fn handed_back<D, E: Copy>(refused: (D, E)) -> D
    ensures { result ≡ refused.0 }
{
    let (device, _) = refused;
    device
}
