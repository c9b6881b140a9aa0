//! The loss of a volume: each file of its device is taken away.
ghost use Rattle.std.specs.Prelude.{◌≡◌, ◌⊎◌, ℕ, None, IsTrue, OnOk};
ghost use Rattle.disk_model.specs.Frame.{WorksOn};
ghost use Rattle.disk_model.specs.Held.{Held, Leaves};
ghost use Rattle.block_cache.specs.Volume.{HasNoLabel};
ghost use Rattle.volume_restore.specs.Formatted.{IsEmptied};

use crate::format::remove_file;
use disk_model::{Disk, DiskFault};

/// The file of a volume's label.
const LABEL: u32 = 1;

/// Takes each file away, in rising order.
fn remove_files<D: Disk>(device: &mut D) -> Result<(), DiskFault>
    ensures emptied { IsTrue (D.tells device.old) → OnOk result (IsEmptied (D.held device.new)) }
    ensures gone { (file : ℕ) → IsTrue (D.tells device.old) → D.held device.old file ≡ None → D.held device.new file ≡ None }
    ensures works { WorksOn D.Disk device.old device.new result }
{
    let mut from = 0;
    while let Some(file) = device.least()? {
        // A device that is honest answers no file that was removed.
        if u64::from(file) < from {
            break;
        }
        device.remove(file)?;
        from = u64::from(file) + 1;
    }
    Ok(())
}

/// Takes a volume away: its label first, and then each other file of its device, in rising order. What a crash leaves on the way is as before,
/// or it has no label. It fails where the device does, and may be made again.
pub fn lose_volume<D: Disk>(device: &mut D) -> Result<(), DiskFault>
    ensures emptied { IsTrue (D.tells device.old) → OnOk result (IsEmptied (D.held device.new)) }
    ensures every { (image : Held) → IsTrue (D.tells device.old) → Leaves (D.held device.new) image → Leaves (D.held device.old) image ⊎ HasNoLabel image }
    ensures works { WorksOn D.Disk device.old device.new result }
{
    remove_file(device, LABEL)?;
    remove_files(device)
}
