//! How a device is made empty.
ghost use Rattle.std.specs.Prelude.{◌≡◌, ◌≢◌, ◌⊎◌, ◌<◌, ◌≤◌, ℕ, max, None, Some, IsTrue, IfOk, OnOk, OnErr};
ghost use Rattle.disk_model.specs.Frame.{WorksOn};
ghost use Rattle.disk_model.specs.Held.{Elsewhere, IsLeast, created};
ghost use Rattle.trail_files.specs.Removed.{IsStart, IsCut, AreThere, IsGoneBelow, IsHalfFormatted};

use disk_model::{Disk, DiskFault};

// The number of the least file, where none stands below a number. It asks for that file before it asks for the least.
fn least_from<D: Disk>(device: &mut D, from: u64) -> Result<Option<u32>, DiskFault>
    ensures works { WorksOn D.Disk device.old device.new result }
    ensures same { D.held device.new ≡ D.held device.old }
    ensures least { IsTrue (D.tells device.old)
        → ((q : ℕ) → q < from → D.held device.old q ≡ None)
        → IfOk result (IsLeast (D.held device.old)) }
{
    if let Ok(file) = u32::try_from(from) {
        if 0 < file && device.length(file)?.is_some() {
            return Ok(Some(file));
        }
    }
    device.least()
}

/// Removes each file, in rising order.
fn clear<D: Disk>(device: &mut D) -> Result<(), DiskFault>
    ensures works { WorksOn D.Disk device.old device.new result }
    ensures ok { IsTrue (D.tells device.old) → OnOk result ((n : ℕ) → D.held device.new n ≡ None) }
    ensures left { IsTrue (D.tells device.old)
        → OnErr result ((from : ℕ) × IsGoneBelow (D.held device.old) (D.held device.new) from) }
{
    let mut from = 0;
    while let Some(file) = least_from(device, from)? {
        // A device that is honest answers no file that was removed.
        if u64::from(file) < from {
            break;
        }
        device.remove(file)?;
        from = u64::from(file) + 1;
    }
    Ok(())
}

// Removes a file, if it is there: a removal that was refused may yet be done.
fn remove_there<D: Disk>(device: &mut D, file: u32) -> Result<(), DiskFault>
    ensures works { WorksOn D.Disk device.old device.new result }
    ensures others { IsTrue (D.tells device.old)
        → Elsewhere file (D.held device.old) (D.held device.new) }
    ensures ok { IsTrue (D.tells device.old) → OnOk result (D.held device.new file ≡ None) }
    ensures err { IsTrue (D.tells device.old)
        → OnErr result ((D.held device.new file ≡ D.held device.old file) ⊎ (D.held device.new file ≡ None)) }
{
    match device.length(file)? {
        None => Ok(()),
        Some(_) => device.remove(file),
    }
}

/// Removes the files from a trail's least one on and below a number, in rising order, and stops at the first that fails. It tells
/// the least file of the trail: the one that is there, or one less where it is not known whether that was removed.
pub(crate) fn clear_below<D: Disk>(
    device: &mut D,
    least: &mut u32,
    file: u32,
) -> Result<(), DiskFault>
    ensures works { WorksOn D.Disk device.old device.new result }
    ensures kept { IsTrue (D.tells device.old) → (n : ℕ) → file ≤ n → D.held device.new n ≡ D.held device.old n }
    ensures cut { (start : ℕ) → IsTrue (D.tells device.old) → IsLeast (D.held device.old) (Some start)
        → IsStart least.old start → AreThere (D.held device.old) start file
        → (left : ℕ) × IsCut (D.held device.old) (D.held device.new) least.new start left file × OnOk result (left ≡ max start file) }
    ensures rises { least.old ≤ least.new }
    ensures within { least.new ≤ max least.old file }
    ensures least { OnOk result (least.new ≡ max least.old file) }
{
    while *least < file {
        remove_there(device, *least)?;
        *least += 1;
    }
    Ok(())
}

/// Removes each file and makes one, with a closed gate.
pub(crate) fn start_over<D: Disk>(device: &mut D, file: u32) -> Result<(), DiskFault>
    ensures works { WorksOn D.Disk device.old device.new result }
    ensures there { IsTrue (D.tells device.old)
        → OnOk result (D.held device.new file ≡ Some created) }
    ensures others { IsTrue (D.tells device.old)
        → OnOk result ((n : ℕ) → n ≢ file → D.held device.new n ≡ None) }
    ensures left { IsTrue (D.tells device.old) → file ≡ 1
        → OnErr result (IsHalfFormatted (D.held device.old) (D.held device.new)) }
{
    clear(device)?;
    device.create(file)
}
