//! The label of a dump device: it is written where no image shows it, and then the selector, or the gate, names it.
ghost use Rattle.std.specs.Prelude.{◌≡◌, ◌<◌, ◌≤◌, ℕ, List, Some, IfSome, IsTrue, OnOk, OnErr, length, slice_index};
ghost use Rattle.disk_model.specs.Frame.{WorksOn};
ghost use Rattle.disk_model.specs.Held.{HasCause, Elsewhere, IsThere};
ghost use Rattle.trail_files.specs.Put.{Put, Left};
ghost use Rattle.keyed_file.specs.LabelFormat.{IsDumpLabel, dump_text};
ghost use Rattle.keyed_file.specs.Layout.{IsSpelledAt, label_pair, slot_at};
ghost use Rattle.block_cache.specs.declared.pair.PairPhase.{PairPhase as Phase};
ghost use Rattle.block_cache.specs.declared.pair.PairPhase.TheVariants.{Settled, Written, Offered};
ghost use Rattle.keyed_file.specs.declared.dump_label.DumpLabel.{DumpLabel as Label};
ghost use Rattle.online_dump.specs.Sealing.{HasLabelFile, HoldsFirst, HoldsLabel, IsUnderWay, next_slot};

use crate::sealed::SealedDump;
use disk_model::{Disk, DiskFault};
use keyed_file::DumpLabel;

/// The label's file.
const LABEL_FILE: u32 = 1;

/// Writes bytes into a file and syncs it.
fn put<D: Disk>(device: &mut D, file: u32, at: u64, bytes: &[u8]) -> Result<(), DiskFault>
    requires { IsTrue (D.tells device.old) → IsThere (D.held device.old) file (λ f. at ≤ length f.bytes) }
    ensures device { D.is_same device.old device.new }
    ensures tells { D.tells device.new ≡ D.tells device.old }
    ensures others { IsTrue (D.tells device.old) → Elsewhere file (D.held device.old) (D.held device.new) }
    ensures ok { IsTrue (D.tells device.old) → OnOk result (Put file (D.held device.old) (D.held device.new) at bytes.now) }
    ensures err { IsTrue (D.tells device.old) → OnErr result (Left file (D.held device.old) (D.held device.new) at bytes.now) }
    ensures cause { HasCause (D.faults device.old) (D.faults device.new) result }
{
    device.write(file, at, bytes)?;
    device.sync(file)
}

/// Writes a label into a slot of the label's file and syncs it.
fn write_slot<D: Disk>(device: &mut D, slot: u8, label: &DumpLabel) -> Result<(), DiskFault>
    requires slot { slot < 2 }
    requires label { IsDumpLabel label.now }
    requires there { IsTrue (D.tells device.old) → HasLabelFile (D.held device.old) }
    ensures long { length (dump_text label.now) ≡ 256 }
    ensures others { IsTrue (D.tells device.old) → Elsewhere 1 (D.held device.old) (D.held device.new) }
    ensures ok { IsTrue (D.tells device.old) → OnOk result (Put 1 (D.held device.old) (D.held device.new) (slot_at label_pair slot) (dump_text label.now)) }
    ensures err { IsTrue (D.tells device.old) → OnErr result (Left 1 (D.held device.old) (D.held device.new) (slot_at label_pair slot) (dump_text label.now)) }
    ensures there { IsTrue (D.tells device.old) → HasLabelFile (D.held device.new) }
    ensures works { WorksOn D.Disk device.old device.new result }
{
    let mut text = [0; 256];
    label.encode(&mut text);
    put(device, LABEL_FILE, 256 + 256 * u64::from(slot), &text)
}

/// Writes what stands behind the gate of a new label's file: the selector of slot 0, the label in that slot, and zeros.
fn fill_label(label: &DumpLabel, into: &mut [u8])
    requires label { IsDumpLabel label.now }
    requires bytes { length into.old ≡ 767 }
    ensures selector { slice_index into.new 0 ≡ 0 }
    ensures spelled { IsSpelledAt into.new 255 (dump_text label.now) }
    ensures long { length (dump_text label.now) ≡ 256 }
{
    let (front, slots) = into.split_at_mut(255);
    let (first, second) = slots.split_at_mut(256);
    front.fill(0);
    label.encode(first);
    second.fill(0);
}

/// Makes the label's file anew, with the first label behind a shut gate.
fn write_first<D: Disk>(device: &mut D, label: &DumpLabel) -> Result<(), DiskFault>
    requires label { IsDumpLabel label.now }
    ensures others { IsTrue (D.tells device.old) → Elsewhere 1 (D.held device.old) (D.held device.new) }
    ensures ok { IsTrue (D.tells device.old) → OnOk result (HoldsFirst Written (dump_text label.now) (D.held device.new)) }
    ensures err { (any : List ℕ) → IsTrue (D.tells device.old) → HoldsFirst Settled any (D.held device.old) → OnErr result (HoldsFirst Settled any (D.held device.new)) }
    ensures there { IsTrue (D.tells device.old) → OnOk result (HasLabelFile (D.held device.new)) }
    ensures works { WorksOn D.Disk device.old device.new result }
{
    device.create(LABEL_FILE)?;
    let mut bytes = [0; 767];
    fill_label(label, &mut bytes);
    put(device, LABEL_FILE, 1, &bytes)
}

/// Writes the next label where no image shows it: into the idle slot, or, where no dump stands, behind the shut gate of a new file.
pub(crate) fn write_label<D: Disk>(
    device: &mut D,
    found: Option<SealedDump>,
    label: &DumpLabel,
) -> Result<(), DiskFault>
    requires label { IsDumpLabel label.now }
    requires slot { IfSome found (λ dump. dump.slot < 2) }
    requires there { IsTrue (D.tells device.old) → IfSome found (λ _. HasLabelFile (D.held device.old)) }
    ensures others { IsTrue (D.tells device.old) → Elsewhere 1 (D.held device.old) (D.held device.new) }
    ensures ok { (any : List ℕ) → IsTrue (D.tells device.old) → HoldsLabel found Settled any (D.held device.old) → OnOk result (HoldsLabel found Written (dump_text label.now) (D.held device.new)) }
    ensures err { (any : List ℕ) → IsTrue (D.tells device.old) → HoldsLabel found Settled any (D.held device.old) → OnErr result (HoldsLabel found Settled any (D.held device.new)) }
    ensures there { IsTrue (D.tells device.old) → OnOk result (HasLabelFile (D.held device.new)) }
    ensures kept { IsTrue (D.tells device.old) → IfSome found (λ _. HasLabelFile (D.held device.new)) }
    ensures works { WorksOn D.Disk device.old device.new result }
{
    match found {
        None => write_first(device, label),
        Some(dump) => write_slot(device, 1 - dump.slot, label),
    }
}

/// Names the label that was written last: it has then landed. After a fault an image has the label that landed before, or this one.
pub(crate) fn name_label<D: Disk>(
    device: &mut D,
    found: Option<SealedDump>,
) -> Result<(), DiskFault>
    requires slot { IfSome found (λ dump. dump.slot < 2) }
    requires there { IsTrue (D.tells device.old) → HasLabelFile (D.held device.old) }
    ensures others { IsTrue (D.tells device.old) → Elsewhere 1 (D.held device.old) (D.held device.new) }
    ensures ok { (label : Label) (phase : Phase) (any : List ℕ) → IsTrue (D.tells device.old) → IsUnderWay phase → HoldsLabel found phase (dump_text label) (D.held device.old)
        → OnOk result (HoldsLabel (Some (record { label = label; slot = next_slot found })) Settled any (D.held device.new)) }
    ensures err { (label : Label) (phase : Phase) → IsTrue (D.tells device.old) → IsUnderWay phase → HoldsLabel found phase (dump_text label) (D.held device.old)
        → OnErr result (HoldsLabel found Offered (dump_text label) (D.held device.new)) }
    ensures there { IsTrue (D.tells device.old) → HasLabelFile (D.held device.new) }
    ensures works { WorksOn D.Disk device.old device.new result }
{
    match found {
        None => put(device, LABEL_FILE, 0, &[1]),
        Some(dump) => put(device, LABEL_FILE, 1, &[1 - dump.slot]),
    }
}
