//! The label of a dump device, read from its pair.
ghost use Rattle.std.specs.Prelude.{◌≡◌, ◌≤◌, ◌+◌, length, slice_index, IsTrue, IfOk, IfErr, None};
ghost use Rattle.disk_model.specs.Frame.{IsLater};
ghost use Rattle.disk_model.specs.Held.{Rose};
ghost use Rattle.keyed_file.specs.LabelFormat.{IsDumpLabel, dump_text};
ghost use Rattle.keyed_file.specs.Layout.{IsSpelledAt, label_pair, selected_by, slot_at};
ghost use Rattle.rollforward.specs.DumpLabels.{IsDumpLabelOf, TellsDumpLabel, TellsDumpSlot, bad_dump_slot};

use disk_model::Disk;
use keyed_file::DumpLabel;
use trail_files::{Damage, DamageKind};

/// The file of a dump's label.
const LABEL_FILE: u32 = 1;

/// How many bytes that file has.
const LABEL_FILE_BYTES: usize = 768;

/// The bytes of a slot, and of what stands in front of the slots.
const SLOT_BYTES: usize = 256;

/// Why no dump's label was read.
#[derive(Clone, Copy, Debug, PartialEq, Eq)]
pub enum DumpFault {
    /// No label stands: there is no dump.
    Missing,
    /// The device's bytes are no label of a dump of this volume.
    Damaged(Damage),
    /// The device failed.
    Failed,
}

/// How the label's file is damaged at an offset.
fn damage(at: u64) -> DumpFault
    ensures { result ≡ DumpFault.Damaged (record { file = 1; at = at; kind = DamageKind.BadLabel }) }
{
    DumpFault::Damaged(Damage {
        file: LABEL_FILE,
        at,
        kind: DamageKind::BadLabel,
    })
}

/// Where the slot begins that a selector byte names.
fn slot_start(selector: u8) -> usize
    ensures at { result ≡ slot_at label_pair (selected_by selector) }
    ensures within { result + 256 ≤ 768 }
{
    if selector == 1 {
        2 * SLOT_BYTES
    } else {
        SLOT_BYTES
    }
}

/// The label in the selected slot of a dump label's file with these bytes.
fn label_in(volume: u8, bytes: &[u8]) -> Result<DumpLabel, DumpFault>
    requires { length bytes.now ≡ 768 }
    ensures valid { IfOk result IsDumpLabel }
    ensures of_volume { IfOk result (λ label. label.volume ≡ volume) }
    ensures spelled { IfOk result (λ label. IsSpelledAt bytes.now (slot_at label_pair (selected_by (slice_index bytes.now 1))) (dump_text label)) }
    ensures fine { IfOk result (λ _. bad_dump_slot volume bytes.now ≡ None) }
    ensures fault { IfErr result (TellsDumpSlot volume bytes.now) }
{
    let from = slot_start(bytes[1]);
    match DumpLabel::decode_at(volume, &bytes[from..from + SLOT_BYTES]) {
        Ok(label) => Ok(label),
        Err(bad) => Err(damage(from as u64 + u64::from(bad.at))),
    }
}

/// The label of a dump of this volume, where one stands. It writes nothing.
pub fn read_dump_label<D: Disk>(device: &mut D, volume: u8) -> Result<DumpLabel, DumpFault>
    ensures told { IsTrue (D.tells device.old) → IfOk result (IsDumpLabelOf volume (D.held device.old)) }
    ensures valid { IfOk result IsDumpLabel }
    ensures fault { IsTrue (D.tells device.old) → IfErr result (TellsDumpLabel volume (D.held device.old)) }
    ensures same { D.held device.new ≡ D.held device.old }
    ensures keeps { IsLater D.Disk device.old device.new }
    ensures cause { IfErr result (λ e. e ≡ DumpFault.Failed → Rose (D.faults device.old) (D.faults device.new)) }
{
    let mut bytes = [0; LABEL_FILE_BYTES];
    let Ok(count) = device.read(LABEL_FILE, 0, &mut bytes) else {
        return Err(DumpFault::Failed);
    };
    if bytes[0] != 1 {
        return Err(DumpFault::Missing);
    }
    if count < LABEL_FILE_BYTES {
        return Err(damage(count as u64));
    }
    label_in(volume, &bytes)
}
