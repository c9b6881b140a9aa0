//! The dump that a dump device holds, read from its label.
ghost use Rattle.std.specs.Prelude.{◌≡◌, ◌<◌, IfErr, IfOk, IfSome, IsTrue, None, length, slice_index};
ghost use Rattle.disk_model.specs.Frame.{IsLater};
ghost use Rattle.disk_model.specs.Held.{Rose};
ghost use Rattle.keyed_file.specs.LabelFormat.{IsDumpLabel, dump_text};
ghost use Rattle.keyed_file.specs.Layout.{IsSpelledAt, label_pair, selected_by, slot_at};
ghost use Rattle.online_dump.specs.Found.{IsFoundDump, IsSealed, TellsDump, TellsSlot, bad_slot};

use crate::fault::DumperFault;
use disk_model::Disk;
use keyed_file::DumpLabel;
use trail_files::{Damage, DamageKind};

/// How many bytes a dump label's file has.
const LABEL_FILE_BYTES: usize = 768;

/// A dump that is whole.
#[derive(Clone, Copy)]
pub struct SealedDump {
    pub label: DumpLabel,
    /// The slot of the label's file in which it stands, 0 or 1.
    pub slot: u8,
}

/// How the label's file is damaged at an offset.
fn damage(at: u64) -> DumperFault
    ensures { result ≡ DumperFault.Damaged (record { file = 1; at = at; kind = DamageKind.BadLabel }) }
{
    DumperFault::Damaged(Damage {
        file: 1,
        at,
        kind: DamageKind::BadLabel,
    })
}

/// The slot that a selector byte names.
fn slot_named(byte: u8) -> u8
    ensures named { result ≡ selected_by byte }
    ensures small { result < 2 }
{
    if byte == 1 { 1 } else { 0 }
}

/// The dump in the selected slot of a label's file with these bytes.
fn sealed_in(volume: u8, bytes: &[u8]) -> Result<SealedDump, DumperFault>
    requires { length bytes.now ≡ 768 }
    ensures whole { IfOk result (IsSealed volume) }
    ensures slot { IfOk result (λ found. found.slot ≡ selected_by (slice_index bytes.now 1)) }
    ensures spelled { IfOk result (λ found. IsSpelledAt bytes.now (slot_at label_pair found.slot) (dump_text found.label)) }
    ensures fine { IfOk result (λ _. bad_slot volume bytes.now ≡ None) }
    ensures fault { IfErr result (TellsSlot volume bytes.now) }
{
    let slot = slot_named(bytes[1]);
    let from = 256 + 256 * usize::from(slot);
    match DumpLabel::decode_at(volume, &bytes[from..from + 256]) {
        Ok(label) => Ok(SealedDump { label, slot }),
        Err(bad) => Err(damage(from as u64 + u64::from(bad.at))),
    }
}

/// The dump of a volume that stands on a dump device, if one does. It reads the label alone.
pub(crate) fn read_sealed<D: Disk>(
    volume: u8,
    device: &mut D,
) -> Result<Option<SealedDump>, DumperFault>
    ensures works { IsLater D.Disk device.old device.new }
    ensures same { D.held device.new ≡ D.held device.old }
    ensures whole { IfOk result (λ found. IfSome found (IsSealed volume)) }
    ensures found { IsTrue (D.tells device.old) → IfOk result (IsFoundDump volume (D.held device.old)) }
    ensures fault { IsTrue (D.tells device.old) → IfErr result (TellsDump volume (D.held device.old)) }
    ensures cause { IfErr result (λ e. e ≡ DumperFault.Failed → Rose (D.faults device.old) (D.faults device.new)) }
{
    let mut bytes = [0; LABEL_FILE_BYTES];
    let Ok(count) = device.read(1, 0, &mut bytes) else {
        return Err(DumperFault::Failed);
    };
    if bytes[0] != 1 {
        return Ok(None);
    }
    if count < LABEL_FILE_BYTES {
        return Err(damage(count as u64));
    }
    match sealed_in(volume, &bytes) {
        Ok(found) => Ok(Some(found)),
        Err(fault) => Err(fault),
    }
}
