//! A volume's label, read from its pair.
ghost use Rattle.std.specs.Prelude.{◌≡◌, ◌≤◌, ◌<◌, ◌+◌, ◌*◌, length, IsTrue, IfOk, IfErr, None, Some, slice_index, ℕ};
ghost use Rattle.disk_model.specs.Frame.{IsLater};
ghost use Rattle.disk_model.specs.Held.{IsThere, Rose};
ghost use Rattle.keyed_file.specs.LabelFormat.{IsLabel, bad_label, label_text};
ghost use Rattle.block_cache.specs.LabelDamage.{IsFineLabel, TellsAttach, TellsLabel, bad_slot};
ghost use Rattle.keyed_file.specs.Layout.{IsSpelledAt, bytes_at, label_length, label_pair, selected_by, slot_at};
ghost use Rattle.keyed_file.specs.Volume.{IsLost, SpellsLabel};

use crate::fault::AttachFault;
use crate::reading::slot_named;
use disk_model::Disk;
use keyed_file::{Label, LabelFault};
use std::alloc::Global;
use trail_files::{Damage, DamageKind};

/// How many bytes a label's file has.
const LABEL_FILE_BYTES: usize = 768;

/// How the label's file is damaged at an offset.
fn damage(at: u64) -> AttachFault
    ensures { result ≡ AttachFault.Damaged (record { file = 1; at = at; kind = DamageKind.BadLabel }) }
{
    AttachFault::Damaged(Damage {
        file: 1,
        at,
        kind: DamageKind::BadLabel,
    })
}

/// The label in the selected slot of a label's file with these bytes, and that slot.
fn label_in(alloc: Global, wanted: &Label, bytes: &[u8]) -> Result<(Label, u8), AttachFault>
    requires bytes { length bytes.now ≡ 768 }
    requires wanted { IsLabel wanted.now }
    ensures valid { IfOk result (λ found. IsLabel found.0) }
    ensures wanted { IfOk result (λ found. found.0 ≡ record wanted.now { low = found.0.low }) }
    ensures slot { IfOk result (λ found. (found.1 ≡ selected_by (slice_index bytes.now 1)) × (found.1 < 2)) }
    ensures spelled { IfOk result (λ found. IsSpelledAt bytes.now (slot_at label_pair found.1) (label_text found.0)) }
    ensures fine { IfOk result (λ _. bad_slot wanted.now bytes.now ≡ None) }
    ensures fault { IfErr result (TellsLabel wanted.now bytes.now) }
{
    let slot = slot_named(bytes[1]);
    let from = 256 + 256 * usize::from(slot);
    match Label::decode_at(alloc, wanted, &bytes[from..from + 256]) {
        Ok(label) => Ok((label, slot)),
        Err(LabelFault::Bad(bad)) => Err(damage(from as u64 + u64::from(bad.at))),
        Err(LabelFault::NoMemory) => Err(AttachFault::NoMemory),
    }
}

/// The label in the selected slot of a volume's label file, which has to be the wanted one with any low position, and that slot.
pub fn read_label<D: Disk>(
    alloc: Global,
    wanted: &Label,
    device: &mut D,
) -> Result<(Label, u8), AttachFault>
    requires { IsLabel wanted.now }
    ensures works { IsLater D.Disk device.old device.new }
    ensures same { D.held device.new ≡ D.held device.old }
    ensures valid { IfOk result (λ found. IsLabel found.0 × (found.1 < 2)) }
    ensures wanted { IfOk result (λ found. found.0 ≡ record wanted.now { low = found.0.low }) }
    ensures spelled { IsTrue (D.tells device.old) → IfOk result (λ found. IsThere (D.held device.old) 1 (λ f. SpellsLabel found.0 f.bytes × (found.1 ≡ selected_by (slice_index f.bytes 1)))) }
    ensures fine { IsTrue (D.tells device.old) → IfOk result (λ _. IsFineLabel wanted.now (D.held device.old)) }
    ensures fault { IsTrue (D.tells device.old) → IfErr result (TellsAttach wanted.now (D.held device.old)) }
    ensures cause { IfErr result (λ e. e ≡ AttachFault.Failed → Rose (D.faults device.old) (D.faults device.new)) }
{
    let mut bytes = [0; LABEL_FILE_BYTES];
    let Ok(count) = device.read(1, 0, &mut bytes) else {
        return Err(AttachFault::Failed);
    };
    if bytes[0] != 1 {
        return Err(AttachFault::Lost);
    }
    if count < LABEL_FILE_BYTES {
        return Err(damage(count as u64));
    }
    label_in(alloc, wanted, &bytes)
}
