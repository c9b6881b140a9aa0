//! The label of a dump device.
ghost use Rattle.std.specs.Prelude.{◌≡◌, None, Some, Ok, IfOk, IfErr, length};
ghost use Rattle.keyed_file.specs.LabelFormat.{IsDumpLabel, bad_dump_label, bad_dump_label_at, dump_at, dump_text};

use crate::fault::BadLabel;
use crate::field::{first_nonzero, first_of, is_between, least_of, offset_unless};

/// The last low position or start.
pub const LAST_POSITION: u64 = 4_611_686_018_427_387_904;

/// Which dump a dump device holds.
#[derive(Clone, Copy, Debug, PartialEq, Eq)]
pub struct DumpLabel {
    /// The volume's number, 1 to 8.
    pub volume: u8,
    /// The file with the dump's blocks, 2 or 3.
    pub body: u8,
    /// The position at which the dump began, 1 to 2^62.
    pub start: u64,
    /// The dump's number on its device, from 1.
    pub sequence: u64,
}

impl DumpLabel {
    /// The label that the bytes spell, or the first offset that is wrong.
    pub fn decode(bytes: &[u8]) -> Result<DumpLabel, BadLabel>
        requires { length bytes.now ≡ 256 }
        ensures valid { IfOk result IsDumpLabel }
        ensures spelled { IfOk result (λ label. bytes.now ≡ dump_text label) }
        ensures only { (label : DumpLabel) → IsDumpLabel label → bytes.now ≡ dump_text label
            → result ≡ Ok label }
        ensures fine { IfOk result (λ _. bad_dump_label bytes.now ≡ None) }
        ensures cause { IfErr result (λ fault. bad_dump_label bytes.now ≡ Some fault.at) }
    {
        match dump_label_fault(bytes) {
            Some(at) => Err(BadLabel { at }),
            None => Ok(dump_label_in(bytes)),
        }
    }

    /// The same, where the label has to be of this volume. The first offset that is wrong is that of a field out of its range or of
    /// another volume's number, whichever stands first.
    pub fn decode_at(volume: u8, bytes: &[u8]) -> Result<DumpLabel, BadLabel>
        requires { length bytes.now ≡ 256 }
        ensures valid { IfOk result IsDumpLabel }
        ensures wanted { IfOk result (λ label. label.volume ≡ volume) }
        ensures spelled { IfOk result (λ label. bytes.now ≡ dump_text label) }
        ensures only { (label : DumpLabel) → IsDumpLabel label → label.volume ≡ volume → bytes.now ≡ dump_text label
            → result ≡ Ok label }
        ensures fine { IfOk result (λ _. bad_dump_label_at volume bytes.now ≡ None) }
        ensures cause { IfErr result (λ fault. bad_dump_label_at volume bytes.now ≡ Some fault.at) }
    {
        match least_of(
            dump_label_fault(bytes),
            offset_unless(bytes[1] == volume, 1),
        ) {
            Some(at) => Err(BadLabel { at }),
            None => Ok(dump_label_in(bytes)),
        }
    }

    /// Writes the label's spelling, which `decode` reads as this label again.
    pub fn encode(&self, into: &mut [u8])
        requires bytes { length into.old ≡ 256 }
        requires label { IsDumpLabel self.now }
        ensures { into.new ≡ dump_text self.now }
    {
        let [a, b, c, d, e, f, g, h] = self.start.to_be_bytes();
        let [i, j, k, l, m, n, o, p] = self.sequence.to_be_bytes();
        let (front, rest) = into.split_at_mut(24);
        front.copy_from_slice(&[
            1,
            self.volume,
            self.body,
            0,
            0,
            0,
            0,
            0,
            a,
            b,
            c,
            d,
            e,
            f,
            g,
            h,
            i,
            j,
            k,
            l,
            m,
            n,
            o,
            p,
        ]);
        rest.fill(0);
    }
}

/// The fields of a dump label.
fn dump_label_in(bytes: &[u8]) -> DumpLabel
    requires { length bytes.now ≡ 256 }
    ensures { result ≡ dump_at bytes.now }
{
    DumpLabel {
        volume: bytes[1],
        body: bytes[2],
        start: u64::from_be_bytes([
            bytes[8], bytes[9], bytes[10], bytes[11], bytes[12], bytes[13], bytes[14], bytes[15],
        ]),
        sequence: u64::from_be_bytes([
            bytes[16], bytes[17], bytes[18], bytes[19], bytes[20], bytes[21], bytes[22], bytes[23],
        ]),
    }
}

/// What is wrong in a dump label.
fn dump_label_fault(bytes: &[u8]) -> Option<u16>
    requires { length bytes.now ≡ 256 }
    ensures { result ≡ bad_dump_label bytes.now }
{
    let label = dump_label_in(bytes);
    first_of(&[
        offset_unless(bytes[0] == 1, 0),
        offset_unless(is_between(1, 8, u64::from(label.volume)), 1),
        offset_unless(is_between(2, 3, u64::from(label.body)), 2),
        first_nonzero(3, &bytes[3..8]),
        offset_unless(is_between(1, LAST_POSITION, label.start), 8),
        offset_unless(1 <= label.sequence, 16),
        first_nonzero(24, &bytes[24..256]),
    ])
}
