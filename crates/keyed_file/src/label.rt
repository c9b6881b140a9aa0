//! The label of a volume.
ghost use Rattle.std.specs.Prelude.{◌≡◌, ◌≤◌, [], None, Some, IfOk, IfErr, MatchResult, length, slice_index, vec_capacity};
ghost use Rattle.tmf_model.specs.Config.{IsDeclared, IsValidConfig, IsWithin};
ghost use Rattle.keyed_file.specs.Volume.{files_on, label_of};
ghost use Rattle.keyed_file.specs.Fault.{IsLabelFault};
ghost use Rattle.keyed_file.specs.Fields.{first_of};
ghost use Rattle.keyed_file.specs.LabelFormat.{IsLabel, bad_label, bad_label_at, bad_label_head, label_text, low_at};

use crate::dump_label::LAST_POSITION;
use crate::fault::{BadLabel, LabelFault, NoMemory};
use crate::field::{first_difference, first_nonzero, first_of, is_between, offset_unless};
use crate::label_file::{read_files, write_files};
use std::alloc::Global;
use tmf_model::{Config, FileLine, Sequence};

/// The most files of a volume.
const FILES: usize = 16;

/// The bytes of a label.
const LABEL_BYTES: usize = 256;

/// Whose a volume's files are, and from where on its audit is wanted.
#[derive(Drop)]
pub struct Label {
    /// The volume's number, 1 to 8.
    pub volume: u8,
    /// The number of its trail, 1 to 4.
    pub trail: u8,
    /// The position from which on the audit is wanted, 1 to 2^62.
    pub low: u64,
    /// Each file of the volume, 1 to 16 in rising order, and its blocks, 1 to 256.
    pub files: Sequence<(u8, u16)>,
}

impl Label {
    /// The label that a volume has in a configuration, with this low position.
    pub fn of_volume(
        alloc: Global,
        config: &Config,
        volume: u8,
        low: u64,
    ) -> Result<Label, NoMemory>
        requires config { IsValidConfig config.now }
        requires volume { IsDeclared config.now.volumes volume }
        requires low { IsWithin 1 4611686018427387904 low }
        ensures value { IfOk result (λ label. label ≡ label_of config.now volume low) }
        ensures valid { IfOk result IsLabel }
    {
        let Ok(mut files) = Vec::with_capacity(alloc, FILES) else {
            return Err(NoMemory);
        };
        list_files(config.files.as_slice(), volume, &mut files);
        let trail = config.volumes.as_slice()[usize::from(volume) - 1].trail;
        Ok(Label {
            volume,
            trail,
            low,
            files: Sequence::new(files),
        })
    }

    /// The label that the bytes spell, or the first offset that is wrong.
    pub fn decode(alloc: Global, bytes: &[u8]) -> Result<Label, LabelFault>
        requires { length bytes.now ≡ 256 }
        ensures valid { IfOk result IsLabel }
        ensures spelled { IfOk result (λ label. bytes.now ≡ label_text label) }
        ensures only { (label : Label) → IsLabel label → bytes.now ≡ label_text label
            → MatchResult result (λ found. found ≡ label) (λ fault. fault ≡ LabelFault.NoMemory) }
        ensures fine { IfOk result (λ _. bad_label bytes.now ≡ None) }
        ensures cause { IfErr result (IsLabelFault (bad_label bytes.now)) }
    {
        if let Some(at) = head_fault(bytes) {
            return Err(LabelFault::Bad(BadLabel { at }));
        }
        let mut files = match Vec::with_capacity(alloc, FILES) {
            Ok(files) => files,
            Err(_) => return Err(LabelFault::NoMemory),
        };
        let (_, entries) = bytes.split_at(16);
        match read_files(bytes[3], entries, &mut files) {
            Ok(()) => Ok(Label {
                volume: bytes[1],
                trail: bytes[2],
                low: low_in(bytes),
                files: Sequence::new(files),
            }),
            Err(at) => Err(LabelFault::Bad(BadLabel { at })),
        }
    }

    /// The same, where the label has to be the wanted one, with any low position. The first offset that is wrong is that of a field
    /// out of its range or of a byte that differs from the wanted one, whichever stands first.
    pub fn decode_at(alloc: Global, wanted: &Label, bytes: &[u8]) -> Result<Label, LabelFault>
        requires bytes { length bytes.now ≡ 256 }
        requires wanted { IsLabel wanted.now }
        ensures valid { IfOk result IsLabel }
        ensures wanted { IfOk result (λ label. label ≡ record wanted.now { low = label.low }) }
        ensures spelled { IfOk result (λ label. bytes.now ≡ label_text label) }
        ensures only { (label : Label) → IsLabel label → label ≡ record wanted.now { low = label.low }
            → bytes.now ≡ label_text label
            → MatchResult result (λ found. found ≡ label) (λ fault. fault ≡ LabelFault.NoMemory) }
        ensures fine { IfOk result (λ _. bad_label_at wanted.now bytes.now ≡ None) }
        ensures cause { IfErr result (IsLabelFault (bad_label_at wanted.now bytes.now)) }
    {
        let mut text = [0; LABEL_BYTES];
        write_label(wanted, low_in(bytes), &mut text);
        let difference = first_difference(bytes, &text);
        match Label::decode(alloc, bytes) {
            Ok(label) => match difference {
                Some(at) => Err(LabelFault::Bad(BadLabel { at })),
                None => Ok(label),
            },
            Err(LabelFault::Bad(bad)) => match difference {
                Some(at) if at < bad.at => Err(LabelFault::Bad(BadLabel { at })),
                _ => Err(LabelFault::Bad(bad)),
            },
            Err(LabelFault::NoMemory) => Err(LabelFault::NoMemory),
        }
    }

    /// Writes the label's spelling, which `decode` reads as this label again.
    pub fn encode(&self, into: &mut [u8])
        requires bytes { length into.old ≡ 256 }
        requires label { IsLabel self.now }
        ensures { into.new ≡ label_text self.now }
    {
        write_label(self, self.low, into);
    }
}

/// Lists the files of a volume, with their blocks, in a vector that has room for 16.
fn list_files(lines: &[FileLine], volume: u8, files: &mut Vec<(u8, u16)>)
    requires few { length lines.now ≤ 16 }
    requires empty { files.old.items ≡ [] }
    requires room { 16 ≤ vec_capacity files.old }
    ensures { files.new.items ≡ files_on volume 1 lines.now }
{
    let mut number = 1;
    for line in lines {
        if line.volume == volume {
            files.push_reserved((number, line.blocks));
        }
        number += 1;
    }
}

/// Writes the spelling of a label with this low position in the place of its own.
fn write_label(label: &Label, low: u64, into: &mut [u8])
    requires bytes { length into.old ≡ 256 }
    requires few { length label.now.files ≤ 16 }
    ensures { into.new ≡ label_text (record label.now { low = low }) }
{
    let [a, b, c, d, e, f, g, h] = low.to_be_bytes();
    let count = label.files.len() as u8;
    let (front, entries) = into.split_at_mut(16);
    front.copy_from_slice(&[
        1,
        label.volume,
        label.trail,
        count,
        0,
        0,
        0,
        0,
        a,
        b,
        c,
        d,
        e,
        f,
        g,
        h,
    ]);
    write_files(label.files.as_slice(), entries);
}

/// The low position.
fn low_in(bytes: &[u8]) -> u64
    requires { length bytes.now ≡ 256 }
    ensures { result ≡ low_at bytes.now }
{
    u64::from_be_bytes([
        bytes[8], bytes[9], bytes[10], bytes[11], bytes[12], bytes[13], bytes[14], bytes[15],
    ])
}

/// What is wrong before a label's files.
fn head_fault(bytes: &[u8]) -> Option<u16>
    requires { length bytes.now ≡ 256 }
    ensures { result ≡ first_of (bad_label_head bytes.now) }
{
    first_of(&[
        offset_unless(bytes[0] == 1, 0),
        offset_unless(is_between(1, 8, u64::from(bytes[1])), 1),
        offset_unless(is_between(1, 4, u64::from(bytes[2])), 2),
        offset_unless(bytes[3] <= 16, 3),
        first_nonzero(4, &bytes[4..8]),
        offset_unless(is_between(1, LAST_POSITION, low_in(bytes)), 8),
    ])
}
