//! The files of a volume's label, each in 4 bytes.
ghost use Rattle.std.specs.Prelude.{◌≡◌, ◌≤◌, ◌+◌, [], None, Some, IfOk, IfErr, length, flat_map, vec_capacity};
ghost use Rattle.tmf_model.specs.Word.{padded};
ghost use Rattle.keyed_file.specs.Fields.{first_of};
ghost use Rattle.keyed_file.specs.LabelFormat.{bad_file, file_row, file_text};
ghost use Rattle.keyed_file.specs.Row.{bad_row, row_at};

use crate::field::{first_nonzero, first_of, is_between, offset_unless};

/// The bytes of a file.
const FILE_BYTES: usize = 4;

/// The file that stands at `at` behind a file with a lower number, or the first offset that is wrong.
fn read_file(at: u16, previous: u8, bytes: &[u8]) -> Result<(u8, u16), u16>
    requires bytes { length bytes.now ≡ 4 }
    requires within { at ≤ 60000 }
    ensures value { IfOk result (λ file. file ≡ file_row.item_at bytes.now) }
    ensures fine { IfOk result (λ _. file_row.bad_item at previous bytes.now ≡ None) }
    ensures cause { IfErr result (λ offset. file_row.bad_item at previous bytes.now ≡ Some offset) }
{
    let file = bytes[0];
    let blocks = u16::from_be_bytes([bytes[2], bytes[3]]);
    let fault = first_of(&[
        offset_unless(previous < file && is_between(1, 16, u64::from(file)), at),
        first_nonzero(at + 1, &bytes[1..2]),
        offset_unless(is_between(1, 256, u64::from(blocks)), at + 2),
    ]);
    match fault {
        Some(offset) => Err(offset),
        None => Ok((file, blocks)),
    }
}

/// Reads so many files into a vector that has room, or tells the first offset that is wrong.
pub fn read_files(count: u8, entries: &[u8], files: &mut Vec<(u8, u16)>) -> Result<(), u16>
    requires few { count ≤ 16 }
    requires entries { length entries.now ≡ 240 }
    requires empty { files.old.items ≡ [] }
    requires room { 16 ≤ vec_capacity files.old }
    ensures value { IfOk result (λ _. files.new.items ≡ row_at file_row count entries.now) }
    ensures fine { IfOk result (λ _. bad_row file_row 16 0 count entries.now ≡ None) }
    ensures cause { IfErr result (λ at. bad_row file_row 16 0 count entries.now ≡ Some at) }
{
    let mut rest = entries;
    let mut previous = 0;
    let mut at = 16;
    let mut left = count;
    while left > 0 {
        let (entry, behind) = rest.split_at(FILE_BYTES);
        let file = match read_file(at, previous, entry) {
            Ok(file) => file,
            Err(offset) => return Err(offset),
        };
        files.push_reserved(file);
        previous = entry[0];
        rest = behind;
        at += FILE_BYTES as u16;
        left -= 1;
    }
    match first_nonzero(at, rest) {
        Some(offset) => Err(offset),
        None => Ok(()),
    }
}

/// Writes the files, and zeros behind them.
pub fn write_files(files: &[(u8, u16)], entries: &mut [u8])
    requires few { length files.now ≤ 16 }
    requires entries { length entries.old ≡ 240 }
    ensures { entries.new ≡ padded 240 (flat_map file_text files.now) }
{
    let mut at = 0;
    for (file, blocks) in files {
        let [high, low] = blocks.to_be_bytes();
        entries[at..at + FILE_BYTES].copy_from_slice(&[*file, 0, high, low]);
        at += FILE_BYTES;
    }
    entries[at..].fill(0);
}
