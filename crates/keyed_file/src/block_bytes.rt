//! The bytes of a block: a head of 128 bytes, and 62 slots.
ghost use Rattle.std.specs.Prelude.{◌≡◌, ◌≤◌, ◌<◌, ◌+◌, ◌++◌, [], None, Some, IfOk, IfErr, length, drop, slice_index, flat_map, vec_capacity};
ghost use Rattle.tmf_model.specs.Word.{padded};
ghost use Rattle.keyed_file.specs.Block.{KeyedBlock};
ghost use Rattle.keyed_file.specs.BlockFormat.{HasHome, bad_head, block_head, count_at, number_at, position_at, is_home_file, is_home_number, record_at, record_row, record_text};
ghost use Rattle.keyed_file.specs.Fields.{first_of};
ghost use Rattle.keyed_file.specs.Row.{bad_row, row_at};

use crate::field::{first_nonzero, first_of, offset_unless};
use crate::home::Home;
use crate::record::{SLOT_BYTES, read_record, write_record};
use tmf_model::{Key, Value};

/// The bytes before the slots.
pub const HEAD_BYTES: usize = 128;

/// The most records of a block.
pub const RECORDS: u16 = 62;

/// The fields of a head that a block keeps.
#[derive(Clone, Copy)]
pub struct Head {
    pub file: u8,
    pub number: u16,
    pub position: u64,
    pub count: u16,
}

/// The fields of a head.
pub fn head_in(bytes: &[u8]) -> Head
    requires { 128 ≤ length bytes.now }
    ensures file { result.file ≡ slice_index bytes.now 2 }
    ensures number { result.number ≡ number_at bytes.now }
    ensures position { result.position ≡ position_at bytes.now }
    ensures count { result.count ≡ count_at bytes.now }
{
    Head {
        file: bytes[2],
        number: u16::from_be_bytes([bytes[4], bytes[5]]),
        position: u64::from_be_bytes([
            bytes[8], bytes[9], bytes[10], bytes[11], bytes[12], bytes[13], bytes[14], bytes[15],
        ]),
        count: u16::from_be_bytes([bytes[16], bytes[17]]),
    }
}

/// Whether the file is the wanted one, where one is.
fn is_home_file(home: Option<Home>, file: u8) -> bool
    ensures { result ≡ is_home_file home file }
{
    match home {
        Some(home) => file == home.file,
        None => true,
    }
}

/// Whether the number is the wanted one, where one is.
fn is_home_number(home: Option<Home>, number: u16) -> bool
    ensures { result ≡ is_home_number home number }
{
    match home {
        Some(home) => number == home.number,
        None => true,
    }
}

/// What is wrong in a block's head.
pub fn head_fault(home: Option<Home>, bytes: &[u8]) -> Option<u16>
    requires { 128 ≤ length bytes.now }
    ensures { result ≡ first_of (bad_head home bytes.now) }
{
    let head = head_in(bytes);
    first_of(&[
        offset_unless(bytes[0] == 1, 0),
        first_nonzero(1, &bytes[1..2]),
        offset_unless(is_home_file(home, head.file), 2),
        first_nonzero(3, &bytes[3..4]),
        offset_unless(is_home_number(home, head.number), 4),
        first_nonzero(6, &bytes[6..8]),
        offset_unless(head.count <= RECORDS, 16),
        first_nonzero(18, &bytes[18..HEAD_BYTES]),
    ])
}

/// Writes the fields before the slots.
pub fn write_head(head: Head, into: &mut [u8])
    requires { length into.old ≡ 128 }
    ensures { (block : KeyedBlock) → head.file ≡ block.file → head.number ≡ block.number
        → head.position ≡ block.position → head.count ≡ length block.records
        → into.new ≡ block_head block }
{
    let [a, b] = head.number.to_be_bytes();
    let [c, d, e, f, g, h, i, j] = head.position.to_be_bytes();
    let [k, l] = head.count.to_be_bytes();
    let (front, rest) = into.split_at_mut(18);
    front.copy_from_slice(&[1, 0, head.file, 0, a, b, 0, 0, c, d, e, f, g, h, i, j, k, l]);
    rest.fill(0);
}

/// Reads so many records behind a head into a vector that has room, or tells the first offset that is wrong.
pub fn read_records(
    home: Option<Home>,
    count: u16,
    slots: &[u8],
    records: &mut Vec<(Key, Value)>,
) -> Result<(), u16>
    requires home { HasHome home }
    requires few { count ≤ 62 }
    requires slots { length slots.now ≡ 3968 }
    requires empty { records.old.items ≡ [] }
    requires room { 62 ≤ vec_capacity records.old }
    ensures value { IfOk result (λ _. records.new.items ≡ row_at (record_row home) count slots.now) }
    ensures fine { IfOk result (λ _. bad_row (record_row home) 128 [] count slots.now ≡ None) }
    ensures cause { IfErr result (λ at. bad_row (record_row home) 128 [] count slots.now ≡ Some at) }
    ensures room { vec_capacity records.new ≡ vec_capacity records.old }
{
    let mut rest = slots;
    let mut previous: &[u8] = &[];
    let mut at = HEAD_BYTES as u16;
    let mut left = count;
    while left > 0 {
        let (slot, behind) = rest.split_at(SLOT_BYTES);
        let record = match read_record(home, at, previous, slot) {
            Ok(record) => record,
            Err(offset) => return Err(offset),
        };
        records.push_reserved(record);
        previous = &slot[8..24][..usize::from(slot[0])];
        rest = behind;
        at += SLOT_BYTES as u16;
        left -= 1;
    }
    match first_nonzero(at, rest) {
        Some(offset) => Err(offset),
        None => Ok(()),
    }
}

/// The first offset that is wrong in so many records behind a head, if one is.
pub fn records_fault(home: Option<Home>, count: u16, slots: &[u8]) -> Option<u16>
    requires home { HasHome home }
    requires few { count ≤ 62 }
    requires slots { length slots.now ≡ 3968 }
    ensures { result ≡ bad_row (record_row home) 128 [] count slots.now }
{
    let mut rest = slots;
    let mut previous: &[u8] = &[];
    let mut at = HEAD_BYTES as u16;
    let mut left = count;
    while left > 0 {
        let (slot, behind) = rest.split_at(SLOT_BYTES);
        let record = match read_record(home, at, previous, slot) {
            Ok(record) => record,
            Err(offset) => return Some(offset),
        };
        let _record = record;
        previous = &slot[8..24][..usize::from(slot[0])];
        rest = behind;
        at += SLOT_BYTES as u16;
        left -= 1;
    }
    first_nonzero(at, rest)
}

/// Writes the records into their slots, and zeros behind them.
pub fn write_records(records: &[(Key, Value)], slots: &mut [u8])
    requires few { length records.now ≤ 62 }
    requires slots { length slots.old ≡ 3968 }
    ensures { slots.new ≡ padded 3968 (flat_map record_text records.now) }
{
    let mut at = 0;
    for (key, value) in records {
        write_record(key, value, &mut slots[at..at + SLOT_BYTES]);
        at += SLOT_BYTES;
    }
    slots[at..].fill(0);
}
