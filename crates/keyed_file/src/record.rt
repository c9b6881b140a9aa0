//! The records of a block, each in its slot of 64 bytes.
ghost use Rattle.std.specs.Prelude.{◌≡◌, ◌≤◌, ◌+◌, ◌++◌, ◌&&◌, ◌||◌, not, true, [], None, Some, IfOk, IfErr, length, slice_index, slice_range, flat_map};
ghost use Rattle.tmf_model.specs.Word.{is_key, is_value, padded};
ghost use Rattle.keyed_file.specs.Block.{is_record};
ghost use Rattle.keyed_file.specs.BlockFormat.{HasHome, bad_lengths, bad_words, is_behind, is_home_key, key_at, record_at, record_row, record_text};
ghost use Rattle.keyed_file.specs.Fields.{bad_word, first_of};

use crate::field::{
    first_nonzero, first_of, first_outside, is_between, offset_unless, write_padded,
};
use crate::home::Home;
use std::cmp::Ordering;
use tmf_model::{Key, VALUE_BYTES, Value, place_of};

/// The bytes of a slot.
pub const SLOT_BYTES: usize = 64;

/// Where a slot's key and value begin.
const KEY: usize = 8;

const VALUE: usize = 24;

/// Writes the record into its slot.
pub fn write_record(key: &Key, value: &Value, slot: &mut [u8])
    requires { length slot.old ≡ 64 }
    ensures { slot.new ≡ record_text (key.now, value.now) }
{
    let key = key.as_bytes();
    let value = value.as_bytes();
    let (head, words) = slot.split_at_mut(KEY);
    head.copy_from_slice(&[key.len() as u8, value.len() as u8, 0, 0, 0, 0, 0, 0]);
    let (key_field, value_field) = words.split_at_mut(VALUE - KEY);
    write_padded(key, key_field);
    write_padded(value, value_field);
}

/// What is wrong before a slot's key.
fn lengths_fault(at: u16, slot: &[u8]) -> Option<u16>
    requires slot { length slot.now ≡ 64 }
    requires within { at ≤ 60000 }
    ensures { result ≡ first_of (bad_lengths at slot.now) }
{
    first_of(&[
        offset_unless(is_between(1, 16, u64::from(slot[0])), at),
        offset_unless(
            is_between(1, VALUE_BYTES as u64, u64::from(slot[1])),
            at + 1,
        ),
        first_nonzero(at + 2, &slot[2..KEY]),
    ])
}

/// What is wrong in a field that holds a word of this length.
fn word_fault(at: u16, len: u8, field: &[u8]) -> Option<u16>
    requires field { len ≤ length field.now }
    requires within { at + length field.now ≤ 65535 }
    ensures { result ≡ bad_word at len field.now }
{
    let (word, rest) = field.split_at(usize::from(len));
    first_of(&[
        first_outside(0x21, 0x7E, at, word),
        first_nonzero(at + u16::from(len), rest),
    ])
}

/// Whether the word is behind the previous one, and in its block where it is a key.
fn may_follow(home: Option<Home>, previous: &[u8], word: &[u8]) -> bool
    requires { HasHome home }
    ensures { result ≡ (is_behind previous.now word.now && (not (is_key word.now) || is_home_key home word.now)) }
{
    match previous.cmp(&word) {
        Ordering::Less => is_in_place(home, word),
        _ => false,
    }
}

/// Whether the word is no key, or one that lives in this block.
fn is_in_place(home: Option<Home>, word: &[u8]) -> bool
    requires { HasHome home }
    ensures { result ≡ (not (is_key word.now) || is_home_key home word.now) }
{
    match (home, Key::new(word)) {
        (Some(home), Ok(key)) => place_of(&key, home.blocks) == home.number,
        _ => true,
    }
}

/// What is wrong from a slot's key on.
fn words_fault(home: Option<Home>, at: u16, previous: &[u8], slot: &[u8]) -> Option<u16>
    requires slot { length slot.now ≡ 64 }
    requires key { slice_index slot.now 0 ≤ 16 }
    requires value { slice_index slot.now 1 ≤ 40 }
    requires within { at ≤ 60000 }
    requires home { HasHome home }
    ensures { result ≡ first_of (bad_words home at previous.now slot.now) }
{
    let key = &slot[KEY..VALUE];
    let value = &slot[VALUE..];
    let word = &key[..usize::from(slot[0])];
    first_of(&[
        offset_unless(may_follow(home, previous, word), at + 8),
        word_fault(at + 8, slot[0], key),
        word_fault(at + 24, slot[1], value),
    ])
}

/// The record in a slot that stands at `at` behind the key `previous`, or the first offset that is wrong.
pub fn read_record(
    home: Option<Home>,
    at: u16,
    previous: &[u8],
    slot: &[u8],
) -> Result<(Key, Value), u16>
    requires slot { length slot.now ≡ 64 }
    requires within { at ≤ 60000 }
    requires home { HasHome home }
    ensures value { IfOk result (λ found. found ≡ record_at slot.now) }
    ensures fine { IfOk result (λ _. (record_row home).bad_item at previous.now slot.now ≡ None) }
    ensures cause { IfErr result (λ offset. (record_row home).bad_item at previous.now slot.now ≡ Some offset) }
{
    if let Some(offset) = lengths_fault(at, slot) {
        return Err(offset);
    }
    if let Some(offset) = words_fault(home, at, previous, slot) {
        return Err(offset);
    }
    Ok(record_in(slot))
}

/// The record of a slot that holds one.
fn record_in(slot: &[u8]) -> (Key, Value)
    requires slot { length slot.now ≡ 64 }
    requires key { slice_index slot.now 0 ≤ 16 }
    requires value { slice_index slot.now 1 ≤ 40 }
    requires holds { is_record (record_at slot.now) ≡ true }
    ensures { result ≡ record_at slot.now }
{
    let key_field = &slot[KEY..VALUE];
    let value_field = &slot[VALUE..];
    let key = key_of(&key_field[..usize::from(slot[0])]);
    let value = value_of(&value_field[..usize::from(slot[1])]);
    (key, value)
}

/// The key with these bytes.
fn key_of(word: &[u8]) -> Key
    requires { is_key word.now ≡ true }
    ensures { result ≡ word.now }
{
    match Key::new(word) {
        Ok(key) => key,
        Err(_) => unreachable!(),
    }
}

/// The value with these bytes.
fn value_of(word: &[u8]) -> Value
    requires { is_value word.now ≡ true }
    ensures { result ≡ word.now }
{
    match Value::new(word) {
        Ok(value) => value,
        Err(_) => unreachable!(),
    }
}
