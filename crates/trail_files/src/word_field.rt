//! Fields that hold a word: its bytes, then zeros.
ghost use Rattle.std.specs.Prelude.{◌≡◌, ◌≤◌, ◌++◌, length, take, Some, None, if◌then◌else◌};
ghost use Rattle.trail_files.specs.AuditFormat.{image_bytes, image_in};
ghost use Rattle.trail_files.specs.WordField.{word_field, holds_word};

use crate::record_table::is_padding;
use tmf_model::{Key, VALUE_BYTES, Value};

/// Writes the word into the field, and zeros behind it.
pub fn write_word(word: &[u8], into: &mut [u8])
    requires { length word.now ≤ length into.old }
    ensures { into.new ≡ word_field (length into.old) word.now }
{
    let (front, rest) = into.split_at_mut(word.len());
    front.copy_from_slice(word);
    rest.fill(0);
}

/// The bytes of an image; an absent one has none.
pub fn image_slice(image: &Option<Value>) -> &[u8]
    ensures value { result.now ≡ image_bytes image.now }
    ensures fits { length result.now ≤ VALUE_BYTES }
{
    match image {
        Some(value) => value.as_bytes(),
        None => &[],
    }
}

/// The key with this length in a field, if the field holds one.
pub fn key_at(field: &[u8], len: u8) -> Option<Key>
    requires some { 1 ≤ len }
    requires fits { len ≤ 16 }
    requires field { length field.now ≡ 16 }
    ensures { result ≡ (if holds_word len field.now then Some (take len field.now) else None) }
{
    let (word, rest) = field.split_at(usize::from(len));
    if is_padding(rest) {
        Key::new(word).ok()
    } else {
        None
    }
}

/// The image with this length in a field, absent at length 0, if the field holds one.
pub fn image_at(field: &[u8], len: u8) -> Option<Option<Value>>
    requires fits { len ≤ VALUE_BYTES }
    requires field { length field.now ≡ VALUE_BYTES }
    ensures { result ≡ (if holds_word len field.now then Some (image_in len field.now) else None) }
{
    let (word, rest) = field.split_at(usize::from(len));
    if !is_padding(rest) {
        None
    } else if len == 0 {
        Some(None)
    } else {
        Value::new(word).ok().map(Some)
    }
}
