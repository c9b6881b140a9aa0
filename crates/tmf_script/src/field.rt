//! The words of lines that are names, keys, values and numbers.
ghost use Rattle.std.specs.Prelude.{◌≡◌, ◌≢◌, ℕ, ◌^◌, ◌<◌, ◌≤◌, ◌∷◌, length, slice_index, IfOk, IfSome, IfNone, MatchOption};
ghost use Rattle.std.specs.Fmt.{decimal};
ghost use Rattle.std.specs.Option.{option_copied};
ghost use Rattle.tmf_script.specs.Checks.{Gives};
ghost use Rattle.tmf_script.specs.Field.{trail_name, file_name, volume_name, key_of, value_of, count_of, count_behind_kill, number_text};

use crate::fault::Why;
use crate::keyword::is_same;
use std::str;
use tmf_model::{Key, Name, Value};

/// A trail's name: that of a file, but not the monitor's.
pub fn trail_of(word: &[u8]) -> Result<Name, Why>
    ensures { Gives (λ name. name) result (trail_name word.now) }
{
    if is_same(word, b"MAT") {
        Err(Why::BadWord)
    } else {
        file_of(word)
    }
}

/// A file's name.
pub fn file_of(word: &[u8]) -> Result<Name, Why>
    ensures { Gives (λ name. name) result (file_name word.now) }
{
    match Name::new(word) {
        Ok(name) if !name.is_volume() => Ok(name),
        _ => Err(Why::BadWord),
    }
}

/// A volume's name.
pub fn volume_of(word: &[u8]) -> Result<Name, Why>
    ensures { Gives (λ name. name) result (volume_name word.now) }
{
    match Name::new(word) {
        Ok(name) if name.is_volume() => Ok(name),
        _ => Err(Why::BadWord),
    }
}

/// A record's key.
pub fn key(word: &[u8]) -> Result<Key, Why>
    ensures { Gives (λ key. key) result (key_of word.now) }
{
    match Key::new(word) {
        Ok(key) => Ok(key),
        Err(_) => Err(Why::BadWord),
    }
}

/// A record's value.
pub fn value(word: &[u8]) -> Result<Value, Why>
    ensures { Gives (λ value. value) result (value_of word.now) }
{
    match Value::new(word) {
        Ok(value) => Ok(value),
        Err(_) => Err(Why::BadWord),
    }
}

/// A count from `least` to `most`.
pub fn count(word: &[u8], least: u64, most: u64) -> Result<u64, Why>
    ensures exact { Gives (λ count. count) result (count_of least most word.now) }
    ensures above { IfOk result (λ count. least ≤ count) }
    ensures below { IfOk result (λ count. count ≤ most) }
{
    match decimal_number(word) {
        Some(number) => {
            if least <= number && number <= most {
                Ok(number)
            } else {
                Err(Why::BadNumber)
            }
        }
        None => Err(Why::BadNumber),
    }
}

/// The number after `kill`, if there is a word there.
pub fn kill_count(word: Option<&[u8]>) -> Result<Option<u64>, Why>
    ensures { Gives (λ count. count) result (count_behind_kill (option_copied word.entry)) }
{
    match word {
        None => Ok(None),
        Some(word) => Ok(Some(count(word, 0, 1_000_000_000)?)),
    }
}

/// The number that the bytes write in decimal, if they do.
fn decimal_number(bytes: &[u8]) -> Option<u64>
    ensures { MatchOption result ((n : ℕ) → n < 2 ^ 64 → bytes.now ≢ decimal n) (λ number. bytes.now ≡ decimal number) }
{
    if is_same(bytes, b"0") {
        return Some(0);
    }
    match parsed(bytes) {
        Some(number) => { if b'1' <= bytes[0] { Some(number) } else { None } }
        None => None,
    }
}

/// The number that the bytes write in decimal, if they do; there may be zeros or a sign before it.
fn parsed(bytes: &[u8]) -> Option<u64>
    ensures accepts { IfNone result ((n : ℕ) → n < 2 ^ 64 → bytes.now ≢ decimal n) }
    ensures found { IfSome result (λ number. (n : ℕ) → n < 2 ^ 64 → bytes.now ≡ decimal n → number ≡ n) }
    ensures plain { IfSome result (λ number. 48 < slice_index bytes.now 0 → bytes.now ≡ decimal number) }
    ensures some { IfSome result (λ _. 0 < length bytes.now) }
{
    match str::from_utf8(bytes) {
        Ok(text) => match text.parse::<u64>() {
            Ok(number) => Some(number),
            Err(_) => None,
        },
        Err(_) => None,
    }
}

/// A number of 64 bits with a sign.
pub fn number(word: &[u8]) -> Result<i64, Why>
    ensures { Gives (λ number. number) result (number_text word.now) }
{
    match word {
        [b'-', digits @ ..] => negative(digits),
        _ => plain_number(word),
    }
}

/// A number without a sign.
fn plain_number(word: &[u8]) -> Result<i64, Why>
    requires { slice_index word.now 0 ≢ 45 }
    ensures { Gives (λ number. number) result (number_text word.now) }
{
    match decimal_number(word) {
        Some(number) => {
            if number <= i64::MAX as u64 {
                Ok(number as i64)
            } else {
                Err(Why::BadNumber)
            }
        }
        None => Err(Why::BadNumber),
    }
}

/// The number whose digits stand behind a minus sign.
fn negative(digits: &[u8]) -> Result<i64, Why>
    ensures { Gives (λ number. number) result (number_text (45 ∷ digits.now)) }
{
    match decimal_number(digits) {
        Some(number) => {
            if 1 <= number && number <= 1 << 63 {
                Ok(-((number - 1) as i64) - 1)
            } else {
                Err(Why::BadNumber)
            }
        }
        None => Err(Why::BadNumber),
    }
}
