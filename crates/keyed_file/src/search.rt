//! Records in rising order of their keys: how one is found, put in and taken out.
ghost use Rattle.std.specs.Prelude.{◌≡◌, ◌<◌, ◌≤◌, ◌⊎◌, not, true, length, is_some, bytes_eq, MatchResult, IfSome, vec_capacity};
ghost use Rattle.std.specs.Cmp.Lexicographic.{slice_cmp};
ghost use Rattle.std.specs.FinMap.Entries.{put, where_key};
ghost use Rattle.std.specs.List.{list_any};
ghost use Rattle.std.specs.List.Sorted.{IsStrictlySortedBy};
ghost use Rattle.std.specs.Map.{lookup, keys_of};
ghost use Rattle.std.specs.Ordering.{nat_cmp, is_eq};
ghost use Rattle.keyed_file.specs.Block.{CanTake, is_record, new_keys};
ghost use Rattle.keyed_file.specs.Search.{StandsAt, MissesAt, with_record};

use std::cmp::Ordering;
use tmf_model::{Key, Value};

/// The index of the key's record, or the index at which it would stand.
fn place_in(records: &[(Key, Value)], key: &Key) -> Result<usize, usize>
    ensures { MatchResult result (StandsAt records.now key.now) (MissesAt records.now key.now) }
{
    let mut at = 0;
    for (other, _) in records {
        match key.cmp(other) {
            Ordering::Greater => at += 1,
            Ordering::Equal => return Ok(at),
            Ordering::Less => return Err(at),
        }
    }
    Err(at)
}

/// The value at the key, if there is one.
pub fn value_in(records: &[(Key, Value)], key: &Key) -> Option<Value>
    requires { IsStrictlySortedBy (slice_cmp nat_cmp) (keys_of records.now) }
    ensures { result ≡ lookup (bytes_eq key.now) records.now }
{
    match place_in(records, key) {
        Ok(at) => Some(records[at].1),
        Err(_) => None,
    }
}

/// Whether the key is one of the kept ones.
pub fn has_kept(kept: &[Key], key: &Key) -> bool
    ensures { result ≡ list_any (bytes_eq key.now) kept.now }
{
    kept.iter().any(|other| key == other)
}

/// How many of the keys have no record.
pub fn count_new(records: &[(Key, Value)], keys: &[Key]) -> usize
    requires { IsStrictlySortedBy (slice_cmp nat_cmp) (keys_of records.now) }
    ensures { result ≡ length (new_keys records.now keys.now) }
{
    let mut count = 0;
    for key in keys {
        if value_in(records, key).is_none() {
            count += 1;
        }
    }
    count
}

/// Sets the value at the key, or takes its record away.
pub fn set_record(records: &mut Vec<(Key, Value)>, key: &Key, value: Option<Value>)
    requires rising { IsStrictlySortedBy (slice_cmp nat_cmp) (keys_of records.old.items) }
    requires room { 62 ≤ vec_capacity records.old }
    requires few { CanTake records.old.items key.now value }
    ensures items { records.new.items ≡ with_record key.now value records.old.items }
    ensures form { IfSome value (λ new. is_record (key.now, new) ≡ true) }
    ensures room { 62 ≤ vec_capacity records.new }
{
    match value {
        Some(value) => put_record(records, key, value),
        None => remove_record(records, key),
    }
}

/// The key with the value. That their bytes have the form of a record's is known once they are seen.
fn entry(key: &Key, value: Value) -> (Key, Value)
    ensures value { result ≡ (key.now, value) }
    ensures form { is_record (key.now, value) ≡ true }
{
    key.as_bytes();
    value.as_bytes();
    (*key, value)
}

/// Puts the record into its place, or gives the key's record the value.
fn put_record(records: &mut Vec<(Key, Value)>, key: &Key, value: Value)
    requires rising { IsStrictlySortedBy (slice_cmp nat_cmp) (keys_of records.old.items) }
    requires room { 62 ≤ vec_capacity records.old }
    requires few { (is_some (lookup (bytes_eq key.now) records.old.items) ≡ true)
        ⊎ (length records.old.items < 62) }
    ensures form { is_record (key.now, value) ≡ true }
    ensures items { records.new.items ≡ put (slice_cmp nat_cmp) key.now value records.old.items }
    ensures room { 62 ≤ vec_capacity records.new }
{
    let record = entry(key, value);
    match place_in(records.as_slice(), key) {
        Ok(at) => records[at] = record,
        Err(at) => match records.insert(at, record) {
            Ok(()) => {}
            Err(_) => unreachable!(),
        },
    }
}

/// Takes out the key's record, if there is one.
fn remove_record(records: &mut Vec<(Key, Value)>, key: &Key)
    requires rising { IsStrictlySortedBy (slice_cmp nat_cmp) (keys_of records.old.items) }
    ensures items { records.new.items
        ≡ where_key (slice_cmp nat_cmp) (λ other. not (is_eq (slice_cmp nat_cmp key.now other))) records.old.items }
    ensures room { vec_capacity records.new ≡ vec_capacity records.old }
{
    if let Ok(at) = place_in(records.as_slice(), key) {
        records.remove(at);
    }
}
