//! The bytes of a batch.
ghost use Rattle.std.specs.Prelude.{◌≡◌, ◌<◌, ◌≤◌, ◌+◌, ◌*◌, ◌^◌, ◌++◌, ◌∷◌, [], ℕ, List, length, slice_index, None, Some, true, IfOk, IfErr};
ghost use Rattle.trail_files.specs.declared.rules.Rules.{Rules};
ghost use Rattle.trail_files.specs.Format.{text};
ghost use Rattle.trail_files.specs.Text.{head, body, records_text};
ghost use Rattle.trail_files.specs.Damaged.{count_in, is_count, first_failed, head_checks};

use crate::damage::DamageKind;
use crate::spelled::Spelled;

/// The version of what is written.
pub(crate) const VERSION: u8 = 1;

fn fill_head(count: u32, into: &mut [u8])
    requires { length into.old ≡ 15 }
    ensures { into.new ≡ head count }
{
    let [a, b, c, d] = count.to_be_bytes();
    into.copy_from_slice(&[VERSION, 0, 0, a, b, c, d, 0, 0, 0, 0, 0, 0, 0, 0]);
}

fn fill_records<R: Spelled>(records: &[R], place: u128, into: &mut [u8])
    requires places { place + length records.now < 2 ^ 128 }
    requires fits { length into.old ≡ length records.now * R.record_length }
    ensures { (rules : Rules) → into.new ≡ records_text (text (R.format rules)) place records.now }
{
    let size = R::length(VERSION) as usize;
    let mut at = 0;
    let mut next = place;
    for record in records {
        let number = record.number(next);
        record.write(VERSION, number, &mut into[at..at + size]);
        at += size;
        next += 1;
    }
}

/// Writes the bytes of a batch behind its gate, and the closed gate behind it.
pub(crate) fn fill<R: Spelled>(records: &[R], place: u128, into: &mut [u8])
    requires small { length records.now < 2 ^ 32 }
    requires places { place + length records.now < 2 ^ 128 }
    requires fits { length into.old ≡ 16 + length records.now * R.record_length }
    ensures { (rules : Rules)
        → into.new ≡ body (text (R.format rules)) place records.now ++ 0 ∷ [] }
{
    let (front, rest) = into.split_at_mut(15);
    let (middle, last) = rest.split_at_mut(rest.len() - 1);
    fill_head(records.len() as u32, front);
    fill_records(records, place, middle);
    last[0] = 0;
}

/// The count of an open batch of a file, from its gate and head; or the first field of the head that is wrong.
pub(crate) fn count_of(bytes: &[u8], file: u32, most: u32) -> Result<u32, (u32, DamageKind)>
    requires length { length bytes.now ≡ 16 }
    requires open { slice_index bytes.now 0 ≡ 1 }
    ensures count { IfOk result (λ count. count ≡ count_in bytes.now) }
    ensures fine { IfOk result (λ _. first_failed (head_checks most file bytes.now) ≡ None) }
    ensures found { IfOk result (λ count. bytes.now ≡ 1 ∷ head count) }
    ensures few { IfOk result (λ count. count ≤ most) }
    ensures rolls { IfOk result (λ count. count ≡ 0 → file < 4294967295) }
    ensures cause { IfErr result (λ fault. first_failed (head_checks most file bytes.now) ≡ Some fault) }
{
    match head_damage(bytes, file, most) {
        None => Ok(written_count(bytes)),
        Some(fault) => Err(fault),
    }
}

// The count that a head has.
fn written_count(bytes: &[u8]) -> u32
    requires { length bytes.now ≡ 16 }
    ensures { result ≡ count_in bytes.now }
{
    u32::from_be_bytes([bytes[4], bytes[5], bytes[6], bytes[7]])
}

// Whether a batch of the file may have so many records; with none the trail goes on in the next file.
fn may_count(count: u32, file: u32, most: u32) -> bool
    ensures { result ≡ is_count most file count }
{
    count <= most && !(count == 0 && file == u32::MAX)
}

// The first of the checks that fails.
fn first_failed(checks: &[((u32, DamageKind), bool)]) -> Option<(u32, DamageKind)>
    ensures { result ≡ first_failed checks.now }
{
    checks.iter().find(|check| !check.1).map(|check| check.0)
}

// Whether a head has the version, and zeros where they have to stand.
fn is_plain(bytes: &[u8]) -> bool
    requires { length bytes.now ≡ 16 }
    ensures { (most file : ℕ) → result ≡ true → is_count most file (count_in bytes.now) ≡ true
        → first_failed (head_checks most file bytes.now) ≡ None }
{
    bytes[1] == VERSION
        && bytes[2] == 0
        && bytes[3] == 0
        && bytes[8] == 0
        && bytes[9] == 0
        && bytes[10] == 0
        && bytes[11] == 0
        && bytes[12] == 0
        && bytes[13] == 0
        && bytes[14] == 0
        && bytes[15] == 0
}

// The first field of a head that is wrong.
fn head_damage(bytes: &[u8], file: u32, most: u32) -> Option<(u32, DamageKind)>
    requires { length bytes.now ≡ 16 }
    ensures { result ≡ first_failed (head_checks most file bytes.now) }
{
    let counts = may_count(written_count(bytes), file, most);
    if counts && is_plain(bytes) {
        return None;
    }
    first_failed(&[
        ((1, DamageKind::Version), bytes[1] == VERSION),
        ((2, DamageKind::Zero), bytes[2] == 0),
        ((3, DamageKind::Zero), bytes[3] == 0),
        ((4, DamageKind::Count), counts),
        ((8, DamageKind::Zero), bytes[8] == 0),
        ((9, DamageKind::Zero), bytes[9] == 0),
        ((10, DamageKind::Zero), bytes[10] == 0),
        ((11, DamageKind::Zero), bytes[11] == 0),
        ((12, DamageKind::Zero), bytes[12] == 0),
        ((13, DamageKind::Zero), bytes[13] == 0),
        ((14, DamageKind::Zero), bytes[14] == 0),
        ((15, DamageKind::Zero), bytes[15] == 0),
    ])
}
