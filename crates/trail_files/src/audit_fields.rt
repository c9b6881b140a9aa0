//! The fields of an audit record's 128 bytes.
ghost use Rattle.std.specs.Prelude.{◌≡◌, ◌≤◌, slice_index, None, Some, IfOk, IfErr, length};
ghost use Rattle.trail_files.specs.AuditFormat.{kind_code, audit_head, audit_spelling, is_disc_of, is_file_of, are_image_lengths, kind_at, audit_head_fields, audit_word_fields, audit_fields, audit_record_at};
ghost use Rattle.trail_files.specs.RecordTable.{first_bad};

use crate::audit_record::{AuditKind, AuditRecord};
use crate::record_table::{first_bad_field, identifier, is_between, is_padding, written_number};
use crate::rules::Rules;
use crate::word_field::{image_at, image_slice, key_at, write_word};
use tmf_model::{Key, Value};

/// The last position of a disc.
const LAST_POSITION: u64 = 4_611_686_018_427_387_903;

/// The byte that stands for the kind.
fn code(kind: AuditKind) -> u8
    ensures { result ≡ kind_code kind }
{
    match kind {
        AuditKind::Change => 1,
        AuditKind::Undo => 2,
    }
}

/// Writes the fields before the key.
fn write_head(item: &AuditRecord, number: u64, into: &mut [u8])
    requires { length into.old ≡ 24 }
    ensures { into.new ≡ audit_head item.now number }
{
    let kind = code(item.kind);
    let attempt = item.tx.attempt;
    let key = item.key.as_bytes().len() as u8;
    let before = image_slice(&item.before).len() as u8;
    let after = image_slice(&item.after).len() as u8;
    let [a, b, c, d] = item.tx.epoch.to_be_bytes();
    let [e, f] = item.tx.worker.to_be_bytes();
    let [g, h] = item.tx.ordinal.to_be_bytes();
    let [i, j, k, l, m, n, o, p] = number.to_be_bytes();
    into.copy_from_slice(&[
        kind, item.disc, item.file, key, a, b, c, d, e, f, g, h, attempt, before, after, 0, i, j,
        k, l, m, n, o, p,
    ]);
}

/// Writes the record with a number.
pub fn write_audit(item: &AuditRecord, number: u64, into: &mut [u8])
    requires { length into.old ≡ 128 }
    ensures { into.new ≡ audit_spelling item.now number }
{
    let (head, words) = into.split_at_mut(24);
    write_head(item, number, head);
    let (key, images) = words.split_at_mut(16);
    write_word(item.key.as_bytes(), key);
    let (before, rest) = images.split_at_mut(40);
    write_word(image_slice(&item.before), before);
    let (after, end) = rest.split_at_mut(40);
    write_word(image_slice(&item.after), after);
    end.fill(0);
}

/// Whether the disc's audit is on this trail.
fn has_disc(rules: &Rules, disc: u8) -> bool
    ensures { result ≡ is_disc_of rules.now disc }
{
    rules.discs.as_slice().iter().any(|&one| one == disc)
}

/// Whether the file stands on the disc.
fn has_file(rules: &Rules, file: u8, disc: u8) -> bool
    ensures { result ≡ is_file_of rules.now file disc }
{
    rules
        .files
        .as_slice()
        .iter()
        .any(|pair| pair.0 == file && pair.1 == disc)
}

/// Whether the images may have these lengths: one of them at least is there.
fn are_lengths(before: u8, after: u8) -> bool
    ensures { result ≡ are_image_lengths before after }
{
    after <= 40 && !(before == 0 && after == 0)
}

/// The first of the fields before the key that is out of its range.
fn bad_head_field(bytes: &[u8], rules: &Rules) -> Option<u32>
    requires { length bytes.now ≡ 128 }
    ensures { result ≡ first_bad (audit_head_fields rules.now bytes.now) }
{
    let tx = identifier(bytes);
    first_bad_field(&[
        (0, is_between(1, 2, u64::from(bytes[0]))),
        (1, has_disc(rules, bytes[1])),
        (2, has_file(rules, bytes[2], bytes[1])),
        (3, is_between(1, 16, u64::from(bytes[3]))),
        (4, 1 <= tx.epoch),
        (8, is_between(1, 16, u64::from(tx.worker))),
        (10, is_between(1, 4096, u64::from(tx.ordinal))),
        (12, is_between(1, 8, u64::from(tx.attempt))),
        (13, bytes[13] <= 40),
        (14, are_lengths(bytes[13], bytes[14])),
        (15, bytes[15] == 0),
        (16, is_between(1, LAST_POSITION, written_number(bytes))),
    ])
}

/// The key and the images, or the first of the fields from the key on that is out of its range.
fn words(bytes: &[u8]) -> Result<(Key, Option<Value>, Option<Value>), u32>
    requires length { length bytes.now ≡ 128 }
    requires some { 1 ≤ slice_index bytes.now 3 }
    requires key { slice_index bytes.now 3 ≤ 16 }
    requires before { slice_index bytes.now 13 ≤ 40 }
    requires after { slice_index bytes.now 14 ≤ 40 }
    ensures key { IfOk result (λ found. found.0 ≡ (audit_record_at bytes.now).key) }
    ensures before { IfOk result (λ found. found.1 ≡ (audit_record_at bytes.now).before) }
    ensures after { IfOk result (λ found. found.2 ≡ (audit_record_at bytes.now).after) }
    ensures fine { IfOk result (λ _. first_bad (audit_word_fields bytes.now) ≡ None) }
    ensures cause { IfErr result (λ at. first_bad (audit_word_fields bytes.now) ≡ Some at) }
{
    let Some(key) = key_at(&bytes[24..40], bytes[3]) else {
        return Err(24);
    };
    let Some(before) = image_at(&bytes[40..80], bytes[13]) else {
        return Err(40);
    };
    let Some(after) = image_at(&bytes[80..120], bytes[14]) else {
        return Err(80);
    };
    if is_padding(&bytes[120..128]) {
        Ok((key, before, after))
    } else {
        Err(120)
    }
}

/// The kind with this code; each code but 1 is read as that of an Undo.
fn kind(code: u8) -> AuditKind
    ensures { result ≡ kind_at code }
{
    if code == 1 {
        AuditKind::Change
    } else {
        AuditKind::Undo
    }
}

/// The record that the bytes spell, or the first field that is out of its range.
pub fn audit_record(bytes: &[u8], rules: &Rules) -> Result<AuditRecord, u32>
    requires { length bytes.now ≡ 128 }
    ensures value { IfOk result (λ item. item ≡ audit_record_at bytes.now) }
    ensures fine { IfOk result (λ _. first_bad (audit_fields rules.now bytes.now) ≡ None) }
    ensures cause { IfErr result (λ at. first_bad (audit_fields rules.now bytes.now) ≡ Some at) }
{
    if let Some(at) = bad_head_field(bytes, rules) {
        return Err(at);
    }
    match words(bytes) {
        Err(at) => Err(at),
        Ok((key, before, after)) => Ok(AuditRecord {
            kind: kind(bytes[0]),
            disc: bytes[1],
            file: bytes[2],
            tx: identifier(bytes),
            position: written_number(bytes),
            key,
            before,
            after,
        }),
    }
}
