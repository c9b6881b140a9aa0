//! The tests that both kinds of record put their fields to.
ghost use Rattle.std.specs.Prelude.{◌≡◌, ◌≤◌, length};
ghost use Rattle.trail_files.specs.RecordTable.{first_bad, are_zero, transid_at, number_at};
ghost use Rattle.tmf_model.specs.Transid.{is_between};
ghost use Rattle.trail_files.specs.RecordOrder.{damage_of};

use crate::damage::DamageKind;
use tmf_model::Transid;

/// The offset of the first field that does not fit.
pub fn first_bad_field(fields: &[(u32, bool)]) -> Option<u32>
    ensures { result ≡ first_bad fields.now }
{
    fields.iter().find(|field| !field.1).map(|field| field.0)
}

/// Damage of one kind at a field, if there is a bad one.
pub fn damage_at(kind: DamageKind, field: Option<u32>) -> Option<(u32, DamageKind)>
    ensures { result ≡ damage_of kind field }
{
    field.map(|at| (at, kind))
}

/// Whether `number` is from `least` to `greatest`.
pub fn is_between(least: u64, greatest: u64, number: u64) -> bool
    ensures { result ≡ is_between least greatest number }
{
    least <= number && number <= greatest
}

/// Whether each byte is zero. It goes on behind one that is not, so that many are compared at once.
pub fn is_padding(bytes: &[u8]) -> bool
    ensures { result ≡ are_zero bytes.now }
{
    let mut fine = true;
    for &byte in bytes {
        fine &= byte == 0;
    }
    fine
}

/// The identifier that a record holds from its fifth byte on.
pub fn identifier(bytes: &[u8]) -> Transid
    requires { 24 ≤ length bytes.now }
    ensures { result ≡ transid_at bytes.now }
{
    Transid {
        epoch: u32::from_be_bytes([bytes[4], bytes[5], bytes[6], bytes[7]]),
        worker: u16::from_be_bytes([bytes[8], bytes[9]]),
        ordinal: u16::from_be_bytes([bytes[10], bytes[11]]),
        attempt: bytes[12],
    }
}

/// The number that a record is written with.
pub fn written_number(bytes: &[u8]) -> u64
    requires { 24 ≤ length bytes.now }
    ensures { result ≡ number_at bytes.now }
{
    u64::from_be_bytes([
        bytes[16], bytes[17], bytes[18], bytes[19], bytes[20], bytes[21], bytes[22], bytes[23],
    ])
}
