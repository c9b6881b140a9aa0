//! Fields of a layout: what is wrong in them, and where.
ghost use Rattle.std.specs.Prelude.{◌≡◌, ◌≤◌, ◌+◌, ℕ, None, true, length};
ghost use Rattle.keyed_file.specs.Fields.{first_difference, first_of, least_of, offset_unless, first_outside, first_nonzero};
ghost use Rattle.tmf_model.specs.Transid.{is_between};
ghost use Rattle.tmf_model.specs.Word.{padded};

/// The first of the offsets that there are.
pub fn first_of(faults: &[Option<u16>]) -> Option<u16>
    ensures { result ≡ first_of faults.now }
{
    for &fault in faults {
        if fault.is_some() {
            return fault;
        }
    }
    None
}

/// The offset of a field, unless it fits.
pub fn offset_unless(fits: bool, at: u16) -> Option<u16>
    ensures { result ≡ offset_unless fits at }
{
    if fits { None } else { Some(at) }
}

/// Whether `number` is from `least` to `greatest`.
pub fn is_between(least: u64, greatest: u64, number: u64) -> bool
    ensures { result ≡ is_between least greatest number }
{
    least <= number && number <= greatest
}

/// The offset of the first byte that is not from `least` to `greatest`, where the first one stands at `at`.
pub fn first_outside(least: u8, greatest: u8, at: u16, bytes: &[u8]) -> Option<u16>
    requires { at + length bytes.now ≤ 65535 }
    ensures { result ≡ first_outside least greatest at bytes.now }
{
    let mut here = at;
    for &byte in bytes {
        if byte < least || greatest < byte {
            return Some(here);
        }
        here += 1;
    }
    None
}

/// Whether each byte is zero. It goes on behind one that is not, so that many are compared at once.
fn are_zero(bytes: &[u8]) -> bool
    ensures { result ≡ true → (at : ℕ) → first_nonzero at bytes.now ≡ None }
{
    let mut fine = true;
    for &byte in bytes {
        fine &= byte == 0;
    }
    fine
}

/// The offset of the first byte that is not zero.
pub fn first_nonzero(at: u16, bytes: &[u8]) -> Option<u16>
    requires { at + length bytes.now ≤ 65535 }
    ensures { result ≡ first_nonzero at bytes.now }
{
    if are_zero(bytes) {
        return None;
    }
    first_outside(0, 0, at, bytes)
}

/// The least of two offsets, where there are any.
pub fn least_of(a: Option<u16>, b: Option<u16>) -> Option<u16>
    ensures { result ≡ least_of a b }
{
    match (a, b) {
        (Some(a), Some(b)) if b < a => Some(b),
        (Some(a), _) => Some(a),
        (None, b) => b,
    }
}

/// The offset of the first byte that is not the wanted one at its place.
pub fn first_difference(bytes: &[u8], wanted: &[u8]) -> Option<u16>
    requires { length bytes.now ≤ 65535 }
    ensures { result ≡ first_difference 0 bytes.now wanted.now }
{
    let mut at = 0;
    let mut rest = wanted;
    for &byte in bytes {
        let Some((&other, behind)) = rest.split_first() else {
            return None;
        };
        if byte != other {
            return Some(at);
        }
        rest = behind;
        at += 1;
    }
    None
}

/// Writes the word, and zeros behind it.
pub fn write_padded(word: &[u8], into: &mut [u8])
    requires { length word.now ≤ length into.old }
    ensures { into.new ≡ padded (length into.old) word.now }
{
    let (front, rest) = into.split_at_mut(word.len());
    front.copy_from_slice(word);
    rest.fill(0);
}
