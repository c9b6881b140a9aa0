//! Keys and values: words of printable bytes.
ghost use Rattle.std.specs.Prelude.{◌≡◌, ◌↔◌, ◌≤◌, false, nat_eq, length, Some, refl, IsTrue, IsOk, IsErr, IfOk};
ghost use Rattle.std.specs.Ordering.{nat_cmp};
ghost use Rattle.std.specs.Cmp.{partial_equiv_from_equiv};
ghost use Rattle.std.specs.Cmp.Lexicographic.{pointwise, slice_cmp, nat_list_eq_equiv, nat_list_cmp_total, texts_po, texts_ties};
ghost use Rattle.std.specs.List.{list_all};
ghost use Rattle.tmf_model.specs.Word.{is_word_byte, is_word, is_key, is_value, padded};

use crate::text::ascii_text;
use std::cmp::Ordering;
use std::fmt;
use std::marker::Model;

/// The most bytes of a key.
const KEY_BYTES: usize = 16;

/// The most bytes of a value.
pub const VALUE_BYTES: usize = 40;

/// The bytes have not the length or the form that is wanted.
#[derive(Clone, Copy, Debug, PartialEq, Eq)]
pub struct BadWord;

/// A record's key: 1 to 16 bytes from 0x21 to 0x7E. Keys are ordered by their bytes, a shorter one before
/// a longer one that it begins.
#[derive(Clone, Copy)]
pub struct Key {
    bytes: [u8; 16],
    len: u8,
}

impl Model for Key {
    ghost use Rattle.std.specs.Prelude.{ℕ, List, ◌≤◌, IsTrue, take, length};
    ghost use Rattle.tmf_model.specs.Word.{is_key, padded, IsPadded};
    ghost use Rattle.std.proofs.Common.{arith, sym, length-take-le};

    ghost Value = { List ℕ };

    ghost view = { λ k. take k.len k.bytes };

    ghost invariant = { λ k. IsPadded 16 k.len k.bytes × IsTrue (is_key (take k.len k.bytes)) };

    ghost inverse = { λ xs. record { bytes = padded 16 xs; len = length xs } };

    ghost inverse_ok = { λ k h i. record {
      bytes = sym h.0.zeros i;
      len = length-take-le k.len k.bytes (omega (arith, h.0.short, h.0.whole)) i;
    } };
}

impl Key {
    /// The key with these bytes; refused where they are no key.
    pub fn new(bytes: &[u8]) -> Result<Key, BadWord>
        ensures ok { IfOk result (λ key. key ≡ bytes.now) }
        ensures accepts { IsOk result ↔ IsTrue (is_key bytes.now) }
        ensures cause { IsErr result ↔ (is_key bytes.now ≡ false) }
    {
        if is_word_of(bytes, KEY_BYTES) {
            Ok(Key {
                bytes: padded_with_zeros(bytes),
                len: bytes.len() as u8,
            })
        } else {
            Err(BadWord)
        }
    }

    /// The key's text.
    pub fn as_str(&self) -> &str
        ensures { result.now ≡ self.now }
    {
        ascii_text(self.as_bytes())
    }

    /// The key's bytes.
    pub fn as_bytes(&self) -> &[u8]
        ensures value { result.now ≡ self.now }
        ensures word { IsTrue (is_key self.now) }
    {
        &self.bytes[..usize::from(self.len)]
    }
}

impl PartialEq for Key {
    ghost eq = { pointwise nat_eq };

    ghost laws = { partial_equiv_from_equiv nat_list_eq_equiv };

    fn eq(&self, other: &Key) -> bool {
        self.as_bytes() == other.as_bytes()
    }
}

impl Eq for Key {
    ghost laws = { nat_list_eq_equiv };
}

impl PartialOrd for Key {
    ghost partial_cmp = { λ k l. Some (slice_cmp nat_cmp k l) };

    ghost laws = { texts_po };

    fn partial_cmp(&self, other: &Key) -> Option<Ordering> {
        Some(self.cmp(other))
    }
}

impl Ord for Key {
    ghost cmp = { slice_cmp nat_cmp };

    ghost total = { nat_list_cmp_total };

    ghost matches_partial_cmp = { λ k l. refl };

    ghost matches_eq = { texts_ties };

    fn cmp(&self, other: &Key) -> Ordering {
        self.as_bytes().cmp(&other.as_bytes())
    }
}

/// Whether `bytes` are 1 to `longest` bytes from 0x21 to 0x7E.
fn is_word_of(bytes: &[u8], longest: usize) -> bool
    ensures { result ≡ is_word longest bytes.now }
{
    let long = bytes.len();
    1 <= long && long <= longest && has_only_word_bytes(bytes)
}

/// Whether each of `bytes` is from 0x21 to 0x7E.
fn has_only_word_bytes(bytes: &[u8]) -> bool
    ensures { result ≡ list_all is_word_byte bytes.now }
{
    bytes.iter().all(|&byte| 0x21 <= byte && byte <= 0x7E)
}

/// The bytes, then zeros.
pub(crate) fn padded_with_zeros<const N: usize>(bytes: &[u8]) -> [u8; N]
    requires { length bytes.now ≤ N }
    ensures { result ≡ padded N bytes.now }
{
    let mut all = [0; N];
    all[..bytes.len()].copy_from_slice(bytes);
    all
}

/// A record's value: 1 to 40 bytes from 0x21 to 0x7E.
#[derive(Clone, Copy)]
pub struct Value {
    bytes: [u8; VALUE_BYTES],
    len: u8,
}

impl Model for Value {
    ghost use Rattle.std.specs.Prelude.{ℕ, List, ◌≤◌, IsTrue, take, length};
    ghost use Rattle.tmf_model.specs.Word.{is_value, padded, IsPadded};
    ghost use Rattle.tmf_model.specs.declared.word.TheConstants.{VALUE_BYTES};
    ghost use Rattle.std.proofs.Common.{arith, sym, length-take-le};

    ghost Value = { List ℕ };

    ghost view = { λ v. take v.len v.bytes };

    ghost invariant = { λ v. IsPadded VALUE_BYTES v.len v.bytes × IsTrue (is_value (take v.len v.bytes)) };

    ghost inverse = { λ xs. record { bytes = padded VALUE_BYTES xs; len = length xs } };

    ghost inverse_ok = { λ v h i. record {
      bytes = sym h.0.zeros i;
      len = length-take-le v.len v.bytes (omega (arith, h.0.short, h.0.whole)) i;
    } };
}

impl Value {
    /// The value with these bytes; refused where they are no value.
    pub fn new(bytes: &[u8]) -> Result<Value, BadWord>
        ensures ok { IfOk result (λ value. value ≡ bytes.now) }
        ensures accepts { IsOk result ↔ IsTrue (is_value bytes.now) }
        ensures cause { IsErr result ↔ (is_value bytes.now ≡ false) }
    {
        if is_word_of(bytes, VALUE_BYTES) {
            Ok(Value {
                bytes: padded_with_zeros(bytes),
                len: bytes.len() as u8,
            })
        } else {
            Err(BadWord)
        }
    }

    /// The value's text.
    pub fn as_str(&self) -> &str
        ensures { result.now ≡ self.now }
    {
        ascii_text(self.as_bytes())
    }

    /// The value's bytes.
    pub fn as_bytes(&self) -> &[u8]
        ensures value { result.now ≡ self.now }
        ensures word { IsTrue (is_value self.now) }
    {
        &self.bytes[..usize::from(self.len)]
    }
}

impl PartialEq for Value {
    ghost eq = { pointwise nat_eq };

    ghost laws = { partial_equiv_from_equiv nat_list_eq_equiv };

    fn eq(&self, other: &Value) -> bool {
        self.as_bytes() == other.as_bytes()
    }
}

impl Eq for Value {
    ghost laws = { nat_list_eq_equiv };
}

impl fmt::Display for Key {
    ghost use Rattle.std.specs.Prelude.{Some};

    ghost output = { λ word. Some word };

    fn fmt<W: fmt::Write>(&self, f: &mut fmt::Formatter<W>) -> fmt::Result {
        f.write_str(self.as_str())
    }
}

impl fmt::Display for Value {
    ghost use Rattle.std.specs.Prelude.{Some};

    ghost output = { λ word. Some word };

    fn fmt<W: fmt::Write>(&self, f: &mut fmt::Formatter<W>) -> fmt::Result {
        f.write_str(self.as_str())
    }
}
