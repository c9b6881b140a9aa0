//! Names of trails, volumes and files.
ghost use Rattle.std.specs.Prelude.{◌≡◌, ◌↔◌, not, false, nat_eq, IsTrue, IsOk, IsErr, IfOk};
ghost use Rattle.std.specs.Cmp.{partial_equiv_from_equiv};
ghost use Rattle.std.specs.Cmp.Lexicographic.{pointwise, nat_list_eq_equiv};
ghost use Rattle.std.specs.List.{list_all};
ghost use Rattle.tmf_model.specs.Name.{is_upper_case, is_name_byte, is_file_name, is_plain_name, is_volume_name, is_name};

use crate::text::ascii_text;
use crate::word::{BadWord, padded_with_zeros};
use std::fmt;
use std::marker::Model;

/// The most bytes of a name.
const NAME_BYTES: usize = 8;

/// A name of at most 8 bytes. That of a trail or a file is an upper-case letter and then upper-case
/// letters or digits. That of a volume has a `$` before it.
#[derive(Clone, Copy)]
pub struct Name {
    bytes: [u8; 8],
    len: u8,
}

impl Model for Name {
    ghost use Rattle.std.specs.Prelude.{ℕ, List, ◌≤◌, IsTrue, take, length};
    ghost use Rattle.tmf_model.specs.Word.{padded, IsPadded};
    ghost use Rattle.tmf_model.specs.Name.{is_name};
    ghost use Rattle.std.proofs.Common.{arith, sym, length-take-le};

    ghost Value = { List ℕ };

    ghost view = { λ n. take n.len n.bytes };

    ghost invariant = { λ n. IsPadded 8 n.len n.bytes × IsTrue (is_name (take n.len n.bytes)) };

    ghost inverse = { λ xs. record { bytes = padded 8 xs; len = length xs } };

    ghost inverse_ok = { λ n h i. record {
      bytes = sym h.0.zeros i;
      len = length-take-le n.len n.bytes (omega (arith, h.0.short, h.0.whole)) i;
    } };
}

impl Name {
    /// The name with these bytes; refused where they have neither form.
    pub fn new(bytes: &[u8]) -> Result<Name, BadWord>
        ensures ok { IfOk result (λ name. name ≡ bytes.now) }
        ensures accepts { IsOk result ↔ IsTrue (is_name bytes.now) }
        ensures cause { IsErr result ↔ (is_name bytes.now ≡ false) }
    {
        if is_plain(bytes, NAME_BYTES) || is_dollar_name(bytes) {
            Ok(Name {
                bytes: padded_with_zeros(bytes),
                len: bytes.len() as u8,
            })
        } else {
            Err(BadWord)
        }
    }

    /// The name's text.
    pub fn as_str(&self) -> &str
        ensures { result.now ≡ self.now }
    {
        ascii_text(self.as_bytes())
    }

    /// The name's bytes.
    pub fn as_bytes(&self) -> &[u8]
        ensures value { result.now ≡ self.now }
        ensures name { IsTrue (is_name self.now) }
    {
        &self.bytes[..usize::from(self.len)]
    }

    /// Whether it has the form of a volume's name; else it has that of a trail's or a file's.
    pub fn is_volume(&self) -> bool
        ensures volume { result ≡ is_volume_name self.now }
        ensures file { result ≡ not (is_file_name self.now) }
    {
        self.bytes[0] == b'$'
    }
}

impl PartialEq for Name {
    ghost eq = { pointwise nat_eq };

    ghost laws = { partial_equiv_from_equiv nat_list_eq_equiv };

    fn eq(&self, other: &Name) -> bool {
        self.as_bytes() == other.as_bytes()
    }
}

impl Eq for Name {
    ghost laws = { nat_list_eq_equiv };
}

/// Whether `bytes` are an upper-case letter and then upper-case letters or digits, `longest` in all at most.
fn is_plain(bytes: &[u8], longest: usize) -> bool
    ensures { result ≡ is_plain_name longest bytes.now }
{
    match bytes {
        [first, rest @ ..] => {
            is_upper_case_letter(*first)
                && bytes.len() <= longest
                && has_only_letters_or_digits(rest)
        }
        [] => false,
    }
}

/// Whether `bytes` are a `$` and then the form of a trail's name, of 7 bytes at most.
fn is_dollar_name(bytes: &[u8]) -> bool
    ensures { result ≡ is_volume_name bytes.now }
{
    match bytes {
        [b'$', rest @ ..] => is_plain(rest, NAME_BYTES - 1),
        _ => false,
    }
}

/// Whether each of `bytes` is an upper-case letter or a digit.
fn has_only_letters_or_digits(bytes: &[u8]) -> bool
    ensures { result ≡ list_all is_name_byte bytes.now }
{
    bytes.iter().all(|&byte| is_upper_case_letter(byte) || (b'0' <= byte && byte <= b'9'))
}

/// Whether `byte` is `A` to `Z`.
fn is_upper_case_letter(byte: u8) -> bool
    ensures { result ≡ is_upper_case byte }
{
    b'A' <= byte && byte <= b'Z'
}

impl fmt::Display for Name {
    ghost use Rattle.std.specs.Prelude.{Some};

    ghost output = { λ name. Some name };

    fn fmt<W: fmt::Write>(&self, f: &mut fmt::Formatter<W>) -> fmt::Result {
        f.write_str(self.as_str())
    }
}
