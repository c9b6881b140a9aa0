//! Why a text is refused.
ghost use Rattle.std.specs.Prelude.{◌≡◌};

use std::alloc::AllocError;
use std::fmt;

/// What is wrong with a line, or with the end of the text.
#[derive(Clone, Copy, Debug, PartialEq, Eq)]
pub enum Why {
    /// The text has more than 4,194,304 bytes.
    TooLong,
    /// A byte is neither a blank nor printable.
    BadByte,
    /// The first word begins no line of the language.
    UnknownWord,
    /// The line does not stand here, or the text may not end here.
    WrongPlace,
    /// No volume is declared before an action, or at the end.
    NoVolume,
    /// The line has too many or too few words, or another word than `kill`.
    WrongForm,
    /// A name, a key or a value has not its form.
    BadWord,
    /// A number has not its form, or is out of its range.
    BadNumber,
    /// A name is not declared.
    UnknownName,
    /// A name or a limit is declared for the second time.
    SameName,
    /// There are more of a kind than there may be.
    TooMany,
}

/// Why there is no script.
#[derive(Clone, Copy, Debug, PartialEq, Eq)]
pub enum ParseError {
    /// The text is refused at this line, numbered from 1.
    Refusal { line: u32, why: Why },
    NoMemory,
}

/// Why a line has no effect.
#[derive(Clone, Copy, Debug, PartialEq, Eq)]
pub enum LineError {
    Refused(Why),
    NoMemory,
}

impl LineError {
    ghost use Rattle.std.specs.Prelude.{◌≡◌};
    ghost use Rattle.tmf_script.specs.Checks.{fault_at};

    /// The same, as what is wrong with the text.
    pub fn at(self, line: u32) -> ParseError
        ensures { result ≡ fault_at line self }
    {
        match self {
            LineError::Refused(why) => ParseError::Refusal { line, why },
            LineError::NoMemory => ParseError::NoMemory,
        }
    }
}

impl From<AllocError> for LineError {
    ghost use Rattle.std.specs.Prelude.{◌≡◌};
    ghost use Rattle.tmf_script.specs.declared.fault.LineError.TheVariants.{NoMemory};

    ghost from_gives = { λ _ error. error ≡ NoMemory };

    fn from(_: AllocError) -> Self {
        LineError::NoMemory
    }
}

impl From<Why> for LineError {
    ghost use Rattle.std.specs.Prelude.{◌≡◌};
    ghost use Rattle.tmf_script.specs.declared.fault.LineError.TheVariants.{Refused};

    ghost from_gives = { λ why error. error ≡ Refused why };

    fn from(why: Why) -> Self {
        LineError::Refused(why)
    }
}

impl fmt::Display for Why {
    ghost use Rattle.std.specs.Prelude.{Some};
    ghost use Rattle.tmf_script.specs.Why.{why_text};

    ghost output = { λ why. Some (why_text why) };

    fn fmt<W: fmt::Write>(&self, f: &mut fmt::Formatter<W>) -> fmt::Result {
        match self {
            Why::TooLong => write!(f, "too long"),
            Why::BadByte => write!(f, "bad byte"),
            Why::UnknownWord => write!(f, "unknown word"),
            Why::WrongPlace => write!(f, "wrong place"),
            Why::NoVolume => write!(f, "no volume"),
            Why::WrongForm => write!(f, "wrong form"),
            Why::BadWord => write!(f, "bad word"),
            Why::BadNumber => write!(f, "bad number"),
            Why::UnknownName => write!(f, "unknown name"),
            Why::SameName => write!(f, "same name"),
            Why::TooMany => write!(f, "too many"),
        }
    }
}
