//! The reader of scripts.
ghost use Rattle.std.specs.Prelude.{◌≡◌, ◌⊎◌, ◌<◌, ◌≤◌, ◌+◌, ◌==◌, ℕ, IfOk, IfErr, MatchResult, length, count_by, take};
ghost use Rattle.tmf_model.specs.Script.{IsValidScript};
ghost use Rattle.tmf_script.specs.Reading.{most_bytes, IsTextOf, IsRefused, IsCause, long_line};

use crate::fault::{ParseError, Why};
use crate::state::State;
use crate::words::next_line;
use std::alloc::Global;
use tmf_model::Script;

/// The most bytes of a text.
const MOST_BYTES: usize = 4_194_304;

/// The script that the text is. Nothing of the text is kept but names, keys, values and numbers.
pub fn parse(alloc: Global, bytes: &[u8]) -> Result<Script, ParseError>
    // What is read is a script, and the text is that script's.
    ensures found { IfOk result (IsTextOf bytes.now) }
    ensures valid { IfOk result IsValidScript }

    // A script's text is read as that script, unless memory runs out.
    ensures only { (script : Script) → IsTextOf bytes.now script
        → MatchResult result (λ read. read ≡ script) (λ error. error ≡ ParseError.NoMemory) }

    // The line is the first that is refused, and the reason is that of its first check that fails.
    ensures cause { IfErr result (IsCause bytes.now) }

    // A text that is refused there for that reason is refused so, unless memory runs out.
    ensures refused { (line : ℕ) (why : Why) → IsRefused bytes.now line why
        → MatchResult result (λ read. ⊥) (λ error. (error ≡ ParseError.Refusal line why) ⊎ (error ≡ ParseError.NoMemory)) }
{
    if bytes.len() > MOST_BYTES {
        return Err(ParseError::Refusal {
            line: line_of_limit(bytes),
            why: Why::TooLong,
        });
    }
    let mut state = State::new(alloc);
    let mut rest = bytes;
    let mut line: u32 = 1;
    while let Some((next, after)) = next_line(rest) {
        match state.read_line(alloc, next) {
            Ok(()) => {}
            Err(error) => return Err(error.at(line)),
        }
        rest = after;
        line += 1;
    }
    match state.end() {
        Ok(script) => Ok(script),
        Err(why) => Err(ParseError::Refusal { line, why }),
    }
}

/// The number of the line that holds the first byte past the limit.
fn line_of_limit(bytes: &[u8]) -> u32
    requires { MOST_BYTES < length bytes.now }
    ensures { result ≡ long_line bytes.now }
{
    let (front, _) = bytes.split_at(MOST_BYTES);
    line_feeds(front) as u32 + 1
}

/// How many line feeds there are.
fn line_feeds(bytes: &[u8]) -> usize
    ensures exact { result ≡ count_by (λ byte. byte == 10) bytes.now }
    ensures few { result ≤ length bytes.now }
{
    bytes.iter().filter(|byte| **byte == b'\n').count()
}
