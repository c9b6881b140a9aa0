//! The lines of a text, and the words of a line.
ghost use Rattle.std.specs.Prelude.{◌≡◌, ◌≢◌, ◌<◌, [], ◌∷◌, ◌++◌, length, not, IsTrue, IfSome, MatchOption};
ghost use Rattle.std.specs.List.{list_all};
ghost use Rattle.std.specs.Option.{option_copied};
ghost use Rattle.tmf_script.specs.Checks.{Gives};
ghost use Rattle.tmf_script.specs.Text.{is_blank, is_letter, is_printable, lacks, raw_lines, without_cr, lines_of, words_of, begins_word, no_words, one_word, two_words, three_words, optional_word, kill_word};

use crate::fault::Why;
use crate::keyword::is_same;

/// The first line of the text and the text behind it, if there is a line.
pub fn next_line(text: &[u8]) -> Option<(&[u8], &[u8])>
    ensures line { MatchOption result (lines_of text.now ≡ []) (λ parts. lines_of text.now ≡ parts.0.now ∷ lines_of parts.1.now) }
    ensures shorter { IfSome result (λ parts. length parts.1.now < length text.now) }
{
    if text.is_empty() {
        return None;
    }
    let (line, rest) = cut_line(text);
    Some((without_return(line), rest))
}

/// What stands before the first line feed, and what behind it; all and nothing where there is none.
fn cut_line(text: &[u8]) -> (&[u8], &[u8])
    requires { 0 < length text.now }
    ensures line { raw_lines text.now ≡ result.0.now ∷ raw_lines result.1.now }
    ensures shorter { length result.1.now < length text.now }
{
    match cut(text, b'\n') {
        Some(parts) => parts,
        None => (text, &[]),
    }
}

/// What stands before the first such byte, and what behind it, if there is one.
fn cut(bytes: &[u8], at: u8) -> Option<(&[u8], &[u8])>
    ensures { MatchOption result (IsTrue (lacks at bytes.now))
        (λ parts. IsTrue (lacks at parts.0.now) × (bytes.now ≡ parts.0.now ++ at ∷ parts.1.now)) }
{
    for (i, &byte) in bytes.iter().enumerate() {
        if byte == at {
            return Some((&bytes[..i], &bytes[i + 1..]));
        }
    }
    None
}

/// The line without the carriage return at its end, if one is there.
fn without_return(line: &[u8]) -> &[u8]
    ensures { result.now ≡ without_cr line.now }
{
    match line.split_last() {
        Some((last, front)) => { if *last == b'\r' { front } else { line } }
        None => line,
    }
}

/// Whether each byte of the line is a blank or printable.
pub fn is_printable_line(line: &[u8]) -> bool
    ensures { result ≡ is_printable line.now }
{
    line.iter().all(|&byte| is_blank_byte(byte) || (0x21 <= byte && byte <= 0x7E))
}

/// The first word of the line and what follows it, if there is a word.
pub fn next_word(line: &[u8]) -> Option<(&[u8], &[u8])>
    ensures { MatchOption result (words_of line.now ≡ []) (λ parts. words_of line.now ≡ parts.0.now ∷ words_of parts.1.now) }
{
    let word = without_blanks(line);
    if word.is_empty() {
        None
    } else {
        Some(cut_word(word))
    }
}

/// The line without the blanks at its front.
fn without_blanks(line: &[u8]) -> &[u8]
    ensures same { words_of result.now ≡ words_of line.now }
    ensures begins { (result.now ≢ []) → IsTrue (begins_word result.now) }
{
    let mut rest = line;
    while let [byte, after @ ..] = rest {
        if !is_blank_byte(*byte) {
            return rest;
        }
        rest = after;
    }
    rest
}

/// The word at the front, and what follows it.
fn cut_word(line: &[u8]) -> (&[u8], &[u8])
    requires { IsTrue (begins_word line.now) }
    ensures { words_of line.now ≡ result.0.now ∷ words_of result.1.now }
{
    for (i, &byte) in line.iter().enumerate() {
        if is_blank_byte(byte) {
            return (&line[..i], &line[i..]);
        }
    }
    (line, &[])
}

/// Whether the byte is a space or a tab.
fn is_blank_byte(byte: u8) -> bool
    ensures { result ≡ is_blank byte }
{
    byte == b' ' || byte == b'\t'
}

/// Refused where a word is left.
pub fn no_more(rest: &[u8]) -> Result<(), Why>
    ensures { Gives (λ _. tt) result (no_words (words_of rest.now)) }
{
    match next_word(rest) {
        None => Ok(()),
        Some(_) => Err(Why::WrongForm),
    }
}

/// The one word of the rest.
pub fn only_word(rest: &[u8]) -> Result<&[u8], Why>
    ensures { Gives (λ word. word.now) result (one_word (words_of rest.now)) }
{
    let Some((word, rest)) = next_word(rest) else {
        return Err(Why::WrongForm);
    };
    no_more(rest)?;
    Ok(word)
}

/// The two words of the rest.
pub fn both_words(rest: &[u8]) -> Result<(&[u8], &[u8]), Why>
    ensures { Gives (λ words. (words.0.now, words.1.now)) result (two_words (words_of rest.now)) }
{
    let Some((first, rest)) = next_word(rest) else {
        return Err(Why::WrongForm);
    };
    let second = only_word(rest)?;
    Ok((first, second))
}

/// The three words of the rest.
pub fn all_three_words(rest: &[u8]) -> Result<(&[u8], &[u8], &[u8]), Why>
    ensures { Gives (λ words. (words.0.now, words.1.now, words.2.now)) result (three_words (words_of rest.now)) }
{
    let Some((first, rest)) = next_word(rest) else {
        return Err(Why::WrongForm);
    };
    let (second, third) = both_words(rest)?;
    Ok((first, second, third))
}

/// The one word of the rest, if there is any.
pub fn word_or_none(rest: &[u8]) -> Result<Option<&[u8]>, Why>
    ensures { Gives option_copied result (optional_word (words_of rest.now)) }
{
    match next_word(rest) {
        None => Ok(None),
        Some((word, rest)) => {
            no_more(rest)?;
            Ok(Some(word))
        }
    }
}

/// The word behind `kill`, if there is any word.
pub fn killed_after(rest: &[u8]) -> Result<Option<&[u8]>, Why>
    ensures { Gives option_copied result (kill_word (words_of rest.now)) }
{
    let Some((kill, rest)) = next_word(rest) else {
        return Ok(None);
    };
    let number = only_word(rest)?;
    if is_same(kill, b"kill") {
        Ok(Some(number))
    } else {
        Err(Why::WrongForm)
    }
}
