//! The words that the program is called with.
ghost use Rattle.std.specs.Prelude.{◌≡◌, ◌≤◌, ◌∷◌, [], map, option_map, string_bytes, IsTrue, IfSome, MatchOption};
ghost use Rattle.tmf_words.specs.Words.{is_folder, as_folder, option_folder, is_option, transfers_of, number_first, bank_of, is_run, are_accepted, folder_of};

use itoa::Buffer;

/// The word, if it can name a folder. One that begins with `-` or `=` is taken for a mistake.
fn as_folder(word: &str) -> Option<&str>
    ensures { option_map (λ folder. folder.now) result ≡ as_folder word.now }
{
    match word.as_bytes() {
        [] | [b'-' | b'=', ..] => None,
        _ => Some(word),
    }
}

/// The folder that the words behind `run` name, if they do.
fn option_folder(option: &[String]) -> Option<&str>
    ensures { option_map (λ folder. folder.now) result ≡ option_folder (map string_bytes option.now) }
{
    match option {
        [word] => as_folder(word.as_str().strip_prefix("--dir=")?),
        [word, folder] if word.as_str() == "--dir" => as_folder(folder.as_str()),
        _ => None,
    }
}

/// Whether the words are none, or name a folder.
fn is_option(option: &[String]) -> bool
    ensures { result ≡ is_option (map string_bytes option.now) }
{
    option.is_empty() || option_folder(option).is_some()
}

/// The number of transfers that the word is, if it is the decimal text of one from 1 to 4,095.
pub(crate) fn transfers_of(word: &str) -> Option<u32>
    ensures number { result ≡ transfers_of word.now }
    ensures within { IfSome result (λ number. (1 ≤ number) × (number ≤ 4095)) }
{
    match word.parse::<u32>() {
        Ok(number) => {
            if 1 <= number && number <= 4095 && Buffer::new().format(number) == word {
                Some(number)
            } else {
                None
            }
        }
        Err(_) => None,
    }
}

/// The word that is to be the number among those behind `bank`, and those of the folder: the last word, where those before it name one, and else the first.
fn number_and_option(words: &[String]) -> Option<(&str, &[String])>
    ensures { MatchOption result (map string_bytes words.now ≡ []) (λ parts. number_first (map string_bytes words.now) ≡ parts.0.now ∷ map string_bytes parts.1.now) }
{
    match words {
        [option @ .., number] if option_folder(option).is_some() => {
            Some((number.as_str(), option))
        }
        [number, option @ ..] => Some((number.as_str(), option)),
        [] => None,
    }
}

/// The number of transfers that the words ask for, if they are the program's name, `bank`, and a number with a folder behind it, before it, or none.
pub fn bank_of(words: &[String]) -> Option<u32>
    ensures number { result ≡ bank_of (map string_bytes words.now) }
    ensures within { IfSome result (λ number. (1 ≤ number) × (number ≤ 4095)) }
{
    match words {
        [_, word, rest @ ..] if word.as_str() == "bank" => {
            let (number, option) = number_and_option(rest)?;
            if is_option(option) {
                transfers_of(number)
            } else {
                None
            }
        }
        _ => None,
    }
}

/// Whether the program's words are its name, `run`, and a folder or none.
fn is_run(words: &[String]) -> bool
    ensures { result ≡ is_run (map string_bytes words.now) }
{
    match words {
        [_, word, option @ ..] if word.as_str() == "run" => is_option(option),
        _ => false,
    }
}

/// Whether the program's words are accepted: those of a run of a script, or of a bank run.
pub fn accepts(words: &[String]) -> bool
    ensures { result ≡ are_accepted (map string_bytes words.now) }
{
    is_run(words) || bank_of(words).is_some()
}

/// The folder that the words name, if they are accepted and name one.
pub fn dir_of(words: &[String]) -> Option<&str>
    ensures folder { option_map (λ folder. folder.now) result ≡ folder_of (map string_bytes words.now) }
    ensures accepted { IfSome result (λ folder. IsTrue (are_accepted (map string_bytes words.now)) × IsTrue (is_folder folder.now)) }
{
    let [_, _, rest @ ..] = words else {
        return None;
    };
    if is_run(words) {
        option_folder(rest)
    } else if bank_of(words).is_some() {
        option_folder(number_and_option(rest)?.1)
    } else {
        None
    }
}
