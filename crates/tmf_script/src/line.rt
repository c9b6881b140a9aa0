//! The lines of the language.
ghost use Rattle.std.specs.Prelude.{◌≡◌};
ghost use Rattle.tmf_script.specs.Checks.{Gives};
ghost use Rattle.tmf_script.specs.Text.{words_of};
ghost use Rattle.tmf_script.specs.Line.{line_of, plain_line, trail_line, volume_line, file_line, cache_line, car_line, roll_line, steps_line, recover_line, run_line, lose_line, control_line, dump_line, rollforward_line, list_line, begin_line, put_line, add_line, del_line, read_line};

use crate::fault::Why;
use crate::field::{count, file_of, key, kill_count, number, trail_of, value, volume_of};
use crate::keyword::Keyword;
use crate::words::{
    all_three_words, both_words, killed_after, next_word, no_more, only_word, word_or_none,
};
use tmf_model::{Key, Name, Value};

/// One line that says something, with its words read.
#[derive(Clone, Copy)]
pub enum Line {
    Trail(Name),
    /// A volume, and the trail of its audit.
    Volume(Name, Name),
    /// A file, its volume and its blocks.
    File(Name, Name, u16),
    Cache(u32),
    /// The most requests of a boxcar, and the most turns that it waits.
    Car(u32, u32),
    Roll(u64),
    Steps(u64),
    Format,
    Recover(Option<u64>),
    Lose(Name),
    Rollforward(Name, Option<u64>),
    List(Name),
    Run(Option<u64>),
    Worker,
    End,
    Control(Name),
    Dump(Name),
    /// A transaction with this many attempts.
    Begin(u8),
    Put(Name, Key, Value),
    Add(Name, Key, i64),
    Del(Name, Key),
    Read(Name, Key),
    Commit,
    Abort,
}

impl Line {
    /// The line with this first word and these words behind it.
    #[tactic(auto, unfolding(crate::specs::Line::line_of))]
    pub fn read(keyword: Keyword, rest: &[u8]) -> Result<Line, Why>
        ensures { Gives (λ line. line) result (line_of keyword (words_of rest.now)) }
    {
        match keyword {
            Keyword::Trail => trail(rest),
            Keyword::Volume => volume(rest),
            Keyword::File => file(rest),
            Keyword::Cache => cache(rest),
            Keyword::Car => car(rest),
            Keyword::Roll => roll(rest),
            Keyword::Steps => steps(rest),
            Keyword::Format => plain(rest, Line::Format),
            Keyword::Recover => recover(rest),
            Keyword::Lose => lose(rest),
            Keyword::Rollforward => rollforward(rest),
            Keyword::List => list(rest),
            Keyword::Run => run(rest),
            Keyword::Worker => plain(rest, Line::Worker),
            Keyword::End => plain(rest, Line::End),
            Keyword::Control => control(rest),
            Keyword::Dump => dump(rest),
            Keyword::Begin => begin(rest),
            Keyword::Put => put(rest),
            Keyword::Add => add(rest),
            Keyword::Del => del(rest),
            Keyword::Read => read(rest),
            Keyword::Commit => plain(rest, Line::Commit),
            Keyword::Abort => plain(rest, Line::Abort),
        }
    }
}

fn plain(rest: &[u8], line: Line) -> Result<Line, Why>
    ensures { Gives (λ line. line) result (plain_line line (words_of rest.now)) }
{
    no_more(rest)?;
    Ok(line)
}

fn trail(rest: &[u8]) -> Result<Line, Why>
    ensures { Gives (λ line. line) result (trail_line (words_of rest.now)) }
{
    let name = only_word(rest)?;
    Ok(Line::Trail(trail_of(name)?))
}

fn volume(rest: &[u8]) -> Result<Line, Why>
    ensures { Gives (λ line. line) result (volume_line (words_of rest.now)) }
{
    let (name, on) = both_words(rest)?;
    let name = volume_of(name)?;
    let trail = trail_of(on)?;
    Ok(Line::Volume(name, trail))
}

fn file(rest: &[u8]) -> Result<Line, Why>
    ensures { Gives (λ line. line) result (file_line (words_of rest.now)) }
{
    let (name, on, blocks) = all_three_words(rest)?;
    let name = file_of(name)?;
    let volume = volume_of(on)?;
    let blocks = count(blocks, 1, 256)?;
    Ok(Line::File(name, volume, blocks as u16))
}

fn cache(rest: &[u8]) -> Result<Line, Why>
    ensures { Gives (λ line. line) result (cache_line (words_of rest.now)) }
{
    let word = only_word(rest)?;
    let blocks = count(word, 2, 4096)?;
    Ok(Line::Cache(blocks as u32))
}

fn car(rest: &[u8]) -> Result<Line, Why>
    ensures { Gives (λ line. line) result (car_line (words_of rest.now)) }
{
    let (requests, holds) = both_words(rest)?;
    let requests = count(requests, 1, 64)?;
    let holds = count(holds, 0, 1000)?;
    Ok(Line::Car(requests as u32, holds as u32))
}

fn roll(rest: &[u8]) -> Result<Line, Why>
    ensures { Gives (λ line. line) result (roll_line (words_of rest.now)) }
{
    let word = only_word(rest)?;
    let bytes = count(word, 256, 16_777_216)?;
    Ok(Line::Roll(bytes))
}

fn steps(rest: &[u8]) -> Result<Line, Why>
    ensures { Gives (λ line. line) result (steps_line (words_of rest.now)) }
{
    let word = only_word(rest)?;
    let events = count(word, 3, 1_099_511_627_776)?;
    Ok(Line::Steps(events))
}

fn recover(rest: &[u8]) -> Result<Line, Why>
    ensures { Gives (λ line. line) result (recover_line (words_of rest.now)) }
{
    let kill = kill_count(killed_after(rest)?)?;
    Ok(Line::Recover(kill))
}

fn run(rest: &[u8]) -> Result<Line, Why>
    ensures { Gives (λ line. line) result (run_line (words_of rest.now)) }
{
    let kill = kill_count(killed_after(rest)?)?;
    Ok(Line::Run(kill))
}

fn lose(rest: &[u8]) -> Result<Line, Why>
    ensures { Gives (λ line. line) result (lose_line (words_of rest.now)) }
{
    let name = only_word(rest)?;
    Ok(Line::Lose(volume_of(name)?))
}

fn control(rest: &[u8]) -> Result<Line, Why>
    ensures { Gives (λ line. line) result (control_line (words_of rest.now)) }
{
    let name = only_word(rest)?;
    Ok(Line::Control(volume_of(name)?))
}

fn dump(rest: &[u8]) -> Result<Line, Why>
    ensures { Gives (λ line. line) result (dump_line (words_of rest.now)) }
{
    let name = only_word(rest)?;
    Ok(Line::Dump(volume_of(name)?))
}

fn rollforward(rest: &[u8]) -> Result<Line, Why>
    ensures { Gives (λ line. line) result (rollforward_line (words_of rest.now)) }
{
    let Some((name, rest)) = next_word(rest) else {
        return Err(Why::WrongForm);
    };
    let number = killed_after(rest)?;
    let volume = volume_of(name)?;
    let kill = kill_count(number)?;
    Ok(Line::Rollforward(volume, kill))
}

fn list(rest: &[u8]) -> Result<Line, Why>
    ensures { Gives (λ line. line) result (list_line (words_of rest.now)) }
{
    let name = only_word(rest)?;
    Ok(Line::List(file_of(name)?))
}

fn begin(rest: &[u8]) -> Result<Line, Why>
    ensures { Gives (λ line. line) result (begin_line (words_of rest.now)) }
{
    match word_or_none(rest)? {
        None => Ok(Line::Begin(1)),
        Some(word) => {
            let attempts = count(word, 1, 8)?;
            Ok(Line::Begin(attempts as u8))
        }
    }
}

fn put(rest: &[u8]) -> Result<Line, Why>
    ensures { Gives (λ line. line) result (put_line (words_of rest.now)) }
{
    let (file, at, text) = all_three_words(rest)?;
    let file = file_of(file)?;
    let key = key(at)?;
    let value = value(text)?;
    Ok(Line::Put(file, key, value))
}

fn add(rest: &[u8]) -> Result<Line, Why>
    ensures { Gives (λ line. line) result (add_line (words_of rest.now)) }
{
    let (file, at, text) = all_three_words(rest)?;
    let file = file_of(file)?;
    let key = key(at)?;
    let number = number(text)?;
    Ok(Line::Add(file, key, number))
}

fn del(rest: &[u8]) -> Result<Line, Why>
    ensures { Gives (λ line. line) result (del_line (words_of rest.now)) }
{
    let (file, at) = both_words(rest)?;
    let file = file_of(file)?;
    let key = key(at)?;
    Ok(Line::Del(file, key))
}

fn read(rest: &[u8]) -> Result<Line, Why>
    ensures { Gives (λ line. line) result (read_line (words_of rest.now)) }
{
    let (file, at) = both_words(rest)?;
    let file = file_of(file)?;
    let key = key(at)?;
    Ok(Line::Read(file, key))
}
