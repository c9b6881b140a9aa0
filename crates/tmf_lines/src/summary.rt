//! What the lines of a bank run come to, and how that is printed.
ghost use Rattle.std.specs.Prelude.{◌≡◌, ◌≤◌, ◌++◌, IsTrue, IfOk, IfErr, OnOk, string_bytes};
ghost use Rattle.std.specs.List.{count_by, list_any};
ghost use Rattle.disk_model.specs.Held.{Rose};
ghost use Rattle.tmf_model.specs.NumberText.{number_of};
ghost use Rattle.tmf_lines.specs.Line.{IsNotGiven};
ghost use Rattle.tmf_lines.specs.Summary.{is_committed, is_other, number_or_zero, value_in, sum_in, is_listing, list_sum, summary_of, text_of};

use crate::line::Line;
use crate::output::GiveFault;
use itoa::Buffer;
use std::alloc::{AllocError, Global};
use std::fmt;
use tmf_edges::{Sink, give_all};
use tmf_model::Value;

/// What the lines of a bank run come to.
#[derive(Clone, Copy)]
pub struct Summary {
    /// The number of transfers that was asked for.
    pub transfers: u32,
    /// The number of items that have committed.
    pub committed: u64,
    /// The number of items that have come to anything else.
    pub other: u64,
    /// The sum of the accounts, if they were listed.
    pub accounts: Option<i128>,
    /// The sum of the tellers, if they were listed.
    pub tellers: Option<i128>,
}

/// A sum, if there is one, as it is printed.
#[derive(Clone, Copy)]
struct SumWord(Option<i128>);

impl fmt::Display for SumWord {
    ghost use Rattle.std.specs.Prelude.{Some};
    ghost use Rattle.tmf_lines.specs.Summary.{sum_text};

    ghost output = { λ word. Some (sum_text word.0) };

    fn fmt<W: fmt::Write>(&self, f: &mut fmt::Formatter<W>) -> fmt::Result {
        match self.0 {
            Some(sum) => write!(f, "{sum}"),
            None => write!(f, "unknown"),
        }
    }
}

impl fmt::Display for Summary {
    ghost use Rattle.std.specs.Prelude.{Some};
    ghost use Rattle.tmf_lines.specs.Summary.{text_of};

    ghost output = { λ summary. Some (text_of summary) };

    fn fmt<W: fmt::Write>(&self, f: &mut fmt::Formatter<W>) -> fmt::Result {
        let transfers = self.transfers;
        let committed = self.committed;
        let other = self.other;
        let accounts = SumWord(self.accounts);
        let tellers = SumWord(self.tellers);
        write!(
            f,
            "bank {transfers}\ncommitted {committed}\nother {other}\naccounts {accounts}\ntellers {tellers}\n"
        )
    }
}

impl Summary {
    /// What the lines of a bank run with so many transfers come to.
    pub fn of(transfers: u32, lines: &[Line]) -> Summary
        ensures { result ≡ summary_of transfers lines.now }
    {
        Summary {
            transfers,
            committed: committed_count(lines),
            other: other_count(lines),
            accounts: list_sum(b"ACCT", lines),
            tellers: list_sum(b"TELLER", lines),
        }
    }
}

/// Whether the line is that of an item of a run that has committed.
fn is_committed(line: &Line) -> bool
    ensures { result ≡ is_committed line.now }
{
    matches!(line, Line::Committed(_, _))
}

/// Whether the line is that of an item of a run that has come to anything else.
fn is_other(line: &Line) -> bool
    ensures { result ≡ is_other line.now }
{
    match line {
        Line::Aborted(_) | Line::Refused(_, _, _) | Line::Full(_, _, _) => true,
        Line::Busy(_, _, _, _) | Line::Spent(_, _) | Line::SpentWorker(_, _) => true,
        Line::AttemptFailed(_, _) | Line::AttemptDamaged(_, _, _) => true,
        Line::InDoubt(_, _) | Line::Hanging(_, _) | Line::HangingDamaged(_, _, _) => true,
        Line::HangingMemory(_) | Line::Skipped(_) | Line::Memory(_) => true,
        Line::Controlled(_, _, _) | Line::Dumped(_, _, _) | Line::Dumping(_, _) => true,
        _ => false,
    }
}

/// How many of the lines are of items that have committed.
fn committed_count(lines: &[Line]) -> u64
    ensures { result ≡ count_by is_committed lines.now }
{
    let mut count = 0;
    for line in lines {
        if is_committed(line) {
            count += 1;
        }
    }
    count
}

/// How many of the lines are of items that have come to anything else.
fn other_count(lines: &[Line]) -> u64
    ensures { result ≡ count_by is_other lines.now }
{
    let mut count = 0;
    for line in lines {
        if is_other(line) {
            count += 1;
        }
    }
    count
}

/// The number whose text the value is, if it is a number text.
fn number_in(value: &Value) -> Option<i64>
    ensures { result ≡ number_of value.now }
{
    let text = value.as_str();
    match text.parse::<i64>() {
        Ok(number) => {
            if Buffer::new().format(number) == text {
                Some(number)
            } else {
                None
            }
        }
        Err(_) => None,
    }
}

/// That number, or 0.
fn number_or_zero(value: &Value) -> i64
    ensures { result ≡ number_or_zero value.now }
{
    number_in(value).unwrap_or(0)
}

/// The number of a record of the file with this name; of any other line 0.
fn value_in(name: &[u8], line: &Line) -> i64
    ensures { result ≡ value_in name.now line.now }
{
    match line {
        Line::Entry(file, _, value) if file.as_bytes() == name => number_or_zero(value),
        _ => 0,
    }
}

/// The sum of the numbers of the file's records.
fn sum_in(name: &[u8], lines: &[Line]) -> i128
    ensures { result ≡ sum_in name.now lines.now }
{
    let mut sum: i128 = 0;
    for line in lines {
        sum += i128::from(value_in(name, line));
    }
    sum
}

/// Whether the line ends a listing of the file.
fn is_listing(name: &[u8], line: &Line) -> bool
    ensures { result ≡ is_listing name.now line.now }
{
    match line {
        Line::Listed(file, _) => file.as_bytes() == name,
        _ => false,
    }
}

/// Whether the file was listed.
fn is_listed(name: &[u8], lines: &[Line]) -> bool
    ensures { result ≡ list_any (is_listing name.now) lines.now }
{
    for line in lines {
        if is_listing(name, line) {
            return true;
        }
    }
    false
}

/// The sum of the numbers of the file's records, if it was listed.
fn list_sum(name: &[u8], lines: &[Line]) -> Option<i128>
    ensures { result ≡ list_sum name.now lines.now }
{
    if is_listed(name, lines) {
        Some(sum_in(name, lines))
    } else {
        None
    }
}

/// The text of a summary.
fn text_of(alloc: Global, summary: &Summary) -> Result<String, AllocError>
    ensures { IfOk result (λ text. string_bytes text ≡ text_of summary.now) }
{
    let mut text = String::new(alloc);
    write!(text, "{summary}")?;
    Ok(text)
}

/// Gives a summary's five lines to the sink. After a fault it has been given a part of them from their front, and not all; for want of memory nothing.
pub fn give_summary<K: Sink>(
    alloc: Global,
    sink: &mut K,
    summary: &Summary,
) -> Result<(), GiveFault>
    ensures told { IsTrue (K.tells sink.old) → OnOk result (K.given sink.new ≡ K.given sink.old ++ text_of summary.now) }
    ensures err { IsTrue (K.tells sink.old) → IfErr result (λ fault. IsNotGiven fault (K.given sink.old) (K.given sink.new) (text_of summary.now)) }
    ensures tells { K.tells sink.new ≡ K.tells sink.old }
    ensures later { K.faults sink.old ≤ K.faults sink.new }
    ensures cause { IfErr result (λ e. e ≡ GiveFault.SinkFailed → Rose (K.faults sink.old) (K.faults sink.new)) }
{
    let Ok(text) = text_of(alloc, summary) else {
        return Err(GiveFault::NoMemory);
    };
    match give_all(sink, text.as_bytes()) {
        Ok(()) => Ok(()),
        Err(_) => Err(GiveFault::SinkFailed),
    }
}
