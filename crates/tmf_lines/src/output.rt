//! Giving lines to the sink.
ghost use Rattle.std.specs.Prelude.{◌≡◌, ◌≤◌, ◌++◌, length, IsTrue, IfOk, IfErr, OnOk, string_bytes};
ghost use Rattle.disk_model.specs.Held.{Rose};
ghost use Rattle.tmf_lines.specs.Line.{AreRecords, lines_text, IsNotGiven};

use crate::line::Line;
use crate::pieces::{PIECE, give_pieces, records_in_front};
use std::alloc::{AllocError, Global};
use tmf_edges::{Sink, give_all};

/// Why lines were not given whole.
#[derive(Clone, Copy, Debug, PartialEq, Eq)]
pub enum GiveFault {
    NoMemory,
    SinkFailed,
}

/// The text of lines, each with its end.
fn text_of(alloc: Global, lines: &[Line]) -> Result<String, AllocError>
    ensures { IfOk result (λ text. string_bytes text ≡ lines_text lines.now) }
{
    let mut text = String::new(alloc);
    for line in lines {
        writeln!(text, "{line}")?;
    }
    Ok(text)
}

/// Gives the lines of records that stand in front to the sink, a piece at a time.
fn give_records<K: Sink>(alloc: Global, sink: &mut K, lines: &[Line]) -> Result<(), GiveFault>
    requires records { AreRecords (length lines.now) lines.now }
    ensures told { IsTrue (K.tells sink.old) → OnOk result (K.given sink.new ≡ K.given sink.old ++ lines_text lines.now) }
    ensures err { IsTrue (K.tells sink.old) → IfErr result (λ fault. IsNotGiven fault (K.given sink.old) (K.given sink.new) (lines_text lines.now)) }
    ensures tells { K.tells sink.new ≡ K.tells sink.old }
    ensures later { K.faults sink.old ≤ K.faults sink.new }
    ensures cause { IfErr result (λ e. e ≡ GiveFault.SinkFailed → Rose (K.faults sink.old) (K.faults sink.new)) }
{
    if lines.is_empty() {
        return Ok(());
    }
    let Ok(room) = Vec::with_capacity(alloc, PIECE) else {
        return Err(GiveFault::NoMemory);
    };
    match give_pieces(sink, lines, room) {
        Ok(()) => Ok(()),
        Err(_) => Err(GiveFault::SinkFailed),
    }
}

/// Gives lines to the sink: those of records that stand in front in pieces, all others in one. After a fault it has been given a part of them from their front, and not all.
pub fn give_lines<K: Sink>(alloc: Global, sink: &mut K, lines: &[Line]) -> Result<(), GiveFault>
    ensures told { IsTrue (K.tells sink.old) → OnOk result (K.given sink.new ≡ K.given sink.old ++ lines_text lines.now) }
    ensures err { IsTrue (K.tells sink.old) → IfErr result (λ fault. IsNotGiven fault (K.given sink.old) (K.given sink.new) (lines_text lines.now)) }
    ensures tells { K.tells sink.new ≡ K.tells sink.old }
    ensures later { K.faults sink.old ≤ K.faults sink.new }
    ensures cause { IfErr result (λ e. e ≡ GiveFault.SinkFailed → Rose (K.faults sink.old) (K.faults sink.new)) }
{
    let (records, rest) = lines.split_at(records_in_front(lines));
    // Memory for all that is said is taken before anything is given.
    let Ok(text) = text_of(alloc, rest) else {
        return Err(GiveFault::NoMemory);
    };
    if let Err(fault) = give_records(alloc, sink, records) {
        return Err(fault);
    }
    match give_all(sink, text.as_bytes()) {
        Ok(()) => Ok(()),
        Err(_) => Err(GiveFault::SinkFailed),
    }
}
