//! The lines of records, of a file or of the monitor trail, given to the sink a piece at a time. No text of all of them is kept.
ghost use Rattle.std.specs.Prelude.{◌≡◌, ◌++◌, ◌∷◌, [], ◌+◌, ◌<◌, ◌≤◌, ℕ, Some, length, slice_get, true, vec_len, vec_capacity, IsTrue, OnOk, OnErr};
ghost use Rattle.std.specs.Fmt.{decimal};
ghost use Rattle.disk_model.specs.Held.{HasCause};
ghost use Rattle.tmf_model.specs.Transid.{transid_text};
ghost use Rattle.tmf_lines.specs.declared.line.Line.{Line};
ghost use Rattle.tmf_lines.specs.declared.line.Line.TheVariants.{Entry, Recorded};
ghost use Rattle.tmf_lines.specs.Line.{AreRecords, is_record, line_text, lines_text, record_text};
ghost use Rattle.tmf_edges.specs.Moves.{AppendsPart};

use crate::line::Line;
use itoa::Buffer;
use tmf_edges::{Sink, SinkFault, give_all};
use tmf_model::{Key, Name, Transid, Value};
use trail_files::MonitorRecord;

/// The bytes of a piece, at most.
pub const PIECE: usize = 16384;

/// The bytes of a record's line, at most: those of five numbers of 20 digits, of a word of six letters and of six marks.
const LONGEST: usize = 112;

/// Whether the line is that of a record, of a file or of the monitor trail.
fn is_record(line: &Line) -> bool
    ensures { result ≡ is_record line.now }
{
    matches!(line, Line::Entry(_, _, _) | Line::Recorded(_, _))
}

/// How many lines from the front on are those of records.
pub fn records_in_front(lines: &[Line]) -> usize
    ensures few { result ≤ length lines.now }
    ensures records { AreRecords result lines.now }
{
    let mut count = 0;
    while count < lines.len() && is_record(&lines[count]) {
        count += 1;
    }
    count
}

/// Adds bytes for which a piece has room.
fn put(piece: &mut Vec<u8>, bytes: &[u8])
    requires room { length piece.old.items + length bytes.now ≤ vec_capacity piece.old }
    ensures items { piece.new.items ≡ piece.old.items ++ bytes.now }
    ensures capacity { vec_capacity piece.old ≤ vec_capacity piece.new }
{
    if piece.extend_from_slice(bytes).is_err() {
        unreachable!();
    }
}

/// Adds a number, for which a piece has room.
fn put_number(piece: &mut Vec<u8>, number: u64)
    requires room { length piece.old.items + 20 ≤ vec_capacity piece.old }
    ensures items { piece.new.items ≡ piece.old.items ++ decimal number }
    ensures short { length piece.new.items ≤ length piece.old.items + 20 }
    ensures capacity { vec_capacity piece.old ≤ vec_capacity piece.new }
{
    if number < 10 {
        piece.push_reserved(b'0' + number as u8);
    } else {
        put(piece, Buffer::new().format(number).as_bytes());
    }
}

/// Adds an identifier, for which a piece has room.
fn put_transid(piece: &mut Vec<u8>, tx: Transid)
    requires room { length piece.old.items + 83 ≤ vec_capacity piece.old }
    ensures items { piece.new.items ≡ piece.old.items ++ transid_text tx }
    ensures short { length piece.new.items ≤ length piece.old.items + 83 }
    ensures capacity { vec_capacity piece.old ≤ vec_capacity piece.new }
{
    put_number(piece, u64::from(tx.epoch));
    put(piece, b".");
    put_number(piece, u64::from(tx.worker));
    put(piece, b".");
    put_number(piece, u64::from(tx.ordinal));
    put(piece, b".");
    put_number(piece, u64::from(tx.attempt));
}

/// Adds a record of the monitor trail as it is printed, for which a piece has room.
fn put_record(piece: &mut Vec<u8>, item: MonitorRecord)
    requires room { length piece.old.items + 90 ≤ vec_capacity piece.old }
    ensures items { piece.new.items ≡ piece.old.items ++ record_text item }
    ensures short { length piece.new.items ≤ length piece.old.items + 90 }
    ensures capacity { vec_capacity piece.old ≤ vec_capacity piece.new }
{
    match item {
        MonitorRecord::Start(epoch) => {
            put(piece, b"start ");
            put_number(piece, u64::from(epoch));
        }
        MonitorRecord::Commit(tx) => {
            put(piece, b"commit ");
            put_transid(piece, tx);
        }
        MonitorRecord::Abort(tx) => {
            put(piece, b"abort ");
            put_transid(piece, tx);
        }
    }
}

/// Adds the line of a record of the monitor trail, for which a piece has room.
fn add_recorded(piece: &mut Vec<u8>, place: u64, item: MonitorRecord)
    requires room { length piece.old.items + 112 ≤ vec_capacity piece.old }
    ensures items { piece.new.items ≡ piece.old.items ++ (line_text (Recorded place item) ++ 10 ∷ []) }
    ensures capacity { vec_capacity piece.old ≤ vec_capacity piece.new }
{
    put_number(piece, place);
    put(piece, b" ");
    put_record(piece, item);
    put(piece, b"\n");
}

/// Adds the line of a record of a file, for which a piece has room.
fn add_entry(piece: &mut Vec<u8>, file: Name, key: Key, value: Value)
    requires room { length piece.old.items + 67 ≤ vec_capacity piece.old }
    ensures items { piece.new.items ≡ piece.old.items ++ (line_text (Entry file key value) ++ 10 ∷ []) }
    ensures capacity { vec_capacity piece.old ≤ vec_capacity piece.new }
{
    put(piece, file.as_bytes());
    put(piece, b" ");
    put(piece, key.as_bytes());
    put(piece, b" ");
    put(piece, value.as_bytes());
    put(piece, b"\n");
}

/// Adds a record's line, for which a piece has room.
fn add_line(piece: &mut Vec<u8>, line: &Line)
    requires record { is_record line.now ≡ true }
    requires room { length piece.old.items + 112 ≤ vec_capacity piece.old }
    ensures items { piece.new.items ≡ piece.old.items ++ (line_text line.now ++ 10 ∷ []) }
    ensures capacity { vec_capacity piece.old ≤ vec_capacity piece.new }
{
    match line {
        Line::Entry(file, key, value) => add_entry(piece, *file, *key, *value),
        Line::Recorded(place, item) => add_recorded(piece, *place, *item),
        _ => unreachable!(),
    }
}

/// Gives the lines of records to the sink, with room for one piece. After an error it took a part of them from their front on, and not all.
pub fn give_pieces<K: Sink>(sink: &mut K, lines: &[Line], room: Vec<u8>) -> Result<(), SinkFault>
    requires records { AreRecords (length lines.now) lines.now }
    requires empty { room.items ≡ [] }
    requires room { 16384 ≤ vec_capacity room }
    ensures tells { K.tells sink.new ≡ K.tells sink.old }
    ensures told { IsTrue (K.tells sink.old) → OnOk result (K.given sink.new ≡ K.given sink.old ++ lines_text lines.now) }
    ensures err { IsTrue (K.tells sink.old) → OnErr result (AppendsPart (K.given sink.old) (K.given sink.new) (lines_text lines.now)) }
    ensures cause { HasCause (K.faults sink.old) (K.faults sink.new) result }
{
    let mut piece = room;
    for line in lines {
        if piece.len() > PIECE - LONGEST {
            give_all(sink, &piece)?;
            piece.clear();
        }
        add_line(&mut piece, line);
    }
    give_all(sink, &piece)
}
