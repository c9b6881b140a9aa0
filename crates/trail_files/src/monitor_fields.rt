//! The fields of a monitor record's 32 bytes.
ghost use Rattle.std.specs.Prelude.{◌≡◌, length};
ghost use Rattle.trail_files.specs.MonitorFormat.{monitor_row, monitor_spelling, monitor_fields, is_part, monitor_record_at};
ghost use Rattle.trail_files.specs.RecordTable.{first_bad};

use crate::monitor_record::MonitorRecord;
use crate::record_table::{first_bad_field, identifier, is_padding};
use tmf_model::Transid;

/// Writes the fields in the order of their offsets.
fn write_row(kind: u8, tx: Transid, place: u64, into: &mut [u8])
    requires { length into.old ≡ 32 }
    ensures { into.new ≡ monitor_row kind tx place }
{
    let [a, b, c, d] = tx.epoch.to_be_bytes();
    let [e, f] = tx.worker.to_be_bytes();
    let [g, h] = tx.ordinal.to_be_bytes();
    let [i, j, k, l, m, n, o, p] = place.to_be_bytes();
    into.copy_from_slice(&[
        kind, 0, 0, 0, a, b, c, d, e, f, g, h, tx.attempt, 0, 0, 0, i, j, k, l, m, n, o, p, 0, 0,
        0, 0, 0, 0, 0, 0,
    ]);
}

/// Writes the record with its place.
pub fn write_monitor(item: &MonitorRecord, place: u64, into: &mut [u8])
    requires { length into.old ≡ 32 }
    ensures { into.new ≡ monitor_spelling item.now place }
{
    match *item {
        MonitorRecord::Start(epoch) => {
            let tx = Transid {
                epoch,
                worker: 0,
                ordinal: 0,
                attempt: 0,
            };
            write_row(1, tx, place, into);
        }
        MonitorRecord::Commit(tx) => write_row(2, tx, place, into),
        MonitorRecord::Abort(tx) => write_row(3, tx, place, into),
    }
}

/// Whether a part of an identifier is in its range: 0 in a Start.
fn fits(starts: bool, most: u16, part: u16) -> bool
    ensures { result ≡ is_part starts most part }
{
    if starts {
        part == 0
    } else {
        1 <= part && part <= most
    }
}

/// The first field out of its range, where `doubled` tells that the identifier stands in an earlier record.
pub fn bad_monitor_field(bytes: &[u8], doubled: bool) -> Option<u32>
    requires { length bytes.now ≡ 32 }
    ensures { result ≡ first_bad (monitor_fields doubled bytes.now) }
{
    let tx = identifier(bytes);
    let starts = bytes[0] == 1;
    first_bad_field(&[
        (0, 1 <= bytes[0] && bytes[0] <= 3),
        (1, is_padding(&bytes[1..4])),
        (4, tx.epoch >= 1 && !doubled),
        (8, fits(starts, 16, tx.worker)),
        (10, fits(starts, 4096, tx.ordinal)),
        (12, fits(starts, 8, u16::from(tx.attempt))),
        (13, is_padding(&bytes[13..16])),
        (24, is_padding(&bytes[24..32])),
    ])
}

/// The record that fields in their ranges hold.
pub fn monitor_record(bytes: &[u8]) -> MonitorRecord
    requires { length bytes.now ≡ 32 }
    ensures { result ≡ monitor_record_at bytes.now }
{
    let tx = identifier(bytes);
    match bytes[0] {
        1 => MonitorRecord::Start(tx.epoch),
        2 => MonitorRecord::Commit(tx),
        _ => MonitorRecord::Abort(tx),
    }
}
