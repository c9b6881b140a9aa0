//! The lines that the program prints.
ghost use Rattle.std.specs.Prelude.{◌≡◌, ◌++◌, ◌∷◌, [], OnOk, OnErr};

use std::alloc::AllocError;
use std::fmt;
use tmf_model::{Key, Name, Reason, Transid, Value};
use tmf_script::Why;
use trail_files::{Damage, DamageKind, MonitorRecord};

/// What was asked of the node.
#[derive(Clone, Copy, Debug, PartialEq, Eq)]
pub enum ActionKind {
    Format,
    Recover,
    Run,
}

/// Why an operation is refused, as it is printed.
#[derive(Clone, Copy)]
struct ReasonWord(Reason);

/// A rule that bytes break, as it is printed.
#[derive(Clone, Copy)]
struct KindWord(DamageKind);

/// The name of a device as it is printed: a trail's or a volume's own, or, of the device of a volume's dumps, DUMP and the volume's name.
#[derive(Clone, Copy)]
pub struct DeviceName {
    /// Whether it is the device of the dumps of the volume with this name.
    pub dumps: bool,
    pub name: Name,
}

/// The name of a part of a node as it is printed: a worker's, W and its number, or that of the part's device.
#[derive(Clone, Copy)]
pub enum PartName {
    Worker(u16),
    Device(DeviceName),
}

/// One line of the output, without its end. Devices and files go by their names.
#[derive(Clone, Copy)]
pub enum Line {
    Formatted,
    /// A transaction has committed, and its record stands at this place of the monitor trail.
    Committed(Transid, u64),
    /// A read of a transaction that has committed, by the number of its operation, has found this value.
    Read(Transid, u8, Value),
    /// It has found none.
    ReadAbsent(Transid, u8),
    /// A transaction was taken back, as its script says.
    Aborted(Transid),
    /// It was taken back, since this operation was refused.
    Refused(Transid, u8, Reason),
    /// It was taken back, since the block of the file's key had no room.
    Full(Transid, Name, Key),
    /// It was taken back, since the transaction with the second identifier has the file's key.
    Busy(Transid, Name, Key, Transid),
    /// An item of a run did not go on, since the part of this device has had as many events as a run may have, or its disc gives out no further position.
    Spent(Transid, DeviceName),
    /// An item of a run did not go on, since the worker with this number has had as many events.
    SpentWorker(Transid, u16),
    /// An item of a run did not go on, since a call of the device failed.
    AttemptFailed(Transid, DeviceName),
    /// An item of a run did not go on, since the device's bytes break a rule here.
    AttemptDamaged(Transid, DeviceName, Damage),
    /// A transaction's commit was decided, and a call of the device failed as it was recorded: it may stand or not.
    InDoubt(Transid, DeviceName),
    /// A transaction was not taken back, and keeps its locks up to the end of the run, since a call of the device failed.
    Hanging(Transid, DeviceName),
    /// A transaction was not taken back, since the device's bytes break a rule here.
    HangingDamaged(Transid, DeviceName, Damage),
    /// A transaction was not taken back, since memory ran out.
    HangingMemory(Transid),
    /// An item of a run was not begun, since an earlier one of its worker came to an end behind which there is no next one.
    Skipped(Transid),
    /// An item of a run did not go on, since memory ran out.
    Memory(Transid),
    /// The volume with this name has a control point, with this low position.
    Controlled(Transid, Name, u64),
    /// The volume with this name has a dump, with this start.
    Dumped(Transid, Name, u64),
    /// No dump of this volume was begun for the item, since another one was under way.
    Dumping(Transid, Name),
    /// A record of the monitor trail, with its place.
    Recorded(u64, MonitorRecord),
    /// A recovery has found the volume with this name lost.
    LostVolume(Name),
    /// The volume with this name was taken away.
    Removed(Name),
    /// It was not, since a call of its device, which has the same name, failed.
    LoseFailed(Name),
    /// The volume with this name was rolled forward, and its disc gives out this position next.
    Rolled(Name, u64),
    /// It was not, since the node is not up.
    RollNotUp(Name),
    /// It was not, since it is not lost.
    NotLost(Name),
    /// It was not, since no dump of it is there.
    NoDump(Name),
    /// It was not, since a call of the device failed.
    RollFailed(Name, DeviceName),
    /// It was not, since the device's bytes break a rule here.
    RollDamaged(Name, DeviceName, Damage),
    /// The node is up, with this epoch.
    Recovered(u32),
    /// A record of a file.
    Entry(Name, Key, Value),
    /// So many records of a file were listed.
    Listed(Name, u64),
    /// The node is not up, or a volume that a run names is lost; or the node is not formatted, and no recovery can bring it up.
    NotUp(ActionKind),
    /// A call of the device failed.
    Failed(ActionKind, Name),
    /// A call of the device of this volume's dumps failed in a format.
    DumpsFailed(Name),
    /// The device's bytes break a rule here.
    Damaged(ActionKind, Name, Damage),
    /// No worker of a run has begun, since a call of the device failed.
    RunFailed(DeviceName),
    /// No worker of a run has begun, since the device's bytes break a rule here.
    RunDamaged(DeviceName, Damage),
    /// A recovery found no epoch behind the last one.
    EpochsSpent,
    /// The file was not listed, since the node is not up, or the file's volume is lost.
    ListNotUp(Name),
    /// It was not, since a call of the device failed.
    ListFailed(Name, Name),
    /// It was not, since the device's bytes break a rule here.
    ListDamaged(Name, Name, Damage),
    /// The text is no script, by this line of it, for this reason.
    NotScript(u32, Why),
    Usage,
}

impl fmt::Display for ActionKind {
    ghost use Rattle.std.specs.Prelude.{Some};
    ghost use Rattle.tmf_lines.specs.Line.{asked_text};

    ghost output = { λ asked. Some (asked_text asked) };

    fn fmt<W: fmt::Write>(&self, f: &mut fmt::Formatter<W>) -> fmt::Result {
        match self {
            ActionKind::Format => write!(f, "format"),
            ActionKind::Recover => write!(f, "recover"),
            ActionKind::Run => write!(f, "run"),
        }
    }
}

impl fmt::Display for ReasonWord {
    ghost use Rattle.std.specs.Prelude.{Some};
    ghost use Rattle.tmf_lines.specs.Line.{reason_text};

    ghost output = { λ word. Some (reason_text word.0) };

    fn fmt<W: fmt::Write>(&self, f: &mut fmt::Formatter<W>) -> fmt::Result {
        match self.0 {
            Reason::Missing => write!(f, "missing"),
            Reason::NotNumber => write!(f, "not number"),
            Reason::Overflow => write!(f, "overflow"),
        }
    }
}

impl fmt::Display for KindWord {
    ghost use Rattle.std.specs.Prelude.{Some};
    ghost use Rattle.tmf_lines.specs.Line.{kind_text};

    ghost output = { λ word. Some (kind_text word.0) };

    fn fmt<W: fmt::Write>(&self, f: &mut fmt::Formatter<W>) -> fmt::Result {
        match self.0 {
            DamageKind::Missing => write!(f, "missing"),
            DamageKind::Short => write!(f, "short"),
            DamageKind::Version => write!(f, "version"),
            DamageKind::Zero => write!(f, "zero"),
            DamageKind::Count => write!(f, "count"),
            DamageKind::BadRecord => write!(f, "record"),
            DamageKind::Order => write!(f, "order"),
            DamageKind::NoStart => write!(f, "start"),
            DamageKind::BadLabel => write!(f, "label"),
            DamageKind::BadBlock => write!(f, "block"),
        }
    }
}

impl fmt::Display for DeviceName {
    ghost use Rattle.std.specs.Prelude.{Some};
    ghost use Rattle.tmf_lines.specs.Line.{device_text};

    ghost output = { λ device. Some (device_text device) };

    fn fmt<W: fmt::Write>(&self, f: &mut fmt::Formatter<W>) -> fmt::Result {
        let name = self.name;
        if self.dumps {
            write!(f, "DUMP{name}")
        } else {
            write!(f, "{name}")
        }
    }
}

impl fmt::Display for PartName {
    ghost use Rattle.std.specs.Prelude.{Some};
    ghost use Rattle.tmf_lines.specs.Line.{part_text};

    ghost output = { λ part. Some (part_text part) };

    fn fmt<W: fmt::Write>(&self, f: &mut fmt::Formatter<W>) -> fmt::Result {
        match self {
            PartName::Worker(number) => write!(f, "W{number}"),
            PartName::Device(device) => write!(f, "{device}"),
        }
    }
}

impl fmt::Display for Line {
    ghost use Rattle.std.specs.Prelude.{Some};
    ghost use Rattle.tmf_lines.specs.Line.{line_text};

    ghost output = { λ line. Some (line_text line) };

    fn fmt<W: fmt::Write>(&self, f: &mut fmt::Formatter<W>) -> fmt::Result {
        match self {
            Line::Formatted => write!(f, "formatted"),
            Line::Committed(tx, place) => write!(f, "{tx} committed {place}"),
            Line::Read(tx, op, value) => write!(f, "{tx} read {op} = {value}"),
            Line::ReadAbsent(tx, op) => write!(f, "{tx} read {op} absent"),
            Line::Aborted(tx) => write!(f, "{tx} aborted"),
            Line::Refused(tx, op, reason) => {
                let reason = ReasonWord(*reason);
                write!(f, "{tx} refused {op} {reason}")
            }
            Line::Full(tx, file, key) => write!(f, "{tx} full {file} {key}"),
            Line::Busy(tx, file, key, holder) => write!(f, "{tx} busy {file} {key} {holder}"),
            Line::Spent(tx, device) => write!(f, "{tx} spent {device}"),
            Line::SpentWorker(tx, number) => write!(f, "{tx} spent W{number}"),
            Line::AttemptFailed(tx, device) => write!(f, "{tx} failed {device}"),
            Line::AttemptDamaged(tx, device, Damage { file, at, kind }) => {
                let kind = KindWord(*kind);
                write!(f, "{tx} damaged {device} {file} {at} {kind}")
            }
            Line::InDoubt(tx, device) => write!(f, "{tx} indoubt {device}"),
            Line::Hanging(tx, device) => write!(f, "{tx} hanging {device}"),
            Line::HangingDamaged(tx, device, Damage { file, at, kind }) => {
                let kind = KindWord(*kind);
                write!(f, "{tx} hanging damaged {device} {file} {at} {kind}")
            }
            Line::HangingMemory(tx) => write!(f, "{tx} hanging memory"),
            Line::Skipped(tx) => write!(f, "{tx} skipped"),
            Line::Memory(tx) => write!(f, "{tx} memory"),
            Line::Controlled(tx, volume, low) => write!(f, "{tx} controlled {volume} {low}"),
            Line::Dumped(tx, volume, start) => write!(f, "{tx} dumped {volume} {start}"),
            Line::Dumping(tx, volume) => write!(f, "{tx} dumping {volume}"),
            Line::Recorded(place, MonitorRecord::Start(epoch)) => write!(
                f,
                "{place} start {epoch}"
            ),
            Line::Recorded(place, MonitorRecord::Commit(tx)) => write!(f, "{place} commit {tx}"),
            Line::Recorded(place, MonitorRecord::Abort(tx)) => write!(f, "{place} abort {tx}"),
            Line::LostVolume(volume) => write!(f, "lost {volume}"),
            Line::Removed(volume) => write!(f, "lost {volume}"),
            Line::LoseFailed(volume) => write!(f, "lose {volume} failed {volume}"),
            Line::Rolled(volume, next) => write!(f, "rolled {volume} {next}"),
            Line::RollNotUp(volume) => write!(f, "rollforward {volume} not up"),
            Line::NotLost(volume) => write!(f, "rollforward {volume} not lost"),
            Line::NoDump(volume) => write!(f, "rollforward {volume} no dump"),
            Line::RollFailed(volume, device) => write!(f, "rollforward {volume} failed {device}"),
            Line::RollDamaged(volume, device, Damage { file, at, kind }) => {
                let kind = KindWord(*kind);
                write!(
                    f,
                    "rollforward {volume} damaged {device} {file} {at} {kind}"
                )
            }
            Line::Recovered(epoch) => write!(f, "recovered {epoch}"),
            Line::Entry(file, key, value) => write!(f, "{file} {key} {value}"),
            Line::Listed(file, count) => write!(f, "listed {file} {count}"),
            Line::NotUp(asked) => write!(f, "{asked} not up"),
            Line::Failed(asked, device) => write!(f, "{asked} failed {device}"),
            Line::DumpsFailed(volume) => write!(f, "format failed DUMP{volume}"),
            Line::Damaged(asked, device, Damage { file, at, kind }) => {
                let kind = KindWord(*kind);
                write!(f, "{asked} damaged {device} {file} {at} {kind}")
            }
            Line::RunFailed(device) => write!(f, "run failed {device}"),
            Line::RunDamaged(device, Damage { file, at, kind }) => {
                let kind = KindWord(*kind);
                write!(f, "run damaged {device} {file} {at} {kind}")
            }
            Line::EpochsSpent => write!(f, "recover epochs spent"),
            Line::ListNotUp(name) => write!(f, "list {name} not up"),
            Line::ListFailed(name, device) => write!(f, "list {name} failed {device}"),
            Line::ListDamaged(name, device, Damage { file, at, kind }) => {
                let kind = KindWord(*kind);
                write!(f, "list {name} damaged {device} {file} {at} {kind}")
            }
            Line::NotScript(line, why) => write!(f, "line {line} {why}"),
            Line::Usage => write!(f, "usage: tmf run [--dir DIR] or tmf bank N [--dir DIR]"),
        }
    }
}

/// Adds a line behind the others.
pub fn add_line(lines: &mut Vec<Line>, line: Line) -> Result<(), AllocError>
    ensures ok { OnOk result (lines.new.items ≡ lines.old.items ++ line ∷ []) }
    ensures err { OnErr result (lines.new.items ≡ lines.old.items) }
{
    lines.push(line)?;
    Ok(())
}
