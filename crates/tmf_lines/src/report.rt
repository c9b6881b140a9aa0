//! The lines of a recovery and of a listing, and the names that lines have.
ghost use Rattle.std.specs.Prelude.{◌≡◌, ◌++◌, drop, IfOk, OnOk};
ghost use Rattle.tmf_lines.specs.Report.{device_name, file_name_of, format_failure, listed_lines, lost_lines, node_device_name, part_device, part_name, recorded_lines, recovered_lines, spent_line, trail_name, volume_name};

use crate::line::{ActionKind, DeviceName, Line, PartName, add_line};
use std::alloc::{AllocError, Global};
use tmf_model::{Config, Key, Name, Transid, Value};
use trail_files::MonitorRecord;

/// The number of the last device that is a trail's.
const LAST_TRAIL: u8 = 4;

/// The number of the last device that is a volume's.
const LAST_VOLUME: u8 = 12;

/// The number of the last part that is a worker's.
const LAST_WORKER: u32 = 15;

/// The number of the last part that is the disc of a volume.
const LAST_DISC: u32 = 23;

/// The number of the part that is the monitor, which stands behind those of the trails.
const MONITOR: u32 = 28;

/// The number of the last part, which is that of a volume's dumps.
const LAST_PART: u32 = 36;

/// A line for each monitor record with its place, but for those of the first places, so many, which were printed before.
fn recorded_lines(
    alloc: Global,
    printed: u64,
    records: &[MonitorRecord],
) -> Result<Vec<Line>, AllocError>
    ensures { IfOk result (λ lines. lines.items ≡ drop printed (recorded_lines records.now)) }
{
    let mut lines = Vec::new(alloc);
    let skipped = printed.min(records.len() as u64);
    let mut place = skipped + 1;
    let (_, mut rest) = records.split_at(skipped as usize);
    while let Some((item, more)) = rest.split_first() {
        add_line(&mut lines, Line::Recorded(place, *item))?;
        place += 1;
        rest = more;
    }
    Ok(lines)
}

/// Adds a line for each volume that is lost, by their numbers.
fn add_lost(lines: &mut Vec<Line>, config: &Config, lost: &[u8]) -> Result<(), AllocError>
    ensures { OnOk result (lines.new.items ≡ lines.old.items ++ lost_lines config.now lost.now) }
{
    for volume in lost {
        add_line(lines, Line::LostVolume(volume_name(config, *volume)))?;
    }
    Ok(())
}

/// A line for each monitor record with its place, but for those of the first places, so many, which were printed before; one for each volume that is lost, by their
/// numbers; and the line of the epoch that begins.
pub fn recovery_lines(
    alloc: Global,
    config: &Config,
    printed: u64,
    records: &[MonitorRecord],
    lost: &[u8],
    epoch: u32,
) -> Result<Vec<Line>, AllocError>
    ensures { IfOk result (λ lines. lines.items ≡ recovered_lines config.now printed records.now lost.now epoch) }
{
    let mut lines = recorded_lines(alloc, printed, records)?;
    add_lost(&mut lines, config, lost)?;
    add_line(&mut lines, Line::Recovered(epoch))?;
    Ok(lines)
}

/// A line for each of the file's records, and the line of their number.
pub fn listing_lines(
    alloc: Global,
    file: Name,
    entries: &[(Key, Value)],
) -> Result<Vec<Line>, AllocError>
    ensures { IfOk result (λ lines. lines.items ≡ listed_lines file entries.now) }
{
    let mut lines = Vec::new(alloc);
    let mut rest = entries;
    while let Some((entry, more)) = rest.split_first() {
        add_line(&mut lines, Line::Entry(file, entry.0, entry.1))?;
        rest = more;
    }
    add_line(&mut lines, Line::Listed(file, entries.len() as u64))?;
    Ok(lines)
}

/// The name of a file, by its number from 1; MAT where there is none.
pub fn file_name(config: &Config, file: u8) -> Name
    ensures { result ≡ file_name_of config.now file }
{
    match config
        .files
        .as_slice()
        .get(usize::from(file).saturating_sub(1))
    {
        Some(line) => line.name,
        None => Name::new(b"MAT").unwrap(),
    }
}

/// The name of a trail, by its number, of which the monitor trail's is 0.
fn trail_name(config: &Config, trail: u8) -> Name
    ensures { result ≡ trail_name config.now trail }
{
    let monitor = Name::new(b"MAT").unwrap();
    if trail == 0 {
        return monitor;
    }
    match config.trails.as_slice().get(usize::from(trail) - 1) {
        Some(name) => *name,
        None => monitor,
    }
}

/// The name of a volume, by its number from 1; MAT where there is none.
pub fn volume_name(config: &Config, volume: u8) -> Name
    ensures { result ≡ volume_name config.now volume }
{
    match config
        .volumes
        .as_slice()
        .get(usize::from(volume).saturating_sub(1))
    {
        Some(line) => line.name,
        None => Name::new(b"MAT").unwrap(),
    }
}

/// The name by which the device of a trail or of a volume is printed, by its number in the bay.
pub fn device_name(config: &Config, device: u8) -> Name
    ensures { result ≡ device_name config.now device }
{
    if device <= LAST_TRAIL {
        trail_name(config, device)
    } else {
        volume_name(config, device - LAST_TRAIL)
    }
}

/// The name by which any device of a node is printed, those of dumps among them, by its number in the bay.
pub fn node_device_name(config: &Config, device: u8) -> DeviceName
    ensures { result ≡ node_device_name config.now device }
{
    let dumps = device > LAST_VOLUME;
    let name = if dumps {
        volume_name(config, device - LAST_VOLUME)
    } else {
        device_name(config, device)
    };
    DeviceName { dumps, name }
}

/// The number in the bay of the device of a part that is no worker's; a number past those of the parts counts as the last part's.
fn part_device(part: u32) -> u8
    ensures { result ≡ part_device part }
{
    if part <= LAST_DISC {
        LAST_TRAIL + part.saturating_sub(LAST_WORKER) as u8
    } else if part < MONITOR {
        (part - LAST_DISC) as u8
    } else if part == MONITOR {
        0
    } else {
        LAST_VOLUME + (part.min(LAST_PART) - MONITOR) as u8
    }
}

/// The name by which a part of a node is printed, by its number; a number past those of the parts counts as the last part's.
pub fn part_name(config: &Config, part: u32) -> PartName
    ensures { result ≡ part_name config.now part }
{
    if part <= LAST_WORKER {
        PartName::Worker(part as u16 + 1)
    } else {
        PartName::Device(node_device_name(config, part_device(part)))
    }
}

/// The line of an item that did not go on, since a part with this name has had all its events.
pub fn spent_line(tx: Transid, part: PartName) -> Line
    ensures { result ≡ spent_line tx part }
{
    match part {
        PartName::Worker(number) => Line::SpentWorker(tx, number),
        PartName::Device(device) => Line::Spent(tx, device),
    }
}

/// The line of a format that failed at this device, by its number in the bay.
pub fn format_failure(config: &Config, device: u8) -> Line
    ensures { result ≡ format_failure config.now device }
{
    if device <= LAST_VOLUME {
        Line::Failed(ActionKind::Format, device_name(config, device))
    } else {
        Line::DumpsFailed(volume_name(config, device - LAST_VOLUME))
    }
}
