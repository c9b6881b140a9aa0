//! What a run leaves: the records of its trail, and what a recovery makes of its devices.
use crate::parts::{Stores, config};
use disk_model::{Bay, Disk, MemDisk};
use std::alloc::Global;
use std::test::*;
use tmf_model::{Key, Value};
use trail_files::{AuditKind, AuditRecord, Trail};
use volume_recovery::volumes::{list_file, recover};

/// What is looked at of an audit record: its kind, its position, and the value that it leaves.
pub(crate) type Seen = (AuditKind, u64, Option<Value>);

/// The first four records of a trail, as far as there are so many.
pub(crate) fn records<D: Disk + Drop>(mut trail: Trail<D, AuditRecord>) -> [Option<Seen>; 4] {
    let mut cursor = trail.cursor();
    let mut found = [None; 4];
    for place in &mut found {
        if let Ok(Some(record)) = trail.next(&mut cursor) {
            *place = Some((record.kind, record.position, record.after));
        }
    }
    found
}

/// A record of a change or of an undo that leaves a value.
pub(crate) fn record(kind: AuditKind, position: u64, value: &[u8]) -> Result<Option<Seen>, Fail> {
    Ok(Some((kind, position, Some(Value::new(value)?))))
}

/// So many empty devices more.
fn add_empty(alloc: Global, devices: &mut Vec<MemDisk>, count: u8) -> Result<(), Fail> {
    for _ in 0..count {
        devices.push(MemDisk::new(alloc, 0, &[]).map_err(|_| "memory")?)?;
    }
    Ok(())
}

/// The node's devices: those that the run leaves, each at its place, and empty ones.
fn bay_of(alloc: Global, left: Stores<MemDisk>) -> Result<Bay<MemDisk>, Fail> {
    let mut devices = Vec::new(alloc);
    devices.push(left.monitor.into_device())?;
    devices.push(left.trail.into_device())?;
    add_empty(alloc, &mut devices, 3)?;
    devices.push(left.blocks.into_device())?;
    add_empty(alloc, &mut devices, 15)?;
    match Bay::new(alloc, devices) {
        Ok(bay) => Ok(bay),
        Err(_) => Err(Fail::new("no bay")),
    }
}

/// What a recovery behind a stop makes of the file.
pub(crate) fn listed(alloc: Global, left: Stores<MemDisk>) -> Result<Vec<(Key, Value)>, Fail> {
    let config = config(alloc)?;
    let mut bay = bay_of(alloc, left)?;
    match recover(alloc, &mut bay, &config) {
        Ok(_) => {}
        Err(_) => return Err(Fail::new("not recovered")),
    }
    match list_file(alloc, &mut bay, &config, 1) {
        Ok(found) => Ok(found),
        Err(_) => Err(Fail::new("not listed")),
    }
}
