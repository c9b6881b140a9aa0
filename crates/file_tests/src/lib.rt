//! Tests of the files below a node: devices in memory, blocks and labels of volumes, records of trails and trails. It has no call of its own.
#![tactic(auto)]

#[cfg(test)]
mod audit_records;
#[cfg(test)]
mod memory_disks;
#[cfg(test)]
mod monitor_records;
#[cfg(test)]
mod trails;
#[cfg(test)]
mod volume_bytes;
