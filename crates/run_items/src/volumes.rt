//! The volumes of a run.
use audit_writer::{AuditWriter, DeviceRun};
use disc_lock::DiscProcess;
use disk_model::Disk;
use online_dump::Dumper;

/// The discs of a run's volumes, the writers of its trails, and the devices of the volumes' dumps, behind their locks.
pub struct Volumes<'s, 'a, D: Disk, J: DeviceRun<D>> {
    pub trails: &'s [AuditWriter<'a, D, J>],
    pub discs: &'s [DiscProcess<'a, D, J>],
    pub dumpers: &'s [Dumper<'a, D, J>],
}
