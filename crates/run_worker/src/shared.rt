//! What the workers of a run share.
use audit_writer::AuditWriter;
use boxcar_timer::Depart;
use commit_boxcar::{Monitor, MonitorRun, RequestsName};
use disc_lock::DiscProcess;
use disk_model::Disk;
use run_outcomes::Gate;
use tmf_model::Config;
use txn_states::NodeSeats;

/// The configuration of a run, what its attempts stand on, the gate at which its workers may be held, and its states behind their locks.
pub struct Shared<'s, 'a, D: Disk, J: MonitorRun<D>, C: Depart, Q: RequestsName, G: Gate> {
    pub config: &'a Config,
    pub node: &'a NodeSeats<'a, J>,
    pub gate: &'s G,
    pub monitor: &'s Monitor<'a, D, J, C, Q>,
    pub trails: &'s [AuditWriter<'a, D, J>],
    pub discs: &'s [DiscProcess<'a, D, J>],
}
