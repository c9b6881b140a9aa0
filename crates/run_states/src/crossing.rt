//! What the threads of a run share.
use audit_writer::AuditWriter;
use boxcar_timer::Depart;
use chronicle::Chronicle;
use commit_boxcar::{Monitor, MonitorRun, RequestsName};
use disc_lock::DiscProcess;
use disk_model::Disk;
use node_machine::NodeMachine;
use online_dump::Dumper;

// Threads may share it.
fn is_shared<T: Sync>() {}

/// Says that threads may share the chronicle of a run, its monitor, the writers of its trails, its discs and its dump devices. It does nothing.
pub fn states_are_shared<
    'a,
    D: Disk + Send + 'a,
    J: MonitorRun<D> + Send + Sync + 'a,
    C: Depart + Send + 'a,
    Q: RequestsName + Send + Sync + 'a,
>() {
    is_shared::<Chronicle<NodeMachine, J>>();
    is_shared::<Monitor<'a, D, J, C, Q>>();
    is_shared::<AuditWriter<'a, D, J>>();
    is_shared::<DiscProcess<'a, D, J>>();
    is_shared::<Dumper<'a, D, J>>();
}
