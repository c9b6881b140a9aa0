//! What the thread of a worker stands on.
ghost use Rattle.run_items.specs.Volumes.{AreVolumes};

use boxcar_timer::Depart;
use commit_boxcar::{MonitorRun, RequestsName};
use disk_model::Disk;
use online_dump::Dumper;
use run_items::Volumes;
use run_outcomes::Gate;
use run_worker::Shared;
use tmf_model::Phase;

/// What the workers of a run share, the devices of its dumps, its items, and its epoch.
pub struct Work<'s, 'a, D: Disk, J: MonitorRun<D>, C: Depart, Q: RequestsName, G: Gate> {
    pub shared: &'s Shared<'s, 'a, D, J, C, Q, G>,
    pub dumpers: &'s [Dumper<'a, D, J>],
    pub phase: &'s Phase,
    pub epoch: u32,
}

/// The volumes of the run, as a control point or a dump takes them.
pub(crate) fn volumes_of<'s, 'a, D: Disk, J: MonitorRun<D>, C: Depart, Q: RequestsName, G: Gate>(
    work: &Work<'s, 'a, D, J, C, Q, G>,
) -> Volumes<'s, 'a, D, J>
    requires { AreVolumes J.found work.now.shared.now.trails.now work.now.shared.now.discs.now work.now.dumpers.now }
    ensures { AreVolumes J.found result.trails.now result.discs.now result.dumpers.now }
{
    Volumes {
        trails: work.shared.trails,
        discs: work.shared.discs,
        dumpers: work.dumpers,
    }
}

/// Lets go of what a control point or a dump has taken, which owns nothing.
pub(crate) fn let_go<'s, 'a, D: Disk, J: MonitorRun<D>>(volumes: Volumes<'s, 'a, D, J>) {
    let Volumes {
        trails: _,
        discs: _,
        dumpers: _,
    } = volumes;
}
