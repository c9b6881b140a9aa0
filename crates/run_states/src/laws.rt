//! What holds of the parts of a run.
ghost use Rattle.run_states.specs.Begun.{JoinLaw, MonitorLaw, NameLaw, PickLaw};
ghost use Rattle.run_states.specs.DiscPost.{DiscPostLaw};
ghost use Rattle.run_states.specs.DumpPost.{DumpPostLaw};

use commit_boxcar::MonitorRun;
use disk_model::Disk;
use online_dump::shown_law;
use run_opening::found_law;

/// What a disc of a run gives back, when it is taken apart, is what a run needs of a device and its part's seat.
pub fn disc_post_law<D: Disk>()
    ensures { DiscPostLaw D.Disk }
{}

/// So is what a dump device gives back, where the dump that it had when it was handed in is told.
pub fn dump_post_law<D: Disk, J: MonitorRun<D>>()
    ensures { DumpPostLaw D.Disk J.opening J.found J.faults J.premise J.devices }
{
    shown_law();
}

/// Says of the devices that were opened that they may be joined with the seats of their parts, where the run's name carries what is kept of them; that the name is then what the locks of the
/// run and its end ask; and that there is such a name. It does nothing.
pub fn begun_law<D: Disk, J: MonitorRun<D>>()
    ensures join { JoinLaw D.Disk J.opening J.found J.before J.rules J.faults J.premise J.devices }
    ensures monitor { MonitorLaw D.Disk J.opening J.found J.before J.rules J.faults J.premise J.devices }
    ensures name { NameLaw D.Disk J.opening J.found J.before J.rules J.faults J.premise J.devices }
    ensures pick { PickLaw D.Disk }
{
    found_law::<D>();
}
