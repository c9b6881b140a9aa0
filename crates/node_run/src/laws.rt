//! What holds of a run behind its turns, and of the devices that were opened for it.
ghost use Rattle.node_run.specs.Closing.{ClosingLaw, SeatTokensLaw};
ghost use Rattle.node_run.specs.Over.{BeginLaw, ClosedLaw, ListedLaw, OverLaw, PhaseLaw};

use disk_model::Disk;
use run_opening::found_law;
use run_outcomes::{ran_law, reread_law, returned_law, told_law};
use run_states::begun_law;
use run_threads::ended_law;
use std::marker::Brand;
use trail_files::{MonitorRecord, Trail};

/// Says that the tokens that the seats of all parts have seen are those of the acts and moves of a history, where each has seen all events of its part. It does nothing.
pub fn seat_tokens_law()
    ensures { SeatTokensLaw }
{}

/// Says that what was taken down behind the turns of a run is a run that is over, of the history that its seats have made. It does nothing.
pub fn closing_law<D: Disk>()
    ensures { ClosingLaw D.Disk }
{
    ended_law::<D>();
    seat_tokens_law();
    told_law::<D>();
}

/// Says that a run that is over is a run of the devices as they were handed in. It does nothing.
pub fn over_law<D: Disk>()
    ensures over { OverLaw D.Disk }
    ensures closed { ClosedLaw D.Disk }
{
    found_law::<D>();
    ran_law::<D>();
    reread_law::<D>();
    returned_law::<D>();
}

/// Says of devices that were opened for a phase that each volume that it names was found, that there is one list of the monitor trail, if it tells one, and that a run may begin whose name
/// carries what is kept of them. It does nothing.
pub fn phase_law<D: Disk>()
    ensures phase { PhaseLaw D.Disk }
    ensures listed { ListedLaw D.Disk }
    ensures begins { BeginLaw D.Disk }
{
    begun_law::<D, Brand>();
    Trail::<D, MonitorRecord>::one_spelling();
}
