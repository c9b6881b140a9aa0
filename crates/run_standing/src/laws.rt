//! What holds of each run on threads over the devices of a node that is up.
ghost use Rattle.run_standing.specs.Made.{StandsLaw};
ghost use Rattle.run_standing.specs.Fit.{UndamagedLaw};
ghost use Rattle.run_standing.specs.Telling.{NotRunTellingLaw, TellingLaw};

use disk_model::Disk;
use keyed_file::spelling_length_law;
use node_laws::{crash_law, done_law, reads_law};
use trail_files::{AuditRecord, MonitorRecord, Trail};

/// Whatever a crash leaves of the devices stands for the list with the records that have landed behind it, or with those that were offered too, and for the map that the commits among
/// them make by the transactions of the script; and each transaction that is told as committed has its place there.
pub fn stands_law<D: Disk>()
    ensures { StandsLaw D.Disk }
{
    crash_law();
    done_law();
    reads_law();
}

/// No device of a node that is up is unfit, by what it holds, for a run which names no lost volume.
pub fn undamaged_law<D: Disk>()
    ensures { UndamagedLaw D.Disk }
{
    Trail::<D, MonitorRecord>::one_spelling();
    Trail::<D, AuditRecord>::one_spelling();
    spelling_length_law();
}

/// Of devices that all tell what they hold, a run is one over devices of which that alone is known; and the same where no worker has begun.
pub fn telling_law<D: Disk>()
    ensures ran { TellingLaw D.Disk }
    ensures not_run { NotRunTellingLaw D.Disk }
{}
