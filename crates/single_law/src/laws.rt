//! What holds of each run: of those that have one worker, of the row of its records, and of the dumps of its volumes.
ghost use Rattle.run_standing.specs.Telling.{telling};
ghost use Rattle.single_law.specs.Dumps.{DumpsLaw};
ghost use Rattle.single_law.specs.Front.{FrontLaw};
ghost use Rattle.single_law.specs.One.{OneEndLaw, OneRunLaw};
ghost use Rattle.single_law.specs.Row.{OrderLaw, RowLaw};
ghost use Rattle.single_law.specs.Single.{SingleLaw};

use disk_model::Disk;
use node_laws::{crash_law, done_law, events_law, holder_law, live_law, reads_law};

/// In every history the monitor's records end attempts of the run, those of one worker in the order of its attempts.
pub fn order_law()
    ensures { OrderLaw }
{}

/// Behind a run over the devices of a node that is up the records that have landed, with those that were offered, end attempts of the run, those of one worker in the order of its attempts.
pub fn row_law<D: Disk>()
    ensures { RowLaw D.Disk }
{
    crash_law();
    done_law();
    reads_law();
}

/// Behind a run over the devices of a node that is up, a dump device that surely had no dump of its volume has none where no item is one; one that surely had one has one, and so has one
/// of which an outcome tells that a dump is whole. The same of devices of which no more is known than what they hold, and their counts.
pub fn dumps_law<D: Disk>()
    ensures ran { DumpsLaw D.Disk }
    ensures known { DumpsLaw (telling D.held D.faults) }
{
    events_law();
}

/// Of a run of one worker over the devices of a node that is up, of which no outcome is the last that the worker carries out, each outcome ends as its item does on the map that those
/// before it leave; and in what the run has made of the node exactly the records that they leave have landed. The same of devices of which no more is known than what they hold, and their
/// counts.
pub fn single_law<D: Disk>()
    ensures ran { SingleLaw D.Disk }
    ensures known { SingleLaw (telling D.held D.faults) }
{
    crash_law();
    done_law();
    events_law();
    holder_law();
    live_law();
    reads_law();
}

/// Of a run of one worker over the devices of a node that is up, of which none of the first so many outcomes is the last that the worker carries out, each of these ends as its item does on
/// the map that those before it leave. The same of devices of which no more is known than what they hold, and their counts.
pub fn front_law<D: Disk>()
    ensures ran { FrontLaw D.Disk }
    ensures known { FrontLaw (telling D.held D.faults) }
{
    done_law();
    events_law();
    holder_law();
    live_law();
    reads_law();
}

/// An attempt at a transaction that begins at a map ends in one way.
pub fn one_end_law()
    ensures { OneEndLaw }
{}

/// Two runs of one worker with the same items, over nodes that stand for one map and for lists of one length, have the same outcomes apart from the positions that control points and
/// dumps tell, whatever their histories.
pub fn one_run_law()
    ensures { OneRunLaw }
{}
