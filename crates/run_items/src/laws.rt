//! What an item is to its worker, and to the history of the run.
ghost use Rattle.run_items.specs.Behind.{ControlJoinsLaw, ControlToldLaw, DumpJoinsLaw, DumpToldLaw};

use disk_model::Disk;
use run_outcomes::{joined_law, next_law};

/// What a control point has come to is told in each history that goes on from what its worker's seat has seen; and its worker goes on by it.
pub fn control_law<D: Disk>()
    ensures told { ControlToldLaw D.Disk }
    ensures joins { ControlJoinsLaw D.Disk }
{
    joined_law::<D>();
    next_law();
}

/// The same of a dump.
pub fn dump_law<D: Disk>()
    ensures told { DumpToldLaw D.Disk }
    ensures joins { DumpJoinsLaw D.Disk }
{
    joined_law::<D>();
    next_law();
}
