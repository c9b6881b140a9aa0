//! What the acts of an attempt say in a history.
ghost use Rattle.run_worker.specs.Behind.{ActsTellLaw, GoneTellsLaw};
ghost use Rattle.run_worker.specs.Known.{AttemptTellsLaw};

use disk_model::Disk;
use node_laws::{events_law, holder_law};
use run_outcomes::{knowing_law, next_law};

/// Each history that has these acts of an attempt alone has the steps, the reads and the turns that they are. So how far an attempt has gone on in its steps, each such history says.
pub fn acting_law()
    ensures acts { ActsTellLaw }
    ensures gone { GoneTellsLaw }
{}

/// What an attempt of a run has come to is told behind it: it stands in each history that goes on from what its worker's seat has then seen, with the acts of it that the worker knows, and no other.
pub fn attempt_law<D: Disk>()
    ensures { AttemptTellsLaw D.Disk }
{
    events_law();
    holder_law();
    knowing_law();
    next_law();
}
