//! What the workers of a run are at the end of its history.
ghost use Rattle.run_threads.specs.Ended.{EndedLaw};

use disk_model::Disk;

/// Where the seats of all workers have seen all that their parts have in a history, and all tokens are there, the workers that have ended are those of the history, as `told_law` asks for.
pub fn ended_law<D: Disk>()
    ensures { EndedLaw D.Disk }
{}
