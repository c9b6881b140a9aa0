//! The position below which nothing is unfinished.
ghost use Rattle.node_machine.specs.Disc.{IsGreatestQuiet};

use crate::disc::DiscState;
use audit_writer::DeviceRun;
use disk_model::Disk;

impl<'a, D: Disk, J: DeviceRun<D>> DiscState<'a, D, J> {
    /// The greatest position below which nothing is unfinished: each transaction with a record below it has released here, and one that was
    /// backed out has no record from it on. It looks at each transaction that has not released.
    pub fn quiet(&self) -> u64
        ensures { IsGreatestQuiet self.now.part result }
    {
        self.live.least_bound(self.next)
    }
}
