//! The taking apart of a disc.
ghost use Rattle.std.specs.Prelude.{◌≡◌};
ghost use Rattle.disc_process.specs.Device.{HoldsDevice, device_of};
ghost use Rattle.disc_process.specs.Later.{IsLawful};
ghost use Rattle.disc_process.specs.Shown.{IsShown};

use crate::disc::DiscState;
use audit_writer::DeviceRun;
use block_cache::Blocks;
use chronicle::Seat;
use disk_model::Disk;
use node_machine::NodeMachine;

impl<'a, D: Disk, J: DeviceRun<D>> DiscState<'a, D, J> {
    /// Its blocks, on the device that was handed in for the volume, and its seat. Where the volume tells its values, each image that the device may leave shows what the part says.
    pub fn into_parts(self) -> (Blocks<D>, Seat<NodeMachine, J>)
        ensures blocks { result.0 ≡ self.entry.blocks }
        ensures seat { result.1 ≡ self.entry.seat }
        ensures device { HoldsDevice D.Disk (J.devices (device_of self.entry.part.number)) (J.faults (device_of self.entry.part.number)) result.0.device self.entry.part.events }
        ensures lawful { IsLawful D.Disk J.opening self.entry }
        ensures shown { IsShown D.Disk self.entry }
    {
        self.lawful();
        self.device_lawful();
        let DiscState { blocks, seat, .. } = self;
        (blocks, seat)
    }
}
