//! A disc whose lock is held.
ghost use Rattle.std.specs.Prelude.{◌≡◌, ◌-◌, ◌^◌, length, min};
ghost use Rattle.chronicle.specs.Seats.{IsUnion, Knows, own_events};
ghost use Rattle.node_machine.specs.Node.{node};
ghost use Rattle.node_machine.specs.Parts.{Fact as TheFact};
ghost use Rattle.disc_process.specs.Damage.{HoldsBlocks};
ghost use Rattle.disc_process.specs.Device.{HoldsDevice, device_of};
ghost use Rattle.disc_process.specs.Later.{HaveGrown, IsLawful};

use crate::numbered::DiscAt;
use audit_writer::DeviceRun;
use chronicle::Seat;
use disk_model::Disk;
use node_machine::NodeMachine;
use std::sync::MutexGuard;
use tmf_model::Config;

/// A disc whose lock is held.
#[derive(Drop)]
pub struct DiscGuard<'g, 'a, D: Disk, J: DeviceRun<D>> {
    pub(crate) disc: MutexGuard<'g, DiscAt<'a, D, J>>,
}

impl<'g, 'a, D: Disk, J: DeviceRun<D>> DiscGuard<'g, 'a, D, J> {
    ghost use Rattle.disc_lock.specs.Locks.{held_disc};

    /// Says what holds of every disc. It does nothing.
    pub fn lawful(&self)
        ensures { IsLawful D.Disk J.opening (held_disc self.now) }
    {
        self.disc.lawful();
    }

    /// Says what holds of the device of every disc: it is the one that was handed in, it has failed for each failure that the disc tells, and what is wrong in its blocks was wrong
    /// then. It does nothing.
    pub fn device_lawful(&self)
        ensures handed_in { (held_disc self.now).handed_in ≡ J.devices (device_of (held_disc self.now).part.number) }
        ensures device { HoldsDevice D.Disk (held_disc self.now).handed_in (J.faults (device_of (held_disc self.now).part.number)) (held_disc self.now).blocks.device (held_disc self.now).part.events }
        ensures blocks { HoldsBlocks D.Disk (held_disc self.now).handed_in (held_disc self.now).blocks }
    {
        self.disc.device_lawful();
    }

    /// The configuration that it was attached with.
    pub fn config(&self) -> &'a Config
        ensures { result.now ≡ (held_disc self.now).part.config }
    {
        self.disc.config()
    }

    /// How many events the disc has had, or 2^64 - 1 where there are more.
    pub fn events(&self) -> u64
        ensures { result ≡ min (length (own_events (held_disc self.now).seat)) (2 ^ 64 - 1) }
    {
        self.disc.events()
    }

    /// Lets the disc's seat and the caller's tell each other what they have seen.
    pub fn meet(&mut self, caller: &mut Seat<NodeMachine, J>)
        ensures part { (held_disc self.new).part ≡ (held_disc self.old).part }
        ensures blocks { (held_disc self.new).blocks ≡ (held_disc self.old).blocks }
        ensures seats { HaveGrown J.opening (held_disc self.old).seat (held_disc self.new).seat caller.old caller.new }
        ensures same { (held_disc self.new).seat.seen ≡ caller.new.seen }
        ensures union { IsUnion (held_disc self.old).seat.seen caller.old.seen caller.new.seen }
        ensures tells { (f : TheFact) → Knows node J.opening (held_disc self.old).seat f → Knows node J.opening caller.new f }
    {
        self.disc.meet(caller);
    }
}
