//! The monitor trail's device of a bay, with the bay in hand.
use disk_model::{Bay, Disk, DiskFault};
use trail_replay::MONITOR;

/// The monitor trail's device of a bay. It holds the bay, so that a trail that is open over it leaves the other devices at hand.
#[derive(Drop)]
pub struct MonitorDevice<'a, D> {
    pub bay: &'a mut Bay<D>,
}

impl<'a, D> MonitorDevice<'a, D> {
    ghost use Rattle.std.specs.Prelude.{◌≡◌};

    pub fn new(bay: &'a mut Bay<D>) -> MonitorDevice<'a, D>
        ensures same_reference { result.bay.ghost_name ≡ bay.entry.ghost_name }
        ensures bay { result.bay.now ≡ bay.old }
    {
        MonitorDevice { bay }
    }
}

impl<'a, D: Disk> Disk for MonitorDevice<'a, D> {
    ghost use Rattle.std.specs.Prelude.{◌≡◌, refl};
    ghost use Rattle.std.proofs.Common.{◌∙◌};
    ghost use Rattle.disk_model.specs.Devices.{held_at};
    ghost use Rattle.volume_recovery.specs.MonitorDevice.{IsSameFirst, first_faults, first_itself, first_on, first_sound, first_tells};

    ghost tells = { λ m. first_tells D.tells m.bay.now };

    ghost held = { λ m. held_at D.held m.bay.now 0 };

    ghost faults = { λ m. first_faults D.faults m.bay.now };

    ghost is_same = { λ a b. (a.bay.ghost_name ≡ b.bay.ghost_name) × IsSameFirst D.is_same a.bay.now b.bay.now };

    ghost same_itself = { λ m. (refl, first_itself D.is_same D.same_itself m.bay.now) };

    ghost same_on = { λ a b c p q. (p.0 ∙ q.0, first_on D.is_same D.same_on a.bay.now b.bay.now c.bay.now p.1 q.1) };

    ghost sound = { λ m. first_sound D.held D.sound m.bay.now };

    fn least(&mut self) -> Result<Option<u32>, DiskFault> {
        self.bay.device(MONITOR).least()
    }

    fn length(&mut self, file: u32) -> Result<Option<u64>, DiskFault> {
        self.bay.device(MONITOR).length(file)
    }

    fn read(&mut self, file: u32, at: u64, into: &mut [u8]) -> Result<usize, DiskFault> {
        self.bay.device(MONITOR).read(file, at, into)
    }

    fn write(&mut self, file: u32, at: u64, bytes: &[u8]) -> Result<(), DiskFault> {
        self.bay.device(MONITOR).write(file, at, bytes)
    }

    fn sync(&mut self, file: u32) -> Result<(), DiskFault> {
        self.bay.device(MONITOR).sync(file)
    }

    fn create(&mut self, file: u32) -> Result<(), DiskFault> {
        self.bay.device(MONITOR).create(file)
    }

    fn remove(&mut self, file: u32) -> Result<(), DiskFault> {
        self.bay.device(MONITOR).remove(file)
    }

    fn restart(&mut self) {
        self.bay.device(MONITOR).restart();
    }
}
