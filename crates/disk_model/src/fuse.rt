//! A device of a bay, whose calls a countdown may cut.

ghost use Rattle.std.specs.Prelude.{◌≡◌, ◌≤◌, IsTrue, OnOk, OnErr};

use crate::{Disk, DiskFault};
use std::alloc::Global;
use std::sync::Arc;
use std::sync::atomic::{AtomicU64, Ordering};

/// How many calls the armed fuses of a bay still pass on, all together.
pub(crate) type Countdown = Arc<AtomicU64, Global>;

/// A device of a bay. It passes each call on, unless it is armed and the countdown of its bay is at
/// 0: then it cuts each call but `restart`, which fails and leaves the device as it is. Its count
/// of faults is its device's and its cuts together.
#[derive(Drop)]
pub struct Fuse<D> {
    device: D,
    countdown: Countdown,
    armed: bool,
    cuts: u64,
}

impl<D> Fuse<D> {
    ghost use Rattle.std.specs.Option.{is_some};
    ghost use Rattle.disk_model.specs.Fuse.{device_of, IsUncut, IsSet, IsCut};

    pub(crate) fn new(device: D, countdown: Countdown) -> Fuse<D>
        ensures device { device_of result ≡ device }
        ensures uncut { IsUncut result }
    {
        Fuse {
            device,
            countdown,
            armed: false,
            cuts: 0,
        }
    }

    /// The device that it wraps.
    pub fn device(&self) -> &D
        ensures { result.now ≡ device_of self.now }
    {
        &self.device
    }

    /// Arms it with so many calls that its bay passes on, or disarms it.
    pub(crate) fn set(&mut self, calls: Option<u64>)
        ensures { IsSet (is_some calls) self.old self.new }
    {
        if let Some(calls) = calls {
            self.countdown.store(calls, Ordering::SeqCst);
        }
        self.armed = calls.is_some();
    }

    // Lets a call through, or cuts it.
    fn pass(&mut self) -> Result<(), DiskFault>
        ensures ok { OnOk result (self.new ≡ self.old) }
        ensures err { OnErr result (IsCut self.old self.new) }
    {
        if !self.armed || self.count_down() {
            return Ok(());
        }
        self.cuts = self.cuts.saturating_add(1);
        Err(DiskFault::Failed)
    }

    // Counts down by one, unless the countdown is at 0.
    fn count_down(&self) -> bool {
        let left = |left: u64| left.checked_sub(1);
        self.countdown
            .fetch_update(Ordering::SeqCst, Ordering::SeqCst, left)
            .is_ok()
    }
}

impl<D: Disk> Disk for Fuse<D> {
    ghost use Rattle.disk_model.specs.Fuse.{device_of, fuse_faults, CutsNone, IsSameFuse};
    ghost use Rattle.disk_model.specs.Held.{Leaves};
    ghost use Rattle.disk_model.specs.SameFuse.{fuse_itself, fuse_on};

    ghost tells = { λ f. D.tells f.device };

    ghost held = { λ f. D.held f.device };

    ghost faults = { fuse_faults D.faults };

    ghost is_same = { IsSameFuse D.is_same };

    ghost same_itself = { fuse_itself D.is_same D.same_itself };

    ghost same_on = { fuse_on D.is_same D.same_on };

    ghost sound = { λ f. D.sound f.device };

    fn least(&mut self) -> Result<Option<u32>, DiskFault> {
        self.pass()?;
        self.device.least()
    }

    fn length(&mut self, file: u32) -> Result<Option<u64>, DiskFault> {
        self.pass()?;
        self.device.length(file)
    }

    fn read(&mut self, file: u32, at: u64, into: &mut [u8]) -> Result<usize, DiskFault> {
        self.pass()?;
        self.device.read(file, at, into)
    }

    fn write(&mut self, file: u32, at: u64, bytes: &[u8]) -> Result<(), DiskFault> {
        self.pass()?;
        self.device.write(file, at, bytes)
    }

    fn sync(&mut self, file: u32) -> Result<(), DiskFault> {
        self.pass()?;
        self.device.sync(file)
    }

    fn create(&mut self, file: u32) -> Result<(), DiskFault> {
        self.pass()?;
        self.device.create(file)
    }

    fn remove(&mut self, file: u32) -> Result<(), DiskFault> {
        self.pass()?;
        self.device.remove(file)
    }

    fn restart(&mut self)
        ensures tells { D.tells (device_of self.new) ≡ D.tells (device_of self.old) }
        ensures device { IsSameFuse D.is_same self.old self.new }
        ensures image { IsTrue (D.tells (device_of self.old)) → Leaves (D.held (device_of self.old)) (D.held (device_of self.new)) }
        ensures later { fuse_faults D.faults self.old ≤ fuse_faults D.faults self.new }
        ensures uncut { CutsNone self.old self.new }
    {
        self.device.restart();
    }
}
