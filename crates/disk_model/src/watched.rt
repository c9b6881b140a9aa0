//! A device for tests, whose calls a watch may refuse.

ghost use Rattle.std.specs.Prelude.{◌≡◌, ◌⊎◌, ◌<◌, ◌≤◌, ◌+◌, ◌^◌, ◌++◌, Bool, true, false, length, drop, None, Some, IsTrue, IsSome, IfSome, IfOk, OnOk, OnErr};
ghost use Rattle.disk_model.specs.Held.{HasCause, IfThere, IsThere, IsLeast, Elsewhere, Tears, written, synced, created, read_of, length_of};
ghost use Rattle.disk_model.specs.MemDisk.{next_count};

use crate::{Disk, DiskFault};

/// What is asked before each call of a watched device but `restart`.
pub trait Watch {
    /// What holds where it has let a call through, which is a `read` or another.
    ghost passes: { Self → Bool → Type 0 };

    /// Whether the device does the next call, which is a `read` or another.
    fn before(&self, read: bool) -> bool
        ensures { IsTrue result → passes self.now read };
}

/// A device whose watch is asked before each call but `restart`. A call that the watch refuses fails, leaves the device as it
/// is, and is counted beside the device's faults.
#[derive(Drop)]
pub struct Watched<D, W> {
    device: D,
    watch: W,
    refused: u64,
}

impl<D, W: Watch> Watched<D, W> {
    ghost use Rattle.disk_model.specs.Watched.{watched_of, watch_of, refusals_of};

    /// Has a watch asked before each call of a device.
    pub fn new(device: D, watch: W) -> Watched<D, W>
        ensures device { watched_of result ≡ device }
        ensures watch { watch_of result ≡ watch }
        ensures none { refusals_of result ≡ 0 }
    {
        Watched {
            device,
            watch,
            refused: 0,
        }
    }

    // Asks the watch, and counts where it refuses.
    fn ask(&mut self, read: bool) -> Result<(), DiskFault>
        ensures passes { OnOk result (W.passes (watch_of self.old) read) }
        ensures ok { OnOk result (self.new ≡ self.old) }
        ensures err { OnErr result (self.new ≡ record self.old { refused = next_count (refusals_of self.old) }) }
    {
        if self.watch.before(read) {
            return Ok(());
        }
        self.refused = self.refused.saturating_add(1);
        Err(DiskFault::Failed)
    }
}

impl<D: Disk, W: Watch> Disk for Watched<D, W> {
    ghost use Rattle.disk_model.specs.Watched.{watched_of, watch_of, watched_faults, IsSameWatched};
    ghost use Rattle.disk_model.specs.SameWatched.{watched_itself, watched_on};

    ghost tells = { λ w. D.tells w.device };

    ghost held = { λ w. D.held w.device };

    ghost faults = { watched_faults D.faults };

    ghost is_same = { IsSameWatched D.is_same };

    ghost same_itself = { watched_itself D.is_same D.same_itself };

    ghost same_on = { watched_on D.is_same D.same_on };

    ghost sound = { λ w. D.sound w.device };

    fn least(&mut self) -> Result<Option<u32>, DiskFault>
        ensures tells { D.tells (watched_of self.new) ≡ D.tells (watched_of self.old) }
        ensures device { IsSameWatched D.is_same self.old self.new }
        ensures same { D.held (watched_of self.new) ≡ D.held (watched_of self.old) }
        ensures least { IsTrue (D.tells (watched_of self.old)) → IfOk result (IsLeast (D.held (watched_of self.old))) }
        ensures passed { OnOk result (W.passes (watch_of self.old) false) }
        ensures cause { HasCause (watched_faults D.faults self.old) (watched_faults D.faults self.new) result }
    {
        self.ask(false)?;
        self.device.least()
    }

    fn length(&mut self, file: u32) -> Result<Option<u64>, DiskFault>
        ensures tells { D.tells (watched_of self.new) ≡ D.tells (watched_of self.old) }
        ensures device { IsSameWatched D.is_same self.old self.new }
        ensures same { D.held (watched_of self.new) ≡ D.held (watched_of self.old) }
        ensures length { IsTrue (D.tells (watched_of self.old)) → IfOk result (λ n. n ≡ length_of (D.held (watched_of self.old) file)) }
        ensures small { IfOk result (λ n. IfSome n (λ n. n < 2 ^ 63)) }
        ensures passed { OnOk result (W.passes (watch_of self.old) false) }
        ensures cause { HasCause (watched_faults D.faults self.old) (watched_faults D.faults self.new) result }
    {
        self.ask(false)?;
        self.device.length(file)
    }

    fn read(&mut self, file: u32, at: u64, into: &mut [u8]) -> Result<usize, DiskFault>
        ensures tells { D.tells (watched_of self.new) ≡ D.tells (watched_of self.old) }
        ensures device { IsSameWatched D.is_same self.old self.new }
        ensures same { D.held (watched_of self.new) ≡ D.held (watched_of self.old) }
        ensures bytes { IsTrue (D.tells (watched_of self.old)) → IfOk result (λ n. let front = read_of (D.held (watched_of self.old) file) at (length into.old) in
            (n ≡ length front) × (into.new ≡ front ++ drop n into.old)) }
        ensures within { IfOk result (λ n. n ≤ length into.old) }
        ensures passed { OnOk result (W.passes (watch_of self.old) true) }
        ensures cause { HasCause (watched_faults D.faults self.old) (watched_faults D.faults self.new) result }
    {
        self.ask(true)?;
        self.device.read(file, at, into)
    }

    fn write(&mut self, file: u32, at: u64, bytes: &[u8]) -> Result<(), DiskFault>
        requires { IsTrue (D.tells (watched_of self.old)) → IsThere (D.held (watched_of self.old)) file (λ f. at ≤ length f.bytes) }
        ensures tells { D.tells (watched_of self.new) ≡ D.tells (watched_of self.old) }
        ensures device { IsSameWatched D.is_same self.old self.new }
        ensures others { IsTrue (D.tells (watched_of self.old)) → Elsewhere file (D.held (watched_of self.old)) (D.held (watched_of self.new)) }
        ensures ok { IsTrue (D.tells (watched_of self.old)) → OnOk result (IfThere (D.held (watched_of self.old)) file (λ f. D.held (watched_of self.new) file ≡ Some (written at bytes.now f))) }
        ensures err { IsTrue (D.tells (watched_of self.old)) → OnErr result (IfThere (D.held (watched_of self.old)) file (λ f. IsThere (D.held (watched_of self.new)) file (Tears at (length bytes.now) f))) }
        ensures small { OnOk result (at + length bytes.now < 2 ^ 63) }
        ensures passed { OnOk result (W.passes (watch_of self.old) false) }
        ensures cause { HasCause (watched_faults D.faults self.old) (watched_faults D.faults self.new) result }
    {
        self.ask(false)?;
        self.device.write(file, at, bytes)
    }

    fn sync(&mut self, file: u32) -> Result<(), DiskFault>
        requires { IsTrue (D.tells (watched_of self.old)) → IsSome (D.held (watched_of self.old) file) }
        ensures tells { D.tells (watched_of self.new) ≡ D.tells (watched_of self.old) }
        ensures device { IsSameWatched D.is_same self.old self.new }
        ensures others { IsTrue (D.tells (watched_of self.old)) → Elsewhere file (D.held (watched_of self.old)) (D.held (watched_of self.new)) }
        ensures ok { IsTrue (D.tells (watched_of self.old)) → OnOk result (IfThere (D.held (watched_of self.old)) file (λ f. D.held (watched_of self.new) file ≡ Some (synced f))) }
        ensures err { IsTrue (D.tells (watched_of self.old)) → OnErr result (D.held (watched_of self.new) ≡ D.held (watched_of self.old)) }
        ensures passed { OnOk result (W.passes (watch_of self.old) false) }
        ensures cause { HasCause (watched_faults D.faults self.old) (watched_faults D.faults self.new) result }
    {
        self.ask(false)?;
        self.device.sync(file)
    }

    fn create(&mut self, file: u32) -> Result<(), DiskFault>
        ensures tells { D.tells (watched_of self.new) ≡ D.tells (watched_of self.old) }
        ensures device { IsSameWatched D.is_same self.old self.new }
        ensures others { IsTrue (D.tells (watched_of self.old)) → Elsewhere file (D.held (watched_of self.old)) (D.held (watched_of self.new)) }
        ensures ok { IsTrue (D.tells (watched_of self.old)) → OnOk result (D.held (watched_of self.new) file ≡ Some created) }
        ensures err { IsTrue (D.tells (watched_of self.old)) → OnErr result ((D.held (watched_of self.new) file ≡ D.held (watched_of self.old) file) ⊎ (D.held (watched_of self.new) file ≡ Some created)) }
        ensures passed { OnOk result (W.passes (watch_of self.old) false) }
        ensures cause { HasCause (watched_faults D.faults self.old) (watched_faults D.faults self.new) result }
    {
        self.ask(false)?;
        self.device.create(file)
    }

    fn remove(&mut self, file: u32) -> Result<(), DiskFault>
        requires { IsTrue (D.tells (watched_of self.old)) → IsSome (D.held (watched_of self.old) file) }
        ensures tells { D.tells (watched_of self.new) ≡ D.tells (watched_of self.old) }
        ensures device { IsSameWatched D.is_same self.old self.new }
        ensures others { IsTrue (D.tells (watched_of self.old)) → Elsewhere file (D.held (watched_of self.old)) (D.held (watched_of self.new)) }
        ensures ok { IsTrue (D.tells (watched_of self.old)) → OnOk result (D.held (watched_of self.new) file ≡ None) }
        ensures err { IsTrue (D.tells (watched_of self.old)) → OnErr result ((D.held (watched_of self.new) file ≡ D.held (watched_of self.old) file) ⊎ (D.held (watched_of self.new) file ≡ None)) }
        ensures passed { OnOk result (W.passes (watch_of self.old) false) }
        ensures cause { HasCause (watched_faults D.faults self.old) (watched_faults D.faults self.new) result }
    {
        self.ask(false)?;
        self.device.remove(file)
    }

    fn restart(&mut self) {
        self.device.restart();
    }
}
