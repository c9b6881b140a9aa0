//! Devices of numbered files, and what a crash may take of them.

ghost use Rattle.std.specs.Prelude.{◌≡◌, ◌⊎◌, ◌<◌, ◌≤◌, ◌+◌, ◌^◌, ◌++◌, ℕ, Bool, length, drop, Option, None, Some, IsTrue, IsSome, IfSome, IfOk, OnOk, OnErr};
ghost use Rattle.disk_model.specs.Held.{File, Held, IsSound, HasCause, Leaves, IfThere, IsThere, IsLeast, Elsewhere, Tears, written, synced, created, read_of, length_of};

#[derive(Clone, Copy, Debug, PartialEq, Eq)]
pub enum DiskFault {
    /// The device did not do the call, or not whole. Its count of faults rose.
    Failed,
}

/// A device of numbered files. What is written is at risk until it is synced, and a crash may take
/// it. No file is longer than 2^63 - 1 bytes.
///
/// A device that tells its state goes on telling it, and one that does not never begins to. Where
/// it tells nothing, a clause says only what holds of every device.
pub trait Disk {
    /// Whether it tells its state.
    ghost tells: { Self → Bool };

    /// What it holds, where it tells its state.
    ghost held: { Self → Held };

    /// How often it has failed. The count never falls.
    ghost faults: { Self → ℕ };

    /// Two states of one device: each call keeps it.
    ghost is_same: { Self → Self → Type 0 };

    /// The least number of a file, or `None` where no file is there.
    fn least(&mut self) -> Result<Option<u32>, DiskFault>
        ensures tells { tells self.new ≡ tells self.old }
        ensures device { is_same self.old self.new }
        ensures same { held self.new ≡ held self.old }
        ensures least { IsTrue (tells self.old) → IfOk result (IsLeast (held self.old)) }
        ensures cause { HasCause (faults self.old) (faults self.new) result };

    /// The length of a file in bytes, or `None` where it is not there.
    fn length(&mut self, file: u32) -> Result<Option<u64>, DiskFault>
        ensures tells { tells self.new ≡ tells self.old }
        ensures device { is_same self.old self.new }
        ensures same { held self.new ≡ held self.old }
        ensures length { IsTrue (tells self.old) → IfOk result (λ n. n ≡ length_of (held self.old file)) }
        ensures small { IfOk result (λ n. IfSome n (λ n. n < 2 ^ 63)) }
        ensures cause { HasCause (faults self.old) (faults self.new) result };

    /// Fills the front of `into` with the bytes from an offset on, as many as are there, and answers
    /// how many. It answers 0 where the file is not there or ends at the offset or before.
    fn read(&mut self, file: u32, at: u64, into: &mut [u8]) -> Result<usize, DiskFault>
        ensures tells { tells self.new ≡ tells self.old }
        ensures device { is_same self.old self.new }
        ensures same { held self.new ≡ held self.old }
        ensures bytes { IsTrue (tells self.old) → IfOk result (λ n. let front = read_of (held self.old file) at (length into.old) in
            (n ≡ length front) × (into.new ≡ front ++ drop n into.old)) }
        ensures within { IfOk result (λ n. n ≤ length into.old) }
        ensures cause { HasCause (faults self.old) (faults self.new) result };

    /// Writes bytes at an offset within the file or at its end. Until a sync they are at risk.
    ///
    /// A failed write may have changed any byte of its own range. One whose end would be past the
    /// longest file's fails.
    fn write(&mut self, file: u32, at: u64, bytes: &[u8]) -> Result<(), DiskFault>
        requires { IsTrue (tells self.old) → IsThere (held self.old) file (λ f. at ≤ length f.bytes) }
        ensures tells { tells self.new ≡ tells self.old }
        ensures device { is_same self.old self.new }
        ensures others { IsTrue (tells self.old) → Elsewhere file (held self.old) (held self.new) }
        ensures ok { IsTrue (tells self.old) → OnOk result (IfThere (held self.old) file (λ f. held self.new file ≡ Some (written at bytes.now f))) }
        ensures err { IsTrue (tells self.old) → OnErr result (IfThere (held self.old) file (λ f. IsThere (held self.new) file (Tears at (length bytes.now) f))) }
        ensures small { OnOk result (at + length bytes.now < 2 ^ 63) }
        ensures cause { HasCause (faults self.old) (faults self.new) result };

    /// Takes what was written to a file off risk. The synced length becomes the file's length.
    fn sync(&mut self, file: u32) -> Result<(), DiskFault>
        requires { IsTrue (tells self.old) → IsSome (held self.old file) }
        ensures tells { tells self.new ≡ tells self.old }
        ensures device { is_same self.old self.new }
        ensures others { IsTrue (tells self.old) → Elsewhere file (held self.old) (held self.new) }
        ensures ok { IsTrue (tells self.old) → OnOk result (IfThere (held self.old) file (λ f. held self.new file ≡ Some (synced f))) }
        ensures err { IsTrue (tells self.old) → OnErr result (held self.new ≡ held self.old) }
        ensures cause { HasCause (faults self.old) (faults self.new) result };

    /// Makes a file of one byte 0, synced, whether or not it was there. A failed one is done or not.
    fn create(&mut self, file: u32) -> Result<(), DiskFault>
        ensures tells { tells self.new ≡ tells self.old }
        ensures device { is_same self.old self.new }
        ensures others { IsTrue (tells self.old) → Elsewhere file (held self.old) (held self.new) }
        ensures ok { IsTrue (tells self.old) → OnOk result (held self.new file ≡ Some created) }
        ensures err { IsTrue (tells self.old) → OnErr result ((held self.new file ≡ held self.old file) ⊎ (held self.new file ≡ Some created)) }
        ensures cause { HasCause (faults self.old) (faults self.new) result };

    /// Removes a file. It is durable at once. A failed one is done or not.
    fn remove(&mut self, file: u32) -> Result<(), DiskFault>
        requires { IsTrue (tells self.old) → IsSome (held self.old file) }
        ensures tells { tells self.new ≡ tells self.old }
        ensures device { is_same self.old self.new }
        ensures others { IsTrue (tells self.old) → Elsewhere file (held self.old) (held self.new) }
        ensures ok { IsTrue (tells self.old) → OnOk result (held self.new file ≡ None) }
        ensures err { IsTrue (tells self.old) → OnErr result ((held self.new file ≡ held self.old file) ⊎ (held self.new file ≡ None)) }
        ensures cause { HasCause (faults self.old) (faults self.new) result };

    /// The device as a crash leaves it: one of its images. It cannot fail.
    fn restart(&mut self)
        ensures tells { tells self.new ≡ tells self.old }
        ensures device { is_same self.old self.new }
        ensures image { IsTrue (tells self.old) → Leaves (held self.old) (held self.new) }
        ensures later { faults self.old ≤ faults self.new };

    /// No synced length is above the length, and no file has more than 2^63 - 1 bytes.
    ghost sound: { (disk : Self) (n : ℕ) (file : File) → held disk n ≡ Some file → IsSound file };

    /// A device is the same as itself.
    ghost same_itself: { (disk : Self) → is_same disk disk };

    /// Over two calls a device stays the same.
    ghost same_on: { (a b c : Self) → is_same a b → is_same b c → is_same a c };
}
