//! Pairs of slots: a new content goes into the idle one, and then a selector byte names it.
ghost use Rattle.std.specs.Prelude.{◌≡◌, ◌<◌, ◌≤◌, ◌+◌, ◌-◌, ◌*◌, ◌^◌, ◌∷◌, [], length, IsTrue, OnOk, OnErr, IfOk};
ghost use Rattle.disk_model.specs.Held.{HasCause, IsThere, Elsewhere};
ghost use Rattle.trail_files.specs.Put.{Put, Left};

use disk_model::{Disk, DiskFault};

/// Between which steps a pair stands.
#[derive(Clone, Copy, Debug, PartialEq, Eq)]
pub enum PairPhase {
    /// It has one content, in the slot that its selector names.
    Settled,
    /// The other slot has the next content.
    Written,
    /// The selector may name either slot.
    Offered,
}

/// Writes bytes into a file and syncs it.
pub fn put<D: Disk>(device: &mut D, file: u32, at: u64, bytes: &[u8]) -> Result<(), DiskFault>
    requires { IsTrue (D.tells device.old)
        → IsThere (D.held device.old) file (λ f. at ≤ length f.bytes) }
    ensures device { D.is_same device.old device.new }
    ensures tells { D.tells device.new ≡ D.tells device.old }
    ensures others { IsTrue (D.tells device.old)
        → Elsewhere file (D.held device.old) (D.held device.new) }
    ensures ok { IsTrue (D.tells device.old)
        → OnOk result (Put file (D.held device.old) (D.held device.new) at bytes.now) }
    ensures err { IsTrue (D.tells device.old)
        → OnErr result (Left file (D.held device.old) (D.held device.new) at bytes.now) }
    ensures cause { HasCause (D.faults device.old) (D.faults device.new) result }
{
    device.write(file, at, bytes)?;
    device.sync(file)
}
