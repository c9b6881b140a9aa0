//! The body of a dump: the bytes of its blocks, one behind the other, in a file of their own.
ghost use Rattle.std.specs.Prelude.{◌≡◌, ◌≤◌, ◌+◌, ◌*◌, ◌++◌, [], ℕ, List, IsSome, IsTrue, OnOk, length};
ghost use Rattle.disk_model.specs.Frame.{WorksOn};
ghost use Rattle.disk_model.specs.Held.{Elsewhere, IsThere};
ghost use Rattle.keyed_file.specs.declared.block.TheConstants.{BLOCK_BYTES};
ghost use Rattle.online_dump.specs.Body.{IsBodySoFar, IsWholeBody};

use disk_model::{Disk, DiskFault};
use keyed_file::BLOCK_BYTES;

/// Makes the file of a body anew.
pub(crate) fn create_body<D: Disk>(device: &mut D, body: u32) -> Result<(), DiskFault>
    ensures others { IsTrue (D.tells device.old) → Elsewhere body (D.held device.old) (D.held device.new) }
    ensures ok { IsTrue (D.tells device.old) → OnOk result (IsThere (D.held device.new) body (IsBodySoFar 0 [])) }
    ensures works { WorksOn D.Disk device.old device.new result }
{
    device.create(body)
}

/// Writes the next block of a body.
pub(crate) fn append_block<D: Disk>(
    device: &mut D,
    body: u32,
    number: u32,
    block: &[u8],
) -> Result<(), DiskFault>
    requires block { length block.now ≡ BLOCK_BYTES }
    requires there { IsTrue (D.tells device.old) → IsThere (D.held device.old) body (λ f. number * BLOCK_BYTES ≤ length f.bytes) }
    ensures others { IsTrue (D.tells device.old) → Elsewhere body (D.held device.old) (D.held device.new) }
    ensures there { IsTrue (D.tells device.old) → OnOk result (IsThere (D.held device.new) body (λ f. (number + 1) * BLOCK_BYTES ≤ length f.bytes)) }
    ensures ok { (text : List ℕ) → IsTrue (D.tells device.old) → IsThere (D.held device.old) body (IsBodySoFar number text) → OnOk result (IsThere (D.held device.new) body (IsBodySoFar (number + 1) (text ++ block.now))) }
    ensures works { WorksOn D.Disk device.old device.new result }
{
    device.write(body, u64::from(number) * BLOCK_BYTES as u64, block)
}

/// Takes a body off risk.
pub(crate) fn finish_body<D: Disk>(device: &mut D, body: u32) -> Result<(), DiskFault>
    requires { IsTrue (D.tells device.old) → IsSome (D.held device.old body) }
    ensures others { IsTrue (D.tells device.old) → Elsewhere body (D.held device.old) (D.held device.new) }
    ensures ok { (number : ℕ) (text : List ℕ) → IsTrue (D.tells device.old) → IsThere (D.held device.old) body (IsBodySoFar number text) → OnOk result (IsThere (D.held device.new) body (IsWholeBody text)) }
    ensures works { WorksOn D.Disk device.old device.new result }
{
    device.sync(body)
}
