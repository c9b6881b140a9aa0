//! The draws of a disc's blocks, in one hold of its lock.
ghost use Rattle.std.specs.Prelude.{◌≡◌, ◌<◌, ◌+◌, ◌*◌, ℕ, IfErr, OnOk};
ghost use Rattle.disc_process.specs.Disc.{AreTrails};
ghost use Rattle.disc_process.specs.Draw.{IsClean};
ghost use Rattle.disc_process.specs.Later.{IsLaterDisc};
ghost use Rattle.disc_lock.specs.Locks.{held_disc};
ghost use Rattle.control_point.specs.Control.{IsDiscRefusal};

use audit_writer::{AuditWriter, DeviceRun, FlushRefused};
use block_cache::BlockNo;
use disc_lock::DiscGuard;
use disk_model::Disk;
use node_machine::By;
use std::sync::Wait;

/// So many blocks are drawn in one hold of the lock at most, as long as others may go on in between.
const MOST: u32 = 16;

/// Draws some blocks, and answers whether none was left to be drawn.
pub(crate) fn draw_some<'g, 'a, R: Wait, D: Disk, J: DeviceRun<D>>(
    rt: &R,
    disc: &mut DiscGuard<'g, 'a, D, J>,
    by: By,
    trails: &[AuditWriter<'a, D, J>],
) -> Result<bool, FlushRefused>
    requires { AreTrails (held_disc disc.old).part.config trails.now }
    ensures refused { IfErr result (IsDiscRefusal (held_disc disc.old).part.config (held_disc disc.old).part.number by (held_disc disc.old).seat (held_disc disc.new).seat) }
    ensures disc { IsLaterDisc J.opening (held_disc disc.old) (held_disc disc.new) }
{
    disc.lawful();
    for _ in 0..MOST {
        match disc.dirty() {
            None => return Ok(true),
            Some(block) => disc.draw(rt, by, trails, block)?,
        }
    }
    Ok(false)
}

/// The place of a block among those of all files.
fn place_of(block: BlockNo) -> u32
    ensures { result ≡ 256 * block.file + block.number }
{
    256 * u32::from(block.file) + u32::from(block.number)
}

/// Draws all blocks that are to be drawn, by files and then by numbers.
pub(crate) fn draw_all<'g, 'a, R: Wait, D: Disk, J: DeviceRun<D>>(
    rt: &R,
    disc: &mut DiscGuard<'g, 'a, D, J>,
    by: By,
    trails: &[AuditWriter<'a, D, J>],
) -> Result<(), FlushRefused>
    requires { AreTrails (held_disc disc.old).part.config trails.now }
    ensures clean { OnOk result ((f n : ℕ) → n < 256 → IsClean (held_disc disc.new).blocks f n) }
    ensures refused { IfErr result (IsDiscRefusal (held_disc disc.old).part.config (held_disc disc.old).part.number by (held_disc disc.old).seat (held_disc disc.new).seat) }
    ensures disc { IsLaterDisc J.opening (held_disc disc.old) (held_disc disc.new) }
{
    disc.lawful();
    // All blocks in front of this place are drawn.
    let mut reached = 0;
    while let Some(block) = disc.dirty() {
        disc.draw(rt, by, trails, block)?;
        reached = place_of(block) + 1;
    }
    let _ = reached;
    Ok(())
}
