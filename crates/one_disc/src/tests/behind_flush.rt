//! A dump and a move of the low position, each by the clauses of the calls before it.
ghost use Rattle.std.specs.Prelude.{◌≡◌, ◌<◌, length};
ghost use Rattle.keyed_file.specs.declared.block.TheConstants.{BLOCK_BYTES};
ghost use Rattle.node_machine.specs.Made.{blocks_of, volume_of};
ghost use Rattle.disc_process.specs.Disc.{AreTrails};

use audit_writer::{AuditWriter, DeviceRun};
use block_cache::BlockNo;
use chronicle::Seat;
use disc_process::DiscState;
use disk_model::Disk;
use node_machine::{By, NodeMachine};
use std::sync::Wait;
use tmf_model::Transid;

/// A flush, and then a move of the low position, where no block is to be drawn: the trails are all that is asked.
fn lowered_behind_a_flush<'a, D: Disk, J: DeviceRun<D>, R: Wait>(
    rt: &R,
    disc: &mut DiscState<'a, D, J>,
    by: By,
    caller: &mut Seat<NodeMachine, J>,
    trails: &[AuditWriter<'a, D, J>],
) -> bool
    requires trails { AreTrails disc.old.part.config trails.now }
{
    if disc.flush(rt, by, caller, trails).is_err() {
        return false;
    }
    if disc.dirty().is_some() {
        return false;
    }
    let low = disc.quiet();
    disc.lower(rt, by, trails, low).is_ok()
}

/// The start of a dump, where the disc has had fewer events than the node allows, and the copy of a block of the disc.
fn copied_behind_a_start<'a, D: Disk, J: DeviceRun<D>, R: Wait>(
    rt: &R,
    disc: &mut DiscState<'a, D, J>,
    item: Transid,
    dumper: &mut Seat<NodeMachine, J>,
    caller: &mut Seat<NodeMachine, J>,
    trails: &[AuditWriter<'a, D, J>],
    n: BlockNo,
    into: &mut [u8],
) -> bool
    requires trails { AreTrails disc.old.part.config trails.now }
    requires here { volume_of disc.old.part.config n.file ≡ disc.old.part.number }
    requires within { n.number < blocks_of disc.old.part.config n.file }
    requires room { length into.old ≡ BLOCK_BYTES }
{
    if disc.events() >= disc.config().steps {
        return false;
    }
    if disc.start_dump(dumper, caller, item).is_none() {
        return false;
    }
    disc.copy_block(rt, item, dumper, trails, n, into).is_ok()
}
