//! A dump of a volume, while others go on writing.
ghost use Rattle.std.specs.Prelude.{◌≡◌, IfErr, IfOk, IfSome, OnOk};
ghost use Rattle.disc_process.specs.Disc.{AreTrails};
ghost use Rattle.disc_lock.specs.Locks.{number_of};
ghost use Rattle.disc_lock.specs.Tokens.{MayGive};
ghost use Rattle.disc_lock.specs.Seats.{HasSeenMore};
ghost use Rattle.online_dump.specs.Dumped.{HasBegunFor, HasDumped, HasSeenEnd, HasSeenSeal, IsDumpRefusal, IsStopFor, WasFit};
ghost use Rattle.online_dump.specs.Locks.{dumper_number};

use crate::copying::Copying;
use crate::lock::Dumper;
use crate::making::{begin_in, go_on_in};
use crate::refused::DumpRefused;
use audit_writer::{AuditWriter, DeviceRun};
use chronicle::Seat;
use disc_lock::{ActsOf, DiscProcess};
use disk_model::Disk;
use node_machine::NodeMachine;
use std::sync::Wait;
use std::sync::ledger::Share;
use tmf_model::Transid;

/// Makes a dump that has begun, one hold after the other, until it has ended.
fn make_at<'a, R: Wait, D: Disk, J: DeviceRun<D>>(
    rt: &R,
    disc: &DiscProcess<'a, D, J>,
    trails: &[AuditWriter<'a, D, J>],
    dumper: &Dumper<'a, D, J>,
    seat: &mut Seat<NodeMachine, J>,
    item: Transid,
    copying: Copying,
) -> Result<(), DumpRefused>
    requires number { number_of disc.now ≡ dumper_number dumper.now }
    requires trails { AreTrails (J.found).config trails.now }
    ensures ended { OnOk result (HasSeenSeal (J.found).config (number_of disc.now) copying.number copying.start seat.new) }
    ensures refused { IfErr result (λ refused. IsStopFor D.Disk J.devices J.found (number_of disc.now) item seat.old seat.new refused × HasSeenEnd (number_of disc.now) copying.number seat.new) }
    ensures seat { HasSeenMore J.opening seat.old seat.new }
{
    seat.lawful();
    for _ in rt.forever() {
        let mut state = dumper.lock(rt);
        let ended = go_on_in(rt, disc, trails, &mut *state, seat, item, copying);
        if let Some(ended) = ended {
            return ended;
        }
    }
    unreachable!()
}

/// Dumps a volume for an item of a script, while others go on writing: each of its blocks is copied once, then all audit up to the copies lands, and then the dump is sealed and
/// counted on. It answers the dump's start. The caller's seat has then seen its events, of which it had seen none before. A dump that is refused after its start is given up; its
/// label may be in doubt, until the next call ends that. Its start takes one of the caller's tokens, and so does the Turn where a dump is under way; otherwise none is given.
pub fn dump<'a, R: Wait, D: Disk, J: DeviceRun<D>>(
    rt: &R,
    disc: &DiscProcess<'a, D, J>,
    trails: &[AuditWriter<'a, D, J>],
    dumper: &Dumper<'a, D, J>,
    seat: &mut Seat<NodeMachine, J>,
    item: Transid,
    share: &mut Share<ActsOf<J>>,
) -> Result<u64, DumpRefused>
    requires token { MayGive share.old }
    requires number { number_of disc.now ≡ dumper_number dumper.now }
    requires trails { AreTrails (J.found).config trails.now }
    ensures dumped { IfOk result (λ start. HasDumped D.Disk J.opening J.found (number_of disc.now) item start seat.old seat.new share.old share.new) }
    ensures refused { IfErr result (IsDumpRefusal D.Disk J.devices J.opening J.found (number_of disc.now) item seat.old seat.new share.old share.new) }
    ensures seat { HasSeenMore J.opening seat.old seat.new }
{
    let mut state = dumper.lock(rt);
    let begun = begin_in(rt, disc, trails, &mut *state, seat, item, share);
    drop(state);
    match begun {
        Ok(copying) => {
            match make_at(rt, disc, trails, dumper, seat, item, copying) {
                Ok(()) => Ok(copying.start),
                Err(refused) => Err(refused),
            }
        }
        Err(refused) => Err(refused),
    }
}
