//! The trail of a disc, and whether the disc or its trail has had as many events as the node allows.
ghost use Rattle.std.specs.Prelude.{◌≡◌, ◌<◌, MatchOption};
ghost use Rattle.node_machine.specs.Opening.{disc_part, trail_part};
ghost use Rattle.node_machine.specs.Trail.{trail_of};
ghost use Rattle.tmf_model.specs.Config.{IsDeclared, IsValidConfig};
ghost use Rattle.audit_writer.specs.Writers.{number_of as trail_number};
ghost use Rattle.disc_process.specs.Disc.{AreTrails, HasReached};
ghost use Rattle.disc_lock.specs.Locks.{number_of};
ghost use Rattle.disc_lock.specs.Seats.{HasSeenMore};
ghost use Rattle.control_point.specs.Control.{IsFit, IsSpent, WasSo};

use audit_writer::{AuditWriter, DeviceRun};
use chronicle::Seat;
use disc_lock::DiscProcess;
use disk_model::Disk;
use node_machine::NodeMachine;
use std::sync::Wait;
use tmf_model::Config;

/// The trail of a volume.
fn trail_of(config: &Config, volume: u8) -> u8
    requires valid { IsValidConfig config.now }
    requires declared { IsDeclared config.now.volumes volume }
    ensures trail { result ≡ trail_of config.now volume }
    ensures declared { IsDeclared config.now.trails result }
{
    config.volumes.as_slice()[usize::from(volume) - 1].trail
}

/// The writer of a trail.
fn writer_at<'b, 'a, D: Disk, J: DeviceRun<D>>(
    trails: &'b [AuditWriter<'a, D, J>],
    config: &Config,
    trail: u8,
) -> &'b AuditWriter<'a, D, J>
    requires trails { AreTrails config.now trails.now }
    requires declared { IsDeclared config.now.trails trail }
    ensures { trail_number result.now ≡ trail }
{
    let _ = config;
    &trails[usize::from(trail) - 1]
}

/// The writer of a disc's trail.
pub(crate) fn writer_of<'b, 'a, R: Wait, D: Disk, J: DeviceRun<D>>(
    rt: &R,
    disc: &DiscProcess<'a, D, J>,
    trails: &'b [AuditWriter<'a, D, J>],
) -> &'b AuditWriter<'a, D, J>
    requires { AreTrails (J.found).config trails.now }
    ensures { trail_number result.now ≡ trail_of (J.found).config (number_of disc.now) }
{
    let held = disc.lock(rt);
    held.lawful();
    let config = held.config();
    let trail = trail_of(config, disc.number());
    writer_at(trails, config, trail)
}

/// The first part that has come to the limit: that of a disc, or then that of a trail, each with how many events it has had.
fn first_spent(steps: u64, disc: (u8, u64), trail: (u8, u64)) -> Option<u32>
    ensures { MatchOption result ((disc.1 < steps) × (trail.1 < steps))
        (λ part. HasReached steps disc.1 (part ≡ disc_part disc.0) (HasReached steps trail.1 (part ≡ trail_part trail.0) ⊥)) }
{
    if disc.1 >= steps {
        return Some(15 + u32::from(disc.0));
    }
    if trail.1 >= steps {
        return Some(23 + u32::from(trail.0));
    }
    None
}

/// The first that is spent, the disc or then its trail, if one is. The seat has then seen all events of both.
pub(crate) fn spent<'a, R: Wait, D: Disk, J: DeviceRun<D>>(
    rt: &R,
    disc: &DiscProcess<'a, D, J>,
    writer: &AuditWriter<'a, D, J>,
    seat: &mut Seat<NodeMachine, J>,
) -> Option<u32>
    requires { trail_number writer.now ≡ trail_of (J.found).config (number_of disc.now) }
    ensures is { MatchOption result
        (WasSo D.Disk J.opening (J.found).config (number_of disc.now) seat.old seat.new (IsFit (J.found).config (number_of disc.now)))
        (λ part. WasSo D.Disk J.opening (J.found).config (number_of disc.now) seat.old seat.new (IsSpent (J.found).config (number_of disc.now) part)) }
    ensures seat { HasSeenMore J.opening seat.old seat.new }
{
    let mut held = disc.lock(rt);
    held.meet(seat);
    held.lawful();
    let steps = held.config().steps;
    let disc_events = held.events();
    let trail_events = writer.events(rt, seat);
    held.meet(seat);
    first_spent(
        steps,
        (disc.number(), disc_events),
        (writer.number(), trail_events),
    )
}
