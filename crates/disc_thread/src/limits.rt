//! The trail of a disc, and whether the disc or its trail has had as many events as the node allows.
ghost use Rattle.std.specs.Prelude.{◌≡◌, true, false};
ghost use Rattle.node_machine.specs.Trail.{trail_of};
ghost use Rattle.tmf_model.specs.Config.{IsDeclared, IsValidConfig};
ghost use Rattle.audit_writer.specs.Writers.{number_of as trail_number};
ghost use Rattle.disc_process.specs.Disc.{AreTrails};
ghost use Rattle.disc_lock.specs.Locks.{held_disc};
ghost use Rattle.disc_lock.specs.Seats.{HasSeenMore};
ghost use Rattle.disc_thread.specs.Turns.{IsBelow, IsSpent};

use audit_writer::{AuditWriter, DeviceRun};
use chronicle::Seat;
use disc_lock::DiscGuard;
use disk_model::Disk;
use node_machine::NodeMachine;
use std::sync::Wait;
use tmf_model::Config;

/// The trail of a volume.
fn trail_of(config: &Config, volume: u8) -> u8
    requires valid { IsValidConfig config.now }
    requires declared { IsDeclared config.now.volumes volume }
    ensures trail { result ≡ trail_of config.now volume }
    ensures declared { IsDeclared config.now.trails result }
{
    config.volumes.as_slice()[usize::from(volume) - 1].trail
}

/// The writer of a volume's trail.
pub(crate) fn writer_of<'b, 'a, D: Disk, J: DeviceRun<D>>(
    trails: &'b [AuditWriter<'a, D, J>],
    config: &Config,
    volume: u8,
) -> &'b AuditWriter<'a, D, J>
    requires trails { AreTrails config.now trails.now }
    requires valid { IsValidConfig config.now }
    requires declared { IsDeclared config.now.volumes volume }
    ensures { trail_number result.now ≡ trail_of config.now volume }
{
    &trails[usize::from(trail_of(config, volume)) - 1]
}

/// Whether the disc, or then its trail, has had as many events as the node allows. Of the trail the note has then seen them.
pub(crate) fn is_spent<'g, 'a, R: Wait, D: Disk, J: DeviceRun<D>>(
    rt: &R,
    disc: &DiscGuard<'g, 'a, D, J>,
    writer: &AuditWriter<'a, D, J>,
    note: &mut Seat<NodeMachine, J>,
) -> bool
    requires { trail_number writer.now ≡ trail_of (held_disc disc.now).part.config (held_disc disc.now).part.number }
    ensures below { result ≡ false → IsBelow (held_disc disc.now) note.new.seen }
    ensures spent { result ≡ true → IsSpent (held_disc disc.now) note.new.seen }
    ensures note { HasSeenMore J.opening note.old note.new }
{
    note.lawful();
    let steps = disc.config().steps;
    let trail_events = writer.events(rt, note);
    disc.events() >= steps || trail_events >= steps
}
