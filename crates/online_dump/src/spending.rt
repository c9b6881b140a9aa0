//! Whether a disc or its dump device has had as many events as the node allows.
ghost use Rattle.std.specs.Prelude.{◌<◌, ◌≡◌, ◌≤◌, length};
ghost use Rattle.std.specs.Option.{MatchOption};
ghost use Rattle.chronicle.specs.Seats.{own_events};
ghost use Rattle.node_machine.specs.Opening.{disc_part, dump_part};
ghost use Rattle.disc_process.specs.Disc.{HasReached};
ghost use Rattle.disc_lock.specs.Locks.{held_disc};

use crate::dumper::DumperState;
use audit_writer::DeviceRun;
use disc_lock::DiscGuard;
use disk_model::Disk;

/// The first part that has come to the limit: a disc whose lock is held, or then its dump device.
pub(crate) fn spent_at<'g, 'a, D: Disk, J: DeviceRun<D>>(
    at: &DiscGuard<'g, 'a, D, J>,
    state: &DumperState<'a, D, J>,
) -> Option<u32>
    ensures { MatchOption result
        ((length (own_events (held_disc at.now).seat) < (held_disc at.now).part.config.steps) × (length (own_events state.now.seat.sight) < (held_disc at.now).part.config.steps))
        (λ part. HasReached (held_disc at.now).part.config.steps (length (own_events (held_disc at.now).seat)) (part ≡ disc_part state.now.seat.part.number)
        (HasReached (held_disc at.now).part.config.steps (length (own_events state.now.seat.sight)) (part ≡ dump_part state.now.seat.part.number) ⊥)) }
{
    state.lawful();
    at.lawful();
    let steps = at.config().steps;
    let volume = u32::from(state.volume());
    let disc_events = at.events();
    let device_events = state.events();
    first_spent(steps, disc_events, device_events, volume)
}

/// The same, by the counts.
fn first_spent(steps: u64, disc_events: u64, device_events: u64, volume: u32) -> Option<u32>
    requires { volume ≤ 8 }
    ensures { MatchOption result ((disc_events < steps) × (device_events < steps))
        (λ part. HasReached steps disc_events (part ≡ disc_part volume) (HasReached steps device_events (part ≡ dump_part volume) ⊥)) }
{
    if disc_events >= steps {
        return Some(15 + volume);
    }
    if device_events >= steps {
        return Some(28 + volume);
    }
    None
}
