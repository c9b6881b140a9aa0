//! The parts of a node when a run is over: the devices in their places, and the history that their seats have made.
ghost use Rattle.std.specs.Prelude.{◌≡◌, ◌<◌, ◌≤◌, ◌+◌, ℕ, length, vec_capacity, vec_len};
ghost use Rattle.std.specs.List.{Contains};
ghost use Rattle.chronicle.specs.Seats.{IsWholeOf, Sight};
ghost use Rattle.node_machine.specs.Opening.{opening_parts};
ghost use Rattle.node_machine.specs.declared.event.Event.{Event};
ghost use Rattle.run_states.specs.Post.{HasPost, HasSeat, IsDone, IsTakenOut, tokens_in, tokens_of};
ghost use Rattle.run_outcomes.specs.Left.{AreLeft};

use crate::post::Post;
use chronicle::{Chronicle, Gathered, Seat};
use commit_boxcar::MonitorRun;
use disk_model::Disk;
use node_laws::events_law;
use node_machine::NodeMachine;

/// How many devices a bay has.
const DEVICES: u8 = 21;

// Takes out the post with a number.
fn take_post<D: Disk, J: MonitorRun<D>>(posts: &mut Vec<Post<D, J>>, number: u8) -> Post<D, J>
    requires { HasPost posts.old.items number }
    ensures post { result.number ≡ number }
    ensures taken { IsTakenOut posts.old.items result posts.new.items }
{
    for at in 0..posts.len() {
        if posts[at].number() == number {
            return posts.remove(at);
        }
    }
    unreachable!()
}

/// Puts the devices in the order of their numbers, and the seats of their parts behind other seats.
pub fn take_apart<D: Disk, J: MonitorRun<D>>(
    posts: Vec<Post<D, J>>,
    devices: &mut Vec<D>,
    seats: &mut Vec<Seat<NodeMachine, J>>,
)
    requires all { (m : ℕ) → m < 21 → HasPost posts.items m }
    requires many { vec_len posts ≡ 21 }
    requires empty { vec_len devices.old ≡ 0 }
    requires room { (21 ≤ vec_capacity devices.old) × (vec_len seats.old + 21 ≤ vec_capacity seats.old) }
    ensures done { (m : ℕ) → m < 21 → IsDone D.Disk J.opening J.found J.faults J.devices devices.new.items seats.new.items m }
    ensures count { vec_len devices.new ≡ 21 }
    ensures more { vec_len seats.new ≡ vec_len seats.old + 21 }
    ensures kept { (v : Sight Event) → Contains seats.old.items v → Contains seats.new.items v }
    ensures tokens { tokens_in seats.new.items ≡ tokens_in seats.old.items + tokens_of posts.items }
{
    let mut rest = posts;
    for number in 0..DEVICES {
        let (device, seat) = take_post(&mut rest, number).into_parts();
        devices.push_reserved(device);
        seats.push_reserved(seat);
    }
    rest.destroy_empty();
}

/// Ends the chronicle of a run, of which each device is at its place and the seat of each part is among these, and gives its history.
pub fn gather<D: Disk, J: MonitorRun<D>>(
    chronicle: Chronicle<NodeMachine, J>,
    seats: Vec<Seat<NodeMachine, J>>,
    devices: &[D],
) -> Gathered<NodeMachine, J>
    requires opening { J.opening ≡ opening_parts J.found }
    requires done { (m : ℕ) → m < 21 → IsDone D.Disk J.opening J.found J.faults J.devices devices.now seats.items m }
    requires workers { (p : ℕ) → p < 16 → HasSeat seats.items p }
    requires count { length devices.now ≡ 21 }
    ensures left { AreLeft D.Disk J.opening J.found J.faults J.devices result devices.now }
    ensures whole { (v : Sight Event) → Contains seats.items v → IsWholeOf result v }
{
    let _ = devices;
    events_law();
    chronicle.gather(seats)
}
