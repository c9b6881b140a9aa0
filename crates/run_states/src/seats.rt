//! The seats of all parts, of which those of devices are taken in the order of the devices.
ghost use Rattle.std.specs.Prelude.{◌≡◌, ◌<◌, ◌+◌};
ghost use Rattle.chronicle.specs.Seats.{new_seat, new_seats};
ghost use Rattle.run_outcomes.specs.Devices.{part_of_device};
ghost use Rattle.run_states.specs.Seats.{seat_place};

use chronicle::{Run, Seat};
use node_machine::{NodeMachine, Part};
use std::marker::Model;

/// The seats that are left. Contracts see the number of the device whose seat is next.
#[derive(Drop)]
pub struct Seats<J: Run<Part>> {
    seats: Vec<Seat<NodeMachine, J>>,
    next: usize,
}

impl<J: Run<Part>> Model for Seats<J> {
    ghost use Rattle.std.specs.Prelude.{◌≡◌, ℕ};
    ghost use Rattle.run_states.specs.Seats.{seats_left};

    ghost Value = { ℕ };

    ghost view = { λ s. s.next };

    ghost invariant = { λ s. s.seats.items ≡ seats_left s.next };
}

// Where the seat of this device stands among those that are left.
fn place_of(number: usize) -> usize
    ensures { result ≡ seat_place number }
{
    match number {
        0 => 28,
        1..=4 => 24,
        _ => 16,
    }
}

impl<J: Run<Part>> Seats<J> {
    pub fn new(seats: Vec<Seat<NodeMachine, J>>) -> Seats<J>
        requires { seats.items ≡ new_seats 37 }
        ensures { result ≡ 0 }
    {
        Seats { seats, next: 0 }
    }

    /// The seat of the next device's part.
    pub fn take(&mut self) -> Seat<NodeMachine, J>
        requires { self.old < 21 }
        ensures seat { result ≡ new_seat (part_of_device self.old) }
        ensures next { self.new ≡ self.old + 1 }
    {
        let place = place_of(self.next);
        self.next += 1;
        self.seats.remove(place)
    }

    /// The seats of the workers, once those of all devices are taken.
    pub fn into_workers(self) -> Vec<Seat<NodeMachine, J>>
        requires { self ≡ 21 }
        ensures { result.items ≡ new_seats 16 }
    {
        let Seats { seats, next: _ } = self;
        seats
    }
}
