//! Devices in a row.
ghost use Rattle.std.specs.Prelude.{◌≡◌, ◌∷◌, ◌<◌, ◌≤◌, length, vec_capacity};

use std::marker::Model;

/// Devices in a row. The first can be taken out, and put back without memory.
#[derive(Drop)]
pub struct DeviceQueue<E> {
    // From the last device to the first.
    reversed: Vec<E>,
}

impl<E> Model for DeviceQueue<E> {
    ghost use Rattle.std.specs.Prelude.{reverse, vec_capacity};
    ghost use Rattle.trail_replay.specs.DeviceQueue.{DeviceQueueView};

    ghost Value = { DeviceQueueView E };

    ghost view = { λ r. record { devices = reverse r.reversed.items; room = vec_capacity r.reversed } };
}

impl<E> DeviceQueue<E> {
    /// The devices in their order.
    pub fn new(devices: Vec<E>) -> Self
        ensures devices { result.devices ≡ devices.items }
        ensures room { length devices.items ≤ result.room }
    {
        let mut reversed = devices;
        reversed.reverse();
        DeviceQueue { reversed }
    }

    /// Takes the first device out.
    pub fn take_first(&mut self) -> E
        requires { 0 < length self.old.devices }
        ensures first { self.old.devices ≡ result ∷ self.new.devices }
        ensures room { self.new.room ≡ self.old.room }
    {
        let Some(first) = self.reversed.pop() else {
            unreachable!()
        };
        first
    }

    /// Puts a device in front of the others.
    pub fn put_first(&mut self, device: E)
        requires { length self.old.devices < self.old.room }
        ensures devices { self.new.devices ≡ device ∷ self.old.devices }
        ensures room { self.new.room ≡ self.old.room }
    {
        self.reversed.push_reserved(device);
    }

    /// The devices, in their order.
    pub fn into_vec(self) -> Vec<E>
        ensures { result.items ≡ self.devices }
    {
        let DeviceQueue { reversed } = self;
        let mut devices = reversed;
        devices.reverse();
        devices
    }
}
