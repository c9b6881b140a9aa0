//! The lock round the state of a dump device, which shows the number of its volume.
ghost use Rattle.std.specs.Prelude.{◌≡◌, ◌≤◌};
ghost use Rattle.std.specs.Sync.Mutex.{mutex_guard_value};

use crate::dumper::DumperState;
use audit_writer::DeviceRun;
use disk_model::Disk;
use std::sync::{Mutex, MutexGuard, Wait};

/// The state of a dump device under a lock. It shows the number of its volume.
#[derive(Drop)]
pub struct Dumper<'a, D: Disk, J: DeviceRun<D>> {
    number: u8,
    lock: Mutex<DumperState<'a, D, J>>,
    ghost small: { (1 ≤ number) × (number ≤ 8) },
}

impl<'a, D: Disk, J: DeviceRun<D>> Dumper<'a, D, J> {
    ghost use Rattle.online_dump.specs.Locks.{dumper_number};

    /// The lock round the state of the dump device of the volume with this number.
    pub fn new(number: u8, state: DumperState<'a, D, J>) -> Self
        requires state { state.seat.part.number ≡ number }
        requires small { (1 ≤ number) × (number ≤ 8) }
        ensures { dumper_number result ≡ number }
    {
        let lock = Mutex::new(state);
        Dumper { number, lock }
    }

    /// The number of its volume.
    pub fn number(&self) -> u8
        ensures { result ≡ dumper_number self.now }
    {
        self.number
    }

    /// Takes the lock, for the calls of one hold.
    // No type says that what stands behind the lock has the number beside it, so this is compared. It is always so.
    pub(crate) fn lock<'g, R: Wait>(&'g self, rt: &R) -> MutexGuard<'g, DumperState<'a, D, J>>
        ensures { (mutex_guard_value result).seat.part.number ≡ dumper_number self.now }
    {
        for _ in rt.forever() {
            let state = self.lock.lock(rt);
            state.lawful();
            if state.volume() == self.number {
                return state;
            }
        }
        unreachable!()
    }

    /// The state, once no thread has the lock.
    // Where the numbers differed, which never is so, it would wait for ever.
    pub fn into_state<R: Wait>(self, rt: &R) -> DumperState<'a, D, J>
        ensures { result.seat.part.number ≡ dumper_number self.entry }
    {
        let Dumper { number, lock } = self;
        let state = lock.into_inner();
        state.lawful();
        if state.volume() == number {
            return state;
        }
        for _ in rt.forever() {}
        unreachable!()
    }
}
