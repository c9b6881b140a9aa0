//! The lock round a disc, which shows the number of its volume.
ghost use Rattle.std.specs.Prelude.{◌≡◌, ◌≤◌, false};
ghost use Rattle.disc_lock.specs.Numbered.{IsDiscOf};
ghost use Rattle.disc_lock.specs.Moving.{lacks_end};
ghost use Rattle.disc_lock.specs.Tokens.{IsCounted};

use crate::acts::ActsOf;
use crate::guard::DiscGuard;
use crate::numbered::DiscAt;
use audit_writer::DeviceRun;
use disc_process::DiscState;
use disk_model::Disk;
use std::sync::ledger::Share;
use std::sync::{Mutex, MutexGuard, Wait};

/// A disc under a lock. It shows the number of its volume. Beside it stands the turn of who lands its audit for a commit.
#[derive(Drop)]
pub struct DiscProcess<'a, D: Disk, J: DeviceRun<D>> {
    number: u8,
    lock: Mutex<DiscAt<'a, D, J>>,
    landing: Mutex<()>,
    ghost small: { (1 ≤ number) × (number ≤ 8) },
}

impl<'a, D: Disk, J: DeviceRun<D>> DiscProcess<'a, D, J> {
    ghost use Rattle.disc_lock.specs.Locks.{held_disc, number_of};

    /// The lock round the disc of the volume with this number, with the tokens of the acts and moves that it has had. No move of its low position lacks its end: before its first
    /// event none does.
    pub fn new(number: u8, state: DiscState<'a, D, J>, share: Share<ActsOf<J>>) -> Self
        requires state { IsDiscOf J.found number state }
        requires ends { false ≡ lacks_end state.seat }
        requires counted { IsCounted share state.seat }
        requires small { (1 ≤ number) × (number ≤ 8) }
        ensures { number_of result ≡ number }
    {
        let lock = Mutex::new(DiscAt::of(state, share));
        let landing = Mutex::new(());
        DiscProcess {
            number,
            lock,
            landing,
        }
    }

    /// The number of its volume.
    pub fn number(&self) -> u8
        ensures { result ≡ number_of self.now }
    {
        self.number
    }

    /// Takes the turn of landing the disc's audit for a commit. Who closes a transaction here within its turn lands the audit of all that wait
    /// for it at that moment, and these then find theirs landed. Nobody who holds the disc's lock waits for it.
    pub fn landing<'g, R: Wait>(&'g self, rt: &R) -> MutexGuard<'g, ()> {
        self.landing.lock(rt)
    }

    /// Takes the lock, for the calls of one hold.
    // No type says that what stands behind the lock has the number beside it, so this is compared. It is always so.
    pub fn lock<'g, R: Wait>(&'g self, rt: &R) -> DiscGuard<'g, 'a, D, J>
        ensures { IsDiscOf J.found (number_of self.now) (held_disc result) }
    {
        for _ in rt.forever() {
            let disc = self.lock.lock(rt);
            if disc.number() == self.number {
                return DiscGuard { disc };
            }
        }
        unreachable!()
    }

    /// The state, once no thread has the lock, and the tokens of the acts and moves that the disc has had.
    // Where the numbers differed, which never is so, it would wait for ever.
    pub fn into_state<R: Wait>(self, rt: &R) -> (DiscState<'a, D, J>, Share<ActsOf<J>>)
        ensures disc { IsDiscOf J.found (number_of self.entry) result.0 }
        ensures counted { IsCounted result.1 result.0.seat }
    {
        let DiscProcess {
            number,
            lock,
            landing: _,
        } = self;
        let disc = lock.into_inner();
        if disc.number() == number {
            return disc.into_parts();
        }
        for _ in rt.forever() {}
        unreachable!()
    }
}
