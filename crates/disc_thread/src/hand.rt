//! The thread of a disc in a run.
ghost use Rattle.std.specs.Prelude.{◌≡◌, ◌<◌, length, None};
ghost use Rattle.disc_process.specs.Disc.{AreTrails};

use crate::drawing::{Stopped, draw_first};
use crate::pace::Pace;
use audit_writer::{AuditWriter, DeviceRun};
use chronicle::{Run, Seat};
use disc_lock::DiscProcess;
use disk_model::Disk;
use node_machine::{NodeMachine, Part};
use std::marker::Model;
use std::sync::Wait;
use std::sync::atomic::{AtomicU64, Ordering};
use std::thread;

/// What the thread of a disc owns: the place of its disc among those of a run, and a note, which has no part, so that no seat is lost with it.
/// Contracts see the place.
#[derive(Drop)]
pub struct DiscHand<J: Run<Part>> {
    place: usize,
    note: Seat<NodeMachine, J>,
}

impl<J: Run<Part>> Model for DiscHand<J> {
    ghost use Rattle.std.specs.Prelude.{◌≡◌, ℕ, None};

    ghost Value = { ℕ };

    ghost view = { λ h. h.place };

    ghost invariant = { λ h. h.note.part ≡ None };
}

impl<J: Run<Part>> DiscHand<J> {
    /// A hand for the disc at this place.
    pub fn new(place: usize, note: Seat<NodeMachine, J>) -> DiscHand<J>
        requires { note.part ≡ None }
        ensures { result ≡ place }
    {
        DiscHand { place, note }
    }

    /// The place of its disc.
    pub fn place(&self) -> usize
        ensures { result ≡ self.now }
    {
        self.place
    }

    /// Takes one turn at the disc, in one hold of its lock: it draws the first block that is to be drawn, where it is time to.
    fn take_turn<'a, R: Wait, D: Disk>(
        &mut self,
        rt: &R,
        pace: &mut Pace,
        disc: &DiscProcess<'a, D, J>,
        trails: &[AuditWriter<'a, D, J>],
    ) -> Result<(), Stopped>
    where
        J: DeviceRun<D>,
        requires { AreTrails (J.found).config trails.now }
        ensures { self.new ≡ self.old }
    {
        let mut held = disc.lock(rt);
        if pace.is_due(held.events()) {
            draw_first(rt, &mut held, disc.number(), trails, &mut self.note)?;
            pace.note_draw(held.events());
        }
        Ok(())
    }

    /// Takes one turn after the other at its disc, until so many workers have ended, or a turn is refused. Between two turns others may go on.
    pub fn drive<'a, R: Wait, D: Disk>(
        &mut self,
        rt: &R,
        discs: &[DiscProcess<'a, D, J>],
        trails: &[AuditWriter<'a, D, J>],
        ended: &AtomicU64,
        workers: u64,
    )
    where
        J: DeviceRun<D>,
        requires place { self.old < length discs.now }
        requires trails { AreTrails (J.found).config trails.now }
        ensures place { self.new ≡ self.old }
    {
        let disc = &discs[self.place];
        let mut pace = Pace::default();
        for _ in rt.forever() {
            if ended.load(Ordering::SeqCst) >= workers {
                return;
            }
            if self.take_turn(rt, &mut pace, disc, trails).is_err() {
                return;
            }
            thread::yield_now();
        }
    }
}
