//! An audit trail that is kept, with what it was found to hold.
ghost use Rattle.std.specs.Prelude.{◌≡◌};
ghost use Rattle.run_opening.specs.Placed.{IsPlaced, Placing, placed_prop};

use disk_model::Disk;
use std::marker::Model;
use trail_files::{AuditRecord, Trail};

/// An audit trail. Contracts see what it was found to hold, where it tells that and is at rest: this stands in a proof alone.
#[derive(Drop)]
pub struct AuditKept<D: Disk> {
    trail: Trail<D, AuditRecord>,
    ghost placed: { Placing D.Disk trail } by { placed_prop D.Disk trail },
}

impl<D: Disk> Model for AuditKept<D> {
    ghost use Rattle.run_opening.specs.Placed.{AuditView, found_placed};

    ghost Value = { AuditView D };

    ghost view = { λ k. record { trail = k.trail; placed = found_placed D.Disk k.trail k.placed } };
}

impl<D: Disk> AuditKept<D> {
    /// The trail, with what it is found to hold.
    pub fn new(trail: Trail<D, AuditRecord>) -> AuditKept<D>
        requires { Placing D.Disk trail }
        ensures trail { result.trail ≡ trail }
        ensures placed { IsPlaced D.Disk result }
    {
        AuditKept { trail }
    }

    /// The trail.
    pub fn into_trail(self) -> Trail<D, AuditRecord>
        ensures { result ≡ self.trail }
    {
        let AuditKept { trail, .. } = self;
        trail
    }
}
