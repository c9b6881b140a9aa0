//! The pass by which a disc hands in without the writer's lock.
ghost use Rattle.std.specs.Prelude.{◌≡◌, ◌≤◌, [], MatchResult};
ghost use Rattle.crossbeam_queue.specs.Passes.{view};
ghost use Rattle.node_machine.specs.Trail.{trail_of};
ghost use Rattle.audit_writer.specs.Handing.{disc_of, last_of};
ghost use Rattle.audit_writer.specs.Parcels.{Follows, WasFull, has_pushed_to, holding, one_disc, told_by};

use crate::name::NodeRun;
use crate::parcel::Parcel;
use crate::queue::{Entrance, HandOffPass, QueueName, Receipt};
use std::marker::Model;
use std::sync::Wait;

/// A disc's pass of the queue of the trail with the number `N`. Contracts see the queue, the disc, the last position that was pushed, and how often a push
/// has found the queue full.
#[derive(Drop)]
pub struct DiscPass<J: NodeRun, const N: u8> {
    pass: HandOffPass<J, N>,
    disc: u8,
    pushed: u64,
    fulls: u64,
}

impl<J: NodeRun, const N: u8> Model for DiscPass<J, N> {
    ghost use Rattle.std.specs.Prelude.{◌≡◌, ◌≤◌, []};
    ghost use Rattle.crossbeam_queue.specs.Passes.{view as pass_view};
    ghost use Rattle.node_machine.specs.Trail.{trail_of};
    ghost use Rattle.audit_writer.specs.Parcels.{Holding, one_disc};

    ghost Value = { Holding };

    ghost view = { λ p. record { queue = p.pass.table_id; disc = p.disc; pushed = p.pushed; fulls = p.fulls } };

    ghost invariant = { λ p. (p.pass.me.1 ≡ []) × (pass_view p.pass ≡ one_disc p.disc p.pushed) × (trail_of J.found.config p.disc ≡ N) × (p.disc ≤ 8) };
}

impl<J: NodeRun, const N: u8> DiscPass<J, N> {
    /// The pass of a disc of this trail.
    pub fn new(pass: HandOffPass<J, N>, disc: u8) -> Self
        requires own { pass.me.1 ≡ [] }
        requires alone { view pass ≡ one_disc disc 0 }
        requires trail { trail_of J.found.config disc ≡ N }
        requires small { disc ≤ 8 }
        ensures { result ≡ holding pass.table_id disc 0 }
    {
        DiscPass {
            pass,
            disc,
            pushed: 0,
            fulls: 0,
        }
    }

    /// Says that its disc is of this trail. It does nothing.
    pub fn lawful(&self)
        ensures trail { trail_of J.found.config self.now.disc ≡ N }
        ensures small { self.now.disc ≤ 8 }
    {
        let _ = &self.disc;
    }

    /// Its disc.
    pub fn disc(&self) -> u8
        ensures { result ≡ self.now.disc }
    {
        self.disc
    }

    /// The last position that it has pushed; 0 where it has pushed none.
    pub fn pushed(&self) -> u64
        ensures { result ≡ self.now.pushed }
    {
        self.pushed
    }

    /// A receipt for what it has pushed.
    pub fn receipt<Q: QueueName>(&mut self, entrance: &Entrance<J, Q, N>) -> Receipt<J, N>
        requires queue { self.old.queue ≡ entrance.now }
        ensures receipt { result ≡ told_by self.old }
        ensures same { self.new ≡ self.old }
    {
        let told = entrance.tell(&mut self.pass);
        Receipt::new(told, self.disc, self.pushed)
    }

    /// Pushes a parcel of its disc that goes on behind what it has pushed. A full queue gives it back.
    pub fn push<Q: QueueName, R: Wait>(
        &mut self,
        rt: &R,
        entrance: &Entrance<J, Q, N>,
        parcel: Parcel<J, N>,
    ) -> Result<(), Parcel<J, N>>
        requires queue { self.old.queue ≡ entrance.now }
        requires disc { disc_of parcel.records ≡ self.old.disc }
        requires follows { Follows self.old.pushed parcel }
        ensures pushed { MatchResult result (λ _. self.new ≡ has_pushed_to (last_of parcel.records) self.old) (λ back. (back ≡ parcel) × WasFull self.old self.new) }
    {
        let last = parcel.last();
        match entrance.push(rt, &mut self.pass, parcel) {
            Ok(()) => {
                self.pushed = last;
                Ok(())
            }
            Err(back) => {
                self.fulls = self.fulls.saturating_add(1);
                Err(back)
            }
        }
    }
}
