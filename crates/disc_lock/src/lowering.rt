//! The low position of a disc whose lock is held.
ghost use Rattle.std.specs.Prelude.{◌≡◌, ◌<◌, ◌≤◌, ◌-◌, ℕ, length, IfErr, OnOk};
ghost use Rattle.chronicle.specs.Seats.{Knows, own_events};
ghost use Rattle.node_machine.specs.declared.event.By.TheVariants.{Attempt};
ghost use Rattle.node_machine.specs.Disc.{IsGreatestQuiet};
ghost use Rattle.node_machine.specs.Node.{node};
ghost use Rattle.node_machine.specs.Parts.Fact.{Durable};
ghost use Rattle.disc_process.specs.Disc.{AreTrails};
ghost use Rattle.disc_process.specs.Draw.{IsClean};
ghost use Rattle.disc_process.specs.Later.{IsLaterDisc};
ghost use Rattle.disc_process.specs.Low.{HasLowered, IsGreatestFloor, IsLowRefusal};
ghost use Rattle.disc_lock.specs.Locks.{held_disc};
ghost use Rattle.disc_lock.specs.Moving.{has_begun, still_lacks};
ghost use Rattle.disc_lock.specs.Tokens.{HasGivenFor, MayGive};

use crate::acts::ActsOf;
use crate::guard::DiscGuard;
use crate::numbered::DiscAt;
use audit_writer::{AuditWriter, DeviceRun, FlushRefused};
use disk_model::Disk;
use node_machine::By;
use std::sync::Wait;
use std::sync::ledger::Share;
use tmf_model::Transid;

/// Whether a move has begun, by how many events were told. Where it has not ended too, a failure was the last of them, and an end that an earlier move lacked may be the first.
fn has_begun(ended: bool, lacked: bool, told: u64) -> bool
    ensures { result ≡ has_begun ended lacked told }
{
    let at_end = if lacked { 3 } else { 2 };
    ended || told == at_end
}

/// Whether a move lacks its end then.
fn still_lacks(ended: bool, lacked: bool, told: u64) -> bool
    ensures { result ≡ still_lacks ended lacked told }
{
    !ended && (has_begun(ended, lacked, told) || (lacked && told == 1))
}

impl<'a, D: Disk, J: DeviceRun<D>> DiscAt<'a, D, J> {
    /// The greatest position below which nothing is unfinished: each transaction with a record below it has released here, and one that was
    /// backed out has no record from it on. It looks at each transaction that has not released.
    pub fn quiet(&self) -> u64
        ensures { IsGreatestQuiet self.now.state.part result }
    {
        self.state.quiet()
    }

    /// The greatest position below which neither the low position nor a dump needs a record.
    pub fn floor(&self) -> u64
        ensures { IsGreatestFloor self.now.state.part result }
    {
        self.state.floor()
    }

    /// Makes this the volume's low position, behind the end of an earlier move that lacks it, and tells the trail's writer. The move is for an item of a script. Where it begins, it takes
    /// one of the caller's tokens. The disc has had fewer events than the node allows.
    pub fn lower<R: Wait>(
        &mut self,
        rt: &R,
        item: Transid,
        trails: &[AuditWriter<'a, D, J>],
        low: u64,
        share: &mut Share<ActsOf<J>>,
    ) -> Result<(), FlushRefused>
        requires trails { AreTrails self.old.state.part.config trails.now }
        requires quiet { IsGreatestQuiet self.old.state.part low }
        requires clean { (f n : ℕ) → n < 256 → IsClean self.old.state.blocks f n }
        requires durable { Knows node J.opening self.old.state.seat (Durable self.old.state.part.number (low - 1)) }
        requires few { length (own_events self.old.state.seat) < self.old.state.part.config.steps }
        requires token { MayGive share.old }
        ensures lowered { OnOk result (HasLowered (Attempt item) low self.old.state self.new.state) }
        ensures refused { IfErr result (IsLowRefusal D.faults (Attempt item) low self.old.state self.new.state) }
        ensures disc { IsLaterDisc J.opening self.old.state self.new.state }
        ensures cache { self.new.state.blocks.cache ≡ self.old.state.blocks.cache }
        ensures later { D.faults self.old.state.blocks.device ≤ D.faults self.new.state.blocks.device }
        ensures given { HasGivenFor self.old.state.seat self.new.state.seat share.old share.new }
    {
        self.state.lawful();
        let before = self.state.events();
        let lowered = self.state.lower(rt, By::Attempt(item), trails, low);
        let told = self.state.events() - before;
        let ended = lowered.is_ok();
        let begun = has_begun(ended, self.unended, told);
        self.unended = still_lacks(ended, self.unended, told);
        if begun {
            share.transfer(&mut self.share, 1);
        }
        lowered
    }
}

impl<'g, 'a, D: Disk, J: DeviceRun<D>> DiscGuard<'g, 'a, D, J> {
    /// The greatest position below which nothing is unfinished: each transaction with a record below it has released here, and one that was
    /// backed out has no record from it on. It looks at each transaction that has not released.
    pub fn quiet(&self) -> u64
        ensures { IsGreatestQuiet (held_disc self.now).part result }
    {
        self.disc.quiet()
    }

    /// The greatest position below which neither the low position nor a dump needs a record.
    pub fn floor(&self) -> u64
        ensures { IsGreatestFloor (held_disc self.now).part result }
    {
        self.disc.floor()
    }

    /// Makes this the volume's low position, behind the end of an earlier move that lacks it, and tells the trail's writer. The move is for an item of a script. Where it begins, it takes
    /// one of the caller's tokens. The disc has had fewer events than the node allows.
    pub fn lower<R: Wait>(
        &mut self,
        rt: &R,
        item: Transid,
        trails: &[AuditWriter<'a, D, J>],
        low: u64,
        share: &mut Share<ActsOf<J>>,
    ) -> Result<(), FlushRefused>
        requires trails { AreTrails (held_disc self.old).part.config trails.now }
        requires quiet { IsGreatestQuiet (held_disc self.old).part low }
        requires clean { (f n : ℕ) → n < 256 → IsClean (held_disc self.old).blocks f n }
        requires durable { Knows node J.opening (held_disc self.old).seat (Durable (held_disc self.old).part.number (low - 1)) }
        requires few { length (own_events (held_disc self.old).seat) < (held_disc self.old).part.config.steps }
        requires token { MayGive share.old }
        ensures lowered { OnOk result (HasLowered (Attempt item) low (held_disc self.old) (held_disc self.new)) }
        ensures refused { IfErr result (IsLowRefusal D.faults (Attempt item) low (held_disc self.old) (held_disc self.new)) }
        ensures disc { IsLaterDisc J.opening (held_disc self.old) (held_disc self.new) }
        ensures cache { (held_disc self.new).blocks.cache ≡ (held_disc self.old).blocks.cache }
        ensures later { D.faults (held_disc self.old).blocks.device ≤ D.faults (held_disc self.new).blocks.device }
        ensures given { HasGivenFor (held_disc self.old).seat (held_disc self.new).seat share.old share.new }
    {
        self.disc.lower(rt, item, trails, low, share)
    }
}
