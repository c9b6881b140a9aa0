//! The dumps of a disc whose lock is held.
ghost use Rattle.std.specs.Prelude.{◌≡◌, ◌<◌, ◌≤◌, ◌++◌, length, true, IfSome, MatchOption, IfOk, IfErr, OnOk};
ghost use Rattle.chronicle.specs.Seats.{HasGrown, HasLearned, Knows, own_events};
ghost use Rattle.node_machine.specs.Made.{blocks_of, made, volume_of};
ghost use Rattle.node_machine.specs.Node.{node};
ghost use Rattle.node_machine.specs.Parts.Fact.{Made, Over, Started};
ghost use Rattle.keyed_file.specs.declared.block.TheConstants.{BLOCK_BYTES};
ghost use Rattle.disc_process.specs.Blocks.{BringsIn};
ghost use Rattle.disc_process.specs.Copied.{HasCopied};
ghost use Rattle.disc_process.specs.Disc.{AreTrails};
ghost use Rattle.disc_process.specs.Draw.{HasDrawn, HasMadeRoom, SameWork};
ghost use Rattle.disc_process.specs.Dumping.{HasHeard, HasStarted, IsDumping, MayEnd, raisings};
ghost use Rattle.disc_process.specs.Later.{IsLaterDisc};
ghost use Rattle.disc_process.specs.Write.{IsUnread};
ghost use Rattle.disc_lock.specs.Locks.{held_disc};
ghost use Rattle.disc_lock.specs.Tokens.{HasGiven, MayGive};

use crate::acts::ActsOf;
use crate::guard::DiscGuard;
use crate::numbered::DiscAt;
use audit_writer::{AuditWriter, DeviceRun};
use block_cache::BlockNo;
use chronicle::Seat;
use disc_process::WriteRefused;
use disk_model::Disk;
use node_machine::NodeMachine;
use std::sync::Wait;
use std::sync::ledger::Share;
use tmf_model::Transid;

impl<'a, D: Disk, J: DeviceRun<D>> DiscAt<'a, D, J> {
    /// Starts the next dump for an item of a script, and answers its number and its start. Where one is under way it tells that by a Turn. Either takes one of the caller's tokens.
    /// Both seats have then seen all events of the disc, and the dumper's knows that the dump has begun. The disc has had fewer events than the node allows.
    pub fn start_dump(
        &mut self,
        dumper: &mut Seat<NodeMachine, J>,
        caller: &mut Seat<NodeMachine, J>,
        item: Transid,
        share: &mut Share<ActsOf<J>>,
    ) -> Option<(u64, u64)>
        requires token { MayGive share.old }
        requires few { length (own_events self.old.state.seat) < self.old.state.part.config.steps }
        ensures answered { MatchOption result (IsDumping item self.old.state self.new.state) (λ x. HasStarted item self.old.state self.new.state x.0 x.1) }
        ensures known { IfSome result (λ x. Knows node J.opening dumper.new (Started self.old.state.part.number x.0 x.1)) }
        ensures disc { IsLaterDisc J.opening self.old.state self.new.state }
        ensures blocks { self.new.state.blocks ≡ self.old.state.blocks }
        ensures dumper { HasHeard J.opening self.new.state dumper.old dumper.new }
        ensures caller { HasHeard J.opening self.new.state caller.old caller.new × (caller.new.seen ≡ self.new.state.seat.seen) }
        ensures given { HasGiven true share.old share.new }
    {
        let started = self.state.start_dump(dumper, caller, item);
        share.transfer(&mut self.share, 1);
        started
    }

    /// Ends a dump, where it is the one under way: this is then the start of the dump that is counted on, and the trail's writer is told.
    pub fn raise<R: Wait>(
        &mut self,
        rt: &R,
        dumper: &mut Seat<NodeMachine, J>,
        trails: &[AuditWriter<'a, D, J>],
        number: u64,
        rest: Option<u64>,
    )
        requires trails { AreTrails self.old.state.part.config trails.now }
        requires over { Knows node J.opening dumper.old (Over self.old.state.part.number number rest) }
        requires rests { MayEnd self.old.state.part number rest }
        ensures raised { own_events self.new.state.seat ≡ own_events self.old.state.seat ++ raisings self.old.state.part number rest }
        ensures disc { IsLaterDisc J.opening self.old.state self.new.state }
        ensures blocks { self.new.state.blocks ≡ self.old.state.blocks }
        ensures dumper { HasHeard J.opening self.new.state dumper.old dumper.new × (dumper.new.seen ≡ self.new.state.seat.seen) }
    {
        self.state.raise(rt, dumper, trails, number, rest);
    }

    /// Copies a block as it stands into 4,096 bytes, and answers the position of the disc's last record, of which the dumper's seat then knows.
    /// It is refused where the block could not be read, or another one not be drawn that had to give way. Each other block of the cache is as it was, or has given way for this one.
    pub fn copy_block<R: Wait>(
        &mut self,
        rt: &R,
        item: Transid,
        dumper: &mut Seat<NodeMachine, J>,
        trails: &[AuditWriter<'a, D, J>],
        n: BlockNo,
        into: &mut [u8],
    ) -> Result<u64, WriteRefused>
        requires trails { AreTrails self.old.state.part.config trails.now }
        requires here { volume_of self.old.state.part.config n.file ≡ self.old.state.part.number }
        requires within { n.number < blocks_of self.old.state.part.config n.file }
        requires room { length into.old ≡ BLOCK_BYTES }
        ensures copied { IfOk result (HasCopied self.new.state n.file n.number into.new) }
        ensures drawn { OnOk result (HasDrawn self.old.state.seat self.new.state.seat × SameWork self.old.state.part self.new.state.part) }
        ensures known { IfOk result (λ p. Knows node J.opening dumper.new (Made self.new.state.part.number p (made self.new.state.part.events))) }
        ensures refused { IfErr result (IsUnread D.Disk item n.file n.number self.old.state self.new.state) }
        ensures disc { IsLaterDisc J.opening self.old.state self.new.state }
        ensures dumper { HasGrown dumper.old dumper.new × HasLearned node J.opening dumper.old dumper.new }
        ensures brings { BringsIn self.old.state.blocks self.new.state.blocks n.file n.number × OnOk result (HasMadeRoom self.old.state.blocks n.file n.number self.old.state.seat self.new.state.seat) }
        ensures later { D.faults self.old.state.blocks.device ≤ D.faults self.new.state.blocks.device }
    {
        self.state.copy_block(rt, item, dumper, trails, n, into)
    }
}

impl<'g, 'a, D: Disk, J: DeviceRun<D>> DiscGuard<'g, 'a, D, J> {
    /// Starts the next dump for an item of a script, and answers its number and its start. Where one is under way it tells that by a Turn. Either takes one of the caller's tokens.
    /// Both seats have then seen all events of the disc, and the dumper's knows that the dump has begun. The disc has had fewer events than the node allows.
    pub fn start_dump(
        &mut self,
        dumper: &mut Seat<NodeMachine, J>,
        caller: &mut Seat<NodeMachine, J>,
        item: Transid,
        share: &mut Share<ActsOf<J>>,
    ) -> Option<(u64, u64)>
        requires token { MayGive share.old }
        requires few { length (own_events (held_disc self.old).seat) < (held_disc self.old).part.config.steps }
        ensures answered { MatchOption result (IsDumping item (held_disc self.old) (held_disc self.new)) (λ x. HasStarted item (held_disc self.old) (held_disc self.new) x.0 x.1) }
        ensures known { IfSome result (λ x. Knows node J.opening dumper.new (Started (held_disc self.old).part.number x.0 x.1)) }
        ensures disc { IsLaterDisc J.opening (held_disc self.old) (held_disc self.new) }
        ensures blocks { (held_disc self.new).blocks ≡ (held_disc self.old).blocks }
        ensures dumper { HasHeard J.opening (held_disc self.new) dumper.old dumper.new }
        ensures caller { HasHeard J.opening (held_disc self.new) caller.old caller.new × (caller.new.seen ≡ (held_disc self.new).seat.seen) }
        ensures given { HasGiven true share.old share.new }
    {
        self.disc.start_dump(dumper, caller, item, share)
    }

    /// Ends a dump, where it is the one under way: this is then the start of the dump that is counted on, and the trail's writer is told.
    pub fn raise<R: Wait>(
        &mut self,
        rt: &R,
        dumper: &mut Seat<NodeMachine, J>,
        trails: &[AuditWriter<'a, D, J>],
        number: u64,
        rest: Option<u64>,
    )
        requires trails { AreTrails (held_disc self.old).part.config trails.now }
        requires over { Knows node J.opening dumper.old (Over (held_disc self.old).part.number number rest) }
        requires rests { MayEnd (held_disc self.old).part number rest }
        ensures raised { own_events (held_disc self.new).seat ≡ own_events (held_disc self.old).seat ++ raisings (held_disc self.old).part number rest }
        ensures disc { IsLaterDisc J.opening (held_disc self.old) (held_disc self.new) }
        ensures blocks { (held_disc self.new).blocks ≡ (held_disc self.old).blocks }
        ensures dumper { HasHeard J.opening (held_disc self.new) dumper.old dumper.new × (dumper.new.seen ≡ (held_disc self.new).seat.seen) }
    {
        self.disc.raise(rt, dumper, trails, number, rest);
    }

    /// Copies a block as it stands into 4,096 bytes, and answers the position of the disc's last record, of which the dumper's seat then knows.
    /// It is refused where the block could not be read, or another one not be drawn that had to give way. Each other block of the cache is as it was, or has given way for this one.
    pub fn copy_block<R: Wait>(
        &mut self,
        rt: &R,
        item: Transid,
        dumper: &mut Seat<NodeMachine, J>,
        trails: &[AuditWriter<'a, D, J>],
        n: BlockNo,
        into: &mut [u8],
    ) -> Result<u64, WriteRefused>
        requires trails { AreTrails (held_disc self.old).part.config trails.now }
        requires here { volume_of (held_disc self.old).part.config n.file ≡ (held_disc self.old).part.number }
        requires within { n.number < blocks_of (held_disc self.old).part.config n.file }
        requires room { length into.old ≡ BLOCK_BYTES }
        ensures copied { IfOk result (HasCopied (held_disc self.new) n.file n.number into.new) }
        ensures drawn { OnOk result (HasDrawn (held_disc self.old).seat (held_disc self.new).seat × SameWork (held_disc self.old).part (held_disc self.new).part) }
        ensures known { IfOk result (λ p. Knows node J.opening dumper.new (Made (held_disc self.new).part.number p (made (held_disc self.new).part.events))) }
        ensures refused { IfErr result (IsUnread D.Disk item n.file n.number (held_disc self.old) (held_disc self.new)) }
        ensures disc { IsLaterDisc J.opening (held_disc self.old) (held_disc self.new) }
        ensures dumper { HasGrown dumper.old dumper.new × HasLearned node J.opening dumper.old dumper.new }
        ensures brings { BringsIn (held_disc self.old).blocks (held_disc self.new).blocks n.file n.number × OnOk result (HasMadeRoom (held_disc self.old).blocks n.file n.number (held_disc self.old).seat (held_disc self.new).seat) }
        ensures later { D.faults (held_disc self.old).blocks.device ≤ D.faults (held_disc self.new).blocks.device }
    {
        self.disc.copy_block(rt, item, dumper, trails, n, into)
    }
}
