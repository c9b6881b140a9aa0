//! What a dump asks of a disc: its start and its end, and the copies of the blocks.
ghost use Rattle.std.specs.Prelude.{IfOk, IfErr, IfSome, IfNone, OnOk, length, ◌≡◌, ◌≤◌, ◌<◌, ◌++◌, ⊤};
ghost use Rattle.block_cache.specs.Blocks.{InCache};
ghost use Rattle.chronicle.specs.Seats.{HasGrown, HasLearned, Knows, own_events};
ghost use Rattle.keyed_file.specs.Volume.{blocks_of as label_blocks};
ghost use Rattle.keyed_file.specs.declared.block.TheConstants.{BLOCK_BYTES};
ghost use Rattle.node_machine.specs.Made.{blocks_of, dumps_begun, made, volume_of};
ghost use Rattle.node_machine.specs.Node.{node};
ghost use Rattle.node_machine.specs.Parts.Fact.{Made, Over, Started};
ghost use Rattle.disc_process.specs.Blocks.{BringsIn};
ghost use Rattle.disc_process.specs.Copied.{HasCopied};
ghost use Rattle.disc_process.specs.Disc.{AreTrails};
ghost use Rattle.disc_process.specs.Draw.{HasDrawn, HasMadeRoom, SameWork};
ghost use Rattle.disc_process.specs.Dumping.{HasHeard, HasStarted, IsDumping, MayEnd, raisings};
ghost use Rattle.disc_process.specs.Later.{IsLaterDisc};
ghost use Rattle.disc_process.specs.Seats.{IsLaterSeat};
ghost use Rattle.disc_process.specs.Write.{IsUnread};

use crate::disc::DiscState;
use crate::refused::WriteRefused;
use audit_writer::{AuditWriter, DeviceRun};
use block_cache::BlockNo;
use chronicle::Seat;
use disk_model::Disk;
use node_machine::{Cause, DiscEvent, NodeMachine};
use std::sync::Wait;
use tmf_model::Transid;

impl<'a, D: Disk, J: DeviceRun<D>> DiscState<'a, D, J> {
    /// Starts the next dump for an item of a script, and answers its number and its start. Where one is under way it tells that by a Turn.
    /// Both seats have then seen all events of the disc, and the dumper's knows that the dump has begun. The disc has had fewer events than the node allows.
    pub fn start_dump(
        &mut self,
        dumper: &mut Seat<NodeMachine, J>,
        caller: &mut Seat<NodeMachine, J>,
        item: Transid,
    ) -> Option<(u64, u64)>
        requires { length (own_events self.old.seat) < self.old.part.config.steps }
        ensures started { IfSome result (λ x. HasStarted item self.old self.new x.0 x.1) }
        ensures known { IfSome result (λ x. Knows node J.opening dumper.new (Started self.old.part.number x.0 x.1)) }
        ensures busy { IfNone result (IsDumping item self.old self.new) }
        ensures disc { IsLaterDisc J.opening self.old self.new }
        ensures blocks { self.new.blocks ≡ self.old.blocks }
        ensures dumper { HasHeard J.opening self.new dumper.old dumper.new }
        ensures caller { HasHeard J.opening self.new caller.old caller.new × (caller.new.seen ≡ self.new.seat.seen) }
    {
        self.lawful();
        let started = self.start(item);
        self.meet(dumper);
        self.meet(caller);
        self.lawful();
        started
    }

    /// The same, without the seats.
    fn start(&mut self, item: Transid) -> Option<(u64, u64)>
        requires { dumps_begun self.old.part.events < self.old.part.config.steps }
        ensures started { IfSome result (λ x. HasStarted item self.old self.new x.0 x.1) }
        ensures known { IfSome result (λ x. Knows node J.opening self.new.seat (Started self.old.part.number x.0 x.1)) }
        ensures busy { IfNone result (IsDumping item self.old self.new) }
        ensures blocks { self.new.blocks ≡ self.old.blocks }
        ensures later_seat { IsLaterSeat self.old.seat self.new.seat }
    {
        if self.moves.dump.is_some() {
            self.chronicle
                .append(&mut self.seat, &DiscEvent::Turn(item, Cause::Dumping));
            return None;
        }
        let start = self.quiet();
        let number = self.moves.dumps + 1;
        self.chronicle
            .append(&mut self.seat, &DiscEvent::Start(number, start, item));
        self.moves.dumps = number;
        self.moves.dump = Some(start);
        Some((number, start))
    }

    /// Ends a dump, where it is the one under way: this is then the start of the dump that is counted on, and the trail's writer is told.
    pub fn raise<R: Wait>(
        &mut self,
        rt: &R,
        dumper: &mut Seat<NodeMachine, J>,
        trails: &[AuditWriter<'a, D, J>],
        number: u64,
        rest: Option<u64>,
    )
        requires trails { AreTrails self.old.part.config trails.now }
        requires over { Knows node J.opening dumper.old (Over self.old.part.number number rest) }
        requires rests { MayEnd self.old.part number rest }
        ensures raised { own_events self.new.seat ≡ own_events self.old.seat ++ raisings self.old.part number rest }
        ensures disc { IsLaterDisc J.opening self.old self.new }
        ensures blocks { self.new.blocks ≡ self.old.blocks }
        ensures dumper { HasHeard J.opening self.new dumper.old dumper.new × (dumper.new.seen ≡ self.new.seat.seen) }
    {
        self.lawful();
        self.meet(dumper);
        self.end_dump(number, rest);
        self.tell_floor(rt, trails);
        self.meet(dumper);
        self.lawful();
    }

    /// The same, where the disc's seat knows that the dump is over.
    fn end_dump(&mut self, number: u64, rest: Option<u64>)
        requires over { Knows node J.opening self.old.seat (Over self.old.part.number number rest) }
        requires rests { MayEnd self.old.part number rest }
        ensures raised { own_events self.new.seat ≡ own_events self.old.seat ++ raisings self.old.part number rest }
        ensures config { self.new.part.config ≡ self.old.part.config }
        ensures blocks { self.new.blocks ≡ self.old.blocks }
        ensures later_seat { IsLaterSeat self.old.seat self.new.seat }
    {
        if self.moves.dump.is_none() || self.moves.dumps != number {
            return;
        }
        self.chronicle
            .append(&mut self.seat, &DiscEvent::Raise(number, rest));
        self.moves.dump = None;
        self.moves.rest = rest;
    }

    /// Copies a block as it stands into 4,096 bytes, and answers the position of the disc's last record, of which the dumper's seat then knows.
    /// It is refused where the block could not be read, or another one not be drawn that had to give way. Each other block of the cache is as it was, or has given way.
    pub fn copy_block<R: Wait>(
        &mut self,
        rt: &R,
        item: Transid,
        dumper: &mut Seat<NodeMachine, J>,
        trails: &[AuditWriter<'a, D, J>],
        n: BlockNo,
        into: &mut [u8],
    ) -> Result<u64, WriteRefused>
        requires trails { AreTrails self.old.part.config trails.now }
        requires here { volume_of self.old.part.config n.file ≡ self.old.part.number }
        requires within { n.number < blocks_of self.old.part.config n.file }
        requires room { length into.old ≡ BLOCK_BYTES }
        ensures copied { IfOk result (HasCopied self.new n.file n.number into.new) }
        ensures drawn { OnOk result (HasDrawn self.old.seat self.new.seat × SameWork self.old.part self.new.part) }
        ensures known { IfOk result (λ p. Knows node J.opening dumper.new (Made self.new.part.number p (made self.new.part.events))) }
        ensures refused { IfErr result (IsUnread D.Disk item n.file n.number self.old self.new) }
        ensures disc { IsLaterDisc J.opening self.old self.new }
        ensures dumper { HasGrown dumper.old dumper.new × HasLearned node J.opening dumper.old dumper.new }
        ensures brings { BringsIn self.old.blocks self.new.blocks n.file n.number × OnOk result (HasMadeRoom self.old.blocks n.file n.number self.old.seat self.new.seat) }
        ensures later { D.faults self.old.blocks.device ≤ D.faults self.new.blocks.device }
    {
        self.lawful();
        let copied = self.copy_step(rt, item, dumper, trails, n, into);
        self.lawful();
        copied
    }

    /// The same, without the frame of the disc.
    #[tactic(auto, using(crate::proofs::Seats::seat_then, crate::proofs::Seats::seat_same, crate::proofs::Seats::seat_grown))]
    fn copy_step<R: Wait>(
        &mut self,
        rt: &R,
        item: Transid,
        dumper: &mut Seat<NodeMachine, J>,
        trails: &[AuditWriter<'a, D, J>],
        n: BlockNo,
        into: &mut [u8],
    ) -> Result<u64, WriteRefused>
        requires trails { AreTrails self.old.part.config trails.now }
        requires here { volume_of self.old.part.config n.file ≡ self.old.part.number }
        requires within { n.number < label_blocks self.old.blocks.label.files n.file }
        requires room { length into.old ≡ BLOCK_BYTES }
        ensures copied { IfOk result (HasCopied self.new n.file n.number into.new) }
        ensures drawn { OnOk result (HasDrawn self.old.seat self.new.seat × SameWork self.old.part self.new.part) }
        ensures known { IfOk result (λ p. Knows node J.opening dumper.new (Made self.new.part.number p (made self.new.part.events))) }
        ensures refused { IfErr result (IsUnread D.Disk item n.file n.number self.old self.new) }
        ensures dumper { HasGrown dumper.old dumper.new × HasLearned node J.opening dumper.old dumper.new }
        ensures brings { BringsIn self.old.blocks self.new.blocks n.file n.number × OnOk result (HasMadeRoom self.old.blocks n.file n.number self.old.seat self.new.seat) }
        ensures later { D.faults self.old.blocks.device ≤ D.faults self.new.blocks.device }
        ensures later_seat { IsLaterSeat self.old.seat self.new.seat }
    {
        dumper.lawful();
        self.bring(rt, item, trails, n)?;
        let last = self.copy(n, into);
        self.meet(dumper);
        Ok(last)
    }

    /// Copies a block that is in the cache, and answers the position of the disc's last record.
    fn copy(&self, n: BlockNo, into: &mut [u8]) -> u64
        requires here { volume_of self.now.part.config n.file ≡ self.now.part.number }
        requires cached { InCache self.now.blocks.cache n.file n.number (λ f. ⊤) }
        requires room { length into.old ≡ BLOCK_BYTES }
        ensures copied { HasCopied self.now n.file n.number into.new result }
        ensures known { Knows node J.opening self.now.seat (Made self.now.part.number result (made self.now.part.events)) }
    {
        self.blocks.get(n).encode(into);
        self.next - 1
    }
}
