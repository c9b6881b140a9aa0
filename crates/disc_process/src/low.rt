//! The low position of a volume, below which its blocks need no audit.
ghost use Rattle.std.specs.Prelude.{IsSome, IfErr, OnOk, OnErr, None, [], ◌∷◌, ◌++◌, ◌≡◌, ◌≤◌, ◌<◌, ◌-◌, ℕ, Option};
ghost use Rattle.block_cache.specs.Blocks.{with_low};
ghost use Rattle.block_cache.specs.declared.pair.PairPhase.{PairPhase};
ghost use Rattle.chronicle.specs.Seats.{Knows, own_events};
ghost use Rattle.disk_model.specs.Held.{HasCause};
ghost use Rattle.node_machine.specs.declared.event.DiscEvent.TheVariants as did;
ghost use Rattle.node_machine.specs.declared.event.Event.TheVariants.{OfDisc};
ghost use Rattle.node_machine.specs.Disc.{IsGreatestQuiet, IsUpTo};
ghost use Rattle.node_machine.specs.Made.{lowering};
ghost use Rattle.node_machine.specs.Node.{node};
ghost use Rattle.node_machine.specs.Parts.{Fact as TheFact};
ghost use Rattle.node_machine.specs.Parts.Fact.{Durable};
ghost use Rattle.disc_process.specs.Device.{IsUntold, device_of};
ghost use Rattle.disc_process.specs.Disc.{AreTrails};
ghost use Rattle.disc_process.specs.Draw.{IsClean};
ghost use Rattle.disc_process.specs.Later.{IsLaterDisc};
ghost use Rattle.disc_process.specs.Low.{HasBegunLow, HasEndedLow, HasLowered, IsGreatestFloor, IsLowRefusal, KeepsLow};
ghost use Rattle.disc_process.specs.Release.{with_event};
ghost use Rattle.disc_process.specs.Seats.{IsLaterSeat};

use crate::disc::{DiscState, trail_of, writer_of};
use audit_writer::{AuditWriter, DeviceRun, FlushRefused};
use disk_model::{Disk, DiskFault};
use node_machine::{By, DiscEvent};
use std::sync::Wait;

/// The lesser of two, where the second is there.
fn least(bound: u64, other: Option<u64>) -> u64
    ensures bound { result ≤ bound }
    ensures other { IsUpTo other result }
    ensures greatest { (x : ℕ) → x ≤ bound → IsUpTo other x → x ≤ result }
{
    match other {
        Some(other) if other < bound => other,
        _ => bound,
    }
}

impl<'a, D: Disk, J: DeviceRun<D>> DiscState<'a, D, J> {
    /// Makes this the volume's low position, behind the end of an earlier move that lacks it, and tells the trail's writer.
    pub fn lower<R: Wait>(
        &mut self,
        rt: &R,
        by: By,
        trails: &[AuditWriter<'a, D, J>],
        low: u64,
    ) -> Result<(), FlushRefused>
        requires trails { AreTrails self.old.part.config trails.now }
        requires quiet { IsGreatestQuiet self.old.part low }
        requires clean { (f n : ℕ) → n < 256 → IsClean self.old.blocks f n }
        requires durable { Knows node J.opening self.old.seat (Durable self.old.part.number (low - 1)) }
        ensures lowered { OnOk result (HasLowered by low self.old self.new) }
        ensures refused { IfErr result (IsLowRefusal D.faults by low self.old self.new) }
        ensures disc { IsLaterDisc J.opening self.old self.new }
        ensures cache { self.new.blocks.cache ≡ self.old.blocks.cache }
        ensures later { D.faults self.old.blocks.device ≤ D.faults self.new.blocks.device }
    {
        self.lawful();
        let lowered = self.lower_step(by, low);
        self.tell_floor(rt, trails);
        self.lawful();
        lowered
    }

    /// The same, without the frame of the disc and without telling the writer.
    #[tactic(auto, using(crate::proofs::Seats::seat_then, crate::proofs::Seats::seat_same))]
    fn lower_step(&mut self, by: By, low: u64) -> Result<(), FlushRefused>
        requires quiet { IsGreatestQuiet self.old.part low }
        requires clean { (f n : ℕ) → n < 256 → IsClean self.old.blocks f n }
        requires durable { Knows node J.opening self.old.seat (Durable self.old.part.number (low - 1)) }
        ensures lowered { OnOk result (HasLowered by low self.old self.new) }
        ensures refused { IfErr result (IsLowRefusal D.faults by low self.old self.new) }
        ensures cache { self.new.blocks.cache ≡ self.old.blocks.cache }
        ensures config { self.new.part.config ≡ self.old.part.config }
        ensures later_seat { IsLaterSeat self.old.seat self.new.seat }
        ensures later { D.faults self.old.blocks.device ≤ D.faults self.new.blocks.device }
    {
        if !self.moves.lowering {
            return self.move_low(by, low);
        }
        if self.end_low().is_err() {
            return Err(self.note_failure(by));
        }
        self.move_low(by, low)
    }

    /// The same, where no earlier move lacks its end.
    #[tactic(auto, using(crate::proofs::Seats::seat_then, crate::proofs::Seats::seat_same))]
    fn move_low(&mut self, by: By, low: u64) -> Result<(), FlushRefused>
        requires still { lowering self.old.part.events ≡ None }
        requires quiet { IsGreatestQuiet self.old.part low }
        requires clean { (f n : ℕ) → n < 256 → IsClean self.old.blocks f n }
        requires durable { Knows node J.opening self.old.seat (Durable self.old.part.number (low - 1)) }
        ensures lowered { OnOk result (HasLowered by low self.old self.new) }
        ensures refused { IfErr result (IsLowRefusal D.faults by low self.old self.new) }
        ensures cache { self.new.blocks.cache ≡ self.old.blocks.cache }
        ensures config { self.new.part.config ≡ self.old.part.config }
        ensures later_seat { IsLaterSeat self.old.seat self.new.seat }
        ensures later { D.faults self.old.blocks.device ≤ D.faults self.new.blocks.device }
    {
        if self.begin_low(by, low).is_err() {
            return Err(self.note_failure(by));
        }
        if self.end_low().is_err() {
            return Err(self.note_failure(by));
        }
        Ok(())
    }

    /// Writes the label with this low position: no image has it yet.
    fn begin_low(&mut self, by: By, low: u64) -> Result<(), DiskFault>
        requires still { lowering self.old.part.events ≡ None }
        requires quiet { IsGreatestQuiet self.old.part low }
        requires clean { (f n : ℕ) → n < 256 → IsClean self.old.blocks f n }
        requires durable { Knows node J.opening self.old.seat (Durable self.old.part.number (low - 1)) }
        ensures begun { OnOk result (HasBegunLow by low self.old self.new) }
        ensures same { OnErr result ((self.new.seat ≡ self.old.seat) × (self.new.part ≡ self.old.part)) }
        ensures label { self.new.blocks.label ≡ self.old.blocks.label }
        ensures frame { KeepsLow J.opening self.old self.new }
        ensures cause { HasCause (D.faults self.old.blocks.device) (D.faults self.new.blocks.device) result }
        ensures untold { OnErr result (IsUntold (J.faults (device_of self.new.part.number)) (D.faults self.new.blocks.device) self.new.part.events) }
    {
        self.blocks.always();
        self.blocks.low_body(low)?;
        self.chronicle
            .append(&mut self.seat, &DiscEvent::Low(low, by));
        self.moves.lowering = true;
        Ok(())
    }

    /// Ends the move of the low position that is under way.
    fn end_low(&mut self) -> Result<(), DiskFault>
        requires { IsSome (lowering self.old.part.events) }
        ensures ended { OnOk result (HasEndedLow self.old self.new) }
        ensures same { OnErr result ((self.new.seat ≡ self.old.seat) × (self.new.part ≡ self.old.part)) }
        ensures frame { KeepsLow J.opening self.old self.new }
        ensures cause { HasCause (D.faults self.old.blocks.device) (D.faults self.new.blocks.device) result }
        ensures untold { OnErr result (IsUntold (J.faults (device_of self.new.part.number)) (D.faults self.new.blocks.device) self.new.part.events) }
    {
        self.blocks.low_select()?;
        self.chronicle.append(&mut self.seat, &DiscEvent::Lowered);
        self.moves.lowering = false;
        Ok(())
    }

    /// The greatest position below which neither the low position nor a dump needs a record.
    pub fn floor(&self) -> u64
        ensures { IsGreatestFloor self.now.part result }
    {
        let rested = least(self.blocks.low(), self.moves.rest);
        least(rested, self.moves.dump)
    }

    /// Tells the trail's writer below which position the disc needs no record.
    pub(crate) fn tell_floor<R: Wait>(&mut self, rt: &R, trails: &[AuditWriter<'a, D, J>])
        requires { AreTrails self.old.part.config trails.now }
        ensures part { self.new.part ≡ self.old.part }
        ensures events { own_events self.new.seat ≡ own_events self.old.seat }
        ensures blocks { self.new.blocks ≡ self.old.blocks }
        ensures later_seat { IsLaterSeat self.old.seat self.new.seat }
    {
        let floor = self.floor();
        let writer = writer_of(trails, self.config, trail_of(self.config, self.volume));
        writer.tell(rt, &mut self.seat, self.volume, floor);
    }
}
