//! The state of a dump device.
ghost use Rattle.std.specs.Prelude.{◌≡◌, ◌≢◌, ◌↔◌, ℕ, List, ◌-◌, ◌^◌, ◌∷◌, [], None, Some, IsSome, IfOk, IfSome, OnErr, OnOk, IsTrue, length, min, true};
ghost use Rattle.std.specs.Option.{MatchOption, option_map};
ghost use Rattle.disk_model.specs.Frame.{WorksOn};
ghost use Rattle.disk_model.specs.Held.{HasCause, IsThere};
ghost use Rattle.tmf_model.specs.Config.{IsWithin};
ghost use Rattle.keyed_file.specs.declared.block.TheConstants.{BLOCK_BYTES};
ghost use Rattle.chronicle.specs.Seats.{Knows, note_of, own_events};
ghost use Rattle.audit_writer.specs.Writer.{IsHandedIn};
ghost use Rattle.node_machine.specs.declared.event.DumpEvent.TheVariants.{Failed, Seal, Sealed};
ghost use Rattle.node_machine.specs.Dump.{offered_label};
ghost use Rattle.node_machine.specs.Node.{node};
ghost use Rattle.node_machine.specs.Parts.{DumpStart};
ghost use Rattle.node_machine.specs.Parts.Fact.{Over};
ghost use Rattle.online_dump.specs.Body.{IsWholeBody};
ghost use Rattle.online_dump.specs.Dumper.{AreDumpsShown, AreShown, IsDumper, IsOpened, StandsAsGiven, base_found, device_of, first_held, least_rest, open_dump};
ghost use Rattle.online_dump.specs.Dumping.{HasBegun, HasFailed, HasGivenUp, HasNotSealed, HasPut, HasSealedDump, HasSettled, MayBegin, MayCopyNext, MaySealAll, new_copying};
ghost use Rattle.keyed_file.specs.declared.dump_label.DumpLabel.{DumpLabel};
ghost use Rattle.online_dump.specs.Filling.{HasNext, HasSealed, HoldsBody, HoldsDump, IsSameDump, next_body};
ghost use Rattle.online_dump.specs.Found.{start_in};
ghost use Rattle.online_dump.specs.Seat.{HasHad, HasMet, sight_of};

use crate::copying::Copying;
use crate::dump_file::DumpFile;
use crate::seat::DumpSeat;
use audit_writer::DeviceRun;
use block_cache::BlockNo;
use chronicle::{Chronicle, Seat};
use disk_model::{Disk, DiskFault};
use keyed_file::BLOCK_BYTES;
use node_machine::{By, DumpEvent, NodeMachine};
use std::marker::Model;

/// What stands behind the lock of a dump device: the device, the seat of its part, and the dump that is being copied.
#[derive(Drop)]
pub struct DumperState<'a, D: Disk, J: DeviceRun<D>> {
    seat: DumpSeat<'a, J>,
    file: DumpFile<D>,
    // The number of the dump whose label is offered.
    offered: Option<u64>,
    current: Option<Copying>,
}

impl<'a, D: Disk, J: DeviceRun<D>> Model for DumperState<'a, D, J> {
    ghost use Rattle.std.specs.Prelude.{◌≡◌};
    ghost use Rattle.std.specs.Option.{option_map};
    ghost use Rattle.node_machine.specs.Dump.{offered_label};
    ghost use Rattle.online_dump.specs.Dumper.{Dumper, IsDumper};

    ghost Value = { Dumper D };

    ghost view = { λ w. record { seat = w.seat; file = w.file; current = w.current } };

    ghost invariant = { λ w. (w.offered ≡ option_map (λ label. label.number) (offered_label w.seat.part.events))
        × IsDumper D.Disk J.opening J.found J.faults J.premise J.devices (record { seat = w.seat; file = w.file; current = w.current }) };
}

impl<'a, D: Disk, J: DeviceRun<D>> DumperState<'a, D, J> {
    /// Says what is known of it. It does nothing.
    pub fn lawful(&self)
        ensures { IsDumper D.Disk J.opening J.found J.faults J.premise J.devices self.now }
    {
        let _ = &self.offered;
    }

    /// The state of a dump device, over the seat of its part. It takes no memory.
    pub fn attach(
        file: DumpFile<D>,
        seat: Seat<NodeMachine, J>,
        chronicle: &'a Chronicle<NodeMachine, J>,
    ) -> Self
        requires opened { IsOpened D.Disk J.opening J.found J.faults J.premise J.devices (sight_of J.opening seat) file }
        ensures { result ≡ record { seat = sight_of J.opening seat; file = file; current = None } }
    {
        DumperState {
            seat: DumpSeat::attach(chronicle, seat),
            file,
            offered: None,
            current: None,
        }
    }

    /// Its device, which is the one that was handed in, and its seat. Where the premise holds, the part allows each image that the device may leave, and the dump that stands is the one that
    /// was there at first, while no label of this run was written.
    pub fn into_parts(self) -> (DumpFile<D>, Seat<NodeMachine, J>)
        ensures file { result.0 ≡ self.entry.file }
        ensures seat { result.1 ≡ self.entry.seat.sight }
        ensures device { IsHandedIn D.Disk (J.devices (device_of self.entry.seat.part.number)) result.0.device }
        ensures lawful { IsDumper D.Disk J.opening J.found J.faults J.premise J.devices self.entry }
        ensures shown { AreShown D.Disk (J.premise (device_of self.entry.seat.part.number)) self.entry }
        ensures dumps { AreDumpsShown D.Disk (J.premise (device_of self.entry.seat.part.number)) (Knows node J.opening self.entry.seat.sight) (base_found J.found self.entry.seat.part.number) (first_held D.Disk J.devices self.entry.seat.part.number) self.entry }
        ensures given { StandsAsGiven D.Disk J.premise J.devices self.entry }
    {
        DumpFile::<D>::every_image();
        self.file.lawful();
        let DumperState { seat, file, .. } = self;
        (file, seat.into_seat())
    }

    /// The start of the dump that stands there, if one does.
    pub fn rest(&self) -> Option<u64>
        ensures { result ≡ start_in self.now.file.found }
    {
        self.file.rest()
    }

    /// Lets the part's seat and the caller's tell each other what they have seen. It appends nothing.
    pub fn meet(&mut self, caller: &mut Seat<NodeMachine, J>)
        ensures met { HasMet J.opening J.found self.old.seat self.new.seat caller.old caller.new }
        ensures file { self.new.file ≡ self.old.file }
        ensures current { self.new.current ≡ self.old.current }
    {
        self.seat.meet(caller);
    }

    /// A seat without a part that has seen what the part's seat has seen.
    pub fn note(&mut self) -> Seat<NodeMachine, J>
        ensures same { self.new ≡ self.old }
        ensures note { result ≡ note_of self.old.seat.sight }
    {
        self.seat.note()
    }

    /// How many blocks of the next body are written, where it is begun.
    pub fn filled(&self) -> Option<u32>
        ensures { result ≡ self.now.file.filled }
    {
        self.file.filled()
    }

    /// The volume whose dumps the device holds.
    pub fn volume(&self) -> u8
        ensures { result ≡ self.now.file.volume }
    {
        self.file.volume()
    }

    /// The number of its device.
    pub fn device(&self) -> u8
        ensures { result ≡ device_of self.now.seat.part.number }
    {
        self.lawful();
        12 + self.file.volume()
    }

    /// The number of the part's own events, or 2^64 - 1 where there are more.
    pub fn events(&self) -> u64
        ensures { result ≡ min (length (own_events self.now.seat.sight)) (2 ^ 64 - 1) }
    {
        self.seat.events()
    }

    /// The dump that is being copied, while its body can take a block. There is none behind a body that could not be begun or gone on with, whose dump is to be given up.
    pub fn copying(&self) -> Option<Copying>
        ensures { result ≡ open_dump self.now }
    {
        match self.file.filled() {
            Some(_) => self.current,
            None => None,
        }
    }

    /// Whether this dump is being copied, and its body can take a block.
    pub fn is_copying(&self, copying: Copying) -> bool
        ensures { IsTrue result ↔ (open_dump self.now ≡ Some copying) }
    {
        match self.copying() {
            Some(current) => current == copying,
            None => false,
        }
    }

    /// Ends the doubt about a label that is offered: it then stands. It does nothing where none is. After a fault the label is in doubt as before.
    pub fn settle(&mut self, by: By) -> Result<(), DiskFault>
        ensures settled { OnOk result (HasSettled self.old self.new) }
        ensures idle { offered_label self.old.seat.part.events ≡ None → self.new ≡ self.old }
        ensures failed { OnErr result (HasFailed by self.old.current self.old self.new) }
        ensures cause { HasCause (D.faults self.old.file.device) (D.faults self.new.file.device) result }
    {
        match self.offered {
            Some(number) => self.name(by, number),
            None => Ok(()),
        }
    }

    /// Names the label that is offered. No dump is being copied then.
    fn name(&mut self, by: By, number: u64) -> Result<(), DiskFault>
        requires offered { option_map (λ label. label.number) (offered_label self.old.seat.part.events) ≡ Some number }
        ensures sealed { OnOk result (HasHad (Sealed number true ∷ []) self.old.seat self.new.seat) }
        ensures current { OnOk result (self.new.current ≡ None) }
        ensures stands { (label : DumpLabel) → self.old.file.next ≡ Some label → OnOk result (HasSealed self.old.file self.new.file label) }
        ensures certain { OnOk result (offered_label self.new.seat.part.events ≡ None) }
        ensures over { OnOk result ((label : DumpStart) → offered_label self.old.seat.part.events ≡ Some label → Knows node J.opening self.new.seat.sight (Over self.new.seat.part.number number (Some label.start))) }
        ensures failed { OnErr result (HasFailed by self.old.current self.old self.new) }
        ensures cause { HasCause (D.faults self.old.file.device) (D.faults self.new.file.device) result }
    {
        self.file.lawful();
        match self.file.seal() {
            Ok(()) => {
                self.seat.append(&DumpEvent::Sealed(number, true));
                self.offered = None;
                self.current = None;
                Ok(())
            }
            Err(fault) => {
                self.seat.append(&DumpEvent::Failed(by));
                Err(fault)
            }
        }
    }

    /// Begins the body of a dump that has begun at its disc. After a fault that dump is to be given up.
    pub fn begin(&mut self, by: By, number: u64, start: u64) -> Result<(), DiskFault>
        requires may { MayBegin (Knows node J.opening self.old.seat.sight) self.old.seat.part number start }
        ensures begun { OnOk result (HasBegun number start self.old self.new) }
        ensures failed { OnErr result (HasFailed by (Some (new_copying number start)) self.old self.new) }
        ensures same { IsSameDump self.old.file self.new.file }
        ensures cause { HasCause (D.faults self.old.file.device) (D.faults self.new.file.device) result }
    {
        let copying = Copying { number, start };
        self.file.lawful();
        match self.file.begin_body() {
            Ok(()) => {
                self.current = Some(copying);
                Ok(())
            }
            Err(fault) => {
                self.seat.append(&DumpEvent::Failed(by));
                self.current = Some(copying);
                Err(fault)
            }
        }
    }

    /// Writes the next block of the dump that is being copied, as it was behind this position of its disc. After a fault the dump is to be given up.
    pub fn put(&mut self, by: By, n: BlockNo, position: u64, block: &[u8]) -> Result<(), DiskFault>
        requires may { MatchOption (open_dump self.old) ⊥ (MayCopyNext (Knows node J.opening self.old.seat.sight) (base_found J.found self.old.seat.part.number) self.old.seat.part self.old.file.filled n.file n.number position block.now) }
        requires block { length block.now ≡ BLOCK_BYTES }
        ensures put { OnOk result (HasPut n.file n.number position self.old self.new) }
        ensures failed { OnErr result (HasFailed by self.old.current self.old self.new) }
        ensures same { IsSameDump self.old.file self.new.file }
        ensures cause { HasCause (D.faults self.old.file.device) (D.faults self.new.file.device) result }
    {
        let Some(copying) = self.current else {
            unreachable!()
        };
        self.file.lawful();
        match self.file.put_block(block) {
            Ok(()) => {
                self.seat.append(&DumpEvent::Copy(copying.number, n.file, n.number, position));
                Ok(())
            }
            Err(fault) => {
                self.seat.append(&DumpEvent::Failed(by));
                Err(fault)
            }
        }
    }

    /// Seals the dump that is being copied: its body is whole, and then its label is offered and named. After a fault the dump is to be given up, and its label
    /// may be in doubt.
    pub fn seal(&mut self, by: By) -> Result<(), DiskFault>
        requires may { MatchOption (open_dump self.old) ⊥ (MaySealAll (Knows node J.opening self.old.seat.sight) self.old.seat.part self.old.file.filled) }
        ensures sealed { OnOk result (HasSealedDump self.old self.new) }
        ensures over { OnOk result (IfSome self.old.current (λ c. Knows node J.opening self.new.seat.sight (Over self.new.seat.part.number c.number (Some c.start)))) }
        ensures failed { OnErr result (HasNotSealed by self.old self.new) }
        ensures cause { HasCause (D.faults self.old.file.device) (D.faults self.new.file.device) result }
    {
        let Some(copying) = self.current else {
            unreachable!()
        };
        self.offer(by, copying)?;
        self.name(by, copying.number)
    }

    /// Takes the body off risk, and writes and offers the label.
    fn offer(&mut self, by: By, copying: Copying) -> Result<(), DiskFault>
        requires open { open_dump self.old ≡ Some copying }
        requires may { MaySealAll (Knows node J.opening self.old.seat.sight) self.old.seat.part self.old.file.filled copying }
        ensures offered { OnOk result (HasHad (Seal copying.number copying.start ∷ []) self.old.seat self.new.seat) }
        ensures label { OnOk result (HasNext self.old.file self.new.file copying.start) }
        ensures current { self.new.current ≡ self.old.current }
        ensures failed { OnErr result (HasHad (Failed by ∷ []) self.old.seat self.new.seat) }
        ensures cause { HasCause (D.faults self.old.file.device) (D.faults self.new.file.device) result }
    {
        self.file.lawful();
        match write_next(&mut self.file, copying.start) {
            Ok(()) => {
                self.seat
                    .append(&DumpEvent::Seal(copying.number, copying.start));
                self.offered = Some(copying.number);
                Ok(())
            }
            Err(fault) => {
                self.seat.append(&DumpEvent::Failed(by));
                Err(fault)
            }
        }
    }

    /// Gives up the dump that is being copied. It answers the start from which on each dump is that an image may have, or none where no image has one; and the
    /// part knows this. It calls no device.
    pub fn give_up(&mut self) -> Option<u64>
        requires { IsSome self.old.current }
        ensures ended { HasGivenUp self.old self.new }
        ensures rest { result ≡ least_rest self.old }
        ensures over { IfSome self.old.current (λ c. Knows node J.opening self.new.seat.sight (Over self.new.seat.part.number c.number result)) }
    {
        let rest = self.least_start();
        let Some(copying) = self.current else {
            unreachable!()
        };
        self.seat.append(&DumpEvent::Sealed(copying.number, false));
        self.current = None;
        rest
    }

    /// The start of the dump that stands; where none does, that of the next label.
    pub(crate) fn least_start(&self) -> Option<u64>
        ensures { result ≡ least_rest self.now }
    {
        match self.file.rest() {
            Some(start) => Some(start),
            None => self.file.next_start(),
        }
    }
}

/// Takes the body that was begun off risk, and writes the label of its dump where no image shows it.
fn write_next<D: Disk>(file: &mut DumpFile<D>, start: u64) -> Result<(), DiskFault>
    requires begun { IsSome file.old.filled }
    requires start { IsWithin 1 4611686018427387904 start }
    requires volume { IsWithin 1 8 file.old.volume }
    requires none { file.old.next ≡ None }
    ensures written { OnOk result (HasNext file.old file.new start) }
    ensures same { OnErr result (IsSameDump file.old file.new) }
    ensures unfilled { file.new.filled ≡ None }
    ensures body { (text : List ℕ) → IsTrue (D.tells file.old.device) → HoldsBody D.held file.old text → OnOk result (IsThere (D.held file.new.device) (next_body file.old.found) (IsWholeBody text)) }
    ensures others { (q : ℕ) → IsTrue (D.tells file.old.device) → q ≢ 1 → q ≢ next_body file.old.found → D.held file.new.device q ≡ D.held file.old.device q }
    ensures holds { IsTrue (D.tells file.old.device) → HoldsDump D.held file.old → HoldsDump D.held file.new }
    ensures works { WorksOn D.Disk file.old.device file.new.device result }
{
    file.lawful();
    file.finish_body()?;
    file.write_label(start)
}
