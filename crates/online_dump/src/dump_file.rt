//! A dump device.
ghost use Rattle.std.specs.Prelude.{◌≡◌, ◌<◌, ◌+◌, ◌++◌, [], ℕ, List, None, Some, false, true, length, IfErr, IfOk, IfSome, IsSome, IsTrue, MatchResult, OnErr, OnOk};
ghost use Rattle.disk_model.specs.Frame.{IsLater, WorksOn};
ghost use Rattle.disk_model.specs.Held.{Elsewhere, Held, IfThere, IsThere, Leaves, Rose};
ghost use Rattle.trail_files.specs.Landed.{IsSettled};
ghost use Rattle.std.specs.Option.{MatchOption, option_map};
ghost use Rattle.tmf_model.specs.Config.{IsWithin};
ghost use Rattle.keyed_file.specs.LabelFormat.{IsDumpLabel};
ghost use Rattle.keyed_file.specs.Layout.{IsSpelledAt};
ghost use Rattle.keyed_file.specs.declared.block.TheConstants.{BLOCK_BYTES};
ghost use Rattle.keyed_file.specs.declared.dump_label.DumpLabel.{DumpLabel as Label};
ghost use Rattle.online_dump.specs.Body.{IsWholeBody};
ghost use Rattle.online_dump.specs.Filling.{HasOffered, HasSealed, HasWritten, HoldsBody, HoldsDump, IsDumpFile, IsSameDump, IsUnwritten, ShowsDumpLabel, next_body, next_label, next_sequence};
ghost use Rattle.online_dump.specs.Found.{DumpView, IsSealed, TellsDump};
ghost use Rattle.online_dump.specs.Sealing.{HasLabelFile, next_slot};

use crate::body::{append_block, create_body, finish_body};
use crate::fault::DumperFault;
use crate::sealed::{SealedDump, read_sealed};
use crate::sealing::{name_label, write_label};
use disk_model::{Disk, DiskFault};
use keyed_file::{BLOCK_BYTES, DumpLabel};
use std::alloc::Global;
use std::marker::Model;

/// A device for the dumps of one volume.
#[derive(Drop)]
pub struct DumpFile<D: Disk> {
    device: Box<D>,
    volume: u8,
    found: Option<SealedDump>,
    // The next label, once it is written, and whether an image may show it.
    next: Option<DumpLabel>,
    offered: bool,
    // How many blocks of the next body are written, where it is begun.
    filled: Option<u32>,
    // Whether the next body is finished.
    whole: bool,
    // Room for the bytes of one block.
    room: Vec<u8>,
}

impl<D: Disk> Model for DumpFile<D> {
    ghost use Rattle.std.specs.Prelude.{◌≡◌, IfSome, vec_len};
    ghost use Rattle.keyed_file.specs.declared.block.TheConstants.{BLOCK_BYTES};
    ghost use Rattle.online_dump.specs.Filling.{AreThere, IsNext};
    ghost use Rattle.online_dump.specs.Found.{DumpView, IsSealed};

    ghost Value = { DumpView D };

    ghost view = { λ b. record { device = b.device.value; volume = b.volume; found = b.found; next = b.next; offered = b.offered; filled = b.filled; whole = b.whole } };

    ghost invariant = { λ b. (vec_len b.room ≡ BLOCK_BYTES) × IfSome b.found (IsSealed b.volume) × IfSome b.next (IsNext b.volume)
        × AreThere D.tells D.held (record { device = b.device.value; volume = b.volume; found = b.found; next = b.next; offered = b.offered; filled = b.filled; whole = b.whole }) };
}

impl<D: Disk> DumpFile<D> {
    ghost use Rattle.online_dump.specs.Found.{HasFoundDump, start_in};

    /// The dump device of a volume. It takes the room for one block.
    pub fn attach(alloc: Global, mut device: D, volume: u8) -> Result<DumpFile<D>, (D, DumperFault)>
        ensures keeps { MatchResult result (λ b. IsLater D.Disk device b.device) (λ e. IsLater D.Disk device e.0) }
        ensures same { MatchResult result (λ b. D.held b.device ≡ D.held device) (λ e. D.held e.0 ≡ D.held device) }
        ensures new { IfOk result (λ b. (b.volume ≡ volume) × (b.next ≡ None) × (b.offered ≡ false) × (b.filled ≡ None) × (b.whole ≡ false)) }
        ensures found { IsTrue (D.tells device) → IfOk result (HasFoundDump volume (D.held device)) }
        ensures rests { IsTrue (D.tells device) → IfThere (D.held device) 1 (λ f. IsSettled f × (0 < length f.bytes)) → IfOk result (HoldsDump D.held) }
        ensures fault { IsTrue (D.tells device) → IfErr result (λ e. TellsDump volume (D.held device) e.1) }
        ensures cause { IfErr result (λ e. e.1 ≡ DumperFault.Failed → Rose (D.faults device) (D.faults e.0)) }
    {
        match read_sealed(volume, &mut device) {
            Ok(found) => Self::with_room(alloc, device, volume, found),
            Err(fault) => Err((device, fault)),
        }
    }

    /// The device of a volume, on which this dump was found.
    fn with_room(
        alloc: Global,
        device: D,
        volume: u8,
        found: Option<SealedDump>,
    ) -> Result<DumpFile<D>, (D, DumperFault)>
        requires sealed { IfSome found (IsSealed volume) }
        requires there { IsTrue (D.tells device) → IsSome found → HasLabelFile (D.held device) }
        ensures value { IfOk result (λ b. b ≡ record { device = device; volume = volume; found = found; next = None; offered = false; filled = None; whole = false }) }
        ensures refused { IfErr result (λ e. (e.0 ≡ device) × (e.1 ≡ DumperFault.NoMemory)) }
    {
        let Ok(room) = vec![in alloc; 0; BLOCK_BYTES] else {
            return Err((device, DumperFault::NoMemory));
        };
        match Box::new(alloc, device) {
            Ok(device) => Ok(DumpFile {
                device,
                volume,
                found,
                next: None,
                offered: false,
                filled: None,
                whole: false,
                room,
            }),
            Err(failed) => Err((failed.value, DumperFault::NoMemory)),
        }
    }

    /// Says what is known of it. It does nothing.
    pub fn lawful(&self)
        ensures { IsDumpFile self.now }
    {
        let _ = &self.room;
    }

    /// The start of the dump that stands there, if one does.
    pub fn rest(&self) -> Option<u64>
        ensures { result ≡ start_in self.now.found }
    {
        match self.found {
            Some(found) => Some(found.label.start),
            None => None,
        }
    }

    /// The start of the next dump, once its label is written.
    pub fn next_start(&self) -> Option<u64>
        ensures { result ≡ option_map (λ label. label.start) self.now.next }
    {
        match self.next {
            Some(label) => Some(label.start),
            None => None,
        }
    }

    /// How many blocks of the next body are written, where it is begun.
    pub fn filled(&self) -> Option<u32>
        ensures { result ≡ self.now.filled }
    {
        self.filled
    }

    /// The volume whose dumps it holds.
    pub fn volume(&self) -> u8
        ensures { result ≡ self.now.volume }
    {
        self.volume
    }

    /// The device.
    pub fn into_device(self) -> D
        ensures { result ≡ self.device }
    {
        let DumpFile { device, .. } = self;
        Box::into_inner(device)
    }

    /// The label of the next dump, which begins at this position.
    fn next_label(&self, start: u64) -> DumpLabel
        requires start { IsWithin 1 4611686018427387904 start }
        requires volume { IsWithin 1 8 self.now.volume }
        ensures label { result ≡ next_label self.now start }
        ensures valid { IsDumpLabel result }
    {
        DumpLabel {
            volume: self.volume,
            body: next_body(self.found),
            start,
            sequence: next_sequence(self.found),
        }
    }

    /// Begins the body of the next dump, in the file that the dump which stands does not name. No label is written or in doubt.
    pub fn begin_body(&mut self) -> Result<(), DiskFault>
        requires certain { self.old.next ≡ None }
        ensures begun { IsTrue (D.tells self.old.device) → OnOk result (HoldsBody D.held self.new []) }
        ensures holds { IsTrue (D.tells self.old.device) → HoldsDump D.held self.old → HoldsDump D.held self.new }
        ensures others { IsTrue (D.tells self.old.device) → Elsewhere (next_body self.old.found) (D.held self.old.device) (D.held self.new.device) }
        ensures filled { MatchResult result (λ _. self.new.filled ≡ Some 0) (λ _. self.new.filled ≡ None) }
        ensures same { IsSameDump self.old self.new }
        ensures works { WorksOn D.Disk self.old.device self.new.device result }
    {
        self.filled = None;
        self.whole = false;
        match create_body(&mut *self.device, u32::from(next_body(self.found))) {
            Ok(()) => {
                self.filled = Some(0);
                Ok(())
            }
            Err(fault) => Err(fault),
        }
    }

    /// Writes the next block of the body that was begun.
    pub fn put_block(&mut self, block: &[u8]) -> Result<(), DiskFault>
        requires begun { MatchOption self.old.filled ⊥ (λ n. n < 65536) }
        requires certain { self.old.next ≡ None }
        requires block { length block.now ≡ BLOCK_BYTES }
        ensures body { (text : List ℕ) → IsTrue (D.tells self.old.device) → HoldsBody D.held self.old text → OnOk result (HoldsBody D.held self.new (text ++ block.now)) }
        ensures holds { IsTrue (D.tells self.old.device) → HoldsDump D.held self.old → HoldsDump D.held self.new }
        ensures others { IsTrue (D.tells self.old.device) → Elsewhere (next_body self.old.found) (D.held self.old.device) (D.held self.new.device) }
        ensures filled { (n : ℕ) → self.old.filled ≡ Some n → MatchResult result (λ _. self.new.filled ≡ Some (n + 1)) (λ _. self.new.filled ≡ None) }
        ensures same { IsSameDump self.old self.new }
        ensures works { WorksOn D.Disk self.old.device self.new.device result }
    {
        let Some(number) = self.filled.take() else {
            unreachable!()
        };
        match append_block(
            &mut *self.device,
            u32::from(next_body(self.found)),
            number,
            block,
        ) {
            Ok(()) => {
                self.filled = Some(number + 1);
                Ok(())
            }
            Err(fault) => Err(fault),
        }
    }

    /// Takes the body that was begun off risk.
    pub fn finish_body(&mut self) -> Result<(), DiskFault>
        requires { IsSome self.old.filled }
        ensures body { (text : List ℕ) → IsTrue (D.tells self.old.device) → HoldsBody D.held self.old text → OnOk result (IsThere (D.held self.new.device) (next_body self.old.found) (IsWholeBody text)) }
        ensures holds { IsTrue (D.tells self.old.device) → HoldsDump D.held self.old → HoldsDump D.held self.new }
        ensures others { IsTrue (D.tells self.old.device) → Elsewhere (next_body self.old.found) (D.held self.old.device) (D.held self.new.device) }
        ensures whole { OnOk result (self.new.whole ≡ true) }
        ensures unfilled { self.new.filled ≡ None }
        ensures same { IsSameDump self.old self.new }
        ensures works { WorksOn D.Disk self.old.device self.new.device result }
    {
        self.filled = None;
        self.whole = false;
        match finish_body(&mut *self.device, u32::from(next_body(self.found))) {
            Ok(()) => {
                self.whole = true;
                Ok(())
            }
            Err(fault) => Err(fault),
        }
    }

    /// Writes the label of the next dump, whose body is finished, where no image shows it.
    pub fn write_label(&mut self, start: u64) -> Result<(), DiskFault>
        requires start { IsWithin 1 4611686018427387904 start }
        requires volume { IsWithin 1 8 self.old.volume }
        requires none { self.old.next ≡ None }
        requires whole { self.old.whole ≡ true }
        ensures written { MatchResult result (λ _. HasWritten self.old self.new start) (λ _. IsUnwritten self.old self.new) }
        ensures holds { IsTrue (D.tells self.old.device) → HoldsDump D.held self.old → HoldsDump D.held self.new }
        ensures others { IsTrue (D.tells self.old.device) → Elsewhere 1 (D.held self.old.device) (D.held self.new.device) }
        ensures works { WorksOn D.Disk self.old.device self.new.device result }
    {
        let label = self.next_label(start);
        match write_label(&mut *self.device, self.found, &label) {
            Ok(()) => {
                self.next = Some(label);
                self.offered = false;
                Ok(())
            }
            Err(fault) => Err(fault),
        }
    }

    /// Names the label that was written: the next dump then stands. After a fault an image may have the one that stood before or this one, and the next call
    /// tries again.
    pub fn seal(&mut self) -> Result<(), DiskFault>
        requires { IsSome self.old.next }
        ensures sealed { (label : Label) → self.old.next ≡ Some label → OnOk result (HasSealed self.old self.new label) }
        ensures offered { OnErr result (HasOffered self.old self.new) }
        ensures holds { IsTrue (D.tells self.old.device) → HoldsDump D.held self.old → HoldsDump D.held self.new }
        ensures others { IsTrue (D.tells self.old.device) → Elsewhere 1 (D.held self.old.device) (D.held self.new.device) }
        ensures works { WorksOn D.Disk self.old.device self.new.device result }
    {
        let Some(label) = self.next else {
            unreachable!()
        };
        match name_label(&mut *self.device, self.found) {
            Ok(()) => {
                let slot = next_slot(self.found);
                self.found = Some(SealedDump { label, slot });
                self.next = None;
                self.filled = None;
                self.whole = false;
                Ok(())
            }
            Err(fault) => {
                self.offered = true;
                Err(fault)
            }
        }
    }

    /// What each image of a dump device says: as the dump that was found, or as the next one, once its label is offered.
    pub fn every_image()
        ensures { (view : DumpView D) (image : Held) → HoldsDump D.held view → Leaves (D.held view.device) image → ShowsDumpLabel view image }
    {}

    /// What each image of a dump device has of a finished body: its bytes from the beginning on.
    pub fn every_body()
        ensures { (held image : Held) (body : ℕ) (text : List ℕ) → IsThere held body (IsWholeBody text) → Leaves held image → 0 < length text → IsThere image body (λ f. IsSpelledAt f.bytes 0 text) }
    {}
}

/// The file of the next body.
fn next_body(found: Option<SealedDump>) -> u8
    requires { IfSome found (λ dump. IsWithin 2 3 dump.label.body) }
    ensures body { result ≡ next_body found }
    ensures within { IsWithin 2 3 result }
{
    match found {
        None => 2,
        Some(dump) => 5 - dump.label.body,
    }
}

/// The number of the next dump.
fn next_sequence(found: Option<SealedDump>) -> u64
    ensures sequence { result ≡ next_sequence found }
    ensures some { IsWithin 1 18446744073709551615 result }
{
    match found {
        None => 1,
        Some(dump) => dump.label.sequence.saturating_add(1),
    }
}

/// The slot of the next label.
fn next_slot(found: Option<SealedDump>) -> u8
    requires { IfSome found (λ dump. dump.slot < 2) }
    ensures slot { result ≡ next_slot found }
    ensures small { result < 2 }
{
    match found {
        None => 0,
        Some(dump) => 1 - dump.slot,
    }
}
