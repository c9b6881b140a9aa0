//! A place in a trail, from which its records are read.
ghost use Rattle.std.specs.Prelude.{◌≡◌, ◌≢◌, ◌⊎◌, ◌↔◌, [], ◌<◌, ◌≤◌, ◌+◌, ◌*◌, ◌^◌, ◌∷◌, ◌++◌, ℕ, List, length, true, false, vec_len, None, IsTrue, IsSome, IfSome, IfNone, MatchOption, IfOk, IfErr, OnOk, OnErr};
ghost use Rattle.disk_model.specs.Frame.{IsLater};
ghost use Rattle.disk_model.specs.Held.{Rose, IfThere, IsThere, read_of};
ghost use Rattle.trail_files.specs.declared.rules.Rules.{Rules};
ghost use Rattle.trail_files.specs.Format.{text};
ghost use Rattle.trail_files.specs.Text.{head};
ghost use Rattle.trail_files.specs.Fault.{IsUndamaged};
ghost use Rattle.trail_files.specs.Damaged.{IsReadDamage};
ghost use Rattle.trail_files.specs.Scanned.{TellsOnly};

use crate::batch::VERSION;
use crate::damage::{DamageKind, TrailFault};
use crate::rules::Rules;
use crate::scan::{Extent, count_at, damaged, read_all};
use crate::spelled::Spelled;
use disk_model::Disk;

// No file of a device is longer.
const LONGEST: u64 = 1 << 63;

// Where the number stands in a record of either kind.
const NUMBER_AT: u64 = 16;

/// A place in a trail: in front of a record, or behind the last one.
#[derive(Clone, Copy, Debug, PartialEq, Eq)]
pub struct Cursor {
    file: u32,
    // Where the next record stands, or the next gate if no record is left of a batch.
    at: u64,
    left: u32,
    pub(crate) place: u128,
}

impl Cursor {
    ghost use Rattle.trail_files.specs.Cursor.{Leads, IsBefore};
    ghost use Rattle.trail_files.specs.Content.{Placed};
    ghost use Rattle.trail_files.specs.Next.{IsNextGate, IsNextRecord, IsHeadFault, IsRecordFault, IsNextDamage};
    ghost use Rattle.trail_files.specs.Trail.{StartsAt};

    /// In front of the first record of a trail with this least file.
    pub(crate) fn first(least: u32) -> Self
        ensures { result ≡ record { file = least; at = 0; left = 0; place = 1 } }
    {
        Cursor {
            file: least,
            at: 0,
            left: 0,
            place: 1,
        }
    }

    /// The file of the record that was read last, or the trail's least file in front of the first one.
    pub fn file(&self) -> u32
        ensures { result ≡ self.now.file }
    {
        self.file
    }

    // Goes on behind a batch: into the next one, or behind a roll batch to the next file.
    fn step<D: Disk, R: Spelled>(self, device: &mut D) -> Result<Cursor, TrailFault>
        requires none { self.left ≡ 0 }
        ensures works { IsLater D.Disk device.old device.new }
        ensures same { D.held device.new ≡ D.held device.old }
        ensures leads { (rules : Rules) (last gate : ℕ) (rest : List (Placed R)) → IsTrue (D.tells device.old)
            → Leads (R.format rules) (D.held device.old) last gate self rest → IsBefore last gate self
            → IfOk result (λ c. Leads (R.format rules) (D.held device.old) last gate c rest) }
        ensures further { IfOk result (λ c. ((c.file ≡ self.file) × (0 < c.left)) ⊎ ((c.file ≡ self.file + 1) × (c.left ≡ 0))) }
        ensures reads { IsTrue (D.tells device.old) → IfOk result (λ c.
            (read_of (D.held device.old self.file) self.at 16 ≡ 1 ∷ head c.left)
            × (((c.file ≡ self.file) × (c.at ≡ self.at + 16)) ⊎ ((c.file ≡ self.file + 1) × (c.at ≡ 0) × (c.left ≡ 0)))) }
        ensures place { IfOk result (λ c. c.place ≡ self.place) }
        ensures undamaged { (rules : Rules) (last gate : ℕ) (rest : List (Placed R)) → IsTrue (D.tells device.old)
            → Leads (R.format rules) (D.held device.old) last gate self rest → IsBefore last gate self
            → IfErr result IsUndamaged }
        ensures damaged { (rules : Rules) → IsTrue (D.tells device.old)
            → IfErr result (TellsOnly (IsHeadFault (R.format rules).most (D.held device.old) self.file self.at)) }
        ensures no_memory { IfErr result (λ e. e ≢ TrailFault.NoMemory) }
        ensures cause { IfErr result (λ e. e ≡ TrailFault.Failed
            → Rose (D.faults device.old) (D.faults device.new)) }
    {
        if self.at >= LONGEST {
            return Err(damaged(self.file, self.at, DamageKind::Short));
        }
        let left = count_at(device, self.file, self.at, R::most())?;
        if left == 0 {
            return Ok(Cursor {
                file: self.file + 1,
                at: 0,
                left: 0,
                place: self.place,
            });
        }
        Ok(Cursor {
            file: self.file,
            at: self.at + 16,
            left,
            place: self.place,
        })
    }

    // Whether no gate of a trail is left behind it.
    fn is_at_end(self, end: Extent) -> bool
        ensures exact { result ≡ false ↔ IsBefore end.file end.gate self }
    {
        self.file > end.file || (self.file == end.file && self.at >= end.gate)
    }

    // Goes into the next batch that has records, if no record is left of this one and the trail is not at its end.
    fn enter<D: Disk, R: Spelled>(self, device: &mut D, end: Extent) -> Result<Cursor, TrailFault>
        ensures works { IsLater D.Disk device.old device.new }
        ensures same { D.held device.new ≡ D.held device.old }
        ensures enters { (rules : Rules) (rest : List (Placed R)) → IsTrue (D.tells device.old)
            → Leads (R.format rules) (D.held device.old) end.file end.gate self rest
            → IfOk result (λ c. Leads (R.format rules) (D.held device.old) end.file end.gate c rest) }
        ensures end { IfOk result (λ c. c.left ≡ 0 → IsBefore end.file end.gate c → ⊥) }
        ensures next { IsTrue (D.tells device.old)
            → IfOk result (λ c. 0 < c.left → IsNextRecord (D.held device.old) self c.file c.at) }
        ensures rises { IfOk result (λ c. self.file ≤ c.file) }
        ensures within { IfOk result (λ c. 0 < c.left → self.file ≤ end.file → c.file ≤ end.file) }
        ensures place { IfOk result (λ c. c.place ≡ self.place) }
        ensures undamaged { (rules : Rules) (rest : List (Placed R)) → IsTrue (D.tells device.old)
            → Leads (R.format rules) (D.held device.old) end.file end.gate self rest
            → IfErr result IsUndamaged }
        ensures damaged { (rules : Rules) → IsTrue (D.tells device.old)
            → IfErr result (TellsOnly (λ d. (gate : ℕ) × IsNextGate (D.held device.old) self d.file gate
            × IsHeadFault (R.format rules).most (D.held device.old) d.file gate d)) }
        ensures no_memory { IfErr result (λ e. e ≢ TrailFault.NoMemory) }
        ensures cause { IfErr result (λ e. e ≡ TrailFault.Failed
            → Rose (D.faults device.old) (D.faults device.new)) }
    {
        let mut inside = self;
        while inside.left == 0 && !inside.is_at_end(end) {
            inside = inside.step::<D, R>(device)?;
        }
        Ok(inside)
    }

    // Goes on to the second file of a trail whose least one is not there, as its removal was refused and yet done.
    fn begin<D: Disk>(self, device: &mut D, end: Extent) -> Result<Cursor, TrailFault>
        ensures works { IsLater D.Disk device.old device.new }
        ensures same { D.held device.new ≡ D.held device.old }
        ensures there { IsTrue (D.tells device.old) → IsSome (D.held device.old self.file)
            → IfOk result (λ c. c ≡ self) }
        ensures not_there { IsTrue (D.tells device.old) → D.held device.old self.file ≡ None
            → self.file ≡ end.least → self.at ≡ 0 → self.left ≡ 0 → end.least < end.file
            → IfOk result (λ c. c ≡ record self { file = self.file + 1 }) }
        ensures starts { IsTrue (D.tells device.old)
            → IfOk result (λ c. StartsAt (D.held device.old) end.least self c) }
        ensures place { IfOk result (λ c. c.place ≡ self.place) }
        ensures rises { IfOk result (λ c. self.file ≤ c.file) }
        ensures within { IfOk result (λ c. self.file ≤ end.file → c.file ≤ end.file) }
        ensures failed { IfErr result (λ e. e ≡ TrailFault.Failed) }
        ensures cause { IfErr result (λ e. e ≡ TrailFault.Failed
            → Rose (D.faults device.old) (D.faults device.new)) }
    {
        let is_first = self.file == end.least && self.at == 0 && self.left == 0;
        if is_first && end.least < end.file && device.length(self.file)?.is_none() {
            return Ok(Cursor {
                file: self.file + 1,
                at: self.at,
                left: self.left,
                place: self.place,
            });
        }
        Ok(self)
    }

    // Takes the next record of a batch.
    fn take<D: Disk, R: Spelled>(
        self,
        device: &mut D,
        rules: &Rules,
        room: &mut [u8],
    ) -> Result<(Cursor, R), TrailFault>
        requires room { length room.old ≡ R.record_length }
        requires some { 0 < self.left }
        requires few { self.place + 1 < 2 ^ 128 }
        ensures works { IsLater D.Disk device.old device.new }
        ensures same { D.held device.new ≡ D.held device.old }
        ensures takes { (last gate : ℕ) (item : R) (rest : List (Placed R)) → IsTrue (D.tells device.old)
            → Leads (R.format rules.now) (D.held device.old) last gate self ((self.file, item) ∷ rest)
            → IfOk result (λ t. (t.1 ≡ item) × Leads (R.format rules.now) (D.held device.old) last gate t.0 rest) }
        ensures file { IfOk result (λ t. t.0.file ≡ self.file) }
        ensures place { IfOk result (λ t. t.0.place ≡ self.place + 1) }
        ensures undamaged { (last gate : ℕ) (item : R) (rest : List (Placed R)) → IsTrue (D.tells device.old)
            → Leads (R.format rules.now) (D.held device.old) last gate self ((self.file, item) ∷ rest)
            → IfErr result IsUndamaged }
        ensures damaged { IsTrue (D.tells device.old)
            → IfErr result (TellsOnly (IsRecordFault (R.format rules.now) (R.bad_field rules.now) R.record_length (D.held device.old) self.place self.file self.at)) }
        ensures no_memory { IfErr result (λ e. e ≢ TrailFault.NoMemory) }
        ensures cause { IfErr result (λ e. e ≡ TrailFault.Failed
            → Rose (D.faults device.old) (D.faults device.new)) }
    {
        let size = R::length(VERSION);
        let at = self.at;
        if at >= LONGEST {
            return Err(damaged(self.file, at, DamageKind::Short));
        }
        read_all(device, self.file, at, room)?;
        let item = spelled_at::<R>(self.file, at, self.place, room, rules)?;
        let behind = Cursor {
            file: self.file,
            at: at + u64::from(size),
            left: self.left - 1,
            place: self.place + 1,
        };
        Ok((behind, item))
    }

    /// Takes the next record of a trail; none where its last gate is reached.
    pub(crate) fn take_next<D: Disk, R: Spelled>(
        &mut self,
        device: &mut D,
        end: Extent,
        rules: &Rules,
        room: &mut Vec<u8>,
    ) -> Result<Option<R>, TrailFault>
        requires room { R.record_length ≤ vec_len room.old }
        requires few { self.old.place + 1 < 2 ^ 128 }
        ensures room { vec_len room.new ≡ vec_len room.old }
        ensures works { IsLater D.Disk device.old device.new }
        ensures same { D.held device.new ≡ D.held device.old }
        ensures takes { (start : Cursor) (rest : List (Placed R)) → IsTrue (D.tells device.old)
            → StartsAt (D.held device.old) end.least self.old start
            → Leads (R.format rules.now) (D.held device.old) end.file end.gate start rest
            → IfOk result (λ next. MatchOption next (rest ≡ [])
            (λ item. (more : List (Placed R)) × (rest ≡ (self.new.file, item) ∷ more)
            × Leads (R.format rules.now) (D.held device.old) end.file end.gate self.new more)) }
        ensures err { OnErr result (self.new ≡ self.old) }
        ensures none { IfOk result (λ next. IfNone next (self.new ≡ self.old)) }
        ensures rises { IfOk result (λ next. IfSome next (λ _. self.old.file ≤ self.new.file)) }
        ensures within { self.old.file ≤ end.file → IfOk result (λ next. IfSome next (λ _. self.new.file ≤ end.file)) }
        ensures place { IfOk result (λ next. IfSome next (λ _. self.new.place ≡ self.old.place + 1)) }
        ensures undamaged { (start : Cursor) (rest : List (Placed R)) → IsTrue (D.tells device.old)
            → StartsAt (D.held device.old) end.least self.old start
            → Leads (R.format rules.now) (D.held device.old) end.file end.gate start rest
            → IfErr result IsUndamaged }
        ensures damaged { IsTrue (D.tells device.old)
            → IfErr result (TellsOnly (λ d. (start : Cursor) × StartsAt (D.held device.old) end.least self.old start
            × IsNextDamage (R.format rules.now) (R.bad_field rules.now) R.record_length (D.held device.old) start d)) }
        ensures no_memory { IfErr result (λ e. e ≢ TrailFault.NoMemory) }
        ensures cause { IfErr result (λ e. e ≡ TrailFault.Failed
            → Rose (D.faults device.old) (D.faults device.new)) }
    {
        let start = self.begin(device, end)?;
        let inside = start.enter::<D, R>(device, end)?;
        if inside.left == 0 {
            return Ok(None);
        }
        let size = R::length(VERSION) as usize;
        let (behind, item) = inside.take::<D, R>(device, rules, &mut room[..size])?;
        *self = behind;
        Ok(Some(item))
    }
}

// The record that bytes at an offset of a file spell, with the number that its place asks for.
fn spelled_at<R: Spelled>(
    file: u32,
    at: u64,
    place: u128,
    bytes: &[u8],
    rules: &Rules,
) -> Result<R, TrailFault>
    requires length { length bytes.now ≡ R.record_length }
    requires short { at < 2 ^ 63 }
    ensures only { (item : R) → (R.format rules.now).valid item ≡ true
        → bytes.now ≡ text (R.format rules.now) item place → result ≡ Ok item }
    ensures wrong { IfErr result (TellsOnly (λ d. (offset : ℕ) × (d.file ≡ file) × (d.at ≡ at + offset)
        × IsReadDamage (R.format rules.now) (R.bad_field rules.now) R.record_length place bytes.now offset d.kind)) }
    ensures damaged { IfErr result (λ e. e ≢ TrailFault.Failed × e ≢ TrailFault.NoMemory) }
{
    match R::read(VERSION, bytes, rules) {
        Ok((item, number)) => {
            if number == item.number(place) {
                Ok(item)
            } else {
                Err(damaged(file, at + NUMBER_AT, DamageKind::Order))
            }
        }
        Err(offset) => Err(damaged(file, at + u64::from(offset), DamageKind::BadRecord)),
    }
}
