//! A trail, and the two steps in which a batch lands.
ghost use Rattle.std.specs.Prelude.{◌≡◌, ◌≢◌, ◌⊎◌, ◌<◌, ◌≤◌, ◌+◌, ◌*◌, ◌^◌, ◌++◌, ◌∷◌, [], ℕ, List, length, max, vec_len, true, false, None, Some, IsTrue, IfOk, IfErr, OnOk, OnErr, MatchResult};
ghost use Rattle.disk_model.specs.Frame.{IsLater, WorksOn};
ghost use Rattle.disk_model.specs.Held.{HasCause, Rose, IsThere, Elsewhere};
ghost use Rattle.trail_files.specs.declared.rules.Rules.{Rules};
ghost use Rattle.trail_files.specs.declared.damage.Damage.{Damage};
ghost use Rattle.trail_files.specs.Format.{text, AllValid};
ghost use Rattle.trail_files.specs.Text.{body};
ghost use Rattle.trail_files.specs.Landed.{IsSettled};
ghost use Rattle.trail_files.specs.Put.{Put, Left};

use crate::audit_record::AuditRecord;
use crate::batch::{VERSION, fill};
use crate::buffered::Buffered;
use crate::clear::{clear_below, start_over};
use crate::cursor::Cursor;
use crate::damage::TrailFault;
use crate::rules::Rules;
use crate::scan::{Extent, scan};
use crate::spelled::Spelled;
use disk_model::{Disk, DiskFault};
use std::alloc::Global;
use std::marker::{Model, PhantomData};

/// The number of a trail's first file.
const FIRST_FILE: u32 = 1;

/// How far apart two reads of one file stand at least: the buffer has room for the longest batch besides.
const STEP: usize = 16 * 1024;

/// Between which steps a trail stands.
#[derive(Clone, Copy, Debug, PartialEq, Eq)]
pub enum TrailPhase {
    /// No batch is loaded.
    Ready,
    /// A batch is loaded behind a closed gate.
    Loaded,
    /// Its gate may be open.
    Offered,
    /// The next file is there, and the gate of a roll batch may be open.
    RollOffered,
}

/// A trail: files of batches, of which the last one is written.
#[derive(Drop)]
pub struct Trail<D: Disk, R: Spelled> {
    device: Box<Buffered<D>>,
    rules: Rules,
    phase: TrailPhase,
    // The numbers of the least file and of the present one.
    least: u32,
    file: u32,
    // Where in the present file the gate stands behind the landed batches.
    gate: u64,
    // How many records have landed.
    places: u128,
    // Of the loaded batch: how many bytes lie behind its gate, with the next gate, and how many records.
    size: u64,
    count: u64,
    // Room for the bytes of one batch.
    room: Vec<u8>,
    records: PhantomData<R>,
}

impl<D: Disk, R: Spelled> Model for Trail<D, R> {
    ghost use Rattle.std.specs.Prelude.{◌≡◌, ◌≤◌, ◌+◌, ◌*◌, vec_len};
    ghost use Rattle.trail_files.specs.Trail.{View, IsTrail};

    ghost Value = { View D };

    ghost view = { λ t. record { device = t.device.value; rules = t.rules; phase = t.phase; least = t.least; file = t.file; gate = t.gate; places = t.places; size = t.size; count = t.count } };

    ghost invariant = { λ t. (vec_len t.room ≡ 16 + (R.format t.rules).most * R.record_length)
        × (R.record_length ≤ vec_len t.room)
        × IsTrail (record { device = t.device.value; rules = t.rules; phase = t.phase; least = t.least; file = t.file; gate = t.gate; places = t.places; size = t.size; count = t.count }) };
}

// Writes bytes into a file and syncs it.
fn put<D: Disk>(device: &mut D, file: u32, at: u64, bytes: &[u8]) -> Result<(), DiskFault>
    requires { IsTrue (D.tells device.old)
        → IsThere (D.held device.old) file (λ f. at ≤ length f.bytes) }
    ensures works { WorksOn D.Disk device.old device.new result }
    ensures others { IsTrue (D.tells device.old)
        → Elsewhere file (D.held device.old) (D.held device.new) }
    ensures ok { IsTrue (D.tells device.old)
        → OnOk result (Put file (D.held device.old) (D.held device.new) at bytes.now) }
    ensures err { IsTrue (D.tells device.old)
        → OnErr result (Left file (D.held device.old) (D.held device.new) at bytes.now) }
    ensures small { OnOk result (at + length bytes.now < 2 ^ 63) }
{
    device.write(file, at, bytes)?;
    device.sync(file)
}

// Puts a batch behind a gate, and a closed gate behind it. It answers how many bytes that are.
fn stage<D: Disk, R: Spelled>(
    device: &mut D,
    file: u32,
    gate: u64,
    room: &mut Vec<u8>,
    records: &[R],
    place: u128,
) -> Result<u64, DiskFault>
    requires told { IsTrue (D.tells device.old)
        → IsThere (D.held device.old) file (λ f. gate + 1 ≤ length f.bytes) }
    requires gate { gate < 2 ^ 63 }
    requires few { length records.now < 2 ^ 32 }
    requires places { place + length records.now < 2 ^ 128 }
    requires fits { 16 + length records.now * R.record_length ≤ vec_len room.old }
    ensures room { vec_len room.new ≡ vec_len room.old }
    ensures works { WorksOn D.Disk device.old device.new result }
    ensures others { IsTrue (D.tells device.old)
        → Elsewhere file (D.held device.old) (D.held device.new) }
    ensures size { IfOk result (λ size. size ≡ 16 + length records.now * R.record_length) }
    ensures count { IfOk result (λ size. length records.now ≤ size) }
    ensures small { IfOk result (λ size. gate + size < 2 ^ 63) }
    ensures ok { (rules : Rules) → IsTrue (D.tells device.old)
        → OnOk result (Put file (D.held device.old) (D.held device.new) (gate + 1) (body (text (R.format rules)) place records.now ++ 0 ∷ [])) }
    ensures err { (rules : Rules) → IsTrue (D.tells device.old)
        → OnErr result (Left file (D.held device.old) (D.held device.new) (gate + 1) (body (text (R.format rules)) place records.now ++ 0 ∷ [])) }
{
    let size = 16 + records.len() * R::length(VERSION) as usize;
    let bytes = &mut room[..size];
    fill(records, place, bytes);
    put(device, file, gate + 1, bytes)?;
    Ok(size as u64)
}

impl<D: Disk, R: Spelled> Trail<D, R> {
    ghost use Rattle.std.specs.Borrow.{sem, Lends};
    ghost use Rattle.std.specs.List.{AllByRecursion};
    ghost use Rattle.trail_files.specs.contracts.trail.Trail.{the_row};
    ghost use Rattle.disk_model.specs.Held.{Held, Leaves};
    ghost use Rattle.trail_files.specs.Calls.{HasFormatCause, HasReadCause, KeepsContent, Passes, StandsLanded, StandsRolled, TellsDamage, TellsNextDamage};
    ghost use Rattle.trail_files.specs.Damaged.{IsDamagedAt};
    ghost use Rattle.trail_files.specs.declared.cursor.Cursor.{Cursor};
    ghost use Rattle.trail_files.specs.Removed.{IsHalfFormatted};
    ghost use Rattle.trail_files.specs.Text.{Spells};
    ghost use Rattle.trail_files.specs.Content.{Placed, Content, IsAtRest, below_file, from_file, in_file, records_in, no_content, landed_in, batch_of, offered_of, with_loaded, with_landed, with_offered, with_roll, with_next_file, at_risk};
    ghost use Rattle.trail_files.specs.Content.Pending.{Nothing};
    ghost use Rattle.trail_files.specs.Holds.{Holds, Keeps, MaySpell};
    ghost use Rattle.trail_files.specs.Trail.{View, Rests, Reads, Ahead, IsWritable, with_device, fits_in};

    // A trail over a device that holds it up to a gate.
    fn over(device: Box<Buffered<D>>, rules: Rules, room: Vec<u8>, end: Extent) -> Self
        requires room { vec_len room ≡ 16 + (R.format rules).most * R.record_length }
        requires one { R.record_length ≤ vec_len room }
        requires short { end.gate < 2 ^ 63 }
        requires few { end.places ≤ end.file * 2 ^ 63 + end.gate }
        requires told { IsTrue (D.tells device.value)
            → IsThere (D.held device.value) end.file (λ f. end.gate < length f.bytes) }
        ensures writable { IsWritable D.tells D.held result }
        ensures view { result ≡ record { device = device.value; rules = rules; phase = TrailPhase.Ready; least = end.least; file = end.file; gate = end.gate; places = end.places; size = 0; count = 0 } }
    {
        Trail {
            device,
            rules,
            phase: TrailPhase::Ready,
            least: end.least,
            file: end.file,
            gate: end.gate,
            places: end.places,
            size: 0,
            count: 0,
            room,
            records: PhantomData,
        }
    }

    // The device in a box, with a buffer to read it by, and room for one batch.
    fn room_for(alloc: Global, device: D) -> Result<(Box<Buffered<D>>, Vec<u8>), D>
        ensures device { MatchResult result (λ made. made.0.value ≡ device) (λ d. d ≡ device) }
        ensures room { (rules : Rules)
            → IfOk result (λ made. vec_len made.1 ≡ 16 + (R.format rules).most * R.record_length) }
        ensures one { IfOk result (λ made. R.record_length ≤ vec_len made.1) }
    {
        let size = 16 + R::most() as usize * R::length(VERSION) as usize;
        let (Ok(room), Ok(buffer)) = (vec![in alloc; 0; size], vec![in alloc; 0; STEP + size])
        else {
            return Err(device);
        };
        match Box::new(alloc, Buffered::new(device, buffer)) {
            Ok(boxed) => Ok((boxed, room)),
            Err(failed) => Err(failed.value.into_device()),
        }
    }

    /// Makes an empty trail: it removes the files that are there, in rising order, and makes file 1 with a closed gate.
    /// A refusal leaves the trail that was there as it was, or without its first files, or none but a new file 1.
    pub fn format(alloc: Global, device: D, rules: Rules) -> Result<Self, (D, TrailFault)>
        ensures keeps { MatchResult result (λ t. IsLater D.Disk device t.device)
            (λ e. IsLater D.Disk device e.0) }
        ensures holds { IfOk result (λ t. Holds D.Disk R.format t no_content) }
        ensures opens { IfOk result (λ t. (t.phase ≡ TrailPhase.Ready) × (t.rules ≡ rules) × (t.gate ≡ 0) × IsWritable D.tells D.held t) }
        ensures others { IsTrue (D.tells device)
            → IfOk result (λ t. (n : ℕ) → n ≢ 1 → D.held t.device n ≡ None) }
        ensures left { IsTrue (D.tells device)
            → IfErr result (λ e. IsHalfFormatted (D.held device) (D.held e.0)) }
        ensures cause { IfErr result (λ e. HasFormatCause D.Disk device e.0 e.1) }
    {
        match Self::room_for(alloc, device) {
            Err(device) => Err((device, TrailFault::NoMemory)),
            Ok((mut boxed, room)) => match start_over(&mut *boxed, FIRST_FILE) {
                Ok(()) => {
                    let end = Extent {
                        least: FIRST_FILE,
                        file: FIRST_FILE,
                        gate: 0,
                        places: 0,
                    };
                    Ok(Self::over(boxed, rules, room, end))
                }
                Err(_) => Err((Box::into_inner(boxed).into_device(), TrailFault::Failed)),
            },
        }
    }

    /// Opens the trail that a device holds, from its least file up to the first closed gate. It writes nothing.
    ///
    /// Where the device tells its bytes, it answers the records that they spell, or the first place that breaks the format.
    pub fn attach(alloc: Global, device: D, rules: Rules) -> Result<Self, (D, TrailFault)>
        ensures keeps { MatchResult result (λ t. IsLater D.Disk device t.device)
            (λ e. IsLater D.Disk device e.0) }
        ensures holds { (records : List R) → (IsTrue (D.tells device) → Rests (R.format rules) (D.held device) records)
            → IfOk result (λ t. (content : Content R) × IsAtRest content records × Holds D.Disk R.format t content) }
        ensures reads { (records : List R) → IsTrue (D.tells device)
            → Spells (R.format rules) (D.held device) records
            → IfOk result (λ t. Reads D.held R.format t records) }
        ensures opens { IfOk result (λ t. (t.phase ≡ TrailPhase.Ready) × (t.rules ≡ rules) × IsWritable D.tells D.held t) }
        ensures damage { TellsDamage D.Disk (R.format rules) (R.damage rules) R.record_length device result }
        ensures same { MatchResult result (λ t. D.held t.device ≡ D.held device)
            (λ e. D.held e.0 ≡ D.held device) }
        ensures cause { IfErr result (λ e. e.1 ≡ TrailFault.Failed
            → Rose (D.faults device) (D.faults e.0)) }
    {
        match Self::room_for(alloc, device) {
            Err(device) => Err((device, TrailFault::NoMemory)),
            Ok((mut boxed, mut room)) => {
                match scan::<Buffered<D>, R>(alloc, &mut *boxed, &rules, &mut room) {
                    Ok(end) => Ok(Self::over(boxed, rules, room, end)),
                    Err(fault) => Err((Box::into_inner(boxed).into_device(), fault)),
                }
            }
        }
    }

    /// Whether a batch of so many records may stand in the present file. Otherwise the trail has to roll first.
    pub fn fits(&self, count: u32) -> bool
        ensures exact { result ≡ fits_in R.record_length self.now count }
        ensures more { result ≡ false → self.now.file < 4294967295 }
    {
        let end = u128::from(self.gate) + 16 + u128::from(count) * u128::from(R::length(VERSION));
        self.gate == 0 || end <= u128::from(self.rules.roll) || self.file == u32::MAX
    }

    /// Writes a batch behind the closed gate, with a closed gate behind it, and syncs it.
    pub fn load(&mut self, records: &[R]) -> Result<(), DiskFault>
        requires ready { self.old.phase ≡ TrailPhase.Ready }
        requires some { 0 < length records.now }
        requires most { length records.now ≤ (R.format self.old.rules).most }
        requires valid { AllValid (R.format self.old.rules) records.now }
        requires fits { fits_in R.record_length self.old (length records.now) ≡ true }
        requires writable { IsWritable D.tells D.held self.old }
        ensures keeps { Keeps D.Disk self.old self.new }
        ensures holds { (content : Content R) → Holds D.Disk R.format self.old content
            → (IsTrue (D.tells self.old.device) → (R.format self.old.rules).in_order (landed_in content ++ records.now) ≡ true)
            → MatchResult result (λ _. Holds D.Disk R.format self.new (with_loaded records.now content))
            (λ _. Holds D.Disk R.format self.new (at_risk content)) }
        ensures ahead { (cursor : Cursor) (rest : List (Placed R)) → IsTrue (D.tells self.old.device)
            → Ahead D.held R.format self.old cursor rest
            → Ahead D.held R.format self.new cursor rest }
        ensures writable { IsWritable D.tells D.held self.new }
        ensures phase { MatchResult result (λ _. self.new.phase ≡ TrailPhase.Loaded) (λ _. self.new.phase ≡ TrailPhase.Ready) }
        ensures files { (self.new.least ≡ self.old.least) × (self.new.file ≡ self.old.file) }
        ensures cause { HasCause (D.faults self.old.device) (D.faults self.new.device) result }
    {
        let size = stage(
            &mut *self.device,
            self.file,
            self.gate,
            &mut self.room,
            records,
            self.places + 1,
        )?;
        self.size = size;
        self.count = records.len() as u64;
        self.phase = TrailPhase::Loaded;
        Ok(())
    }

    /// Opens the gate of the loaded batch, and syncs it: the batch has landed. After a fault the next call tries again.
    pub fn gate(&mut self) -> Result<(), DiskFault>
        requires phase { self.old.phase ≢ TrailPhase.Ready }
        requires batch { self.old.phase ≢ TrailPhase.RollOffered }
        requires writable { IsWritable D.tells D.held self.old }
        ensures keeps { Keeps D.Disk self.old self.new }
        ensures holds { (content : Content R) → Holds D.Disk R.format self.old content
            → MatchResult result (λ _. Holds D.Disk R.format self.new (with_landed content))
            (λ _. Holds D.Disk R.format self.new (with_offered content)) }
        ensures ahead { (cursor : Cursor) (content : Content R) (rest : List (Placed R)) → IsTrue (D.tells self.old.device)
            → Holds D.Disk R.format self.old content
            → Ahead D.held R.format self.old cursor rest
            → OnOk result (Ahead D.held R.format self.new cursor (rest ++ in_file content.file (batch_of content.pending))) }
        ensures ahead_err { (cursor : Cursor) (rest : List (Placed R)) → IsTrue (D.tells self.old.device)
            → Ahead D.held R.format self.old cursor rest
            → OnErr result (Ahead D.held R.format self.new cursor rest) }
        ensures writable { IsWritable D.tells D.held self.new }
        ensures stands { StandsLanded self.old self.new result }
        ensures cause { HasCause (D.faults self.old.device) (D.faults self.new.device) result }
    {
        self.phase = TrailPhase::Offered;
        put(&mut *self.device, self.file, self.gate, &[1])?;
        self.gate += self.size;
        self.places += u128::from(self.count);
        self.size = 0;
        self.count = 0;
        self.phase = TrailPhase::Ready;
        Ok(())
    }

    // Makes the next file, and puts a roll batch behind the closed gate, its own gate closed.
    fn offer_roll(&mut self) -> Result<(), DiskFault>
        requires ready { self.old.phase ≡ TrailPhase.Ready }
        requires more { self.old.file < 4294967295 }
        requires writable { IsWritable D.tells D.held self.old }
        ensures holds { (content : Content R) → Holds D.Disk R.format self.old content
            → MatchResult result (λ _. Holds D.Disk R.format self.new (with_roll content))
            (λ _. Holds D.Disk R.format self.new (at_risk content)) }
        ensures ahead { (cursor : Cursor) (rest : List (Placed R)) → IsTrue (D.tells self.old.device)
            → Ahead D.held R.format self.old cursor rest
            → Ahead D.held R.format self.new cursor rest }
        ensures writable { IsWritable D.tells D.held self.new }
        ensures phase { MatchResult result (λ _. self.new.phase ≡ TrailPhase.RollOffered) (λ _. self.new.phase ≡ TrailPhase.Ready) }
        ensures files { (self.new.least ≡ self.old.least) × (self.new.file ≡ self.old.file) }
        ensures rules { self.new.rules ≡ self.old.rules }
        ensures device { D.is_same self.old.device self.new.device }
        ensures tells { D.tells self.new.device ≡ D.tells self.old.device }
        ensures cause { HasCause (D.faults self.old.device) (D.faults self.new.device) result }
    {
        self.device.create(self.file + 1)?;
        let size = stage::<Buffered<D>, R>(
            &mut *self.device,
            self.file,
            self.gate,
            &mut self.room,
            &[],
            self.places + 1,
        )?;
        self.size = size;
        self.count = 0;
        self.phase = TrailPhase::RollOffered;
        Ok(())
    }

    // Opens the gate of the roll batch, and goes on in the next file.
    fn land_roll(&mut self) -> Result<(), DiskFault>
        requires offered { self.old.phase ≡ TrailPhase.RollOffered }
        requires more { self.old.file < 4294967295 }
        requires writable { IsWritable D.tells D.held self.old }
        ensures holds { (content : Content R) → Holds D.Disk R.format self.old content
            → MatchResult result (λ _. Holds D.Disk R.format self.new (with_next_file content))
            (λ _. Holds D.Disk R.format self.new (with_roll content)) }
        ensures ahead { (cursor : Cursor) (content : Content R) (rest : List (Placed R)) → IsTrue (D.tells self.old.device)
            → Holds D.Disk R.format self.old content
            → Ahead D.held R.format self.old cursor rest
            → Ahead D.held R.format self.new cursor rest }
        ensures writable { IsWritable D.tells D.held self.new }
        ensures phase { MatchResult result (λ _. self.new.phase ≡ TrailPhase.Ready) (λ _. self.new.phase ≡ TrailPhase.RollOffered) }
        ensures least { self.new.least ≡ self.old.least }
        ensures file { MatchResult result (λ _. (self.new.file ≡ self.old.file + 1) × (self.new.gate ≡ 0)) (λ _. self.new.file ≡ self.old.file) }
        ensures rules { self.new.rules ≡ self.old.rules }
        ensures device { D.is_same self.old.device self.new.device }
        ensures tells { D.tells self.new.device ≡ D.tells self.old.device }
        ensures cause { HasCause (D.faults self.old.device) (D.faults self.new.device) result }
    {
        put(&mut *self.device, self.file, self.gate, &[1])?;
        self.file += 1;
        self.gate = 0;
        self.size = 0;
        self.count = 0;
        self.phase = TrailPhase::Ready;
        Ok(())
    }

    /// Goes on in the next file: it makes that with a closed gate, and lands a roll batch in the present one. No record comes or
    /// goes. After a fault the next call goes on where this one stopped.
    pub fn roll(&mut self) -> Result<(), DiskFault>
        requires phase { (self.old.phase ≡ TrailPhase.Ready) ⊎ (self.old.phase ≡ TrailPhase.RollOffered) }
        requires more { self.old.file < 4294967295 }
        requires writable { IsWritable D.tells D.held self.old }
        ensures keeps { Keeps D.Disk self.old self.new }
        ensures holds { (content : Content R) → Holds D.Disk R.format self.old content
            → MatchResult result (λ _. Holds D.Disk R.format self.new (with_next_file content))
            (λ _. Holds D.Disk R.format self.new (at_risk content) ⊎ Holds D.Disk R.format self.new (with_roll content)) }
        ensures fits { OnOk result ((count : ℕ) → fits_in R.record_length self.new count ≡ true) }
        ensures ahead { (cursor : Cursor) (content : Content R) (rest : List (Placed R)) → IsTrue (D.tells self.old.device)
            → Holds D.Disk R.format self.old content
            → Ahead D.held R.format self.old cursor rest
            → Ahead D.held R.format self.new cursor rest }
        ensures writable { IsWritable D.tells D.held self.new }
        ensures stands { StandsRolled self.old self.new result }
        ensures cause { HasCause (D.faults self.old.device) (D.faults self.new.device) result }
    {
        if self.phase == TrailPhase::RollOffered {
            return self.land_roll();
        }
        self.offer_roll()?;
        self.land_roll()
    }

    /// Between which steps the trail stands.
    pub fn phase(&self) -> TrailPhase
        ensures { result ≡ self.now.phase }
    {
        self.phase
    }

    /// The number of its least file.
    pub fn least_file(&self) -> u32
        ensures { result ≡ self.now.least }
    {
        self.least
    }

    /// The number of the file that is written.
    pub fn present_file(&self) -> u32
        ensures { result ≡ self.now.file }
    {
        self.file
    }

    /// The device of the trail, lent. It has to be left such that `IsWritable` holds before the trail writes again.
    pub fn device(&mut self) -> &mut D
        ensures* lends { sem 𝓛 (Lends (the_row D.row R.row R.Order.row D.Disk R.Spelled) D.row self.entry result (with_device self.old)) }
        ensures value { result.now ≡ self.old.device }
    {
        self.device.device()
    }

    /// The device of the trail.
    pub fn into_device(self) -> D
        ensures { result ≡ self.device }
    {
        let Trail { device, .. } = self;
        Box::into_inner(device).into_device()
    }

    /// A place in front of the first record. Of a trail that has a batch offered `next` gives what has landed, and then none,
    /// whatever stands at the gate.
    pub fn cursor(&self) -> Cursor
        ensures file { result.file ≡ self.now.least }
        ensures holds { (content : Content R) → Holds D.Disk R.format self.now content
            → IsTrue (D.tells self.now.device) → Ahead D.held R.format self.now result content.placed }
        ensures reads { (records : List R) → Reads D.held R.format self.now records
            → (placed : List (Placed R)) × (records_in placed ≡ records) × Ahead D.held R.format self.now result placed }
    {
        Cursor::first(self.least)
    }

    /// The record behind the cursor, which then stands behind that; none behind the last one that has landed.
    pub fn next(&mut self, cursor: &mut Cursor) -> Result<Option<R>, TrailFault>
        ensures frame { KeepsContent D.Disk R.format self.old self.new }
        ensures passes { Passes D.Disk R.format self.old self.new cursor.old cursor.new result }
        ensures damage { TellsNextDamage D.Disk R.format R.bad_field R.record_length self.old cursor.old result }
        ensures cause { HasReadCause (D.faults self.old.device) (D.faults self.new.device) result }
    {
        if cursor.place > self.places {
            return Ok(None);
        }
        let end = Extent {
            least: self.least,
            file: self.file,
            gate: self.gate,
            places: self.places,
        };
        cursor.take_next::<Buffered<D>, R>(&mut *self.device, end, &self.rules, &mut self.room)
    }

    /// What a trail's device spells, now and after any crash.
    pub fn every_image()
        ensures images { (trail : View D) (content : Content R) (image : Held)
            → Holds D.Disk R.format trail content → IsTrue (D.tells trail.device)
            → Leaves (D.held trail.device) image → (R.format trail.rules).may_end (landed_in content) ≡ true
            → (R.format trail.rules).may_end (landed_in content ++ offered_of content.pending) ≡ true
            → MaySpell (R.format trail.rules) content image }
        ensures now { (trail : View D) (content : Content R)
            → Holds D.Disk R.format trail content → IsTrue (D.tells trail.device)
            → content.pending ≡ Nothing → (R.format trail.rules).may_end (landed_in content) ≡ true
            → Spells (R.format trail.rules) (D.held trail.device) (landed_in content) }
        ensures at_rest { (trail : View D) (content : Content R) (records : List R)
            → Holds D.Disk R.format trail content → IsTrue (D.tells trail.device)
            → IsAtRest content records → (R.format trail.rules).may_end records ≡ true
            → Rests (R.format trail.rules) (D.held trail.device) records }
        ensures resting { (rules : Rules) (held image : Held) (records : List R)
            → Rests (R.format rules) held records
            → Leaves held image → Rests (R.format rules) image records }
    {}

    /// A device that holds a trail's content is one that the trail may write on.
    pub fn writes_on()
        ensures { (trail : View D) (content : Content R)
            → Holds D.Disk R.format trail content → IsWritable D.tells D.held trail }
    {}

    /// The records that have landed, with the batch behind them, are in order.
    pub fn in_order()
        ensures orders { (trail : View D) (content : Content R)
            → Holds D.Disk R.format trail content → IsTrue (D.tells trail.device)
            → (R.format trail.rules).in_order (landed_in content ++ batch_of content.pending) ≡ true }
    {}

    /// The records that have landed stand in the trail's files, those of lower files first.
    pub fn in_files()
        ensures split { (trail : View D) (content : Content R) (file : ℕ)
            → Holds D.Disk R.format trail content → IsTrue (D.tells trail.device)
            → content.placed ≡ below_file file content.placed ++ from_file file content.placed }
        ensures within { (trail : View D) (content : Content R)
            → Holds D.Disk R.format trail content → IsTrue (D.tells trail.device)
            → AllByRecursion (λ (x : Placed R). (content.least ≤ x.0) × (x.0 ≤ content.file)) content.placed }
    {}

    /// No spelling of a record begins that of another record, or of the same one with another number.
    pub fn no_prefix()
        ensures whole { (rules : Rules) (a b : R) (n m : ℕ) (rest : List ℕ)
            → (R.format rules).spelling b m ≡ (R.format rules).spelling a n ++ rest → rest ≡ [] }
        ensures prefix { (rules : Rules) (a b : R) (n m : ℕ) (rest : List ℕ)
            → (R.format rules).valid a ≡ true → (R.format rules).valid b ≡ true
            → text (R.format rules) b m ≡ text (R.format rules) a n ++ rest
            → (b ≡ a) × ((R.format rules).number b m ≡ (R.format rules).number a n) × (rest ≡ []) }
    {}

    /// A device spells one list of records at most, or its text has one first damage.
    pub fn one_spelling()
        ensures spelled { (rules : Rules) (held : Held) (xs ys : List R)
            → Spells (R.format rules) held xs → Spells (R.format rules) held ys → xs ≡ ys }
        ensures undamaged { (rules : Rules) (held : Held) (records : List R) (damage : Damage)
            → Spells (R.format rules) held records
            → ¬ IsDamagedAt (R.format rules) (R.damage rules) R.record_length held damage }
        ensures damage { (rules : Rules) (held : Held) (x y : Damage)
            → IsDamagedAt (R.format rules) (R.damage rules) R.record_length held x
            → IsDamagedAt (R.format rules) (R.damage rules) R.record_length held y → x ≡ y }
    {}
}

impl<D: Disk> Trail<D, AuditRecord> {
    ghost use Rattle.trail_files.specs.AuditRecord.{audit_format};
    ghost use Rattle.trail_files.specs.declared.audit_record.AuditRecord.{AuditRecord};
    ghost use Rattle.trail_files.specs.declared.cursor.Cursor.{Cursor};
    ghost use Rattle.trail_files.specs.Content.{Placed, Content, without_below};
    ghost use Rattle.trail_files.specs.Holds.{Holds, Keeps};
    ghost use Rattle.trail_files.specs.Trail.{Ahead};

    /// Removes the files below a number, in rising order, and stops at the first that fails. A file whose removal was refused is
    /// there yet or not. The loaded batch stays. A cursor goes on where its file is not below the number; of others nothing is said.
    pub fn remove_below(&mut self, file: u32) -> Result<(), DiskFault>
        requires present { file ≤ self.old.file }
        ensures keeps { Keeps D.Disk self.old self.new }
        ensures holds { (content : Content AuditRecord) → Holds D.Disk audit_format self.old content
            → MatchResult result (λ _. Holds D.Disk audit_format self.new (without_below self.new.least file content))
            (λ _. (from : ℕ) × (from ≤ file) × Holds D.Disk audit_format self.new (without_below self.new.least from content)) }
        ensures ahead { (cursor : Cursor) (rest : List (Placed AuditRecord)) → IsTrue (D.tells self.old.device)
            → file ≤ cursor.file → Ahead D.held audit_format self.old cursor rest
            → Ahead D.held audit_format self.new cursor rest }
        ensures kept { IsTrue (D.tells self.old.device)
            → (n : ℕ) → file ≤ n → D.held self.new.device n ≡ D.held self.old.device n }
        ensures least { MatchResult result (λ _. self.new.least ≡ max self.old.least file)
            (λ _. (self.old.least ≤ self.new.least) × (self.new.least ≤ max self.old.least file)) }
        ensures rest { (self.new.phase ≡ self.old.phase) × (self.new.file ≡ self.old.file) }
        ensures cause { HasCause (D.faults self.old.device) (D.faults self.new.device) result }
    {
        clear_below(&mut *self.device, &mut self.least, file)
    }
}
