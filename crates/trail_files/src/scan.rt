//! Reading a trail from its first batch to the first closed gate.
ghost use Rattle.std.specs.Prelude.{◌≡◌, ◌≢◌, ◌⊎◌, ◌↔◌, ◌<◌, ◌≤◌, ◌+◌, ◌*◌, ◌^◌, ◌++◌, ◌∷◌, [], ℕ, List, length, take, drop, slice_index, true, false, None, Some, IsTrue, IsSome, IfOk, IfErr, OnOk, OnErr};
ghost use Rattle.disk_model.specs.Frame.{IsLater};
ghost use Rattle.disk_model.specs.Held.{Rose, IfThere, IsThere, IsLeast, read_of};
ghost use Rattle.trail_files.specs.declared.damage.Damage.{Damage};
ghost use Rattle.trail_files.specs.declared.damage.DamageKind.TheVariants.{Missing, Short, NoStart};
ghost use Rattle.trail_files.specs.declared.rules.Rules.{Rules};
ghost use Rattle.trail_files.specs.Format.{text};
ghost use Rattle.trail_files.specs.Text.{body, all_of, head};
ghost use Rattle.trail_files.specs.Fault.{IsUndamaged};
ghost use Rattle.trail_files.specs.Damaged.{first_failed, head_checks, head_damage, batch_damage, IsDamagedAt};
ghost use Rattle.trail_files.specs.Scanned.{AreRecords, IsBatchAt, IsScanned, IsCounted, IsHeadAt, TellsOnly, IsHeadDamage, IsBatchDamage, IsDamageAmong};

use crate::batch::{VERSION, count_of};
use crate::damage::{Damage, DamageKind, TrailFault};
use crate::rules::Rules;
use crate::spelled::{OrderFault, Spelled};
use disk_model::Disk;
use std::alloc::Global;

/// How far a reader has come: at a gate of a file of some length, behind so many records.
#[derive(Clone, Copy)]
pub(crate) struct Reach {
    pub file: u32,
    pub len: u64,
    pub gate: u64,
    pub places: u128,
}

/// Damage, as a call tells it.
pub(crate) fn damaged(file: u32, at: u64, kind: DamageKind) -> TrailFault
    ensures { result ≡ TrailFault.Damaged (record { file = file; at = at; kind = kind }) }
{
    TrailFault::Damaged(Damage { file, at, kind })
}

/// Reads as many bytes as there is room for.
pub(crate) fn read_all<D: Disk>(
    device: &mut D,
    file: u32,
    at: u64,
    into: &mut [u8],
) -> Result<(), TrailFault>
    ensures works { IsLater D.Disk device.old device.new }
    ensures same { D.held device.new ≡ D.held device.old }
    ensures all { IsTrue (D.tells device.old) → OnOk result (IfThere (D.held device.old) file
        (λ f. (at + length into.old ≤ length f.bytes)
        × (into.new ≡ take (length into.old) (drop at f.bytes)))) }
    ensures undamaged { IsTrue (D.tells device.old) → 0 < length into.old
        → IsThere (D.held device.old) file (λ f. at + length into.old ≤ length f.bytes)
        → IfErr result IsUndamaged }
    ensures damaged { IsTrue (D.tells device.old) → 0 < length into.old
        → IfErr result (TellsOnly (λ d. (length (read_of (D.held device.old file) at (length into.old)) < length into.old) × (d ≡ record { file = file; at = at; kind = Short }))) }
    ensures read { IsTrue (D.tells device.old)
        → OnOk result ((into.new ≡ read_of (D.held device.old file) at (length into.old)) × (length (read_of (D.held device.old file) at (length into.old)) ≡ length into.old)) }
    ensures no_memory { IfErr result (λ e. e ≢ TrailFault.NoMemory) }
    ensures cause { IfErr result (λ e. e ≡ TrailFault.Failed
        → Rose (D.faults device.old) (D.faults device.new)) }
{
    let n = device.read(file, at, into)?;
    if n < into.len() || n == 0 {
        return Err(damaged(file, at, DamageKind::Short));
    }
    Ok(())
}

// The front of a file, behind so many records.
fn open_file<D: Disk>(device: &mut D, file: u32, places: u128) -> Result<Reach, TrailFault>
    ensures works { IsLater D.Disk device.old device.new }
    ensures same { D.held device.new ≡ D.held device.old }
    ensures at { IfOk result (λ reach. reach ≡ record { file = file; len = reach.len; gate = 0; places = places }) }
    ensures there { IsTrue (D.tells device.old)
        → IfOk result (λ reach. IsThere (D.held device.old) file (λ f. reach.len ≡ length f.bytes)) }
    ensures small { IfOk result (λ reach. reach.len < 2 ^ 63) }
    ensures damaged { IsTrue (D.tells device.old)
        → IfErr result (TellsOnly (λ d. (D.held device.old file ≡ None) × (d ≡ record { file = file; at = 0; kind = Missing }))) }
    ensures no_memory { IfErr result (λ e. e ≢ TrailFault.NoMemory) }
    ensures cause { IfErr result (λ e. e ≡ TrailFault.Failed
        → Rose (D.faults device.old) (D.faults device.new)) }
{
    match device.length(file)? {
        None => Err(damaged(file, 0, DamageKind::Missing)),
        Some(len) => Ok(Reach {
            file,
            len,
            gate: 0,
            places,
        }),
    }
}

// The least file, if a trail may begin with it.
fn open_least<D: Disk, R: Spelled>(device: &mut D) -> Result<Reach, TrailFault>
    ensures works { IsLater D.Disk device.old device.new }
    ensures same { D.held device.new ≡ D.held device.old }
    ensures at { IfOk result (λ reach. reach ≡ record { file = reach.file; len = reach.len; gate = 0; places = 0 }) }
    ensures least { IsTrue (D.tells device.old)
        → IfOk result (λ reach. IsLeast (D.held device.old) (Some reach.file)) }
    ensures begins { (rules : Rules) → IfOk result (λ reach. (R.format rules).may_begin reach.file ≡ true) }
    ensures there { IsTrue (D.tells device.old)
        → IfOk result (λ reach. IsThere (D.held device.old) reach.file (λ f. reach.len ≡ length f.bytes)) }
    ensures small { IfOk result (λ reach. reach.len < 2 ^ 63) }
    ensures damaged { (rules : Rules) → IsTrue (D.tells device.old) → IfErr result (TellsOnly
        (λ d. ((n : ℕ) → IsLeast (D.held device.old) (Some n) → (R.format rules).may_begin n ≡ false)
        × (d ≡ record { file = 1; at = 0; kind = Missing }))) }
    ensures no_memory { IfErr result (λ e. e ≢ TrailFault.NoMemory) }
    ensures cause { IfErr result (λ e. e ≡ TrailFault.Failed
        → Rose (D.faults device.old) (D.faults device.new)) }
{
    match device.least()? {
        None => Err(damaged(1, 0, DamageKind::Missing)),
        Some(file) => {
            if R::may_begin(file) {
                open_file(device, file, 0)
            } else {
                Err(damaged(1, 0, DamageKind::Missing))
            }
        }
    }
}

// Whether the gate at an offset is open.
fn is_open<D: Disk>(device: &mut D, file: u32, at: u64) -> Result<bool, TrailFault>
    ensures works { IsLater D.Disk device.old device.new }
    ensures same { D.held device.new ≡ D.held device.old }
    ensures open { IsTrue (D.tells device.old)
        → IfOk result (λ answer. IfThere (D.held device.old) file
        (λ f. IsTrue answer ↔ (slice_index f.bytes at ≡ 1))) }
    ensures undamaged { IsTrue (D.tells device.old)
        → IsThere (D.held device.old) file (λ f. at < length f.bytes) → IfErr result IsUndamaged }
    ensures no_memory { IfErr result (λ e. e ≢ TrailFault.NoMemory) }
    ensures cause { IfErr result (λ e. e ≡ TrailFault.Failed
        → Rose (D.faults device.old) (D.faults device.new)) }
{
    let mut gate = [0; 1];
    read_all(device, file, at, &mut gate)?;
    Ok(gate[0] == 1)
}

// Reads the records of a batch whose first stands at an offset of a file and has a place.
fn check_records<R: Spelled>(
    file: u32,
    at: u64,
    place: u128,
    bytes: &[u8],
    count: u32,
    rules: &Rules,
    order: &mut R::Order,
) -> Result<(), TrailFault>
    requires size { length bytes.now ≡ count * R.record_length }
    requires places { place + count < 2 ^ 128 }
    requires short { at + length bytes.now + 2 ^ 32 < 2 ^ 64 }
    ensures found { (before : List R) → R.stands rules.now order.old before
        → (R.format rules.now).in_order before ≡ true → place ≡ 1 + length before
        → OnOk result ((records : List R)
        × AreRecords (R.format rules.now) before place count bytes.now records
        × R.stands rules.now order.new (before ++ records)) }
    ensures damaged { (before : List R) → R.stands rules.now order.old before
        → (R.format rules.now).in_order before ≡ true → place ≡ 1 + length before
        → IfErr result (TellsOnly (IsDamageAmong (R.format rules.now) (R.damage rules.now) R.record_length file at count before bytes.now)) }
    ensures unfailed { IfErr result (λ e. e ≢ TrailFault.Failed) }
{
    let size = R::length(VERSION) as usize;
    let mut rest = bytes;
    let mut offset = at;
    for i in 0..count {
        let (front, back) = rest.split_at(size);
        check_record::<R>(file, offset, place + u128::from(i), front, rules, order)?;
        rest = back;
        offset += size as u64;
    }
    Ok(())
}

// Reads the record that stands at an offset of a file and has a place.
fn check_record<R: Spelled>(
    file: u32,
    at: u64,
    place: u128,
    bytes: &[u8],
    rules: &Rules,
    order: &mut R::Order,
) -> Result<(), TrailFault>
    requires length { length bytes.now ≡ R.record_length }
    requires short { at + 2 ^ 32 < 2 ^ 64 }
    ensures found { (before : List R) → R.stands rules.now order.old before
        → place ≡ 1 + length before
        → OnOk result ((item : R) × ((R.format rules.now).valid item ≡ true)
        × (bytes.now ≡ text (R.format rules.now) item place)
        × ((R.format rules.now).in_order (before ++ item ∷ []) ≡ true)
        × R.stands rules.now order.new (before ++ item ∷ [])) }
    ensures damaged { (before : List R) → R.stands rules.now order.old before → place ≡ 1 + length before
        → IfErr result (TellsOnly (λ d. (offset : ℕ) × (d.file ≡ file) × (d.at ≡ at + offset) × (R.damage rules.now before bytes.now ≡ Some (offset, d.kind)))) }
    ensures unfailed { IfErr result (λ e. e ≢ TrailFault.Failed) }
{
    match R::read_next(order, VERSION, place, bytes, rules) {
        Ok(_) => Ok(()),
        Err(OrderFault::NoMemory) => Err(TrailFault::NoMemory),
        Err(OrderFault::Damaged { at: offset, kind }) => {
            Err(damaged(file, at + u64::from(offset), kind))
        }
    }
}

// Reads the count of the batch behind an open gate of a file.
pub(crate) fn count_at<D: Disk>(
    device: &mut D,
    file: u32,
    at: u64,
    most: u32,
) -> Result<u32, TrailFault>
    requires { at < 2 ^ 63 }
    ensures works { IsLater D.Disk device.old device.new }
    ensures same { D.held device.new ≡ D.held device.old }
    ensures found { IsTrue (D.tells device.old)
        → IfOk result (λ count. IfThere (D.held device.old) file
        (λ f. IsHeadAt at count f.bytes × (first_failed (head_checks most file (take 16 (drop at f.bytes))) ≡ None))) }
    ensures read { IsTrue (D.tells device.old)
        → IfOk result (λ count. read_of (D.held device.old file) at 16 ≡ 1 ∷ head count) }
    ensures few { IfOk result (λ count. count ≤ most) }
    ensures rolls { IfOk result (λ count. count ≡ 0 → file < 4294967295) }
    ensures wrong { IsTrue (D.tells device.old) → IfErr result (TellsOnly
        (λ d. (offset : ℕ) × (d.file ≡ file) × (d.at ≡ at + offset) × (head_damage most file (read_of (D.held device.old file) at 16) ≡ Some (offset, d.kind)))) }
    ensures damaged { IsTrue (D.tells device.old)
        → IsThere (D.held device.old) file (λ f. (at + 16 ≤ length f.bytes) × (slice_index f.bytes at ≡ 1))
        → IfErr result (TellsOnly (λ d. IfThere (D.held device.old) file (λ f. IsHeadDamage most file at f.bytes d))) }
    ensures undamaged { (count : ℕ) → count ≤ most → (count ≡ 0 → file < 4294967295) → IsTrue (D.tells device.old)
        → IsThere (D.held device.old) file (λ f. IsHeadAt at count f.bytes)
        → IfErr result IsUndamaged }
    ensures no_memory { IfErr result (λ e. e ≢ TrailFault.NoMemory) }
    ensures cause { IfErr result (λ e. e ≡ TrailFault.Failed
        → Rose (D.faults device.old) (D.faults device.new)) }
{
    let mut front = [0; 16];
    read_all(device, file, at, &mut front)?;
    if front[0] != 1 {
        return Err(damaged(file, at, DamageKind::Short));
    }
    match count_of(&front, file, most) {
        Ok(count) => Ok(count),
        Err((offset, kind)) => Err(damaged(file, at + u64::from(offset), kind)),
    }
}

// Reads the count of the batch behind an open gate, if all of the batch and its next gate are within the file.
fn enter_batch<D: Disk, R: Spelled>(device: &mut D, reach: Reach) -> Result<u32, TrailFault>
    requires len { reach.len < 2 ^ 63 }
    requires gate { reach.gate < reach.len }
    requires here { IsTrue (D.tells device.old)
        → IsThere (D.held device.old) reach.file (λ f. (reach.len ≡ length f.bytes) × (slice_index f.bytes reach.gate ≡ 1)) }
    ensures works { IsLater D.Disk device.old device.new }
    ensures same { D.held device.new ≡ D.held device.old }
    ensures found { (rules : Rules) → IsTrue (D.tells device.old) → IfOk result (λ count. IfThere (D.held device.old) reach.file
        (λ f. IsHeadAt reach.gate count f.bytes × (batch_damage (R.format rules).most R.record_length reach.file (drop reach.gate f.bytes) ≡ None))) }
    ensures few { (rules : Rules) → IfOk result (λ count. count ≤ (R.format rules).most) }
    ensures rolls { IfOk result (λ count. count ≡ 0 → reach.file < 4294967295) }
    ensures fits { IfOk result (λ count. reach.gate + 16 + count * R.record_length < reach.len) }
    ensures damaged { (rules : Rules) → IsTrue (D.tells device.old) → IfErr result (TellsOnly (λ d. IfThere (D.held device.old) reach.file
        (λ f. IsBatchDamage (R.format rules).most R.record_length reach.file reach.gate f.bytes d))) }
    ensures no_memory { IfErr result (λ e. e ≢ TrailFault.NoMemory) }
    ensures cause { IfErr result (λ e. e ≡ TrailFault.Failed
        → Rose (D.faults device.old) (D.faults device.new)) }
{
    if reach.len - reach.gate < 16 {
        return Err(damaged(reach.file, reach.gate, DamageKind::Short));
    }
    let count = count_at(device, reach.file, reach.gate, R::most())?;
    let size = u64::from(count) * u64::from(R::length(VERSION));
    if reach.len - reach.gate - 16 <= size {
        return Err(damaged(reach.file, reach.gate, DamageKind::Short));
    }
    Ok(count)
}

// Reads the records of the batch behind a gate, and goes on to the next gate.
fn read_batch<D: Disk, R: Spelled>(
    device: &mut D,
    reach: Reach,
    count: u32,
    room: &mut [u8],
    rules: &Rules,
    order: &mut R::Order,
) -> Result<Reach, TrailFault>
    requires len { reach.len < 2 ^ 63 }
    requires some { 0 < count }
    requires few { count ≤ (R.format rules.now).most }
    requires fits { reach.gate + 16 + count * R.record_length < reach.len }
    requires places { reach.places ≤ reach.file * 2 ^ 63 + reach.gate }
    requires room { length room.old ≡ 16 + (R.format rules.now).most * R.record_length }
    requires here { IsTrue (D.tells device.old)
        → IsThere (D.held device.old) reach.file (λ f. reach.len ≡ length f.bytes) }
    ensures works { IsLater D.Disk device.old device.new }
    ensures same { D.held device.new ≡ D.held device.old }
    ensures at { IfOk result (λ next. next ≡ record { file = reach.file; len = reach.len; gate = reach.gate + 16 + count * R.record_length; places = reach.places + count }) }
    ensures few { IfOk result (λ next. next.places ≤ reach.file * 2 ^ 63 + next.gate) }
    ensures found { (before : List R) → IsTrue (D.tells device.old)
        → R.stands rules.now order.old before
        → (R.format rules.now).in_order before ≡ true → reach.places ≡ length before
        → OnOk result (IfThere (D.held device.old) reach.file (λ f. IsHeadAt reach.gate count f.bytes → (batch : List R)
        × IsBatchAt (R.format rules.now) before (reach.places + 1) reach.gate f.bytes batch × (length batch ≡ count)
        × R.stands rules.now order.new (before ++ batch))) }
    ensures damaged { (before : List R) → IsTrue (D.tells device.old)
        → R.stands rules.now order.old before
        → (R.format rules.now).in_order before ≡ true → reach.places ≡ length before
        → IfErr result (TellsOnly (λ d. IfThere (D.held device.old) reach.file
        (λ f. IsDamageAmong (R.format rules.now) (R.damage rules.now) R.record_length reach.file (reach.gate + 16) count before (take (count * R.record_length) (drop (reach.gate + 16) f.bytes)) d))) }
    ensures cause { IfErr result (λ e. e ≡ TrailFault.Failed
        → Rose (D.faults device.old) (D.faults device.new)) }
{
    let size = count as usize * R::length(VERSION) as usize;
    let (bytes, _) = room.split_at_mut(size);
    read_all(device, reach.file, reach.gate + 16, bytes)?;
    check_records::<R>(
        reach.file,
        reach.gate + 16,
        reach.places + 1,
        bytes,
        count,
        rules,
        order,
    )?;
    Ok(Reach {
        file: reach.file,
        len: reach.len,
        gate: reach.gate + 16 + size as u64,
        places: reach.places + u128::from(count),
    })
}

// Goes past the batch behind an open gate: to the next gate, or behind a roll batch to the next file.
fn pass_batch<D: Disk, R: Spelled>(
    device: &mut D,
    reach: Reach,
    room: &mut [u8],
    rules: &Rules,
    order: &mut R::Order,
) -> Result<Reach, TrailFault>
    requires len { reach.len < 2 ^ 63 }
    requires gate { reach.gate < reach.len }
    requires places { reach.places ≤ reach.file * 2 ^ 63 + reach.gate }
    requires room { length room.old ≡ 16 + (R.format rules.now).most * R.record_length }
    requires here { IsTrue (D.tells device.old)
        → IsThere (D.held device.old) reach.file (λ f. (reach.len ≡ length f.bytes) × (slice_index f.bytes reach.gate ≡ 1)) }
    ensures works { IsLater D.Disk device.old device.new }
    ensures same { D.held device.new ≡ D.held device.old }
    ensures further { IfOk result (λ next. ((next.file ≡ reach.file) × (next.len ≡ reach.len) × (reach.gate < next.gate) × (next.gate < next.len))
        ⊎ ((next.file ≡ reach.file + 1) × (next.gate ≡ 0))) }
    ensures there { IsTrue (D.tells device.old)
        → IfOk result (λ next. IsThere (D.held device.old) next.file (λ f. next.len ≡ length f.bytes)) }
    ensures small { IfOk result (λ next. next.len < 2 ^ 63) }
    ensures few { IfOk result (λ next. next.places ≤ next.file * 2 ^ 63 + next.gate) }
    ensures found { (least : ℕ) → IsTrue (D.tells device.old)
        → IsScanned (R.format rules.now) (R.stands rules.now) order.old (D.held device.old) least reach.file reach.len reach.gate reach.places
        → IfOk result (λ next. IsScanned (R.format rules.now) (R.stands rules.now) order.new (D.held device.old) least next.file next.len next.gate next.places) }
    ensures damaged { (least : ℕ) → IsTrue (D.tells device.old)
        → IsScanned (R.format rules.now) (R.stands rules.now) order.old (D.held device.old) least reach.file reach.len reach.gate reach.places
        → IfErr result (TellsOnly (IsDamagedAt (R.format rules.now) (R.damage rules.now) R.record_length (D.held device.old))) }
    ensures cause { IfErr result (λ e. e ≡ TrailFault.Failed
        → Rose (D.faults device.old) (D.faults device.new)) }
{
    let count = enter_batch::<D, R>(device, reach)?;
    if count == 0 {
        open_file(device, reach.file + 1, reach.places)
    } else {
        read_batch::<D, R>(device, reach, count, room, rules, order)
    }
}

// The end of a trail at a closed gate, behind the records that the order stands for.
fn end_at<R: Spelled>(reach: Reach, order: &R::Order) -> Result<Reach, TrailFault>
    ensures same { IfOk result (λ last. last ≡ reach) }
    ensures may_end { (rules : Rules) (before : List R) → R.stands rules order.now before
        → OnOk result ((R.format rules).may_end before ≡ true) }
    ensures damaged { (rules : Rules) (before : List R) → R.stands rules order.now before
        → IfErr result (λ e. ((R.format rules).may_end before ≡ false) × (e ≡ TrailFault.Damaged (record { file = reach.file; at = reach.gate; kind = NoStart }))) }
    ensures unfailed { IfErr result (λ e. e ≢ TrailFault.Failed) }
{
    if R::may_end(order) {
        Ok(reach)
    } else {
        Err(damaged(reach.file, reach.gate, DamageKind::NoStart))
    }
}

// Goes over the batches from a gate on to the first closed one.
fn scan_from<D: Disk, R: Spelled>(
    device: &mut D,
    start: Reach,
    rules: &Rules,
    room: &mut [u8],
    order: &mut R::Order,
) -> Result<Reach, TrailFault>
    requires len { start.len < 2 ^ 63 }
    requires places { start.places ≤ start.file * 2 ^ 63 + start.gate }
    requires here { IsTrue (D.tells device.old)
        → IsThere (D.held device.old) start.file (λ f. start.len ≡ length f.bytes) }
    requires room { length room.old ≡ 16 + (R.format rules.now).most * R.record_length }
    ensures works { IsLater D.Disk device.old device.new }
    ensures same { D.held device.new ≡ D.held device.old }
    ensures found { (least : ℕ) → IsTrue (D.tells device.old)
        → IsScanned (R.format rules.now) (R.stands rules.now) order.old (D.held device.old) least start.file start.len start.gate start.places
        → IfOk result (λ end. IsCounted (R.format rules.now) (D.held device.old) least end.file end.gate end.places) }
    ensures damaged { (least : ℕ) → IsTrue (D.tells device.old)
        → IsScanned (R.format rules.now) (R.stands rules.now) order.old (D.held device.old) least start.file start.len start.gate start.places
        → IfErr result (TellsOnly (IsDamagedAt (R.format rules.now) (R.damage rules.now) R.record_length (D.held device.old))) }
    ensures short { IfOk result (λ end. end.gate < 2 ^ 63) }
    ensures few { IfOk result (λ end. end.places ≤ end.file * 2 ^ 63 + end.gate) }
    ensures cause { IfErr result (λ e. e ≡ TrailFault.Failed
        → Rose (D.faults device.old) (D.faults device.new)) }
{
    let mut reach = start;
    while reach.gate < reach.len {
        if !is_open(device, reach.file, reach.gate)? {
            return end_at::<R>(reach, order);
        }
        reach = pass_batch::<D, R>(device, reach, room, rules, order)?;
    }
    Err(damaged(reach.file, reach.gate, DamageKind::Short))
}

/// The number of a trail's least file, and where its first closed gate stands.
#[derive(Clone, Copy)]
pub(crate) struct Extent {
    pub least: u32,
    pub file: u32,
    pub gate: u64,
    pub places: u128,
}

/// Goes over the batches of a trail to the first closed gate.
pub(crate) fn scan<D: Disk, R: Spelled>(
    alloc: Global,
    device: &mut D,
    rules: &Rules,
    room: &mut [u8],
) -> Result<Extent, TrailFault>
    requires room { length room.old ≡ 16 + (R.format rules.now).most * R.record_length }
    ensures works { IsLater D.Disk device.old device.new }
    ensures same { D.held device.new ≡ D.held device.old }
    ensures found { IsTrue (D.tells device.old)
        → IfOk result (λ end. IsCounted (R.format rules.now) (D.held device.old) end.least end.file end.gate end.places) }
    ensures damaged { IsTrue (D.tells device.old)
        → IfErr result (TellsOnly (IsDamagedAt (R.format rules.now) (R.damage rules.now) R.record_length (D.held device.old))) }
    ensures short { IfOk result (λ end. end.gate < 2 ^ 63) }
    ensures few { IfOk result (λ end. end.places ≤ end.file * 2 ^ 63 + end.gate) }
    ensures cause { IfErr result (λ e. e ≡ TrailFault.Failed
        → Rose (D.faults device.old) (D.faults device.new)) }
{
    let start = open_least::<D, R>(device)?;
    let mut order = R::begin(alloc);
    let end = scan_from::<D, R>(device, start, rules, room, &mut order)?;
    Ok(Extent {
        least: start.file,
        file: end.file,
        gate: end.gate,
        places: end.places,
    })
}
