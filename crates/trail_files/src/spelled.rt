//! What a trail asks of its records: their spelling, and which may follow which.
ghost use Rattle.std.specs.Prelude.{◌≡◌, ◌<◌, ◌+◌, ◌^◌, ◌++◌, ◌∷◌, [], ℕ, List, length, Option, Some, None, true, IfOk, IfErr};
ghost use Rattle.trail_files.specs.declared.rules.Rules.{Rules};
ghost use Rattle.trail_files.specs.declared.damage.DamageKind.{DamageKind};
ghost use Rattle.trail_files.specs.Format.{Format, text};
ghost use Rattle.trail_files.specs.Fault.{IsDamageOf};

use crate::damage::DamageKind;
use crate::rules::Rules;
use std::alloc::Global;

/// Why a record can't be the next one of a trail.
#[derive(Clone, Copy, Debug, PartialEq, Eq)]
pub enum OrderFault {
    NoMemory,
    /// The offset in the record, and the rule that is broken there.
    Damaged { at: u32, kind: DamageKind },
}

/// Records of one length, as a trail reads and writes them.
pub trait Spelled: Drop {
    /// What a reader keeps of the records that it has read, to tell which may follow.
    type Order: Drop;

    /// The length of a record.
    ghost record_length: { ℕ };

    /// Which records are valid, how they are spelled, and which rows of them a trail may hold.
    ghost format: { Rules → Format Self };

    /// The order stands for these records, read from the trail's first on.
    ghost stands: { Rules → Self.Order → List Self → Type 0 };

    /// The first byte of the first field, in the order of the table, that is out of its range.
    ghost bad_field: { Rules → List ℕ → Option ℕ };

    /// The damage of a record's bytes behind these records: its offset in the record and its kind, if there is any.
    ghost damage: { Rules → List Self → List ℕ → Option (ℕ × DamageKind) };

    /// The length of a record in bytes.
    fn length(version: u8) -> u32
        requires { version ≡ 1 }
        ensures length { result ≡ record_length }
        ensures some { 0 < result };

    /// The greatest number of records of a batch.
    fn most() -> u32
        ensures most { (rules : Rules) → result ≡ (format rules).most }
        ensures some { 0 < result };

    /// Whether the least file of a trail may have this number.
    fn may_begin(file: u32) -> bool
        ensures { (rules : Rules) → result ≡ (format rules).may_begin file };

    /// The number that the record is written with at a place.
    fn number(&self, place: u128) -> u64
        ensures { (rules : Rules) → result ≡ (format rules).number self.now place };

    /// The record that the bytes spell and its number; or the offset of the first field that is out of its range.
    fn read(version: u8, bytes: &[u8], rules: &Rules) -> Result<(Self, u64), u32>
        requires version { version ≡ 1 }
        requires length { length bytes.now ≡ record_length }
        ensures found { IfOk result (λ r. ((format rules.now).valid r.0 ≡ true)
            × (bytes.now ≡ (format rules.now).spelling r.0 r.1)) }
        ensures only { (item : Self) (place : ℕ) → (format rules.now).valid item ≡ true
            → bytes.now ≡ text (format rules.now) item place
            → result ≡ Ok (item, (format rules.now).number item place) }
        ensures cause { IfErr result (λ at. bad_field rules.now bytes.now ≡ Some at) }
        ensures fine { IfOk result (λ _. bad_field rules.now bytes.now ≡ None) };

    /// Writes the record with a number.
    fn write(&self, version: u8, number: u64, into: &mut [u8])
        requires version { version ≡ 1 }
        requires length { length into.old ≡ record_length }
        ensures { (rules : Rules) → into.new ≡ (format rules).spelling self.now number };

    /// The order of no records.
    fn begin(alloc: Global) -> Self::Order
        ensures { (rules : Rules) → stands rules result [] };

    /// Reads the record at a place behind those that the order stands for; then it stands for one more.
    fn read_next(
        order: &mut Self::Order,
        version: u8,
        place: u128,
        bytes: &[u8],
        rules: &Rules,
    ) -> Result<Self, OrderFault>
        requires version { version ≡ 1 }
        requires length { length bytes.now ≡ record_length }
        ensures found { (before : List Self) → stands rules.now order.old before
            → place ≡ 1 + length before
            → IfOk result (λ item. ((format rules.now).valid item ≡ true)
            × (bytes.now ≡ text (format rules.now) item place)
            × ((format rules.now).in_order (before ++ item ∷ []) ≡ true)
            × stands rules.now order.new (before ++ item ∷ [])) }
        ensures only { (before : List Self) (item : Self) → stands rules.now order.old before
            → place ≡ 1 + length before
            → (format rules.now).valid item ≡ true → bytes.now ≡ text (format rules.now) item place
            → (format rules.now).in_order (before ++ item ∷ []) ≡ true
            → IfErr result (λ e. e ≡ OrderFault.NoMemory) }
        ensures cause { (before : List Self) → stands rules.now order.old before
            → place ≡ 1 + length before
            → IfErr result (IsDamageOf (damage rules.now before bytes.now)) }
        ensures fine { (before : List Self) → stands rules.now order.old before
            → place ≡ 1 + length before
            → IfOk result (λ _. damage rules.now before bytes.now ≡ None) };

    /// Whether a trail may end behind the records that the order stands for.
    fn may_end(order: &Self::Order) -> bool
        ensures { (rules : Rules) (before : List Self) → stands rules order.now before
            → result ≡ (format rules).may_end before };

    /// A valid record that may stand behind others has no damage there.
    ghost undamaged: { (rules : Rules) (before : List Self) (item : Self) → (format rules).valid item ≡ true → (format rules).in_order (before ++ item ∷ []) ≡ true
        → damage rules before (text (format rules) item (1 + length before)) ≡ None };

    /// A trail that is made has file 1.
    ghost first: { (rules : Rules) → (format rules).may_begin 1 ≡ true };

    /// A batch is counted in 32 bits.
    ghost few: { (rules : Rules) → (format rules).most < 2 ^ 32 };

    /// No two records have one spelling, wherever they stand, and it tells the number.
    ghost one: { (rules : Rules) (a b : Self) (n m : ℕ) → (format rules).valid a ≡ true → (format rules).valid b ≡ true
        → text (format rules) a n ≡ text (format rules) b m → (a ≡ b) × ((format rules).number a n ≡ (format rules).number b m) };

    /// Each spelling has the length of a record.
    ghost text_length: { (rules : Rules) (item : Self) (number : ℕ) → length ((format rules).spelling item number) ≡ record_length };

    /// The first of records that are in order are in order.
    ghost begins: { (rules : Rules) (xs ys : List Self) → (format rules).in_order (xs ++ ys) ≡ true → (format rules).in_order xs ≡ true };

    /// No records are in order.
    ghost empty: { (rules : Rules) → (format rules).in_order [] ≡ true };
}
