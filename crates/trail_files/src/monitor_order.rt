//! What a reader of the monitor trail keeps of the records that it has read.
ghost use Rattle.std.specs.Prelude.{◌≡◌, ◌+◌, ◌++◌, ◌∷◌, [], ◌==◌, ◌&&◌, not, true, false, None, Some, IsSome, List, length, OnOk, IfOk, IfErr};
ghost use Rattle.trail_files.specs.declared.monitor_record.MonitorRecord.{MonitorRecord};
ghost use Rattle.trail_files.specs.Fault.{IsDamageOf};
ghost use Rattle.trail_files.specs.MonitorFormat.{monitor_record_at};
ghost use Rattle.trail_files.specs.MonitorOrder.{begins_trail, is_doubled, has_epoch_after, ends_again, monitor_follows, damage_if, monitor_damage, may_monitor_end};
ghost use Rattle.trail_files.specs.MonitorStands.{MonitorStands};

use crate::damage::DamageKind;
use crate::monitor_fields::{bad_monitor_field, monitor_record};
use crate::monitor_record::MonitorRecord;
use crate::record_table::{damage_at, first_bad_field, identifier, written_number};
use crate::spelled::OrderFault;
use std::alloc::{AllocError, Global};
use std::collections::BTreeSet;
use tmf_model::Transid;

/// The last Start's epoch, and the identifiers of the Commits and Aborts.
#[derive(Drop)]
pub struct MonitorOrder {
    epoch: Option<u32>,
    ended: BTreeSet<Transid>,
}

impl MonitorOrder {
    /// The order of no records.
    pub(crate) fn new(alloc: Global) -> Self
        ensures { MonitorStands result [] }
    {
        MonitorOrder {
            epoch: None,
            ended: BTreeSet::new(alloc),
        }
    }

    /// Whether the bytes end an attempt that an earlier record ended.
    fn is_doubled(&self, bytes: &[u8]) -> bool
        requires { length bytes.now ≡ 32 }
        ensures { (before : List MonitorRecord) → MonitorStands self.now before → result ≡ is_doubled before bytes.now }
    {
        bytes[0] != 1 && self.ended.contains(&identifier(bytes))
    }

    /// Whether the record has the epoch that is due.
    fn is_due(&self, item: MonitorRecord) -> bool
        ensures { (before : List MonitorRecord) → MonitorStands self.now before → result ≡ has_epoch_after before item }
    {
        match item {
            MonitorRecord::Start(epoch) => is_successor(self.epoch.unwrap_or(0), epoch),
            MonitorRecord::Commit(tx) | MonitorRecord::Abort(tx) => self.epoch == Some(tx.epoch),
        }
    }

    /// Takes the record in, and tells whether it ends nothing that an earlier one has ended.
    fn add(&mut self, item: MonitorRecord) -> Result<bool, AllocError>
        ensures new { (before : List MonitorRecord) → MonitorStands self.old before
            → IfOk result (λ is_new. is_new ≡ not (ends_again before item)) }
        ensures stands { (before : List MonitorRecord) → MonitorStands self.old before → monitor_follows before item ≡ true
            → OnOk result (MonitorStands self.new (before ++ item ∷ [])) }
    {
        match item {
            MonitorRecord::Start(epoch) => {
                self.epoch = Some(epoch);
                Ok(true)
            }
            MonitorRecord::Commit(tx) | MonitorRecord::Abort(tx) => Ok(self.ended.insert(tx)?),
        }
    }

    /// Whether a record stands before.
    pub(crate) fn has_begun(&self) -> bool
        ensures { (before : List MonitorRecord) → MonitorStands self.now before → result ≡ may_monitor_end before }
    {
        self.epoch.is_some()
    }

    /// What is wrong with the record at a place behind those that the order stands for, where it is told whether an earlier
    /// one has ended its attempt.
    fn damage(&self, place: u128, bytes: &[u8], doubled: bool) -> Option<(u32, DamageKind)>
        requires { length bytes.now ≡ 32 }
        ensures told { (before : List MonitorRecord) → MonitorStands self.now before → place ≡ 1 + length before
            → result ≡ damage_if doubled before bytes.now }
        ensures doubled { doubled ≡ true → IsSome result }
    {
        if begins_wrong(place, bytes) {
            return Some((0, DamageKind::NoStart));
        }
        let bad = bad_monitor_field(bytes, doubled);
        let astray = first_bad_field(&[
            (4, self.is_due(monitor_record(bytes))),
            (16, u128::from(written_number(bytes)) == place),
        ]);
        damage_at(DamageKind::BadRecord, bad).or(damage_at(DamageKind::Order, astray))
    }

    /// The damage of a record that has some whether or not an earlier one has ended its attempt; it is this if none has.
    fn damage_or(&self, place: u128, bytes: &[u8], single: (u32, DamageKind)) -> (u32, DamageKind)
        requires { length bytes.now ≡ 32 }
        ensures { (before : List MonitorRecord) → MonitorStands self.now before → place ≡ 1 + length before
            → damage_if false before bytes.now ≡ Some single → monitor_damage before bytes.now ≡ Some result }
    {
        if !self.is_doubled(bytes) {
            return single;
        }
        match self.damage(place, bytes, true) {
            Some(found) => found,
            None => unreachable!(),
        }
    }

    /// Reads the record at a place behind those that the order stands for, and takes it in. The identifiers that have ended are
    /// looked at once, when it is put among them.
    pub(crate) fn read_next(
        &mut self,
        place: u128,
        bytes: &[u8],
    ) -> Result<MonitorRecord, OrderFault>
        requires { length bytes.now ≡ 32 }
        ensures found { (before : List MonitorRecord) → MonitorStands self.old before → place ≡ 1 + length before
            → IfOk result (λ item. (item ≡ monitor_record_at bytes.now) × (monitor_damage before bytes.now ≡ None)
            × MonitorStands self.new (before ++ item ∷ [])) }
        ensures cause { (before : List MonitorRecord) → MonitorStands self.old before → place ≡ 1 + length before
            → IfErr result (IsDamageOf (monitor_damage before bytes.now)) }
    {
        if let Some(single) = self.damage(place, bytes, false) {
            let (at, kind) = self.damage_or(place, bytes, single);
            return Err(OrderFault::Damaged { at, kind });
        }
        let item = monitor_record(bytes);
        let Ok(is_new) = self.add(item) else {
            return Err(OrderFault::NoMemory);
        };
        if is_new {
            Ok(item)
        } else {
            Err(OrderFault::Damaged {
                at: 4,
                kind: DamageKind::BadRecord,
            })
        }
    }
}

/// Whether the place is the first, and the bytes have not the kind and the epoch of a trail's first record.
fn begins_wrong(place: u128, bytes: &[u8]) -> bool
    requires { length bytes.now ≡ 32 }
    ensures { result ≡ (place == 1 && not (begins_trail bytes.now)) }
{
    place == 1 && !(bytes[0] == 1 && identifier(bytes).epoch == 1)
}

/// Whether the epoch is the one after `last`.
fn is_successor(last: u32, epoch: u32) -> bool
    ensures { result ≡ (epoch == last + 1) }
{
    last < epoch && epoch - last == 1
}
