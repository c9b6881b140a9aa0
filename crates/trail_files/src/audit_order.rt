//! What a reader of an audit trail keeps of the records that it has read.
ghost use Rattle.std.specs.Prelude.{◌≡◌, ◌+◌, ◌==◌, ◌++◌, ◌∷◌, [], None, true, List, length, OnOk, IfOk, IfErr};
ghost use Rattle.trail_files.specs.declared.audit_record.AuditRecord.{AuditRecord};
ghost use Rattle.trail_files.specs.AuditFormat.{audit_record_at};
ghost use Rattle.trail_files.specs.AuditOrder.{audit_follows, audit_damage};
ghost use Rattle.trail_files.specs.AuditStands.{AuditStands};
ghost use Rattle.trail_files.specs.Fault.{IsDamageOf};

use crate::audit_fields::audit_record;
use crate::audit_record::AuditRecord;
use crate::damage::DamageKind;
use crate::rules::Rules;
use crate::spelled::OrderFault;
use std::alloc::{AllocError, Global};
use std::collections::BTreeMap;

/// The last position of each disc.
#[derive(Drop)]
pub struct AuditOrder {
    last: BTreeMap<u8, u64>,
}

impl AuditOrder {
    /// The order of no records.
    pub(crate) fn new(alloc: Global) -> Self
        ensures { AuditStands result [] }
    {
        AuditOrder {
            last: BTreeMap::new(alloc),
        }
    }

    /// Whether the record has the position that is due on its disc.
    fn is_due(&self, item: &AuditRecord) -> bool
        ensures { (before : List AuditRecord) → AuditStands self.now before → result ≡ audit_follows before item.now }
    {
        match self.last.get(&item.disc) {
            None => true,
            Some(&last) => is_next(last, item.position),
        }
    }

    /// Takes the record in.
    fn add(&mut self, item: &AuditRecord) -> Result<(), AllocError>
        ensures { (before : List AuditRecord) → AuditStands self.old before → audit_follows before item.now ≡ true
            → OnOk result (AuditStands self.new (before ++ item.now ∷ [])) }
    {
        self.last.insert(item.disc, item.position)?;
        Ok(())
    }

    /// Reads a record behind those that the order stands for, and takes it in.
    pub(crate) fn read_next(
        &mut self,
        bytes: &[u8],
        rules: &Rules,
    ) -> Result<AuditRecord, OrderFault>
        requires { length bytes.now ≡ 128 }
        ensures found { (before : List AuditRecord) → AuditStands self.old before
            → IfOk result (λ item. (item ≡ audit_record_at bytes.now) × (audit_damage rules.now before bytes.now ≡ None)
            × AuditStands self.new (before ++ item ∷ [])) }
        ensures cause { (before : List AuditRecord) → AuditStands self.old before
            → IfErr result (IsDamageOf (audit_damage rules.now before bytes.now)) }
    {
        match audit_record(bytes, rules) {
            Err(at) => Err(OrderFault::Damaged {
                at,
                kind: DamageKind::BadRecord,
            }),
            Ok(item) => {
                if !self.is_due(&item) {
                    return Err(OrderFault::Damaged {
                        at: 16,
                        kind: DamageKind::Order,
                    });
                }
                match self.add(&item) {
                    Ok(()) => Ok(item),
                    Err(_) => Err(OrderFault::NoMemory),
                }
            }
        }
    }
}

/// Whether the position is the one after `last`.
fn is_next(last: u64, position: u64) -> bool
    ensures { result ≡ (position == last + 1) }
{
    last < position && position - last == 1
}
