//! Records of an audit trail.
ghost use Rattle.std.specs.Prelude.{◌≡◌, length};

use crate::audit_fields::{audit_record, write_audit};
use crate::audit_order::AuditOrder;
use crate::rules::Rules;
use crate::spelled::{OrderFault, Spelled};
use std::alloc::Global;
use tmf_model::{Key, Transid, Value};

/// What an audit record tells of.
#[derive(Clone, Copy, Debug, PartialEq, Eq)]
pub enum AuditKind {
    /// A change by a transaction.
    Change,
    /// A change taken back.
    Undo,
}

/// One change of one record of a file: what stood there before and what after.
#[derive(Clone, Copy, PartialEq, Eq)]
pub struct AuditRecord {
    pub kind: AuditKind,
    /// The disc's number, on this trail.
    pub disc: u8,
    /// The file's number, on that disc.
    pub file: u8,
    pub tx: Transid,
    /// The number of the change on its disc, 1 to 2^62 - 1.
    pub position: u64,
    pub key: Key,
    pub before: Option<Value>,
    pub after: Option<Value>,
}

impl Spelled for AuditRecord {
    ghost use Rattle.std.proofs.Common.{lit<, refl};
    ghost use Rattle.trail_files.specs.AuditFormat.{audit_fields};
    ghost use Rattle.trail_files.specs.AuditDamage.{audit_undamaged};
    ghost use Rattle.trail_files.specs.AuditLaws.{audit_one, audit_length, audit_begins};
    ghost use Rattle.trail_files.specs.AuditOrder.{audit_damage};
    ghost use Rattle.trail_files.specs.AuditRecord.{audit_format};
    ghost use Rattle.trail_files.specs.AuditStands.{AuditStands};
    ghost use Rattle.trail_files.specs.RecordTable.{first_bad};

    type Order = AuditOrder;

    ghost record_length = { 128 };

    ghost format = { audit_format };

    ghost stands = { λ _. AuditStands };

    ghost bad_field = { λ rules bytes. first_bad (audit_fields rules bytes) };

    ghost damage = { audit_damage };

    fn length(_version: u8) -> u32 {
        128
    }

    fn most() -> u32 {
        512
    }

    fn may_begin(_file: u32) -> bool {
        true
    }

    fn number(&self, _place: u128) -> u64 {
        self.position
    }

    fn read(_version: u8, bytes: &[u8], rules: &Rules) -> Result<(Self, u64), u32> {
        match audit_record(bytes, rules) {
            Err(at) => Err(at),
            Ok(item) => {
                let position = item.position;
                Ok((item, position))
            }
        }
    }

    fn write(&self, _version: u8, number: u64, into: &mut [u8]) {
        write_audit(self, number, into);
    }

    fn begin(alloc: Global) -> AuditOrder {
        AuditOrder::new(alloc)
    }

    fn read_next(
        order: &mut AuditOrder,
        _version: u8,
        _place: u128,
        bytes: &[u8],
        rules: &Rules,
    ) -> Result<Self, OrderFault> {
        order.read_next(bytes, rules)
    }

    fn may_end(_order: &AuditOrder) -> bool {
        true
    }

    ghost undamaged = { λ rules before item. audit_undamaged rules before item };

    ghost first = { λ _. refl };

    ghost few = { λ _. lit< tt };

    ghost one = { λ rules a b n m. audit_one rules a b };

    ghost text_length = { λ _. audit_length };

    ghost begins = { λ _. audit_begins };

    ghost empty = { λ _. refl };
}
