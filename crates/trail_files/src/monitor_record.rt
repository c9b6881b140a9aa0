//! Records of the monitor trail.
ghost use Rattle.std.specs.Prelude.{◌≡◌, true, length};

use crate::monitor_fields::{bad_monitor_field, monitor_record, write_monitor};
use crate::monitor_order::MonitorOrder;
use crate::record_table::written_number;
use crate::rules::Rules;
use crate::spelled::{OrderFault, Spelled};
use std::alloc::Global;
use tmf_model::Transid;

// A place has eight bytes.
const PLACES: u128 = 1 << 64;

/// What the monitor trail tells: that an epoch began, or how an attempt ended.
#[derive(Clone, Copy, Debug, PartialEq, Eq)]
pub enum MonitorRecord {
    /// A run with this epoch began.
    Start(u32),
    /// The attempt is committed.
    Commit(Transid),
    /// The attempt is backed out.
    Abort(Transid),
}

impl Spelled for MonitorRecord {
    ghost use Rattle.std.specs.Prelude.{◌%◌, ◌^◌, false};
    ghost use Rattle.std.proofs.Common.{lit<, refl};
    ghost use Rattle.trail_files.specs.MonitorFormat.{monitor_fields};
    ghost use Rattle.trail_files.specs.MonitorDamage.{monitor_undamaged};
    ghost use Rattle.trail_files.specs.MonitorLaws.{monitor_length, monitor_front};
    ghost use Rattle.trail_files.specs.MonitorOrder.{monitor_damage};
    ghost use Rattle.trail_files.specs.MonitorReading.{monitor_one_number};
    ghost use Rattle.trail_files.specs.MonitorRecord.{monitor_format};
    ghost use Rattle.trail_files.specs.MonitorStands.{MonitorStands};
    ghost use Rattle.trail_files.specs.RecordTable.{first_bad};

    type Order = MonitorOrder;

    ghost record_length = { 32 };

    ghost format = { λ _. monitor_format };

    ghost stands = { λ _. MonitorStands };

    ghost bad_field = { λ _ bytes. first_bad (monitor_fields false bytes) };

    ghost damage = { λ _. monitor_damage };

    fn length(_version: u8) -> u32 {
        32
    }

    fn most() -> u32 {
        64
    }

    fn may_begin(file: u32) -> bool {
        file == 1
    }

    fn number(&self, place: u128) -> u64 {
        (place % PLACES) as u64
    }

    fn read(_version: u8, bytes: &[u8], _rules: &Rules) -> Result<(Self, u64), u32> {
        match bad_monitor_field(bytes, false) {
            Some(at) => Err(at),
            None => Ok((monitor_record(bytes), written_number(bytes))),
        }
    }

    fn write(&self, _version: u8, number: u64, into: &mut [u8]) {
        write_monitor(self, number, into);
    }

    fn begin(alloc: Global) -> MonitorOrder {
        MonitorOrder::new(alloc)
    }

    fn read_next(
        order: &mut MonitorOrder,
        _version: u8,
        place: u128,
        bytes: &[u8],
        _rules: &Rules,
    ) -> Result<Self, OrderFault> {
        order.read_next(place, bytes)
    }

    fn may_end(order: &MonitorOrder) -> bool {
        order.has_begun()
    }

    ghost undamaged = { λ _. monitor_undamaged };

    ghost first = { λ _. refl };

    ghost few = { λ _. lit< tt };

    ghost one = { λ _ a b n m. monitor_one_number a b n m };

    ghost text_length = { λ _. monitor_length };

    ghost begins = { λ _. monitor_front };

    ghost empty = { λ _. refl };
}
