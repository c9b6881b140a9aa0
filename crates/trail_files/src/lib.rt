//! Trails: files of records in batches, each of which stands whole or not at all after a crash.
#![tactic(auto)]

mod audit_fields;
mod audit_order;
mod audit_record;
mod batch;
mod buffered;
mod clear;
mod cursor;
mod damage;
mod monitor_fields;
mod monitor_order;
mod monitor_record;
mod record_table;
mod rules;
mod scan;
mod spelled;
mod trail;
mod word_field;

pub use audit_order::AuditOrder;
pub use audit_record::{AuditKind, AuditRecord};
pub use cursor::Cursor;
pub use damage::{Damage, DamageKind, TrailFault};
pub use monitor_order::MonitorOrder;
pub use monitor_record::MonitorRecord;
pub use rules::Rules;
pub use spelled::{OrderFault, Spelled};
pub use trail::{Trail, TrailPhase};
