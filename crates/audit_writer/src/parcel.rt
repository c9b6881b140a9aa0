//! What a disc hands in without the writer's lock.
ghost use Rattle.std.specs.Prelude.{◌≡◌, ◌≤◌, ◌++◌, ◌∷◌, [], List, MatchOption};
ghost use Rattle.trail_files.specs.declared.audit_record.AuditRecord.{AuditRecord};
ghost use Rattle.audit_writer.specs.Handing.{last_of};
ghost use Rattle.audit_writer.specs.Parcels.{IsParcel, packed, start_of};

use crate::name::NodeRun;
use chronicle::Seat;
use node_machine::NodeMachine;
use std::marker::Model;
use trail_files::AuditRecord;

/// Records of one disc of the trail with the number `N`, and a note that knows what the writer has to know of them.
#[derive(Drop)]
pub struct Parcel<J: NodeRun, const N: u8> {
    note: Seat<NodeMachine, J>,
    records: Vec<AuditRecord>,
    // Up to this position of the disc all is durable, as the note knows.
    before: u64,
}

impl<J: NodeRun, const N: u8> Model for Parcel<J, N> {
    ghost use Rattle.audit_writer.specs.Parcels.{Packed, IsParcel, packed};

    ghost Value = { Packed };

    ghost view = { λ p. packed p.note p.records.items p.before };

    ghost invariant = { λ p. IsParcel J.opening J.found (J.rules N) N (packed p.note p.records.items p.before) };
}

impl<J: NodeRun, const N: u8> Parcel<J, N> {
    /// A parcel of these records.
    pub fn new(note: Seat<NodeMachine, J>, records: Vec<AuditRecord>, before: u64) -> Self
        requires { IsParcel J.opening J.found (J.rules N) N (packed note records.items before) }
        ensures { result ≡ packed note records.items before }
    {
        Parcel {
            note,
            records,
            before,
        }
    }

    /// The position of its last record.
    pub fn last(&self) -> u64
        ensures last { result ≡ last_of self.now.records }
        ensures behind { start_of self.now.records ≤ result }
    {
        match last(self.records.as_slice()) {
            None => 0,
            Some(item) => item.position,
        }
    }

    /// Its note, its records, and the position up to which all is durable.
    pub fn into_parts(self) -> (Seat<NodeMachine, J>, Vec<AuditRecord>, u64)
        ensures parts { packed result.0 result.1.items result.2 ≡ self }
        ensures lawful { IsParcel J.opening J.found (J.rules N) N (packed result.0 result.1.items result.2) }
    {
        let Parcel {
            note,
            records,
            before,
        } = self;
        (note, records, before)
    }

    /// Its records.
    pub fn into_records(self) -> Vec<AuditRecord>
        ensures { result.items ≡ self.records }
    {
        let Parcel {
            note: _,
            records,
            before: _,
        } = self;
        records
    }
}

// The last of the records.
pub(crate) fn last(records: &[AuditRecord]) -> Option<AuditRecord>
    ensures { MatchOption result (records.now ≡ []) (λ r. (front : List AuditRecord) × (records.now ≡ front ++ r ∷ [])) }
{
    match records {
        [] => None,
        [.., last] => Some(*last),
    }
}
