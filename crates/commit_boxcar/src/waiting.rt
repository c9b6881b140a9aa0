//! A request that waits, with a note that has seen what its record asks.
ghost use Rattle.std.specs.Prelude.{◌≡◌};
ghost use Rattle.commit_boxcar.specs.Line.{IsWaiting};

use audit_writer::NodeRun;
use chronicle::Seat;
use node_machine::NodeMachine;
use std::marker::Model;
use trail_files::MonitorRecord;

/// A request for a record, with a note of its transaction's seat. Contracts see the request.
#[derive(Drop)]
pub struct Waiting<J: NodeRun> {
    request: MonitorRecord,
    note: Seat<NodeMachine, J>,
}

impl<J: NodeRun> Model for Waiting<J> {
    ghost use Rattle.trail_files.specs.declared.monitor_record.MonitorRecord.{MonitorRecord};
    ghost use Rattle.commit_boxcar.specs.Line.{IsWaiting};

    ghost Value = { MonitorRecord };

    ghost view = { λ w. w.request };

    ghost invariant = { λ w. IsWaiting J.opening J.found.epoch w.note w.request };
}

impl<J: NodeRun> Waiting<J> {
    /// A request with a note that has seen what it asks.
    pub fn new(request: MonitorRecord, note: Seat<NodeMachine, J>) -> Self
        requires { IsWaiting J.opening J.found.epoch note request }
        ensures { result ≡ request }
    {
        Waiting { request, note }
    }

    /// The request.
    pub fn request(&self) -> MonitorRecord
        ensures { result ≡ self.now }
    {
        self.request
    }

    /// The request and its note.
    pub fn into_parts(self) -> (MonitorRecord, Seat<NodeMachine, J>)
        ensures request { result.0 ≡ self }
        ensures waiting { IsWaiting J.opening J.found.epoch result.1 result.0 }
    {
        let Waiting { request, note } = self;
        (request, note)
    }
}
