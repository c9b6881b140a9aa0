//! Room for the requests of the next car, and the last request that was taken of each worker.
ghost use Rattle.std.specs.Prelude.{◌≡◌, ◌++◌, ◌∷◌, [], ◌<◌, ◌≤◌, ◌↔◌, length, Some, None, IsTrue, IfOk, MatchOption, slice_get};
ghost use Rattle.std.proofs.Common.{set};
ghost use Rattle.node_machine.specs.Monitor.{ended_by};
ghost use Rattle.node_machine.specs.Same.{IsBefore};
ghost use Rattle.tmf_model.specs.declared.transid.Transid.{Transid};
ghost use Rattle.commit_boxcar.specs.Line.{nobody, IsFree, HasPlace};

use chronicle::NoMemory;
use std::alloc::Global;
use std::marker::Model;
use tmf_model::Transid;
use trail_files::MonitorRecord;

/// The greatest number of requests of a car.
pub(crate) const MOST: usize = 64;

/// A request that was taken, and the place where it stands or will stand.
#[derive(Clone, Copy)]
pub(crate) struct Taken {
    pub(crate) request: MonitorRecord,
    pub(crate) place: u64,
}

#[derive(Drop)]
pub(crate) struct Room {
    requests: Vec<MonitorRecord>,
    last: [Option<Taken>; 17],
    // The same, without the requests.
    written: [Option<Taken>; 17],
}

impl Model for Room {
    ghost use Rattle.std.specs.Prelude.{◌≡◌, ◌≤◌, length, vec_capacity};
    ghost use Rattle.commit_boxcar.specs.Line.{InRoom};

    ghost Value = { InRoom };

    ghost view = { λ r. record { requests = r.requests.items; last = r.last; written = r.written } };

    ghost invariant = { λ r. (64 ≤ vec_capacity r.requests) × (length r.last ≡ 17) × (length r.written ≡ 17) };
}

impl Room {
    pub(crate) fn new(alloc: Global) -> Result<Self, NoMemory>
        ensures { IfOk result (λ r. r ≡ record { requests = []; last = nobody; written = nobody }) }
    {
        Ok(Room {
            requests: Vec::with_capacity(alloc, MOST)?,
            last: [None; 17],
            written: [None; 17],
        })
    }

    pub(crate) fn requests(&self) -> &[MonitorRecord]
        ensures { result.now ≡ self.now.requests }
    {
        self.requests.as_slice()
    }

    /// Whether the attempt is later than the last one that was taken of its worker.
    pub(crate) fn accepts(&self, tx: Transid) -> bool
        requires { tx.worker ≤ 16 }
        ensures { IsTrue result ↔ IsFree self.now.last tx }
    {
        match self.last[usize::from(tx.worker)] {
            None => true,
            Some(taken) => match ended(taken.request) {
                None => true,
                Some(last) => is_before(last, tx),
            },
        }
    }

    /// Takes a request, which stands or will stand at this place.
    pub(crate) fn push(&mut self, request: MonitorRecord, tx: Transid, place: u64)
        requires few { length self.old.requests < 64 }
        requires worker { tx.worker ≤ 16 }
        ensures requests { self.new.requests ≡ self.old.requests ++ request ∷ [] }
        ensures last { self.new.last ≡ set self.old.last tx.worker (Some (record { request = request; place = place })) }
        ensures written { self.new.written ≡ self.old.written }
    {
        let _ = self.requests.as_slice();
        self.requests.push_reserved(request);
        self.last[usize::from(tx.worker)] = Some(Taken { request, place });
    }

    /// Where the request stands or will stand, if it is the last that was taken of its worker.
    pub(crate) fn place_of(&self, request: MonitorRecord) -> Option<u64>
        requires { (t : Transid) → ended_by request ≡ Some t → t.worker ≤ 16 }
        ensures { HasPlace self.now.last request result }
    {
        let tx = ended(request)?;
        match self.last[usize::from(tx.worker)] {
            None => None,
            Some(taken) if is_same(taken.request, request) => Some(taken.place),
            Some(_) => None,
        }
    }

    /// Gives the requests up, once they are offered.
    pub(crate) fn clear(&mut self)
        ensures { self.new ≡ record { requests = []; last = self.old.last; written = self.old.last } }
    {
        self.requests.clear();
        self.written = self.last;
    }

    /// Leaves the requests out, as if they had not been taken.
    pub(crate) fn empty(&mut self)
        ensures { self.new ≡ record { requests = []; last = self.old.written; written = self.old.written } }
    {
        self.requests.clear();
        self.last = self.written;
    }
}

// Whether the first of two attempts of one worker came earlier.
pub(crate) fn is_before(a: Transid, b: Transid) -> bool
    ensures { IsTrue result ↔ IsBefore a b }
{
    a.ordinal < b.ordinal || (a.ordinal == b.ordinal && a.attempt < b.attempt)
}

/// The attempt that the request ends.
pub(crate) fn ended(request: MonitorRecord) -> Option<Transid>
    ensures { result ≡ ended_by request }
{
    match request {
        MonitorRecord::Start(_) => None,
        MonitorRecord::Commit(tx) => Some(tx),
        MonitorRecord::Abort(tx) => Some(tx),
    }
}

// Whether two records are the same.
fn is_same(a: MonitorRecord, b: MonitorRecord) -> bool
    ensures { IsTrue result ↔ a ≡ b }
{
    match (a, b) {
        (MonitorRecord::Commit(x), MonitorRecord::Commit(y)) => is_same_attempt(x, y),
        (MonitorRecord::Abort(x), MonitorRecord::Abort(y)) => is_same_attempt(x, y),
        (MonitorRecord::Start(x), MonitorRecord::Start(y)) => x == y,
        _ => false,
    }
}

fn is_same_attempt(a: Transid, b: Transid) -> bool
    ensures { IsTrue result ↔ a ≡ b }
{
    a.epoch == b.epoch && a.worker == b.worker && a.ordinal == b.ordinal && a.attempt == b.attempt
}
