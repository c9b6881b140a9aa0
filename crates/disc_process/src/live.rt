//! What is kept of the transactions that have come to a disc and have not released there.
ghost use Rattle.std.specs.Prelude.{◌≡◌, ◌⊎◌, ◌<◌, ◌≤◌, IsSome, OnOk, Some, None, true, slice_get, fold, if◌then◌else◌};
ghost use Rattle.disc_process.specs.LiveTx.{arrived, ended, gone_span, lifted_tx, noted, nothing_done, taken_back};
ghost use Rattle.tmf_model.specs.declared.transid.Transid.{Transid as TheTransid};
ghost use Rattle.trail_files.specs.MonitorOrder.{is_same_transid};

use record_locks::NoMemory;
use std::alloc::Global;
use std::collections::BTreeMap;
use tmf_model::{Key, Transid, Value};
use trail_files::AuditRecord;

/// A change that may be undone: where it was, and what stood there before it.
#[derive(Clone, Copy)]
pub struct Change {
    pub file: u8,
    pub key: Key,
    pub before: Option<Value>,
}

/// Where the records of a transaction stand.
#[derive(Clone, Copy)]
pub struct Span {
    /// The position of its first record, 0 where it has made none.
    pub first: u64,
    /// The position of its last record, what was undone too.
    pub newest: u64,
    /// The greatest position, up to its first record, that no records of one transaction which was backed out and has released lie round.
    pub bound: u64,
}

/// What is kept of one transaction.
#[derive(Drop)]
pub struct Live {
    /// Its changes that are not undone, the oldest first.
    changes: Vec<Change>,
    /// The position of its last change, 0 where it has made none.
    last: u64,
    /// Whether it has come here, whether it makes no more changes, and whether a change of it was undone.
    come: bool,
    closed: bool,
    undone: bool,
    /// Where its records stand.
    span: Span,
}

/// Of no record.
const NO_SPAN: Span = Span {
    first: 0,
    newest: 0,
    bound: 0,
};

impl Span {
    ghost use Rattle.disc_process.specs.Span.{grown};

    /// With one more record.
    fn grow(&mut self, position: u64)
        ensures { self.new ≡ grown self.old position }
    {
        if self.first == 0 {
            self.first = position;
            self.bound = position;
        }
        self.newest = position;
    }
}

/// The transactions that have not released.
#[derive(Drop)]
pub struct LiveTable {
    alloc: Global,
    live: BTreeMap<Transid, Live>,
}

impl Live {
    ghost use Rattle.disc_process.specs.Live.{has_room_in, lesser, lifted_live, live_in};

    /// Nothing is known of it.
    fn new(alloc: Global) -> Live
        ensures { live_in (Some result) ≡ live_in None }
    {
        Live {
            changes: Vec::new(alloc),
            last: 0,
            come: false,
            closed: false,
            undone: false,
            span: NO_SPAN,
        }
    }

    /// Makes room for one more change.
    fn reserve(&mut self) -> Result<(), NoMemory>
        ensures same { live_in (Some self.new) ≡ live_in (Some self.old) }
        ensures room { OnOk result (has_room_in (Some self.new) ≡ true) }
    {
        self.changes.reserve(1)?;
        Ok(())
    }

    /// Its newest change that is not undone.
    pub fn newest(&self) -> Option<Change>
        ensures { result ≡ slice_get (live_in (Some self.now)).left 0 }
    {
        self.changes.last().copied()
    }

    /// Notes that it has come here.
    fn arrive(&mut self)
        ensures { live_in (Some self.new) ≡ arrived (live_in (Some self.old)) }
    {
        self.come = true;
    }

    /// Takes its newest change back, by a record at this position.
    fn take_back(&mut self, position: u64)
        ensures { live_in (Some self.new) ≡ taken_back position (live_in (Some self.old)) }
    {
        self.changes.pop();
        self.undone = true;
        self.span.grow(position);
    }

    /// Notes a change.
    fn note(&mut self, item: &AuditRecord)
        requires { has_room_in (Some self.old) ≡ true }
        ensures { live_in (Some self.new) ≡ noted item.now (live_in (Some self.old)) }
    {
        self.come = true;
        self.last = item.position;
        self.span.grow(item.position);
        self.changes.push_reserved(Change {
            file: item.file,
            key: item.key,
            before: item.before,
        });
    }

    /// Moves its bound below the records of another one, which was backed out and has released, where they lie round it.
    fn lift(&mut self, gone: &Span)
        ensures { self.new ≡ lifted_live gone.now self.old }
    {
        if gone.first < self.span.bound && self.span.bound <= gone.newest {
            self.span.bound = gone.bound;
        }
    }

    /// Its bound, where it has made a record and the bound is less than this.
    fn lesser(&self, least: u64) -> u64
        ensures { result ≡ lesser least self.now }
    {
        if self.span.first > 0 && self.span.bound < least {
            self.span.bound
        } else {
            least
        }
    }

    /// Where its records stand, where a change of it was undone.
    fn ended_span(&self) -> Span
        ensures { result ≡ gone_span (live_in (Some self.now)) }
    {
        if self.undone { self.span } else { NO_SPAN }
    }

    /// Notes that it makes no more changes.
    fn close(&mut self)
        ensures { live_in (Some self.new) ≡ ended (live_in (Some self.old)) }
    {
        self.come = true;
        self.closed = true;
    }
}

impl LiveTable {
    ghost use Rattle.std.specs.BTreeMap.{IsOrdered, values};
    ghost use Rattle.disc_process.specs.Live.{has_room, lesser, live_of, tx_cmp};

    /// No transaction.
    pub fn new(alloc: Global) -> LiveTable
        ensures { (t : TheTransid) → live_of result t ≡ nothing_done }
    {
        LiveTable {
            alloc,
            live: BTreeMap::new(alloc),
        }
    }

    /// Makes room for one more change of a transaction.
    pub fn reserve(&mut self, t: Transid) -> Result<(), NoMemory>
        ensures same { (u : TheTransid) → live_of self.new u ≡ live_of self.old u }
        ensures room { OnOk result (has_room self.new t ≡ true) }
    {
        if !self.live.contains_key(&t) {
            self.live.insert(t, Live::new(self.alloc))?;
        }
        match self.live.get_mut(&t) {
            Some(live) => live.reserve(),
            None => Err(NoMemory),
        }
    }

    /// Notes a change.
    pub fn note(&mut self, item: &AuditRecord)
        requires { has_room self.old item.now.tx ≡ true }
        ensures { (u : TheTransid) → live_of self.new u
            ≡ (if is_same_transid item.now.tx u then noted item.now (live_of self.old u) else live_of self.old u) }
    {
        if let Some(live) = self.live.get_mut(&item.tx) {
            live.note(item);
        }
    }

    /// Notes that a transaction has come here.
    pub fn arrive(&mut self, t: Transid)
        requires { has_room self.old t ≡ true }
        ensures { (u : TheTransid) → live_of self.new u
            ≡ (if is_same_transid t u then arrived (live_of self.old u) else live_of self.old u) }
    {
        if let Some(live) = self.live.get_mut(&t) {
            live.arrive();
        }
    }

    /// Takes the newest change of a transaction back, by a record at this position.
    pub fn take_back(&mut self, t: &Transid, position: u64)
        requires { IsSome (slice_get (live_of self.old t.now).left 0) }
        ensures { (u : TheTransid) → live_of self.new u ≡ (if is_same_transid t.now u then taken_back position (live_of self.old u) else live_of self.old u) }
    {
        if let Some(live) = self.live.get_mut(t) {
            live.take_back(position);
        }
    }

    /// Forgets a transaction that has ended. The bounds of the others that its records lie round, if it was backed out, fall to its own.
    pub fn remove(&mut self, t: &Transid)
        ensures { (u : TheTransid) → live_of self.new u ≡ (if is_same_transid t.now u then nothing_done else lifted_tx (gone_span (live_of self.old t.now)) (live_of self.old u)) }
    {
        let gone = self.gone_span(t);
        self.live.remove(t);
        self.live.retain(|_, live| {
            live.lift(&gone);
            true
        });
    }

    /// Where the records of a transaction stand, where a change of it was undone.
    fn gone_span(&self, t: &Transid) -> Span
        ensures { result ≡ gone_span (live_of self.now t.now) }
    {
        match self.live.get(t) {
            Some(live) => live.ended_span(),
            None => NO_SPAN,
        }
    }

    /// The least bound of the transactions that have made records, or this one where it is less.
    pub fn least_bound(&self, next: u64) -> u64
        ensures below { result ≤ next }
        ensures each { (t : TheTransid) → 0 < (live_of self.now t).span.first → result ≤ (live_of self.now t).span.bound }
        ensures one { (result ≡ next) ⊎ ((t : TheTransid) × (0 < (live_of self.now t).span.first) × (result ≡ (live_of self.now t).span.bound)) }
    {
        self.folded(next)
    }

    /// The same, as a fold over the entries.
    fn folded(&self, next: u64) -> u64
        ensures folded { result ≡ fold lesser next (values self.now.live) }
        ensures ordered { IsOrdered tx_cmp self.now.live }
    {
        self.live
            .values()
            .fold(next, |least, live| live.lesser(least))
    }

    /// Whether it has come here, and is not forgotten.
    pub fn has_come(&self, t: &Transid) -> bool
        ensures { result ≡ (live_of self.now t.now).come }
    {
        match self.live.get(t) {
            Some(live) => live.come,
            None => false,
        }
    }

    /// The newest change of a transaction that is not undone.
    pub fn newest(&self, t: &Transid) -> Option<Change>
        ensures { result ≡ slice_get (live_of self.now t.now).left 0 }
    {
        match self.live.get(t) {
            Some(live) => live.newest(),
            None => None,
        }
    }

    /// Notes that a transaction makes no more changes.
    pub fn close(&mut self, t: Transid)
        requires { has_room self.old t ≡ true }
        ensures { (u : TheTransid) → live_of self.new u
            ≡ (if is_same_transid t u then ended (live_of self.old u) else live_of self.old u) }
    {
        if let Some(live) = self.live.get_mut(&t) {
            live.close();
        }
    }

    /// Whether it makes no more changes.
    pub fn has_closed(&self, t: &Transid) -> bool
        ensures { result ≡ (live_of self.now t.now).closed }
    {
        match self.live.get(t) {
            Some(live) => live.closed,
            None => false,
        }
    }

    /// The position of its last change, 0 where it has made none.
    pub fn last(&self, t: &Transid) -> u64
        ensures { result ≡ (live_of self.now t.now).last }
    {
        match self.live.get(t) {
            Some(live) => live.last,
            None => 0,
        }
    }
}
