//! The queue between the discs of a trail and its writer, its rule, and the passes of it.
ghost use Rattle.std.specs.Prelude.{◌≡◌, ℕ, List, [], true, MatchOption, MatchResult};
ghost use Rattle.std.specs.Arc.{arc_value};
ghost use Rattle.crossbeam_queue.specs.Passes.{view, IsPassOf};
ghost use Rattle.audit_writer.specs.Handing.{disc_of, last_of};
ghost use Rattle.audit_writer.specs.Parcels.{Follows, Has, HasTurned, IsAllPopped, MayFollow, all_discs, and_then, has_heard, holding, one_disc, popping, queue_end, reached, told_of, without_disc};

use crate::name::NodeRun;
use crate::parcel::Parcel;
use chronicle::NoMemory;
use crossbeam_queue::protocol::{Join, Lesson, Outcome, Protocol, Split};
use crossbeam_queue::{Pass, RuledArrayQueue};
use std::alloc::Global;
use std::marker::{Brand, Model, PhantomData};
use std::sync::{Arc, Wait};

/// How many parcels the queue has room for.
const ROOM: usize = 1024;

/// What a pass may do, and how far it has come. No value of it is made.
pub struct Hands;

impl Model for Hands {
    ghost use Rattle.audit_writer.specs.Parcels.{Sharing, all_rights};

    ghost Value = { Sharing };

    ghost view = { λ _. all_rights };
}

/// The rule: the parcels of each disc lead from what was popped to what was pushed.
pub struct DiscRows;

impl<J: NodeRun, const N: u8> Protocol<Parcel<J, N>, Hands> for DiscRows {
    ghost use Rattle.audit_writer.specs.Parcels.{IsRuled, all_rights};

    ghost holds = { IsRuled };

    ghost first = { all_rights };
}

/// Cuts off the right to pop.
struct ToPop;

impl Split<Hands> for ToPop {
    ghost use Rattle.audit_writer.specs.Parcels.{without_pops, pops_of};

    ghost left = { without_pops };

    ghost right = { pops_of };
}

/// A disc, as a call picks it.
pub trait PicksDisc {
    ghost use Rattle.std.specs.Prelude.{ℕ};

    ghost disc: { ℕ };
}

impl PicksDisc for Brand {
    ghost disc = { 0 };
}

/// Which queue it is: both ends of a queue carry its name.
pub trait QueueName {
    ghost use Rattle.atomic_table.specs.Seated.{TableId};

    ghost queue: { TableId };
}

impl QueueName for Brand {
    ghost use Rattle.audit_writer.specs.Parcels.{no_queue};

    ghost queue = { no_queue };
}

/// Cuts off the right to push for one disc.
struct ToPush<X> {
    of: PhantomData<X>,
}

impl<X: PicksDisc> Split<Hands> for ToPush<X> {
    ghost use Rattle.audit_writer.specs.Parcels.{without_disc, one_disc};

    ghost left = { without_disc X.disc };

    ghost right = { λ _. one_disc X.disc 0 };
}

/// Tells another pass how far one has pushed.
struct ToTell;

impl Split<Hands> for ToTell {
    ghost use Rattle.audit_writer.specs.Parcels.{told_of};

    ghost left = { λ v. v };

    ghost right = { told_of };
}

/// Tells another pass what one was told.
struct ToRepeat;

impl Split<Hands> for ToRepeat {
    ghost use Rattle.audit_writer.specs.Parcels.{heard_of};

    ghost left = { λ v. v };

    ghost right = { heard_of };
}

impl Join<Hands> for ToTell {
    ghost use Rattle.audit_writer.specs.Parcels.{with_told, no_rights};

    ghost both = { with_told };

    ghost spent = { no_rights };
}

/// A parcel was pushed.
struct Pushed;

impl<J: NodeRun, const N: u8> Outcome<Parcel<J, N>, Hands> for Pushed {
    ghost use Rattle.audit_writer.specs.Parcels.{HasPushed};

    ghost then = { HasPushed };
}

impl<J: NodeRun, const N: u8> Lesson<Parcel<J, N>, Hands> for Pushed {
    ghost fact = { λ v items. Unit {0} };
}

/// A parcel was popped.
struct Popped;

impl<J: NodeRun, const N: u8> Outcome<Parcel<J, N>, Hands> for Popped {
    ghost use Rattle.audit_writer.specs.Parcels.{HasPopped};

    ghost then = { HasPopped };
}

impl<J: NodeRun, const N: u8> Lesson<Parcel<J, N>, Hands> for Popped {
    ghost use Rattle.audit_writer.specs.Parcels.{EmptyTells};

    ghost fact = { EmptyTells };
}

/// The queue of the trail with the number `N`.
pub type HandOff<J, const N: u8> = RuledArrayQueue<Parcel<J, N>, Hands, DiscRows>;

/// A pass of it.
pub type HandOffPass<J, const N: u8> = Pass<Parcel<J, N>, Hands>;

/// What a disc's pass had pushed when it was asked. Contracts see the queue, the disc and the last position.
#[derive(Drop)]
pub struct Receipt<J: NodeRun, const N: u8> {
    pass: HandOffPass<J, N>,
    disc: u8,
    to: u64,
}

impl<J: NodeRun, const N: u8> Model for Receipt<J, N> {
    ghost use Rattle.std.specs.Prelude.{◌≡◌, []};
    ghost use Rattle.crossbeam_queue.specs.Passes.{view as pass_view};
    ghost use Rattle.audit_writer.specs.Parcels.{Holding, holding, one_disc, told_of};

    ghost Value = { Holding };

    ghost view = { λ r. holding r.pass.table_id r.disc r.to };

    ghost invariant = { λ r. (r.pass.me.1 ≡ []) × (pass_view r.pass ≡ told_of (one_disc r.disc r.to)) };
}

impl<J: NodeRun, const N: u8> Receipt<J, N> {
    /// The receipt for what the pass of a disc has pushed.
    pub fn new(pass: HandOffPass<J, N>, disc: u8, to: u64) -> Self
        requires own { pass.me.1 ≡ [] }
        requires told { view pass ≡ told_of (one_disc disc to) }
        ensures { result ≡ holding pass.table_id disc to }
    {
        Receipt { pass, disc, to }
    }

    /// Its disc, and the last position.
    pub fn reached(&self) -> (u8, u64)
        ensures { (result.0 ≡ self.now.disc) × (result.1 ≡ self.now.pushed) }
    {
        (self.disc, self.to)
    }
}

/// The writer's end of the queue. Contracts see which queue it is, what was popped, what it was told, how often the writer has turned to it for a parcel,
/// and how many pops found none.
#[derive(Drop)]
pub struct PopEnd<J: NodeRun, Q: QueueName, const N: u8> {
    queue: Arc<HandOff<J, N>, Global>,
    pass: HandOffPass<J, N>,
    turns: u64,
    misses: u64,
    of: PhantomData<Q>,
}

impl<J: NodeRun, Q: QueueName, const N: u8> Model for PopEnd<J, Q, N> {
    ghost use Rattle.std.specs.Prelude.{◌≡◌, ◌≤◌, ℕ, List};
    ghost use Rattle.std.specs.Arc.{arc_value};
    ghost use Rattle.crossbeam_queue.specs.Passes.{view as pass_view, IsPassOf};
    ghost use Rattle.audit_writer.specs.Parcels.{QueueEnd, popping};

    ghost Value = { QueueEnd };

    ghost view = { λ e. record { queue = e.pass.table_id; pass = pass_view e.pass; turns = e.turns; misses = e.misses } };

    ghost invariant = { λ e. IsPassOf (arc_value e.queue) e.pass × (from : List (ℕ × ℕ)) × (pass_view e.pass ≡ popping from (pass_view e.pass).told) × (e.pass.table_id ≡ Q.queue) × (e.misses ≤ e.turns) };
}

impl<J: NodeRun, Q: QueueName, const N: u8> PopEnd<J, Q, N> {
    /// Says that it is of the queue with its name. It does nothing.
    pub fn lawful(&self)
        ensures { self.now.queue ≡ Q.queue }
    {
        let _ = &self.of;
    }

    /// The oldest parcel. Where there is none, or another thread is just pushing it, `None`: it waits for nobody.
    pub fn pop(&mut self) -> Option<Parcel<J, N>>
        ensures queue { self.new.queue ≡ self.old.queue }
        ensures popped { MatchOption result (self.new.pass ≡ self.old.pass)
            (λ p. (from : List (ℕ × ℕ)) × (self.old.pass ≡ popping from self.old.pass.told) × Follows (reached from (disc_of p.records)) p
            × (self.new.pass ≡ popping (and_then p from) self.old.pass.told)) }
        ensures turned { MatchOption result (HasTurned 1 1 self.old self.new) (λ _. HasTurned 1 0 self.old self.new) }
    {
        let popped = self.queue.try_pop_as::<Popped>(&mut self.pass);
        self.turns = self.turns.saturating_add(1);
        if popped.is_none() {
            self.misses = self.misses.saturating_add(1);
        }
        popped
    }

    /// Counts a turn of a writer that holds a parcel already, so that it pops none.
    pub fn turn(&mut self)
        ensures same { (self.new.queue ≡ self.old.queue) × (self.new.pass ≡ self.old.pass) }
        ensures turned { HasTurned 1 0 self.old self.new }
    {
        self.turns = self.turns.saturating_add(1);
    }

    /// Whether the queue was seen empty. Then all was popped of which it was told that it was pushed.
    pub fn is_empty(&mut self) -> bool
        ensures same { self.new ≡ self.old }
        ensures all { result ≡ true → IsAllPopped self.new.pass }
    {
        self.queue.is_empty_as::<Popped>(&mut self.pass)
    }

    /// Takes in what a receipt of its queue tells.
    pub fn hear(&mut self, receipt: &mut Receipt<J, N>)
        requires queue { receipt.old.queue ≡ self.old.queue }
        ensures heard { self.new ≡ has_heard receipt.old.disc receipt.old.pushed self.old }
        ensures same { receipt.new ≡ receipt.old }
    {
        let copy = self.queue.another::<ToRepeat>(&mut receipt.pass);
        self.queue.absorb::<ToTell>(&mut self.pass, copy);
    }
}

/// The discs' end of the queue. Contracts see which queue it is.
#[derive(Drop)]
pub struct Entrance<J: NodeRun, Q: QueueName, const N: u8> {
    queue: Arc<HandOff<J, N>, Global>,
    of: PhantomData<Q>,
}

impl<J: NodeRun, Q: QueueName, const N: u8> Model for Entrance<J, Q, N> {
    ghost use Rattle.std.specs.Prelude.{◌≡◌};
    ghost use Rattle.std.specs.Arc.{arc_value};
    ghost use Rattle.atomic_table.specs.Seated.{TableId};

    ghost Value = { TableId };

    ghost view = { λ e. (arc_value e.queue).table.shared.table_id };

    ghost invariant = { λ e. (arc_value e.queue).table.shared.table_id ≡ Q.queue };
}

impl<J: NodeRun, Q: QueueName, const N: u8> Entrance<J, Q, N> {
    /// Says that it is of the queue with its name. It does nothing.
    pub fn lawful(&self)
        ensures { self.now ≡ Q.queue }
    {
        let _ = &self.of;
    }

    /// Pushes a parcel of the pass's disc. A full queue gives it back.
    pub fn push<R: Wait>(
        &self,
        rt: &R,
        pass: &mut HandOffPass<J, N>,
        parcel: Parcel<J, N>,
    ) -> Result<(), Parcel<J, N>>
        requires own { (pass.old.table_id ≡ self.now) × (pass.old.me.1 ≡ []) }
        requires may { MayFollow (view pass.old) parcel }
        ensures own { (pass.new.table_id ≡ pass.old.table_id) × (pass.new.me.1 ≡ []) }
        ensures pushed { MatchResult result (λ _. view pass.new ≡ one_disc (disc_of parcel.records) (last_of parcel.records)) (λ back. (back ≡ parcel) × (view pass.new ≡ view pass.old)) }
    {
        self.queue.push_as::<Pushed, R>(rt, pass, parcel)
    }

    /// A pass that knows how far this one has pushed.
    pub fn tell(&self, pass: &mut HandOffPass<J, N>) -> HandOffPass<J, N>
        requires own { (pass.old.table_id ≡ self.now) × (pass.old.me.1 ≡ []) }
        ensures own { (result.table_id ≡ self.now) × (result.me.1 ≡ []) }
        ensures told { view result ≡ told_of (view pass.old) }
        ensures same { (pass.new.table_id ≡ pass.old.table_id) × (pass.new.me.1 ≡ []) × (view pass.new ≡ view pass.old) }
    {
        self.queue.another::<ToTell>(pass)
    }
}

/// The passes that no disc has taken. They stay outside of the lock, since a pass of the queue may not be shared by threads. Contracts see which
/// queue they are of, and their rights.
#[derive(Drop)]
pub struct Passes<J: NodeRun, Q: QueueName, const N: u8> {
    queue: Arc<HandOff<J, N>, Global>,
    pass: HandOffPass<J, N>,
    of: PhantomData<Q>,
}

impl<J: NodeRun, Q: QueueName, const N: u8> Model for Passes<J, Q, N> {
    ghost use Rattle.std.specs.Prelude.{◌≡◌};
    ghost use Rattle.std.specs.Arc.{arc_value};
    ghost use Rattle.crossbeam_queue.specs.Passes.{view as pass_view, IsPassOf};
    ghost use Rattle.audit_writer.specs.Parcels.{QueueEnd, queue_end};

    ghost Value = { QueueEnd };

    ghost view = { λ e. queue_end e.pass.table_id (pass_view e.pass) };

    ghost invariant = { λ e. IsPassOf (arc_value e.queue) e.pass × (e.pass.table_id ≡ Q.queue) };
}

impl<J: NodeRun, Q: QueueName, const N: u8> Passes<J, Q, N> {
    /// Says that they are of the queue with their name. It does nothing.
    pub fn lawful(&self)
        ensures { self.now.queue ≡ Q.queue }
    {
        let _ = &self.of;
    }

    /// The pass of a disc, which was not taken.
    pub fn take<X: PicksDisc>(&mut self, disc: u8) -> HandOffPass<J, N>
        requires picked { X.disc ≡ disc }
        requires untaken { Has self.old.pass.hands (disc, 0) }
        ensures own { (result.table_id ≡ self.old.queue) × (result.me.1 ≡ []) }
        ensures alone { view result ≡ one_disc disc 0 }
        ensures taken { self.new ≡ queue_end self.old.queue (without_disc disc self.old.pass) }
    {
        cut_off::<J, N, X>(&self.queue, &mut self.pass, disc)
    }
}

// Cuts off the pass of the disc that the call picks.
fn cut_off<J: NodeRun, const N: u8, X: PicksDisc>(
    queue: &HandOff<J, N>,
    pass: &mut HandOffPass<J, N>,
    disc: u8,
) -> HandOffPass<J, N>
    requires own { IsPassOf queue.now pass.old }
    requires picked { X.disc ≡ disc }
    requires may { Has (view pass.old).hands (disc, 0) }
    ensures own { IsPassOf queue.now pass.new × IsPassOf queue.now result }
    ensures left { view pass.new ≡ without_disc disc (view pass.old) }
    ensures alone { view result ≡ one_disc disc 0 }
{
    let _ = disc;
    queue.another::<ToPush<X>>(pass)
}

/// An empty queue that has no name yet. Contracts see which queue it is.
#[derive(Drop)]
pub struct OpenQueue<J: NodeRun, const N: u8> {
    entrance: Arc<HandOff<J, N>, Global>,
    queue: Arc<HandOff<J, N>, Global>,
    pass: HandOffPass<J, N>,
    theirs: Arc<HandOff<J, N>, Global>,
    pops: HandOffPass<J, N>,
}

impl<J: NodeRun, const N: u8> Model for OpenQueue<J, N> {
    ghost use Rattle.std.specs.Prelude.{◌≡◌, []};
    ghost use Rattle.std.specs.Arc.{arc_value};
    ghost use Rattle.atomic_table.specs.Seated.{TableId};
    ghost use Rattle.crossbeam_queue.specs.Passes.{view as pass_view, IsPassOf};
    ghost use Rattle.audit_writer.specs.Parcels.{all_discs, popping};

    ghost Value = { TableId };

    ghost view = { λ q. q.pass.table_id };

    ghost invariant = { λ q. IsPassOf (arc_value q.queue) q.pass × IsPassOf (arc_value q.theirs) q.pops × ((pass_view q.pass).hands ≡ all_discs)
        × (pass_view q.pops ≡ popping [] []) × (q.pops.table_id ≡ q.pass.table_id) × ((arc_value q.entrance).table.shared.table_id ≡ q.pass.table_id) };
}

impl<J: NodeRun, const N: u8> OpenQueue<J, N> {
    /// The two ends of the queue under its name, the discs' end and the writer's, and the passes of the discs. It takes no memory.
    pub fn named<Q: QueueName>(self) -> (Entrance<J, Q, N>, PopEnd<J, Q, N>, Passes<J, Q, N>)
        requires { self ≡ Q.queue }
        ensures popped { result.1.pass ≡ popping [] [] }
        ensures untaken { result.2.pass.hands ≡ all_discs }
    {
        let OpenQueue {
            entrance,
            queue,
            pass,
            theirs,
            pops,
        } = self;
        let entrance = Entrance {
            queue: entrance,
            of: PhantomData,
        };
        let passes = Passes {
            queue,
            pass,
            of: PhantomData,
        };
        let end = PopEnd {
            queue: theirs,
            pass: pops,
            turns: 0,
            misses: 0,
            of: PhantomData,
        };
        (entrance, end, passes)
    }
}

/// An empty queue.
pub fn open_queue<J: NodeRun, const N: u8>(alloc: Global) -> Result<OpenQueue<J, N>, NoMemory> {
    let (queue, mut pass) = HandOff::<J, N>::ruled(alloc, ROOM)?;
    let pops = queue.another::<ToPop>(&mut pass);
    let queue = Arc::new(alloc, queue)?;
    let theirs = Arc::try_clone(&queue)?;
    let entrance = Arc::try_clone(&queue)?;
    Ok(OpenQueue {
        entrance,
        queue,
        pass,
        theirs,
        pops,
    })
}
