//! The start of a chronicle: its table first, then its name and the seats of all parts.
ghost use Rattle.std.specs.Prelude.{◌≡◌, ◌+◌, ◌<◌, length, IfOk};
ghost use Rattle.chronicle.specs.Seats.{new_seat, new_seats};
ghost use Rattle.chronicle.specs.Holders.{IsDealing};

use crate::chronicle::Chronicle;
use crate::counter;
use crate::counter::{Counter, Pass};
use crate::machine::{Machine, Opens};
use crate::no_memory::NoMemory;
use crate::run::Run;
use crate::seat::Seat;
use atomic_table::Table;
use std::alloc::Global;
use std::marker::{Brand, Model};

/// A chronicle that has no name yet, and no seats. Contracts see it as an `Opening`, its table and the
/// opening state of each part.
#[derive(Drop)]
pub struct Started<M: Machine> {
    counter: Counter<M>,
    pass: Pass<M>,
    parts: u32,
}

impl<M: Machine> Model for Started<M> {
    ghost use Rattle.chronicle.specs.Seats.{Opening};
    ghost use Rattle.chronicle.specs.Holders.{IsStarted};

    ghost Value = { Opening M.State };

    ghost view = { λ s. record { table = s.counter.shared.table_id; states = s.pass.me.0.opening } };

    ghost invariant = { λ s. IsStarted s.counter.shared.table_id s.parts s.pass };
}

impl<M: Machine> Started<M> {
    /// An empty history of so many parts, which open as `from` says.
    pub fn new<T: Opens<M>>(alloc: Global, parts: u32, from: &T) -> Result<Started<M>, NoMemory>
        requires some { 0 < parts }
        requires all { parts ≡ length (T.opening from.now) }
        ensures { IfOk result (λ s. s.states ≡ T.opening from.now) }
    {
        let (counter, mut pass) = Table::of_words(alloc, &[0], &())?;
        counter::open::<M, T, Brand>(&counter, &mut pass, from);
        Ok(Started {
            counter,
            pass,
            parts,
        })
    }

    /// The chronicle under the name `J`, and the seats of its parts: the i-th is the seat of part i.
    pub fn named<J: Run<M::State>>(
        self,
        alloc: Global,
    ) -> Result<(Chronicle<M, J>, Vec<Seat<M, J>>), NoMemory>
        requires { (self.table ≡ J.table) × (self.states ≡ J.opening) }
        ensures { IfOk result (λ r. r.1.items ≡ new_seats (length J.opening)) }
    {
        let Started {
            counter,
            pass,
            parts,
        } = self;
        let seats = deal_all::<M, J>(alloc, &counter, pass, parts);
        with_seats(counter, seats)
    }
}

// The seat of the next part.
fn deal_next<M: Machine, J: Run<M::State>>(
    counter: &Counter<M>,
    all: &mut Pass<M>,
    part: u32,
) -> Seat<M, J>
    requires own { (counter.now.shared.table_id ≡ J.table) × (0 < counter.now.shared.table_id.words) }
    requires dealing { IsDealing J.table J.opening part all.old }
    requires more { part < length J.opening }
    ensures seat { result ≡ new_seat part }
    ensures rest { IsDealing J.table J.opening (part + 1) all.new }
{
    Seat::new(counter::deal::<M>(counter, all))
}

fn deal_all<M: Machine, J: Run<M::State>>(
    alloc: Global,
    counter: &Counter<M>,
    mut all: Pass<M>,
    parts: u32,
) -> Result<Vec<Seat<M, J>>, NoMemory>
    requires own { (counter.now.shared.table_id ≡ J.table) × (0 < counter.now.shared.table_id.words) }
    requires dealing { IsDealing J.table J.opening 0 all }
    requires many { parts ≡ length J.opening }
    ensures { IfOk result (λ seats. seats.items ≡ new_seats (length J.opening)) }
{
    let mut seats = Vec::new(alloc);
    for part in 0..parts {
        seats.push(deal_next::<M, J>(counter, &mut all, part))?;
    }
    Ok(seats)
}

fn with_seats<M: Machine, J: Run<M::State>>(
    counter: Counter<M>,
    seats: Result<Vec<Seat<M, J>>, NoMemory>,
) -> Result<(Chronicle<M, J>, Vec<Seat<M, J>>), NoMemory>
    requires own { (counter.shared.table_id ≡ J.table) × (counter.shared.table_id.words ≡ 1)
        × (counter.shared.table_id.slots ≡ 0) }
    requires some { 0 < length J.opening }
    requires dealt { IfOk seats (λ s. s.items ≡ new_seats (length J.opening)) }
    ensures { IfOk result (λ r. r.1.items ≡ new_seats (length J.opening)) }
{
    let seats = seats?;
    Ok((Chronicle::new(counter), seats))
}
