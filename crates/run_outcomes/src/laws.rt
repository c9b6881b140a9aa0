//! What holds of each history of a run.
ghost use Rattle.run_outcomes.specs.Between.{BeginLaw, GoOnLaw, NextHasNoneLaw};
ghost use Rattle.run_outcomes.specs.Counted.{CountedLaw, MovesLaw, OthersLaw, TokensLaw};
ghost use Rattle.run_outcomes.specs.Joined.{JoinedLaw, NoneLaw};
ghost use Rattle.run_outcomes.specs.Knowing.{EnoughLaw, FirstLaw, MovesKnownLaw, OnceLaw, StillLaw, ThenLaw};
ghost use Rattle.run_outcomes.specs.Left.{ReturnedLaw};
ghost use Rattle.run_outcomes.specs.Ran.{RanLaw};
ghost use Rattle.run_outcomes.specs.Reread.{NotRunRereadLaw, RereadLaw};
ghost use Rattle.run_outcomes.specs.Steps.{SeenLaw};
ghost use Rattle.run_outcomes.specs.Telling.{EachLaw, NoOtherLaw, RecordsLaw, ToldLaw, WithinLaw};

use disk_model::Disk;
use node_laws::{events_law, holder_law};

/// Whoever has seen that an attempt's steps are ended has seen all of them: the history has no more of them, of what its reads have found and
/// of its turns, where each disc has told the attempt's steps in time.
pub fn seen_law()
    ensures { SeenLaw }
{}

/// Behind the events of one attempt, by which it is decided, a worker may go on with each later one; and what may be its next it can begin, and has had no event for.
pub fn next_law()
    ensures go_on { GoOnLaw }
    ensures begins { BeginLaw }
    ensures none { NextHasNoneLaw }
{
    events_law();
}

/// What a worker knows of its acts and of the moves for its items: none when it begins, and one more for each token that it gives, of which it has enough.
pub fn knowing_law()
    ensures first { FirstLaw }
    ensures once { OnceLaw }
    ensures still { StillLaw }
    ensures next { ThenLaw }
    ensures enough { EnoughLaw }
    ensures moves { MovesKnownLaw }
{}

/// Where the discs together have had as many acts as the workers know of their own, nobody has had another act; and the same of the moves of a low position and the begins of
/// dumps. Where all tokens are accounted for, nobody has had another of either.
pub fn counted_law()
    ensures counted { CountedLaw }
    ensures others { OthersLaw }
    ensures tokens { TokensLaw }
    ensures moves { MovesLaw }
{}

/// What was found of the devices, what is left of them and what the history tells of the outcomes make a run.
pub fn ran_law<D: Disk>()
    ensures { RanLaw D.Disk }
{}

/// What a run leaves of the devices that were handed in comes back.
pub fn returned_law<D: Disk>()
    ensures { ReturnedLaw D.Disk }
{}

/// What is so of a run over devices that were read before is so of a run over them as they were handed in; and the same where no worker has begun.
pub fn reread_law<D: Disk>()
    ensures ran { RereadLaw D.Disk }
    ensures not_run { NotRunRereadLaw D.Disk }
{}

/// What each worker knows of its outcomes, with the tokens of all, is what the history has: for each outcome what it tells, nothing of any other
/// attempt or item, no record of the monitor trail but theirs, and nothing that was begun past the limit of events.
pub fn told_law<D: Disk>()
    ensures each { EachLaw D.Disk }
    ensures no_other { NoOtherLaw D.Disk }
    ensures told { ToldLaw D.Disk }
    ensures records { RecordsLaw D.Disk }
    ensures within { WithinLaw D.Disk }
{
    events_law();
    holder_law();
}

/// A worker goes on by one outcome more, whatever attempt or item that is of; and it has had no event for one that is later than those of its outcomes.
pub fn joined_law<D: Disk>()
    ensures joined { JoinedLaw D.Disk }
    ensures none { NoneLaw D.Disk }
{
    events_law();
}
