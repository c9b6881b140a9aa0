//! The room for the outcomes of all workers, taken before any begins.
ghost use Rattle.std.specs.Prelude.{◌≡◌, ◌≤◌, IfOk};
ghost use Rattle.tmf_model.specs.Script.{IsValidPhase, IsValidWorker};
ghost use Rattle.run_outcomes.specs.Outcomes.{most_attempts};
ghost use Rattle.run_outcomes.specs.Room.{most_outcomes};
ghost use Rattle.run_threads.specs.Room.{IsRoomForAll, most_of_all};

use run_outcomes::Outcome;
use std::alloc::{AllocError, Global};
use tmf_model::{Config, Item, Phase};

/// How often an item may be attempted.
fn most_attempts(item: &Item) -> usize
    ensures { result ≡ most_attempts item.now }
{
    match item {
        Item::Transaction(transaction) => usize::from(transaction.attempts),
        Item::Control(_) | Item::Dump(_) => 1,
    }
}

/// How many outcomes a worker's items may come to.
fn most_outcomes(config: &Config, items: &[Item]) -> usize
    requires { IsValidWorker config.now items.now }
    ensures is { result ≡ most_outcomes items.now }
    ensures few { result ≤ 32768 }
{
    let _ = config;
    let mut count = 0;
    for item in items {
        count += most_attempts(item);
    }
    count
}

/// How many outcomes the items of all workers may come to.
fn most_of_all(config: &Config, phase: &Phase) -> usize
    requires { IsValidPhase config.now phase.now }
    ensures { result ≡ most_of_all phase.now }
{
    let workers = phase.workers.as_slice();
    let mut count = 0;
    for items in workers {
        count += most_outcomes(config, items.as_slice());
    }
    count
}

/// Room for the outcomes of all workers.
pub fn room_for_outcomes(
    alloc: Global,
    config: &Config,
    phase: &Phase,
) -> Result<Vec<Outcome>, AllocError>
    requires { IsValidPhase config.now phase.now }
    ensures { IfOk result (λ outcomes. IsRoomForAll phase.now outcomes) }
{
    Vec::with_capacity(alloc, most_of_all(config, phase))
}
