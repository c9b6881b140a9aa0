//! The turns of all threads of a run.
ghost use Rattle.std.specs.Prelude.{◌≡◌, ◌<◌, ℕ, All, length, slice_index_or};
ghost use Rattle.std.specs.List.{AllZip};
ghost use Rattle.run_threads.specs.Hands.{HaveBegun, HaveWorked, IsReady, IsTurned};
ghost use Rattle.worker_thread.specs.Named.{IsRunNamed};
ghost use Rattle.worker_thread.specs.Work.{IsPhaseOf, IsWork};

use crate::hand::Hand;
use boxcar_timer::Depart;
use commit_boxcar::{MonitorRun, RequestsName};
use disk_model::Disk;
use run_outcomes::Gate;
use std::sync::Wait;
use std::sync::atomic::{AtomicU64, Ordering};
use std::thread::{Threads, for_each_mut};
use worker_thread::{Work, do_items};

/// The turn of one thread: it takes turns at its disc until all workers have ended, or it does the items of its worker, which then has ended.
fn turn<'s, 'a, R: Wait, D: Disk, J: MonitorRun<D>, C: Depart, Q: RequestsName, G: Gate>(
    rt: &R,
    work: &Work<'s, 'a, D, J, C, Q, G>,
    ended: &AtomicU64,
    hand: &mut Hand<J>,
)
    requires named { IsRunNamed D.Disk J.opening J.found J.devices }
    requires phase { IsPhaseOf J.found work.now.phase.now }
    requires work { IsWork J.found work.now.epoch work.now.shared.now.config.now work.now.shared.now.node.now.steps work.now.shared.now.node.now.monitor work.now.shared.now.trails.now work.now.shared.now.discs.now work.now.dumpers.now }
    requires ready { IsReady (length work.now.shared.now.discs.now) work.now.phase.now hand.old }
    ensures { IsTurned D.Disk J.found work.now.phase.now J.devices hand.old hand.new }
{
    match hand {
        Hand::Disc(disc) => {
            let workers = work.phase.workers.as_slice().len() as u64;
            disc.drive(rt, work.shared.discs, work.shared.trails, ended, workers);
        }
        Hand::Worker(worker) => {
            do_items(rt, work, worker);
            ended.fetch_add(1, Ordering::SeqCst);
        }
    }
}

/// The turn of each thread, all at once.
fn turn_each<
    's,
    'a,
    R: Threads + Wait + Sync,
    D: Disk + Send + 'a,
    J: MonitorRun<D> + Send + Sync + 'a,
    C: Depart + Send + 'a,
    Q: RequestsName + Send + Sync + 'a,
    G: Gate + Sync,
>(rt: &R, work: &Work<'s, 'a, D, J, C, Q, G>, hands: &mut [Hand<J>])
    requires named { IsRunNamed D.Disk J.opening J.found J.devices }
    requires phase { IsPhaseOf J.found work.now.phase.now }
    requires work { IsWork J.found work.now.epoch work.now.shared.now.config.now work.now.shared.now.node.now.steps work.now.shared.now.node.now.monitor work.now.shared.now.trails.now work.now.shared.now.discs.now work.now.dumpers.now }
    requires ready { All (IsReady (length work.now.shared.now.discs.now) work.now.phase.now) hands.old }
    ensures count { length hands.new ≡ length hands.old }
    ensures each { (i : ℕ) (d : _) → i < length hands.old → IsTurned D.Disk J.found work.now.phase.now J.devices (slice_index_or hands.old i d) (slice_index_or hands.new i d) }
{
    let ended = AtomicU64::new(0);
    let threads = hands.len().max(1);
    for_each_mut(
        rt,
        hands,
        threads,
        &|_, hand| {
            turn(rt, work, &ended, hand);
        },
    );
}

/// The turns of all threads of a run, each in a thread of its own where one can be made. Where there is no hand it does nothing.
pub fn take_turns<
    's,
    'a,
    R: Threads + Wait + Sync,
    D: Disk + Send + 'a,
    J: MonitorRun<D> + Send + Sync + 'a,
    C: Depart + Send + 'a,
    Q: RequestsName + Send + Sync + 'a,
    G: Gate + Sync,
>(rt: &R, work: &Work<'s, 'a, D, J, C, Q, G>, hands: &mut [Hand<J>])
    requires named { IsRunNamed D.Disk J.opening J.found J.devices }
    requires phase { IsPhaseOf J.found work.now.phase.now }
    requires work { IsWork J.found work.now.epoch work.now.shared.now.config.now work.now.shared.now.node.now.steps work.now.shared.now.node.now.monitor work.now.shared.now.trails.now work.now.shared.now.discs.now work.now.dumpers.now }
    requires begun { HaveBegun (length work.now.shared.now.discs.now) work.now.phase.now hands.old }
    ensures turned { AllZip (IsTurned D.Disk J.found work.now.phase.now J.devices) hands.old hands.new }
    ensures worked { HaveWorked D.Disk J.found work.now.phase.now J.devices hands.new }
{
    turn_each(rt, work, hands);
}
