//! One item of a worker: it is carried out, or skipped.
ghost use Rattle.std.specs.Prelude.{◌≡◌, ◌<◌, ◌++◌, ◌∷◌, [], ◌*◌, length, vec_capacity, IsSome};
ghost use Rattle.disc_lock.specs.Tokens.{MayGive};
ghost use Rattle.node_machine.specs.Opening.{found_volume};
ghost use Rattle.run_items.specs.Behind.{outcome_of};
ghost use Rattle.run_outcomes.specs.Knowing.{most_tokens};
ghost use Rattle.run_outcomes.specs.Outcomes.{most_attempts};
ghost use Rattle.run_outcomes.specs.Reach.{reach_at};
ghost use Rattle.run_outcomes.specs.declared.outcome.Told.TheVariants.{Skipped};
ghost use Rattle.run_worker.specs.Going.{HasGivenSome};
ghost use Rattle.worker_thread.specs.Carried.{HasCarriedOut, HasControlled, HasDumped, MayCarryOut};
ghost use Rattle.worker_thread.specs.Work.{IsWork};

use crate::work::{Work, let_go, volumes_of};
use audit_writer::NodeRun;
use boxcar_timer::Depart;
use commit_boxcar::{MonitorRun, RequestsName};
use disk_model::Disk;
use run_items::{control_item, dump_item};
use run_outcomes::{Gate, Outcome, Told};
use run_worker::{Worker, attempts};
use std::sync::Wait;
use tmf_model::{Item, Transid, Value};

/// Skips an item, which is told.
pub(crate) fn skip<J: NodeRun>(worker: &mut Worker<J>, tx: Transid)
    requires room { length worker.old.outcomes.items < vec_capacity worker.old.outcomes }
    ensures skipped { worker.new.outcomes.items ≡ worker.old.outcomes.items ++ outcome_of tx Skipped ∷ [] }
    ensures seat { worker.new.seat ≡ worker.old.seat }
    ensures share { worker.new.share ≡ worker.old.share }
    ensures kept { vec_capacity worker.new.outcomes ≡ vec_capacity worker.old.outcomes }
{
    worker.outcomes.push_reserved(Outcome {
        tx,
        told: Told::Skipped,
    });
}

/// Makes the control point of a volume, and keeps what it has come to.
fn control_volume<'s, 'a, R: Wait, D: Disk, J: MonitorRun<D>, C: Depart, Q: RequestsName, G: Gate>(
    rt: &R,
    work: &Work<'s, 'a, D, J, C, Q, G>,
    worker: &mut Worker<J>,
    tx: Transid,
    volume: u8,
)
    requires work { IsWork J.found work.now.epoch work.now.shared.now.config.now work.now.shared.now.node.now.steps work.now.shared.now.node.now.monitor work.now.shared.now.trails.now work.now.shared.now.discs.now work.now.dumpers.now }
    requires volume { IsSome (found_volume J.found volume) }
    requires token { MayGive worker.old.share }
    requires room { length worker.old.outcomes.items < vec_capacity worker.old.outcomes }
    ensures done { HasControlled J.opening J.found volume tx (reach_at worker.old.seat worker.old.share) (reach_at worker.new.seat worker.new.share) worker.old.outcomes.items worker.new.outcomes.items }
    ensures given { HasGivenSome most_tokens worker.old.share worker.new.share }
    ensures kept { vec_capacity worker.new.outcomes ≡ vec_capacity worker.old.outcomes }
{
    let volumes = volumes_of(work);
    let told = control_item(
        rt,
        &volumes,
        volume,
        tx,
        &mut worker.seat,
        &mut worker.share,
    );
    let_go(volumes);
    worker.outcomes.push_reserved(Outcome { tx, told });
}

/// Dumps a volume, and keeps what the dump has come to.
fn dump_volume<'s, 'a, R: Wait, D: Disk, J: MonitorRun<D>, C: Depart, Q: RequestsName, G: Gate>(
    rt: &R,
    work: &Work<'s, 'a, D, J, C, Q, G>,
    worker: &mut Worker<J>,
    tx: Transid,
    volume: u8,
)
    requires work { IsWork J.found work.now.epoch work.now.shared.now.config.now work.now.shared.now.node.now.steps work.now.shared.now.node.now.monitor work.now.shared.now.trails.now work.now.shared.now.discs.now work.now.dumpers.now }
    requires volume { IsSome (found_volume J.found volume) }
    requires token { MayGive worker.old.share }
    requires room { length worker.old.outcomes.items < vec_capacity worker.old.outcomes }
    ensures done { HasDumped D.Disk J.opening J.found J.devices volume tx (reach_at worker.old.seat worker.old.share) (reach_at worker.new.seat worker.new.share) worker.old.outcomes.items worker.new.outcomes.items }
    ensures given { HasGivenSome most_tokens worker.old.share worker.new.share }
    ensures kept { vec_capacity worker.new.outcomes ≡ vec_capacity worker.old.outcomes }
{
    let volumes = volumes_of(work);
    let told = dump_item(
        rt,
        &volumes,
        volume,
        tx,
        &mut worker.seat,
        &mut worker.share,
    );
    let_go(volumes);
    worker.outcomes.push_reserved(Outcome { tx, told });
}

/// Carries out an item of a worker, and keeps what it has come to: each attempt at a transaction, the control point, or the dump.
pub(crate) fn carry_out<
    's,
    'a,
    R: Wait,
    D: Disk,
    J: MonitorRun<D>,
    C: Depart,
    Q: RequestsName,
    G: Gate,
>(
    rt: &R,
    work: &Work<'s, 'a, D, J, C, Q, G>,
    worker: &mut Worker<J>,
    tx: Transid,
    item: &Item,
    reads: &mut Vec<(u8, Option<Value>)>,
)
    requires work { IsWork J.found work.now.epoch work.now.shared.now.config.now work.now.shared.now.node.now.steps work.now.shared.now.node.now.monitor work.now.shared.now.trails.now work.now.shared.now.discs.now work.now.dumpers.now }
    requires may { MayCarryOut J.opening J.found tx item.now reads.old worker.old.seat worker.old.share worker.old.outcomes }
    ensures done { HasCarriedOut D.Disk J.opening J.found J.devices tx item.now (reach_at worker.old.seat worker.old.share) (reach_at worker.new.seat worker.new.share) worker.old.outcomes.items worker.new.outcomes.items }
    ensures given { HasGivenSome (most_tokens * most_attempts item.now) worker.old.share worker.new.share }
    ensures kept { vec_capacity worker.new.outcomes ≡ vec_capacity worker.old.outcomes }
{
    match item {
        Item::Transaction(transaction) => {
            attempts(rt, work.shared, worker, tx, transaction, reads)
        }
        Item::Control(volume) => control_volume(rt, work, worker, tx, *volume),
        Item::Dump(volume) => dump_volume(rt, work, worker, tx, *volume),
    }
}
