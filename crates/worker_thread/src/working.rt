//! The items of a worker, one behind the other.
ghost use Rattle.std.specs.Prelude.{◌≡◌, ◌*◌, ◌∷◌, List, vec_capacity};
ghost use Rattle.run_outcomes.specs.Reach.{reach_at};
ghost use Rattle.tmf_model.specs.declared.script.Item.{Item};
ghost use Rattle.worker_thread.specs.Named.{IsRunNamed};
ghost use Rattle.worker_thread.specs.Room.{HasRoomFor};
ghost use Rattle.worker_thread.specs.Work.{IsPhaseOf, IsWork};
ghost use Rattle.worker_thread.specs.Working.{HasDoneItem, HasWorked, IsNewWorker, MayDoItem, has_ended};

use crate::carrying::{carry_out, skip};
use crate::hand::{WorkerHand, first_attempt, is_last_ending, take_room};
use crate::work::Work;
use boxcar_timer::Depart;
use commit_boxcar::{MonitorRun, RequestsName};
use disk_model::Disk;
use run_items::{control_law, dump_law};
use run_outcomes::{Gate, joined_law, knowing_law, next_law};
use run_worker::{acting_law, attempt_law};
use std::sync::Wait;
use tmf_model::Item;

/// Does an item of a worker: it is carried out, or, where an earlier one has ended the worker, skipped.
fn do_item<'s, 'a, R: Wait, D: Disk, J: MonitorRun<D>, C: Depart, Q: RequestsName, G: Gate>(
    rt: &R,
    work: &Work<'s, 'a, D, J, C, Q, G>,
    hand: &mut WorkerHand<J>,
    ordinal: u16,
    item: &Item,
)
    requires named { IsRunNamed D.Disk J.opening J.found J.devices }
    requires phase { IsPhaseOf J.found work.now.phase.now }
    requires work { IsWork J.found work.now.epoch work.now.shared.now.config.now work.now.shared.now.node.now.steps work.now.shared.now.node.now.monitor work.now.shared.now.trails.now work.now.shared.now.discs.now work.now.dumpers.now }
    requires may { MayDoItem D.Disk J.found work.now.phase.now J.devices hand.old.number ordinal item.now hand.old.worker.seat hand.old.worker.share hand.old.worker.outcomes hand.old.reads hand.old.ended }
    ensures done { HasDoneItem D.Disk J.found work.now.phase.now J.devices hand.old.number ordinal item.now (reach_at hand.new.worker.seat hand.new.worker.share) hand.old.worker.outcomes.items hand.new.worker.outcomes.items }
    ensures left { (rest : List Item) → HasRoomFor (item.now ∷ rest) hand.old.worker.share hand.old.worker.outcomes hand.old.reads → HasRoomFor rest hand.new.worker.share hand.new.worker.outcomes hand.new.reads }
    ensures number { hand.new.number ≡ hand.old.number }
    ensures parts { hand.new.worker.share.parts ≡ hand.old.worker.share.parts }
    ensures ended { hand.new.ended ≡ has_ended hand.new.worker.outcomes.items }
{
    acting_law();
    attempt_law::<D>();
    control_law::<D>();
    dump_law::<D>();
    joined_law::<D>();
    next_law();
    let tx = first_attempt(work.epoch, hand.number, ordinal);
    let mut reads = take_room(&mut hand.reads);
    if hand.ended {
        skip(&mut hand.worker, tx);
    } else {
        carry_out(rt, work, &mut hand.worker, tx, item, &mut reads);
        hand.ended = is_last_ending(hand.worker.outcomes.as_slice());
    }
}

/// Does the items of a worker in their order, up to the last one. Behind one that has ended the worker each further one is skipped. The gate is told behind each.
pub fn do_items<'s, 'a, R: Wait, D: Disk, J: MonitorRun<D>, C: Depart, Q: RequestsName, G: Gate>(
    rt: &R,
    work: &Work<'s, 'a, D, J, C, Q, G>,
    hand: &mut WorkerHand<J>,
)
    requires named { IsRunNamed D.Disk J.opening J.found J.devices }
    requires phase { IsPhaseOf J.found work.now.phase.now }
    requires work { IsWork J.found work.now.epoch work.now.shared.now.config.now work.now.shared.now.node.now.steps work.now.shared.now.node.now.monitor work.now.shared.now.trails.now work.now.shared.now.discs.now work.now.dumpers.now }
    requires new { IsNewWorker work.now.phase.now hand.old.number hand.old.worker.seat hand.old.worker.share hand.old.worker.outcomes hand.old.reads hand.old.ended }
    ensures worked { HasWorked D.Disk J.found work.now.phase.now J.devices hand.old.number (reach_at hand.new.worker.seat hand.new.worker.share) hand.new.worker.outcomes.items }
    ensures number { hand.new.number ≡ hand.old.number }
    ensures parts { hand.new.worker.share.parts ≡ hand.old.worker.share.parts }
{
    knowing_law();
    let items = work.phase.workers.as_slice()[usize::from(hand.number) - 1].as_slice();
    let mut ordinal: u16 = 0;
    for item in items {
        ordinal += 1;
        do_item(rt, work, hand, ordinal, item);
        work.shared.gate.answered(hand.number, ordinal);
    }
}
