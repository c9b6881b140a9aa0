//! What a run has behind its locks.
ghost use Rattle.std.specs.Prelude.{◌≡◌, ◌<◌, ℕ, [], length, true, vec_len};
ghost use Rattle.run_states.specs.Post.{HasPost, IsNamed};
ghost use Rattle.run_states.specs.Rows.{AreLocked, HasGivenParts, HasTakenBack, no_rows};
ghost use Rattle.run_states.specs.States.{AreBuilt, AreStates, is_monitor};
ghost use Rattle.run_states.specs.Volumes.{AreVolumesNamed};

use crate::post::Post;
use crate::rows::Rows;
use crate::state::State;
use boxcar_timer::Depart;
use commit_boxcar::{Askers, Monitor, MonitorRun, MonitorState, RequestsName};
use disc_lock::ActsOf;
use disk_model::Disk;
use run_outcomes::Row;
use std::sync::Wait;
use std::sync::ledger::Share;

/// How many devices a node has.
const DEVICES: u8 = 21;

/// All states of a run behind their locks.
#[derive(Drop)]
pub struct Stage<'a, D: Disk, J: MonitorRun<D>, C: Depart, Q: RequestsName> {
    pub monitor: Monitor<'a, D, J, C, Q>,
    pub rows: Rows<'a, D, J>,
}

/// The state of the monitor trail's device, which it is.
fn monitor_of<'a, D: Disk, J: MonitorRun<D>, C: Depart + Drop, Q: RequestsName>(
    state: State<'a, D, J, C, Q>,
) -> MonitorState<'a, D, J, C, Q>
    requires { is_monitor state ≡ true }
{
    match state {
        State::Monitor(monitor) => monitor,
        _ => unreachable!(),
    }
}

/// Puts all states of a run behind their locks, with the other end of the queue of requests. Each disc gets one part of the ledger. It takes no memory.
pub fn lock_all<'a, D: Disk, J: MonitorRun<D>, C: Depart + Drop, Q: RequestsName>(
    states: Vec<State<'a, D, J, C, Q>>,
    askers: Askers<J, Q>,
    rows: Rows<'a, D, J>,
    home: &mut Share<ActsOf<J>>,
) -> Stage<'a, D, J, C, Q>
    requires named { AreVolumesNamed D.Disk J.opening J.found J.premise J.devices }
    requires states { AreStates D.Disk J.opening J.found J.faults J.devices states.items × AreBuilt D.Disk J.found J.devices states.items × (vec_len states ≡ 21) }
    requires empty { rows ≡ no_rows }
    requires parts { 9 < home.old.parts }
    ensures locked { AreLocked J.found result.rows }
    ensures given { HasGivenParts 0 (length result.rows.discs) home.old home.new }
{
    let mut rows = rows;
    let mut rest = Row::new(states);
    let Some(first) = rest.take() else {
        unreachable!()
    };
    let monitor = Monitor::new(monitor_of(first), askers);
    for number in 1..DEVICES {
        let Some(state) = rest.take() else {
            unreachable!()
        };
        rows.add(number, state, home);
    }
    rest.end();
    Stage { monitor, rows }
}

impl<'a, D: Disk, J: MonitorRun<D>, C: Depart + Drop, Q: RequestsName> Stage<'a, D, J, C, Q> {
    /// Each device of a node with its part's seat, from behind its lock. The discs give their parts of the ledger back.
    pub fn into_posts<R: Wait>(self, rt: &R, home: &mut Share<ActsOf<J>>) -> Vec<Post<D, J>>
        requires named { IsNamed D.Disk J.found J.before J.rules J.faults J.premise J.devices }
        requires volumes { AreVolumesNamed D.Disk J.opening J.found J.premise J.devices }
        requires locked { AreLocked J.found self.rows }
        ensures all { (m : ℕ) → m < 21 → HasPost result.items m }
        ensures many { vec_len result ≡ 21 }
        ensures back { HasTakenBack (length self.entry.rows.discs) [] result.items home.old home.new }
    {
        let Stage { monitor, rows } = self;
        let mut posts = rows.into_posts(rt, home);
        let post = Post::of_monitor(monitor);
        post.lawful();
        posts.push_reserved(post);
        posts
    }
}
