//! The states of a run's devices, of what is kept of them.
ghost use Rattle.std.specs.Prelude.{◌≡◌, ◌++◌, ◌≤◌, Some, map, slice_get, true, vec_capacity, vec_len};
ghost use Rattle.run_opening.specs.Kept.{device_kept, start_kept};
ghost use Rattle.run_states.specs.Joined.{MayAllJoin, MayJoin, MaySetAside, is_alone};
ghost use Rattle.run_states.specs.States.{AreBuilt, AreStates, IsBuilt, IsStateOf, is_idle, state_device};

use crate::seats::Seats;
use crate::state::{Aside, State};
use boxcar_timer::Depart;
use chronicle::{Chronicle, Run, Seat};
use commit_boxcar::{MonitorRun, RequestsName};
use disc_process::DiscState;
use disk_model::Disk;
use node_machine::{NodeMachine, Part};
use online_dump::DumperState;
use run_opening::Kept;
use std::alloc::Global;
use tmf_model::Config;

/// How many devices a node has.
const DEVICES: u8 = 21;

/// How far behind the device of a volume that of its dumps stands.
const DUMPS_BEHIND: usize = 8;

/// What the states of a run are made with: its chronicle and its configuration.
pub struct Site<'a, J: Run<Part>> {
    pub alloc: Global,
    pub chronicle: &'a Chronicle<NodeMachine, J>,
    pub config: &'a Config,
}

/// Whether a device alone is kept.
fn is_alone<D: Disk>(kept: &Kept<D>) -> bool
    ensures { result ≡ is_alone kept.now }
{
    matches!(kept, Kept::Idle(_))
}

/// The start of the dump that was found on a device of dumps.
fn start_of<D: Disk>(kept: &Kept<D>) -> Option<u64>
    ensures { result ≡ start_kept (Some kept.now) }
{
    match kept {
        Kept::Dump(file) => file.rest(),
        _ => None,
    }
}

/// The start of the dump that was found on the device with this place among these.
fn start_at<D: Disk>(kept: &[Kept<D>], place: usize) -> Option<u64>
    ensures { result ≡ start_kept (slice_get kept.now place) }
{
    match kept.get(place) {
        Some(one) => start_of(one),
        None => None,
    }
}

/// The state of the device with this number, over the new seat of its part. The disc of a volume counts on the dump with this start. Where no memory is found, the device is set aside.
pub fn state_of<'a, D: Disk, J: MonitorRun<D>, C: Depart + Drop, Q: RequestsName>(
    site: &Site<'a, J>,
    number: u8,
    rest: Option<u64>,
    kept: Kept<D>,
    seat: Seat<NodeMachine, J>,
) -> State<'a, D, J, C, Q>
    requires { MayJoin D.Disk J.opening J.found J.rules J.faults J.premise J.devices site.now.config.now number rest seat kept }
    ensures state { IsStateOf D.Disk J.opening J.found J.faults J.devices number result }
    ensures built { is_idle result ≡ is_alone kept → IsBuilt D.Disk J.found J.devices number result }
    ensures device { state_device result ≡ device_kept kept }
    ensures aside { is_idle result ≡ true → MaySetAside kept }
{
    match kept {
        Kept::Monitor(_) => unreachable!(),
        Kept::Audit(audit) => State::of_trail(site.alloc, audit.into_trail(), seat, site.chronicle),
        Kept::Volume(blocks) => {
            let next = blocks.low();
            State::Disc(DiscState::new(
                site.alloc,
                site.chronicle,
                site.config,
                number - 4,
                blocks,
                next,
                rest,
                seat,
            ))
        }
        Kept::Dump(file) => State::Dumper(DumperState::attach(file, seat, site.chronicle)),
        Kept::Idle(device) => State::Idle(Aside { device, seat }),
    }
}

/// Whether all was built, where it was before, and one more is set aside only where a device alone is kept.
fn is_still_built(built: bool, idle: bool, alone: bool) -> bool
    ensures { result ≡ true → (built ≡ true) × (idle ≡ alone) }
{
    built && idle == alone
}

/// Joins each device behind the monitor trail's, in the order of their numbers, with the next seat. It answers whether there was memory for all of them.
pub fn join_all<'a, D: Disk, J: MonitorRun<D>, C: Depart + Drop, Q: RequestsName>(
    site: &Site<'a, J>,
    kept: Vec<Kept<D>>,
    seats: &mut Seats<J>,
    states: &mut Vec<State<'a, D, J, C, Q>>,
) -> bool
    requires may { MayAllJoin D.Disk J.opening J.found J.rules J.faults J.premise J.devices site.now.config.now 1 kept.items }
    requires first { (vec_len kept ≡ 20) × (vec_len states.old ≡ 1) × (seats.old ≡ 1) }
    requires states { AreStates D.Disk J.opening J.found J.faults J.devices states.old.items }
    requires room { 21 ≤ vec_capacity states.old }
    ensures states { AreStates D.Disk J.opening J.found J.faults J.devices states.new.items }
    ensures built { result ≡ true → AreBuilt D.Disk J.found J.devices states.old.items → AreBuilt D.Disk J.found J.devices states.new.items }
    ensures devices { map state_device states.new.items ≡ map state_device states.old.items ++ map device_kept kept.items }
    ensures count { (vec_len states.new ≡ 21) × (seats.new ≡ 21) }
{
    let mut left = kept;
    let mut built = true;
    for number in 1..DEVICES {
        let rest = start_at(left.as_slice(), DUMPS_BEHIND);
        let next = left.remove(0);
        let alone = is_alone(&next);
        let state = state_of(site, number, rest, next, seats.take());
        built = is_still_built(built, state.is_idle(), alone);
        states.push_reserved(state);
    }
    left.destroy_empty();
    built
}
