//! The states of a run's devices, as they are made and locked.
ghost use Rattle.std.specs.Prelude.{◌≡◌, ◌≤◌, ℕ, [], true, false, IfOk, IfErr, length, map, vec_capacity, vec_len};
ghost use Rattle.chronicle.specs.Seats.{new_seat, new_seats};
ghost use Rattle.node_machine.specs.Opening.{monitor_part};
ghost use Rattle.node_run.specs.Building.{JoinsFirst, is_first};
ghost use Rattle.node_run.specs.Named.{AreAllKept, MayRun};
ghost use Rattle.node_run.specs.Room.{HasDevicesRoom};
ghost use Rattle.node_run.specs.Tokens.{AreHome};
ghost use Rattle.run_opening.specs.Kept.{device_kept};
ghost use Rattle.run_states.specs.Rows.{AreLocked};
ghost use Rattle.run_states.specs.States.{AreBuilt, AreStates, IsMonitorOrIdle, IsStateOf, state_device};
ghost use Rattle.run_states.specs.Volumes.{AreVolumesNamed};

use crate::closing::Tokens;
use crate::ready::Ready;
use audit_writer::NodeRun;
use boxcar_timer::Timer;
use chronicle::Seat;
use commit_boxcar::{Askers, MonitorRun, MonitorSeat, PopEnd, RequestsName};
use disk_model::Disk;
use node_machine::NodeMachine;
use run_opening::{Kept, MonitorKept, Opened};
use run_states::{Rows, Seats, Site, Stage, State, begun_law, into_devices, join_all, lock_all};
use std::alloc::Global;

/// How many devices a node has.
const DEVICES: usize = 21;

/// The two ends of a run's queue of requests: the passes of its workers, and the monitor's end.
#[derive(Drop)]
pub struct Ends<J: NodeRun, Q: RequestsName> {
    pub askers: Askers<J, Q>,
    pub end: PopEnd<J, Q>,
}

/// All states of a run behind their locks, with its tokens, the seats of its workers, and room for its devices.
#[derive(Drop)]
pub struct Built<'a, D: Disk, J: MonitorRun<D>, Q: RequestsName> {
    pub stage: Stage<'a, D, J, Timer, Q>,
    pub tokens: Tokens<J>,
    pub seats: Vec<Seat<NodeMachine, J>>,
    pub devices: Vec<D>,
}

/// The state of the monitor trail, over the new seat of its part. Where no memory is found, its device is set aside.
fn monitor_of<'a, D: Disk, J: MonitorRun<D>, Q: RequestsName>(
    site: &Site<'a, J>,
    kept: Kept<D>,
    seat: Seat<NodeMachine, J>,
    end: PopEnd<J, Q>,
) -> State<'a, D, J, Timer, Q>
    requires first { is_first kept ≡ true }
    requires joins { JoinsFirst D.Disk J.opening J.found J.before J.faults J.premise J.devices kept }
    requires seat { seat ≡ new_seat monitor_part }
    ensures state { IsStateOf D.Disk J.opening J.found J.faults J.devices 0 result }
    ensures which { IsMonitorOrIdle result }
    ensures device { state_device result ≡ device_kept kept }
{
    match kept {
        Kept::Monitor(monitor) => {
            let MonitorKept { trail, places } = monitor;
            let timer = Timer {
                count: site.config.car_count,
                holds: site.config.car_holds,
            };
            let seat = MonitorSeat::attach(site.chronicle, seat);
            State::of_monitor(site.alloc, trail, places, seat, timer, end)
        }
        _ => unreachable!(),
    }
}

/// Whether all states were built: those behind the first, and the first, which was not set aside.
fn are_all_built(joined: bool, idle: bool) -> bool
    ensures { result ≡ true → (joined ≡ true) × (idle ≡ false) }
{
    joined && !idle
}

/// Makes the states of all devices, in the order of their numbers, each with the new seat of its part. It answers whether there was memory for all of them.
fn make_states<'a, D: Disk, J: MonitorRun<D>, Q: RequestsName>(
    site: &Site<'a, J>,
    ready: Ready<D>,
    end: PopEnd<J, Q>,
    seats: &mut Seats<J>,
    states: &mut Vec<State<'a, D, J, Timer, Q>>,
) -> bool
    requires may { (epoch : ℕ) × MayRun D.Disk site.now.config.now epoch ready.opened J.opening J.found J.before J.rules J.faults J.premise J.devices }
    requires first { seats.old ≡ 0 }
    requires room { (states.old.items ≡ []) × (21 ≤ vec_capacity states.old) }
    ensures states { AreStates D.Disk J.opening J.found J.faults J.devices states.new.items }
    ensures built { result ≡ true → AreBuilt D.Disk J.found J.devices states.new.items }
    ensures devices { map state_device states.new.items ≡ map device_kept ready.opened.kept.items }
    ensures count { (vec_len states.new ≡ 21) × (seats.new ≡ 21) }
{
    begun_law::<D, J>();
    let Opened { kept, row } = ready.into_opened();
    row.into_vec().destroy_empty();
    let mut kept = kept;
    let first = kept.remove(0);
    let monitor = monitor_of(site, first, seats.take(), end);
    let idle = monitor.is_idle();
    states.push_reserved(monitor);
    let joined = join_all(site, kept, seats, states);
    are_all_built(joined, idle)
}

/// All states behind their locks, with what a run keeps beside them. Where there is no memory for the locks, the devices come back.
fn lock_states<'a, D: Disk, J: MonitorRun<D>, Q: RequestsName>(
    alloc: Global,
    states: Vec<State<'a, D, J, Timer, Q>>,
    askers: Askers<J, Q>,
    tokens: Tokens<J>,
    seats: Vec<Seat<NodeMachine, J>>,
    devices: Vec<D>,
) -> Result<Built<'a, D, J, Q>, Vec<D>>
    requires named { AreVolumesNamed D.Disk J.opening J.found J.premise J.devices }
    requires states { AreStates D.Disk J.opening J.found J.faults J.devices states.items × AreBuilt D.Disk J.found J.devices states.items × (vec_len states ≡ 21) }
    requires tokens { AreHome 0 0 tokens.book tokens.home }
    requires room { HasDevicesRoom devices }
    ensures locked { IfOk result (λ built. AreLocked J.found built.stage.rows) }
    ensures tokens { IfOk result (λ built. AreHome (length built.stage.rows.discs) 0 built.tokens.book built.tokens.home) }
    ensures seats { IfOk result (λ built. built.seats ≡ seats) }
    ensures room { IfOk result (λ built. HasDevicesRoom built.devices) }
    ensures refused { IfErr result (λ devices. devices.items ≡ map state_device states.entry.items) }
{
    let mut tokens = tokens;
    let mut devices = devices;
    match Rows::with_room(alloc) {
        Ok(rows) => {
            let stage = lock_all(states, askers, rows, &mut tokens.home);
            Ok(Built {
                stage,
                tokens,
                seats,
                devices,
            })
        }
        Err(_) => {
            into_devices(states, &mut devices);
            Err(devices)
        }
    }
}

/// All states of a run behind their locks. Where there is no memory for that, the devices come back as they were opened.
pub fn build<'a, D: Disk, J: MonitorRun<D>, Q: RequestsName>(
    site: &Site<'a, J>,
    ready: Ready<D>,
    seats: Vec<Seat<NodeMachine, J>>,
    ends: Ends<J, Q>,
    tokens: Tokens<J>,
) -> Result<Built<'a, D, J, Q>, Vec<D>>
    requires may { (epoch : ℕ) × MayRun D.Disk site.now.config.now epoch ready.opened J.opening J.found J.before J.rules J.faults J.premise J.devices }
    requires all { AreAllKept ready.opened }
    requires seats { seats.items ≡ new_seats 37 }
    requires tokens { AreHome 0 0 tokens.book tokens.home }
    ensures locked { IfOk result (λ built. AreLocked J.found built.stage.rows) }
    ensures tokens { IfOk result (λ built. AreHome (length built.stage.rows.discs) 0 built.tokens.book built.tokens.home) }
    ensures seats { IfOk result (λ built. built.seats.items ≡ new_seats 16) }
    ensures room { IfOk result (λ built. HasDevicesRoom built.devices) }
    ensures refused { IfErr result (λ devices. devices.items ≡ map device_kept ready.opened.kept.items) }
{
    begun_law::<D, J>();
    let Ok(mut states) = Vec::with_capacity(site.alloc, DEVICES) else {
        return Err(ready.close());
    };
    let Ok(mut devices) = Vec::with_capacity(site.alloc, DEVICES) else {
        states.destroy_empty();
        return Err(ready.close());
    };
    let Ends { askers, end } = ends;
    let mut own = Seats::new(seats);
    let made = make_states(site, ready, end, &mut own, &mut states);
    if made {
        return lock_states(
            site.alloc,
            states,
            askers,
            tokens,
            own.into_workers(),
            devices,
        );
    }
    into_devices(states, &mut devices);
    Err(devices)
}
