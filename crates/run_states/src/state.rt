//! The states of a run's devices, before any of them is behind a lock.
ghost use Rattle.std.specs.Prelude.{◌≡◌, ◌++◌, ◌+◌, ◌≤◌, IsTrue, false, map, true, vec_capacity, vec_len};
ghost use Rattle.audit_writer.specs.Seat.{sight_of};
ghost use Rattle.audit_writer.specs.Writer.{IsOpened};
ghost use Rattle.commit_boxcar.specs.Monitor.{IsOpened as IsMonitorOpened};
ghost use Rattle.tmf_model.specs.Config.{IsWithin};
ghost use Rattle.run_states.specs.States.{IsMonitorOrIdle, IsStateOf, IsWriterOrIdle, is_idle, state_device};

use audit_writer::WriterState;
use boxcar_timer::Depart;
use chronicle::{Chronicle, Seat};
use commit_boxcar::{MonitorRun, MonitorSeat, MonitorState, PopEnd, RequestsName};
use disc_process::DiscState;
use disk_model::Disk;
use node_machine::NodeMachine;
use online_dump::DumperState;
use run_outcomes::Row;
use std::alloc::Global;
use trail_files::{AuditRecord, MonitorRecord, Trail};

/// A device that is as it was handed in, with its part's seat.
#[derive(Drop)]
pub struct Aside<D: Disk, J: MonitorRun<D>> {
    pub device: D,
    pub seat: Seat<NodeMachine, J>,
}

/// The state of one device of a run.
#[derive(Drop)]
pub enum State<'a, D: Disk, J: MonitorRun<D>, C: Depart, Q: RequestsName> {
    Monitor(MonitorState<'a, D, J, C, Q>),
    Writer(WriterState<'a, D, J>),
    Disc(DiscState<'a, D, J>),
    Dumper(DumperState<'a, D, J>),
    Idle(Aside<D, J>),
}

impl<'a, D: Disk, J: MonitorRun<D>, C: Depart + Drop, Q: RequestsName> State<'a, D, J, C, Q> {
    /// The state of the monitor trail, over the seat of its part, on which so many records stand. Where no memory is found, its device is set aside.
    pub fn of_monitor(
        alloc: Global,
        trail: Trail<D, MonitorRecord>,
        places: u64,
        seat: MonitorSeat<'a, J>,
        decide: C,
        end: PopEnd<J, Q>,
    ) -> Self
        requires opened { IsMonitorOpened D.Disk J.opening J.found J.before J.faults J.premise J.devices seat trail }
        requires places { places ≡ (J.found).places }
        ensures state { IsStateOf D.Disk J.opening J.found J.faults J.devices 0 result }
        ensures which { IsMonitorOrIdle result }
        ensures device { state_device result ≡ trail.device }
    {
        match MonitorState::attach(alloc, trail, places, seat, decide, end) {
            Ok(monitor) => State::Monitor(monitor),
            Err((trail, seat, _, _)) => {
                let device = trail.into_device();
                State::Idle(Aside { device, seat })
            }
        }
    }

    /// The state of an audit trail, over the seat of its part. Where no memory is found, its device is set aside.
    pub fn of_trail(
        alloc: Global,
        trail: Trail<D, AuditRecord>,
        seat: Seat<NodeMachine, J>,
        chronicle: &'a Chronicle<NodeMachine, J>,
    ) -> Self
        requires opened { IsOpened D.Disk J.opening J.found J.rules J.faults J.premise J.devices (sight_of J.opening seat) trail }
        requires within { IsWithin 1 4 (sight_of J.opening seat).part.number }
        ensures state { IsStateOf D.Disk J.opening J.found J.faults J.devices (sight_of J.opening seat).part.number result }
        ensures which { IsWriterOrIdle result }
        ensures device { state_device result ≡ trail.device }
    {
        match WriterState::attach(alloc, trail, seat, chronicle) {
            Ok(writer) => State::Writer(writer),
            Err((trail, seat)) => {
                let device = trail.into_device();
                State::Idle(Aside { device, seat })
            }
        }
    }

    /// Whether the device was set aside.
    pub fn is_idle(&self) -> bool
        ensures { result ≡ is_idle self.now }
    {
        matches!(self, State::Idle(_))
    }

    /// The device.
    pub fn into_device(self) -> D
        ensures { result ≡ state_device self.entry }
    {
        match self {
            State::Monitor(monitor) => {
                let (trail, _, _, _) = monitor.into_parts();
                trail.into_device()
            }
            State::Writer(writer) => {
                let (trail, _) = writer.into_parts();
                trail.into_device()
            }
            State::Disc(disc) => {
                let (blocks, _) = disc.into_parts();
                blocks.into_device()
            }
            State::Dumper(dumper) => {
                let (file, _) = dumper.into_parts();
                file.into_device()
            }
            State::Idle(aside) => {
                let Aside { device, seat: _ } = aside;
                device
            }
        }
    }
}

/// Gives the devices of states back, in their order, each as it was kept.
pub fn into_devices<'a, D: Disk, J: MonitorRun<D>, C: Depart + Drop, Q: RequestsName>(
    states: Vec<State<'a, D, J, C, Q>>,
    devices: &mut Vec<D>,
)
    requires { vec_len devices.old + vec_len states ≤ vec_capacity devices.old }
    ensures { devices.new.items ≡ devices.old.items ++ map state_device states.entry.items }
{
    let mut rest = Row::new(states);
    while let Some(state) = rest.take() {
        devices.push_reserved(state.into_device());
    }
    rest.end();
}
