//! The room that a run needs, taken before any worker begins.
ghost use Rattle.std.specs.Prelude.{◌≡◌, IfOk};
ghost use Rattle.run_outcomes.specs.Room.{AreRooms};
ghost use Rattle.run_threads.specs.Room.{IsRoomForAll};
ghost use Rattle.tmf_model.specs.Script.{IsValidPhase};
ghost use Rattle.node_run.specs.Room.{HasHandsRoom, HasSeatsRoom};

use audit_writer::NodeRun;
use chronicle::Seat;
use node_machine::NodeMachine;
use run_outcomes::Outcome;
use run_states::{Room, rooms_of};
use run_threads::{Hand, room_for_outcomes};
use std::alloc::{AllocError, Global};
use tmf_model::{Config, Phase};

/// How many parts a node has.
const PARTS: usize = 37;

/// The most hands that a run has: one for each of 8 discs and 16 workers.
const HANDS: usize = 24;

/// Room for what the items of a run come to: for each worker, and for all of them together.
#[derive(Drop)]
pub struct PhaseRoom {
    pub workers: Vec<Room>,
    pub outcomes: Vec<Outcome>,
}

impl PhaseRoom {
    /// Room for the outcomes and the reads of all items.
    pub fn take(alloc: Global, config: &Config, phase: &Phase) -> Result<PhaseRoom, AllocError>
        requires { IsValidPhase config.now phase.now }
        ensures workers { IfOk result (λ room. AreRooms phase.now.workers room.workers.items) }
        ensures outcomes { IfOk result (λ room. IsRoomForAll phase.now room.outcomes) }
    {
        let workers = rooms_of(alloc, config, phase)?;
        let outcomes = room_for_outcomes(alloc, config, phase)?;
        Ok(PhaseRoom { workers, outcomes })
    }
}

/// Room for the threads of a run and for its end, beside that for what its items come to: for its hands, and for the seats of all parts.
#[derive(Drop)]
pub struct RunRoom<J: NodeRun> {
    pub phase: PhaseRoom,
    pub hands: Vec<Hand<J>>,
    pub seats: Vec<Seat<NodeMachine, J>>,
}

impl<J: NodeRun> RunRoom<J> {
    /// Room for it, beside that for what the items come to.
    pub fn take(alloc: Global, phase: PhaseRoom) -> Result<RunRoom<J>, AllocError>
        ensures phase { IfOk result (λ room. room.phase ≡ phase) }
        ensures hands { IfOk result (λ room. HasHandsRoom room.hands) }
        ensures seats { IfOk result (λ room. HasSeatsRoom room.seats) }
    {
        let hands = Vec::with_capacity(alloc, HANDS)?;
        let seats = Vec::with_capacity(alloc, PARTS)?;
        Ok(RunRoom {
            phase,
            hands,
            seats,
        })
    }
}
