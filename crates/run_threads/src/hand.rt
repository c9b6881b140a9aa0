//! What the threads of a run own.
use audit_writer::NodeRun;
use chronicle::Seat;
use disc_thread::DiscHand;
use node_machine::NodeMachine;
use worker_thread::WorkerHand;

/// What one thread of a run owns. All that it takes with it comes back behind its turn, whatever was refused.
#[derive(Drop)]
pub enum Hand<J: NodeRun> {
    /// The thread takes turns at a disc, until the workers have ended.
    Disc(DiscHand<J>),
    /// The thread does the items of a worker.
    Worker(WorkerHand<J>),
}

/// The hands of a run, and the seats of the workers that have none.
#[derive(Drop)]
pub struct Crew<J: NodeRun> {
    pub hands: Vec<Hand<J>>,
    pub seats: Vec<Seat<NodeMachine, J>>,
}
