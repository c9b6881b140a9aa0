//! Scripts: what is asked of a node, action by action.
use crate::config::Config;
use crate::sequence::Sequence;
use crate::word::{Key, Value};

/// One operation on the record of a key.
#[derive(Clone, Copy, PartialEq, Eq)]
pub enum Op {
    /// Sets the value.
    Put(Value),
    /// Adds to a value that is a number text.
    Add(i64),
    /// Takes the record away.
    Del,
    /// Yields the value, and changes nothing.
    Read,
    /// Locks the whole file, and changes nothing. Its step has the key `*`, which stands for the file.
    Lock,
}

/// One step of a transaction.
#[derive(Clone, Copy, PartialEq, Eq)]
pub struct Step {
    /// The file's number, from 1.
    pub file: u8,
    pub key: Key,
    pub op: Op,
}

/// How a transaction ends.
#[derive(Clone, Copy, Debug, PartialEq, Eq)]
pub enum Close {
    Commit,
    Abort,
}

/// A transaction of a script.
#[derive(Drop)]
pub struct Transaction {
    /// How often it may be attempted, 1 to 8.
    pub attempts: u8,
    pub steps: Sequence<Step>,
    pub close: Close,
}

/// One item of a worker.
#[derive(Drop)]
pub enum Item {
    Transaction(Transaction),
    /// A control point of a volume, by its number from 1.
    Control(u8),
    /// An online dump of a volume, by its number from 1.
    Dump(u8),
}

/// The items of each worker of one run.
#[derive(Drop)]
pub struct Phase {
    /// After how many device calls the run is cut off, if it is.
    pub kill: Option<u64>,
    pub workers: Sequence<Sequence<Item>>,
}

/// One action of a script. Volumes and files go by their numbers, from 1, and a count says after how
/// many device calls the action is cut off, if it is.
#[derive(Drop)]
pub enum Action {
    Format,
    Recover(Option<u64>),
    Run(Phase),
    Lose(u8),
    Rollforward(u8, Option<u64>),
    List(u8),
}

/// A whole script.
#[derive(Drop)]
pub struct Script {
    pub config: Config,
    pub actions: Sequence<Action>,
}

/// Why an operation is refused.
#[derive(Clone, Copy, Debug, PartialEq, Eq)]
pub enum Reason {
    /// There is no record of the key.
    Missing,
    /// The value is no number text.
    NotNumber,
    /// The sum is outside the range of i64.
    Overflow,
}
