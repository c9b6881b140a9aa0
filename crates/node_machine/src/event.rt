//! Events: what can happen at a part of a node.
use crate::machine::NodeMachine;
use chronicle::Names;
use tmf_model::{Key, Op, Reason, Sequence, Step, Transid, Value};
use trail_files::{AuditRecord, MonitorRecord};

/// For whom a device call is made.
#[derive(Clone, Copy, Debug, PartialEq, Eq)]
pub enum By {
    /// An attempt at a transaction, or a control point or a dump, by the identifier of its item.
    Attempt(Transid),
    /// The thread of a disc, by the disc's number.
    Disc(u8),
}

/// Why a step, or a dump, was turned away.
#[derive(Clone, Copy)]
pub enum Cause {
    /// Another transaction, this one, holds the step's key.
    Busy(Step, Transid),
    /// Another transaction, this one, holds the file or a key of it.
    BusyFile(u8, Transid),
    /// The block of the step's key has no room.
    Full(Step),
    /// The step's operation has no value there.
    Refused(Step, Reason),
    /// A dump of the disc is under way.
    Dumping,
}

/// What happens at a worker, to a transaction of its own.
#[derive(Clone, Copy)]
pub enum WorkerEvent {
    Begin(Transid),
    /// It takes part at this disc from now on.
    Enlist(Transid, u8),
    /// It asks for no more changes.
    Finish(Transid),
    /// It is to be committed.
    End(Transid),
    /// It is to be backed out.
    Quit(Transid),
}

/// What happens at a disc.
#[derive(Clone, Copy)]
pub enum DiscEvent {
    /// A change by an operation, as its audit record tells it.
    Write(AuditRecord, Op),
    /// A read of a key of a file, which found this value.
    Read(Transid, u8, Key, Option<Value>),
    /// A lock of a whole file.
    Lock(Transid, u8),
    /// A step, or the item of a dump, was turned away.
    Turn(Transid, Cause),
    /// A change is taken back, as its audit record tells it.
    Undo(AuditRecord),
    /// The transaction makes no more changes here.
    Close(Transid),
    /// What it held here is free.
    Release(Transid),
    /// A block of a file is being written to the volume, as it is behind the record of this position.
    Draw(u8, u16, u64),
    /// The block was written.
    Drawn(u8, u16),
    /// The low position is being raised to this one.
    Low(u64, By),
    /// It was raised.
    Lowered,
    /// The dump of this number has begun, with this start, for this item.
    Start(u64, u64, Transid),
    /// The dump of this number is over, and the rest start is this one.
    Raise(u64, Option<u64>),
    /// The volume has failed in a call for this one.
    Failed(By),
}

/// What happens at an audit trail.
#[derive(Drop)]
pub enum TrailEvent {
    /// A batch of these records is being written in this file.
    Offer(u32, Sequence<AuditRecord>),
    /// It was written.
    Land,
    /// The files below the first number are being removed; the second one is the trail's last file.
    Purge(u32, u32),
    Failed(By),
}

/// What happens at the monitor trail.
#[derive(Drop)]
pub enum MonitorEvent {
    /// A batch of these records is being written.
    Offer(Sequence<MonitorRecord>),
    /// It was written.
    Land,
    Failed(By),
}

/// What happens at a dump device.
#[derive(Clone, Copy)]
pub enum DumpEvent {
    /// A block of a file was copied for the dump of this number, behind the record of this position.
    Copy(u64, u8, u16, u64),
    /// The label of this dump is being written, with its start.
    Seal(u64, u64),
    /// The dump is over: its label was written, or it was given up.
    Sealed(u64, bool),
    Failed(By),
}

/// What happens at a part.
#[derive(Drop)]
pub enum Event {
    OfWorker(WorkerEvent),
    OfDisc(DiscEvent),
    OfTrail(TrailEvent),
    OfMonitor(MonitorEvent),
    OfDump(DumpEvent),
}

/// The offer of these records in this file of an audit trail.
#[derive(Clone, Copy)]
pub struct AuditOffer<'a> {
    pub file: u32,
    pub records: &'a [AuditRecord],
}

/// The offer of these records on the monitor trail.
#[derive(Clone, Copy)]
pub struct CarOffer<'a> {
    pub records: &'a [MonitorRecord],
}

impl Names<NodeMachine> for WorkerEvent {
    ghost use Rattle.node_machine.specs.declared.event.Event.TheVariants.{OfWorker};

    ghost event = { λ e. OfWorker e };
}

impl Names<NodeMachine> for DiscEvent {
    ghost use Rattle.node_machine.specs.declared.event.Event.TheVariants.{OfDisc};

    ghost event = { λ e. OfDisc e };
}

impl Names<NodeMachine> for TrailEvent {
    ghost use Rattle.node_machine.specs.declared.event.Event.TheVariants.{OfTrail};

    ghost event = { λ e. OfTrail e };
}

impl Names<NodeMachine> for MonitorEvent {
    ghost use Rattle.node_machine.specs.declared.event.Event.TheVariants.{OfMonitor};

    ghost event = { λ e. OfMonitor e };
}

impl Names<NodeMachine> for DumpEvent {
    ghost use Rattle.node_machine.specs.declared.event.Event.TheVariants.{OfDump};

    ghost event = { λ e. OfDump e };
}

impl<'a> Names<NodeMachine> for AuditOffer<'a> {
    ghost use Rattle.node_machine.specs.declared.event.Event.TheVariants.{OfTrail};
    ghost use Rattle.node_machine.specs.declared.event.TrailEvent.TheVariants.{Offer};

    ghost event = { λ e. OfTrail (Offer e.file e.records.now) };
}

impl<'a> Names<NodeMachine> for CarOffer<'a> {
    ghost use Rattle.node_machine.specs.declared.event.Event.TheVariants.{OfMonitor};
    ghost use Rattle.node_machine.specs.declared.event.MonitorEvent.TheVariants.{Offer};

    ghost event = { λ e. OfMonitor (Offer e.records.now) };
}
