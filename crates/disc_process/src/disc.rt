//! The state of one disc.
ghost use Rattle.std.specs.Prelude.{◌^◌, min, length, ◌≡◌, ◌<◌, ◌+◌, ◌-◌, ◌++◌, [], Option, Some, None, Ok, Err, IfOk, IfErr, IfSome, IfNone, OnOk, OnErr, true, false, ◌==◌};
ghost use mathlib.Core.List.{IsPrefix};
ghost use Rattle.chronicle.specs.Seats.{IsUnion, Knows, own_events};
ghost use Rattle.node_machine.specs.Made.{blocks_of, last_write, next_position};
ghost use Rattle.node_machine.specs.Trail.{trail_of};
ghost use Rattle.node_machine.specs.declared.event.By.{By};
ghost use Rattle.std.specs.List.{list_any};
ghost use Rattle.audit_writer.specs.Locked.{HasFailed as HasTrailFailed};
ghost use Rattle.audit_writer.specs.Writers.{number_of};
ghost use Rattle.tmf_model.specs.Config.{IsDeclared, IsValidConfig, IsWithin};
ghost use Rattle.txn_states.specs.Txn.{HasStepped};
ghost use Rattle.node_machine.specs.Node.{node};
ghost use Rattle.node_machine.specs.Parts.{Fact as TheFact};
ghost use Rattle.node_machine.specs.Parts.Fact.{Closed, Durable};
ghost use Rattle.disc_process.specs.Draw.{HasOnlySeen};
ghost use Rattle.disc_process.specs.Write.{IsIdle};
ghost use Rattle.disc_process.specs.Damage.{HoldsBlocks};
ghost use Rattle.disc_process.specs.Device.{HoldsDevice, device_of};
ghost use Rattle.disc_process.specs.Disc.{AreTrails, IsFit, IsOpening, IsSpent, closings, the_disc};
ghost use Rattle.disc_process.specs.InTime.{IsInTime};
ghost use Rattle.disc_process.specs.Later.{HaveGrown, IsLaterDisc, IsLaterTxn, IsLawful};
ghost use Rattle.disc_process.specs.Seats.{IsLaterSeat};

use crate::live::LiveTable;
use crate::moves::Moves;
use audit_writer::{AuditWriter, DeviceRun, FlushRefused};
use block_cache::Blocks;
use chronicle::{Chronicle, Seat};
use disk_model::Disk;
use node_machine::{By, DiscEvent, NodeMachine};
use record_locks::{Locks, NoMemory};
use std::alloc::Global;
use std::marker::Model;
use std::sync::Wait;
use tmf_model::Config;
use trail_files::AuditRecord;
use txn_states::{Active, Ending};

/// The position from which on no new work is begun.
const LAST_POSITION: u64 = 2_305_843_009_213_693_952;

/// What stands behind a disc's lock.
#[derive(Drop)]
pub struct DiscState<'a, D: Disk, J: DeviceRun<D>> {
    pub(crate) alloc: Global,
    pub(crate) chronicle: &'a Chronicle<NodeMachine, J>,
    pub(crate) config: &'a Config,
    pub(crate) volume: u8,
    pub(crate) blocks: Blocks<D>,
    pub(crate) locks: Locks,
    pub(crate) live: LiveTable,
    pub(crate) pending: Vec<AuditRecord>,
    pub(crate) next: u64,
    pub(crate) moves: Moves,
    pub(crate) seat: Seat<NodeMachine, J>,
}

impl<'a, D: Disk, J: DeviceRun<D>> Model for DiscState<'a, D, J> {
    ghost use Rattle.disc_process.specs.Device.{device_of};
    ghost use Rattle.disc_process.specs.Disc.{DiscView, IsDisc, the_disc};

    ghost Value = { DiscView D };

    ghost view = { λ d. record { seat = d.seat; part = the_disc J.opening d.seat; blocks = d.blocks; handed_in = J.devices (device_of d.volume) } };

    ghost invariant = { λ d. IsDisc D.Disk J.opening J.found J.rules J.faults J.devices d.config.now d.volume d.blocks d.locks d.live d.pending.items d.next d.moves d.seat };
}

/// How many blocks a file has.
pub(crate) fn blocks_of(config: &Config, file: u8) -> u16
    requires valid { IsValidConfig config.now }
    requires declared { IsDeclared config.now.files file }
    ensures blocks { result ≡ blocks_of config.now file }
    ensures within { IsWithin 1 256 result }
{
    config.files.as_slice()[usize::from(file) - 1].blocks
}

/// The trail of a volume.
pub(crate) fn trail_of(config: &Config, volume: u8) -> u8
    requires valid { IsValidConfig config.now }
    requires declared { IsDeclared config.now.volumes volume }
    ensures trail { result ≡ trail_of config.now volume }
    ensures declared { IsDeclared config.now.trails result }
{
    config.volumes.as_slice()[usize::from(volume) - 1].trail
}

/// The writer of a trail.
pub(crate) fn writer_of<'b, 'a, D: Disk, J: DeviceRun<D>>(
    trails: &'b [AuditWriter<'a, D, J>],
    config: &Config,
    trail: u8,
) -> &'b AuditWriter<'a, D, J>
    requires trails { AreTrails config.now trails.now }
    requires declared { IsDeclared config.now.trails trail }
    ensures { number_of result.now ≡ trail }
{
    let _ = config;
    &trails[usize::from(trail) - 1]
}

impl<'a, D: Disk, J: DeviceRun<D>> DiscState<'a, D, J> {
    /// The state of a disc that has had no event yet.
    pub fn new(
        alloc: Global,
        chronicle: &'a Chronicle<NodeMachine, J>,
        config: &'a Config,
        volume: u8,
        blocks: Blocks<D>,
        next: u64,
        rest: Option<u64>,
        seat: Seat<NodeMachine, J>,
    ) -> DiscState<'a, D, J>
        requires { IsOpening D.Disk J.opening J.found J.rules J.faults J.devices config.now volume blocks next rest seat }
        ensures value { result ≡ record { seat = seat; part = the_disc J.opening seat; blocks = blocks; handed_in = J.devices (device_of volume) } }
        ensures in_time { IsInTime seat }
    {
        seat.lawful();
        DiscState {
            alloc,
            chronicle,
            config,
            volume,
            blocks,
            locks: Locks::new(alloc),
            live: LiveTable::new(alloc),
            pending: Vec::new(alloc),
            next,
            moves: Moves {
                lowering: false,
                dumps: 0,
                dump: None,
                rest,
            },
            seat,
        }
    }

    /// Says what holds of every disc. It does nothing.
    pub fn lawful(&self)
        ensures { IsLawful D.Disk J.opening self.now }
    {
        self.seat.lawful();
        self.blocks.always();
        Blocks::<D>::every_image();
    }

    /// Says what holds of the device of every disc: it is the one that was handed in, and has failed for each failure that the disc tells. A block in the
    /// cache was right when it was handed in, and what is wrong in one that need not be drawn was wrong then. It does nothing.
    pub fn device_lawful(&self)
        ensures handed_in { self.now.handed_in ≡ J.devices (device_of self.now.part.number) }
        ensures device { HoldsDevice D.Disk self.now.handed_in (J.faults (device_of self.now.part.number)) self.now.blocks.device self.now.part.events }
        ensures blocks { HoldsBlocks D.Disk self.now.handed_in self.now.blocks }
    {
        let _ = &self.blocks;
    }

    /// The first part that is spent, if one is. The disc's seat has then seen what the worker's has, and all events of the trail.
    pub(crate) fn spent<R: Wait>(
        &mut self,
        rt: &R,
        tx: &mut Active<'a, J>,
        trails: &[AuditWriter<'a, D, J>],
    ) -> Option<u32>
        requires { AreTrails self.old.part.config trails.now }
        ensures still { HasOnlySeen self.old self.new }
        ensures behind { IsPrefix tx.new.seat.seen self.new.seat.seen }
        ensures txn { IsLaterTxn J.opening tx.old tx.new }
        ensures idle { IsIdle tx.old tx.new }
        ensures spent { IfSome result (IsSpent self.old.part tx.old self.old.seat self.new.seat.seen) }
        ensures fit { IfNone result (IsFit self.old.part tx.old self.old.seat self.new.seat.seen) }
    {
        let steps = self.config.steps;
        let trail = trail_of(self.config, self.volume);
        tx.meet(&mut self.seat);
        let trail_events = writer_of(trails, self.config, trail).events(rt, &mut self.seat);
        if tx.events() >= steps {
            return Some(u32::from(tx.tx().worker) - 1);
        }
        if self.chronicle.counted(&self.seat) >= steps {
            return Some(15 + u32::from(self.volume));
        }
        if trail_events >= steps {
            return Some(23 + u32::from(trail));
        }
        if self.next >= LAST_POSITION {
            return Some(15 + u32::from(self.volume));
        }
        None
    }

    /// The number of the volume's device.
    pub(crate) fn device(&self) -> u8
        ensures { result ≡ 4 + self.now.part.number }
    {
        4 + self.volume
    }

    /// Ends what a transaction asks for here, and answers the position of its last change here, 0 where it has made none.
    pub fn close(&mut self, tx: &mut Ending<'a, J>) -> Result<u64, NoMemory>
        requires { list_any (λ d. d == self.old.part.number) tx.old.discs ≡ true }
        ensures closed { IfOk result (λ p. (p ≡ last_write self.old.part.events tx.old.tx) × Knows node J.opening tx.new.seat (Closed tx.old.tx self.old.part.number p)) }
        ensures events { OnOk result (own_events self.new.seat ≡ own_events self.old.seat ++ closings self.old.part.events tx.old.tx) }
        ensures unchanged { OnErr result ((self.new ≡ self.old) × (tx.new ≡ tx.old)) }
        ensures disc { IsLaterDisc J.opening self.old self.new }
        ensures txn { HasStepped J.opening tx.old [] tx.new }
        ensures seen { OnOk result (tx.new.seat.seen ≡ self.new.seat.seen) }
        ensures blocks { self.new.blocks ≡ self.old.blocks }
    {
        self.lawful();
        let closed = self.close_step(tx);
        self.lawful();
        closed
    }

    /// The same, without the frame of the disc.
    fn close_step(&mut self, tx: &mut Ending<'a, J>) -> Result<u64, NoMemory>
        requires { list_any (λ d. d == self.old.part.number) tx.old.discs ≡ true }
        ensures closed { IfOk result (λ p. (p ≡ last_write self.old.part.events tx.old.tx) × Knows node J.opening tx.new.seat (Closed tx.old.tx self.old.part.number p)) }
        ensures events { OnOk result (own_events self.new.seat ≡ own_events self.old.seat ++ closings self.old.part.events tx.old.tx) }
        ensures unchanged { OnErr result ((self.new ≡ self.old) × (tx.new ≡ tx.old)) }
        ensures txn { HasStepped J.opening tx.old [] tx.new }
        ensures seen { OnOk result (tx.new.seat.seen ≡ self.new.seat.seen) }
        ensures later_seat { IsLaterSeat self.old.seat self.new.seat }
        ensures blocks { self.new.blocks ≡ self.old.blocks }
    {
        let t = tx.tx();
        self.live.reserve(t)?;
        tx.meet(&mut self.seat);
        if self.live.has_closed(&t) {
            return Ok(self.live.last(&t));
        }
        self.chronicle.append(&mut self.seat, &DiscEvent::Close(t));
        self.live.close(t);
        tx.meet(&mut self.seat);
        Ok(self.live.last(&t))
    }

    /// Lets the disc's seat and another tell each other.
    pub fn meet(&mut self, caller: &mut Seat<NodeMachine, J>)
        ensures part { self.new.part ≡ self.old.part }
        ensures blocks { self.new.blocks ≡ self.old.blocks }
        ensures seats { HaveGrown J.opening self.old.seat self.new.seat caller.old caller.new }
        ensures same { self.new.seat.seen ≡ caller.new.seen }
        ensures union { IsUnion self.old.seat.seen caller.old.seen caller.new.seen }
        ensures tells { (f : TheFact) → Knows node J.opening self.old.seat f → Knows node J.opening caller.new f }
    {
        self.chronicle.meet(&mut self.seat, caller);
    }

    /// Lands all audit of this disc, and answers the next position. Landed or not, the disc's seat and the caller's have then seen the same.
    pub fn flush<R: Wait>(
        &mut self,
        rt: &R,
        by: By,
        caller: &mut Seat<NodeMachine, J>,
        trails: &[AuditWriter<'a, D, J>],
    ) -> Result<u64, FlushRefused>
        requires { AreTrails self.old.part.config trails.now }
        ensures part { self.new.part ≡ self.old.part }
        ensures blocks { self.new.blocks ≡ self.old.blocks }
        ensures next { IfOk result (λ next. next ≡ next_position self.new.part) }
        ensures durable { OnOk result (Knows node J.opening self.new.seat (Durable self.new.part.number (next_position self.new.part - 1))) }
        ensures shown { OnOk result (Knows node J.opening caller.new (Durable self.new.part.number (next_position self.new.part - 1))) }
        ensures seats { HaveGrown J.opening self.old.seat self.new.seat caller.old caller.new }
        ensures same { self.new.seat.seen ≡ caller.new.seen }
        ensures refused { IfErr result (HasTrailFailed (trail_of self.old.part.config self.old.part.number) by self.old.seat self.new.seat) }
        ensures told { IfErr result (HasTrailFailed (trail_of self.old.part.config self.old.part.number) by caller.old caller.new) }
    {
        self.meet(caller);
        match self.land(rt, by, trails) {
            Ok(()) => {
                self.meet(caller);
                Ok(self.next)
            }
            Err(refused) => {
                self.meet(caller);
                Err(refused)
            }
        }
    }

    /// The configuration that it was attached with.
    pub fn config(&self) -> &'a Config
        ensures { result.now ≡ self.now.part.config }
    {
        self.config
    }

    /// The number of its volume.
    pub fn volume(&self) -> u8
        ensures { result ≡ self.now.part.number }
    {
        self.volume
    }

    /// How many events the disc has had, or 2^64 - 1 where there are more.
    pub fn events(&self) -> u64
        ensures { result ≡ min (length (own_events self.now.seat)) (2 ^ 64 - 1) }
    {
        self.chronicle.counted(&self.seat)
    }
}
