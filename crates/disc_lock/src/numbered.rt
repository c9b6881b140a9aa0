//! What stands behind the lock round a disc.
ghost use Rattle.std.specs.Prelude.{◌≡◌, ◌-◌, ◌^◌, false, length, min};
ghost use Rattle.chronicle.specs.Seats.{IsUnion, Knows, own_events};
ghost use Rattle.node_machine.specs.Node.{node};
ghost use Rattle.node_machine.specs.Parts.{Fact as TheFact};
ghost use Rattle.disc_process.specs.Damage.{HoldsBlocks};
ghost use Rattle.disc_process.specs.Device.{HoldsDevice, device_of};
ghost use Rattle.disc_process.specs.Later.{HaveGrown, IsLawful};
ghost use Rattle.disc_lock.specs.Numbered.{IsDiscOf};
ghost use Rattle.disc_lock.specs.Moving.{lacks_end};
ghost use Rattle.disc_lock.specs.Tokens.{IsCounted};

use crate::acts::ActsOf;
use audit_writer::DeviceRun;
use chronicle::Seat;
use disc_process::DiscState;
use disk_model::Disk;
use node_machine::NodeMachine;
use std::marker::PhantomData;
use std::sync::ledger::Share;
use tmf_model::Config;

/// Of which run a disc is, in no bytes. A ghost field beside a share can name what the run has found only where the type of another field does so too.
#[derive(Drop)]
pub struct OfRun<D, J: DeviceRun<D>> {
    device: PhantomData<D>,
    run: PhantomData<J>,
    ghost same: { J.found ≡ J.found },
}

/// A disc behind its lock, whether a move of its low position lacks its end, and the tokens of its acts and moves.
#[derive(Drop)]
pub struct DiscAt<'a, D: Disk, J: DeviceRun<D>> {
    pub(crate) state: DiscState<'a, D, J>,
    pub(crate) run: OfRun<D, J>,
    pub(crate) unended: bool,
    pub(crate) share: Share<ActsOf<J>>,
    ghost is: { IsDiscOf J.found state.part.number state },
    ghost ends: { unended ≡ lacks_end state.seat },
    ghost counted: { IsCounted share state.seat },
}

impl<'a, D: Disk, J: DeviceRun<D>> DiscAt<'a, D, J> {
    /// The disc, with the tokens of the acts and moves that it has had. None of its moves lacks its end.
    pub fn of(state: DiscState<'a, D, J>, share: Share<ActsOf<J>>) -> Self
        requires disc { IsDiscOf J.found state.part.number state }
        requires ends { false ≡ lacks_end state.seat }
        requires counted { IsCounted share state.seat }
    {
        let run = OfRun {
            device: PhantomData,
            run: PhantomData,
        };
        DiscAt {
            state,
            run,
            unended: false,
            share,
        }
    }

    /// The number of its volume.
    pub fn number(&self) -> u8
        ensures { result ≡ self.now.state.part.number }
    {
        self.state.volume()
    }

    /// Says what holds of every disc. It does nothing.
    pub fn lawful(&self)
        ensures { IsLawful D.Disk J.opening self.now.state }
    {
        self.state.lawful();
    }

    /// Says what holds of the device of every disc: it is the one that was handed in, it has failed for each failure that the disc tells, and what is wrong in its blocks was wrong
    /// then. It does nothing.
    pub fn device_lawful(&self)
        ensures handed_in { self.now.state.handed_in ≡ J.devices (device_of self.now.state.part.number) }
        ensures device { HoldsDevice D.Disk self.now.state.handed_in (J.faults (device_of self.now.state.part.number)) self.now.state.blocks.device self.now.state.part.events }
        ensures blocks { HoldsBlocks D.Disk self.now.state.handed_in self.now.state.blocks }
    {
        self.state.device_lawful();
    }

    /// The configuration that it was attached with.
    pub fn config(&self) -> &'a Config
        ensures { result.now ≡ self.now.state.part.config }
    {
        self.state.config()
    }

    /// How many events the disc has had, or 2^64 - 1 where there are more.
    pub fn events(&self) -> u64
        ensures { result ≡ min (length (own_events self.now.state.seat)) (2 ^ 64 - 1) }
    {
        self.state.events()
    }

    /// Lets the disc's seat and the caller's tell each other what they have seen.
    pub fn meet(&mut self, caller: &mut Seat<NodeMachine, J>)
        ensures part { self.new.state.part ≡ self.old.state.part }
        ensures blocks { self.new.state.blocks ≡ self.old.state.blocks }
        ensures seats { HaveGrown J.opening self.old.state.seat self.new.state.seat caller.old caller.new }
        ensures same { self.new.state.seat.seen ≡ caller.new.seen }
        ensures union { IsUnion self.old.state.seat.seen caller.old.seen caller.new.seen }
        ensures tells { (f : TheFact) → Knows node J.opening self.old.state.seat f → Knows node J.opening caller.new f }
    {
        self.state.meet(caller);
    }

    /// The state, and the tokens of the acts and moves that the disc has had.
    pub fn into_parts(self) -> (DiscState<'a, D, J>, Share<ActsOf<J>>)
        ensures disc { IsDiscOf J.found self.entry.state.part.number result.0 }
        ensures counted { IsCounted result.1 result.0.seat }
    {
        let DiscAt {
            state,
            run: _,
            unended: _,
            share,
        } = self;
        (state, share)
    }
}
