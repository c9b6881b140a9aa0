//! The devices of a node.

ghost use Rattle.std.specs.Prelude.{◌≡◌, ◌≢◌, ◌<◌, ◌≤◌, ℕ, List, All, map, length, true, false, vec_len, slice_get, slice_index_or, Some, Err, IfOk, IfErr, IsTrue};
ghost use Rattle.std.specs.Option.{is_some};
ghost use Rattle.disk_model.specs.Fuse.{device_of, CutsNone, IsSet, IsUncut};
ghost use Rattle.disk_model.specs.Devices.{EachFuse, FuseRestarts};
ghost use Rattle.disk_model.specs.declared.fuse.Fuse.{Fuse};

use crate::fuse::Countdown;
use crate::{Disk, Fuse};
use std::alloc::{AllocError, Global};
use std::marker::Model;
use std::sync::Arc;
use std::sync::atomic::AtomicU64;

/// How many devices a bay has.
const DEVICES: usize = 21;

/// Why no bay was made. It hands the devices back.
#[derive(Debug, Drop)]
pub enum BayRefused<D> {
    /// There are fewer or more than 21 devices.
    NotTwentyOne(Vec<D>),
    NoMemory(Vec<D>),
}

/// The 21 devices of a node, each in a fuse.
#[derive(Drop)]
pub struct Bay<D> {
    fuses: Vec<Fuse<D>>,
}

impl<D> Model for Bay<D> {
    ghost use Rattle.std.specs.Prelude.{◌≡◌, List, vec_len};
    ghost use Rattle.disk_model.specs.declared.fuse.Fuse.{Fuse};

    ghost Value = { List (Fuse D) };

    ghost view = { λ b. b.fuses.items };

    ghost invariant = { λ b. vec_len b.fuses ≡ 21 };
}

fn restart_each<D: Disk>(fuses: &mut [Fuse<D>])
    ensures restarted { (n : ℕ) (d : Fuse D) → n < length fuses.old → FuseRestarts D.Disk (slice_index_or fuses.old n d) (slice_index_or fuses.new n d) }
    ensures uncut { (n : ℕ) (d : Fuse D) → n < length fuses.old → CutsNone (slice_index_or fuses.old n d) (slice_index_or fuses.new n d) }
{
    for fuse in fuses.iter_mut() {
        fuse.restart();
    }
}

// Arms each fuse with so many calls that they pass on together, or disarms each.
fn set_each<D>(fuses: &mut [Fuse<D>], calls: Option<u64>)
    ensures { (n : ℕ) (d : Fuse D) → n < length fuses.old → IsSet (is_some calls) (slice_index_or fuses.old n d) (slice_index_or fuses.new n d) }
{
    for fuse in fuses.iter_mut() {
        fuse.set(calls);
    }
}

// A countdown, once for each device of a bay.
fn countdowns(alloc: Global) -> Result<Vec<Countdown>, AllocError>
    ensures { IfOk result (λ shares. vec_len shares ≡ 21) }
{
    let countdown = Arc::new(alloc, AtomicU64::new(0))?;
    let mut shares = Vec::with_capacity(alloc, DEVICES)?;
    for _ in 0..DEVICES {
        shares.push_reserved(Arc::try_clone(&countdown)?);
    }
    Ok(shares)
}

impl<D: Disk> Bay<D> {
    ghost use Rattle.std.specs.Borrow.{sem};
    ghost use Rattle.disk_model.specs.Bay.{LendsFuse, IsRefusal};

    /// Puts each device into a fuse, which is disarmed.
    pub fn new(alloc: Global, devices: Vec<D>) -> Result<Bay<D>, BayRefused<D>>
    where
        D: Drop,
        ensures devices { IfOk result (λ bay. map device_of bay ≡ devices.items) }
        ensures uncut { IfOk result (All IsUncut) }
        ensures not_twenty_one { vec_len devices ≢ 21 → result ≡ Err (BayRefused.NotTwentyOne devices) }
        ensures refused { IfErr result (IsRefusal devices.items) }
    {
        if devices.len() != DEVICES {
            return Err(BayRefused::NotTwentyOne(devices));
        }
        let Ok(mut fuses) = Vec::with_capacity(alloc, DEVICES) else {
            return Err(BayRefused::NoMemory(devices));
        };
        let Ok(mut countdowns) = countdowns(alloc) else {
            return Err(BayRefused::NoMemory(devices));
        };
        for device in devices {
            let Some(countdown) = countdowns.pop() else {
                unreachable!();
            };
            fuses.push_reserved(Fuse::new(device, countdown));
        }
        Ok(Bay { fuses })
    }

    /// The device with this number.
    pub fn device(&mut self, number: u8) -> &mut Fuse<D>
        requires { number < 21 }
        ensures* lends { sem 𝓛 (LendsFuse D.row self.entry number result) }
        ensures value { slice_get self.old number ≡ Some result.now }
    {
        &mut self.fuses[number as usize]
    }

    /// Arms each fuse. They pass so many calls on, all together, and cut each later one.
    pub fn arm(&mut self, calls: u64)
        ensures count { (length self.old ≡ 21) × (length self.new ≡ 21) }
        ensures each { EachFuse (IsSet true) self.old self.new }
    {
        set_each(&mut self.fuses, Some(calls));
    }

    /// Disarms each fuse. They pass each call on.
    pub fn disarm(&mut self)
        ensures count { (length self.old ≡ 21) × (length self.new ≡ 21) }
        ensures each { EachFuse (IsSet false) self.old self.new }
    {
        set_each(&mut self.fuses, None);
    }

    /// Each device as a crash leaves it.
    pub fn restart(&mut self)
        ensures count { (length self.old ≡ 21) × (length self.new ≡ 21) }
        ensures each { (n : ℕ) (old new : Fuse D) → slice_get self.old n ≡ Some old → slice_get self.new n ≡ Some new → FuseRestarts D.Disk old new }
        ensures uncut { EachFuse CutsNone self.old self.new }
    {
        restart_each(&mut self.fuses);
    }

    /// Takes the bay apart.
    pub fn into_fuses(self) -> Vec<Fuse<D>>
        ensures fuses { result.items ≡ self }
        ensures count { vec_len result ≡ 21 }
    {
        let Bay { fuses } = self;
        fuses
    }

    /// Puts a bay together again.
    pub fn from_fuses(fuses: Vec<Fuse<D>>) -> Bay<D>
        requires { vec_len fuses ≡ 21 }
        ensures { result ≡ fuses.items }
    {
        Bay { fuses }
    }
}
