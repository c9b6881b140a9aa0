//! What no clause says: that a run is whole where there is memory and no device fails, and that what it acknowledged stands where one does.
ghost use Rattle.std.specs.Prelude.{⊤};
ghost use Rattle.tmf_model.specs.Script.{IsValidScript};

use crate::nodes::{
    DEVICES, Free, HEAD, disks, done, entries, formatted, listed, ran, recovered, script,
};
use disk_model::{Bay, Disk, MemDisk, Watch, Watched};
use node_run::{Hang, Outcome, PhaseError, Told};
use std::alloc::Global;
use std::process::Abort;
use std::sync::Wait;
use std::sync::atomic::{AtomicU64, Ordering};
use std::test::Fail;
use std::thread::Threads;
use tmf_model::{Key, Script, Sequence, Transid};
use volume_recovery::volumes;

/// Two workers, whose items name both volumes.
const TWO_WORKERS: &[u8] =
    b"worker\nbegin 8\nput F k a\nread F k\ncommit\ncontrol $D\ndump $D\nbegin 8\nput G n 7\nadd G n 3\ncommit\nworker\nbegin 8\nput G k b\ncommit\nbegin 8\nput F m c\nput G m d\ncommit\n";

#[test]
fn two_workers_run(rt: HostRuntime) -> Result<(), Fail> {
    let alloc = rt.alloc();
    let script = script(alloc, HEAD, TWO_WORKERS)?;
    for _ in 0..20 {
        let bay = formatted(alloc, &script.config, disks(alloc)?)?;
        let (outcomes, mut bay) = done(&rt, alloc, &script, &Free, bay)?;
        assert_eq!(rt; outcomes.len(), 6);
        assert_eq!(rt; recovered(alloc, &mut bay, &script.config)?, 5);
        assert_eq!(rt;
            listed(alloc, &mut bay, &script.config, 1)?.as_str(),
            "k=a m=c "
        );
        assert_eq!(rt;
            listed(alloc, &mut bay, &script.config, 2)?.as_str(),
            "k=b m=d n=10 "
        );
    }
    Ok(())
}

/// Four workers: each transaction puts one key into both files, and the key says worker and item.
const FOUR_WORKERS: &[u8] =
    b"worker\nbegin\nput F 11 v\nput G 11 v\ncommit\ncontrol $D\nbegin\nput F 13 v\nput G 13 v\ncommit\nworker\nbegin\nput G 21 v\nput F 21 v\ncommit\ndump $D\nbegin\nput F 23 v\nput G 23 v\ncommit\nworker\nbegin\nput F 31 v\nput G 31 v\ncommit\nbegin\nput F 32 v\nput G 32 v\nabort\nbegin\nput F 33 v\nput G 33 v\ncommit\nworker\nbegin\nput G 41 v\nput F 41 v\ncommit\ncontrol $E\nbegin\nput G 43 v\nput F 43 v\ncommit\n";

/// Lets each call through, and counts them.
#[derive(Drop)]
struct Counts<'a> {
    asked: &'a AtomicU64,
}

impl Watch for Counts<'_> {
    ghost passes = { λ _ _. ⊤ };

    fn before(&self, read: bool) -> bool {
        let _ = read;
        self.asked.fetch_add(1, Ordering::SeqCst);
        true
    }
}

/// The devices of a node: the one with this number counts its calls, and the call with that number fails.
fn failing<'a>(
    alloc: Global,
    device: u8,
    call: u64,
    asked: &'a AtomicU64,
    others: &'a AtomicU64,
) -> Result<Vec<Watched<MemDisk, Counts<'a>>>, Fail> {
    let mut disks = Vec::new(alloc);
    for number in 0..DEVICES {
        let disk = if number == device {
            Watched::new(MemDisk::new(alloc, call, &[call])?, Counts { asked })
        } else {
            Watched::new(MemDisk::new(alloc, call, &[])?, Counts { asked: others })
        };
        disks.push(disk)?;
    }
    Ok(disks)
}

/// Whether an item may come to this where this device alone fails.
fn fits(told: &Told, failed: u8) -> bool {
    match told {
        Told::Failed { device } | Told::InDoubt { device } => *device == failed,
        Told::Hanging {
            why: Hang::Device(device),
        } => *device == failed,
        Told::Committed { .. } | Told::Controlled { .. } | Told::Dumped { .. } => true,
        Told::Aborted | Told::Skipped => true,
        _ => false,
    }
}

/// The keys of both files.
fn keys<D: Disk>(alloc: Global, bay: &mut Bay<D>, script: &Script) -> Result<Vec<Key>, Fail>
    requires { IsValidScript script.now }
{
    let mut keys = Vec::new(alloc);
    for file in 1..3 {
        let entries = entries(alloc, bay, &script.config, file)?;
        for (key, _) in entries.iter() {
            keys.push(*key)?;
        }
    }
    Ok(keys)
}

/// Whether the byte is the digit of this number.
fn is_digit(byte: Option<&u8>, number: u16) -> bool {
    match byte {
        Some(byte) => u16::from(*byte) == number.saturating_add(48),
        None => false,
    }
}

/// How many of these keys, of two digits each, are the one of this item.
fn keys_of(keys: &[Key], tx: Transid) -> u32 {
    let mut found: u32 = 0;
    for key in keys {
        let bytes = key.as_bytes();
        if is_digit(bytes.get(0), tx.worker) && is_digit(bytes.get(1), tx.ordinal) {
            found = found.saturating_add(1);
        }
    }
    found
}

/// Whether these keys are those that an outcome says of its item.
fn stands(keys: &[Key], outcome: &Outcome) -> bool {
    let found = keys_of(keys, outcome.tx);
    match outcome.told {
        Told::Committed { .. } => found == 2,
        Told::InDoubt { .. } => found == 0 || found == 2,
        _ => found == 0,
    }
}

/// Recovers the node; once more where the failing call came in the first recovery.
fn recovered_at_last<D: Disk>(alloc: Global, bay: &mut Bay<D>, script: &Script) -> Result<(), Fail>
    requires { IsValidScript script.now }
{
    if volumes::recover(alloc, bay, &script.config).is_err() {
        recovered(alloc, bay, &script.config)?;
    }
    Ok(())
}

/// What was told fits the failed device, and stands behind a recovery.
fn is_told<D: Disk>(
    alloc: Global,
    bay: &mut Bay<D>,
    script: &Script,
    told: &Result<Sequence<Outcome>, PhaseError>,
    device: u8,
) -> Result<(), Fail>
    requires { IsValidScript script.now }
{
    recovered_at_last(alloc, bay, script)?;
    let Ok(outcomes) = told else {
        return match told {
            Err(PhaseError::Failed(number)) if *number == device => Ok(()),
            _ => Err(Fail::new("another refusal than that of the device")),
        };
    };
    let keys = keys(alloc, bay, script)?;
    for outcome in outcomes.as_slice() {
        if !fits(&outcome.told, device) {
            return Err(Fail::new("an outcome does not fit the device"));
        }
        if !stands(keys.as_slice(), outcome) {
            return Err(Fail::new("an outcome does not stand"));
        }
    }
    Ok(())
}

/// How many calls a device has when its node is formatted.
fn calls_of_format(alloc: Global, script: &Script, device: u8) -> Result<u64, Fail>
    requires { IsValidScript script.now }
{
    let asked = AtomicU64::new(0);
    let others = AtomicU64::new(0);
    let disks = failing(alloc, device, u64::MAX, &asked, &others)?;
    formatted(alloc, &script.config, disks)?;
    Ok(asked.load(Ordering::SeqCst))
}

/// A run in which the device's call with this number fails. It answers whether the run has made that call.
fn one_fails<R: Threads + Wait + Sync>(
    rt: &R,
    alloc: Global,
    script: &Script,
    device: u8,
    call: u64,
) -> Result<bool, Fail>
    requires { IsValidScript script.now }
{
    let asked = AtomicU64::new(0);
    let others = AtomicU64::new(0);
    let disks = failing(alloc, device, call, &asked, &others)?;
    let bay = formatted(alloc, &script.config, disks)?;
    let (told, mut bay) = ran(rt, alloc, script, &Free, bay)?;
    let met = call < asked.load(Ordering::SeqCst);
    if let Ok(outcomes) = &told {
        if !met && !all_went_well(outcomes.as_slice()) {
            return Err(Fail::new("a refusal where no call failed"));
        }
    }
    is_told(alloc, &mut bay, script, &told, device)?;
    Ok(met)
}

/// Whether each of these items was carried out, or aborted by itself.
fn all_went_well(outcomes: &[Outcome]) -> bool {
    for outcome in outcomes {
        match outcome.told {
            Told::Committed { .. }
            | Told::Controlled { .. }
            | Told::Dumped { .. }
            | Told::Aborted => {}
            _ => return false,
        }
    }
    true
}

/// How many runs are tried for a call, since not each of them comes to it.
const TRIES: u32 = 3;

/// How many calls behind its format a device is tried with in one test; the later ones are tried in another. A volume has fewer calls in a run than a trail.
fn first_calls(device: u8) -> u64 {
    match device < 5 {
        true => 24,
        false => 10,
    }
}

/// More calls than a device has in a run.
const CALLS: u64 = 200;

/// Whether one of some runs has made the device's call with this number, which fails. None is tried behind the first that has.
fn one_meets<R: Threads + Wait + Sync>(
    rt: &R,
    alloc: Global,
    script: &Script,
    device: u8,
    call: u64,
) -> Result<bool, Fail>
    requires { IsValidScript script.now }
{
    for _ in 0..TRIES {
        if one_fails(rt, alloc, script, device, call)? {
            return Ok(true);
        }
    }
    Ok(false)
}

/// Runs in which one of these calls of the device fails each, counted from behind its format, up to the first to which no run comes. It answers how many have failed.
fn calls_fail<R: Threads + Wait + Sync>(
    rt: &R,
    alloc: Global,
    device: u8,
    from: u64,
    to: u64,
) -> Result<u64, Fail> {
    let script = script(alloc, HEAD, FOUR_WORKERS)?;
    let format = calls_of_format(alloc, &script, device)?;
    let mut failed: u64 = 0;
    for call in from..to {
        if !one_meets(rt, alloc, &script, device, format.saturating_add(call))? {
            return Ok(failed);
        }
        failed = failed.saturating_add(1);
    }
    Ok(failed)
}

/// Each of the first calls of the device fails.
fn first_calls_fail<R: Threads + Wait + Sync>(
    rt: &R,
    alloc: Global,
    device: u8,
) -> Result<bool, Fail> {
    let first = first_calls(device);
    Ok(calls_fail(rt, alloc, device, 0, first)? == first)
}

/// Each later call of the device fails, up to one to which no run comes.
fn later_calls_fail<R: Threads + Wait + Sync>(
    rt: &R,
    alloc: Global,
    device: u8,
) -> Result<bool, Fail> {
    let first = first_calls(device);
    Ok(calls_fail(rt, alloc, device, first, CALLS)? < CALLS.saturating_sub(first))
}

#[test]
fn four_workers_run(rt: HostRuntime) -> Result<(), Fail> {
    let script = script(rt.alloc(), HEAD, FOUR_WORKERS)?;
    for _ in 0..4 {
        assert!(rt; !one_fails(&rt, rt.alloc(), &script, 0, u64::MAX)?);
    }
    Ok(())
}

#[test]
fn first_calls_of_the_monitor_fail(rt: HostRuntime) -> Result<(), Fail> {
    assert!(rt; first_calls_fail(&rt, rt.alloc(), 0)?);
    Ok(())
}

#[test]
fn later_calls_of_the_monitor_fail(rt: HostRuntime) -> Result<(), Fail> {
    assert!(rt; later_calls_fail(&rt, rt.alloc(), 0)?);
    Ok(())
}

#[test]
fn first_calls_of_the_first_trail_fail(rt: HostRuntime) -> Result<(), Fail> {
    assert!(rt; first_calls_fail(&rt, rt.alloc(), 1)?);
    Ok(())
}

#[test]
fn later_calls_of_the_first_trail_fail(rt: HostRuntime) -> Result<(), Fail> {
    assert!(rt; later_calls_fail(&rt, rt.alloc(), 1)?);
    Ok(())
}

#[test]
fn first_calls_of_the_second_trail_fail(rt: HostRuntime) -> Result<(), Fail> {
    assert!(rt; first_calls_fail(&rt, rt.alloc(), 2)?);
    Ok(())
}

#[test]
fn later_calls_of_the_second_trail_fail(rt: HostRuntime) -> Result<(), Fail> {
    assert!(rt; later_calls_fail(&rt, rt.alloc(), 2)?);
    Ok(())
}

#[test]
fn first_calls_of_the_first_volume_fail(rt: HostRuntime) -> Result<(), Fail> {
    assert!(rt; first_calls_fail(&rt, rt.alloc(), 5)?);
    Ok(())
}

#[test]
fn later_calls_of_the_first_volume_fail(rt: HostRuntime) -> Result<(), Fail> {
    assert!(rt; later_calls_fail(&rt, rt.alloc(), 5)?);
    Ok(())
}

#[test]
fn first_calls_of_the_second_volume_fail(rt: HostRuntime) -> Result<(), Fail> {
    assert!(rt; first_calls_fail(&rt, rt.alloc(), 6)?);
    Ok(())
}

#[test]
fn later_calls_of_the_second_volume_fail(rt: HostRuntime) -> Result<(), Fail> {
    assert!(rt; later_calls_fail(&rt, rt.alloc(), 6)?);
    Ok(())
}

#[test]
fn calls_of_the_dump_devices_fail(rt: HostRuntime) -> Result<(), Fail> {
    for device in 13..15 {
        let failed = calls_fail(&rt, rt.alloc(), device, 0, CALLS)?;
        assert!(rt; 0 < failed && failed < CALLS);
    }
    Ok(())
}
