//! Runs that are cut off after so many calls of all devices together.
ghost use Rattle.tmf_model.specs.Script.{IsValidScript};

use crate::nodes::{
    Free, chosen_disks, entries, first_of, formatted, is_committed, ran, recovered, script,
};
use std::alloc::Global;
use std::process::Abort;
use std::sync::Wait;
use std::test::Fail;
use std::thread::Threads;
use tmf_model::Script;

/// Two trails with a volume each, on each of which lies one file.
const TWO_FILES: &[u8] =
    b"trail AUX1\ntrail AUX2\nvolume $DATA1 AUX1\nvolume $DATA2 AUX2\nfile ACCT $DATA1 4\nfile HIST $DATA2 4\n";

/// A worker with one transaction, which puts a record in each file.
const TWO_PUTS: &[u8] = b"worker\nbegin\nput ACCT k1 v1\nput HIST k1 v1\ncommit\n";

/// More calls than the devices have in the run.
const CALLS: u64 = 1000;

/// Fewer calls than the devices have in a run that commits.
const FEW: u64 = 8;

/// Whether the transaction is committed in a run that is cut off after so many calls, over devices of which a restart leaves what the choice picks.
/// Behind a recovery both files have its record or neither has, and both where it is.
fn commits_within<R: Threads + Wait + Sync>(
    rt: &R,
    alloc: Global,
    script: &Script,
    choice: u64,
    calls: u64,
) -> Result<bool, Fail>
    requires { IsValidScript script.now }
{
    let mut bay = formatted(alloc, &script.config, chosen_disks(alloc, choice)?)?;
    bay.arm(calls);
    let (result, mut bay) = ran(rt, alloc, script, &Free, bay)?;
    bay.disarm();
    recovered(alloc, &mut bay, &script.config)?;
    let first = entries(alloc, &mut bay, &script.config, 1)?.len();
    let second = entries(alloc, &mut bay, &script.config, 2)?.len();
    if first != second {
        return Err(Fail::new("one file alone has its record"));
    }
    let Ok(outcomes) = result else {
        return Ok(false);
    };
    let committed = is_committed(outcomes.as_slice().get(0), first_of(1, 1), 2);
    if committed && first != 1 {
        return Err(Fail::new("what was committed is not there"));
    }
    Ok(committed)
}

/// The least number of calls with which the transaction is committed.
fn calls_of_commit<R: Threads + Wait + Sync>(
    rt: &R,
    alloc: Global,
    choice: u64,
) -> Result<u64, Fail> {
    let script = script(alloc, TWO_FILES, TWO_PUTS)?;
    for calls in 0..CALLS {
        if commits_within(rt, alloc, &script, choice, calls)? {
            return Ok(calls);
        }
    }
    Err(Fail::new("no run was whole"))
}

/// Runs that are cut off after each number of calls up to one that commits, over devices with each of these choices.
fn both_or_neither<R: Threads + Wait + Sync>(
    rt: &R,
    alloc: Global,
    from: u64,
    to: u64,
) -> Result<bool, Fail> {
    for choice in from..to {
        if calls_of_commit(rt, alloc, choice)? < FEW {
            return Ok(false);
        }
    }
    Ok(true)
}

#[test]
fn a_cut_leaves_both_records_or_neither(rt: HostRuntime) -> Result<(), Fail> {
    assert!(rt; both_or_neither(&rt, rt.alloc(), 0, 1)?);
    Ok(())
}

#[test]
fn a_cut_with_choices_1_and_2(rt: HostRuntime) -> Result<(), Fail> {
    assert!(rt; both_or_neither(&rt, rt.alloc(), 1, 3)?);
    Ok(())
}

#[test]
fn a_cut_with_choices_3_and_4(rt: HostRuntime) -> Result<(), Fail> {
    assert!(rt; both_or_neither(&rt, rt.alloc(), 3, 5)?);
    Ok(())
}

#[test]
fn a_cut_with_choices_5_and_6(rt: HostRuntime) -> Result<(), Fail> {
    assert!(rt; both_or_neither(&rt, rt.alloc(), 5, 7)?);
    Ok(())
}

#[test]
fn a_cut_with_choices_7_and_8(rt: HostRuntime) -> Result<(), Fail> {
    assert!(rt; both_or_neither(&rt, rt.alloc(), 7, 9)?);
    Ok(())
}
