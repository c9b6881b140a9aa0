//! One worker whose outcomes are known to the place: at a trail that goes on in further files, and with a limit of events.
use crate::nodes::{
    Free, begun, disks, done, first_of, formatted, is_committed, is_controlled, script,
};
use disk_model::{Disk, DiskFault};
use node_run::{Outcome, Told};
use std::process::Abort;
use std::test::Fail;
use tmf_model::Transid;

/// A node whose trail goes on in a new file at 256 bytes.
const SHORT_FILES: &[u8] = b"trail AUX1\nvolume $DATA1 AUX1\nfile ACCT $DATA1 4\nroll 256\n";

/// A node each part of which may have three events.
const FEW_STEPS: &[u8] = b"trail AUX1\nvolume $DATA1 AUX1\nfile ACCT $DATA1 4\nsteps 3\n";

/// A worker with three transactions of one put each.
const THREE_PUTS: &[u8] =
    b"worker\nbegin\nput ACCT k1 a\ncommit\nbegin\nput ACCT k2 b\ncommit\nbegin\nput ACCT k3 c\ncommit\n";

/// The same, and a control point behind them.
const THREE_PUTS_AND_CONTROL: &[u8] =
    b"worker\nbegin\nput ACCT k1 a\ncommit\nbegin\nput ACCT k2 b\ncommit\nbegin\nput ACCT k3 c\ncommit\ncontrol $DATA1\n";

/// Whether these are the device's files, and no other.
fn has_files<D: Disk>(device: &mut D, least: u32, last: u32) -> Result<bool, DiskFault> {
    if device.least()? != Some(least) {
        return Ok(false);
    }
    for file in least..last.saturating_add(1) {
        if device.length(file)?.is_none() {
            return Ok(false);
        }
    }
    Ok(device.length(last.saturating_add(1))?.is_none())
}

#[test]
fn each_batch_has_a_file_of_its_own(rt: HostRuntime) -> Result<(), Fail> {
    let alloc = rt.alloc();
    let script = script(alloc, SHORT_FILES, THREE_PUTS)?;
    let bay = formatted(alloc, &script.config, disks(alloc)?)?;
    let (outcomes, mut bay) = done(&rt, alloc, &script, &Free, bay)?;
    assert_eq!(rt; outcomes.len(), 3);
    assert_eq!(rt; has_files(bay.device(1), 1, 3), Ok(true));
    Ok(())
}

#[test]
fn a_control_point_removes_files_of_its_trail(rt: HostRuntime) -> Result<(), Fail> {
    let alloc = rt.alloc();
    let script = script(alloc, SHORT_FILES, THREE_PUTS_AND_CONTROL)?;
    let bay = formatted(alloc, &script.config, disks(alloc)?)?;
    let (outcomes, mut bay) = done(&rt, alloc, &script, &Free, bay)?;
    let outcomes = outcomes.as_slice();
    assert_eq!(rt; outcomes.len(), 4);
    assert!(rt; is_controlled(outcomes.get(3), first_of(1, 4), 4));
    assert_eq!(rt; bay.device(1).least(), Ok(Some(3)));
    Ok(())
}

/// Whether the outcome is that this attempt was not begun, since the first worker's part has had as many events as it may.
fn is_spent(outcome: Option<&Outcome>, tx: Transid) -> bool {
    let Some(outcome) = outcome else {
        return false;
    };
    match outcome.told {
        Told::Spent { part } => outcome.tx == tx && part == 0,
        _ => false,
    }
}

/// Whether the outcome is that this item was skipped.
fn is_skipped(outcome: Option<&Outcome>, tx: Transid) -> bool {
    let Some(outcome) = outcome else {
        return false;
    };
    match outcome.told {
        Told::Skipped => outcome.tx == tx,
        _ => false,
    }
}

#[test]
fn a_worker_without_events_left_is_spent(rt: HostRuntime) -> Result<(), Fail> {
    let alloc = rt.alloc();
    let script = script(alloc, FEW_STEPS, THREE_PUTS)?;
    let bay = formatted(alloc, &script.config, disks(alloc)?)?;
    let (outcomes, _) = begun(&rt, alloc, &script, &Free, bay)?;
    let outcomes = outcomes.as_slice();
    assert_eq!(rt; outcomes.len(), 3);
    assert!(rt; is_committed(outcomes.get(0), first_of(1, 1), 2));
    assert!(rt; is_spent(outcomes.get(1), first_of(1, 2)));
    assert!(rt; is_skipped(outcomes.get(2), first_of(1, 3)));
    Ok(())
}
