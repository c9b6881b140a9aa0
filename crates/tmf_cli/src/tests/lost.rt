//! Volumes that have lost their label, and losses of volumes.
use super::{
    BOTH, FIRST, FIRST_OUTPUT, Fails, NO_FAILS, RUN, Ran, expect_over, failing_bay, run, script_of,
};
use disk_model::Disk;
use std::test::Fail;

/// Makes the label of the first volume anew, without an open gate, which loses the volume.
fn lose_label(ran: &mut Ran) -> Result<(), Fail> {
    match ran.bay.device(5).create(1) {
        Ok(()) => Ok(()),
        Err(_) => Err(Fail::new("the label still stands")),
    }
}

#[test]
fn lost_volumes_are_told_and_not_up(rt: HostRuntime) -> Result<(), Fail> {
    let alloc = rt.alloc();
    let mut ran = run(&rt, alloc, &["run"], FIRST, NO_FAILS)?;
    lose_label(&mut ran)?;
    let text = script_of(alloc, &["recover\n", RUN, "list ACCT\n", "recover\n"])?;
    let output = "1 start 1\n2 commit 1.1.1.1\n3 start 2\nlost $DATA1\nrecovered 3\nrun not up\n\
        list ACCT not up\n4 start 3\nlost $DATA1\nrecovered 4\n";
    let bay = expect_over(&rt, alloc, &text, NO_FAILS, (0, output), ran.bay)?;
    // A format makes the volume anew.
    expect_over(&rt, alloc, FIRST, NO_FAILS, (0, FIRST_OUTPUT), bay)?;
    Ok(())
}

/// A later call over what the transaction over two trails has left, and what it prints where the first volume is lost.
const BESIDE_LOST: &str =
    "trail AUX1\ntrail AUX2\nvolume $D1 AUX1\nvolume $D2 AUX2\nfile F1 $D1 4\nfile F2 $D2 4\n\
    recover\nlist F1\nlist F2\nrun\nworker\nbegin\nput F2 c 3\ncommit\nend\nrecover\nlist F2\n\
    run\nworker\nbegin\nread F1 a\ncommit\nend\n";

const BESIDE_LOST_OUTPUT: &str =
    "1 start 1\n2 commit 1.1.1.1\nlost $D1\nrecovered 2\nlist F1 not up\nF2 b 2\nlisted F2 1\n\
    2.1.1.1 committed 4\n3 start 2\n4 commit 2.1.1.1\nlost $D1\nrecovered 3\nF2 b 2\nF2 c 3\n\
    listed F2 2\nrun not up\n";

#[test]
fn volumes_beside_a_lost_one_are_up(rt: HostRuntime) -> Result<(), Fail> {
    let alloc = rt.alloc();
    let mut ran = run(&rt, alloc, &["run"], BOTH, NO_FAILS)?;
    lose_label(&mut ran)?;
    let awaited = (0, BESIDE_LOST_OUTPUT);
    expect_over(&rt, alloc, BESIDE_LOST, NO_FAILS, awaited, ran.bay)?;
    Ok(())
}

#[test]
fn a_loss_leaves_no_file_of_the_volume(rt: HostRuntime) -> Result<(), Fail> {
    let alloc = rt.alloc();
    let ran = run(&rt, alloc, &["run"], FIRST, NO_FAILS)?;
    let text = script_of(alloc, &["recover\n", "lose $DATA1\n", "list ACCT\n", RUN])?;
    let output = "1 start 1\n2 commit 1.1.1.1\n3 start 2\nrecovered 3\nlost $DATA1\n\
        list ACCT not up\nrun not up\n";
    let mut bay = expect_over(&rt, alloc, &text, NO_FAILS, (0, output), ran.bay)?;
    assert!(rt; matches!(&bay.device(5).least(), Ok(None)));
    let text = script_of(alloc, &["recover\n", "list ACCT\n"])?;
    let output = "1 start 1\n2 commit 1.1.1.1\n3 start 2\n4 start 3\nlost $DATA1\nrecovered 4\n\
        list ACCT not up\n";
    expect_over(&rt, alloc, &text, NO_FAILS, (0, output), bay)?;
    Ok(())
}

#[test]
fn a_failing_loss_is_told(rt: HostRuntime) -> Result<(), Fail> {
    let alloc = rt.alloc();
    let text = script_of(alloc, &["lose $DATA1\n", "lose $DATA1\n"])?;
    for calls in [&[0u64], &[1]] {
        let fails = Fails {
            device: 5,
            calls,
            ..NO_FAILS
        };
        let output = "lose $DATA1 failed $DATA1\nlost $DATA1\n";
        let bay = failing_bay(alloc, fails)?;
        expect_over(&rt, alloc, &text, fails, (0, output), bay)?;
    }
    Ok(())
}
