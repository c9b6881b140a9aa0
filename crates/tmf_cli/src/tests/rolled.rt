//! Rollforwards over a dump that is written by hand: a whole one, and ones that are cut off behind so many calls of the devices.
use super::{FIRST, NO_FAILS, NO_MORE, Ran, expect_over, printed, run, run_over, script_of};
use disk_model::{Disk, DiskFault};
use std::alloc::Global;
use std::process::Abort;
use std::sync::Wait;
use std::test::Fail;
use std::thread::Threads;

/// The bytes of a body of four blocks.
const BODY: usize = 16_384;

/// Puts bytes into others.
fn put_in(bytes: &mut [u8], at: usize, row: &[u8]) {
    for (place, &byte) in bytes.iter_mut().skip(at).zip(row) {
        *place = byte;
    }
}

/// The file of a dump's label: slot 1 is selected, and has the version, the volume 1, the body 2, the start 1 and the number 1.
fn label_bytes() -> [u8; 768] {
    let mut label = [0; 768];
    put_in(&mut label, 0, &[1, 1]);
    put_in(&mut label, 512, &[1, 1, 2]);
    put_in(&mut label, 527, &[1]);
    put_in(&mut label, 535, &[1]);
    label
}

/// The body of a dump from before the disc's first record: four blocks of file 1 without records.
fn body_bytes() -> [u8; BODY] {
    let mut body = [0; BODY];
    put_in(&mut body, 0, &[1, 0, 1]);
    put_in(&mut body, 4_096, &[1, 0, 1, 0, 0, 1]);
    put_in(&mut body, 8_192, &[1, 0, 1, 0, 0, 2]);
    put_in(&mut body, 12_288, &[1, 0, 1, 0, 0, 3]);
    body
}

/// Makes a file of these bytes. They are not synced: by choice 0 a restart leaves them all the same.
fn put_file<D: Disk>(device: &mut D, file: u32, bytes: &[u8]) -> Result<(), DiskFault> {
    device.create(file)?;
    device.write(file, 0, bytes)
}

/// Devices that the first script has left, with a dump of its volume from before its transaction.
fn dumped<R: Threads + Wait + Sync>(rt: &R, alloc: Global) -> Result<Ran, Fail> {
    let mut ran = run(rt, alloc, &["run"], FIRST, NO_FAILS)?;
    let body = put_file(ran.bay.device(13), 2, &body_bytes());
    let label = put_file(ran.bay.device(13), 1, &label_bytes());
    if body.is_err() || label.is_err() {
        return Err(Fail::new("no dump was written"));
    }
    Ok(ran)
}

#[test]
fn a_lost_volume_is_rolled_forward(rt: HostRuntime) -> Result<(), Fail> {
    let alloc = rt.alloc();
    let ran = dumped(&rt, alloc)?;
    let text = script_of(
        alloc,
        &[
            "recover\nlose $DATA1\nrecover\nrollforward $DATA1\nlist ACCT\n",
            "run\nworker\nbegin\nput ACCT k2 v2\ncommit\nend\n",
            "recover\nrollforward $DATA1\nlist ACCT\n",
        ],
    )?;
    let output = "1 start 1\n2 commit 1.1.1.1\n3 start 2\nrecovered 3\nlost $DATA1\n\
        4 start 3\nlost $DATA1\nrecovered 4\nrolled $DATA1 2\nACCT k1 v1\nlisted ACCT 1\n\
        4.1.1.1 committed 6\n5 start 4\n6 commit 4.1.1.1\nrecovered 5\n\
        rollforward $DATA1 not lost\nACCT k1 v1\nACCT k2 v2\nlisted ACCT 2\n";
    expect_over(&rt, alloc, &text, NO_FAILS, (0, output), ran.bay)?;
    Ok(())
}

/// What is printed before a rollforward that is cut off, up to the name of its device.
const CUT: &str = "lost $DATA1\n1 start 1\n2 commit 1.1.1.1\n3 start 2\nlost $DATA1\nrecovered 3\n\
    rollforward $DATA1 failed ";

/// The devices of which a rollforward asks.
const NAMES: [&str; 4] = ["MAT", "AUX1", "DUMP$DATA1", "$DATA1"];

/// What is found behind one that was cut off: the volume is still lost, and is rolled forward; or it is there.
const FOUND: [&str; 2] = [
    "\n4 start 3\nlost $DATA1\nrecovered 4\nrolled $DATA1 2\nACCT k1 v1\nlisted ACCT 1\n",
    "\n4 start 3\nrecovered 4\nrollforward $DATA1 not lost\nACCT k1 v1\nlisted ACCT 1\n",
];

/// Whether a rollforward was cut off, and the volume is found behind it.
fn is_cut(output: &str) -> bool {
    let Some(rest) = output.strip_prefix(CUT) else {
        return false;
    };
    NAMES.iter().any(|name| match rest.strip_prefix(*name) {
        Some(found) => FOUND.contains(&found),
        None => false,
    })
}

/// Cuts a rollforward off behind each number of calls in turn, up to the first that is whole, and makes one again behind it.
fn each_cut<R: Threads + Wait + Sync + Abort>(rt: &R, alloc: Global) -> Result<(), Fail> {
    for calls in 0..NO_MORE {
        let ran = dumped(rt, alloc)?;
        let cut = format!(in alloc; "rollforward $DATA1 kill {calls}\n")?;
        let actions = [
            "lose $DATA1\nrecover\n",
            &cut,
            "recover\nrollforward $DATA1\nlist ACCT\n",
        ];
        let text = script_of(alloc, &actions)?;
        let ran = run_over(rt, alloc, &["run"], &text, NO_FAILS, ran.bay)?;
        let output = printed(alloc, &ran)?;
        if !is_cut(output.as_str()) {
            assert!(rt;
                calls > 20
                    && output.contains(
                        "recovered 3\nrolled $DATA1 2\n4 start 3\nrecovered 4\nrollforward $DATA1 not lost\nACCT k1 v1\n"
                    ),
                "{calls}: {output}"
            );
            return Ok(());
        }
    }
    Err(Fail::new("a rollforward of so many calls is still cut off"))
}

#[test]
fn a_rollforward_that_is_cut_off_loses_nothing(rt: HostRuntime) -> Result<(), Fail> {
    each_cut(&rt, rt.alloc())
}
