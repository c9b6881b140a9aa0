//! What no clause says: what whole scripts print where calls of the source, the sink or a device fail, the bytes that they leave on the
//! devices, and what later calls find there. Scripts over empty devices of which none fails stand under examples/.
mod bank;
mod commits;
mod cut;
mod lost;
mod rolled;

use crate::device::DEVICES;
use crate::top::tmf;
use disk_model::{Bay, Disk, MemDisk};
use std::alloc::Global;
use std::process::Abort;
use std::sync::Wait;
use std::test::Fail;
use std::thread::Threads;
use tmf_edges::{MemSink, MemSource};

const HEAD: &str = "trail AUX1\nvolume $DATA1 AUX1\nfile ACCT $DATA1 4\n";

const FIRST: &str =
    "trail AUX1\nvolume $DATA1 AUX1\nfile ACCT $DATA1 4\nformat\nrun\nworker\nbegin\n\
    put ACCT k1 v1\ncommit\nend\nrecover\nlist ACCT\n";

/// A text that is no script, by its last line.
const NO_SCRIPT: &str = "trail AUX1\nvolume $DATA1 AUX1\nformat\nwalk\n";

/// What each action of the first script prints, which it gives to the sink at once; but a listing's records before its last line.
const FIRST_GIVES: [&str; 6] = [
    "formatted\n",
    "1.1.1.1 committed 2\n",
    "1 start 1\n2 commit 1.1.1.1\n",
    "recovered 2\n",
    "ACCT k1 v1\n",
    "listed ACCT 1\n",
];

const FIRST_OUTPUT: &str =
    "formatted\n1.1.1.1 committed 2\n1 start 1\n2 commit 1.1.1.1\nrecovered 2\nACCT k1 v1\n\
    listed ACCT 1\n";

/// The numbers of the calls that fail: of the source, of the sink, and of one device; and the choice by which the devices pick what a restart leaves.
#[derive(Clone, Copy)]
struct Fails<'a> {
    source: &'a [u64],
    sink: &'a [u64],
    device: usize,
    calls: &'a [u64],
    choice: u64,
}

const NO_FAILS: Fails<'static> = Fails {
    source: &[],
    sink: &[],
    device: 0,
    calls: &[],
    choice: 0,
};

/// How a call ended, and what it left.
#[derive(Drop)]
struct Ran {
    status: u8,
    sink: MemSink,
    bay: Bay<MemDisk>,
}

/// Empty devices, of which these calls fail.
fn failing_bay(alloc: Global, fails: Fails) -> Result<Bay<MemDisk>, Fail> {
    let mut disks = Vec::new(alloc);
    for n in 0..DEVICES {
        let calls = if n == fails.device { fails.calls } else { &[] };
        disks.push(MemDisk::new(alloc, fails.choice, calls)?)?;
    }
    match Bay::new(alloc, disks) {
        Ok(bay) => Ok(bay),
        Err(_) => Err(Fail::new("no bay was made")),
    }
}

/// Runs the program with these words behind its name, over these devices.
fn run_over<R: Threads + Wait + Sync>(
    rt: &R,
    alloc: Global,
    words: &[&str],
    text: &str,
    fails: Fails,
    bay: Bay<MemDisk>,
) -> Result<Ran, Fail> {
    let mut list = vec![in alloc; String::from_str(alloc, "tmf")?]?;
    for word in words {
        list.push(String::from_str(alloc, word)?)?;
    }
    let bytes = Vec::from_slice(alloc, text.as_bytes())?;
    let mut source = MemSource::new(bytes, Vec::from_slice(alloc, fails.source)?);
    let mut sink = MemSink::new(alloc, Vec::from_slice(alloc, fails.sink)?);
    let (status, bay) = tmf(rt, alloc, &list, &mut source, &mut sink, bay);
    Ok(Ran { status, sink, bay })
}

/// Runs it over empty devices.
fn run<R: Threads + Wait + Sync>(
    rt: &R,
    alloc: Global,
    words: &[&str],
    text: &str,
    fails: Fails,
) -> Result<Ran, Fail> {
    let bay = failing_bay(alloc, fails)?;
    run_over(rt, alloc, words, text, fails, bay)
}

/// Runs it over the devices that an earlier call has left.
fn run_again<R: Threads + Wait + Sync>(
    rt: &R,
    alloc: Global,
    text: &str,
    earlier: Ran,
) -> Result<Ran, Fail> {
    run_over(rt, alloc, &["run"], text, NO_FAILS, earlier.bay)
}

/// What the call printed.
fn printed(alloc: Global, ran: &Ran) -> Result<String, Fail> {
    Ok(String::from_utf8_lossy(alloc, ran.sink.given())?)
}

const MONITOR_BYTES: [u8; 145] = [
    1, 1, 0, 0, 0, 0, 0, 1, 0, 0, 0, 0, 0, 0, 0, 0, // gate, version, count
    1, 0, 0, 0, 0, 0, 0, 1, 0, 0, 0, 0, 0, 0, 0, 0, // start of epoch 1
    0, 0, 0, 0, 0, 0, 0, 1, 0, 0, 0, 0, 0, 0, 0, 0, // at place 1
    1, 1, 0, 0, 0, 0, 0, 1, 0, 0, 0, 0, 0, 0, 0, 0, // gate, version, count
    2, 0, 0, 0, 0, 0, 0, 1, 0, 1, 0, 1, 1, 0, 0, 0, // commit of 1.1.1.1
    0, 0, 0, 0, 0, 0, 0, 2, 0, 0, 0, 0, 0, 0, 0, 0, // at place 2
    1, 1, 0, 0, 0, 0, 0, 1, 0, 0, 0, 0, 0, 0, 0, 0, // gate, version, count
    1, 0, 0, 0, 0, 0, 0, 2, 0, 0, 0, 0, 0, 0, 0, 0, // start of epoch 2
    0, 0, 0, 0, 0, 0, 0, 3, 0, 0, 0, 0, 0, 0, 0, 0, // at place 3
    0,
];

const AUDIT_BYTES: [u8; 145] = [
    1, 1, 0, 0, 0, 0, 0, 1, 0, 0, 0, 0, 0, 0, 0, 0, // gate, version, count
    1, 1, 1, 2, 0, 0, 0, 1, 0, 1, 0, 1, 1, 0, 2, 0, // change of disc 1, file 1, by 1.1.1.1
    0, 0, 0, 0, 0, 0, 0, 1, b'k', b'1', 0, 0, 0, 0, 0, 0, // at position 1, of this key
    0, 0, 0, 0, 0, 0, 0, 0, 0, 0, 0, 0, 0, 0, 0, 0, // from no value
    0, 0, 0, 0, 0, 0, 0, 0, 0, 0, 0, 0, 0, 0, 0, 0, //
    0, 0, 0, 0, 0, 0, 0, 0, 0, 0, 0, 0, 0, 0, 0, 0, //
    b'v', b'1', 0, 0, 0, 0, 0, 0, 0, 0, 0, 0, 0, 0, 0, 0, // to this value
    0, 0, 0, 0, 0, 0, 0, 0, 0, 0, 0, 0, 0, 0, 0, 0, //
    0, 0, 0, 0, 0, 0, 0, 0, 0, 0, 0, 0, 0, 0, 0, 0, //
    0,
];

/// The selected slot of the volume's label, where recovery has moved the low position.
const LABEL_BYTES: [u8; 24] = [
    1, 1, 1, 1, 0, 0, 0, 0, // version, volume, trail, one file
    0, 0, 0, 0, 0, 0, 0, 2, // low position
    1, 0, 0, 4, 0, 0, 0, 0, // file 1 of 4 blocks
];

/// The front of the selected slot of the key's block.
const BLOCK_FRONT: [u8; 18] = [
    1, 0, 1, 0, 0, 2, 0, 0, // version, file 1, block 2
    0, 0, 0, 0, 0, 0, 0, 1, // position
    0, 1, // one record
];

/// The record behind its 128 bytes of header.
const RECORD_BYTES: [u8; 32] = [
    2, 2, 0, 0, 0, 0, 0, 0, // lengths of key and value
    b'k', b'1', 0, 0, 0, 0, 0, 0, 0, 0, 0, 0, 0, 0, 0, 0, // key
    b'v', b'1', 0, 0, 0, 0, 0, 0, // value
];

fn has(disk: &MemDisk, file: u32, bytes: &[u8]) -> bool {
    match disk.bytes(file) {
        Some(held) => held == bytes,
        None => false,
    }
}

/// Whether the file has this length, and these bytes from an offset on.
fn has_at(disk: &MemDisk, file: u32, length: usize, offset: usize, bytes: &[u8]) -> bool {
    let Some(held) = disk.bytes(file) else {
        return false;
    };
    held.len() == length
        && held
            .iter()
            .skip(offset)
            .zip(bytes)
            .all(|(byte, wanted)| byte == wanted)
}

#[test]
fn trails_have_these_bytes(rt: HostRuntime) -> Result<(), Fail> {
    let mut ran = run(&rt, rt.alloc(), &["run"], FIRST, NO_FAILS)?;
    assert!(rt; has(ran.bay.device(0).device(), 1, &MONITOR_BYTES));
    assert!(rt; has(ran.bay.device(1).device(), 1, &AUDIT_BYTES));
    for n in 2..21 {
        assert!(rt; n == 5 || ran.bay.device(n).device().bytes(1).is_none());
    }
    Ok(())
}

#[test]
fn volumes_have_these_bytes(rt: HostRuntime) -> Result<(), Fail> {
    let mut ran = run(&rt, rt.alloc(), &["run"], FIRST, NO_FAILS)?;
    let disk = ran.bay.device(5).device();
    // The gate is open; the selectors of the label and of block 2 name slot 1.
    assert!(rt; has_at(disk, 1, 768, 0, &[1, 1]));
    assert!(rt; has_at(disk, 1, 768, 512, &LABEL_BYTES));
    assert!(rt; has_at(disk, 2, 33_024, 0, &[0, 0, 1, 0]));
    assert!(rt; has_at(disk, 2, 33_024, 256 + 5 * 4096, &BLOCK_FRONT));
    assert!(rt; has_at(disk, 2, 33_024, 256 + 5 * 4096 + 128, &RECORD_BYTES));
    assert!(rt; disk.bytes(3).is_none());
    Ok(())
}

/// Checks the status of a call over these devices and what it prints, and answers the devices that it leaves.
fn expect_over<R: Threads + Wait + Sync + Abort>(
    rt: &R,
    alloc: Global,
    text: &str,
    fails: Fails,
    awaited: (u8, &str),
    bay: Bay<MemDisk>,
) -> Result<Bay<MemDisk>, Fail> {
    let ran = run_over(rt, alloc, &["run"], text, fails, bay)?;
    let output = printed(alloc, &ran)?;
    assert_eq!(rt; (ran.status, output.as_str()), awaited, "{text}");
    Ok(ran.bay)
}

/// The same of the first script over empty devices.
fn expect<R: Threads + Wait + Sync + Abort>(
    rt: &R,
    alloc: Global,
    fails: Fails,
    status: u8,
    output: &str,
) -> Result<Bay<MemDisk>, Fail> {
    let bay = failing_bay(alloc, fails)?;
    expect_over(rt, alloc, FIRST, fails, (status, output), bay)
}

/// More calls of a device than any script here makes.
const NO_MORE: u64 = 400;

/// A run of one put.
const RUN: &str = "run\nworker\nbegin\nput ACCT k1 v1\ncommit\nend\n";

/// A script of these actions, each of one line or more.
fn script_of(alloc: Global, actions: &[&str]) -> Result<String, Fail> {
    let mut text = format!(in alloc; "{HEAD}")?;
    for action in actions {
        text.push_str(action)?;
    }
    Ok(text)
}

/// Scripts that are run one after the other over the same devices, and what each prints.
const CALLS: [(&[&str], &str); 5] = [
    (&["format\n", RUN], "formatted\n1.1.1.1 committed 2\n"),
    (
        &[
            "recover\n",
            "list ACCT\n",
            "run\nworker\nbegin\nput ACCT k2 v2\ncommit\nbegin\nput ACCT k1 v3\ncommit\nend\n",
            "recover\n",
            "list ACCT\n",
        ],
        "1 start 1\n2 commit 1.1.1.1\nrecovered 2\nACCT k1 v1\nlisted ACCT 1\n2.1.1.1 committed 4\n\
        2.1.2.1 committed 5\n3 start 2\n4 commit 2.1.1.1\n5 commit 2.1.2.1\nrecovered 3\nACCT k1 v3\n\
        ACCT k2 v2\nlisted ACCT 2\n",
    ),
    // A call begins with a node that is down.
    (&["list ACCT\n", RUN], "list ACCT not up\nrun not up\n"),
    (
        &["recover\n", "list ACCT\n"],
        "1 start 1\n2 commit 1.1.1.1\n3 start 2\n4 commit 2.1.1.1\n5 commit 2.1.2.1\n6 start 3\n\
        recovered 4\nACCT k1 v3\nACCT k2 v2\nlisted ACCT 2\n",
    ),
    (
        &["format\n", "recover\n", "list ACCT\n"],
        "formatted\n1 start 1\nrecovered 2\nlisted ACCT 0\n",
    ),
];

/// Runs all of these scripts over the same devices, of which a restart leaves what this choice picks.
fn later_calls<R: Threads + Wait + Sync + Abort>(
    rt: &R,
    alloc: Global,
    choice: u64,
) -> Result<(), Fail> {
    let fails = Fails { choice, ..NO_FAILS };
    let mut bay = failing_bay(alloc, fails)?;
    for (actions, output) in CALLS {
        let text = script_of(alloc, actions)?;
        bay = expect_over(rt, alloc, &text, fails, (0, output), bay)?;
    }
    Ok(())
}

#[test]
fn later_calls_go_on_over_the_same_devices(rt: HostRuntime) -> Result<(), Fail> {
    for choice in [0, 1, 2, 5] {
        later_calls(&rt, rt.alloc(), choice)?;
    }
    Ok(())
}

/// One transaction over two trails.
const BOTH: &str =
    "trail AUX1\ntrail AUX2\nvolume $D1 AUX1\nvolume $D2 AUX2\nfile F1 $D1 4\nfile F2 $D2 4\n\
    format\nrun\nworker\nbegin\nput F1 a 1\nput F2 b 2\ncommit\nend\n";

/// A later call over what it has left.
const BOTH_AGAIN: &str =
    "trail AUX1\ntrail AUX2\nvolume $D1 AUX1\nvolume $D2 AUX2\nfile F1 $D1 4\nfile F2 $D2 4\n\
    recover\nlist F1\nlist F2\n";

const BOTH_THERE: &str = "recovered 2\nF1 a 1\nlisted F1 1\nF2 b 2\nlisted F2 1\n";

const NONE_THERE: &str = "recovered 2\nlisted F1 0\nlisted F2 0\n";

/// Lets each call of the device fail in turn: the transaction then is on both volumes or on none.
fn each_failing_call_of_both<R: Threads + Wait + Sync + Abort>(
    rt: &R,
    alloc: Global,
    device: usize,
    choice: u64,
) -> Result<(), Fail> {
    for n in 0..80 {
        let fails = Fails {
            device,
            calls: &[n],
            choice,
            ..NO_FAILS
        };
        let ran = run(rt, alloc, &["run"], BOTH, fails)?;
        let output = printed(alloc, &ran)?;
        if output.starts_with("format failed") {
            continue;
        }
        if output.ends_with("1.1.1.1 committed 2\n") {
            // No call of the script is so far behind.
            return Ok(());
        }
        let ran = run_again(rt, alloc, BOTH_AGAIN, ran)?;
        let left = printed(alloc, &ran)?;
        assert!(rt;
            left.ends_with(BOTH_THERE) || left.ends_with(NONE_THERE),
            "{device} at {n} by {choice}: {left}"
        );
    }
    Err(Fail::new("a call behind 80 still fails"))
}

/// Of the monitor trail's device, of the audit trails' and of the volumes'.
fn two_volumes_have_a_transaction_or_neither<R: Threads + Wait + Sync + Abort>(
    rt: &R,
    alloc: Global,
    choice: u64,
) -> Result<(), Fail> {
    for device in [0, 1, 2, 5, 6] {
        each_failing_call_of_both(rt, alloc, device, choice)?;
    }
    Ok(())
}

#[test]
fn two_volumes_have_a_transaction_or_neither_by_choice_0(rt: HostRuntime) -> Result<(), Fail> {
    two_volumes_have_a_transaction_or_neither(&rt, rt.alloc(), 0)
}

#[test]
fn two_volumes_have_a_transaction_or_neither_by_choice_1(rt: HostRuntime) -> Result<(), Fail> {
    two_volumes_have_a_transaction_or_neither(&rt, rt.alloc(), 1)
}

#[test]
fn two_volumes_have_a_transaction_or_neither_by_choice_2(rt: HostRuntime) -> Result<(), Fail> {
    two_volumes_have_a_transaction_or_neither(&rt, rt.alloc(), 2)
}

#[test]
fn two_volumes_have_a_transaction_or_neither_by_choice_5(rt: HostRuntime) -> Result<(), Fail> {
    two_volumes_have_a_transaction_or_neither(&rt, rt.alloc(), 5)
}

#[test]
fn failing_takes_print_nothing(rt: HostRuntime) -> Result<(), Fail> {
    // Take 1 answers that nothing is left, and there is no take 2.
    for (take, status, output) in [(0, 3, ""), (1, 3, ""), (2, 0, FIRST_OUTPUT)] {
        let fails = Fails {
            source: &[take],
            ..NO_FAILS
        };
        expect(&rt, rt.alloc(), fails, status, output)?;
    }
    Ok(())
}

#[test]
fn failing_gives_end_the_output(rt: HostRuntime) -> Result<(), Fail> {
    let mut output = String::new(rt.alloc());
    for (give, part) in FIRST_GIVES.iter().enumerate() {
        let fails = Fails {
            sink: &[give as u64],
            ..NO_FAILS
        };
        expect(&rt, rt.alloc(), fails, 4, &output)?;
        output.push_str(part)?;
    }
    Ok(())
}

#[test]
fn failing_gives_leave_other_statuses(rt: HostRuntime) -> Result<(), Fail> {
    let alloc = rt.alloc();
    expect(
        &rt,
        alloc,
        Fails {
            sink: &[6],
            ..NO_FAILS
        },
        0,
        FIRST_OUTPUT,
    )?;
    let first = Fails {
        sink: &[0],
        ..NO_FAILS
    };
    let bay = failing_bay(alloc, first)?;
    expect_over(&rt, alloc, NO_SCRIPT, first, (5, ""), bay)?;
    let ran = run(&rt, alloc, &["walk"], FIRST, first)?;
    assert!(rt; ran.status == 1 && ran.sink.given().is_empty());
    Ok(())
}

/// A script that lists 900 records.
fn long_listing(alloc: Global) -> Result<String, Fail> {
    let mut text = format!(in alloc; "trail A\nvolume $D A\nfile F $D 64\nformat\nrun\nworker\n")?;
    for batch in 0..18_u64 {
        let first = 100 + 50 * batch;
        text.push_str("begin\n")?;
        for key in first..first + 50 {
            writeln!(
                text,
                "put F key{key} 01234567890123456789012345678901234{key}"
            )?;
        }
        text.push_str("commit\n")?;
    }
    text.push_str("end\nrecover\nlist F\n")?;
    Ok(text)
}

/// How many bytes of the listing are printed where this give fails: a front of the whole output.
fn front_of<R: Threads + Wait + Sync + Abort>(
    rt: &R,
    alloc: Global,
    text: &str,
    whole: &str,
    give: u64,
) -> Result<usize, Fail> {
    let fails = Fails {
        sink: &[give],
        ..NO_FAILS
    };
    let ran = run(rt, alloc, &["run"], text, fails)?;
    let output = printed(alloc, &ran)?;
    assert!(rt;
        ran.status == 4 && whole.starts_with(output.as_str()),
        "at {give}"
    );
    Ok(output.len())
}

#[test]
fn long_listings_are_given_in_pieces(rt: HostRuntime) -> Result<(), Fail> {
    let text = long_listing(rt.alloc())?;
    let whole = run(&rt, rt.alloc(), &["run"], &text, NO_FAILS)?;
    let whole = printed(rt.alloc(), &whole)?;
    assert!(rt; whole.ends_with("\nlisted F 900\n"), "{whole}");
    // Gives 0 to 3 are those of the format, the run and the recovery. A record's line has 48 bytes here, and a piece has all that fit but for one line of 112.
    let mut before = front_of(&rt, rt.alloc(), &text, &whole, 4)?;
    for give in 5..7 {
        let printed = front_of(&rt, rt.alloc(), &text, &whole, give)?;
        assert_eq!(rt; printed.saturating_sub(before), 340 * 48, "at {give}");
        before = printed;
    }
    Ok(())
}

// The script makes 21 calls of the monitor trail's device: 1 to ask for an old trail, 2 to format and 4 to land a batch; 3 to
// attach, which reads all of the trail, and 4 to land; 3 to attach and 4 to land. Of the audit trail's it makes 12:
// 2 to format; 3 to attach and 4 to land; 3 to attach. Of the volume's device, where 1 reads the label and 1 reads a file whole, it makes 34:
// 17 to format; 1 for the low position and 3 to read a block; 1 for the low position, 2 to read before the first write, and 4 for
// each of a block and the label; 2 to list. Of the dumps' it makes 4, of which the last looks for a dump before the run.
/// Calls of a device, from one up to another, and the output where one of them fails.
type ToldCalls = (usize, u64, u64, &'static str);

const TRAIL_CALLS: [ToldCalls; 10] = [
    (
        0,
        0,
        7,
        "format failed MAT\nrun not up\nrecover not up\nlist ACCT not up\n",
    ),
    (
        0,
        7,
        10,
        "formatted\nrun failed MAT\n1 start 1\nrecovered 2\nlisted ACCT 0\n",
    ),
    (
        0,
        10,
        13,
        "formatted\n1.1.1.1 indoubt MAT\n1 start 1\nrecovered 2\nlisted ACCT 0\n",
    ),
    (
        0,
        13,
        14,
        "formatted\n1.1.1.1 indoubt MAT\n1 start 1\n2 commit 1.1.1.1\nrecovered 2\nACCT k1 v1\nlisted ACCT 1\n",
    ),
    (
        0,
        14,
        21,
        "formatted\n1.1.1.1 committed 2\nrecover failed MAT\nlist ACCT not up\n",
    ),
    (0, 21, 26, FIRST_OUTPUT),
    (
        1,
        0,
        2,
        "format failed AUX1\nrun not up\nrecover not up\nlist ACCT not up\n",
    ),
    (
        1,
        2,
        5,
        "formatted\nrun failed AUX1\n1 start 1\nrecovered 2\nlisted ACCT 0\n",
    ),
    (
        1,
        9,
        12,
        "formatted\n1.1.1.1 committed 2\nrecover failed AUX1\nlist ACCT not up\n",
    ),
    (1, 12, 17, FIRST_OUTPUT),
];

/// Calls for an attempt alone, which is then backed out.
const ATTEMPT_CALLS: [ToldCalls; 2] = [
    (
        1,
        5,
        9,
        "formatted\n1.1.1.1 failed AUX1\n1 start 1\n2 abort 1.1.1.1\nrecovered 2\nlisted ACCT 0\n",
    ),
    (
        5,
        18,
        21,
        "formatted\n1.1.1.1 failed $DATA1\n1 start 1\n2 abort 1.1.1.1\nrecovered 2\nlisted ACCT 0\n",
    ),
];

const VOLUME_CALLS: [ToldCalls; 4] = [
    (
        5,
        0,
        17,
        "format failed $DATA1\nrun not up\nrecover not up\nlist ACCT not up\n",
    ),
    (
        5,
        17,
        18,
        "formatted\nrun failed $DATA1\n1 start 1\nrecovered 2\nlisted ACCT 0\n",
    ),
    (
        5,
        32,
        34,
        "formatted\n1.1.1.1 committed 2\n1 start 1\n2 commit 1.1.1.1\nrecovered 2\nlist ACCT failed $DATA1\n",
    ),
    (5, 34, 39, FIRST_OUTPUT),
];

/// Those of the volume's device in the recovery, which are most.
const RECOVERY_CALLS: [ToldCalls; 1] = [(
    5,
    21,
    32,
    "formatted\n1.1.1.1 committed 2\nrecover failed $DATA1\nlist ACCT not up\n",
)];

const DUMP_CALLS: [ToldCalls; 3] = [
    (
        13,
        0,
        3,
        "format failed DUMP$DATA1\nrun not up\nrecover not up\nlist ACCT not up\n",
    ),
    (
        13,
        3,
        4,
        "formatted\nrun failed DUMP$DATA1\n1 start 1\nrecovered 2\nlisted ACCT 0\n",
    ),
    (13, 4, 9, FIRST_OUTPUT),
];

/// Lets this call of a device fail. Whatever is left, a format begins anew.
fn fails_so<R: Threads + Wait + Sync + Abort>(
    rt: &R,
    alloc: Global,
    device: usize,
    n: u64,
    output: &str,
) -> Result<(), Fail> {
    let fails = Fails {
        device,
        calls: &[n],
        ..NO_FAILS
    };
    let bay = expect(rt, alloc, fails, 0, output)?;
    if output != FIRST_OUTPUT {
        expect_over(rt, alloc, FIRST, NO_FAILS, (0, FIRST_OUTPUT), bay)?;
    }
    Ok(())
}

/// Lets each of these calls fail in turn.
fn failing_calls_are_told<R: Threads + Wait + Sync + Abort>(
    rt: &R,
    alloc: Global,
    calls: &[ToldCalls],
) -> Result<(), Fail> {
    for (device, from, to, output) in calls {
        for n in *from..*to {
            fails_so(rt, alloc, *device, n, output)?;
        }
    }
    Ok(())
}

#[test]
fn failing_calls_of_trails_are_told(rt: HostRuntime) -> Result<(), Fail> {
    failing_calls_are_told(&rt, rt.alloc(), &TRAIL_CALLS)
}

#[test]
fn failing_calls_for_an_attempt_are_told(rt: HostRuntime) -> Result<(), Fail> {
    failing_calls_are_told(&rt, rt.alloc(), &ATTEMPT_CALLS)
}

#[test]
fn failing_calls_of_a_volume_are_told(rt: HostRuntime) -> Result<(), Fail> {
    failing_calls_are_told(&rt, rt.alloc(), &VOLUME_CALLS)
}

#[test]
fn failing_calls_of_a_recovery_are_told(rt: HostRuntime) -> Result<(), Fail> {
    failing_calls_are_told(&rt, rt.alloc(), &RECOVERY_CALLS)
}

#[test]
fn failing_calls_of_dumps_are_told(rt: HostRuntime) -> Result<(), Fail> {
    failing_calls_are_told(&rt, rt.alloc(), &DUMP_CALLS)
}
