//! Recoveries that are cut off behind so many calls of the devices, and the ones behind them.
use super::{Fails, NO_FAILS, NO_MORE, RUN, printed, run, script_of};
use std::alloc::Global;
use std::process::Abort;
use std::sync::Wait;
use std::test::Fail;
use std::thread::Threads;

/// What is printed before a recovery that is cut off, up to the name of its device.
const CUT: &str = "formatted\n1.1.1.1 committed 2\nrecover failed ";

/// What a whole recovery behind some that were cut off prints, and the list: none of those has left its Start; or one has.
const FOUND: [&str; 2] = [
    "\n1 start 1\n2 commit 1.1.1.1\nrecovered 2\nACCT k1 v1\nlisted ACCT 1\n",
    "\n1 start 1\n2 commit 1.1.1.1\n3 start 2\nrecovered 3\nACCT k1 v1\nlisted ACCT 1\n",
];

/// What is printed where no recovery was cut off, behind the run.
const WHOLE: &str =
    "1 start 1\n2 commit 1.1.1.1\nrecovered 2\n3 start 2\nrecovered 3\nACCT k1 v1\nlisted ACCT 1\n";

/// How many calls of the devices the recovery of the script makes.
const CALLS: u64 = 21;

/// The devices at which a recovery may be cut off.
const NAMES: [&str; 3] = ["MAT", "AUX1", "$DATA1"];

/// The device that is named behind this text, and what is printed behind its name.
fn named_behind<'a>(output: &'a str, front: &str) -> Option<(&'static str, &'a str)> {
    let rest = output.strip_prefix(front)?;
    for name in NAMES {
        if let Some(behind) = rest.strip_prefix(name) {
            return Some((name, behind));
        }
    }
    None
}

/// Whether a whole recovery has found the run's records, and a Start at most of the one before, which was cut off behind so many calls at this device.
fn is_found(rest: &str, name: &str, calls: u64) -> bool {
    let starts = usize::from(name == "MAT" && calls > 0);
    FOUND.iter().take(starts + 1).any(|found| rest == *found)
}

/// Cuts a recovery off behind each number of calls in turn, up to the first that is whole. Its first call is on the monitor's device, and so is the last, for its Start.
fn each_cut<R: Threads + Wait + Sync + Abort>(
    rt: &R,
    alloc: Global,
    choice: u64,
) -> Result<(), Fail> {
    let fails = Fails { choice, ..NO_FAILS };
    let mut last = "";
    for calls in 0..NO_MORE {
        let cut = format!(in alloc; "recover kill {calls}\n")?;
        let text = script_of(alloc, &["format\n", RUN, &cut, "recover\n", "list ACCT\n"])?;
        let ran = run(rt, alloc, &["run"], &text, fails)?;
        let output = printed(alloc, &ran)?;
        let Some((name, rest)) = named_behind(output.as_str(), CUT) else {
            let whole = output.strip_prefix("formatted\n1.1.1.1 committed 2\n") == Some(WHOLE);
            assert!(rt;
                whole && calls == CALLS && last == "MAT",
                "{calls} by {choice}: {output}"
            );
            return Ok(());
        };
        last = name;
        assert!(rt;
            is_found(rest, name, calls) && (calls != 0 || name == "MAT"),
            "{calls} by {choice}: {output}"
        );
    }
    Err(Fail::new("a recovery of so many calls is still cut off"))
}

/// Cuts a recovery off behind so many calls, and then a second one behind each number in turn, up to the first that is whole.
fn each_cut_behind<R: Threads + Wait + Sync + Abort>(
    rt: &R,
    alloc: Global,
    choice: u64,
    earlier: u64,
) -> Result<(), Fail> {
    let fails = Fails { choice, ..NO_FAILS };
    let first = format!(in alloc; "recover kill {earlier}\n")?;
    for calls in 0..NO_MORE {
        let cut = format!(in alloc; "recover kill {calls}\n")?;
        let text = script_of(
            alloc,
            &["format\n", RUN, &first, &cut, "recover\n", "list ACCT\n"],
        )?;
        let ran = run(rt, alloc, &["run"], &text, fails)?;
        let output = printed(alloc, &ran)?;
        let Some((_, behind)) = named_behind(output.as_str(), CUT) else {
            return Err(Fail::new("the first recovery is not cut off"));
        };
        let Some((name, rest)) = named_behind(behind, "\nrecover failed ") else {
            assert!(rt;
                calls > 0 && behind.strip_prefix("\n") == Some(WHOLE),
                "{output}"
            );
            return Ok(());
        };
        assert!(rt;
            is_found(rest, name, calls),
            "{earlier}, {calls} by {choice}: {output}"
        );
    }
    Err(Fail::new("a recovery of so many calls is still cut off"))
}

#[test]
fn a_recovery_that_is_cut_off_loses_nothing_by_choice_0(rt: HostRuntime) -> Result<(), Fail> {
    each_cut(&rt, rt.alloc(), 0)
}

#[test]
fn a_recovery_that_is_cut_off_loses_nothing_by_choice_1(rt: HostRuntime) -> Result<(), Fail> {
    each_cut(&rt, rt.alloc(), 1)
}

#[test]
fn a_recovery_that_is_cut_off_loses_nothing_by_choice_5(rt: HostRuntime) -> Result<(), Fail> {
    each_cut(&rt, rt.alloc(), 5)
}

#[test]
fn nor_does_a_second_one_by_choice_0(rt: HostRuntime) -> Result<(), Fail> {
    each_cut_behind(&rt, rt.alloc(), 0, 1)
}

#[test]
fn nor_does_a_second_one_by_choice_1(rt: HostRuntime) -> Result<(), Fail> {
    each_cut_behind(&rt, rt.alloc(), 1, 12)
}

#[test]
fn nor_does_a_second_one_by_choice_5(rt: HostRuntime) -> Result<(), Fail> {
    each_cut_behind(&rt, rt.alloc(), 5, 20)
}
