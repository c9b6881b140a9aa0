//! Each call of a device that fails, by several choices of images: no commit that was printed is lost.
use super::{Fails, NO_FAILS, NO_MORE, printed, run, run_again, script_of};
use std::alloc::Global;
use std::process::Abort;
use std::sync::Wait;
use std::test::Fail;
use std::thread::Threads;

/// Two transactions, and two recoveries: where the first fails, the second may be whole.
const TWICE: &str =
    "trail AUX1\nvolume $DATA1 AUX1\nfile ACCT $DATA1 4\nformat\nrun\nworker\nbegin\n\
    put ACCT k1 v1\ncommit\nbegin\nput ACCT k2 v2\ncommit\nend\nrecover\nrecover\nlist ACCT\n";

const TWICE_OUTPUT: &str =
    "formatted\n1.1.1.1 committed 2\n1.1.2.1 committed 3\n1 start 1\n2 commit 1.1.1.1\n\
    3 commit 1.1.2.1\nrecovered 2\n4 start 2\nrecovered 3\nACCT k1 v1\nACCT k2 v2\nlisted ACCT 2\n";

/// A lawful output where one call of a device fails, whose name stands between the two parts.
#[derive(Clone, Copy)]
struct Told {
    /// The number of the action in which the call fails.
    action: u8,
    /// The records behind the first Start that a later call finds, and the list that it prints; none behind a format that has failed.
    left: Option<Left>,
    before: &'static str,
    after: &'static str,
}

/// What the script leaves: its records of the first run with those of the recoveries before the last one, and its list.
#[derive(Clone, Copy)]
struct Left {
    records: &'static str,
    list: &'static str,
}

const NOTHING: &str = "listed ACCT 0\n";

const FIRST_ALONE: &str = "ACCT k1 v1\nlisted ACCT 1\n";

const BOTH_LISTED: &str = "ACCT k1 v1\nACCT k2 v2\nlisted ACCT 2\n";

/// No record of an attempt is left.
const NO_RECORD: Left = Left {
    records: "1 start 1\n2 start 2\n3 start 3\nrecovered 4\n",
    list: NOTHING,
};

/// Calls that fail in a run: before a worker has begun, or for an attempt. Where that of the monitor trail fails, the attempt is in doubt, and its commit may be there.
const OF_RUNS: [Told; 7] = [
    Told {
        action: 1,
        left: Some(NO_RECORD),
        before: "formatted\nrun failed ",
        after: "\n1 start 1\nrecovered 2\n2 start 2\nrecovered 3\nlisted ACCT 0\n",
    },
    Told {
        action: 1,
        left: Some(NO_RECORD),
        before: "formatted\n1.1.1.1 indoubt ",
        after: "\n1.1.2.1 skipped\n1 start 1\nrecovered 2\n2 start 2\nrecovered 3\nlisted ACCT 0\n",
    },
    Told {
        action: 1,
        left: Some(Left {
            records: "1 start 1\n2 commit 1.1.1.1\n3 start 2\n4 start 3\nrecovered 4\n",
            list: FIRST_ALONE,
        }),
        before: "formatted\n1.1.1.1 indoubt ",
        after: "\n1.1.2.1 skipped\n1 start 1\n2 commit 1.1.1.1\nrecovered 2\n3 start 2\nrecovered 3\n\
            ACCT k1 v1\nlisted ACCT 1\n",
    },
    Told {
        action: 1,
        left: Some(Left {
            records: "1 start 1\n2 commit 1.1.1.1\n3 start 2\n4 start 3\nrecovered 4\n",
            list: FIRST_ALONE,
        }),
        before: "formatted\n1.1.1.1 committed 2\n1.1.2.1 indoubt ",
        after: "\n1 start 1\n2 commit 1.1.1.1\nrecovered 2\n3 start 2\nrecovered 3\n\
            ACCT k1 v1\nlisted ACCT 1\n",
    },
    Told {
        action: 1,
        left: Some(Left {
            records: "1 start 1\n2 commit 1.1.1.1\n3 commit 1.1.2.1\n4 start 2\n5 start 3\nrecovered 4\n",
            list: BOTH_LISTED,
        }),
        before: "formatted\n1.1.1.1 committed 2\n1.1.2.1 indoubt ",
        after: "\n1 start 1\n2 commit 1.1.1.1\n3 commit 1.1.2.1\nrecovered 2\n4 start 2\nrecovered 3\n\
            ACCT k1 v1\nACCT k2 v2\nlisted ACCT 2\n",
    },
    Told {
        action: 1,
        left: Some(Left {
            records: "1 start 1\n2 abort 1.1.1.1\n3 start 2\n4 start 3\nrecovered 4\n",
            list: NOTHING,
        }),
        before: "formatted\n1.1.1.1 failed ",
        after: "\n1.1.2.1 skipped\n1 start 1\n2 abort 1.1.1.1\nrecovered 2\n3 start 2\nrecovered 3\n\
            listed ACCT 0\n",
    },
    Told {
        action: 1,
        left: Some(Left {
            records: "1 start 1\n2 commit 1.1.1.1\n3 abort 1.1.2.1\n4 start 2\n5 start 3\nrecovered 4\n",
            list: FIRST_ALONE,
        }),
        before: "formatted\n1.1.1.1 committed 2\n1.1.2.1 failed ",
        after: "\n1 start 1\n2 commit 1.1.1.1\n3 abort 1.1.2.1\nrecovered 2\n4 start 2\nrecovered 3\n\
            ACCT k1 v1\nlisted ACCT 1\n",
    },
];

/// Both commits stand behind the first Start, and with this one the recovery that failed has left no Start.
const BOTH_ONCE: Left = Left {
    records: "1 start 1\n2 commit 1.1.1.1\n3 commit 1.1.2.1\n4 start 2\nrecovered 3\n",
    list: BOTH_LISTED,
};

/// With this one it has left one.
const BOTH_TWICE: Left = Left {
    records: "1 start 1\n2 commit 1.1.1.1\n3 commit 1.1.2.1\n4 start 2\n5 start 3\nrecovered 4\n",
    list: BOTH_LISTED,
};

/// Calls that fail in a format, in a recovery or in a listing. Of the second recovery the output does not tell whether it has left a Start.
const OF_ACTIONS: [Told; 6] = [
    Told {
        action: 0,
        left: None,
        before: "format failed ",
        after: "\nrun not up\nrecover not up\nrecover not up\nlist ACCT not up\n",
    },
    Told {
        action: 2,
        left: Some(BOTH_ONCE),
        before: "formatted\n1.1.1.1 committed 2\n1.1.2.1 committed 3\nrecover failed ",
        after: "\n1 start 1\n2 commit 1.1.1.1\n3 commit 1.1.2.1\nrecovered 2\nACCT k1 v1\n\
            ACCT k2 v2\nlisted ACCT 2\n",
    },
    Told {
        action: 2,
        left: Some(BOTH_TWICE),
        before: "formatted\n1.1.1.1 committed 2\n1.1.2.1 committed 3\nrecover failed ",
        after: "\n1 start 1\n2 commit 1.1.1.1\n3 commit 1.1.2.1\n4 start 2\nrecovered 3\n\
            ACCT k1 v1\nACCT k2 v2\nlisted ACCT 2\n",
    },
    Told {
        action: 3,
        left: Some(BOTH_ONCE),
        before: "formatted\n1.1.1.1 committed 2\n1.1.2.1 committed 3\n1 start 1\n2 commit 1.1.1.1\n\
            3 commit 1.1.2.1\nrecovered 2\nrecover failed ",
        after: "\nlist ACCT not up\n",
    },
    Told {
        action: 3,
        left: Some(BOTH_TWICE),
        before: "formatted\n1.1.1.1 committed 2\n1.1.2.1 committed 3\n1 start 1\n2 commit 1.1.1.1\n\
            3 commit 1.1.2.1\nrecovered 2\nrecover failed ",
        after: "\nlist ACCT not up\n",
    },
    Told {
        action: 4,
        left: Some(BOTH_TWICE),
        before: "formatted\n1.1.1.1 committed 2\n1.1.2.1 committed 3\n1 start 1\n2 commit 1.1.1.1\n\
            3 commit 1.1.2.1\nrecovered 2\n4 start 2\nrecovered 3\nlist ACCT failed ",
        after: "\n",
    },
];

/// Nothing has failed.
const WHOLE: u8 = 5;

/// Whether this is the output.
fn is_told(told: &Told, output: &str, device: &str) -> bool {
    let rest = match output.strip_prefix(told.before) {
        Some(rest) => rest.strip_prefix(device),
        None => None,
    };
    rest == Some(told.after)
}

/// Whether a later call has found what is left, by its output.
fn is_found(told: &Told, later: &str) -> bool {
    match told.left {
        Some(left) => later.strip_prefix(left.records) == Some(left.list),
        None => true,
    }
}

/// The number of the action of these outputs of which one fits both calls.
fn action_of(tolds: &[Told], output: &str, device: &str, later: &str) -> Option<u8> {
    for told in tolds {
        if is_told(told, output, device) && is_found(told, later) {
            return Some(told.action);
        }
    }
    None
}

/// Runs the script with these failing calls of the device of this name, and a later one over what it leaves. What both print is lawful: no commit that was printed is lost. It answers
/// the number of the action in which a call has failed.
fn failing_action<R: Threads + Wait + Sync + Abort>(
    rt: &R,
    alloc: Global,
    fails: Fails,
    name: &str,
    recovery: &str,
) -> Result<u8, Fail> {
    let ran = run(rt, alloc, &["run"], TWICE, fails)?;
    let output = printed(alloc, &ran)?;
    assert_eq!(rt; ran.status, 0, "{output}");
    if output.as_str() == TWICE_OUTPUT {
        return Ok(WHOLE);
    }
    let ran = run_again(rt, alloc, recovery, ran)?;
    let later = printed(alloc, &ran)?;
    assert_eq!(rt; ran.status, 0, "{output}{later}");
    if let Some(action) = action_of(&OF_RUNS, &output, name, &later) {
        return Ok(action);
    }
    if let Some(action) = action_of(&OF_ACTIONS, &output, name, &later) {
        return Ok(action);
    }
    assert_eq!(rt; output.as_str(), TWICE_OUTPUT, "{later}");
    Ok(WHOLE)
}

/// Calls of the device of this name, from one up to another, and the actions in which they are: the first calls in the first of them, then in the next, and so on.
#[derive(Clone, Copy)]
struct Calls {
    device: usize,
    name: &'static str,
    from: u64,
    to: u64,
    actions: &'static [u8],
}

const MONITOR_CALLS: Calls = Calls {
    device: 0,
    name: "MAT",
    from: 0,
    to: NO_MORE,
    actions: &[0, 1, 2, 3, WHOLE],
};

const AUDIT_CALLS: Calls = Calls {
    device: 1,
    name: "AUX1",
    ..MONITOR_CALLS
};

/// The volume's device is read for a listing too.
const VOLUME_CALLS: Calls = Calls {
    device: 5,
    name: "$DATA1",
    actions: &[0, 1, 2, 3, 4, WHOLE],
    ..MONITOR_CALLS
};

/// Lets each of the calls fail in turn, up to the last that the script makes.
fn no_commit_is_lost<R: Threads + Wait + Sync + Abort>(
    rt: &R,
    alloc: Global,
    choice: u64,
    calls: Calls,
) -> Result<(), Fail> {
    let name = calls.name;
    let recovery = script_of(alloc, &["recover\n", "list ACCT\n"])?;
    let mut rest = calls.actions;
    for n in calls.from..calls.to {
        let fails = Fails {
            device: calls.device,
            calls: &[n],
            choice,
            ..NO_FAILS
        };
        let action = failing_action(rt, alloc, fails, name, &recovery)?;
        rest = match rest.split_first() {
            Some((first, more)) if *first != action => more,
            _ => rest,
        };
        assert!(rt; rest.first() == Some(&action), "{name} at {n} by {choice}");
        if action == WHOLE {
            return Ok(());
        }
    }
    assert!(rt;
        rest.len() == 1 && calls.to != NO_MORE,
        "{name} by {choice}"
    );
    Ok(())
}

#[test]
fn no_commit_is_lost_by_choice_0(rt: HostRuntime) -> Result<(), Fail> {
    no_commit_is_lost(&rt, rt.alloc(), 0, MONITOR_CALLS)?;
    no_commit_is_lost(&rt, rt.alloc(), 0, AUDIT_CALLS)
}

#[test]
fn no_commit_is_lost_by_choice_1(rt: HostRuntime) -> Result<(), Fail> {
    no_commit_is_lost(&rt, rt.alloc(), 1, MONITOR_CALLS)?;
    no_commit_is_lost(&rt, rt.alloc(), 1, AUDIT_CALLS)
}

#[test]
fn no_commit_is_lost_by_choice_2(rt: HostRuntime) -> Result<(), Fail> {
    no_commit_is_lost(&rt, rt.alloc(), 2, MONITOR_CALLS)?;
    no_commit_is_lost(&rt, rt.alloc(), 2, AUDIT_CALLS)
}

#[test]
fn no_commit_is_lost_by_choice_5(rt: HostRuntime) -> Result<(), Fail> {
    no_commit_is_lost(&rt, rt.alloc(), 5, MONITOR_CALLS)?;
    no_commit_is_lost(&rt, rt.alloc(), 5, AUDIT_CALLS)
}

#[test]
fn calls_of_a_volume_lose_no_commit_by_choice_0(rt: HostRuntime) -> Result<(), Fail> {
    no_commit_is_lost(&rt, rt.alloc(), 0, VOLUME_CALLS)
}

#[test]
fn calls_of_a_volume_lose_no_commit_by_choice_1(rt: HostRuntime) -> Result<(), Fail> {
    no_commit_is_lost(&rt, rt.alloc(), 1, VOLUME_CALLS)
}

#[test]
fn calls_of_a_volume_lose_no_commit_by_choice_2(rt: HostRuntime) -> Result<(), Fail> {
    no_commit_is_lost(&rt, rt.alloc(), 2, VOLUME_CALLS)
}

#[test]
fn calls_of_a_volume_lose_no_commit_by_choice_5(rt: HostRuntime) -> Result<(), Fail> {
    no_commit_is_lost(&rt, rt.alloc(), 5, VOLUME_CALLS)
}
