//! Bank runs: what is given where nothing fails, where the sink does, and where a device does.
use super::{Fails, NO_FAILS, printed, run};
use std::alloc::Global;
use std::process::Abort;
use std::sync::Wait;
use std::test::Fail;
use std::thread::Threads;

/// Checks the status of a bank run with two transfers of each worker, and what it prints.
fn expect_bank<R: Threads + Wait + Sync + Abort>(
    rt: &R,
    alloc: Global,
    fails: Fails,
    awaited: (u8, &str),
) -> Result<(), Fail> {
    let ran = run(rt, alloc, &["bank", "2"], "no script", fails)?;
    let output = printed(alloc, &ran)?;
    assert_eq!(rt; (ran.status, output.as_str()), awaited);
    Ok(())
}

#[test]
fn a_bank_run_is_told_in_five_lines(rt: HostRuntime) -> Result<(), Fail> {
    let alloc = rt.alloc();
    let whole = "bank 2\ncommitted 12\nother 0\naccounts 40000\ntellers 8\n";
    expect_bank(&rt, alloc, NO_FAILS, (0, whole))?;
    let sink = Fails {
        sink: &[0],
        ..NO_FAILS
    };
    expect_bank(&rt, alloc, sink, (4, ""))?;
    let device = Fails {
        device: 0,
        calls: &[0],
        ..NO_FAILS
    };
    let unknown = "bank 2\ncommitted 0\nother 0\naccounts unknown\ntellers unknown\n";
    expect_bank(&rt, alloc, device, (0, unknown))?;
    Ok(())
}
