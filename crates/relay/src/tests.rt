ghost use Rattle.std.specs.Prelude.{◌≡◌};
ghost use Rattle.relay.specs.Relay.{unsent};

use super::*;
use chronicle::{Run, Started};
use std::alloc::Global;
use std::marker::Brand;
use std::process::Abort;
use std::test::*;

#[test]
fn two_threads(rt: HostRuntime) -> Result<(), Fail> {
    let events = run_relay(&rt, rt.alloc(), 100).map_err(|_| "memory")?;
    assert_eq!(rt; events, 200);
    Ok(())
}

#[test]
fn three_appends(rt: HostRuntime) -> Result<(), Fail> {
    let started = Started::<Relay>::new(rt.alloc(), 2, &Unsent).map_err(|_| "memory")?;
    append_three::<Brand, _>(&rt, rt.alloc(), started)
}

fn append_three<J: Run<PartState>, R: Abort>(
    rt: &R,
    alloc: Global,
    started: Started<Relay>,
) -> Result<(), Fail>
    requires name { (started.table ≡ J.table) × (started.states ≡ J.opening) }
    requires opening { J.opening ≡ unsent }
{
    let (chronicle, mut seats) = started.named::<J>(alloc).map_err(|_| "memory")?;
    let _taker = seats.pop().ok_or("two seats")?;
    let seat = seats.pop().ok_or("one seat")?;
    let mut sender = SenderState::new(seat);
    for _ in 0..3 {
        if sender.sent() < 9 {
            sender.send(&chronicle);
        }
    }
    let seat = sender.into_seat();
    assert_eq!(rt; chronicle.counted(&seat), 3);
    Ok(())
}
