//! A timer in rows: it waits for two requests, and at most three times.
use boxcar_timer::{Depart, Timer};
use std::test::*;

#[test]
fn holds_for_two_requests(rt: HostRuntime) {
    let mut timer = Timer { count: 2, holds: 3 };
    assert!(rt; timer.hold(0, 0));
    assert!(rt; timer.hold(1, 2));
    assert!(rt; !timer.hold(2, 0));
    assert!(rt; !timer.hold(1, 3));
}
