use super::*;
use std::test::*;

#[test]
fn forty_rounds(rt: HostRuntime) -> Result<(), Fail> {
    let events = run_quorum(&rt, rt.alloc(), 40).map_err(|_| "memory")?;
    assert_eq!(rt; events, 200);
    Ok(())
}
