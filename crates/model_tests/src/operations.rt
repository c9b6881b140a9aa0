//! Operations on values by a table, and sequences.
use std::test::Fail;
use tmf_model::{Op, Reason, Sequence, Value, apply};

/// The value with these bytes, or none where there are none.
fn value(bytes: &[u8]) -> Option<Value> {
    Value::new(bytes).ok()
}

#[test]
fn operations_give_their_value_or_reason(rt: HostRuntime) {
    let Some(put) = value(b"v") else {
        assert!(rt; false);
        return;
    };
    let table: [(Op, &[u8], Result<&[u8], Reason>); 21] = [
        (Op::Put(put), b"", Ok(b"v")),
        (Op::Put(put), b"w", Ok(b"v")),
        (Op::Read, b"", Ok(b"")),
        (Op::Read, b"w", Ok(b"w")),
        (Op::Lock, b"", Ok(b"")),
        (Op::Lock, b"w", Ok(b"w")),
        (Op::Del, b"", Err(Reason::Missing)),
        (Op::Del, b"w", Ok(b"")),
        (Op::Add(1), b"", Err(Reason::Missing)),
        (Op::Add(0), b"w", Err(Reason::NotNumber)),
        (Op::Add(0), b"07", Err(Reason::NotNumber)),
        (Op::Add(0), b"+7", Err(Reason::NotNumber)),
        (Op::Add(0), b"-0", Err(Reason::NotNumber)),
        (Op::Add(0), b"-", Err(Reason::NotNumber)),
        (Op::Add(-5), b"2", Ok(b"-3")),
        (
            Op::Add(1),
            b"9223372036854775806",
            Ok(b"9223372036854775807"),
        ),
        (Op::Add(1), b"9223372036854775807", Err(Reason::Overflow)),
        (Op::Add(0), b"9223372036854775808", Err(Reason::NotNumber)),
        (
            Op::Add(-1),
            b"-9223372036854775807",
            Ok(b"-9223372036854775808"),
        ),
        (Op::Add(-1), b"-9223372036854775808", Err(Reason::Overflow)),
        (Op::Add(0), b"-9223372036854775809", Err(Reason::NotNumber)),
    ];
    for (op, before, want) in table {
        let answer = apply(&op, value(before).as_ref());
        assert!(rt; answer == want.map(value));
    }
}

#[test]
fn sequences_hold_their_vector(rt: HostRuntime) -> Result<(), Fail> {
    let items = Sequence::new(vec![in rt.alloc(); 3u8, 1, 2]?);
    assert!(rt; items.len() == 3 && !items.is_empty());
    assert!(rt; items.as_slice() == [3, 1, 2].as_slice());
    assert!(rt; items.into_vec().as_slice() == [3, 1, 2].as_slice());
    Ok(())
}
