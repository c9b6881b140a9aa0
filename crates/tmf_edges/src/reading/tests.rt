//! Tests of reading to a limit, also from a source that answers one byte at a time.
ghost use Rattle.std.specs.Prelude.{◌≡◌, ◌≤◌, ℕ, true, drop, vec_len};

use super::*;
use crate::mem_source::MemSource;
use std::test::Fail;

/// A source that answers one byte at a time.
#[derive(Drop)]
struct Trickle {
    bytes: Vec<u8>,
    at: usize,
    ghost within: { at ≤ vec_len bytes },
}

impl Source for Trickle {
    ghost tells = { λ s. true };

    ghost rest = { λ s. drop s.at s.bytes.items };

    ghost faults = { λ s. 0 };

    fn take(&mut self, buffer: &mut [u8]) -> Result<usize, SourceFault> {
        if self.at == self.bytes.len() || buffer.is_empty() {
            return Ok(0);
        }
        buffer[0] = self.bytes[self.at];
        self.at += 1;
        Ok(1)
    }
}

#[test]
fn reads_up_to_a_limit(rt: HostRuntime) -> Result<(), Fail> {
    for (limit, want) in [
        (0, ""),
        (1, "a"),
        (5, "abcde"),
        (6, "abcdef"),
        (7, "abcdef"),
    ] {
        let text = vec![in rt.alloc(); b'a', b'b', b'c', b'd', b'e', b'f']?;
        let mut whole = MemSource::new(text.clone()?, Vec::new(rt.alloc()));
        let mut trickle = Trickle { bytes: text, at: 0 };
        assert!(rt; read_to_limit(rt.alloc(), &mut whole, limit)?.as_slice() == want.as_bytes());
        assert!(rt; read_to_limit(rt.alloc(), &mut trickle, limit)?.as_slice() == want.as_bytes());
    }
    Ok(())
}

#[test]
fn reads_more_than_a_portion(rt: HostRuntime) -> Result<(), Fail> {
    let mut source = MemSource::new(vec![in rt.alloc(); 7u8; 10000]?, Vec::new(rt.alloc()));
    assert!(rt; read_to_limit(rt.alloc(), &mut source, 9000)?.len() == 9000);
    assert!(rt; read_to_limit(rt.alloc(), &mut source, 9000)?.len() == 1000);
    Ok(())
}

#[test]
fn a_failed_call_fails_the_read(rt: HostRuntime) -> Result<(), Fail> {
    for (limit, fails, want) in [(2, 0, false), (2, 1, true), (3, 1, false), (3, 2, true)] {
        let fails = vec![in rt.alloc(); fails]?;
        let mut source = MemSource::new(vec![in rt.alloc(); 1u8, 2]?, fails);
        match read_to_limit(rt.alloc(), &mut source, limit) {
            Ok(bytes) => assert!(rt; want && bytes.len() == 2),
            Err(fault) => assert!(rt; !want && fault == ReadFault::Failed),
        }
    }
    Ok(())
}
