//! Tests of giving a piece whole, also to a sink that takes one byte at a time.
ghost use Rattle.std.specs.Prelude.{true};

use super::*;
use crate::mem_sink::MemSink;
use std::test::Fail;

/// A sink that takes one byte at a time.
#[derive(Drop)]
struct Trickle {
    sink: MemSink,
}

impl Sink for Trickle {
    ghost tells = { λ s. true };

    ghost given = { λ s. s.sink.bytes };

    ghost faults = { λ s. s.sink.faults };

    fn give(&mut self, piece: &[u8]) -> Result<usize, SinkFault> {
        let front = piece.len().min(1);
        self.sink.give(&piece[..front])
    }
}

#[test]
fn gives_a_piece_whole(rt: HostRuntime) -> Result<(), Fail> {
    for (fails, want) in [(9, "abcd"), (3, "abc"), (0, "")] {
        let fails = vec![in rt.alloc(); fails]?;
        let mut trickle = Trickle {
            sink: MemSink::new(rt.alloc(), fails),
        };
        let done = give_all(&mut trickle, b"abcd").is_ok();
        assert!(rt; done == (want.len() == 4));
        assert!(rt; trickle.sink.given() == want.as_bytes());
    }
    Ok(())
}

#[test]
fn a_sink_in_memory_takes_pieces_whole(rt: HostRuntime) -> Result<(), Fail> {
    let mut sink = MemSink::new(rt.alloc(), vec![in rt.alloc(); 1]?);
    assert!(rt; sink.give(b"ab") == Ok(2));
    assert!(rt; sink.give(b"cd") == Err(SinkFault::Failed));
    assert!(rt; sink.give(b"ef") == Ok(2));
    assert!(rt; sink.given() == b"abef".as_slice());
    Ok(())
}
