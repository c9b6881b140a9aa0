//! A sink in memory, whose calls fail where a test wants.
ghost use Rattle.std.specs.Prelude.{◌≡◌, ◌<◌, ◌≤◌, ◌++◌, [], true, length, take, IsTrue, IsErr, IfOk, OnErr, Contains};
ghost use Rattle.disk_model.specs.Held.{HasCause};
ghost use Rattle.tmf_edges.specs.Memory.{counted};

use crate::sink::{Sink, SinkFault};
use std::alloc::Global;
use std::marker::Model;

/// A sink that keeps what it is given, and tells it. It takes each piece whole. A call fails where its
/// number, from 0, is among those that are to fail, and where there is no memory for the piece.
#[derive(Drop)]
pub struct MemSink {
    bytes: Vec<u8>,
    fails: Vec<u64>,
    calls: u64,
    faults: u64,
}

impl Model for MemSink {
    ghost use Rattle.tmf_edges.specs.Memory.{InMemory};

    ghost Value = { InMemory };

    ghost view = { λ s. record { bytes = s.bytes.items; fails = s.fails.items; calls = s.calls; faults = s.faults } };
}

impl MemSink {
    /// A sink that was given nothing, whose calls with these numbers, from 0, fail.
    pub fn new(alloc: Global, fails: Vec<u64>) -> Self
        ensures bytes { result.bytes ≡ [] }
        ensures fails { result.fails ≡ fails.items }
        ensures calls { result.calls ≡ 0 }
        ensures faults { result.faults ≡ 0 }
    {
        MemSink {
            bytes: Vec::new(alloc),
            fails,
            calls: 0,
            faults: 0,
        }
    }

    /// The bytes that it was given.
    pub fn given(&self) -> &[u8]
        ensures { result.now ≡ self.now.bytes }
    {
        self.bytes.as_slice()
    }
}

impl Sink for MemSink {
    ghost tells = { λ s. true };

    ghost given = { λ s. s.bytes };

    ghost faults = { λ s. s.faults };

    fn give(&mut self, piece: &[u8]) -> Result<usize, SinkFault>
        ensures within { IfOk result (λ count. count ≤ length piece.now) }
        ensures some { 0 < length piece.now → IfOk result (λ count. 0 < count) }
        ensures told { IfOk result (λ count. self.new.bytes ≡ self.old.bytes ++ take count piece.now) }
        ensures same { OnErr result (self.new.bytes ≡ self.old.bytes) }
        ensures cause { HasCause self.old.faults self.new.faults result }
        ensures fails { Contains self.old.fails self.old.calls → IsErr result }
        ensures whole { IfOk result (λ count. count ≡ length piece.now) }
        ensures calls { self.new.calls ≡ counted self.old.calls }
        ensures numbers { self.new.fails ≡ self.old.fails }
    {
        let call = self.calls;
        self.calls = call.saturating_add(1);
        if self.fails.contains(&call) || self.bytes.extend_from_slice(piece).is_err() {
            self.faults = self.faults.saturating_add(1);
            return Err(SinkFault::Failed);
        }
        Ok(piece.len())
    }
}
