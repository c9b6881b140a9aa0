//! A source in memory, whose calls fail where a test wants.
ghost use Rattle.std.specs.Prelude.{◌≡◌, ◌≤◌, ◌↔◌, true, length, min, IsTrue, IsErr, IfOk, OnErr, Contains};
ghost use Rattle.disk_model.specs.Held.{HasCause};
ghost use Rattle.tmf_edges.specs.Memory.{counted};
ghost use Rattle.tmf_edges.specs.Moves.{Moves};

use crate::source::{Source, SourceFault};
use std::marker::Model;

/// A source of given bytes, which tells them. It answers as many at once as fit. A call fails exactly
/// where its number, from 0, is among those that are to fail.
#[derive(Drop)]
pub struct MemSource {
    bytes: Vec<u8>,
    at: usize,
    fails: Vec<u64>,
    calls: u64,
    faults: u64,
}

impl Model for MemSource {
    ghost use Rattle.std.specs.Prelude.{ℕ, ◌≤◌, drop, vec_len};
    ghost use Rattle.tmf_edges.specs.Memory.{InMemory};

    ghost Value = { InMemory };

    ghost view = { λ s. record { bytes = drop s.at s.bytes.items; fails = s.fails.items; calls = s.calls; faults = s.faults } };

    ghost invariant = { λ s. s.at ≤ vec_len s.bytes };
}

impl MemSource {
    /// A source of these bytes, whose calls with these numbers, from 0, fail.
    pub fn new(bytes: Vec<u8>, fails: Vec<u64>) -> Self
        ensures bytes { result.bytes ≡ bytes.items }
        ensures fails { result.fails ≡ fails.items }
        ensures calls { result.calls ≡ 0 }
        ensures faults { result.faults ≡ 0 }
    {
        MemSource {
            bytes,
            at: 0,
            fails,
            calls: 0,
            faults: 0,
        }
    }
}

impl Source for MemSource {
    ghost tells = { λ s. true };

    ghost rest = { λ s. s.bytes };

    ghost faults = { λ s. s.faults };

    fn take(&mut self, buffer: &mut [u8]) -> Result<usize, SourceFault>
        ensures within { IfOk result (λ count. count ≤ length buffer.old) }
        ensures told { IfOk result (λ count. Moves count self.old.bytes self.new.bytes buffer.old buffer.new) }
        ensures same { OnErr result (self.new.bytes ≡ self.old.bytes) }
        ensures cause { HasCause self.old.faults self.new.faults result }
        ensures exact { IsErr result ↔ Contains self.old.fails self.old.calls }
        ensures whole { IfOk result (λ count. count ≡ min (length self.old.bytes) (length buffer.old)) }
        ensures calls { self.new.calls ≡ counted self.old.calls }
        ensures fails { self.new.fails ≡ self.old.fails }
    {
        let call = self.calls;
        self.calls = call.saturating_add(1);
        if self.fails.contains(&call) {
            self.faults = self.faults.saturating_add(1);
            return Err(SourceFault::Failed);
        }
        let rest = &self.bytes[self.at..];
        let count = rest.len().min(buffer.len());
        buffer[..count].copy_from_slice(&rest[..count]);
        self.at += count;
        Ok(count)
    }
}
