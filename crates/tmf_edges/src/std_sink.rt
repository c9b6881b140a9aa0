//! A sink over a writer of the standard library.
ghost use Rattle.std.specs.Prelude.{◌≡◌, ◌<◌, ◌≤◌, [], false, length, IfOk};
ghost use Rattle.std.specs.Io.KnownBytes.{WriteAppends};
ghost use Rattle.disk_model.specs.Held.{HasCause};

use crate::sink::{Sink, SinkFault};
use std::io::Write;
use std::marker::Model;

/// A sink that writes to `W`, and tells nothing of it. A write that takes no byte is a failure too.
/// Contracts see the writer and the count of its failures.
#[derive(Drop)]
pub struct StdSink<W> {
    writer: W,
    faults: u64,
}

impl<W> Model for StdSink<W> {
    ghost use Rattle.tmf_edges.specs.Counted.{Counted};

    ghost Value = { Counted W };

    ghost view = { λ s. record { device = s.writer; faults = s.faults } };
}

impl<W: Write> StdSink<W> {
    /// A sink over this writer, which has not failed.
    pub fn new(writer: W) -> Self
        ensures writer { result.device ≡ writer }
        ensures faults { result.faults ≡ 0 }
    {
        StdSink { writer, faults: 0 }
    }
}

impl<W: Write> Sink for StdSink<W> {
    ghost tells = { λ s. false };

    ghost given = { λ s. [] };

    ghost faults = { λ s. s.faults };

    fn give(&mut self, piece: &[u8]) -> Result<usize, SinkFault>
        ensures within { IfOk result (λ count. count ≤ length piece.now) }
        ensures some { IfOk result (λ count. 0 < count) }
        ensures bytes { WriteAppends (W.contents self.old.device) (W.contents self.new.device) result piece.now }
        ensures cause { HasCause self.old.faults self.new.faults result }
    {
        match self.writer.write(piece) {
            Ok(count) if count > 0 => Ok(count),
            _ => {
                self.faults = self.faults.saturating_add(1);
                Err(SinkFault::Failed)
            }
        }
    }
}

#[cfg(test)]
mod tests {
    use super::*;

    #[test]
    fn a_writer_without_room_is_a_failure(rt: HostRuntime) {
        let mut room = [0; 3];
        let mut sink = StdSink::new(&mut room[..]);
        assert!(rt; sink.give(b"ab") == Ok(2));
        assert!(rt; sink.give(b"cd") == Ok(1));
        assert!(rt; sink.give(b"d") == Err(SinkFault::Failed));
    }
}
