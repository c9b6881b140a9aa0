//! A source over a reader of the standard library.
ghost use Rattle.std.specs.Prelude.{◌≡◌, ◌≤◌, [], false, length, IfOk};
ghost use Rattle.std.specs.Io.KnownBytes.{ReadConsumes};
ghost use Rattle.disk_model.specs.Held.{HasCause};

use crate::source::{Source, SourceFault};
use std::io::Read;
use std::marker::Model;

/// A source that reads from `R`, and tells nothing of it. Contracts see the reader and the count of its
/// errors.
#[derive(Drop)]
pub struct StdSource<R> {
    reader: R,
    faults: u64,
}

impl<R> Model for StdSource<R> {
    ghost use Rattle.tmf_edges.specs.Counted.{Counted};

    ghost Value = { Counted R };

    ghost view = { λ s. record { device = s.reader; faults = s.faults } };
}

impl<R: Read> StdSource<R> {
    /// A source over this reader, which has not failed.
    pub fn new(reader: R) -> Self
        ensures reader { result.device ≡ reader }
        ensures faults { result.faults ≡ 0 }
    {
        StdSource { reader, faults: 0 }
    }
}

impl<R: Read> Source for StdSource<R> {
    ghost tells = { λ s. false };

    ghost rest = { λ s. [] };

    ghost faults = { λ s. s.faults };

    fn take(&mut self, buffer: &mut [u8]) -> Result<usize, SourceFault>
        ensures within { IfOk result (λ count. count ≤ length buffer.old) }
        ensures bytes { ReadConsumes (R.remaining self.old.device) (R.remaining self.new.device) result buffer.new }
        ensures cause { HasCause self.old.faults self.new.faults result }
    {
        match self.reader.read(buffer) {
            Ok(count) => Ok(count),
            Err(_) => {
                self.faults = self.faults.saturating_add(1);
                Err(SourceFault::Failed)
            }
        }
    }
}

#[cfg(test)]
mod tests {
    use super::*;
    use std::io;

    /// A reader that fails.
    #[derive(Drop)]
    struct Broken;

    impl Read for Broken {
        fn read(&mut self, _buf: &mut [u8]) -> io::Result<usize> {
            Err(io::Error::from(io::ErrorKind::Other))
        }
    }

    #[test]
    fn answers_what_its_reader_gives(rt: HostRuntime) {
        let text: &[u8] = b"abc";
        let mut source = StdSource::new(text);
        let mut buffer = [0; 2];
        assert!(rt; source.take(&mut buffer) == Ok(2) && buffer == [b'a', b'b']);
        assert!(rt; source.take(&mut buffer) == Ok(1) && buffer[0] == b'c');
        assert!(rt; source.take(&mut buffer) == Ok(0));
        assert!(rt; StdSource::new(Broken).take(&mut buffer) == Err(SourceFault::Failed));
    }
}
