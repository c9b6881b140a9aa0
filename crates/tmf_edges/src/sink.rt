//! Sinks: where bytes go.
ghost use Rattle.std.specs.Prelude.{◌≡◌, ◌<◌, ◌≤◌, ◌++◌, ℕ, Bool, List, length, take, IsTrue, IfOk, OnErr};
ghost use Rattle.disk_model.specs.Held.{HasCause};

/// A sink failed. The sink's count of faults rose.
#[derive(Clone, Copy, Debug, PartialEq, Eq)]
pub enum SinkFault {
    Failed,
}

/// What bytes are given to.
pub trait Sink {
    /// Whether it tells what it was given.
    ghost tells: { Self → Bool };

    /// The bytes that it was given so far, where it tells them.
    ghost given: { Self → List ℕ };

    /// How often it has failed, as far as a count of 64 bits goes.
    ghost faults: { Self → ℕ };

    /// Gives it the front of a piece, and answers how many bytes it took: at least one of a piece that
    /// has any. After an error it took none.
    fn give(&mut self, piece: &[u8]) -> Result<usize, SinkFault>
        ensures tells { tells self.new ≡ tells self.old }
        ensures within { IfOk result (λ count. count ≤ length piece.now) }
        ensures some { 0 < length piece.now → IfOk result (λ count. 0 < count) }
        ensures told { IsTrue (tells self.old) → IfOk result (λ count. given self.new ≡ given self.old ++ take count piece.now) }
        ensures same { IsTrue (tells self.old) → OnErr result (given self.new ≡ given self.old) }
        ensures cause { HasCause (faults self.old) (faults self.new) result };
}
