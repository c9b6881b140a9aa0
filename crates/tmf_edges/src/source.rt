//! Sources: where bytes come from.
ghost use Rattle.std.specs.Prelude.{◌≡◌, ◌≤◌, ℕ, Bool, List, length, IsTrue, IfOk, OnErr};
ghost use Rattle.disk_model.specs.Held.{HasCause};
ghost use Rattle.tmf_edges.specs.Moves.{Moves};

/// A source failed. The source's count of faults rose.
#[derive(Clone, Copy, Debug, PartialEq, Eq)]
pub enum SourceFault {
    Failed,
}

/// A source of bytes, which come to an end or not.
pub trait Source {
    /// Whether it tells its rest.
    ghost tells: { Self → Bool };

    /// The bytes that are still to come, where it tells them.
    ghost rest: { Self → List ℕ };

    /// How often it has failed, as far as a count of 64 bits goes.
    ghost faults: { Self → ℕ };

    /// Moves bytes from the front of the rest to the front of a buffer, and answers how many. Where the
    /// buffer is not empty, 0 says that the rest is. After an error the buffer may hold anything.
    fn take(&mut self, buffer: &mut [u8]) -> Result<usize, SourceFault>
        ensures tells { tells self.new ≡ tells self.old }
        ensures within { IfOk result (λ count. count ≤ length buffer.old) }
        ensures told { IsTrue (tells self.old) → IfOk result (λ count. Moves count (rest self.old) (rest self.new) buffer.old buffer.new) }
        ensures same { IsTrue (tells self.old) → OnErr result (rest self.new ≡ rest self.old) }
        ensures cause { HasCause (faults self.old) (faults self.new) result };
}
