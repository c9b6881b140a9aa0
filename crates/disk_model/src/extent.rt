//! A range of a file's bytes.

ghost use Rattle.std.specs.Prelude.{◌≡◌};
ghost use Rattle.disk_model.specs.Held.{is_within};

/// So many bytes from an offset on.
#[derive(Clone, Copy)]
pub(crate) struct Extent {
    pub(crate) at: usize,
    pub(crate) size: usize,
}

impl Extent {
    /// Whether an offset is in it.
    pub(crate) fn has(&self, offset: usize) -> bool
        ensures { result ≡ is_within self.now.at self.now.size offset }
    {
        self.at <= offset && offset - self.at < self.size
    }
}
