//! The numbers by which a memory disk picks one of its images.

ghost use Rattle.std.specs.Prelude.{◌≡◌, ◌+◌, ◌*◌, ◌%◌, ◌<◌, ◌^◌};

/// A linear congruential generator over 31 bits.
#[derive(Drop)]
pub(crate) struct Draws {
    state: u64,
    ghost small: { state < 2 ^ 31 },
}

impl Draws {
    ghost use Rattle.disk_model.specs.Image.{next_number, picked};

    /// Starts at a number's lowest 31 bits.
    pub(crate) fn new(choice: u64) -> Draws
        ensures { result.state ≡ choice % 2 ^ 31 }
    {
        Draws {
            state: choice % (1 << 31),
        }
    }

    fn next(&mut self) -> u64
        ensures value { result ≡ self.new.state }
        ensures next { self.new.state ≡ next_number self.old.state }
    {
        self.state = (1103515245 * self.state + 12345) % (1 << 31);
        self.state
    }

    /// The byte that an image has where a byte at risk stands: that byte, an earlier one or any.
    pub(crate) fn pick(&mut self, now: u8, earlier: u8) -> u8
        ensures byte { result ≡ picked self.new.state now earlier }
        ensures next { self.new.state ≡ next_number self.old.state }
    {
        let number = self.next();
        match number % 3 {
            0 => now,
            1 => earlier,
            _ => (number / 65536 % 256) as u8,
        }
    }
}
