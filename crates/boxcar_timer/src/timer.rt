//! What decides whether a boxcar is held.
ghost use Rattle.std.specs.Prelude.{◌≡◌, ◌↔◌, IsTrue};
ghost use Rattle.boxcar_timer.specs.Timer.{IsHeld};

/// Decides whether a boxcar is held.
pub trait Depart: Drop {
    /// Whether it is held, where so many requests wait and it was held so often.
    fn hold(&mut self, waiting: u32, holds: u32) -> bool;
}

/// Holds a boxcar while fewer requests than `count` wait, and at most `holds` times.
#[derive(Clone, Copy, Debug, PartialEq, Eq)]
pub struct Timer {
    pub count: u32,
    pub holds: u32,
}

impl Depart for Timer {
    fn hold(&mut self, waiting: u32, holds: u32) -> bool
        ensures held { IsTrue result ↔ IsHeld self.old waiting holds }
        ensures same { self.new ≡ self.old }
    {
        waiting < self.count && holds < self.holds
    }
}
