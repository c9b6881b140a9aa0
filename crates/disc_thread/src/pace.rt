//! When the thread of a disc draws.

/// So many events of a disc since the last draw make one due, also while the disc is in use.
const BUSY_EVENTS: u64 = 256;

/// Behind so many turns in which a disc has had no event it is taken to be idle.
const IDLE_TURNS: u64 = 4_096;

/// When a disc's thread draws. A draw costs two syncs, and a block that is in use is soon to be drawn again: so it is drawn once the disc is idle,
/// or, where it never is, behind many events.
#[derive(Clone, Copy, Debug, Default, PartialEq, Eq)]
pub(crate) struct Pace {
    /// How many events the disc had at the last draw.
    drawn: u64,
    /// How many it had at the last turn.
    seen: u64,
    /// For how many turns it has had no other.
    idle: u64,
}

impl Pace {
    /// Takes note of a turn at which the disc has had so many events, and answers whether it is time to draw.
    pub(crate) fn is_due(&mut self, events: u64) -> bool {
        self.idle = match events == self.seen {
            true => self.idle.saturating_add(1),
            false => 0,
        };
        self.seen = events;
        self.idle >= IDLE_TURNS || events.saturating_sub(self.drawn) >= BUSY_EVENTS
    }

    /// Takes note of a draw, behind which the disc has had so many events. An idle disc stays idle.
    pub(crate) fn note_draw(&mut self, events: u64) {
        self.drawn = events;
        self.seen = events;
    }
}
