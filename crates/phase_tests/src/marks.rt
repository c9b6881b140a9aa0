//! What the threads of a test mark and wait for.
use std::sync::atomic::{AtomicU64, Ordering};
use std::thread;

/// How many turns a worker or a device is held at most.
const TURNS: u32 = 1_000_000;

/// How far the threads of a test have come. A count that is not 0 says that it was come to.
#[derive(Drop)]
pub struct Marks {
    /// The one that waits has begun to.
    pub waits: AtomicU64,
    /// What it waits for has come.
    pub came: AtomicU64,
    /// A thread has waited as long as it may.
    pub late: AtomicU64,
}

impl Marks {
    pub fn new() -> Marks {
        Marks {
            waits: AtomicU64::new(0),
            came: AtomicU64::new(0),
            late: AtomicU64::new(0),
        }
    }

    /// Waits until the mark is set or a thread has waited too long, and marks it where the turns are over before.
    pub fn until(&self, mark: &AtomicU64) {
        for _ in 0..TURNS {
            if mark.load(Ordering::SeqCst) != 0 || self.late.load(Ordering::SeqCst) != 0 {
                return;
            }
            thread::yield_now();
        }
        self.late.fetch_add(1, Ordering::SeqCst);
    }

    /// Sets the mark that somebody waits, and waits for what is to come.
    pub fn hold(&self) {
        self.waits.store(1, Ordering::SeqCst);
        self.until(&self.came);
    }

    /// Whether somebody has waited, what it waited for has come, and no thread has waited too long.
    pub fn were_met(&self) -> bool {
        self.waits.load(Ordering::SeqCst) != 0
            && self.came.load(Ordering::SeqCst) != 0
            && self.late.load(Ordering::SeqCst) == 0
    }
}
