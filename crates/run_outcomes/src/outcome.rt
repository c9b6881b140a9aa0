//! What the items of a run came to.
use tmf_model::{Key, Reason, Sequence, Transid, Value};
use trail_files::Damage;

/// Where a run's workers may be held, as by a test.
pub trait Gate {
    /// Before each operation, numbered from 1, and before the closing line, which has one number more than the last operation.
    fn pass(&self, worker: u16, ordinal: u16, op: u8);

    /// The item's last outcome is known.
    fn answered(&self, worker: u16, ordinal: u16);
}

/// Why a backout was refused, so that its transaction keeps its locks up to the end of the run.
#[derive(Clone, Copy, Debug, PartialEq, Eq)]
pub enum Hang {
    /// The device with this number failed.
    Device(u8),
    /// The bytes of the device with this number break their format.
    Damaged(u8, Damage),
    Memory,
}

/// How an attempt, a control point or a dump ended. Devices, volumes, files and parts go by their numbers.
#[derive(Drop)]
pub enum Told {
    Committed {
        /// The place of its commit record.
        place: u64,
        /// What each read, by the number of its operation from 1, has found.
        reads: Sequence<(u8, Option<Value>)>,
    },
    Aborted,
    /// Another transaction, the holder, has the key.
    Busy {
        file: u8,
        key: Key,
        holder: Transid,
    },
    /// The key has no room in its block.
    Full {
        file: u8,
        key: Key,
    },
    /// The operation with this number, from 1, has no value there.
    Refused {
        op: u8,
        reason: Reason,
    },
    /// The part has had as many events as a run may have, or its disc gives out no further position.
    Spent {
        part: u32,
    },
    Failed {
        device: u8,
    },
    Damaged {
        device: u8,
        damage: Damage,
    },
    /// Its commit was decided, and the device failed as it was recorded: it may stand or not.
    InDoubt {
        device: u8,
    },
    Hanging {
        why: Hang,
    },
    /// An earlier item of its worker came to an end behind which there is no next one.
    Skipped,
    Memory,
    Controlled {
        volume: u8,
        low: u64,
    },
    Dumped {
        volume: u8,
        start: u64,
    },
    /// A dump of the volume was under way.
    Dumping {
        volume: u8,
    },
}

/// What an attempt at an item came to.
#[derive(Drop)]
pub struct Outcome {
    pub tx: Transid,
    pub told: Told,
}

/// Why no worker of a run has begun.
#[derive(Clone, Copy, Debug, PartialEq, Eq)]
pub enum PhaseError {
    /// The device with this number failed.
    Failed(u8),
    /// The bytes of the device with this number break their format, or do not fit those of the others.
    Damaged(u8, Damage),
    NoMemory,
}
