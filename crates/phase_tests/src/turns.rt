//! Tests of threads: a worker or a device is held until another thread has come so far. Each waits for a limit of turns, and then
//! fails by its own assertion, as where the work is not done by threads of their own.
ghost use Rattle.std.specs.Prelude.{⊤};

use crate::marks::Marks;
use crate::nodes::{DEVICES, HEAD, disks, done, formatted, listed, recovered, script};
use disk_model::{MemDisk, Watch, Watched};
use node_run::Gate;
use std::alloc::Global;
use std::process::Abort;
use std::sync::atomic::{AtomicU64, Ordering};
use std::test::Fail;

/// The number of the monitor trail's device.
const MONITOR: u8 = 0;

/// The number of the first volume's device.
const VOLUME: u8 = 5;

/// Worker 1 waits at its second operation until worker 2's first item is answered.
#[derive(Drop)]
struct AtOperation {
    marks: Marks,
}

impl Gate for AtOperation {
    fn pass(&self, worker: u16, ordinal: u16, op: u8) {
        if worker == 1 && ordinal == 1 && op == 2 {
            self.marks.hold();
        }
    }

    fn answered(&self, worker: u16, ordinal: u16) {
        if worker == 2 && ordinal == 1 {
            self.marks.came.store(1, Ordering::SeqCst);
        }
    }
}

#[test]
fn gate_test(rt: HostRuntime) -> Result<(), Fail> {
    let alloc = rt.alloc();
    let workers =
        b"worker\nbegin\nput F a 1\nput G a 1\ncommit\nworker\nbegin\nput F b 2\nput G b 2\ncommit\n";
    let script = script(alloc, HEAD, workers)?;
    let bay = formatted(alloc, &script.config, disks(alloc)?)?;
    let gate = AtOperation {
        marks: Marks::new(),
    };
    let (outcomes, mut bay) = done(&rt, alloc, &script, &gate, bay)?;
    assert_eq!(rt; outcomes.len(), 2);
    assert!(rt; gate.marks.were_met());
    assert_eq!(rt; recovered(alloc, &mut bay, &script.config)?, 3);
    assert_eq!(rt;
        listed(alloc, &mut bay, &script.config, 1)?.as_str(),
        "a=1 b=2 "
    );
    assert_eq!(rt;
        listed(alloc, &mut bay, &script.config, 2)?.as_str(),
        "a=1 b=2 "
    );
    Ok(())
}

/// What the devices of a test do before a call.
#[derive(Clone, Copy)]
enum Duty {
    Nothing,
    /// Holds a read while worker 1 is at work and worker 2's first item is not answered.
    HoldsReads,
    /// Marks each call other than a read, while a worker waits for it.
    MarksOthers,
    /// Holds a call other than a read while worker 1 is at work and worker 2 has carried out no operation.
    HoldsOthers,
}

#[derive(Drop)]
struct Watchman<'a> {
    duty: Duty,
    /// Not 0 from when on the duty is done.
    begun: &'a AtomicU64,
    marks: &'a Marks,
}

impl Watch for Watchman<'_> {
    ghost passes = { λ _ _. ⊤ };

    fn before(&self, read: bool) -> bool {
        if self.begun.load(Ordering::SeqCst) != 0 {
            match self.duty {
                Duty::HoldsReads if read => self.marks.hold(),
                Duty::MarksOthers if !read => self.marks.came.store(1, Ordering::SeqCst),
                Duty::HoldsOthers if !read => self.marks.hold(),
                _ => {}
            }
        }
        true
    }
}

/// The devices of a node, of which the one with this number has a duty.
fn watched<'a>(
    alloc: Global,
    device: u8,
    duty: Duty,
    begun: &'a AtomicU64,
    marks: &'a Marks,
) -> Result<Vec<Watched<MemDisk, Watchman<'a>>>, Fail> {
    let mut disks = Vec::new(alloc);
    for number in 0..DEVICES {
        let duty = if number == device {
            duty
        } else {
            Duty::Nothing
        };
        let watch = Watchman { duty, begun, marks };
        disks.push(Watched::new(MemDisk::new(alloc, 0, &[])?, watch))?;
    }
    Ok(disks)
}

/// Worker 2 begins when a read is held, and the read goes on when worker 2's first item is answered.
#[derive(Drop)]
struct AtRead<'a> {
    begun: &'a AtomicU64,
    marks: &'a Marks,
}

impl Gate for AtRead<'_> {
    fn pass(&self, worker: u16, ordinal: u16, op: u8) {
        if op == 1 && ordinal == 1 {
            match worker {
                1 => self.begun.store(1, Ordering::SeqCst),
                _ => self.marks.until(&self.marks.waits),
            }
        }
    }

    fn answered(&self, worker: u16, ordinal: u16) {
        if worker == 2 && ordinal == 1 {
            self.marks.came.store(1, Ordering::SeqCst);
        }
    }
}

#[test]
fn disk_test(rt: HostRuntime) -> Result<(), Fail> {
    let alloc = rt.alloc();
    let workers = b"worker\nbegin\nput F a 1\ncommit\nworker\nbegin\nput G b 2\ncommit\n";
    let script = script(alloc, HEAD, workers)?;
    let begun = AtomicU64::new(0);
    let marks = Marks::new();
    let disks = watched(alloc, VOLUME, Duty::HoldsReads, &begun, &marks)?;
    let bay = formatted(alloc, &script.config, disks)?;
    let gate = AtRead {
        begun: &begun,
        marks: &marks,
    };
    let (outcomes, mut bay) = done(&rt, alloc, &script, &gate, bay)?;
    begun.store(0, Ordering::SeqCst);
    assert_eq!(rt; outcomes.len(), 2);
    assert!(rt; marks.were_met());
    assert_eq!(rt; recovered(alloc, &mut bay, &script.config)?, 3);
    assert_eq!(rt;
        listed(alloc, &mut bay, &script.config, 1)?.as_str(),
        "a=1 "
    );
    assert_eq!(rt;
        listed(alloc, &mut bay, &script.config, 2)?.as_str(),
        "b=2 "
    );
    Ok(())
}

/// A worker waits before its closing line. What it waits for counts from before its second put on, when its block is in memory.
#[derive(Drop)]
struct AtClose<'a> {
    begun: &'a AtomicU64,
    marks: &'a Marks,
}

impl Gate for AtClose<'_> {
    fn pass(&self, worker: u16, ordinal: u16, op: u8) {
        if worker == 1 && ordinal == 1 {
            match op {
                2 => self.begun.store(1, Ordering::SeqCst),
                3 => self.marks.hold(),
                _ => {}
            }
        }
    }

    fn answered(&self, worker: u16, ordinal: u16) {
        let _ = (worker, ordinal);
    }
}

#[test]
fn draw_test(rt: HostRuntime) -> Result<(), Fail> {
    let alloc = rt.alloc();
    let workers = b"worker\nbegin\nput F a 1\nput F a 2\ncommit\n";
    let script = script(alloc, HEAD, workers)?;
    let begun = AtomicU64::new(0);
    let marks = Marks::new();
    let disks = watched(alloc, VOLUME, Duty::MarksOthers, &begun, &marks)?;
    let bay = formatted(alloc, &script.config, disks)?;
    let gate = AtClose {
        begun: &begun,
        marks: &marks,
    };
    let (outcomes, mut bay) = done(&rt, alloc, &script, &gate, bay)?;
    assert_eq!(rt; outcomes.len(), 1);
    assert!(rt; marks.were_met());
    assert_eq!(rt; recovered(alloc, &mut bay, &script.config)?, 2);
    assert_eq!(rt;
        listed(alloc, &mut bay, &script.config, 1)?.as_str(),
        "a=2 "
    );
    Ok(())
}

/// Worker 1 begins when worker 2 stands before its first operation, worker 2 carries that out when a call of the monitor's device is held, and that call
/// goes on then.
#[derive(Drop)]
struct AtCommit<'a> {
    stands: AtomicU64,
    begun: &'a AtomicU64,
    marks: &'a Marks,
}

impl Gate for AtCommit<'_> {
    fn pass(&self, worker: u16, ordinal: u16, op: u8) {
        let _ = ordinal;
        match (worker, op) {
            (1, 1) => self.marks.until(&self.stands),
            (1, 2) => self.begun.store(1, Ordering::SeqCst),
            (2, 1) => {
                self.stands.store(1, Ordering::SeqCst);
                self.marks.until(&self.marks.waits);
            }
            (2, 2) => self.marks.came.store(1, Ordering::SeqCst),
            _ => {}
        }
    }

    fn answered(&self, worker: u16, ordinal: u16) {
        let _ = (worker, ordinal);
    }
}

#[test]
fn commit_test(rt: HostRuntime) -> Result<(), Fail> {
    let alloc = rt.alloc();
    let workers = b"worker\nbegin\nput F a 1\ncommit\nworker\nbegin\nput F b 2\ncommit\n";
    let script = script(alloc, HEAD, workers)?;
    let begun = AtomicU64::new(0);
    let marks = Marks::new();
    let disks = watched(alloc, MONITOR, Duty::HoldsOthers, &begun, &marks)?;
    let bay = formatted(alloc, &script.config, disks)?;
    let gate = AtCommit {
        stands: AtomicU64::new(0),
        begun: &begun,
        marks: &marks,
    };
    let (outcomes, mut bay) = done(&rt, alloc, &script, &gate, bay)?;
    begun.store(0, Ordering::SeqCst);
    assert_eq!(rt; outcomes.len(), 2);
    assert!(rt; marks.were_met());
    assert_eq!(rt; recovered(alloc, &mut bay, &script.config)?, 3);
    assert_eq!(rt;
        listed(alloc, &mut bay, &script.config, 1)?.as_str(),
        "a=1 b=2 "
    );
    Ok(())
}
