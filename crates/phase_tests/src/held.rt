//! Two workers at one file, held so that what each item comes to is known to the place.
ghost use Rattle.std.specs.Prelude.{⊤};

use crate::marks::Marks;
use crate::nodes::{
    DEVICES, ONE_FILE, begun, disks, first_of, formatted, is_committed, is_controlled, listed,
    recovered, script,
};
use disk_model::{MemDisk, Watch, Watched};
use node_run::{Gate, Hang, Outcome, Told};
use std::alloc::Global;
use std::process::Abort;
use std::sync::atomic::{AtomicU64, Ordering};
use std::test::Fail;
use tmf_model::Transid;

/// Worker 2 begins when worker 1 stands before its closing line, and worker 1 goes on when worker 2's item is answered.
#[derive(Drop)]
struct AtClosingLine {
    marks: Marks,
}

impl Gate for AtClosingLine {
    fn pass(&self, worker: u16, ordinal: u16, op: u8) {
        let _ = ordinal;
        match (worker, op) {
            (1, 2) => self.marks.hold(),
            (2, 1) => self.marks.until(&self.marks.waits),
            _ => {}
        }
    }

    fn answered(&self, worker: u16, ordinal: u16) {
        let _ = ordinal;
        if worker == 2 {
            self.marks.came.store(1, Ordering::SeqCst);
        }
    }
}

/// Whether the outcome is that this attempt asked for a key of the first file that the holder has.
fn is_busy(outcome: Option<&Outcome>, tx: Transid, wanted: &str, by: Transid) -> bool {
    let Some(outcome) = outcome else {
        return false;
    };
    match &outcome.told {
        Told::Busy { file, key, holder } => {
            outcome.tx == tx && *file == 1 && key.as_str() == wanted && *holder == by
        }
        _ => false,
    }
}

#[test]
fn a_key_that_another_holds_is_busy(rt: HostRuntime) -> Result<(), Fail> {
    let alloc = rt.alloc();
    let workers = b"worker\nbegin\nput ACCT k1 a\ncommit\nworker\nbegin\nput ACCT k1 b\ncommit\n";
    let script = script(alloc, ONE_FILE, workers)?;
    let bay = formatted(alloc, &script.config, disks(alloc)?)?;
    let gate = AtClosingLine {
        marks: Marks::new(),
    };
    let (outcomes, mut bay) = begun(&rt, alloc, &script, &gate, bay)?;
    let outcomes = outcomes.as_slice();
    assert!(rt; gate.marks.were_met());
    assert_eq!(rt; outcomes.len(), 2);
    assert!(rt; is_committed(outcomes.get(0), first_of(1, 1), 3));
    assert!(rt; is_busy(outcomes.get(1), first_of(2, 1), "k1", first_of(1, 1)));
    recovered(alloc, &mut bay, &script.config)?;
    assert_eq!(rt;
        listed(alloc, &mut bay, &script.config, 1)?.as_str(),
        "k1=a "
    );
    Ok(())
}

/// Refuses each call while its switch is thrown.
#[derive(Drop)]
struct Switched<'a> {
    thrown: &'a AtomicU64,
}

impl Watch for Switched<'_> {
    ghost passes = { λ _ _. ⊤ };

    fn before(&self, read: bool) -> bool {
        let _ = read;
        self.thrown.load(Ordering::SeqCst) == 0
    }
}

/// The devices of a node, which share a switch.
fn switched_disks<'a>(
    alloc: Global,
    thrown: &'a AtomicU64,
) -> Result<Vec<Watched<MemDisk, Switched<'a>>>, Fail> {
    let mut disks = Vec::new(alloc);
    for _ in 0..DEVICES {
        let watch = Switched { thrown };
        disks.push(Watched::new(MemDisk::new(alloc, 0, &[])?, watch))?;
    }
    Ok(disks)
}

/// Worker 1 begins when worker 2's first item is answered, and worker 2 goes on when worker 1 stands before its closing line.
/// When worker 2's second item is answered, the switch is thrown, and worker 1 goes on.
#[derive(Drop)]
struct AroundControl<'a> {
    begun: AtomicU64,
    marks: Marks,
    thrown: &'a AtomicU64,
}

impl Gate for AroundControl<'_> {
    fn pass(&self, worker: u16, ordinal: u16, op: u8) {
        let _ = ordinal;
        match (worker, op) {
            (1, 1) => self.marks.until(&self.begun),
            (1, 2) => self.marks.hold(),
            _ => {}
        }
    }

    fn answered(&self, worker: u16, ordinal: u16) {
        match (worker, ordinal) {
            (2, 1) => {
                self.begun.store(1, Ordering::SeqCst);
                self.marks.until(&self.marks.waits);
            }
            (2, 2) => {
                self.thrown.store(1, Ordering::SeqCst);
                self.marks.came.store(1, Ordering::SeqCst);
            }
            _ => {}
        }
    }
}

/// Whether the outcome is that this attempt's backout hangs at the monitor's device.
fn hangs(outcome: Option<&Outcome>, tx: Transid) -> bool {
    let Some(outcome) = outcome else {
        return false;
    };
    match outcome.told {
        Told::Hanging {
            why: Hang::Device(device),
        } => outcome.tx == tx && device == 0,
        _ => false,
    }
}

#[test]
fn a_backout_hangs_where_no_device_does_a_call(rt: HostRuntime) -> Result<(), Fail> {
    let alloc = rt.alloc();
    let workers =
        b"worker\nbegin\nput ACCT a 1\nabort\nworker\nbegin\nput ACCT b 1\ncommit\ncontrol $DATA1\n";
    let script = script(alloc, ONE_FILE, workers)?;
    let thrown = AtomicU64::new(0);
    let bay = formatted(alloc, &script.config, switched_disks(alloc, &thrown)?)?;
    let gate = AroundControl {
        begun: AtomicU64::new(0),
        marks: Marks::new(),
        thrown: &thrown,
    };
    let (outcomes, mut bay) = begun(&rt, alloc, &script, &gate, bay)?;
    thrown.store(0, Ordering::SeqCst);
    let outcomes = outcomes.as_slice();
    assert!(rt; gate.marks.were_met());
    assert_eq!(rt; outcomes.len(), 3);
    assert!(rt; hangs(outcomes.get(0), first_of(1, 1)));
    assert!(rt; is_committed(outcomes.get(1), first_of(2, 1), 2));
    assert!(rt; is_controlled(outcomes.get(2), first_of(2, 2), 2));
    recovered(alloc, &mut bay, &script.config)?;
    assert_eq!(rt;
        listed(alloc, &mut bay, &script.config, 1)?.as_str(),
        "b=1 "
    );
    Ok(())
}
