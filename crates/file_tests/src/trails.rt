//! What no clause says: the bytes of a trail, where damage is told, and that each call succeeds or tells its fault.

ghost use Rattle.std.specs.Prelude.{◌≡◌, ◌<◌, ◌≤◌, ◌++◌, ◌∷◌, [], ℕ, List, length, true, IsTrue, IfOk, OnOk};
ghost use Rattle.trail_files.specs.declared.rules.Rules.{Rules};
ghost use Rattle.trail_files.specs.AuditFormat.{is_audit_record};
ghost use Rattle.trail_files.specs.Format.{AllValid};
ghost use Rattle.trail_files.specs.Content.{Content, landed_in, with_batch};
ghost use Rattle.trail_files.specs.Content.Pending.{Nothing};
ghost use Rattle.trail_files.specs.Holds.{Holds, Keeps};
ghost use Rattle.trail_files.specs.Trail.{IsWritable};

use disk_model::{Disk, DiskFault, MemDisk};
use std::alloc::{AllocError, Global};
use std::test::Fail;
use tmf_model::{Key, Sequence, Transid, Value};
use trail_files::{
    AuditKind, AuditRecord, Damage, DamageKind, MonitorRecord, Rules, Spelled, Trail, TrailFault,
    TrailPhase,
};

// Lands a batch: what a caller of both steps knows.
fn land<D: Disk, R: Spelled>(trail: &mut Trail<D, R>, records: &[R]) -> Result<(), DiskFault>
    requires ready { trail.old.phase ≡ TrailPhase.Ready }
    requires some { 0 < length records.now }
    requires most { length records.now ≤ (R.format trail.old.rules).most }
    requires valid { AllValid (R.format trail.old.rules) records.now }
    requires writable { IsWritable D.tells D.held trail.old }
    ensures landed { (content : Content R) → Holds D.Disk R.format trail.old content → content.pending ≡ Nothing
        → (IsTrue (D.tells trail.old.device) → (R.format trail.old.rules).in_order (landed_in content ++ records.now) ≡ true)
        → IfOk result (λ _. (file : ℕ) × Holds D.Disk R.format trail.new (with_batch file records.now content)) }
    ensures writable { IsWritable D.tells D.held trail.new }
    ensures phase { OnOk result (trail.new.phase ≡ TrailPhase.Ready) }
    ensures keeps { Keeps D.Disk trail.old trail.new }
{
    if trail.fits(records.len() as u32) {
        trail.load(records)?;
        return trail.gate();
    }
    trail.roll()?;
    trail.load(records)?;
    trail.gate()
}

fn rules(alloc: Global) -> Rules {
    rules_with(alloc, 1 << 40)
}

// The rules of a trail without discs that goes on in a new file at this length.
fn rules_with(alloc: Global, roll: u64) -> Rules {
    Rules {
        roll,
        trail: 1,
        discs: Sequence::new(Vec::new(alloc)),
        files: Sequence::new(Vec::new(alloc)),
    }
}

// A monitor trail of two batches.
fn two_batches(
    alloc: Global,
    device: MemDisk,
) -> Result<Trail<MemDisk, MonitorRecord>, TrailFault> {
    let mut trail = match Trail::<MemDisk, MonitorRecord>::format(alloc, device, rules(alloc)) {
        Ok(made) => made,
        Err((_, fault)) => return Err(fault),
    };
    land(&mut trail, &[MonitorRecord::Start(1)])?;
    land(
        &mut trail,
        &[MonitorRecord::Start(2), MonitorRecord::Start(3)],
    )?;
    Ok(trail)
}

// The epochs of the starts that a trail gives, in order.
fn epochs<D: Disk>(
    alloc: Global,
    trail: &mut Trail<D, MonitorRecord>,
) -> Result<Vec<u32>, TrailFault> {
    let mut found = Vec::new(alloc);
    let mut cursor = trail.cursor();
    for _ in 0..10 {
        match trail.next(&mut cursor)? {
            Some(MonitorRecord::Start(epoch)) => {
                if found.push(epoch).is_err() {
                    return Err(TrailFault::NoMemory);
                }
            }
            _ => break,
        }
    }
    Ok(found)
}

// Two batches are landed, lost to a crash as far as they may be, and read.
fn story(alloc: Global, device: MemDisk) -> Result<Vec<u32>, TrailFault> {
    let mut device = two_batches(alloc, device)?.into_device();
    device.restart();
    match Trail::<MemDisk, MonitorRecord>::attach(alloc, device, rules(alloc)) {
        Ok(trail) => {
            let mut trail = trail;
            epochs(alloc, &mut trail)
        }
        Err((_, fault)) => Err(fault),
    }
}

// The story makes 13 calls: 2 to format, 4 for each batch and 3 to attach, which reads the file at once: to read its records takes none.
#[test]
fn each_failing_call_is_told(rt: HostRuntime) {
    for n in 0..40 {
        let device = MemDisk::new(rt.alloc(), 0, &[n]).expect(&rt, "memory");
        match story(rt.alloc(), device) {
            Ok(found) => {
                assert!(rt; n >= 13, "at {n}");
                assert_eq!(rt; found.as_slice(), [1, 2, 3].as_slice(), "at {n}");
            }
            Err(fault) => {
                assert!(rt; n < 13, "at {n}");
                assert_eq!(rt; fault, TrailFault::Failed, "at {n}");
            }
        }
    }
}

const FORMATTED: [u8; 49] = [
    1, 1, 0, 0, 0, 0, 0, 1, 0, 0, 0, 0, 0, 0, 0, 0, // gate, version, count
    1, 0, 0, 0, 0, 0, 0, 1, 0, 0, 0, 0, 0, 0, 0, 0, // start of epoch 1
    0, 0, 0, 0, 0, 0, 0, 1, 0, 0, 0, 0, 0, 0, 0, 0, // at place 1
    0,
];

#[test]
fn a_formatted_monitor_trail_has_these_bytes(rt: HostRuntime) -> Result<(), Fail> {
    let alloc = rt.alloc();
    let device = MemDisk::new(alloc, 0, &[])?;
    let Ok(mut trail) = Trail::<MemDisk, MonitorRecord>::format(alloc, device, rules(alloc)) else {
        return Err(Fail::new("no trail was made"));
    };
    assert_eq!(rt; trail.phase(), TrailPhase::Ready);
    assert!(rt; land(&mut trail, &[MonitorRecord::Start(1)]).is_ok());
    let device = trail.into_device();
    let Some(bytes) = device.bytes(1) else {
        return Err(Fail::new("no file 1"));
    };
    assert_eq!(rt; bytes, FORMATTED.as_slice());
    Ok(())
}

// So many first bytes of a formatted monitor trail, the offset of a byte that is changed, to what, and the damage's offset
// and kind.
const DAMAGED: [(usize, usize, u8, u64, DamageKind); 20] = [
    (0, 0, 1, 0, DamageKind::Short),
    (10, 0, 1, 0, DamageKind::Short),
    (48, 0, 1, 0, DamageKind::Short),
    (49, 48, 1, 48, DamageKind::Short),
    (49, 0, 2, 0, DamageKind::NoStart),
    (49, 1, 2, 1, DamageKind::Version),
    (49, 3, 9, 3, DamageKind::Zero),
    (49, 2, 9, 2, DamageKind::Zero),
    (49, 4, 1, 4, DamageKind::Count),
    (49, 7, 65, 4, DamageKind::Count),
    (49, 8, 1, 8, DamageKind::Zero),
    (49, 12, 1, 12, DamageKind::Zero),
    (49, 15, 1, 15, DamageKind::Zero),
    (49, 7, 2, 0, DamageKind::Short),
    (49, 16, 2, 16, DamageKind::NoStart),
    (49, 23, 2, 16, DamageKind::NoStart),
    (49, 30, 1, 29, DamageKind::BadRecord),
    (49, 39, 2, 32, DamageKind::Order),
    (49, 40, 1, 40, DamageKind::BadRecord),
    (49, 17, 1, 17, DamageKind::BadRecord),
];

fn disk_of(alloc: Global, file: u32, bytes: Vec<u8>) -> Result<MemDisk, Fail> {
    let files = vec![in alloc; (file, bytes)]?;
    Ok(MemDisk::from_files(alloc, files, 0, &[])?)
}

// The fault of an attach of a monitor trail, if there is one.
fn fault_of(alloc: Global, device: MemDisk) -> Option<TrailFault> {
    match Trail::<MemDisk, MonitorRecord>::attach(alloc, device, rules(alloc)) {
        Ok(_) => None,
        Err((_, fault)) => Some(fault),
    }
}

#[test]
fn damage_is_told_at_its_place(rt: HostRuntime) -> Result<(), Fail> {
    let alloc = rt.alloc();
    let whole = Vec::from_slice(alloc, &FORMATTED)?;
    assert_eq!(rt; fault_of(alloc, disk_of(alloc, 1, whole)?), None);
    let elsewhere = Vec::from_slice(alloc, &FORMATTED)?;
    let missing = Damage {
        file: 1,
        at: 0,
        kind: DamageKind::Missing,
    };
    assert_eq!(rt;
        fault_of(alloc, disk_of(alloc, 2, elsewhere)?),
        Some(TrailFault::Damaged(missing))
    );
    for &(len, change, to, at, kind) in &DAMAGED {
        let mut bytes = FORMATTED;
        bytes[change] = to;
        let cut = Vec::from_slice(alloc, &bytes[..len])?;
        let told = TrailFault::Damaged(Damage { file: 1, at, kind });
        assert_eq!(rt; fault_of(alloc, disk_of(alloc, 1, cut)?), Some(told));
    }
    Ok(())
}

// Each byte of a head that is to be zero.
#[test]
fn each_zero_of_a_head_is_told(rt: HostRuntime) -> Result<(), Fail> {
    let alloc = rt.alloc();
    for at in [2, 3, 8, 9, 10, 11, 12, 13, 14, 15] {
        let mut bytes = FORMATTED;
        bytes[at] = 1;
        let told = TrailFault::Damaged(Damage {
            file: 1,
            at: at as u64,
            kind: DamageKind::Zero,
        });
        let device = disk_of(alloc, 1, Vec::from_slice(alloc, &bytes)?)?;
        assert_eq!(rt; fault_of(alloc, device), Some(told));
    }
    Ok(())
}

// Writes one byte into a file that has one there.
fn spoil<D: Disk>(device: &mut D, file: u32, at: u64, byte: u8) -> Result<(), DiskFault> {
    match device.length(file)? {
        Some(len) if at < len => device.write(file, at, &[byte]),
        _ => Ok(()),
    }
}

// The offset of a byte that is changed behind a trail's back, to what, and the offset and the kind of the damage that a reader meets.
const SPOILED: [(u64, u8, u64, DamageKind); 7] = [
    (0, 0, 0, DamageKind::Short),
    (1, 2, 1, DamageKind::Version),
    (4, 1, 4, DamageKind::Count),
    (15, 1, 15, DamageKind::Zero),
    (16, 9, 16, DamageKind::BadRecord),
    (39, 2, 32, DamageKind::Order),
    (47, 1, 40, DamageKind::BadRecord),
];

#[test]
fn a_reader_tells_damage_at_its_place(rt: HostRuntime) -> Result<(), Fail> {
    let alloc = rt.alloc();
    for &(change, to, at, kind) in &SPOILED {
        let Ok(mut trail) = two_batches(alloc, MemDisk::new(alloc, 0, &[])?) else {
            return Err(Fail::new("no trail was made"));
        };
        assert!(rt; spoil(trail.device(), 1, change, to).is_ok());
        let mut cursor = trail.cursor();
        let told = TrailFault::Damaged(Damage { file: 1, at, kind });
        assert!(rt; matches!(trail.next(&mut cursor), Err(fault) if fault == told));
    }
    Ok(())
}

// A monitor trail of three batches of one record, each in a file of its own.
fn rolled(alloc: Global, device: MemDisk) -> Result<Trail<MemDisk, MonitorRecord>, TrailFault> {
    let small = rules_with(alloc, 60);
    let mut trail = match Trail::<MemDisk, MonitorRecord>::format(alloc, device, small) {
        Ok(made) => made,
        Err((_, fault)) => return Err(fault),
    };
    land(&mut trail, &[MonitorRecord::Start(1)])?;
    land(&mut trail, &[MonitorRecord::Start(2)])?;
    land(&mut trail, &[MonitorRecord::Start(3)])?;
    Ok(trail)
}

// It makes 24 calls: 2 to format, 4 for each batch, and 5 for each of two rolls.
#[test]
fn each_failing_call_of_a_roll_is_told(rt: HostRuntime) {
    for n in 0..32 {
        let device = MemDisk::new(rt.alloc(), 0, &[n]).expect(&rt, "memory");
        match rolled(rt.alloc(), device) {
            Ok(_) => assert!(rt; n >= 24, "at {n}"),
            Err(fault) => {
                assert!(rt; n < 24, "at {n}");
                assert_eq!(rt; fault, TrailFault::Failed, "at {n}");
            }
        }
    }
}

#[test]
fn a_trail_goes_on_in_the_next_file(rt: HostRuntime) -> Result<(), Fail> {
    let alloc = rt.alloc();
    let Ok(trail) = rolled(alloc, MemDisk::new(alloc, 0, &[])?) else {
        return Err(Fail::new("no trail was made"));
    };
    assert_eq!(rt; trail.least_file(), 1);
    assert_eq!(rt; trail.present_file(), 3);
    let device = trail.into_device();
    for (file, len) in [(1, Some(65)), (2, Some(65)), (3, Some(49)), (4, None)] {
        assert_eq!(rt; device.bytes(file).map(<[u8]>::len), len, "file {file}");
    }
    let Ok(mut trail) = Trail::<MemDisk, MonitorRecord>::attach(
        alloc,
        device,
        rules_with(alloc, 60),
    ) else {
        return Err(Fail::new("the trail is damaged"));
    };
    assert_eq!(rt; trail.present_file(), 3);
    let mut cursor = trail.cursor();
    assert_eq!(rt; cursor.file(), 1);
    for epoch in 1..4 {
        let next = trail.next(&mut cursor);
        assert!(rt; matches!(next, Ok(Some(MonitorRecord::Start(found))) if found == epoch));
        assert_eq!(rt; cursor.file(), epoch);
    }
    assert!(rt; matches!(trail.next(&mut cursor), Ok(None)));
    assert_eq!(rt; cursor.file(), 3);
    Ok(())
}

// The device that a trail lends is the one that it writes.
#[test]
fn lends_its_device(rt: HostRuntime) -> Result<(), Fail> {
    let alloc = rt.alloc();
    let Ok(mut trail) = two_batches(alloc, MemDisk::new(alloc, 0, &[])?) else {
        return Err(Fail::new("no trail was made"));
    };
    assert!(rt; matches!(trail.device().length(1), Ok(Some(129))));
    assert!(rt; matches!(trail.device().least(), Ok(Some(1))));
    let mut cursor = trail.cursor();
    let first = trail.next(&mut cursor);
    assert!(rt; matches!(first, Ok(Some(MonitorRecord::Start(1)))));
    Ok(())
}

// A cursor gives no batch that is offered, and gives it once it has landed. The call that fails is the write of the second gate.
#[test]
fn a_cursor_gives_what_has_landed(rt: HostRuntime) -> Result<(), Fail> {
    let alloc = rt.alloc();
    let device = MemDisk::new(alloc, 0, &[9])?;
    let Ok(mut trail) = Trail::<MemDisk, MonitorRecord>::format(alloc, device, rules(alloc)) else {
        return Err(Fail::new("no trail was made"));
    };
    assert!(rt; land(&mut trail, &[MonitorRecord::Start(1)]).is_ok());
    assert!(rt; land(&mut trail, &[MonitorRecord::Start(2)]).is_err());
    if trail.phase() != TrailPhase::Offered {
        return Err(Fail::new("no batch was offered"));
    }
    let mut cursor = trail.cursor();
    let first = trail.next(&mut cursor);
    assert!(rt; matches!(first, Ok(Some(MonitorRecord::Start(1)))));
    assert!(rt; matches!(trail.next(&mut cursor), Ok(None)));
    assert!(rt; trail.gate().is_ok());
    let second = trail.next(&mut cursor);
    assert!(rt; matches!(second, Ok(Some(MonitorRecord::Start(2)))));
    Ok(())
}

// A file that ends anywhere but behind the gate of its second batch.
#[test]
fn a_cut_file_is_short(rt: HostRuntime) -> Result<(), Fail> {
    let alloc = rt.alloc();
    let Ok(trail) = two_batches(alloc, MemDisk::new(alloc, 0, &[])?) else {
        return Err(Fail::new("no trail was made"));
    };
    let device = trail.into_device();
    let Some(bytes) = device.bytes(1) else {
        return Err(Fail::new("no file 1"));
    };
    assert_eq!(rt; bytes.len(), 129);
    for len in 0..129 {
        let cut = Vec::from_slice(alloc, &bytes[..len])?;
        let told = TrailFault::Damaged(Damage {
            file: 1,
            at: if len < 49 { 0 } else { 48 },
            kind: DamageKind::Short,
        });
        assert_eq!(rt;
            fault_of(alloc, disk_of(alloc, 1, cut)?),
            Some(told),
            "{len} bytes"
        );
    }
    Ok(())
}

// The fault of an attach of an audit trail, if there is one.
fn audit_fault_of(alloc: Global, bytes: Vec<u8>) -> Result<Option<TrailFault>, Fail> {
    let device = disk_of(alloc, 1, bytes)?;
    match Trail::<MemDisk, AuditRecord>::attach(alloc, device, rules(alloc)) {
        Ok(_) => Ok(None),
        Err((_, fault)) => Ok(Some(fault)),
    }
}

// The front of an audit trail's file 1, which goes on with zeros up to a length; then the damage's file, offset and kind.
const FRONTS: [([u8; 8], usize, Option<(u32, u64, DamageKind)>); 9] = [
    ([0, 0, 0, 0, 0, 0, 0, 0], 0, Some((1, 0, DamageKind::Short))),
    ([0, 0, 0, 0, 0, 0, 0, 0], 1, None),
    ([1, 0, 0, 0, 0, 0, 0, 0], 1, Some((1, 0, DamageKind::Short))),
    (
        [1, 1, 0, 0, 0, 0, 2, 1],
        16,
        Some((1, 4, DamageKind::Count)),
    ),
    ([2, 1, 0, 0, 0, 0, 2, 1], 16, None),
    (
        [1, 2, 0, 0, 0, 0, 2, 1],
        16,
        Some((1, 1, DamageKind::Version)),
    ),
    (
        [1, 1, 0, 0, 0, 0, 2, 0],
        16,
        Some((1, 0, DamageKind::Short)),
    ),
    (
        [1, 1, 0, 0, 0, 0, 0, 0],
        16,
        Some((1, 0, DamageKind::Short)),
    ),
    (
        [1, 1, 0, 0, 0, 0, 0, 0],
        17,
        Some((2, 0, DamageKind::Missing)),
    ),
];

#[test]
fn fronts_of_audit_trails_are_told(rt: HostRuntime) -> Result<(), Fail> {
    let alloc = rt.alloc();
    for (front, len, expected) in &FRONTS {
        let mut bytes = vec![in alloc; 0; 17]?;
        bytes[..8].copy_from_slice(front);
        let told = expected.map(|(file, at, kind)| TrailFault::Damaged(Damage { file, at, kind }));
        bytes.truncate(*len);
        assert_eq!(rt; audit_fault_of(alloc, bytes)?, told);
    }
    let full = vec![in alloc; 0xFF; 70_000]?;
    assert_eq!(rt; audit_fault_of(alloc, full)?, None);
    Ok(())
}

// The rules of a trail that has the audit of disc 1, with file 1 on it, and goes on in a new file at this length.
fn rules_of_disc(alloc: Global, roll: u64) -> Result<Rules, AllocError>
    ensures discs { IfOk result (λ rules. rules.discs ≡ 1 ∷ []) }
    ensures files { IfOk result (λ rules. rules.files ≡ (1, 1) ∷ []) }
{
    Ok(Rules {
        roll,
        trail: 1,
        discs: Sequence::new(vec![in alloc; 1]?),
        files: Sequence::new(vec![in alloc; (1, 1)]?),
    })
}

// A change that gives key `k1` the value `v1`.
fn change(position: u64) -> Result<AuditRecord, Fail>
    ensures valid { (rules : Rules) → rules.discs ≡ 1 ∷ [] → rules.files ≡ (1, 1) ∷ []
        → 1 ≤ position → position ≤ 4611686018427387903
        → IfOk result (λ made. is_audit_record rules made ≡ true) }
{
    Ok(AuditRecord {
        kind: AuditKind::Change,
        disc: 1,
        file: 1,
        tx: Transid {
            epoch: 1,
            worker: 1,
            ordinal: 1,
            attempt: 1,
        },
        position,
        key: Key::new(b"k1")?,
        before: None,
        after: Some(Value::new(b"v1")?),
    })
}

// A file of an audit trail with a batch of one record, and then a roll batch or a closed gate.
fn audit_file(alloc: Global, position: u8, is_rolled: bool) -> Result<Vec<u8>, AllocError> {
    let mut bytes = vec![in alloc; 0; 161]?;
    bytes[..34].copy_from_slice(&[
        1, 1, 0, 0, 0, 0, 0, 1, 0, 0, 0, 0, 0, 0, 0, 0, // gate, version, count
        1, 1, 1, 2, 0, 0, 0, 1, 0, 1, 0, 1, 1, 0, 2, 0, // a change of a key of two bytes to a value of two
        0, 0,
    ]);
    bytes[39] = position;
    bytes[40..42].copy_from_slice(b"k1");
    bytes[96..98].copy_from_slice(b"v1");
    if is_rolled {
        bytes[144] = 1;
        bytes[145] = 1;
    }
    Ok(bytes)
}

// An audit trail of three batches of one record, each in a file of its own, on a device of which one call fails.
fn three_files(alloc: Global, fails: u64) -> Result<Trail<MemDisk, AuditRecord>, Fail> {
    let first = audit_file(alloc, 1, true)?;
    let second = audit_file(alloc, 2, true)?;
    let third = audit_file(alloc, 3, false)?;
    let files = vec![in alloc; (1, first), (2, second), (3, third)]?;
    let device = MemDisk::from_files(alloc, files, 0, &[fails])?;
    match Trail::<MemDisk, AuditRecord>::attach(alloc, device, rules_of_disc(alloc, 256)?) {
        Ok(trail) => Ok(trail),
        Err(_) => Err(Fail::new("the trail is damaged")),
    }
}

// The positions of the records that a trail gives, in order.
fn positions<D: Disk>(
    alloc: Global,
    trail: &mut Trail<D, AuditRecord>,
) -> Result<Vec<u64>, TrailFault> {
    let mut found = Vec::new(alloc);
    let mut cursor = trail.cursor();
    for _ in 0..10 {
        match trail.next(&mut cursor)? {
            Some(record) => {
                if found.push(record.position).is_err() {
                    return Err(TrailFault::NoMemory);
                }
            }
            None => break,
        }
    }
    Ok(found)
}

fn gives<D: Disk>(alloc: Global, trail: &mut Trail<D, AuditRecord>, expected: &[u64]) -> bool {
    match positions(alloc, trail) {
        Ok(found) => found.as_slice() == expected,
        Err(_) => false,
    }
}

// Whether the files below a number were removed.
fn removes<D: Disk>(trail: &mut Trail<D, AuditRecord>, file: u32) -> bool {
    file <= trail.present_file() && trail.remove_below(file).is_ok()
}

// Removes a file that is there.
fn take_away<D: Disk>(device: &mut D, file: u32) -> Result<(), DiskFault> {
    if device.length(file)?.is_some() {
        device.remove(file)?;
    }
    Ok(())
}

// To attach the trail takes 7 calls, the next asks for the length of its least file, and the one after that is refused. A device may have done
// what it refused: here the file is then taken away behind the trail's back.
#[test]
fn a_refused_removal_goes_on(rt: HostRuntime) -> Result<(), Fail> {
    let alloc = rt.alloc();
    for done in [false, true] {
        let mut trail = three_files(alloc, 8)?;
        assert_eq!(rt; (trail.least_file(), trail.present_file()), (1, 3));
        assert!(rt; !removes(&mut trail, 3));
        assert_eq!(rt; trail.least_file(), 1);
        if done {
            assert!(rt; take_away(trail.device(), 1).is_ok());
            assert!(rt; gives(alloc, &mut trail, &[2, 3]));
        } else {
            assert!(rt; gives(alloc, &mut trail, &[1, 2, 3]));
        }
        assert!(rt; removes(&mut trail, 3));
        assert_eq!(rt; (trail.least_file(), trail.present_file()), (3, 3));
        assert!(rt; matches!(trail.device().least(), Ok(Some(3))));
        assert!(rt; gives(alloc, &mut trail, &[3]));
    }
    Ok(())
}

#[test]
fn an_audit_trail_is_read(rt: HostRuntime) -> Result<(), Fail> {
    let alloc = rt.alloc();
    let bytes = audit_file(alloc, 1, false)?;
    let Ok(mut trail) = Trail::<MemDisk, AuditRecord>::attach(
        alloc,
        disk_of(alloc, 1, bytes)?,
        rules_of_disc(alloc, 1 << 40)?,
    ) else {
        return Err(Fail::new("the trail is damaged"));
    };
    let mut cursor = trail.cursor();
    let expected = change(1)?;
    let first = trail.next(&mut cursor);
    assert!(rt; matches!(first, Ok(Some(found)) if found == expected));
    assert!(rt; matches!(trail.next(&mut cursor), Ok(None)));
    Ok(())
}

// Lands a change in a batch of its own.
fn land_change<D: Disk>(trail: &mut Trail<D, AuditRecord>, position: u64) -> Result<(), Fail>
    requires ready { trail.old.phase ≡ TrailPhase.Ready }
    requires discs { trail.old.rules.discs ≡ 1 ∷ [] }
    requires files { trail.old.rules.files ≡ (1, 1) ∷ [] }
    requires first { 1 ≤ position }
    requires last { position ≤ 4611686018427387903 }
    requires writable { IsWritable D.tells D.held trail.old }
    ensures writable { IsWritable D.tells D.held trail.new }
    ensures phase { OnOk result (trail.new.phase ≡ TrailPhase.Ready) }
    ensures rules { trail.new.rules ≡ trail.old.rules }
{
    let item = change(position)?;
    match land(trail, &[item]) {
        Ok(()) => Ok(()),
        Err(_) => Err(Fail::new("the device failed")),
    }
}

// An audit trail whose three batches were written, each with one record.
fn three_batches(alloc: Global, device: MemDisk) -> Result<Trail<MemDisk, AuditRecord>, Fail> {
    let rules = rules_of_disc(alloc, 256)?;
    let mut trail = match Trail::<MemDisk, AuditRecord>::format(alloc, device, rules) {
        Ok(made) => made,
        Err(_) => return Err(Fail::new("no trail was made")),
    };
    land_change(&mut trail, 1)?;
    land_change(&mut trail, 2)?;
    land_change(&mut trail, 3)?;
    Ok(trail)
}

#[test]
fn an_audit_trail_goes_on_in_the_next_file(rt: HostRuntime) -> Result<(), Fail> {
    let alloc = rt.alloc();
    let mut trail = three_batches(alloc, MemDisk::new(alloc, 0, &[])?)?;
    assert_eq!(rt; (trail.least_file(), trail.present_file()), (1, 3));
    let mut cursor = trail.cursor();
    for position in 1..4 {
        let expected = change(position)?;
        let next = trail.next(&mut cursor);
        assert!(rt; matches!(next, Ok(Some(found)) if found == expected));
        assert_eq!(rt; u64::from(cursor.file()), position);
    }
    assert!(rt; matches!(trail.next(&mut cursor), Ok(None)));
    let device = trail.into_device();
    for file in 1..3 {
        let expected = audit_file(alloc, file as u8, true)?;
        assert!(rt; device.bytes(file) == Some(expected.as_slice()));
    }
    Ok(())
}
