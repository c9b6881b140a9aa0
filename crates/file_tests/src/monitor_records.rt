//! Monitor records byte by byte.
use std::alloc::Global;
use tmf_model::{Sequence, Transid};
use trail_files::{DamageKind, MonitorOrder, MonitorRecord, OrderFault, Rules, Spelled};

/// The Start of epoch 1 at place 1.
const START: [u8; 32] = [
    1, 0, 0, 0, 0, 0, 0, 1, 0, 0, 0, 0, 0, 0, 0, 0, 0, 0, 0, 0, 0, 0, 0, 1, 0, 0, 0, 0, 0, 0, 0, 0,
];

/// The Commit of 1.2.3.4 at place 2.
const COMMIT: [u8; 32] = [
    2, 0, 0, 0, 0, 0, 0, 1, 0, 2, 0, 3, 4, 0, 0, 0, 0, 0, 0, 0, 0, 0, 0, 2, 0, 0, 0, 0, 0, 0, 0, 0,
];

fn rules(alloc: Global) -> Rules {
    Rules {
        roll: 65536,
        trail: 1,
        discs: Sequence::new(Vec::new(alloc)),
        files: Sequence::new(Vec::new(alloc)),
    }
}

/// The bytes with some of them changed.
fn changed(bytes: &[u8; 32], changes: &[(usize, u8)]) -> [u8; 32] {
    let mut all = *bytes;
    for &(at, byte) in changes {
        if let Some(place) = all.get_mut(at) {
            *place = byte;
        }
    }
    all
}

#[test]
fn records_have_these_bytes(rt: HostRuntime) {
    let rules = rules(rt.alloc());
    let tx = Transid {
        epoch: 1,
        worker: 2,
        ordinal: 3,
        attempt: 4,
    };
    for (item, number, want) in [
        (MonitorRecord::Start(1), 1, START),
        (MonitorRecord::Commit(tx), 2, COMMIT),
        (MonitorRecord::Abort(tx), 2, changed(&COMMIT, &[(0, 3)])),
    ] {
        let mut bytes = [0xFF; 32];
        item.write(1, number, &mut bytes);
        assert_eq!(rt; bytes, want);
        assert_eq!(rt; MonitorRecord::read(1, &bytes, &rules), Ok((item, number)));
    }
}

#[test]
fn each_field_tells_its_offset(rt: HostRuntime) {
    let rules = rules(rt.alloc());
    for (bytes, at, byte, field) in [
        (&START, 0, 0, 0),
        (&START, 0, 4, 0),
        (&START, 3, 1, 1),
        (&START, 7, 0, 4),
        (&START, 9, 1, 8),
        (&START, 11, 1, 10),
        (&START, 12, 1, 12),
        (&START, 15, 1, 13),
        (&START, 31, 1, 24),
        (&COMMIT, 2, 1, 1),
        (&COMMIT, 7, 0, 4),
        (&COMMIT, 9, 0, 8),
        (&COMMIT, 9, 17, 8),
        (&COMMIT, 11, 0, 10),
        (&COMMIT, 10, 16, 10),
        (&COMMIT, 12, 0, 12),
        (&COMMIT, 12, 9, 12),
        (&COMMIT, 13, 1, 13),
        (&COMMIT, 24, 1, 24),
    ] {
        let bytes = changed(bytes, &[(at, byte)]);
        assert_eq!(rt;
            MonitorRecord::read(1, &bytes, &rules),
            Err(field),
            "{byte} at {at}"
        );
    }
}

/// What the reader says of a record at place 1, or of one at place 3 behind `START` and `COMMIT`.
fn told(alloc: Global, place: u128, bytes: &[u8; 32]) -> Result<MonitorRecord, OrderFault> {
    let rules = rules(alloc);
    let mut order = MonitorRecord::begin(alloc);
    if place != 1 {
        MonitorRecord::read_next(&mut order, 1, 1, &START, &rules)?;
        MonitorRecord::read_next(&mut order, 1, 2, &COMMIT, &rules)?;
    }
    MonitorRecord::read_next(&mut order, 1, place, bytes, &rules)
}

#[test]
fn order_is_kept(rt: HostRuntime) {
    let next = changed(&COMMIT, &[(11, 4), (23, 3)]);
    for (place, bytes, at, kind) in [
        (1, changed(&START, &[(0, 2)]), 0, DamageKind::NoStart),
        (1, changed(&START, &[(0, 7)]), 0, DamageKind::NoStart),
        (1, changed(&START, &[(7, 2)]), 0, DamageKind::NoStart),
        (1, changed(&START, &[(9, 1)]), 8, DamageKind::BadRecord),
        (1, changed(&START, &[(23, 2)]), 16, DamageKind::Order),
        (3, changed(&COMMIT, &[(23, 3)]), 4, DamageKind::BadRecord),
        (
            3,
            changed(&COMMIT, &[(0, 3), (13, 1)]),
            4,
            DamageKind::BadRecord,
        ),
        (3, changed(&COMMIT, &[(1, 1)]), 1, DamageKind::BadRecord),
        (3, changed(&next, &[(7, 2)]), 4, DamageKind::Order),
        (3, changed(&next, &[(23, 4)]), 16, DamageKind::Order),
        (3, changed(&START, &[(23, 3)]), 4, DamageKind::Order),
        (3, changed(&START, &[(7, 3), (23, 3)]), 4, DamageKind::Order),
    ] {
        assert_eq!(rt;
            told(rt.alloc(), place, &bytes),
            Err(OrderFault::Damaged { at, kind })
        );
    }
    assert!(rt; told(rt.alloc(), 1, &START).is_ok());
    assert!(rt; told(rt.alloc(), 3, &next).is_ok());
    assert!(rt; told(rt.alloc(), 3, &changed(&START, &[(7, 2), (23, 3)])).is_ok());
}
