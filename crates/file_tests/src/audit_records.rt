//! Audit records byte by byte.
use std::alloc::{AllocError, Global};
use tmf_model::{BadWord, Key, Sequence, Transid, Value};
use trail_files::{AuditKind, AuditOrder, AuditRecord, DamageKind, OrderFault, Rules, Spelled};

/// The change of `k1` from absent to `v1`, by 1.1.1.1, at position 1 of disc 1.
const CHANGE: [u8; 128] = [
    1, 1, 1, 2, 0, 0, 0, 1, 0, 1, 0, 1, 1, 0, 2, 0, 0, 0, 0, 0, 0, 0, 0, 1, 0x6B, 0x31, 0, 0, 0, 0,
    0, 0, 0, 0, 0, 0, 0, 0, 0, 0, 0, 0, 0, 0, 0, 0, 0, 0, 0, 0, 0, 0, 0, 0, 0, 0, 0, 0, 0, 0, 0, 0,
    0, 0, 0, 0, 0, 0, 0, 0, 0, 0, 0, 0, 0, 0, 0, 0, 0, 0, 0x76, 0x31, 0, 0, 0, 0, 0, 0, 0, 0, 0, 0,
    0, 0, 0, 0, 0, 0, 0, 0, 0, 0, 0, 0, 0, 0, 0, 0, 0, 0, 0, 0, 0, 0, 0, 0, 0, 0, 0, 0, 0, 0, 0, 0,
    0, 0, 0, 0,
];

/// Discs 1 and 3, with the files 1 and 2.
fn rules(alloc: Global) -> Result<Rules, AllocError> {
    Ok(Rules {
        roll: 65536,
        trail: 1,
        discs: Sequence::new(vec![in alloc; 1, 3]?),
        files: Sequence::new(vec![in alloc; (1, 1), (2, 3)]?),
    })
}

fn change() -> Result<AuditRecord, BadWord> {
    Ok(AuditRecord {
        kind: AuditKind::Change,
        disc: 1,
        file: 1,
        tx: Transid {
            epoch: 1,
            worker: 1,
            ordinal: 1,
            attempt: 1,
        },
        position: 1,
        key: Key::new(b"k1")?,
        before: None,
        after: Some(Value::new(b"v1")?),
    })
}

/// The bytes with some of them changed.
fn changed(changes: &[(usize, u8)]) -> [u8; 128] {
    let mut all = CHANGE;
    for &(at, byte) in changes {
        if let Some(place) = all.get_mut(at) {
            *place = byte;
        }
    }
    all
}

#[test]
fn record_has_these_bytes(rt: HostRuntime) {
    let rules = rules(rt.alloc()).expect(&rt, "memory");
    let item = change().expect(&rt, "words");
    let mut bytes = [0xFF; 128];
    item.write(1, item.number(7), &mut bytes);
    assert!(rt; bytes == CHANGE);
    assert!(rt; AuditRecord::read(1, &bytes, &rules) == Ok((item, 1)));
    let mut images = AuditRecord {
        kind: AuditKind::Undo,
        ..item
    };
    images.before = images.after;
    images.after = None;
    images.write(1, 1, &mut bytes);
    let moved = [
        (0, 2),
        (13, 2),
        (14, 0),
        (40, 0x76),
        (41, 0x31),
        (80, 0),
        (81, 0),
    ];
    assert!(rt; bytes == changed(&moved));
}

fn bad_field(bytes: &[u8; 128], rules: &Rules) -> Option<u32> {
    match AuditRecord::read(1, bytes, rules) {
        Ok(_) => None,
        Err(at) => Some(at),
    }
}

#[test]
fn each_field_tells_its_offset(rt: HostRuntime) {
    let rules = rules(rt.alloc()).expect(&rt, "memory");
    for (at, byte, field) in [
        (0, 0, 0),
        (0, 3, 0),
        (1, 2, 1),
        (1, 3, 2),
        (2, 2, 2),
        (3, 0, 3),
        (3, 17, 3),
        (7, 0, 4),
        (9, 0, 8),
        (9, 17, 8),
        (11, 0, 10),
        (10, 16, 10),
        (12, 0, 12),
        (12, 9, 12),
        (13, 41, 13),
        (14, 41, 14),
        (14, 0, 14),
        (15, 1, 15),
        (23, 0, 16),
        (16, 0x40, 16),
        (24, 0x20, 24),
        (25, 0x7F, 24),
        (26, 0x21, 24),
        (3, 1, 24),
        (13, 1, 40),
        (79, 1, 40),
        (80, 0x20, 80),
        (119, 1, 80),
        (120, 1, 120),
        (127, 1, 120),
    ] {
        let told = bad_field(&changed(&[(at, byte)]), &rules);
        assert_eq!(rt; told, Some(field), "{byte} at {at}");
    }
}

fn fault_of(order: &mut AuditOrder, bytes: &[u8; 128], rules: &Rules) -> Option<OrderFault> {
    match AuditRecord::read_next(order, 1, 1, bytes, rules) {
        Ok(_) => None,
        Err(fault) => Some(fault),
    }
}

#[test]
fn positions_have_no_gap(rt: HostRuntime) {
    let rules = rules(rt.alloc()).expect(&rt, "memory");
    let mut order = AuditRecord::begin(rt.alloc());
    let gap = Some(OrderFault::Damaged {
        at: 16,
        kind: DamageKind::Order,
    });
    for (disc, file, position, fault) in [
        (1, 1, 5, None),
        (1, 1, 5, gap),
        (1, 1, 7, gap),
        (3, 2, 9, None),
        (1, 1, 6, None),
        (3, 2, 10, None),
    ] {
        let bytes = changed(&[(1, disc), (2, file), (23, position)]);
        let told = fault_of(&mut order, &bytes, &rules);
        assert_eq!(rt; told, fault, "{position} on {disc}");
    }
    assert!(rt; AuditRecord::may_end(&order));
}
