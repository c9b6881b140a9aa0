//! What no clause says: a volume that is rolled forward from bytes written by hand, and what of them is told as damaged.
ghost use Rattle.std.specs.Prelude.{◌<◌};

use crate::fills::{config, dump_bytes, lists, put_in};
use disk_model::{Bay, MemDisk};
use rollforward::{RollError, fill, roll_forward};
use std::alloc::Global;
use std::test::Fail;
use trail_files::{Damage, DamageKind};
use volume_recovery::volumes;

/// How many devices a bay has.
const DEVICES: usize = 21;

/// The bytes of a body of three blocks.
const BODY: usize = 12_288;

/// A monitor record: its kind (1 is a start, 2 a commit), its epoch and the item's ordinal.
type Told = (u8, u32, u16);

/// An audit record: its file, the epoch and ordinal of its transaction, its position, its key, and the values before and after, of which "" is none.
type Changed = (u8, u32, u16, u64, &'static str, &'static str, &'static str);

/// A bay of devices with these files, each of a device, a number and bytes.
fn bay_with(alloc: Global, files: &[(usize, u32, &[u8])]) -> Result<Bay<MemDisk>, Fail> {
    let mut disks = Vec::new(alloc);
    for number in 0..DEVICES {
        let mut own = Vec::new(alloc);
        for (device, file, bytes) in files {
            if *device == number {
                let mut copy = Vec::new(alloc);
                copy.extend_from_slice(bytes)?;
                own.push((*file, copy))?;
            }
        }
        let Ok(disk) = MemDisk::from_files(alloc, own, 0, &[]) else {
            return Err(Fail::new("no device was made"));
        };
        disks.push(disk)?;
    }
    match Bay::new(alloc, disks) {
        Ok(bay) => Ok(bay),
        Err(_) => Err(Fail::new("no bay was made")),
    }
}

/// The gate and head of a batch of one record.
fn push_head(bytes: &mut Vec<u8>) -> Result<(), Fail> {
    bytes.extend_from_slice(&[1, 1, 0, 0, 0, 0, 0, 1, 0, 0, 0, 0, 0, 0, 0, 0])?;
    Ok(())
}

/// A word and zeros up to a width.
fn push_word(bytes: &mut Vec<u8>, word: &str, width: usize) -> Result<(), Fail> {
    bytes.extend_from_slice(word.as_bytes())?;
    for _ in word.len()..width {
        bytes.push(0)?;
    }
    Ok(())
}

/// The length of a word in a byte.
fn width_of(word: &str) -> u8 {
    u8::try_from(word.len()).unwrap_or(0)
}

/// The text of a monitor trail of three epochs, each record in a batch of its own.
fn monitor_text(alloc: Global) -> Result<Vec<u8>, Fail> {
    let records: [Told; 5] = [(1, 1, 0), (2, 1, 1), (1, 2, 0), (2, 2, 1), (1, 3, 0)];
    let mut bytes = Vec::new(alloc);
    for (index, (kind, epoch, ordinal)) in records.iter().enumerate() {
        let item = if *kind == 1 { 0 } else { 1 };
        push_head(&mut bytes)?;
        bytes.extend_from_slice(&[*kind, 0, 0, 0])?;
        bytes.extend_from_slice(&epoch.to_be_bytes())?;
        bytes.extend_from_slice(&[0, item])?;
        bytes.extend_from_slice(&ordinal.to_be_bytes())?;
        bytes.extend_from_slice(&[item, 0, 0, 0])?;
        bytes.extend_from_slice(&(index as u64 + 1).to_be_bytes())?;
        bytes.extend_from_slice(&[0; 8])?;
    }
    bytes.push(0)?;
    Ok(bytes)
}

/// The text of the volume's trail, each record in a batch of its own. The last transaction is not committed.
fn audit_text(alloc: Global) -> Result<Vec<u8>, Fail> {
    let records: [Changed; 4] = [
        (1, 1, 1, 1, "k", "", "1"),
        (1, 1, 1, 2, "j", "", "2"),
        (1, 2, 1, 3, "k", "1", "3"),
        (2, 2, 2, 4, "m", "", "4"),
    ];
    let mut bytes = Vec::new(alloc);
    for (file, epoch, ordinal, position, key, before, after) in records {
        push_head(&mut bytes)?;
        bytes.extend_from_slice(&[1, 1, file, width_of(key)])?;
        bytes.extend_from_slice(&epoch.to_be_bytes())?;
        bytes.extend_from_slice(&[0, 1])?;
        bytes.extend_from_slice(&ordinal.to_be_bytes())?;
        bytes.extend_from_slice(&[1, width_of(before), width_of(after), 0])?;
        bytes.extend_from_slice(&position.to_be_bytes())?;
        push_word(&mut bytes, key, 16)?;
        push_word(&mut bytes, before, 40)?;
        push_word(&mut bytes, after, 40)?;
        bytes.extend_from_slice(&[0; 8])?;
    }
    bytes.push(0)?;
    Ok(bytes)
}

/// Puts a block in that has one record, behind the disc's first record.
fn put_block(body: &mut [u8], at: usize, file: u8, number: u8, key: &str, value: &str)
    requires { at < 65536 }
{
    put_in(body, at, &[1, 0, file, 0, 0, number]);
    put_in(body, at + 15, &[1, 0, 1]);
    put_in(body, at + 128, &[width_of(key), width_of(value)]);
    put_in(body, at + 136, key.as_bytes());
    put_in(body, at + 152, value.as_bytes());
}

/// A dump from before the second record: each block is from a moment of its own, and the last has a change that was never committed.
fn body_bytes() -> [u8; BODY] {
    let mut body = [0; BODY];
    put_in(&mut body, 0, &[1, 0, 1]);
    put_block(&mut body, 4096, 1, 1, "k", "1");
    put_block(&mut body, 8192, 2, 0, "m", "4");
    body
}

/// The label of this dump, whose start is 2.
fn label_bytes() -> [u8; 768] {
    let mut label = dump_bytes(1, 1);
    put_in(&mut label, 527, &[2]);
    label
}

#[test]
fn a_lost_volume_is_rolled_forward(rt: HostRuntime) -> Result<(), Fail> {
    let alloc = rt.alloc();
    let config = config(alloc)?;
    let monitor = monitor_text(alloc)?;
    let audit = audit_text(alloc)?;
    let body = body_bytes();
    let label = label_bytes();
    let mut bay = bay_with(
        alloc,
        &[
            (0, 1, &monitor),
            (1, 1, &audit),
            (13, 1, &label),
            (13, 3, &body),
        ],
    )?;
    assert_eq!(rt; roll_forward(alloc, &mut bay, &config, 1), Ok(5));
    assert!(rt; lists(alloc, &mut bay, &config, 1, &[(b"j", b"2"), (b"k", b"3")]));
    assert!(rt; lists(alloc, &mut bay, &config, 2, &[]));
    assert_eq!(rt;
        roll_forward(alloc, &mut bay, &config, 1),
        Err(RollError::NotLost)
    );
    let recovered = volumes::recover(alloc, &mut bay, &config);
    assert!(rt; recovered.is_ok_and(|recovered| recovered.lost.is_empty()));
    assert!(rt; lists(alloc, &mut bay, &config, 1, &[(b"j", b"2"), (b"k", b"3")]));
    let mut kept = bay_with(alloc, &[(0, 1, &monitor), (1, 1, &audit)])?;
    assert_eq!(rt; fill(alloc, &mut kept, &config, 1, &[], 1), Ok(()));
    assert!(rt; volumes::recover(alloc, &mut kept, &config).is_ok());
    assert!(rt; lists(alloc, &mut kept, &config, 1, &[(b"j", b"2"), (b"k", b"3")]));
    assert!(rt; lists(alloc, &mut kept, &config, 2, &[]));
    Ok(())
}

/// The first so many bytes.
fn front_of(alloc: Global, bytes: &[u8], count: usize) -> Result<Vec<u8>, Fail> {
    let mut front = Vec::new(alloc);
    for byte in bytes.iter().take(count) {
        front.push(*byte)?;
    }
    Ok(front)
}

#[test]
fn the_first_damage_is_told(rt: HostRuntime) -> Result<(), Fail> {
    let alloc = rt.alloc();
    let config = config(alloc)?;
    let monitor = monitor_text(alloc)?;
    let audit = audit_text(alloc)?;
    let body = body_bytes();
    let front = front_of(alloc, &body, 9000)?;
    let label = label_bytes();
    let mut wrong = [2; 64];
    put_in(&mut wrong, 0, &[1]);
    let mut without = bay_with(alloc, &[(0, 1, &wrong), (13, 1, &label)])?;
    let absent = Damage {
        file: 3,
        at: 0,
        kind: DamageKind::BadBlock,
    };
    assert_eq!(rt;
        roll_forward(alloc, &mut without, &config, 1),
        Err(RollError::Damaged(13, absent))
    );
    let mut short = bay_with(alloc, &[(0, 1, &wrong), (13, 1, &label), (13, 3, &front)])?;
    let cut = Damage { at: 9000, ..absent };
    assert_eq!(rt;
        roll_forward(alloc, &mut short, &config, 1),
        Err(RollError::Damaged(13, cut))
    );
    let mut no_list = bay_with(
        alloc,
        &[
            (0, 1, &wrong),
            (1, 1, &wrong),
            (13, 1, &label),
            (13, 3, &body),
        ],
    )?;
    assert!(rt;
        matches!(
            roll_forward(alloc, &mut no_list, &config, 1),
            Err(RollError::Damaged(0, _))
        )
    );
    let mut no_audit = bay_with(
        alloc,
        &[
            (0, 1, &monitor),
            (1, 1, &wrong),
            (13, 1, &label),
            (13, 3, &body),
        ],
    )?;
    assert!(rt;
        matches!(
            roll_forward(alloc, &mut no_audit, &config, 1),
            Err(RollError::Damaged(1, _))
        )
    );
    let mut whole = bay_with(
        alloc,
        &[
            (0, 1, &monitor),
            (1, 1, &audit),
            (13, 1, &label),
            (13, 3, &body),
        ],
    )?;
    assert!(rt; roll_forward(alloc, &mut whole, &config, 1).is_ok());
    Ok(())
}
