//! What no clause says: a volume that is filled, and the label of a dump that is written by hand.
ghost use Rattle.std.specs.Prelude.{◌≡◌, length, IfOk};
ghost use Rattle.tmf_model.specs.Config.{IsDeclared, IsValidConfig};

use disk_model::{Bay, MemDisk};
use keyed_file::DumpLabel;
use rollforward::{RollError, fill, newest_dump};
use std::alloc::Global;
use std::test::Fail;
use tmf_model::{Config, FileLine, Key, Name, Sequence, Value, Volume};
use trail_files::{Damage, DamageKind};
use volume_recovery::volumes;

/// How many devices a bay has.
const DEVICES: usize = 21;

/// The trail A with the volume $D, on which lie the files F of 2 blocks and G of one.
pub(crate) fn config(alloc: Global) -> Result<Config, Fail>
    ensures valid { IfOk result IsValidConfig }
    ensures volumes { IfOk result (λ config. length config.volumes ≡ 1) }
    ensures files { IfOk result (λ config. length config.files ≡ 2) }
{
    let (Ok(a), Ok(d)) = (Name::new(b"A"), Name::new(b"$D")) else {
        return Err(Fail::new("no trail or volume is named"));
    };
    let (Ok(f), Ok(g)) = (Name::new(b"F"), Name::new(b"G")) else {
        return Err(Fail::new("no file is named"));
    };
    let volumes = vec![in alloc; Volume { name: d, trail: 1 }]?;
    let files = vec![in alloc;
        FileLine {
            name: f,
            volume: 1,
            blocks: 2
        },
        FileLine {
            name: g,
            volume: 1,
            blocks: 1
        },
    ]?;
    Ok(Config {
        trails: Sequence::new(vec![in alloc; a]?),
        volumes: Sequence::new(volumes),
        files: Sequence::new(files),
        cache: 64,
        car_count: 64,
        car_holds: 0,
        roll: 256,
        steps: 1000,
    })
}

/// A bay of empty devices, of which the volume's holds this file 1, and that of its dumps the other.
fn bay_of(alloc: Global, label: &[u8], dump: &[u8]) -> Result<Bay<MemDisk>, Fail> {
    let mut disks = Vec::new(alloc);
    for number in 0..DEVICES {
        let bytes = match number {
            5 => label,
            13 => dump,
            _ => &[],
        };
        let mut files = Vec::new(alloc);
        if !bytes.is_empty() {
            let mut file = Vec::new(alloc);
            file.extend_from_slice(bytes)?;
            files.push((1, file))?;
        }
        let Ok(disk) = MemDisk::from_files(alloc, files, 0, &[]) else {
            return Err(Fail::new("no device was made"));
        };
        disks.push(disk)?;
    }
    match Bay::new(alloc, disks) {
        Ok(bay) => Ok(bay),
        Err(_) => Err(Fail::new("no bay was made")),
    }
}

/// Puts a row of bytes in at an offset.
pub(crate) fn put_in(bytes: &mut [u8], at: usize, row: &[u8]) {
    for (place, &byte) in bytes.iter_mut().skip(at).zip(row) {
        *place = byte;
    }
}

/// The file of a dump's label: slot 1 is selected, and has this version, the volume 1, the body 3, the start 9 and the number 4.
pub(crate) fn dump_bytes(gate: u8, version: u8) -> [u8; 768] {
    let mut bytes = [0; 768];
    put_in(&mut bytes, 0, &[gate, 1]);
    put_in(&mut bytes, 512, &[version, 1, 3]);
    put_in(&mut bytes, 527, &[9]);
    put_in(&mut bytes, 535, &[4]);
    bytes
}

/// A record of a file, with a key and a value.
fn entry(file: u8, key: &[u8], value: &[u8]) -> Result<(u8, Key, Value), Fail> {
    match (Key::new(key), Value::new(value)) {
        (Ok(key), Ok(value)) => Ok((file, key, value)),
        _ => Err(Fail::new("no key or value")),
    }
}

/// Whether the file with this number lists these records, of a key and a value each.
pub(crate) fn lists(
    alloc: Global,
    bay: &mut Bay<MemDisk>,
    config: &Config,
    file: u8,
    records: &[(&[u8], &[u8])],
) -> bool
    requires config { IsValidConfig config.now }
    requires file { IsDeclared config.now.files file }
{
    match volumes::list_file(alloc, bay, config, file) {
        Ok(entries) => {
            entries.len() == records.len()
                && entries.iter().zip(records).all(|(one, other)| one.0.as_bytes() == other.0
                    && one.1.as_bytes() == other.1)
        }
        Err(_) => false,
    }
}

#[test]
fn a_lost_volume_is_filled(rt: HostRuntime) -> Result<(), Fail> {
    let alloc = rt.alloc();
    let config = config(alloc)?;
    let mut bay = bay_of(alloc, &[], &[])?;
    let records = [
        entry(1, b"1", b"b")?,
        entry(2, b"k", b"v")?,
        entry(1, b"0", b"a")?,
    ];
    assert_eq!(rt; fill(alloc, &mut bay, &config, 1, &records, 7), Ok(()));
    assert!(rt; lists(alloc, &mut bay, &config, 1, &[(b"0", b"a"), (b"1", b"b")]));
    assert!(rt; lists(alloc, &mut bay, &config, 2, &[(b"k", b"v")]));
    let mut label = [0; 768];
    put_in(&mut label, 0, &[1, 0]);
    put_in(&mut label, 256, &[1, 1, 1, 2]);
    put_in(&mut label, 271, &[7, 1, 0, 0, 2, 2, 0, 0, 1]);
    let fuses = bay.into_fuses();
    assert!(rt; fuses[5].device().bytes(1) == Some(label.as_slice()));
    Ok(())
}

#[test]
fn the_newest_dump_is_found(rt: HostRuntime) -> Result<(), Fail> {
    let alloc = rt.alloc();
    let config = config(alloc)?;
    let found = DumpLabel {
        volume: 1,
        body: 3,
        start: 9,
        sequence: 4,
    };
    let wrong_label = Damage {
        file: 1,
        at: 515,
        kind: DamageKind::BadLabel,
    };
    let wrong_dump = Damage {
        file: 1,
        at: 512,
        kind: DamageKind::BadLabel,
    };
    let cases = [
        ([0; 768], dump_bytes(1, 1), Ok(found)),
        (
            [0; 768],
            dump_bytes(1, 2),
            Err(RollError::Damaged(13, wrong_dump)),
        ),
        ([0; 768], dump_bytes(0, 1), Err(RollError::NoDump)),
        ([1; 768], dump_bytes(0, 1), Err(RollError::NoDump)),
        (
            [1; 768],
            dump_bytes(1, 1),
            Err(RollError::Damaged(5, wrong_label)),
        ),
        (
            [1; 768],
            dump_bytes(1, 2),
            Err(RollError::Damaged(5, wrong_label)),
        ),
    ];
    for (label, dump, told) in cases {
        let mut bay = bay_of(alloc, &label, &dump)?;
        assert_eq!(rt; newest_dump(alloc, &mut bay, &config, 1), told);
    }
    let mut bay = bay_of(alloc, &[], &dump_bytes(1, 1))?;
    assert_eq!(rt; fill(alloc, &mut bay, &config, 1, &[], 1), Ok(()));
    assert_eq!(rt;
        newest_dump(alloc, &mut bay, &config, 1),
        Err(RollError::NotLost)
    );
    Ok(())
}
