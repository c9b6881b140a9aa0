//! What no clause says: a volume that is made anew, one that is lost, and one that is listed, by bytes written by hand.
ghost use Rattle.std.specs.Prelude.{◌≡◌, ◌≤◌, length, IfOk};
ghost use Rattle.tmf_model.specs.Config.{IsValidConfig};

use disk_model::{Disk, MemDisk};
use std::alloc::Global;
use std::test::Fail;
use tmf_model::{Config, FileLine, Key, Name, Sequence, Value, Volume};
use trail_files::{Damage, DamageKind};
use volume_restore::{ListFault, clear_dump, format_volume, list_volume, lose_volume};

/// The trail A with the volume $D, on which lie the files F of 2 blocks and G of one.
fn config(alloc: Global) -> Result<Config, Fail>
    ensures valid { IfOk result IsValidConfig }
    ensures volumes { IfOk result (λ config. length config.volumes ≡ 1) }
    ensures files { IfOk result (λ config. length config.files ≡ 2) }
{
    let (Ok(a), Ok(d)) = (Name::new(b"A"), Name::new(b"$D")) else {
        return Err(Fail::new("no trail or volume is named"));
    };
    let (Ok(f), Ok(g)) = (Name::new(b"F"), Name::new(b"G")) else {
        return Err(Fail::new("no file is named"));
    };
    let volumes = vec![in alloc; Volume { name: d, trail: 1 }]?;
    let files = vec![in alloc;
        FileLine {
            name: f,
            volume: 1,
            blocks: 2
        },
        FileLine {
            name: g,
            volume: 1,
            blocks: 1
        },
    ]?;
    Ok(Config {
        trails: Sequence::new(vec![in alloc; a]?),
        volumes: Sequence::new(volumes),
        files: Sequence::new(files),
        cache: 64,
        car_count: 64,
        car_holds: 0,
        roll: 256,
        steps: 1000,
    })
}

/// Puts a row of bytes in at an offset.
fn put_in(bytes: &mut [u8], at: usize, row: &[u8]) {
    for (place, &byte) in bytes.iter_mut().skip(at).zip(row) {
        *place = byte;
    }
}

/// A label's file whose selector names slot 1. There the low position is 5 and both files are named; slot 0 has zeros.
fn label_bytes(gate: u8) -> [u8; 768] {
    let mut bytes = [0; 768];
    put_in(&mut bytes, 0, &[gate, 1]);
    put_in(&mut bytes, 512, &[1, 1, 1, 2]);
    put_in(&mut bytes, 527, &[5, 1, 0, 0, 2, 2, 0, 0, 1]);
    bytes
}

/// A slot of the file F: a block with this number, and records with keys and values of one letter.
fn slot_bytes(version: u8, number: u8, records: &[(u8, u8)]) -> [u8; 4096]
    requires { length records.now ≤ 62 }
{
    let mut bytes = [0; 4096];
    put_in(&mut bytes, 0, &[version, 0, 1, 0, 0, number]);
    put_in(&mut bytes, 17, &[records.len() as u8]);
    for (index, (key, value)) in records.iter().enumerate() {
        put_in(&mut bytes[128 + 64 * index..], 0, &[1, 1]);
        put_in(&mut bytes[128 + 64 * index..], 8, &[*key]);
        put_in(&mut bytes[128 + 64 * index..], 24, &[*value]);
    }
    bytes
}

/// A device with a volume whose label has this gate, and whose block 1 of the file F has this version. Of block 0 slot 1 is
/// selected, of block 1 slot 0.
fn disk(alloc: Global, gate: u8, version: u8) -> Result<MemDisk, Fail> {
    let mut label = Vec::new(alloc);
    label.extend_from_slice(&label_bytes(gate))?;
    let mut selectors = [0; 256];
    put_in(&mut selectors, 0, &[1]);
    let mut file = Vec::new(alloc);
    file.extend_from_slice(&selectors)?;
    file.extend_from_slice(&slot_bytes(1, 0, &[(b'0', b'x')]))?;
    file.extend_from_slice(&slot_bytes(1, 0, &[(b'0', b'a'), (b'2', b'c')]))?;
    file.extend_from_slice(&slot_bytes(version, 1, &[(b'1', b'b')]))?;
    file.extend_from_slice(&slot_bytes(1, 1, &[(b'3', b'y')]))?;
    match MemDisk::from_files(alloc, vec![in alloc; (1, label), (2, file)]?, 0, &[]) {
        Ok(disk) => Ok(disk),
        Err(_) => Err(Fail::new("no device was made")),
    }
}

/// Whether the record has this key and this value, each of one letter.
fn is_record(record: &(Key, Value), key: u8, value: u8) -> bool {
    record.0.as_bytes() == [key].as_slice() && record.1.as_bytes() == [value].as_slice()
}

#[test]
fn a_new_volume_has_its_label_and_no_records(rt: HostRuntime) -> Result<(), Fail> {
    let alloc = rt.alloc();
    let config = config(alloc)?;
    let mut disk = MemDisk::new(alloc, 0, &[])?;
    assert!(rt; format_volume(alloc, &mut disk, &config, 1).is_ok());
    let mut label = [0; 768];
    put_in(&mut label, 0, &[1, 0]);
    put_in(&mut label, 256, &[1, 1, 1, 2]);
    put_in(&mut label, 271, &[1, 1, 0, 0, 2, 2, 0, 0, 1]);
    assert!(rt; disk.bytes(1) == Some(label.as_slice()));
    let one = list_volume(alloc, &mut disk, &config, 1);
    assert!(rt; one.is_ok_and(|entries| entries.is_empty()));
    let two = list_volume(alloc, &mut disk, &config, 2);
    assert!(rt; two.is_ok_and(|entries| entries.is_empty()));
    Ok(())
}

/// A device with a label and two data files, whose call with this number fails, counted from 0.
fn failing(alloc: Global, call: u64) -> Result<MemDisk, Fail> {
    let mut label = Vec::new(alloc);
    label.extend_from_slice(&label_bytes(1))?;
    let files = vec![in alloc;
        (1, label),
        (2, vec![in alloc; 2u8]?),
        (3, vec![in alloc; 3u8]?),
    ]?;
    match MemDisk::from_files(alloc, files, 0, &[call]) {
        Ok(disk) => Ok(disk),
        Err(_) => Err(Fail::new("no device was made")),
    }
}

#[test]
fn a_new_volume_that_is_lost_has_no_file(rt: HostRuntime) -> Result<(), Fail> {
    let alloc = rt.alloc();
    let config = config(alloc)?;
    let mut disk = MemDisk::new(alloc, 0, &[])?;
    assert!(rt; format_volume(alloc, &mut disk, &config, 1).is_ok());
    assert!(rt; lose_volume(&mut disk).is_ok());
    assert!(rt; disk.least() == Ok(None));
    assert!(rt; list_volume(alloc, &mut disk, &config, 1).err() == Some(ListFault::Lost));
    assert!(rt; lose_volume(&mut disk).is_ok());
    Ok(())
}

#[test]
fn a_loss_that_fails_behind_the_label_loses_the_volume(rt: HostRuntime) -> Result<(), Fail> {
    let alloc = rt.alloc();
    let config = config(alloc)?;
    let mut kept = failing(alloc, 0)?;
    assert!(rt; lose_volume(&mut kept).is_err());
    assert!(rt; kept.bytes(1).is_some());
    for call in 2..7 {
        let mut disk = failing(alloc, call)?;
        assert!(rt; lose_volume(&mut disk).is_err());
        assert!(rt; disk.bytes(1).is_none());
        assert!(rt; list_volume(alloc, &mut disk, &config, 1).err() == Some(ListFault::Lost));
        assert!(rt; lose_volume(&mut disk).is_ok());
        assert!(rt; disk.least() == Ok(None));
    }
    Ok(())
}

#[test]
fn a_listing_has_the_records_of_the_selected_slots(rt: HostRuntime) -> Result<(), Fail> {
    let alloc = rt.alloc();
    let config = config(alloc)?;
    let mut disk = disk(alloc, 1, 1)?;
    let Ok(entries) = list_volume(alloc, &mut disk, &config, 1) else {
        return Err(Fail::new("no listing"));
    };
    assert!(rt; entries.len() == 3);
    assert!(rt; is_record(&entries[0], b'0', b'a') && is_record(&entries[1], b'1', b'b'));
    assert!(rt; is_record(&entries[2], b'2', b'c'));
    Ok(())
}

#[test]
fn a_damaged_file_is_not_listed(rt: HostRuntime) -> Result<(), Fail> {
    let alloc = rt.alloc();
    let config = config(alloc)?;
    let mut lost = disk(alloc, 2, 1)?;
    assert!(rt; list_volume(alloc, &mut lost, &config, 1).err() == Some(ListFault::Lost));
    let mut wrong = disk(alloc, 1, 7)?;
    let damage = Damage {
        file: 2,
        at: 8448,
        kind: DamageKind::BadBlock,
    };
    assert!(rt;
        list_volume(alloc, &mut wrong, &config, 1).err() == Some(ListFault::Damaged(damage))
    );
    Ok(())
}

#[test]
fn a_cleared_dump_device_has_no_dump(rt: HostRuntime) -> Result<(), Fail> {
    let alloc = rt.alloc();
    let files = vec![in alloc;
        (1, vec![in alloc; 1u8]?),
        (2, vec![in alloc; 2u8]?),
        (3, vec![in alloc; 3u8]?),
        (7, vec![in alloc; 7u8]?),
    ]?;
    let Ok(mut disk) = MemDisk::from_files(alloc, files, 0, &[]) else {
        return Err(Fail::new("no device was made"));
    };
    assert!(rt; clear_dump(&mut disk).is_ok());
    assert!(rt; disk.bytes(1).is_none() && disk.bytes(2).is_none() && disk.bytes(3).is_none());
    assert!(rt; disk.bytes(7) == Some([7u8].as_slice()));
    Ok(())
}
