//! What no clause says: trails that are written by hand as bytes, and device calls that fail one by one.
ghost use Rattle.std.specs.Prelude.{◌≡◌, length, IfOk};
ghost use Rattle.tmf_model.specs.Config.{IsDeclared, IsValidConfig};

use disk_model::{Bay, MemDisk};
use std::alloc::Global;
use std::process::Abort;
use std::test::Fail;
use tmf_model::{Config, FileLine, Name, Sequence, Transid, Volume};
use trail_files::{Damage, DamageKind, MonitorRecord, Trail};
use trail_replay::{rules_of_monitor, rules_of_trail};
use volume_recovery::{ListError, RecoverError, land, volumes};

/// How many devices a bay has.
const DEVICES: usize = 21;

/// A monitor record: its kind (1 is a start, 2 a commit, 3 an abort), its epoch and the item's ordinal.
type Told = (u8, u32, u16);

/// An audit record: its kind (1 is a change, 2 one taken back), its disc and file, the epoch and ordinal of its transaction,
/// its position, its key, and the values before and after, of which "" is none.
type Changed = (
    u8,
    u8,
    u8,
    u32,
    u16,
    u64,
    &'static str,
    &'static str,
    &'static str,
);

/// Two trails A and B, with the volumes $D and $E, on which lie the files F and G.
fn config(alloc: Global) -> Result<Config, Fail>
    ensures valid { IfOk result IsValidConfig }
    ensures files { IfOk result (λ config. length config.files ≡ 2) }
{
    let (Ok(a), Ok(b)) = (Name::new(b"A"), Name::new(b"B")) else {
        return Err(Fail::new("no trail is named"));
    };
    let (Ok(d), Ok(e)) = (Name::new(b"$D"), Name::new(b"$E")) else {
        return Err(Fail::new("no volume is named"));
    };
    let (Ok(f), Ok(g)) = (Name::new(b"F"), Name::new(b"G")) else {
        return Err(Fail::new("no file is named"));
    };
    let volumes = vec![in alloc; Volume { name: d, trail: 1 }, Volume { name: e, trail: 2 }]?;
    let files = vec![in alloc;
        FileLine {
            name: f,
            volume: 1,
            blocks: 1
        },
        FileLine {
            name: g,
            volume: 2,
            blocks: 1
        },
    ]?;
    Ok(Config {
        trails: Sequence::new(vec![in alloc; a, b]?),
        volumes: Sequence::new(volumes),
        files: Sequence::new(files),
        cache: 64,
        car_count: 64,
        car_holds: 0,
        roll: 256,
        steps: 1000,
    })
}

/// A device with this text as its file 1, whose calls with these numbers fail.
fn disk(alloc: Global, text: Vec<u8>, choice: u64, fails: &[u64]) -> Result<MemDisk, Fail> {
    match MemDisk::from_files(alloc, vec![in alloc; (1, text)]?, choice, fails) {
        Ok(disk) => Ok(disk),
        Err(_) => Err(Fail::new("no device was made")),
    }
}

/// A bay with these devices first.
fn bay_of(alloc: Global, first: Vec<MemDisk>) -> Result<Bay<MemDisk>, Fail> {
    let mut disks = first;
    for _ in disks.len()..DEVICES {
        disks.push(MemDisk::new(alloc, 0, &[])?)?;
    }
    match Bay::new(alloc, disks) {
        Ok(bay) => Ok(bay),
        Err(_) => Err(Fail::new("no bay was made")),
    }
}

/// The gate and head of a batch of one record.
fn push_head(bytes: &mut Vec<u8>) -> Result<(), Fail> {
    bytes.extend_from_slice(&[1, 1, 0, 0, 0, 0, 0, 1, 0, 0, 0, 0, 0, 0, 0, 0])?;
    Ok(())
}

/// The text of a monitor trail, each record in a batch of its own.
fn monitor_text(alloc: Global, records: &[Told]) -> Result<Vec<u8>, Fail> {
    let mut bytes = Vec::new(alloc);
    for (index, (kind, epoch, ordinal)) in records.iter().enumerate() {
        let item = if *kind == 1 { 0 } else { 1 };
        push_head(&mut bytes)?;
        bytes.extend_from_slice(&[*kind, 0, 0, 0])?;
        bytes.extend_from_slice(&epoch.to_be_bytes())?;
        bytes.extend_from_slice(&[0, item])?;
        bytes.extend_from_slice(&ordinal.to_be_bytes())?;
        bytes.extend_from_slice(&[item, 0, 0, 0])?;
        bytes.extend_from_slice(&(index as u64 + 1).to_be_bytes())?;
        bytes.extend_from_slice(&[0; 8])?;
    }
    bytes.push(0)?;
    Ok(bytes)
}

/// A word and zeros up to a width.
fn push_word(bytes: &mut Vec<u8>, word: &str, width: usize) -> Result<(), Fail> {
    bytes.extend_from_slice(word.as_bytes())?;
    for _ in word.len()..width {
        bytes.push(0)?;
    }
    Ok(())
}

/// The length of a word in a byte.
fn width_of(word: &str) -> u8 {
    u8::try_from(word.len()).unwrap_or(0)
}

/// The text of an audit trail, each record in a batch of its own.
fn audit_text(alloc: Global, records: &[Changed]) -> Result<Vec<u8>, Fail> {
    let mut bytes = Vec::new(alloc);
    for (kind, disc, file, epoch, ordinal, position, key, before, after) in records {
        push_head(&mut bytes)?;
        bytes.extend_from_slice(&[*kind, *disc, *file, width_of(key)])?;
        bytes.extend_from_slice(&epoch.to_be_bytes())?;
        bytes.extend_from_slice(&[0, 1])?;
        bytes.extend_from_slice(&ordinal.to_be_bytes())?;
        bytes.extend_from_slice(&[1, width_of(before), width_of(after), 0])?;
        bytes.extend_from_slice(&position.to_be_bytes())?;
        push_word(&mut bytes, key, 16)?;
        push_word(&mut bytes, before, 40)?;
        push_word(&mut bytes, after, 40)?;
        bytes.extend_from_slice(&[0; 8])?;
    }
    bytes.push(0)?;
    Ok(bytes)
}

/// A device with the files 1 to 3 of this one.
fn copied(alloc: Global, from: &MemDisk) -> Result<MemDisk, Fail> {
    let mut files = Vec::new(alloc);
    for number in 1..4u32 {
        if let Some(bytes) = from.bytes(number) {
            let mut copy = Vec::new(alloc);
            copy.extend_from_slice(bytes)?;
            files.push((number, copy))?;
        }
    }
    match MemDisk::from_files(alloc, files, 0, &[]) {
        Ok(disk) => Ok(disk),
        Err(_) => Err(Fail::new("no device was made")),
    }
}

/// A bay whose first three devices hold these trails, with the volumes $D and $E as they were formatted, or this device as that of $E.
fn node(
    alloc: Global,
    config: &Config,
    monitor: &[Told],
    first: &[Changed],
    second: &[Changed],
    other: Option<MemDisk>,
) -> Result<Bay<MemDisk>, Fail>
    requires { IsValidConfig config.now }
{
    let mut made = bay_of(alloc, Vec::new(alloc))?;
    let Ok(()) = volumes::format_node(alloc, &mut made, config) else {
        return Err(Fail::new("no node was made"));
    };
    let fuses = made.into_fuses();
    let mut disks = Vec::new(alloc);
    disks.push(disk(alloc, monitor_text(alloc, monitor)?, 0, &[])?)?;
    disks.push(disk(alloc, audit_text(alloc, first)?, 0, &[])?)?;
    disks.push(disk(alloc, audit_text(alloc, second)?, 0, &[])?)?;
    disks.push(MemDisk::new(alloc, 0, &[])?)?;
    disks.push(MemDisk::new(alloc, 0, &[])?)?;
    disks.push(copied(alloc, fuses[5].device())?)?;
    match other {
        Some(device) => disks.push(device)?,
        None => disks.push(copied(alloc, fuses[6].device())?)?,
    }
    bay_of(alloc, disks)
}

/// The attempt at an item of the one worker.
fn attempt(epoch: u32, ordinal: u16) -> Transid {
    Transid {
        epoch,
        worker: 1,
        ordinal,
        attempt: 1,
    }
}

/// The listing of a file as one text.
fn listed(alloc: Global, bay: &mut Bay<MemDisk>, config: &Config, file: u8) -> Result<String, Fail>
    requires valid { IsValidConfig config.now }
    requires declared { IsDeclared config.now.files file }
{
    let mut text = String::new(alloc);
    let Ok(entries) = volumes::list_file(alloc, bay, config, file) else {
        return Err(Fail::new("no file was listed"));
    };
    for (key, value) in entries.iter() {
        text.push_str(key.as_str())?;
        text.push_str("=")?;
        text.push_str(value.as_str())?;
        text.push_str(" ")?;
    }
    Ok(text)
}

#[test]
fn a_formatted_node_is_recovered_and_listed(rt: HostRuntime) -> Result<(), Fail> {
    let alloc = rt.alloc();
    let config = config(alloc)?;
    let mut bay = bay_of(alloc, Vec::new(alloc))?;
    assert_eq!(rt; volumes::format_node(alloc, &mut bay, &config), Ok(()));
    for epoch in 2..12 {
        let Ok(recovered) = volumes::recover(alloc, &mut bay, &config) else {
            return Err(Fail::new("the node was not recovered"));
        };
        assert_eq!(rt; recovered.epoch, epoch);
        assert!(rt; recovered.lost.is_empty());
        let records = recovered.records.as_slice();
        assert_eq!(rt; records.last(), Some(&MonitorRecord::Start(epoch - 1)));
        assert_eq!(rt; records.len(), epoch as usize - 1);
    }
    assert_eq!(rt; listed(alloc, &mut bay, &config, 1)?.as_str(), "");
    Ok(())
}

#[test]
fn a_batch_lands_on_a_monitor_trail(rt: HostRuntime) -> Result<(), Fail> {
    let alloc = rt.alloc();
    let config = config(alloc)?;
    let device = MemDisk::new(alloc, 0, &[])?;
    let rules = rules_of_monitor(alloc, config.roll);
    let Ok(mut trail) = Trail::<MemDisk, MonitorRecord>::format(alloc, device, rules) else {
        return Err(Fail::new("no trail was made"));
    };
    assert!(rt; land(&mut trail, &[MonitorRecord::Start(1)]).is_ok());
    let mut cursor = trail.cursor();
    let Ok(first) = trail.next(&mut cursor) else {
        return Err(Fail::new("no record was read"));
    };
    assert_eq!(rt; first, Some(MonitorRecord::Start(1)));
    Ok(())
}

#[test]
fn the_rules_of_a_trail_name_its_volumes_and_files(rt: HostRuntime) -> Result<(), Fail> {
    let alloc = rt.alloc();
    let config = config(alloc)?;
    let rules = rules_of_trail(alloc, &config, 2)?;
    assert_eq!(rt; rules.trail, 2);
    assert_eq!(rt; rules.discs.as_slice(), [2].as_slice());
    assert_eq!(rt; rules.files.as_slice(), [(2, 2)].as_slice());
    Ok(())
}

#[test]
fn files_have_the_last_committed_values(rt: HostRuntime) -> Result<(), Fail> {
    let alloc = rt.alloc();
    let config = config(alloc)?;
    let told = [(1, 1, 0), (2, 1, 1), (3, 1, 2), (1, 2, 0), (2, 2, 1)];
    let first: [Changed; 8] = [
        (1, 1, 1, 1, 1, 1, "k", "", "a"), // committed
        (1, 1, 1, 1, 2, 2, "k", "a", "b"), // aborted
        (2, 1, 1, 1, 2, 3, "k", "b", "a"), // and taken back
        (1, 1, 1, 1, 3, 4, "k", "a", "c"), // unfinished
        (1, 1, 1, 1, 3, 5, "b", "", "x"), // unfinished, of a key that was not there
        (1, 1, 1, 1, 3, 6, "a", "old", "new"), // unfinished, of one that was
        (1, 1, 1, 1, 4, 7, "a", "new", "newer"), // and once more
        (1, 1, 1, 2, 1, 8, "z", "gone", ""), // deleted in the second epoch
    ];
    let second: [Changed; 3] = [
        (1, 2, 2, 2, 1, 1, "k", "1", "2"), // committed in the second epoch
        (1, 2, 2, 2, 1, 2, "k", "2", "3"), // twice
        (1, 2, 2, 2, 2, 3, "m", "7", ""), // unfinished
    ];
    let mut bay = node(alloc, &config, &told, &first, &second, None)?;
    for epoch in 3..5 {
        let Ok(recovered) = volumes::recover(alloc, &mut bay, &config) else {
            return Err(Fail::new("the node was not recovered"));
        };
        assert_eq!(rt; recovered.epoch, epoch);
        assert!(rt; recovered.lost.is_empty());
        let commit = MonitorRecord::Commit(attempt(2, 1));
        assert_eq!(rt; recovered.records.as_slice().get(4), Some(&commit));
        assert_eq!(rt; listed(alloc, &mut bay, &config, 1)?.as_str(), "a=old k=a ");
        assert_eq!(rt; listed(alloc, &mut bay, &config, 2)?.as_str(), "k=3 m=7 ");
    }
    Ok(())
}

#[test]
fn the_first_damage_is_told(rt: HostRuntime) -> Result<(), Fail> {
    let alloc = rt.alloc();
    let config = config(alloc)?;
    let fine: [Changed; 1] = [(1, 1, 1, 1, 1, 1, "k", "", "a")];
    let wrong: [Changed; 1] = [(9, 1, 1, 1, 1, 1, "k", "", "a")];
    let damage = Damage {
        file: 1,
        at: 16,
        kind: DamageKind::BadRecord,
    };
    for (first, second, device) in [(&wrong, &wrong, 1), (&fine, &wrong, 2)] {
        let mut bay = node(alloc, &config, &[(1, 1, 0)], first, second, None)?;
        let told = volumes::recover(alloc, &mut bay, &config).err();
        assert_eq!(rt; told, Some(RecoverError::Damaged(device, damage)));
    }
    Ok(())
}

/// A recovery with a device call that fails, and the next one. It answers whether the first was refused.
fn recover_twice(
    rt: &impl Abort,
    alloc: Global,
    choice: u64,
    device: u8,
    call: u64,
) -> Result<bool, Fail> {
    let config = config(alloc)?;
    let told = [(1, 1, 0), (2, 1, 1), (1, 2, 0), (2, 2, 1), (3, 2, 2)];
    let mut disks = Vec::new(alloc);
    for n in 0..3u8 {
        let text = match n {
            0 => monitor_text(alloc, &told)?,
            1 => audit_text(alloc, &[(1, 1, 1, 1, 1, 1, "k", "", "a")])?,
            _ => audit_text(alloc, &[])?,
        };
        let fails = [call];
        let calls: &[u64] = if n == device { &fails } else { &[] };
        disks.push(disk(alloc, text, choice, calls)?)?;
    }
    let mut bay = bay_of(alloc, disks)?;
    let refused = match volumes::recover(alloc, &mut bay, &config) {
        Ok(recovered) => {
            assert_eq!(rt; recovered.epoch, 3);
            return Ok(false);
        }
        Err(error) => error,
    };
    assert_eq!(rt; refused, RecoverError::Failed(device));
    let Ok(recovered) = volumes::recover(alloc, &mut bay, &config) else {
        return Err(Fail::new("the node was not recovered again"));
    };
    let records = recovered.records.as_slice();
    let started = records.len() == told.len() + 1;
    assert!(rt; started || records.len() == told.len());
    assert_eq!(rt; recovered.epoch, if started { 4 } else { 3 });
    assert_eq!(rt;
        records.last(),
        Some(&if started {
            MonitorRecord::Start(3)
        } else {
            MonitorRecord::Abort(attempt(2, 2))
        })
    );
    Ok(true)
}

#[test]
fn a_recovery_that_failed_is_made_again(rt: HostRuntime) -> Result<(), Fail> {
    for choice in 0..9 {
        for device in 0..3u8 {
            let mut ended = None;
            for call in 0..100 {
                if !recover_twice(&rt, rt.alloc(), choice, device, call)? {
                    ended = Some(call);
                    break;
                }
            }
            assert!(rt;
                matches!(ended, Some(calls) if 2 < calls),
                "{choice} {device}"
            );
        }
    }
    Ok(())
}

#[test]
fn volumes_are_made_anew_and_listed(rt: HostRuntime) -> Result<(), Fail> {
    let alloc = rt.alloc();
    let config = config(alloc)?;
    let mut bare = bay_of(alloc, Vec::new(alloc))?;
    let told = volumes::list_file(alloc, &mut bare, &config, 1).err();
    assert_eq!(rt; told, Some(ListError::Lost));
    let mut disks = Vec::new(alloc);
    for _ in 0..DEVICES {
        disks.push(disk(alloc, vec![in alloc; 1; 768]?, 0, &[])?)?;
    }
    let mut bay = bay_of(alloc, disks)?;
    let damage = Damage {
        file: 1,
        at: 513,
        kind: DamageKind::BadLabel,
    };
    let told = volumes::list_file(alloc, &mut bay, &config, 2).err();
    assert_eq!(rt; told, Some(ListError::Damaged(6, damage)));
    assert_eq!(rt; volumes::format_node(alloc, &mut bay, &config), Ok(()));
    let one = volumes::list_file(alloc, &mut bay, &config, 1);
    assert!(rt; one.is_ok_and(|entries| entries.is_empty()));
    let two = volumes::list_file(alloc, &mut bay, &config, 2);
    assert!(rt; two.is_ok_and(|entries| entries.is_empty()));
    let fuses = bay.into_fuses();
    assert!(rt; fuses[13].device().bytes(1).is_none() && fuses[14].device().bytes(1).is_none());
    assert!(rt; fuses[7].device().bytes(1).is_some() && fuses[15].device().bytes(1).is_some());
    Ok(())
}

/// A bay with the volume $D as it was formatted, of which these committed changes have not been written, and this device as that of $E.
fn unwritten(
    alloc: Global,
    config: &Config,
    changed: &[Changed],
    second: MemDisk,
) -> Result<Bay<MemDisk>, Fail>
    requires { IsValidConfig config.now }
{
    let told = [(1, 1, 0), (2, 1, 1)];
    node(alloc, config, &told, changed, &[], Some(second))
}

#[test]
fn volumes_are_recovered_and_listed(rt: HostRuntime) -> Result<(), Fail> {
    let alloc = rt.alloc();
    let config = config(alloc)?;
    let changed = [(1, 1, 1, 1, 1, 1, "k", "", "a")];
    let mut bay = unwritten(alloc, &config, &changed, MemDisk::new(alloc, 0, &[])?)?;
    for epoch in 2..4 {
        let Ok(recovered) = volumes::recover(alloc, &mut bay, &config) else {
            return Err(Fail::new("the node was not recovered"));
        };
        assert_eq!(rt; recovered.epoch, epoch);
        assert_eq!(rt; recovered.lost.len(), 1);
        assert_eq!(rt; recovered.lost.as_slice().first(), Some(&2));
    }
    let Ok(entries) = volumes::list_file(alloc, &mut bay, &config, 1) else {
        return Err(Fail::new("no file was listed"));
    };
    assert_eq!(rt; entries.len(), 1);
    for (key, value) in entries.iter() {
        assert_eq!(rt; key.as_str(), "k");
        assert_eq!(rt; value.as_str(), "a");
    }
    let told = volumes::list_file(alloc, &mut bay, &config, 2).err();
    assert_eq!(rt; told, Some(ListError::Lost));
    Ok(())
}

/// Keys of one character each: one more than a block can hold.
const KEYS: &str = "ABCDEFGHIJKLMNOPQRSTUVWXYZabcdefghijklmnopqrstuvwxyz0123456789-";

#[test]
fn a_full_volume_is_told_before_a_damaged_one(rt: HostRuntime) -> Result<(), Fail> {
    let alloc = rt.alloc();
    let config = config(alloc)?;
    let full = Damage {
        file: 2,
        at: 0,
        kind: DamageKind::BadBlock,
    };
    let wrong = Damage {
        file: 1,
        at: 513,
        kind: DamageKind::BadLabel,
    };
    for (keys, device, damage) in [(63, 5, full), (62, 6, wrong)] {
        let mut changed: Vec<Changed> = Vec::new(alloc);
        for index in 0..keys {
            let Some(key) = KEYS.get(index..index + 1) else {
                return Err(Fail::new("no key is left"));
            };
            changed.push((1, 1, 1, 1, 1, index as u64 + 1, key, "", "a"))?;
        }
        let second = disk(alloc, vec![in alloc; 1; 768]?, 0, &[])?;
        let mut bay = unwritten(alloc, &config, &changed, second)?;
        let told = volumes::recover(alloc, &mut bay, &config).err();
        assert_eq!(rt; told, Some(RecoverError::Damaged(device, damage)));
    }
    Ok(())
}

#[test]
fn a_volume_that_is_lost_has_no_listing(rt: HostRuntime) -> Result<(), Fail> {
    let alloc = rt.alloc();
    let config = config(alloc)?;
    let mut bay = bay_of(alloc, Vec::new(alloc))?;
    assert_eq!(rt; volumes::format_node(alloc, &mut bay, &config), Ok(()));
    assert_eq!(rt; volumes::lose(&mut bay, 2), Ok(()));
    let one = volumes::list_file(alloc, &mut bay, &config, 1);
    assert!(rt; one.is_ok_and(|entries| entries.is_empty()));
    let two = volumes::list_file(alloc, &mut bay, &config, 2).err();
    assert_eq!(rt; two, Some(ListError::Lost));
    let fuses = bay.into_fuses();
    assert!(rt; fuses[6].device().bytes(1).is_none() && fuses[6].device().bytes(3).is_none());
    assert!(rt; fuses[5].device().bytes(1).is_some() && fuses[5].device().bytes(2).is_some());
    Ok(())
}
