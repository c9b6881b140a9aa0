//! What no clause says: that each call of a memory disk succeeds. Images worked out by hand, and what a caller of a bay learns.

ghost use Rattle.std.specs.Prelude.{◌≡◌, ◌≢◌, ◌≤◌, ℕ, Some, IsTrue, OnOk, slice_get};
ghost use Rattle.disk_model.specs.Fuse.{device_of};
ghost use Rattle.disk_model.specs.Held.{created};
ghost use Rattle.disk_model.specs.declared.fuse.Fuse.{Fuse};

use disk_model::{Bay, BayRefused, Disk, DiskFault, MemDisk, MemRefused, NoMemory, Watch, Watched};
use std::alloc::Global;
use std::sync::atomic::{AtomicU64, Ordering};
use std::test::Fail;
use std::thread;

// Writes where the file has the offset already.
fn put(disk: &mut MemDisk, file: u32, at: u64, bytes: &[u8]) -> Result<(), DiskFault> {
    match disk.bytes(file) {
        Some(held) if at <= held.len() as u64 => disk.write(file, at, bytes),
        _ => Err(DiskFault::Failed),
    }
}

fn has(disk: &MemDisk, file: u32, bytes: &[u8]) -> bool {
    match disk.bytes(file) {
        Some(held) => held == bytes,
        None => false,
    }
}

// Bytes that are synced, written over in part and twice, written past the synced end, and written
// in vain by call 7.
fn first_writes(disk: &mut MemDisk) -> Result<(), DiskFault> {
    disk.create(7)?;
    disk.create(3)?;
    put(disk, 7, 0, &[1, 2, 3, 4, 5, 6, 7, 8])?;
    disk.sync(7)?;
    put(disk, 7, 2, &[30, 40, 50])?;
    put(disk, 7, 4, &[55, 66])?;
    put(disk, 7, 8, &[9, 10, 11])?;
    if put(disk, 7, 6, &[77, 88]).is_ok() {
        return Err(DiskFault::Failed);
    }
    put(disk, 3, 0, &[77, 78, 79])
}

fn second_writes(disk: &mut MemDisk) -> Result<(), DiskFault> {
    put(disk, 7, 1, &[120, 121])?;
    put(disk, 7, 2, &[122, 123, 124])
}

// What a choice leaves of the files 3 and 7 at the first restart, and of file 7 at the second.
struct Images {
    choice: u64,
    three: &'static [u8],
    seven: &'static [u8],
    later: &'static [u8],
}

const IMAGES: [Images; 4] = [
    Images {
        choice: 0,
        three: &[77, 78, 79],
        seven: &[1, 2, 30, 40, 55, 66, 7, 8, 9, 10, 11],
        later: &[1, 120, 122, 123, 124, 66, 7, 8, 9, 10, 11],
    },
    Images {
        choice: 1,
        three: &[77],
        seven: &[1, 2, 3, 4, 55, 226, 7, 84],
        later: &[1, 2, 28, 225, 135, 226, 7, 84],
    },
    Images {
        choice: 2,
        three: &[0, 0, 79],
        seven: &[1, 2, 3, 4, 55, 24, 7, 8, 19, 0, 11],
        later: &[1, 2, 122, 4, 55, 24, 7, 8, 19, 0, 11],
    },
    Images {
        choice: 5,
        three: &[223],
        seven: &[1, 2, 30, 4, 108, 66, 7, 8],
        later: &[1, 2, 122, 233, 124, 66, 7, 8],
    },
];

#[test]
fn restart_leaves_the_chosen_image(rt: HostRuntime) {
    for images in &IMAGES {
        let choice = images.choice;
        let mut disk = MemDisk::new(rt.alloc(), choice, &[7]).expect(&rt, "memory");
        assert_eq!(rt; first_writes(&mut disk), Ok(()), "at {choice}");
        disk.restart();
        assert!(rt; has(&disk, 3, images.three), "at {choice}");
        assert!(rt; has(&disk, 7, images.seven), "at {choice}");
        assert_eq!(rt; second_writes(&mut disk), Ok(()), "at {choice}");
        disk.restart();
        assert!(rt; has(&disk, 7, images.later), "at {choice}");
    }
}

#[test]
fn calls_of_a_memory_disk_succeed(rt: HostRuntime) -> Result<(), Fail> {
    let alloc = rt.alloc();
    let files = vec![in alloc; (9, vec![in alloc; 5, 6]?), (4, Vec::new(alloc))]?;
    let mut disk = MemDisk::from_files(alloc, files, 0, &[])?;
    let mut into = [1; 4];
    assert_eq!(rt; disk.least(), Ok(Some(4)));
    assert_eq!(rt; disk.length(9), Ok(Some(2)));
    assert_eq!(rt; disk.read(9, 1, &mut into), Ok(1));
    assert_eq!(rt; into, [6, 1, 1, 1]);
    assert_eq!(rt; put(&mut disk, 4, 0, &[8]), Ok(()));
    assert_eq!(rt; disk.create(1), Ok(()));
    assert_eq!(rt; disk.sync(1), Ok(()));
    assert_eq!(rt; disk.remove(1), Ok(()));
    assert_eq!(rt; disk.length(1), Ok(None));
    assert!(rt; has(&disk, 4, &[8]));
    assert_eq!(rt; disk.refused(), 0);
    let twice = vec![in alloc; (9, Vec::new(alloc)), (9, Vec::new(alloc))]?;
    let refused = MemDisk::from_files(alloc, twice, 0, &[]).err();
    assert_eq!(rt; refused, Some(MemRefused::SameFile(9)));
    Ok(())
}

fn disks(alloc: Global, count: u32) -> Result<Vec<MemDisk>, NoMemory> {
    let mut made = Vec::new(alloc);
    for _ in 0..count {
        let disk = MemDisk::new(alloc, 0, &[])?;
        made.push(disk).map_err(|_| NoMemory)?;
    }
    Ok(made)
}

fn full_bay(alloc: Global) -> Result<Bay<MemDisk>, Fail> {
    match Bay::new(alloc, disks(alloc, 21)?) {
        Ok(bay) => Ok(bay),
        Err(_) => Err(Fail::new("no bay was made of 21 devices")),
    }
}

// Creates a file on a device of any kind.
fn create_on<D: Disk>(device: &mut D, file: u32) -> Result<(), DiskFault>
    ensures { IsTrue (D.tells device.old) → OnOk result (D.held device.new file ≡ Some created) }
{
    device.create(file)
}

// What a caller of a bay learns of its devices.
fn create_on_third<D: Disk>(bay: &mut Bay<D>) -> Result<(), DiskFault>
    ensures done { (old new : Fuse D) → slice_get bay.old 3 ≡ Some old → slice_get bay.new 3 ≡ Some new → IsTrue (D.tells (device_of old)) → OnOk result (D.held (device_of new) 8 ≡ Some created) }
    ensures others { (n : ℕ) → n ≢ 3 → slice_get bay.new n ≡ slice_get bay.old n }
{
    create_on(bay.device(3), 8)
}

#[test]
fn a_bay_lends_its_devices(rt: HostRuntime) -> Result<(), Fail> {
    let alloc = rt.alloc();
    let few = Bay::new(alloc, disks(alloc, 20)?);
    assert!(rt; matches!(&few, Err(BayRefused::NotTwentyOne(given)) if given.len() == 20));
    let mut bay = full_bay(alloc)?;
    assert_eq!(rt; create_on_third(&mut bay), Ok(()));
    // A device that is lent is a device too.
    let mut lent = bay.device(4);
    assert_eq!(rt; create_on(&mut lent, 8), Ok(()));
    bay.restart();
    let mut bay = Bay::from_fuses(bay.into_fuses());
    assert!(rt; has(bay.device(3).device(), 8, &[0]));
    assert_eq!(rt; bay.device(2).least(), Ok(None));
    Ok(())
}

// Creates a file on two devices of a bay, one after the other. It answers on which that was done.
fn created_on_both(bay: &mut Bay<MemDisk>, file: u32) -> (bool, bool) {
    let first = create_on(bay.device(0), file).is_ok();
    let second = create_on(bay.device(20), file).is_ok();
    (first, second)
}

#[test]
fn an_armed_bay_cuts_each_call_behind_the_countdown(rt: HostRuntime) -> Result<(), Fail> {
    let mut bay = full_bay(rt.alloc())?;
    assert_eq!(rt; created_on_both(&mut bay, 1), (true, true));
    bay.arm(3);
    assert_eq!(rt; created_on_both(&mut bay, 2), (true, true));
    assert_eq!(rt; created_on_both(&mut bay, 3), (true, false));
    assert_eq!(rt; created_on_both(&mut bay, 4), (false, false));
    assert_eq!(rt; bay.device(7).least(), Err(DiskFault::Failed));
    // A restart is not cut, and it leaves the fuses armed, as taking the bay apart does.
    bay.restart();
    let mut bay = Bay::from_fuses(bay.into_fuses());
    assert_eq!(rt; created_on_both(&mut bay, 4), (false, false));
    bay.disarm();
    assert_eq!(rt; bay.device(0).length(3), Ok(Some(1)));
    assert_eq!(rt; bay.device(20).length(3), Ok(None));
    assert_eq!(rt; created_on_both(&mut bay, 4), (true, true));
    bay.arm(1);
    assert_eq!(rt; created_on_both(&mut bay, 5), (true, false));
    Ok(())
}

// How many of so many calls a device does.
fn calls_done<D: Disk>(device: &mut D, calls: u32) -> u32
    ensures { result ≤ calls }
{
    let mut done = 0;
    for _ in 0..calls {
        if device.least().is_ok() {
            done += 1;
        }
    }
    done
}

#[test]
fn two_threads_count_down_together(rt: HostRuntime) -> Result<(), Fail> {
    let mut bay = full_bay(rt.alloc())?;
    bay.arm(100);
    let mut fuses = bay.into_fuses();
    let (Some(mut here), Some(mut there)) = (fuses.pop(), fuses.pop()) else {
        return Err(Fail::new("a bay has 21 fuses"));
    };
    let Ok(other) = thread::spawn(&rt, move || calls_done(&mut there, 80)) else {
        return Err(Fail::new("no thread was made"));
    };
    let done = calls_done(&mut here, 80);
    assert_eq!(rt; done.saturating_add(other.join(&rt)), 100);
    Ok(())
}

// Lets reads through alone, and counts what it is asked.
#[derive(Drop)]
struct OnlyReads<'a> {
    asked: &'a AtomicU64,
}

impl Watch for OnlyReads<'_> {
    ghost passes = { λ _ read. IsTrue read };

    fn before(&self, read: bool) -> bool {
        self.asked.fetch_add(1, Ordering::SeqCst);
        read
    }
}

#[test]
fn a_watch_refuses_calls(rt: HostRuntime) -> Result<(), Fail> {
    let alloc = rt.alloc();
    let files = vec![in alloc; (9, vec![in alloc; 5, 6]?)]?;
    let asked = AtomicU64::new(0);
    let watch = OnlyReads { asked: &asked };
    let mut disk = Watched::new(MemDisk::from_files(alloc, files, 0, &[])?, watch);
    let mut into = [1; 4];
    assert_eq!(rt; disk.read(9, 1, &mut into), Ok(1));
    assert_eq!(rt; disk.least(), Err(DiskFault::Failed));
    assert_eq!(rt; disk.create(9), Err(DiskFault::Failed));
    disk.restart();
    assert_eq!(rt; disk.read(9, 0, &mut into), Ok(2));
    assert_eq!(rt; into, [5, 6, 1, 1]);
    assert_eq!(rt; asked.load(Ordering::SeqCst), 4);
    Ok(())
}
