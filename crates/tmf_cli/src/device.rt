//! The devices that the program makes.
ghost use Rattle.std.specs.Prelude.{map, option_map, IfOk};
ghost use Rattle.disk_model.specs.Fuse.{device_of as inside};
ghost use Rattle.tmf_cli.specs.Device.{IsEmptyMemory, IsInFolder, IsDeviceOf, AreDevicesOf};

use disk_model::{Bay, Disk, DiskFault, MemDisk};
use std::alloc::{AllocError, Global};
use std::fs::{self, Files, OpenFile, OpenOptions};
use std::io;
use tmf_edges::DirDisk;

/// How many devices a node has.
pub const DEVICES: usize = 21;

/// A device in memory, or in a folder. It passes each call on.
#[derive(Drop)]
pub enum Device<R: Files> {
    Memory(MemDisk),
    Folder(DirDisk<R>),
}

impl<R: Files + AllocGlobal + Drop> Disk for Device<R> {
    ghost use Rattle.tmf_cli.specs.Device.{tells_of, device_held, device_faults, is_same_device};
    ghost use Rattle.tmf_cli.specs.SameDevice.{same_itself, same_on, sound};

    ghost tells = { tells_of };

    ghost held = { device_held };

    ghost faults = { device_faults };

    ghost is_same = { is_same_device };

    ghost same_itself = { same_itself };

    ghost same_on = { same_on };

    ghost sound = { sound };

    fn least(&mut self) -> Result<Option<u32>, DiskFault> {
        match self {
            Device::Memory(disk) => disk.least(),
            Device::Folder(disk) => disk.least(),
        }
    }

    fn length(&mut self, file: u32) -> Result<Option<u64>, DiskFault> {
        match self {
            Device::Memory(disk) => disk.length(file),
            Device::Folder(disk) => disk.length(file),
        }
    }

    fn read(&mut self, file: u32, at: u64, into: &mut [u8]) -> Result<usize, DiskFault> {
        match self {
            Device::Memory(disk) => disk.read(file, at, into),
            Device::Folder(disk) => disk.read(file, at, into),
        }
    }

    fn write(&mut self, file: u32, at: u64, bytes: &[u8]) -> Result<(), DiskFault> {
        match self {
            Device::Memory(disk) => disk.write(file, at, bytes),
            Device::Folder(disk) => disk.write(file, at, bytes),
        }
    }

    fn sync(&mut self, file: u32) -> Result<(), DiskFault> {
        match self {
            Device::Memory(disk) => disk.sync(file),
            Device::Folder(disk) => disk.sync(file),
        }
    }

    fn create(&mut self, file: u32) -> Result<(), DiskFault> {
        match self {
            Device::Memory(disk) => disk.create(file),
            Device::Folder(disk) => disk.create(file),
        }
    }

    fn remove(&mut self, file: u32) -> Result<(), DiskFault> {
        match self {
            Device::Memory(disk) => disk.remove(file),
            Device::Folder(disk) => disk.remove(file),
        }
    }

    fn restart(&mut self) {
        match self {
            Device::Memory(disk) => disk.restart(),
            Device::Folder(disk) => disk.restart(),
        }
    }
}

/// An empty device in memory, of which no call fails.
fn memory_device<R: Files>(alloc: Global) -> Result<Device<R>, AllocError>
    ensures { IfOk result IsEmptyMemory }
{
    match MemDisk::new(alloc, 0, &[]) {
        Ok(disk) => Ok(Device::Memory(disk)),
        Err(_) => Err(AllocError),
    }
}

/// Makes the folder at this path, where it is not there, so that it stays there after a crash.
fn make_folder<R: Files>(rt: &R, parent: &str, path: &str) -> io::Result<()> {
    fs::create_dir_all(rt, path)?;
    OpenOptions::new().read(true).open(rt, parent)?.sync_all()
}

/// The device with this number in a folder. Where its own folder can't be made, no file can be made on it.
fn folder_device<'a, R: Files + AllocGlobal>(
    rt: &'a R,
    folder: &str,
    number: usize,
) -> Result<Device<&'a R>, AllocError>
    ensures { IfOk result (IsInFolder folder.now number) }
{
    let path = format!(in rt.alloc(); "{folder}/{number}")?;
    let _ = make_folder(rt, folder, path.as_str());
    Ok(Device::Folder(DirDisk::new(rt, path)))
}

/// The device with this number: in this folder, or in memory.
fn device_of<'a, R: Files + AllocGlobal>(
    rt: &'a R,
    folder: Option<&str>,
    number: usize,
) -> Result<Device<&'a R>, AllocError>
    ensures { IfOk result (IsDeviceOf (option_map (λ name. name.now) folder.entry) number) }
{
    let Some(folder) = folder else {
        return memory_device(rt.alloc());
    };
    folder_device(rt, folder, number)
}

/// The devices of a node: in this folder, or in memory.
pub fn devices<'a, R: Files + AllocGlobal>(
    rt: &'a R,
    folder: Option<&str>,
) -> Result<Bay<Device<&'a R>>, AllocError>
    ensures { IfOk result (λ bay. AreDevicesOf (option_map (λ name. name.now) folder.entry) (map inside bay)) }
{
    let alloc = rt.alloc();
    let mut devices = Vec::new(alloc);
    for number in 0..DEVICES {
        devices.push(device_of(rt, folder, number)?)?;
    }
    match Bay::new(alloc, devices) {
        Ok(bay) => Ok(bay),
        Err(_) => Err(AllocError),
    }
}

#[cfg(test)]
mod tests {
    use super::*;
    use crate::top::tmf;
    use std::process::Abort;
    use std::sync::Wait;
    use std::test::Fail;
    use std::thread::Threads;
    use tmf_edges::{MemSink, MemSource};

    const FIRST: &str =
        "trail AUX1\nvolume $DATA1 AUX1\nfile ACCT $DATA1 4\nformat\nrun\nworker\nbegin\n\
        put ACCT k1 v1\ncommit\nend\nrecover\nlist ACCT\n";

    const FIRST_OUTPUT: &str =
        "formatted\n1.1.1.1 committed 2\n1 start 1\n2 commit 1.1.1.1\nrecovered 2\nACCT k1 v1\n\
        listed ACCT 1\n";

    const SECOND: &str = "trail AUX1\nvolume $DATA1 AUX1\nfile ACCT $DATA1 4\nrecover\nlist ACCT\n";

    const SECOND_OUTPUT: &str =
        "1 start 1\n2 commit 1.1.1.1\n3 start 2\nrecovered 3\nACCT k1 v1\nlisted ACCT 1\n";

    /// Checks what a call over these devices prints, and answers the devices.
    fn expect<R: Threads + Wait + Sync + Abort, D: Disk + Send + Drop>(
        rt: &R,
        alloc: Global,
        text: &str,
        output: &str,
        bay: Bay<D>,
    ) -> Result<Bay<D>, Fail> {
        let words = vec![in alloc;
            String::from_str(alloc, "tmf")?,
            String::from_str(alloc, "run")?,
        ]?;
        let bytes = Vec::from_slice(alloc, text.as_bytes())?;
        let mut source = MemSource::new(bytes, Vec::new(alloc));
        let mut sink = MemSink::new(alloc, Vec::new(alloc));
        let (status, bay) = tmf(rt, alloc, &words, &mut source, &mut sink, bay);
        assert!(rt; status == 0 && sink.given() == output.as_bytes());
        Ok(bay)
    }

    // Those in a folder: tests/end_to_end.sh.
    #[test]
    fn devices_in_memory_keep_the_records_for_the_next_call(rt: HostRuntime) -> Result<(), Fail> {
        let bay = devices(&rt, None)?;
        let bay = expect(&rt, rt.alloc(), FIRST, FIRST_OUTPUT, bay)?;
        expect(&rt, rt.alloc(), SECOND, SECOND_OUTPUT, bay)?;
        Ok(())
    }
}
