//! Tests of a device in a folder: over the file system, and over one that counts the files that it opens.
use super::*;
use std::alloc::Allocator;
use std::cell::Cell;
use std::fs::Metadata;
use std::test::Fail;

/// A file system that counts how often it opens a file. While it is told so, files may only be read.
#[derive(Drop)]
struct Watched<R> {
    rt: R,
    opens: Cell<u32>,
    read_only: Cell<bool>,
}

impl<R> Watched<R> {
    fn new(rt: R) -> Self {
        Watched {
            rt,
            opens: Cell::new(0),
            read_only: Cell::new(false),
        }
    }
}

impl<R: Alloc> Alloc for Watched<R> {
    type A = R::A;

    fn alloc(&self) -> R::A {
        self.rt.alloc()
    }
}

impl<R: Files> Files for Watched<R> {
    type File = R::File;

    type Dir = R::Dir;

    fn open_file(&self, how: &OpenOptions, path: &str) -> io::Result<R::File> {
        if self.read_only.get() && how.asks_write() {
            return Err(io::Error::from(ErrorKind::PermissionDenied));
        }
        self.opens.set(self.opens.get().saturating_add(1));
        self.rt.open_file(how, path)
    }

    fn open_dir(&self, path: &str) -> io::Result<R::Dir> {
        self.rt.open_dir(path)
    }

    fn metadata(&self, path: &str) -> io::Result<Metadata> {
        self.rt.metadata(path)
    }

    fn symlink_metadata(&self, path: &str) -> io::Result<Metadata> {
        self.rt.symlink_metadata(path)
    }

    fn copy(&self, from: &str, to: &str) -> io::Result<u64> {
        self.rt.copy(from, to)
    }

    fn rename(&self, from: &str, to: &str) -> io::Result<()> {
        self.rt.rename(from, to)
    }

    fn remove_file(&self, path: &str) -> io::Result<()> {
        self.rt.remove_file(path)
    }

    fn create_dir(&self, path: &str) -> io::Result<()> {
        self.rt.create_dir(path)
    }

    fn remove_dir(&self, path: &str) -> io::Result<()> {
        self.rt.remove_dir(path)
    }

    fn remove_dir_all<B: Allocator>(&self, alloc: B, path: &str) -> io::Result<()> {
        self.rt.remove_dir_all(alloc, path)
    }
}

/// A device of this type may be handed to another thread, and let go.
fn is_movable<D: Send + Drop>(_disk: &D) {}

#[test]
fn files_stand_in_the_folder_under_their_numbers(rt: HostRuntime) {
    let folder = "dir_disk_test";
    let _ = fs::remove_dir_all(&rt, folder);
    assert!(rt; fs::create_dir(&rt, folder).is_ok());
    let Ok(name) = String::from_str(rt.alloc(), folder) else {
        assert!(rt; false);
        return;
    };
    let mut disk = DirDisk::new(&rt, name);
    is_movable(&disk);
    assert!(rt; disk.least() == Ok(None) && disk.length(7) == Ok(None));
    let mut buffer = [9; 8];
    assert!(rt; disk.read(7, 0, &mut buffer) == Ok(0));
    assert!(rt; disk.write(7, 0, b"x") == Err(DiskFault::Failed));
    assert!(rt; disk.create(7) == Ok(()) && disk.create(12) == Ok(()));
    assert!(rt; disk.write(7, 1, b"abc") == Ok(()) && disk.sync(7) == Ok(()));
    assert!(rt; disk.least() == Ok(Some(7)) && disk.length(7) == Ok(Some(4)));
    assert!(rt; disk.read(7, 0, &mut buffer) == Ok(4));
    assert!(rt; buffer == [0, b'a', b'b', b'c', 9, 9, 9, 9]);
    assert!(rt; disk.read(7, 2, &mut buffer[..1]) == Ok(1) && buffer[0] == b'b');
    assert!(rt; disk.write(7, 9_223_372_036_854_775_807, b"x") == Err(DiskFault::Failed));
    disk.restart();
    assert!(rt; disk.remove(7) == Ok(()) && disk.remove(7) == Err(DiskFault::Failed));
    assert!(rt; disk.create(12) == Ok(()) && disk.least() == Ok(Some(12)));
    assert!(rt; disk.length(12) == Ok(Some(1)));
    assert!(rt; fs::remove_dir_all(&rt, folder).is_ok());
    assert!(rt; disk.least() == Err(DiskFault::Failed));
}

/// The name of a folder, which is made anew.
fn made_anew<R: Files + AllocGlobal>(rt: &R, folder: &str) -> Result<String, Fail> {
    let _ = fs::remove_dir_all(rt, folder);
    fs::create_dir(rt, folder)?;
    Ok(String::from_str(rt.alloc(), folder)?)
}

#[test]
fn calls_on_the_file_used_last_open_nothing(rt: HostRuntime) -> Result<(), Fail> {
    let folder = "dir_disk_kept_test";
    let host = Watched::new(&rt);
    let mut disk = DirDisk::new(&host, made_anew(&rt, folder)?);
    let mut buffer = [9; 4];
    // A creation opens its file and the folder.
    assert!(rt; disk.create(7) == Ok(()));
    assert!(rt; disk.write(7, 1, b"abc") == Ok(()));
    assert!(rt; disk.sync(7) == Ok(()));
    assert!(rt; disk.read(7, 0, &mut buffer) == Ok(4));
    assert!(rt; buffer == [0, b'a', b'b', b'c']);
    assert!(rt; disk.length(7) == Ok(Some(4)));
    assert_eq!(rt; host.opens.get(), 2);
    fs::remove_dir_all(&rt, folder)?;
    Ok(())
}

#[test]
fn a_call_on_another_file_opens_that_one(rt: HostRuntime) -> Result<(), Fail> {
    let folder = "dir_disk_turns_test";
    let host = Watched::new(&rt);
    let mut disk = DirDisk::new(&host, made_anew(&rt, folder)?);
    let mut buffer = [9; 3];
    assert!(rt; disk.create(7) == Ok(()) && disk.create(12) == Ok(()));
    host.opens.set(0);
    assert!(rt; disk.write(7, 1, b"ab") == Ok(()));
    assert!(rt; disk.write(12, 1, b"cd") == Ok(()));
    assert_eq!(rt; host.opens.get(), 2);
    // A file that is not there takes no one's place.
    assert!(rt; disk.length(8) == Ok(None) && disk.sync(12) == Ok(()));
    assert_eq!(rt; host.opens.get(), 3);
    assert!(rt; disk.read(7, 0, &mut buffer) == Ok(3) && buffer == [0, b'a', b'b']);
    assert!(rt; disk.read(12, 0, &mut buffer) == Ok(3) && buffer == [0, b'c', b'd']);
    assert_eq!(rt; host.opens.get(), 5);
    fs::remove_dir_all(&rt, folder)?;
    Ok(())
}

#[test]
fn a_removal_lets_go_of_its_own_file(rt: HostRuntime) -> Result<(), Fail> {
    let folder = "dir_disk_removal_test";
    let host = Watched::new(&rt);
    let mut disk = DirDisk::new(&host, made_anew(&rt, folder)?);
    let mut buffer = [9; 2];
    assert!(rt; disk.create(7) == Ok(()) && disk.create(12) == Ok(()));
    assert!(rt; disk.remove(7) == Ok(()));
    host.opens.set(0);
    assert!(rt; disk.write(12, 1, b"x") == Ok(()));
    assert_eq!(rt; host.opens.get(), 0);
    assert!(rt; disk.remove(12) == Ok(()));
    assert!(rt; disk.length(12) == Ok(None));
    assert!(rt; disk.write(12, 0, b"x") == Err(DiskFault::Failed));
    assert!(rt; disk.create(12) == Ok(()));
    assert!(rt; disk.length(12) == Ok(Some(1)));
    assert!(rt; disk.read(12, 0, &mut buffer) == Ok(1) && buffer == [0, 9]);
    fs::remove_dir_all(&rt, folder)?;
    Ok(())
}

#[test]
fn a_restart_and_a_failed_call_let_go_of_the_file(rt: HostRuntime) -> Result<(), Fail> {
    let folder = "dir_disk_restart_test";
    let host = Watched::new(&rt);
    let mut disk = DirDisk::new(&host, made_anew(&rt, folder)?);
    assert!(rt; disk.create(7) == Ok(()));
    host.opens.set(0);
    disk.restart();
    assert!(rt; disk.sync(7) == Ok(()));
    assert_eq!(rt; host.opens.get(), 1);
    assert!(rt; disk.write(7, 9_223_372_036_854_775_807, b"x") == Err(DiskFault::Failed));
    assert!(rt; disk.sync(7) == Ok(()));
    assert_eq!(rt; host.opens.get(), 2);
    assert_eq!(rt; disk.faults, 1);
    fs::remove_dir_all(&rt, folder)?;
    Ok(())
}

#[test]
fn a_folder_that_is_not_there_is_a_fault(rt: HostRuntime) -> Result<(), Fail> {
    let folder = "dir_disk_no_folder_test";
    let mut disk = DirDisk::new(&rt, made_anew(&rt, folder)?);
    fs::remove_dir_all(&rt, folder)?;
    assert!(rt; disk.length(7) == Ok(None));
    assert!(rt; disk.least() == Err(DiskFault::Failed));
    assert!(rt; disk.create(7) == Err(DiskFault::Failed));
    assert!(rt; disk.write(7, 0, b"x") == Err(DiskFault::Failed));
    assert!(rt; disk.sync(7) == Err(DiskFault::Failed));
    assert!(rt; disk.remove(7) == Err(DiskFault::Failed));
    assert_eq!(rt; disk.faults, 5);
    Ok(())
}

#[test]
fn a_foreign_file_is_no_fault_but_a_folder_is_no_file(rt: HostRuntime) -> Result<(), Fail> {
    let folder = "dir_disk_foreign_test";
    let mut disk = DirDisk::new(&rt, made_anew(&rt, folder)?);
    let mut buffer = [9; 2];
    fs::write(&rt, "dir_disk_foreign_test/notes", "foreign")?;
    fs::write(&rt, "dir_disk_foreign_test/007", "foreign")?;
    assert!(rt; disk.least() == Ok(None));
    assert_eq!(rt; disk.faults, 0);
    fs::create_dir(&rt, "dir_disk_foreign_test/9")?;
    assert!(rt; disk.write(9, 0, b"x") == Err(DiskFault::Failed));
    assert!(rt; disk.sync(9) == Err(DiskFault::Failed));
    assert!(rt; disk.read(9, 0, &mut buffer) == Err(DiskFault::Failed));
    assert!(rt; disk.length(9) == Err(DiskFault::Failed));
    assert_eq!(rt; disk.faults, 4);
    fs::remove_dir_all(&rt, folder)?;
    Ok(())
}

#[test]
fn a_file_that_may_only_be_read_is_opened_for_each_read(rt: HostRuntime) -> Result<(), Fail> {
    let folder = "dir_disk_read_only_test";
    let host = Watched::new(&rt);
    let mut disk = DirDisk::new(&host, made_anew(&rt, folder)?);
    let mut buffer = [9; 2];
    assert!(rt; disk.create(7) == Ok(()));
    disk.restart();
    host.read_only.set(true);
    host.opens.set(0);
    assert!(rt; disk.read(7, 0, &mut buffer) == Ok(1) && buffer == [0, 9]);
    assert!(rt; disk.length(7) == Ok(Some(1)));
    assert!(rt; disk.read(7, 1, &mut buffer) == Ok(0));
    assert_eq!(rt; host.opens.get(), 2);
    assert!(rt; disk.write(7, 1, b"x") == Err(DiskFault::Failed));
    assert!(rt; disk.sync(7) == Err(DiskFault::Failed));
    assert_eq!(rt; disk.faults, 2);
    fs::remove_dir_all(&rt, folder)?;
    Ok(())
}
