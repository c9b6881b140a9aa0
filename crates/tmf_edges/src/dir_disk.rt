//! A device in a folder of the file system: the file with number n is the file there whose name is n in decimal.
ghost use Rattle.std.specs.Prelude.{◌≡◌, ◌<◌, ◌≤◌, ◌+◌, ◌^◌, List, ℕ, length, None, Ok, false, IfOk, IfSome, OnOk};
ghost use Rattle.disk_model.specs.Held.{HasCause};

use disk_model::{Disk, DiskFault};
use std::fs::{self, Files, OpenFile, OpenOptions};
use std::io::{self, ErrorKind, Read, Seek, SeekFrom, Write};
use std::marker::Model;

/// The most bytes of a file.
const LONGEST: u64 = 9_223_372_036_854_775_807;

/// A file's number, and the file, open for reading and writing.
#[derive(Drop)]
struct Opened<F> {
    number: u32,
    file: F,
}

/// The folder of one device. It tells nothing of what it holds. It counts each error of the system, each path for
/// which there is no memory, and each length and each end of a write past 2^63 - 1 bytes.
///
/// It keeps the file that it used last open, so that a next call on it opens nothing, and lets go of it at each error.
#[derive(Drop)]
pub struct DirDisk<R: Files> {
    rt: R,
    folder: String,
    faults: u64,
    kept: Option<Opened<R::File>>,
}

impl<R: Files> Model for DirDisk<R> {
    ghost use Rattle.tmf_edges.specs.Counted.{Counted};
    ghost use Rattle.std.specs.Prelude.{List, ℕ};

    ghost Value = { Counted (List ℕ) };

    ghost view = { λ d. record { device = d.folder.bytes.items; faults = d.faults } };
}

/// The number that a file's name writes, if it is one in decimal.
fn number_of(name: &str) -> Option<u32> {
    let number = name.parse::<u32>().ok()?;
    if itoa::Buffer::new().format(number) == name {
        Some(number)
    } else {
        None
    }
}

/// The least number among the names in a folder.
fn least_in<R: Files + AllocGlobal>(rt: &R, folder: &str) -> io::Result<Option<u32>> {
    let mut least: Option<u32> = None;
    for entry in fs::read_dir(&rt, folder)? {
        if let Some(number) = number_of(entry?.file_name()) {
            least = Some(least.map_or(number, |other| other.min(number)));
        }
    }
    Ok(least)
}

/// The answer, or none where the system says that the file is not there.
fn if_there<T>(answer: io::Result<T>) -> io::Result<Option<T>> {
    match answer {
        Ok(value) => Ok(Some(value)),
        Err(error) if error.kind() == ErrorKind::NotFound => Ok(None),
        Err(error) => Err(error),
    }
}

/// Reads until the buffer is full or the file ends, and answers how many bytes that are.
fn fill<F: Read>(file: &mut F, into: &mut [u8]) -> io::Result<usize>
    ensures { IfOk result (λ count. count ≤ length into.old) }
{
    let mut count = 0;
    for _ in 0..into.len() {
        let more = file.read(&mut into[count..])?;
        if more == 0 {
            break;
        }
        count += more;
        if count == into.len() {
            break;
        }
    }
    Ok(count)
}

/// Reads from an offset until the buffer is full or the file ends, and answers how many bytes that are.
fn fill_from<F: Read + Seek>(file: &mut F, at: u64, into: &mut [u8]) -> io::Result<usize>
    ensures { IfOk result (λ count. count ≤ length into.old) }
{
    file.seek(SeekFrom::Start(at))?;
    fill(file, into)
}

/// An error for a file that is too long.
fn too_long() -> io::Error {
    io::Error::from(ErrorKind::FileTooLarge)
}

/// A length, if it is no longer than a file may be.
fn within_longest(length: u64) -> io::Result<u64>
    ensures { IfOk result (λ n. n < 2 ^ 63) }
{
    if length > LONGEST {
        Err(too_long())
    } else {
        Ok(length)
    }
}

/// Whether an error says that a file may be read only.
fn is_read_only(error: &io::Error) -> bool {
    matches!(
        error.kind(),
        ErrorKind::PermissionDenied | ErrorKind::ReadOnlyFilesystem
    )
}

impl<R: Files + AllocGlobal + Drop> DirDisk<R> {
    /// The device of this folder, which has not failed.
    pub fn new(rt: R, folder: String) -> Self
        ensures folder { result.device ≡ folder.bytes.items }
        ensures faults { result.faults ≡ 0 }
    {
        DirDisk {
            rt,
            folder,
            faults: 0,
            kept: None,
        }
    }

    /// The path of a file.
    fn path(&self, file: u32) -> io::Result<String> {
        Ok(format!(in self.rt.alloc(); "{}/{}", self.folder, file)?)
    }

    /// Syncs the folder's own entries.
    fn sync_folder(&self) -> io::Result<()> {
        OpenOptions::new()
            .read(true)
            .open(&self.rt, self.folder.as_str())?
            .sync_all()
    }

    /// Keeps this file, and closes the one that was kept.
    fn keep(&mut self, number: u32, file: R::File)
        ensures same { self.new ≡ self.old }
    {
        self.kept = Some(Opened { number, file });
    }

    /// Closes the file that is kept, if it is this one.
    fn let_go(&mut self, number: u32)
        ensures same { self.new ≡ self.old }
    {
        self.kept = self.kept.take().filter(|kept| kept.number != number);
    }

    /// The file, open for reading and writing. If it is the one that is kept, that is taken out, so that an error lets
    /// go of it; else it is opened.
    fn opened(&mut self, number: u32) -> io::Result<R::File>
        ensures same { self.new ≡ self.old }
    {
        match self.kept.take() {
            Some(kept) if kept.number == number => Ok(kept.file),
            other => {
                self.kept = other;
                OpenOptions::new()
                    .read(true)
                    .write(true)
                    .open(&self.rt, self.path(number)?.as_str())
            }
        }
    }

    /// The file's length. Of a file that may only be read the system is asked by its path.
    fn length_of(&mut self, file: u32) -> io::Result<Option<u64>>
        ensures small { IfOk result (λ n. IfSome n (λ n. n < 2 ^ 63)) }
        ensures same { self.new ≡ self.old }
    {
        match if_there(self.opened(file)) {
            Ok(None) => Ok(None),
            Ok(Some(opened)) => {
                let length = within_longest(opened.metadata()?.len())?;
                self.keep(file, opened);
                Ok(Some(length))
            }
            Err(error) if is_read_only(&error) => {
                let data = fs::metadata(&self.rt, self.path(file)?.as_str())?;
                Ok(Some(within_longest(data.len())?))
            }
            Err(error) => Err(error),
        }
    }

    /// Reads from an offset. A file that may only be read is opened for this call alone.
    fn read_at(&mut self, file: u32, at: u64, into: &mut [u8]) -> io::Result<usize>
        ensures within { IfOk result (λ count. count ≤ length into.old) }
        ensures same { self.new ≡ self.old }
    {
        match if_there(self.opened(file)) {
            Ok(None) => Ok(0),
            Ok(Some(mut opened)) => {
                let count = fill_from(&mut opened, at, into)?;
                self.keep(file, opened);
                Ok(count)
            }
            Err(error) if is_read_only(&error) => {
                let mut opened = fs::open(&self.rt, self.path(file)?.as_str())?;
                fill_from(&mut opened, at, into)
            }
            Err(error) => Err(error),
        }
    }

    fn write_at(&mut self, file: u32, at: u64, bytes: &[u8]) -> io::Result<()>
        ensures small { OnOk result (at + length bytes.now < 2 ^ 63) }
        ensures same { self.new ≡ self.old }
    {
        if at > LONGEST || bytes.len() as u64 > LONGEST - at {
            return Err(too_long());
        }
        let mut opened = self.opened(file)?;
        opened.seek(SeekFrom::Start(at))?;
        opened.write_all(bytes)?;
        self.keep(file, opened);
        Ok(())
    }

    /// Syncs the file's bytes, and with them its length where it grew.
    fn sync_file(&mut self, file: u32) -> io::Result<()>
        ensures same { self.new ≡ self.old }
    {
        let opened = self.opened(file)?;
        opened.sync_data()?;
        self.keep(file, opened);
        Ok(())
    }

    fn create_file(&mut self, file: u32) -> io::Result<()>
        ensures same { self.new ≡ self.old }
    {
        let mut made = OpenOptions::new()
            .read(true)
            .write(true)
            .create(true)
            .truncate(true)
            .open(&self.rt, self.path(file)?.as_str())?;
        made.write_all(&[0])?;
        made.sync_all()?;
        self.sync_folder()?;
        self.keep(file, made);
        Ok(())
    }

    fn remove_file(&mut self, file: u32) -> io::Result<()>
        ensures same { self.new ≡ self.old }
    {
        self.let_go(file);
        fs::remove_file(&self.rt, self.path(file)?.as_str())?;
        self.sync_folder()
    }

    /// The answer; an error is counted, and lets go of the file that is kept, so that no later call rests on it.
    fn counted<T>(&mut self, answer: io::Result<T>) -> Result<T, DiskFault>
        ensures folder { self.new.device ≡ self.old.device }
        ensures given { IfOk result (λ value. answer ≡ Ok value) }
        ensures cause { HasCause self.old.faults self.new.faults result }
    {
        match answer {
            Ok(value) => Ok(value),
            Err(_) => {
                self.faults = self.faults.saturating_add(1);
                self.kept = None;
                Err(DiskFault::Failed)
            }
        }
    }
}

impl<R: Files + AllocGlobal + Drop> Disk for DirDisk<R> {
    ghost tells = { λ d. false };

    ghost held = { λ d n. None };

    ghost faults = { λ d. d.faults };

    ghost use Rattle.std.specs.Prelude.{refl};
    ghost use Rattle.std.proofs.Common.{◌∙◌};

    ghost is_same = { λ a b. a.device ≡ b.device };

    ghost same_itself = { λ d. refl };

    ghost same_on = { λ a b c p q. p ∙ q };

    ghost use Rattle.std.proofs.lemmas.Option.{none-some};

    ghost sound = { λ d n file there. elim (none-some file there) [ ] };

    fn least(&mut self) -> Result<Option<u32>, DiskFault> {
        let answer = least_in(&self.rt, self.folder.as_str());
        self.counted(answer)
    }

    fn length(&mut self, file: u32) -> Result<Option<u64>, DiskFault> {
        let answer = self.length_of(file);
        self.counted(answer)
    }

    fn read(&mut self, file: u32, at: u64, into: &mut [u8]) -> Result<usize, DiskFault> {
        let answer = self.read_at(file, at, into);
        self.counted(answer)
    }

    fn write(&mut self, file: u32, at: u64, bytes: &[u8]) -> Result<(), DiskFault> {
        let answer = self.write_at(file, at, bytes);
        self.counted(answer)
    }

    fn sync(&mut self, file: u32) -> Result<(), DiskFault> {
        let answer = self.sync_file(file);
        self.counted(answer)
    }

    fn create(&mut self, file: u32) -> Result<(), DiskFault> {
        let answer = self.create_file(file);
        self.counted(answer)
    }

    fn remove(&mut self, file: u32) -> Result<(), DiskFault> {
        let answer = self.remove_file(file);
        self.counted(answer)
    }

    /// Only closes the file that is kept: what the system kept of the folder is there already.
    fn restart(&mut self) {
        self.kept = None;
    }
}

#[cfg(test)]
mod tests;
