//! A device in memory, whose failures and crashes a test chooses.

ghost use Rattle.std.specs.Prelude.{◌≡◌, ◌≢◌, ◌⊎◌, ◌↔◌, ◌<◌, ◌≤◌, ◌+◌, ◌%◌, ◌==◌, ◌^◌, ◌++◌, ℕ, length, take, drop, Contains, nat_eq, Err, None, IsTrue, IfOk, IfErr, IfSome, IfNone, OnOk, OnErr, IsOk};
ghost use Rattle.std.specs.BTreeMap.{get};
ghost use Rattle.std.specs.BTreeSet.{contains};
ghost use Rattle.std.specs.List.{IsDistinct};
ghost use Rattle.std.specs.Map.{keys_of};
ghost use Rattle.std.specs.Option.{option_map};
ghost use Rattle.std.specs.Ordering.{nat_cmp};
ghost use Rattle.disk_model.specs.Held.{EndangersOrKeeps, IfThere, IsThere, Elsewhere, IsLeast, Leaves, Tears, written, synced, created, read_of, length_of};
ghost use Rattle.disk_model.specs.Listed.{HoldsFiles, IsMemRefusal};
ghost use Rattle.disk_model.specs.MemDisk.{IsFresh, earlier_at, file_of, held_in};
ghost use Rattle.disk_model.specs.Image.{AreImages, IsBehindAll};

use crate::draws::Draws;
use crate::mem_file::MemFile;
use crate::{Disk, DiskFault};
use std::alloc::{AllocError, Global};
use std::collections::{BTreeMap, BTreeSet};
use std::ops::Bound;

/// No memory was found.
#[derive(Clone, Copy, Debug, PartialEq, Eq)]
pub struct NoMemory;

/// Why no disk was made of a list of files.
#[derive(Clone, Copy, Debug, PartialEq, Eq)]
pub enum MemRefused {
    /// This number stands twice in the list.
    SameFile(u32),
    NoMemory,
}

/// A device in memory. It tells what it holds, and its calls with the listed numbers fail.
#[derive(Drop)]
pub struct MemDisk {
    alloc: Global,
    files: BTreeMap<u32, MemFile>,
    // The numbers of the calls that fail, and of the next call.
    fails: BTreeSet<u64>,
    calls: u64,
    // The calls that failed because they were listed, and the growths that found no memory.
    listed: u64,
    refused: u64,
    // What a restart picks its images by.
    choice: u64,
    draws: Draws,
}

// What a read gives, in the front of a buffer.
fn copy_from(bytes: &[u8], at: u64, into: &mut [u8]) -> usize
    ensures count { result ≡ length (take (length into.old) (drop at bytes.now)) }
    ensures bytes { into.new ≡ take (length into.old) (drop at bytes.now) ++ drop result into.old }
{
    let at = at as usize;
    if at >= bytes.len() {
        return 0;
    }
    let rest = &bytes[at..];
    let count = rest.len().min(into.len());
    let (front, _) = into.split_at_mut(count);
    front.copy_from_slice(&rest[..count]);
    count
}

// The set of the listed numbers.
fn set_of(alloc: Global, numbers: &[u64]) -> Result<BTreeSet<u64>, AllocError>
    ensures { IfOk result (λ set. (i : ℕ) → IsTrue (contains nat_cmp set i) ↔ Contains numbers.now i) }
{
    numbers.iter().copied().collect(alloc)
}

// A map of the listed files, with nothing at risk.
fn map_of(alloc: Global, files: Vec<(u32, Vec<u8>)>) -> Result<BTreeMap<u32, MemFile>, MemRefused>
    ensures holds { IfOk result (λ made. HoldsFiles files.items (λ n. option_map file_of (get nat_cmp made n))) }
    ensures fresh { IfOk result (λ made. (n : ℕ) → IfSome (get nat_cmp made n) IsFresh) }
    ensures distinct { OnOk result (IsDistinct nat_eq (keys_of files.items)) }
    ensures refused { IfErr result (IsMemRefusal files.items) }
{
    let mut made = BTreeMap::new(alloc);
    for (number, bytes) in files {
        if made.contains_key(&number) {
            return Err(MemRefused::SameFile(number));
        }
        let Ok(file) = MemFile::new(alloc, bytes) else {
            return Err(MemRefused::NoMemory);
        };
        let Ok(_) = made.insert(number, file) else {
            return Err(MemRefused::NoMemory);
        };
    }
    Ok(made)
}

// The number of the first file.
fn first_file(files: &BTreeMap<u32, MemFile>) -> Option<u32>
    ensures none { IfNone result ((n : ℕ) → get nat_cmp files.now n ≡ None) }
    ensures first { IfSome result (λ next. (n : ℕ) → n < next → get nat_cmp files.now n ≡ None) }
{
    files.first_key_value().map(|entry| *entry.0)
}

// The number of the next file behind this one.
fn file_behind(files: &BTreeMap<u32, MemFile>, number: u32) -> Option<u32>
    ensures none { IfNone result ((n : ℕ) → number < n → get nat_cmp files.now n ≡ None) }
    ensures behind { IfSome result (λ next. number < next) }
    ensures next { IfSome result (λ next. (n : ℕ) → number < n → n < next → get nat_cmp files.now n ≡ None) }
{
    let behind = (Bound::Excluded(number), Bound::Unbounded);
    files.range(behind).next().map(|entry| *entry.0)
}

// Makes each file the image that the draws pick, in rising order of their numbers.
fn scatter_files(files: &mut BTreeMap<u32, MemFile>, draws: &mut Draws, cut: bool)
    ensures leaves { Leaves (held_in files.old) (held_in files.new) }
    ensures picked { AreImages cut draws.old.state (earlier_at files.old) (held_in files.old) (held_in files.new) }
    ensures moves { IsBehindAll draws.old.state (held_in files.old) draws.new.state }
    ensures fresh { (n : ℕ) → IfSome (get nat_cmp files.new n) IsFresh }
{
    let mut next = first_file(files);
    while let Some(number) = next {
        if let Some(f) = files.get_mut(&number) {
            f.scatter(draws, cut);
        }
        next = file_behind(files, number);
    }
}

impl MemDisk {
    ghost use Rattle.disk_model.specs.MemDisk.{held_of, refused_of, next_count, earlier_in, FailsExactly, HasPlaceIn, IsFreshIn, IsUncalled, Remembers};

    /// An empty device, whose calls with the listed numbers fail, counted from 0.
    pub fn new(alloc: Global, choice: u64, fails: &[u64]) -> Result<MemDisk, NoMemory>
        ensures empty { IfOk result (λ disk. (n : ℕ) → held_of disk n ≡ None) }
        ensures uncalled { IfOk result (IsUncalled choice fails.now) }
    {
        let Ok(fails) = set_of(alloc, fails) else {
            return Err(NoMemory);
        };
        Ok(MemDisk {
            alloc,
            files: BTreeMap::new(alloc),
            fails,
            calls: 0,
            listed: 0,
            refused: 0,
            choice,
            draws: Draws::new(choice),
        })
    }

    /// A device that holds these files, with nothing at risk, and whose calls with the listed
    /// numbers fail, counted from 0.
    pub fn from_files(
        alloc: Global,
        files: Vec<(u32, Vec<u8>)>,
        choice: u64,
        fails: &[u64],
    ) -> Result<MemDisk, MemRefused>
        ensures holds { IfOk result (λ disk. HoldsFiles files.items (held_of disk)) }
        ensures fresh { IfOk result (λ disk. (n : ℕ) → IsFreshIn disk n) }
        ensures uncalled { IfOk result (IsUncalled choice fails.now) }
        ensures distinct { OnOk result (IsDistinct nat_eq (keys_of files.items)) }
        ensures refused { IfErr result (IsMemRefusal files.items) }
    {
        let files = map_of(alloc, files)?;
        match MemDisk::new(alloc, choice, fails) {
            Ok(disk) => Ok(MemDisk { files, ..disk }),
            Err(NoMemory) => Err(MemRefused::NoMemory),
        }
    }

    /// How many growths found no memory.
    pub fn refused(&self) -> u64
        ensures { result ≡ refused_of self.now }
    {
        self.refused
    }

    /// What a read of a whole file gives, where it is there.
    pub fn bytes(&self, file: u32) -> Option<&[u8]>
        ensures bytes { IfSome result (λ bytes. IsThere (held_of self.now) file (λ f. bytes.now ≡ f.bytes)) }
        ensures absent { IfNone result (held_of self.now file ≡ None) }
    {
        match self.files.get(&file) {
            Some(f) => Some(f.bytes()),
            None => None,
        }
    }

    // Counts a call, and fails if it is listed.
    fn begin(&mut self) -> Result<(), DiskFault>
        ensures files { self.new.files ≡ self.old.files }
        ensures exact { FailsExactly self.old self.new result }
    {
        let number = self.calls;
        self.calls = self.calls.saturating_add(1);
        if self.fails.contains(&number) {
            self.listed = self.listed.saturating_add(1);
            return Err(DiskFault::Failed);
        }
        Ok(())
    }

    // Counts a growth that found no memory.
    fn refuse(&mut self) -> Result<(), DiskFault>
        ensures err { result ≡ Err DiskFault.Failed }
        ensures refused { self.new ≡ record self.old { refused = next_count self.old.refused } }
    {
        self.refused = self.refused.saturating_add(1);
        Err(DiskFault::Failed)
    }

    // Puts a range of a file at risk.
    fn tear(&mut self, file: u32, at: u64, size: usize)
        requires { IsThere (held_of self.old) file (λ f. at ≤ length f.bytes) }
        ensures others { Elsewhere file (held_of self.old) (held_of self.new) }
        ensures torn { IfThere (held_of self.old) file (λ f. IsThere (held_of self.new) file (Tears at size f)) }
        ensures endangered { IfThere (held_of self.old) file (λ f. IsThere (held_of self.new) file (EndangersOrKeeps (HasPlaceIn self.old file) at size f)) }
        ensures remembers { (n : ℕ) → n ≢ file → Remembers self.old self.new n }
        ensures earlier { (i : ℕ) → earlier_in self.new file i ≡ earlier_in self.old file i }
        ensures counts { self.new ≡ record self.old { files = self.new.files } }
    {
        if let Some(f) = self.files.get_mut(&file) {
            f.tear(at as usize, size);
        }
    }
}

impl Disk for MemDisk {
    ghost use Rattle.std.specs.Prelude.{true, ◌+◌};
    ghost use Rattle.disk_model.specs.MemDisk.{held_of, choice_of, earlier_in, number_of, FailsExactly, FailsOrIsRefused, HasPlaceIn, IsFreshIn, IsUncounted, Remembers};

    ghost tells = { λ _. true };

    ghost held = { held_of };

    ghost faults = { λ m. m.listed + m.refused };

    ghost is_same = { λ _ _. Unit {0} };

    ghost same_itself = { λ _. tt };

    ghost same_on = { λ _ _ _ _ _. tt };

    ghost use Rattle.disk_model.specs.Sound.{sound};

    ghost sound = { sound };

    fn least(&mut self) -> Result<Option<u32>, DiskFault>
        ensures same { held_of self.new ≡ held_of self.old }
        ensures least { IfOk result (IsLeast (held_of self.old)) }
        ensures remembers { (n : ℕ) → Remembers self.old self.new n }
        ensures exact { FailsExactly self.old self.new result }
    {
        self.begin()?;
        Ok(self.files.first_key_value().map(|entry| *entry.0))
    }

    fn length(&mut self, file: u32) -> Result<Option<u64>, DiskFault>
        ensures same { held_of self.new ≡ held_of self.old }
        ensures length { IfOk result (λ n. n ≡ length_of (held_of self.old file)) }
        ensures small { IfOk result (λ n. IfSome n (λ n. n < 2 ^ 63)) }
        ensures remembers { (n : ℕ) → Remembers self.old self.new n }
        ensures exact { FailsExactly self.old self.new result }
    {
        self.begin()?;
        Ok(self.files.get(&file).map(|f| f.bytes().len() as u64))
    }

    fn read(&mut self, file: u32, at: u64, into: &mut [u8]) -> Result<usize, DiskFault>
        ensures same { held_of self.new ≡ held_of self.old }
        ensures bytes { IfOk result (λ n. let front = read_of (held_of self.old file) at (length into.old) in
            (n ≡ length front) × (into.new ≡ front ++ drop n into.old)) }
        ensures within { IfOk result (λ n. n ≤ length into.old) }
        ensures remembers { (n : ℕ) → Remembers self.old self.new n }
        ensures exact { FailsExactly self.old self.new result }
    {
        self.begin()?;
        match self.files.get(&file) {
            None => Ok(0),
            Some(f) => Ok(copy_from(f.bytes(), at, into)),
        }
    }

    fn write(&mut self, file: u32, at: u64, bytes: &[u8]) -> Result<(), DiskFault>
        requires { IsThere (held_of self.old) file (λ f. at ≤ length f.bytes) }
        ensures others { Elsewhere file (held_of self.old) (held_of self.new) }
        ensures ok { OnOk result (IfThere (held_of self.old) file (λ f. held_of self.new file ≡ Some (written at bytes.now f))) }
        ensures err { OnErr result (IfThere (held_of self.old) file (λ f. IsThere (held_of self.new) file (Tears at (length bytes.now) f))) }
        ensures small { OnOk result (at + length bytes.now < 2 ^ 63) }
        ensures remembers { (n : ℕ) → n ≢ file → Remembers self.old self.new n }
        ensures earlier { (i : ℕ) → earlier_in self.new file i ≡ earlier_in self.old file i }
        ensures endangered { OnErr result (IfThere (held_of self.old) file (λ f. IsThere (held_of self.new) file (EndangersOrKeeps (HasPlaceIn self.old file) at (length bytes.now) f))) }
        ensures place { OnOk result (HasPlaceIn self.new file) }
        ensures exact { FailsOrIsRefused self.old self.new result }
    {
        if let Err(fault) = self.begin() {
            self.tear(file, at, bytes.len());
            return Err(fault);
        }
        match self.files.get_mut(&file) {
            None => self.refuse(),
            Some(f) => match f.write(at as usize, bytes) {
                Ok(()) => Ok(()),
                Err(_) => self.refuse(),
            },
        }
    }

    fn sync(&mut self, file: u32) -> Result<(), DiskFault>
        ensures others { Elsewhere file (held_of self.old) (held_of self.new) }
        ensures ok { OnOk result (IfThere (held_of self.old) file (λ f. held_of self.new file ≡ Some (synced f))) }
        ensures err { OnErr result (held_of self.new ≡ held_of self.old) }
        ensures remembers { (n : ℕ) → n ≢ file → Remembers self.old self.new n }
        ensures fresh { OnOk result (IsFreshIn self.new file) }
        ensures undone { OnErr result (Remembers self.old self.new file) }
        ensures exact { FailsExactly self.old self.new result }
    {
        self.begin()?;
        if let Some(f) = self.files.get_mut(&file) {
            f.settle();
        }
        Ok(())
    }

    fn create(&mut self, file: u32) -> Result<(), DiskFault>
        ensures others { Elsewhere file (held_of self.old) (held_of self.new) }
        ensures ok { OnOk result (held_of self.new file ≡ Some created) }
        ensures err { OnErr result ((held_of self.new file ≡ held_of self.old file) ⊎ (held_of self.new file ≡ Some created)) }
        ensures undone { OnErr result (held_of self.new ≡ held_of self.old) }
        ensures remembers { (n : ℕ) → n ≢ file → Remembers self.old self.new n }
        ensures fresh { OnOk result (IsFreshIn self.new file) }
        ensures kept { OnErr result (Remembers self.old self.new file) }
        ensures exact { FailsOrIsRefused self.old self.new result }
    {
        self.begin()?;
        let Ok(bytes) = Vec::from_array(self.alloc, [0]) else {
            return self.refuse();
        };
        let Ok(made) = MemFile::new(self.alloc, bytes) else {
            return self.refuse();
        };
        match self.files.insert(file, made) {
            Ok(_) => Ok(()),
            Err(_) => self.refuse(),
        }
    }

    fn remove(&mut self, file: u32) -> Result<(), DiskFault>
        ensures others { Elsewhere file (held_of self.old) (held_of self.new) }
        ensures ok { OnOk result (held_of self.new file ≡ None) }
        ensures err { OnErr result ((held_of self.new file ≡ held_of self.old file) ⊎ (held_of self.new file ≡ None)) }
        ensures undone { OnErr result (held_of self.new ≡ held_of self.old) }
        ensures remembers { (n : ℕ) → n ≢ file → Remembers self.old self.new n }
        ensures kept { OnErr result (Remembers self.old self.new file) }
        ensures exact { FailsExactly self.old self.new result }
    {
        self.begin()?;
        self.files.remove(&file);
        Ok(())
    }

    fn restart(&mut self)
        ensures image { Leaves (held_of self.old) (held_of self.new) }
        ensures stays { choice_of self.old ≡ 0 → (n : ℕ) → held_of self.new n ≡ option_map synced (held_of self.old n) }
        ensures picked { choice_of self.old ≢ 0 → AreImages (choice_of self.old % 2 == 1) (number_of self.old) (earlier_in self.old) (held_of self.old) (held_of self.new) }
        ensures moves { choice_of self.old ≢ 0 → IsBehindAll (number_of self.old) (held_of self.old) (number_of self.new) }
        ensures fresh { (n : ℕ) → IsFreshIn self.new n }
        ensures uncounted { IsUncounted self.old self.new }
    {
        if self.choice == 0 {
            self.files.retain(|_, f| {
                f.settle();
                true
            });
            return;
        }
        scatter_files(&mut self.files, &mut self.draws, self.choice % 2 == 1);
    }
}
