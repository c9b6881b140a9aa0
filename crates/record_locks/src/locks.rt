//! The locks of one disc.
ghost use Rattle.std.specs.Prelude.{◌≡◌, ◌==◌, ◌&&◌, ℕ, List, [], false, Some, None, IfOk, IfErr, OnOk, OnErr, bytes_eq, if◌then◌else◌};
ghost use Rattle.std.specs.List.{IsDistinct, list_any};
ghost use Rattle.tmf_model.specs.Config.{IsWithin};
ghost use Rattle.record_locks.specs.Names.{file_bounds};
ghost use Rattle.record_locks.specs.Locks.{kept_at};
ghost use Rattle.record_locks.specs.declared.name.LockName.{LockName as TheName};

use crate::held::{Held, list_name, take_names};
use crate::name::LockName;
use crate::refused::{NoMemory, TakeRefused};
use crate::table::{Lock, Table, free_all};
use std::alloc::Global;
use std::collections::BTreeMap;
use std::marker::Model;
use std::ops::Bound;
use tmf_model::{Key, Transid, place_of};

/// Which transaction holds which names. Contracts see the locks in the order of their names.
#[derive(Drop)]
pub struct Locks {
    alloc: Global,
    table: Table,
    held: Held,
}

impl Model for Locks {
    ghost use Rattle.std.specs.Prelude.{List};
    ghost use Rattle.record_locks.specs.Names.{Entry};
    ghost use Rattle.record_locks.specs.Tied.{AreAlone, AreListed};

    ghost Value = { List Entry };

    ghost view = { λ l. l.table.entries };

    ghost invariant = { λ l. AreListed l.table.entries l.held × AreAlone l.table.entries };
}

/// From the lock of a file to the last of its records.
fn names_in(file: u8) -> (Bound<LockName>, Bound<LockName>)
    ensures { result ≡ file_bounds file }
{
    let next = match file.checked_add(1) {
        Some(next) => Bound::Excluded(LockName {
            file: next,
            key: None,
        }),
        None => Bound::Unbounded,
    };
    (Bound::Included(LockName { file, key: None }), next)
}

/// The key of the lock, where it is of the block and held by writing.
fn kept_key(name: &LockName, lock: &Lock, file: u8, block: u16, blocks: u16) -> Option<Key>
    requires { IsWithin 1 256 blocks }
    ensures { result ≡ kept_at name.now.key (name.now.file == file && lock.now.writing) block blocks }
{
    if name.file != file || !lock.writing {
        return None;
    }
    name.key.filter(|key| place_of(key, blocks) == block)
}

impl Locks {
    ghost use Rattle.record_locks.specs.Names.{is_same_name};
    ghost use Rattle.record_locks.specs.Tied.{AreLocks, MayHold};
    ghost use Rattle.record_locks.specs.Locks.{HasTaken, IsBlocker, IsFileBlocker, IsHeldNow, IsTakeRefusal, SameLocks, file_name, freed, holder, is_kept, key_blocker, key_name, lock_at, marked, own_holder};

    /// No lock.
    pub fn new(alloc: Global) -> Locks
        ensures { result ≡ [] }
    {
        Locks {
            alloc,
            table: BTreeMap::new(alloc),
            held: BTreeMap::new(alloc),
        }
    }

    /// What holds of the locks at all times.
    pub fn always(&self)
        ensures { AreLocks self.now }
    {
        let _count = self.table.len();
    }

    /// Who holds the record: the holder of its file, and else its own.
    pub fn held(&self, file: u8, key: &Key) -> Option<Transid>
        ensures { result ≡ holder self.now file key.now }
    {
        let whole = LockName { file, key: None };
        let record = LockName {
            file,
            key: Some(*key),
        };
        match self.own_holder(&whole) {
            Some(holder) => Some(holder),
            None => self.own_holder(&record),
        }
    }

    /// Who holds the name by itself.
    fn own_holder(&self, name: &LockName) -> Option<Transid>
        ensures { result ≡ own_holder self.now name.now }
    {
        self.table.get(name).map(|lock| lock.holder)
    }

    /// Who stands against the transaction's lock of the record: its holder, where that is another.
    pub fn key_blocker(&self, file: u8, key: &Key, t: Transid) -> Option<Transid>
        ensures { result ≡ key_blocker self.now file key.now t }
    {
        match self.held(file, key) {
            Some(holder) if holder != t => Some(holder),
            _ => None,
        }
    }

    /// Takes the record's lock for the transaction.
    pub fn take(&mut self, file: u8, key: Key, t: Transid) -> Result<(), TakeRefused>
        ensures taken { OnOk result (HasTaken self.old self.new (key_name file key) t) }
        ensures refused { IfErr result (IsTakeRefusal self.old (key_name file key) t) }
        ensures unchanged { OnErr result (SameLocks self.old self.new) }
    {
        if let Some(holder) = self.key_blocker(file, &key, t) {
            return Err(TakeRefused::Holder(holder));
        }
        let name = LockName {
            file,
            key: Some(key),
        };
        self.hold(&name, t)?;
        Ok(())
    }

    /// Holds a name for the transaction which nobody stands against.
    fn hold(&mut self, name: &LockName, t: Transid) -> Result<(), NoMemory>
        requires { IsBlocker self.old name.now t None }
        ensures locks { OnOk result (IsHeldNow self.old self.new name.now t) }
        ensures none { OnErr result (lock_at self.old name.now ≡ None) }
        ensures unchanged { OnErr result (SameLocks self.old self.new) }
    {
        if self.table.contains_key(name) {
            return Ok(());
        }
        self.add(name, t)
    }

    /// Lists a name that nobody holds as the transaction's.
    fn add(&mut self, name: &LockName, t: Transid) -> Result<(), NoMemory>
        requires none { lock_at self.old name.now ≡ None }
        requires may { MayHold self.old name.now t }
        ensures locks { OnOk result (IsHeldNow self.old self.new name.now t) }
        ensures unchanged { OnErr result (SameLocks self.old self.new) }
    {
        let lock = Lock {
            holder: t,
            writing: false,
        };
        let LockName { file, key } = *name;
        self.table.insert(LockName { file, key }, lock)?;
        if list_name(self.alloc, &mut self.held, t, name).is_err() {
            self.table.remove(name);
            return Err(NoMemory);
        }
        Ok(())
    }

    /// Notes that the record, whose lock was taken, is held by writing.
    pub fn mark(&mut self, file: u8, key: &Key)
        ensures { (q : TheName) → lock_at self.new q ≡ (if is_same_name q (key_name file key.now) then marked (lock_at self.old q) else lock_at self.old q) }
    {
        let name = LockName {
            file,
            key: Some(*key),
        };
        let Some(lock) = self.table.get_mut(&name) else {
            return;
        };
        lock.writing = true;
    }

    /// Who stands against the transaction's lock of the whole file.
    pub fn file_blocker(&self, file: u8, t: Transid) -> Option<Transid>
        ensures { IsFileBlocker self.now file t result }
    {
        for (name, lock) in self.table.range(names_in(file)) {
            if name.file == file && lock.holder != t {
                return Some(lock.holder);
            }
        }
        None
    }

    /// Takes the lock of the whole file for the transaction.
    pub fn take_file(&mut self, file: u8, t: Transid) -> Result<(), TakeRefused>
        ensures taken { OnOk result (HasTaken self.old self.new (file_name file) t) }
        ensures refused { IfErr result (IsTakeRefusal self.old (file_name file) t) }
        ensures unchanged { OnErr result (SameLocks self.old self.new) }
    {
        if let Some(holder) = self.file_blocker(file, t) {
            return Err(TakeRefused::Holder(holder));
        }
        self.hold(&LockName { file, key: None }, t)?;
        Ok(())
    }

    /// The keys of a block that are held by writing, each once.
    pub fn kept(&self, file: u8, block: u16, blocks: u16) -> Result<Vec<Key>, NoMemory>
        requires { IsWithin 1 256 blocks }
        ensures distinct { IfOk result (λ keys. IsDistinct bytes_eq keys.items) }
        ensures exact { IfOk result (λ keys. (key : List ℕ) → list_any (bytes_eq key) keys.items ≡ is_kept self.now file block blocks key) }
    {
        let mut kept = Vec::new(self.alloc);
        for (name, lock) in self.table.range(names_in(file)) {
            if let Some(key) = kept_key(name, lock, file, block, blocks) {
                kept.push(key)?;
            }
        }
        Ok(kept)
    }

    /// Frees what the transaction holds, and nothing else.
    pub fn release(&mut self, t: Transid)
        ensures { (q : TheName) → lock_at self.new q ≡ freed t (lock_at self.old q) }
    {
        let names = take_names(self.alloc, &mut self.held, t);
        free_all(&mut self.table, &names);
    }
}
