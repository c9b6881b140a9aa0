//! The names that each transaction holds, so that a release looks at no others.
ghost use Rattle.std.specs.Prelude.{◌≡◌, ◌++◌, [], ◌∷◌, IfOk, OnOk, OnErr, Some, if◌then◌else◌};
ghost use Rattle.tmf_model.specs.declared.transid.Transid.{Transid as TheTransid};
ghost use Rattle.record_locks.specs.Names.{is_same_transid};
ghost use Rattle.record_locks.specs.Tied.{names_of};

use crate::name::LockName;
use crate::refused::NoMemory;
use std::alloc::Global;
use std::collections::BTreeMap;
use tmf_model::Transid;

/// What one transaction holds.
#[derive(Drop)]
pub(crate) struct NameList {
    names: Vec<LockName>,
}

pub(crate) type Held = BTreeMap<Transid, NameList>;

impl NameList {
    ghost use Rattle.record_locks.specs.Tied.{names_in};

    /// One name.
    fn of(alloc: Global, name: &LockName) -> Result<NameList, NoMemory>
        ensures { IfOk result (λ list. names_in (Some list) ≡ name.now ∷ []) }
    {
        let mut list = NameList {
            names: Vec::new(alloc),
        };
        list.push(name)?;
        Ok(list)
    }

    /// Lists one more.
    fn push(&mut self, name: &LockName) -> Result<(), NoMemory>
        ensures listed { OnOk result (names_in (Some self.new) ≡ names_in (Some self.old) ++ name.now ∷ []) }
        ensures unchanged { OnErr result (names_in (Some self.new) ≡ names_in (Some self.old)) }
    {
        let LockName { file, key } = *name;
        self.names.push(LockName { file, key })?;
        Ok(())
    }
}

/// Lists the name behind the transaction's others.
pub(crate) fn list_name(
    alloc: Global,
    held: &mut Held,
    t: Transid,
    name: &LockName,
) -> Result<(), NoMemory>
    ensures listed { OnOk result ((u : TheTransid) → names_of held.new u ≡ (if is_same_transid u t then names_of held.old t ++ name.now ∷ [] else names_of held.old u)) }
    ensures unchanged { OnErr result ((u : TheTransid) → names_of held.new u ≡ names_of held.old u) }
{
    if let Some(list) = held.get_mut(&t) {
        return list.push(name);
    }
    held.insert(t, NameList::of(alloc, name)?)?;
    Ok(())
}

/// Takes the transaction's list away.
pub(crate) fn take_names(alloc: Global, held: &mut Held, t: Transid) -> Vec<LockName>
    ensures names { result.items ≡ names_of held.old t }
    ensures left { (u : TheTransid) → names_of held.new u ≡ (if is_same_transid u t then [] else names_of held.old u) }
{
    match held.remove(&t) {
        Some(list) => list.names,
        None => Vec::new(alloc),
    }
}
