//! The locks that are held, by their names.
ghost use Rattle.std.specs.Prelude.{◌≡◌, cond, None};
ghost use Rattle.std.specs.BTreeMap.{get};
ghost use Rattle.std.specs.List.{list_any};
ghost use Rattle.record_locks.specs.Names.{is_same_name, name_cmp};
ghost use Rattle.record_locks.specs.declared.name.LockName.{LockName as TheName};

use crate::name::LockName;
use std::collections::BTreeMap;
use tmf_model::Transid;

/// Who holds a name, and whether by writing.
#[derive(Clone, Copy, Debug, PartialEq, Eq)]
pub struct Lock {
    pub holder: Transid,
    pub writing: bool,
}

pub(crate) type Table = BTreeMap<LockName, Lock>;

/// Takes these names off the table.
pub(crate) fn free_all(table: &mut Table, names: &[LockName])
    ensures { (q : TheName) → get name_cmp table.new q ≡ cond (list_any (is_same_name q) names.now) None (get name_cmp table.old q) }
{
    for name in names {
        table.remove(name);
    }
}
