//! Why a change is not undone.
use record_locks::NoMemory;
use trail_files::Damage;

/// Why a change was not undone.
#[derive(Clone, Copy)]
pub enum UndoRefused {
    Failed(u8),
    Damaged(u8, Damage),
    NoMemory,
}

impl From<NoMemory> for UndoRefused {
    ghost use Rattle.std.specs.Prelude.{◌≡◌};
    ghost use Rattle.disc_process.specs.declared.undo_refused.UndoRefused.TheVariants as stuck;

    ghost from_gives = { λ _ e. e ≡ stuck.NoMemory };

    fn from(_e: NoMemory) -> UndoRefused {
        UndoRefused::NoMemory
    }
}
