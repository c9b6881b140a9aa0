//! The laws of a node for any types of transactions, keys and operations: a machine of functions, and what follows from each of its
//! histories. The laws stand here for numbers as transactions, keys and values; lemmas say the same for any.
#![tactic(auto)]

ghost use Rattle.any_node.specs.Numbered.{Numbered, layout};
ghost use Rattle.any_node.specs.Recovery.{RecoveryLaw};
ghost use Rattle.any_node.specs.Attempts.{LiveLaw, PresentLaw};
ghost use Rattle.any_node.specs.Law.{CrashLaw, PurgeLaw, RollforwardLaw, SerialLaw, WholeLaw};

/// Whatever the opening, the history and the images that it shows, they stand for the fold over the commits that they spell: with
/// room in each block, each volume and each dump with the audit that is kept, each position kept that a recovery asks for, and no
/// record of a later epoch.
pub fn crash_law()
    ensures { (n : Numbered) → CrashLaw (layout n) }
{}

/// A dump that a history made has each block from some durable position that is not before the dump's start, which was quiet.
pub fn rollforward_law()
    ensures { (n : Numbered) → RollforwardLaw (layout n) }
{}

/// A purge takes no record at or above a low position or a dump's start that an image can show.
pub fn purge_law()
    ensures { (n : Numbered) → PurgeLaw (layout n) }
{}

/// In the monitor's order each committed transaction reads and finds what the fold before it left.
pub fn serial_law()
    ensures { (n : Numbered) → SerialLaw (layout n) }
{}

/// Rows that hold all audit of each disc, with the records of this run and any first part of the list, come to the fold over its
/// commits from no base at all.
pub fn whole_law()
    ensures { (n : Numbered) → WholeLaw (layout n) }
{}

/// A key that nobody holds has the value that the commits so far come to, and what a live transaction did on a key leads from there to
/// the value that it has.
pub fn live_law()
    ensures { (n : Numbered) → LiveLaw (layout n) }
{}

/// At every moment a live transaction has read and found what the commits so far left, with its own steps.
pub fn present_law()
    ensures { (n : Numbered) → PresentLaw (layout n) }
{}

/// Whatever of a recovery or of a rollforward was done, the images stand for the same map.
pub fn recovery_law()
    ensures { (n : Numbered) → RecoveryLaw (layout n) }
{}
