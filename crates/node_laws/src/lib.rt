//! The laws of `node_machine`, from those of a node for any types.
#![tactic(auto)]

ghost use Rattle.node_machine.specs.Archives.{WholeLaw};
ghost use Rattle.node_machine.specs.Deeds.{DoneLaw, EventsLaw};
ghost use Rattle.node_machine.specs.Holders.{AloneLaw, HolderLaw};
ghost use Rattle.node_machine.specs.Law.{CrashLaw, PurgeLaw, RollforwardLaw, SerialLaw};
ghost use Rattle.node_machine.specs.Live.{LiveLaw, PresentLaw, TurnLaw};
ghost use Rattle.node_machine.specs.Reads.{ReadsLaw};
ghost use Rattle.node_machine.specs.Receipts.{ReceiptLaw};
ghost use Rattle.node_machine.specs.Recovering.{RecoveryLaw};

/// Whatever the opening, the history and the images that it shows: they stand for the list that the monitor's image spells, and for
/// the map that its commits come to over the map of the opening.
pub fn crash_law()
    ensures { CrashLaw }
{}

/// With the same images each dump gives, with the audit that is kept, its volume's records of that map; and a dump that began in this
/// history has each block from a position that was durable when its label was offered, and began where all was quiet.
pub fn rollforward_law()
    ensures { RollforwardLaw }
{}

/// A purge takes no record that a low position, a label or a dump under way may still ask for.
pub fn purge_law()
    ensures { PurgeLaw }
{}

/// All audit of a disc, of earlier runs and of this one, gives with any first part of the monitor's list the map that the commits of that
/// part come to, from no volume and no dump.
pub fn whole_law()
    ensures { WholeLaw }
{}

/// In the order of the monitor each committed transaction read, and its changes found, what the commits before its own and its own earlier
/// changes come to.
pub fn serial_law()
    ensures { SerialLaw }
{}

/// The reads of a committed transaction have found what its steps yield on the map that the commits before its own come to.
pub fn reads_law()
    ensures { ReadsLaw }
{}

/// That map is the fold over the transactions of all steps that were carried out: reads change nothing of it.
pub fn done_law()
    ensures { DoneLaw }
{}

/// A part's state has the events that the history has of it, the newest first.
pub fn events_law()
    ensures { EventsLaw }
{}

/// Each record that has landed stands at one place, in every image, and no other record of the run ends its attempt; whether or not the
/// devices tell their bytes.
pub fn receipt_law()
    ensures { ReceiptLaw }
{}

/// Who holds a key or a file of a disc has enlisted it, has not released there, and took it by a step of its own; whether or not the
/// devices tell their bytes.
pub fn holder_law()
    ensures { HolderLaw }
{}

/// A transaction is never turned away for another one at a disc where all others that have enlisted it have released.
pub fn alone_law()
    ensures { AloneLaw }
{}

/// At every moment an attempt that is neither committed nor backed out nor has released has read, and its changes have found, what the
/// commits so far and its own earlier changes come to.
pub fn present_law()
    ensures { PresentLaw }
{}

/// At every moment a key that nobody holds has the value that the commits so far come to; and one that is free for a live attempt has the
/// value that these and its own changes come to. Live: not committed, and nothing released or taken back at the disc.
pub fn live_law()
    ensures { LiveLaw }
{}

/// A refused step has that reason on the map that the commits so far and its attempt's own changes come to; where one found no room, that
/// map has no value at its key.
pub fn turn_law()
    ensures { TurnLaw }
{}

/// Whatever of a recovery or a rollforward was done to images, whole or stopped, they stand for the same map.
pub fn recovery_law()
    ensures { RecoveryLaw }
{}
