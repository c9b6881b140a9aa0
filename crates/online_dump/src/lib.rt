//! Online dumps (fuzzy backups): a dump of a volume while others go on writing, and the device that holds it.
#![tactic(auto)]

mod at_disc;
mod body;
mod copying;
mod dump_file;
mod dumper;
mod dumping;
mod fault;
mod laws;
mod lock;
mod making;
mod placed;
mod refused;
mod sealed;
mod sealing;
mod seat;
mod spending;
mod steps;

pub use at_disc::{copy_next, land_at, raise_at, start_at};
pub use copying::Copying;
pub use dump_file::DumpFile;
pub use dumper::DumperState;
pub use dumping::dump;
pub use fault::DumperFault;
pub use laws::shown_law;
pub use lock::Dumper;
pub use placed::block_at;
pub use refused::DumpRefused;
pub use sealed::SealedDump;
pub use seat::DumpSeat;
