//! One volume in itself: its recovery from its audit and the commits, its format, its loss, and the listing of its files.
#![tactic(auto)]

mod block;
mod changes;
mod fault;
mod find;
mod format;
mod gather;
mod inspect;
mod laws;
mod list;
mod lose;
mod pass;
mod recover;
mod restore;

pub use block::{RestoreFault, recovered_block};
pub use changes::{DiscPlace, NodeChanges, read_trail};
pub use fault::VolumeFault;
pub use format::{FormatFault, clear_dump, format_volume, formatted_law};
pub use gather::found_by_block;
pub use inspect::{Inspected, inspect_volume, read_low};
pub use laws::{recovery_images_law, restored_law, spelled_volume_law};
pub use list::{ListFault, list_volume};
pub use lose::lose_volume;
pub use recover::recover_volume;
