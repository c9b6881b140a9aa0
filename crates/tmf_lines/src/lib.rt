//! What the program prints and reads as text: its lines and scripts.
#![tactic(auto)]

mod line;
mod output;
mod pieces;
mod report;
mod script;
mod summary;

pub use line::{ActionKind, DeviceName, Line, PartName, add_line};
pub use output::{GiveFault, give_lines};
pub use report::{
    device_name, file_name, format_failure, listing_lines, node_device_name, part_name,
    recovery_lines, spent_line, volume_name,
};
pub use script::{ScriptRefusal, read_script};
pub use summary::{Summary, give_summary};
