//! A node whose volumes hold their records.

mod devices;
mod format;
mod laws;
mod list;
mod loss;
mod recovery;

pub use format::format_node;
pub use laws::{
    formatted_law, lost_law, lowered_law, recovered_law, recovering_law, resting_node_law,
};
pub use list::list_file;
pub use loss::lose;
pub use recovery::recover;
