//! The model of a node: its records, its scripts and what they mean.
#![tactic(auto)]

mod config;
mod name;
mod operation;
mod place;
mod script;
mod sequence;
mod text;
mod transid;
mod word;

pub use config::{Config, FileLine, Volume};
pub use name::Name;
pub use operation::apply;
pub use place::place_of;
pub use script::{Action, Close, Item, Op, Phase, Reason, Script, Step, Transaction};
pub use sequence::Sequence;
pub use transid::Transid;
pub use word::{BadWord, Key, VALUE_BYTES, Value};
