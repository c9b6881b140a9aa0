//! The words that the program is called with.
#![tactic(auto)]

mod asked;
mod words;

pub use asked::{Asked, asked_by};
pub use words::{accepts, bank_of, dir_of};
