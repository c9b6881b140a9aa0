//! The script language: the reader of scripts, and the grammar that it reads by.
#![tactic(auto)]

mod act;
mod bank;
mod declare;
mod fault;
mod field;
mod keyword;
mod laws;
mod line;
mod reader;
mod run;
mod state;
mod take;
mod words;

pub use bank::bank_text;
pub use fault::{ParseError, Why};
pub use laws::{bank_is_a_script, each_script_has_words, no_repair, one_answer, only_words_count};
pub use reader::parse;
pub use words::{next_line, next_word};
