//! Tests of one disc: two transactions meet there, one is undone, and a file is locked. It has no call of its own.
#![tactic(auto)]

#[cfg(test)]
mod tests;
