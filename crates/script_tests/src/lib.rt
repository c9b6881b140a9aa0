//! Tests of the script language's reader. It has no call of its own.
#![tactic(auto)]

#[cfg(test)]
mod tests;
