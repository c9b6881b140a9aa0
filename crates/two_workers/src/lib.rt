//! Tests of the lock round a disc: two workers on two threads at one disc. It has no call of its own.
#![tactic(auto)]

#[cfg(test)]
mod tests;
