//! Tests of group commit: cars of one request and of many, on one thread and on several. It has no call of its own.
#![tactic(auto)]

#[cfg(test)]
mod many;
#[cfg(test)]
mod tests;
