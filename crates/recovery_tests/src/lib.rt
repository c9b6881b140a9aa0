//! Tests of what brings a node back: its recovery, and the rollforward of a lost volume. It has no call of its own.
#![tactic(auto)]

#[cfg(test)]
mod fills;
#[cfg(test)]
mod nodes;
#[cfg(test)]
mod rolls;
