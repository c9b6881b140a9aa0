//! Tests of the run of a phase. It has no call of its own.
#![tactic(auto)]

#[cfg(test)]
mod ends;
#[cfg(test)]
mod folds;
#[cfg(test)]
mod held;
#[cfg(test)]
mod kills;
#[cfg(test)]
mod marks;
#[cfg(test)]
mod nodes;
#[cfg(test)]
mod runs;
#[cfg(test)]
mod turns;
