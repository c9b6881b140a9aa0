//! Tests of the model's words and operations, and of what stands on them alone: locks, the timer of a boxcar, names of parts, and what the program reads as text. It has no call of its own.
#![tactic(auto)]

#[cfg(test)]
mod calls;
#[cfg(test)]
mod locks;
#[cfg(test)]
mod operations;
#[cfg(test)]
mod parts;
#[cfg(test)]
mod scripts;
#[cfg(test)]
mod timer;
#[cfg(test)]
mod words;
