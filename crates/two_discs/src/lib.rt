//! Tests of the queue in front of a trail's writer: two discs that hand in to one trail. It has no call of its own.
#![tactic(auto)]

#[cfg(test)]
mod one_writer;
#[cfg(test)]
mod tests;
