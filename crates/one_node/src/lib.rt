//! Tests of one node: phase one, a control point and a backout, over one trail, one disc and the monitor. It has no call of its own.
#![tactic(auto)]

#[cfg(test)]
mod cases;
#[cfg(test)]
mod left;
#[cfg(test)]
mod parts;
#[cfg(test)]
mod tests;
#[cfg(test)]
mod work;
