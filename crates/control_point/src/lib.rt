//! Control points (checkpoints): the low position of a volume moves to the greatest one below which nothing is unfinished, and its trail is purged behind it.
#![tactic(auto)]

mod controlling;
mod drawing;
mod lowering;
mod purging;
mod refused;
mod spending;

pub use controlling::control;
pub use refused::ControlRefused;
