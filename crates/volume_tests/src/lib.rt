//! Tests of volumes: blocks in a cache and on their device, a volume's recovery from changes, its format, loss and listing. It has no call of its own.
#![tactic(auto)]

#[cfg(test)]
mod blocks;
#[cfg(test)]
mod recovered;
#[cfg(test)]
mod volumes;
