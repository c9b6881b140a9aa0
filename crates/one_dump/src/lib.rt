//! Tests of online dumps: a dump device's file is written and read, a volume is dumped, changed and dumped again, and a dump during a held one is turned away. It has no call of its own.
#![tactic(auto)]

#[cfg(test)]
mod dump_file;
#[cfg(test)]
mod tests;
