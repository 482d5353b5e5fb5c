//! The tests of crates at the bottom of the machine and of the session. They stand here because a crate with tests is proved twice, with and without them.
#![tactic(auto)]

#[cfg(test)]
mod builtins;
#[cfg(test)]
mod cells;
#[cfg(test)]
mod commands;
#[cfg(test)]
mod ends;
#[cfg(test)]
mod heaps;
#[cfg(test)]
mod stores;
#[cfg(test)]
mod streams;
#[cfg(test)]
mod sums;
