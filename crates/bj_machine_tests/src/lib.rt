//! The tests of the machine, the names on its bench, and what is written of it. They stand here because a crate with tests is proved twice, with and without them.
#![tactic(auto)]

#[cfg(test)]
mod machines;
#[cfg(test)]
mod names;
#[cfg(test)]
mod replies;
