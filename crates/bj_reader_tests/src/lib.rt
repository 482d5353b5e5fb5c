//! The tests of the reader. They stand here because a crate with tests is proved twice, with and without them.
#![tactic(auto)]

#[cfg(test)]
mod classes;
#[cfg(test)]
mod depths;
#[cfg(test)]
mod faults;
#[cfg(test)]
mod forms;
#[cfg(test)]
mod lines;
#[cfg(test)]
mod nodes;
#[cfg(test)]
mod replies;
