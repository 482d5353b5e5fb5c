//! The tests of syntax trees and of what the profile asks of them. They stand here because a crate with tests is proved twice, with and without them.
#![tactic(auto)]

#[cfg(test)]
mod lists;
#[cfg(test)]
mod misfits;
#[cfg(test)]
mod trees;
