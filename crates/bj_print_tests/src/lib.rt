//! The tests of the layout and the printer. They stand here because a crate with tests is proved twice, with and without them.
#![tactic(auto)]

#[cfg(test)]
mod built;
#[cfg(test)]
mod layouts;
#[cfg(test)]
mod printed;
