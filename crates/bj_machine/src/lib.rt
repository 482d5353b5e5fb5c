//! The machine: the main thread over its store, and the log of all that happened.
#![tactic(auto)]

mod acting;
mod beginning;
mod dropped;
mod laws;
mod loaded;
mod log;
mod machine;

pub use loaded::Loaded;
pub use log::Log;
pub use machine::{BeginFault, Machine, Step};
