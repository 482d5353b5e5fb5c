//! What a line asks of the machine, and what is written of it: replies and events.
#![tactic(auto)]

mod asking;
mod outcomes;
mod terms;

pub use asking::{Asked, ask};
