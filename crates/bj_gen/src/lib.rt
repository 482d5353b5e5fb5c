//! The code of a term and of a program, made from their core trees.
#![tactic(auto)]

mod depth;
mod emit;
mod names;
mod program;
mod statements;
mod term;

pub use program::generate;
pub use term::generate_term;
