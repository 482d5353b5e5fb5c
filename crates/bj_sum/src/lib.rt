//! Reads sums, expressions of decimal `int` literals, `+`, `-`, `*`, unary minus and parentheses, and the creations and
//! calls of `Cell` that hold them.
#![tactic(auto)]

mod cells;
mod lex;
mod sum;
mod token;

pub use cells::{CellCall, cells_are_read, read_call, read_creation};
pub use sum::{MAX_TEXT, read_sum, reads_the_grammar, sums_are_of_sums};
