//! The reader of console lines.
#![tactic(auto)]

mod depth;
mod faults;
mod laws;
mod left_out;
mod line;
mod outcome;
mod symbols;

pub use depth::MOST_NODES;
pub use faults::{fault, spot};
pub use laws::lines_have_one_tree;
pub use left_out::{back, is_least, is_left_out};
pub use line::line_of;
pub use outcome::Outcome;
pub use symbols::symbols_of;
