//! The reader of files with their classes, beside that of console lines (`bj_line`).
#![tactic(auto)]

mod annotations;
mod class;
mod file;
mod halt;
mod imports;
mod left_out;
mod marks;
mod members;

pub use annotations::AnnotationsEnd;
pub use bj_line::{Outcome, line_of, lines_have_one_tree};
pub use class::class_of;
pub use halt::Halt;
