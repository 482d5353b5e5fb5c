//! The console's lines: how bytes are cut into them, and what each asks for.
#![tactic(auto)]

mod command;
mod cut;
mod form;
mod scan;

pub use command::{
    Command, LineFault, is_quit, pad_reads_few_forms, quit_is_quit, read_line, read_pad_line,
};
pub use cut::{Lines, count_lines, drop_cr, line_end};
