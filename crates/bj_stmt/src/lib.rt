//! The reader of statements.
#![tactic(auto)]

mod block;
mod choice;
mod evaluation;
mod for_loop;
mod guarding;
mod labels;
mod leaving;
mod loops;
mod names;
mod nodes;
mod part;
mod reader;
mod statement;
mod tokens;
mod top;
mod values;
mod variables;

pub use names::{maybe_final, name_at};
pub use part::StmtPart;
pub use tokens::declares;
pub use top::{statements_at, stmt_at};
pub use variables::variables_at;
