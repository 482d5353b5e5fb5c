//! The printer of Java: what it prints of a tree that was read is read as the same tree.
#![tactic(auto)]

mod print;

pub use print::{print_class, print_expr, print_stmt};
