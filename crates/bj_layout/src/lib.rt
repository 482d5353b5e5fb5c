//! How Java is laid out: the text that is written of a tree.
#![tactic(auto)]

mod bare;
mod blocks;
mod body;
mod class;
mod expr;
mod for_loop;
mod guards;
mod heads;
mod imports;
mod lists;
mod member;
mod members;
mod modifiers;
mod names;
mod operators;
mod optional;
mod parameters;
mod stmt;
mod text;
mod tokens;
mod types;
mod variables;

pub use text::{class_text, expr_text, stmt_text};
