//! The reader of types, expressions and initializers.
#![tactic(auto)]

mod arguments;
mod bounds;
mod creation;
mod expression;
mod forms;
mod levels;
mod nodes;
mod operators;
mod part;
mod parts;
mod postfix;
mod primary;
mod reader;
mod selection;
mod sets;
mod types;
mod unary;
mod values;

pub use bounds::Bounds;
pub use nodes::node_below;
pub use operators::assign_op;
pub use part::Part;
pub use parts::part_at;
pub use reader::limited;
pub use sets::{assign_at, is_assign, is_primitive, is_type_word, type_word_at};
pub use types::{dims, type_at};
