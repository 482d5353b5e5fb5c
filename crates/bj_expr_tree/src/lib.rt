//! Syntax trees of the profile's types and expressions: one variant a production, its parts in order, and where its first token stands.
#![tactic(auto)]

mod capped;
mod expr;
mod expr_copy;
mod expr_count;
mod size;
mod types;

pub use capped::{one_more, plus};
pub use expr::{AssignOp, BinaryOp, ExprTree, ExprTrees, LiteralKind, StepOp, UnaryOp};
pub use expr_copy::{copy_boxed_expr, copy_exprs, copy_optional_expr};
pub use expr_count::{all_expr_nodes, expr_nodes, optional_expr_nodes};
pub use size::height;
pub use types::{NamedPlace, NamedPlaces, TypeName, TypeTree, TypeTrees};
