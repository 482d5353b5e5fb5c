//! Syntax trees of the profile's Java: one variant a production, its parts in order, and where its first token stands.
#![tactic(auto)]

mod class;
mod count;
mod line;
mod member;
mod stmt;
mod stmt_copy;

pub use bj_expr_tree::{
    AssignOp, BinaryOp, ExprTree, ExprTrees, LiteralKind, NamedPlace, NamedPlaces, StepOp,
    TypeName, TypeTree, TypeTrees, UnaryOp, expr_nodes, height,
};
pub use class::{
    AnnotationTree, AnnotationTrees, ClassKind, ClassTree, ClassTrees, ImportTree, ImportTrees,
    Modifier, ModifierKind, Modifiers,
};
pub use count::nodes;
pub use line::LineTree;
pub use member::{
    ConstructorTree, FieldTree, InitializerTree, MemberTree, MemberTrees, MethodTree,
    ParameterTree, ParameterTrees,
};
pub use stmt::{StmtTree, StmtTrees, VariableTree, VariableTrees};
