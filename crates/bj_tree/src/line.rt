use crate::StmtTrees;
use crate::stmt_copy::copy_stmts;
use bj_base::{Copies, NoMemory};
use bj_expr_tree::{ExprTree, copy_boxed_expr};
use sqlite_items::Boxed;
use std::alloc::Global;

/// A console line: an expression where it can be read as one, else one or more statements.
#[derive(Drop)]
pub enum LineTree {
    /// An expression.
    Expr(Boxed<ExprTree>),
    /// Statements.
    Stmts(StmtTrees),
}

impl Copies for LineTree {
    fn copy(&self, alloc: Global) -> Result<LineTree, NoMemory> {
        match self {
            LineTree::Expr(expr) => Ok(LineTree::Expr(copy_boxed_expr(alloc, expr)?)),
            LineTree::Stmts(stmts) => Ok(LineTree::Stmts(copy_stmts(alloc, stmts.as_slice())?)),
        }
    }
}
