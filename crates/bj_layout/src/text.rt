ghost use Rattle.std.specs.Prelude.{◌≡◌, None, IfOk};
ghost use Rattle.bj_writer.specs.Pieces.{written};
ghost use Rattle.bj_layout.specs.Exprs.{expr_pieces};
ghost use Rattle.bj_layout.specs.Stmts.{stmt_pieces};
ghost use Rattle.bj_layout.specs.Classes.{class_pieces};

use crate::class::write_class;
use crate::expr::write_expr;
use crate::stmt::write_stmt;
use bj_base::{JText, NoMemory};
use bj_expr_tree::ExprTree;
use bj_tree::{ClassTree, StmtTree};
use bj_writer::Writer;
use std::alloc::Global;

/// The text of an expression, as it is laid out.
///
/// # Errors
///
/// `NoMemory` where there is no room for the text.
pub fn expr_text(alloc: Global, tree: &ExprTree) -> Result<JText, NoMemory>
    ensures { IfOk result (λ units. units ≡ written None (expr_pieces tree.now)) }
{
    let mut out = Writer::new(alloc);
    write_expr(&mut out, tree)?;
    Ok(out.into_text())
}

/// The text of a statement, as it is laid out.
///
/// # Errors
///
/// `NoMemory` where there is no room for the text.
pub fn stmt_text(alloc: Global, tree: &StmtTree) -> Result<JText, NoMemory>
    ensures { IfOk result (λ units. units ≡ written None (stmt_pieces tree.now)) }
{
    let mut out = Writer::new(alloc);
    write_stmt(&mut out, tree)?;
    Ok(out.into_text())
}

/// The text of a file, as it is laid out.
///
/// # Errors
///
/// `NoMemory` where there is no room for the text.
pub fn class_text(alloc: Global, tree: &ClassTree) -> Result<JText, NoMemory>
    ensures { IfOk result (λ units. units ≡ written None (class_pieces tree.now)) }
{
    let mut out = Writer::new(alloc);
    write_class(&mut out, tree)?;
    Ok(out.into_text())
}
