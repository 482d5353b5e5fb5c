ghost use Rattle.std.specs.Prelude.{◌≡◌, ℕ, List, [], ◌∷◌, None, IfOk};
ghost use Rattle.bj_tree.specs.declared.line.LineTree.TheVariants as lines;
ghost use Rattle.bj_writer.specs.Pieces.{written};
ghost use Rattle.bj_layout.specs.Exprs.{expr_pieces};
ghost use Rattle.bj_layout.specs.Stmts.{stmt_pieces};
ghost use Rattle.bj_layout.specs.Classes.{class_pieces};
ghost use Rattle.bj_print.specs.Printed.{IsLineText, IsClassText, ReadsAsExpr, ReadsAsStmt, ReadsAsClass};

use bj_base::{JText, NoMemory};
use bj_layout::{class_text, expr_text, stmt_text};
use bj_tree::{ClassTree, ExprTree, StmtTree};
use std::alloc::Global;

/// The text of an expression [JLS 15], in UTF-16 units: one space round an operator with two operands or three, behind a comma and behind a
/// cast; parentheses as in the tree; literals as they were written; and a space between two tokens that would be another one together
/// (`- -x`, `1 .x`).
///
/// # Errors
///
/// `NoMemory` where there is no room for the text.
pub fn print_expr(alloc: Global, tree: &ExprTree) -> Result<JText, NoMemory>
    // The text is the one of the layout.
    ensures layout { IfOk result (λ units. units ≡ written None (expr_pieces tree.now)) }
    // An expression that some text is read as: the printed text is read as the same one, but for places.
    ensures reads_back { IfOk result (λ units. (bytes : List ℕ) → IsLineText bytes (lines.Expr tree.now) → ReadsAsExpr units tree.now) }
{
    let units = expr_text(alloc, tree)?;
    Ok(units)
}

/// The text of a statement [JLS 14], in one line and without a line end, as `print_expr` writes expressions.
///
/// # Errors
///
/// `NoMemory` where there is no room for the text.
pub fn print_stmt(alloc: Global, tree: &StmtTree) -> Result<JText, NoMemory>
    // The text is the one of the layout.
    ensures layout { IfOk result (λ units. units ≡ written None (stmt_pieces tree.now)) }
    // A statement that some text is read as: the printed text is read as the same one, but for places.
    ensures reads_back { IfOk result (λ units. (bytes : List ℕ) → IsLineText bytes (lines.Stmts (tree.now ∷ [])) → ReadsAsStmt units tree.now) }
{
    let units = stmt_text(alloc, tree)?;
    Ok(units)
}

/// The text of a file with its class or its interface [JLS 7.3, 8, 9]: an import a line and an empty line behind them; braces of the class, of
/// methods, constructors and initializer blocks in lines of their own; an annotation a line; members indented by four spaces, with an empty
/// line between two of them that are not both fields; the statements of a body indented by eight, each in one line as `print_stmt` writes it.
/// The last line has its line end.
///
/// # Errors
///
/// `NoMemory` where there is no room for the text.
pub fn print_class(alloc: Global, tree: &ClassTree) -> Result<JText, NoMemory>
    // The text is the one of the layout.
    ensures layout { IfOk result (λ units. units ≡ written None (class_pieces tree.now)) }
    // A file that some text is read as: the printed text is read as the same one, but for places.
    ensures reads_back { IfOk result (λ units. (bytes : List ℕ) → IsClassText bytes tree.now → ReadsAsClass units tree.now) }
{
    let units = class_text(alloc, tree)?;
    Ok(units)
}
