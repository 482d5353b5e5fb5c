ghost use Rattle.std.specs.Prelude.{◌≡◌};
ghost use Rattle.bj_expr_tree.specs.declared.expr.ExprTree.{out-ExprTree};
ghost use Rattle.bj_tree.specs.declared.stmt.StmtTree.{out-StmtTree};
ghost use Rattle.bj_rules.specs.Starts as spec;

use bj_base::Span;
use bj_tree::{ExprTree, StmtTree};

/// Where the first token of an expression stands.
pub fn expr_start(tree: &ExprTree) -> Span
    ensures { result ≡ spec.expr_start (out-ExprTree tree.now) }
{
    match tree {
        ExprTree::Literal { at, .. }
        | ExprTree::This { at, .. }
        | ExprTree::Paren { at, .. }
        | ExprTree::Name { at, .. }
        | ExprTree::Field { at, .. }
        | ExprTree::SuperField { at, .. }
        | ExprTree::Call { at, .. }
        | ExprTree::MethodCall { at, .. }
        | ExprTree::SuperCall { at, .. }
        | ExprTree::Index { at, .. }
        | ExprTree::New { at, .. }
        | ExprTree::NewArray { at, .. }
        | ExprTree::NewValues { at, .. }
        | ExprTree::Braces { at, .. }
        | ExprTree::Postfix { at, .. }
        | ExprTree::Prefix { at, .. }
        | ExprTree::Unary { at, .. }
        | ExprTree::Cast { at, .. }
        | ExprTree::Binary { at, .. }
        | ExprTree::InstanceOf { at, .. }
        | ExprTree::Conditional { at, .. }
        | ExprTree::Assign { at, .. } => *at,
    }
}

/// Where the first token of a statement stands.
pub fn stmt_start(tree: &StmtTree) -> Span
    ensures { result ≡ spec.stmt_start (out-StmtTree tree.now) }
{
    match tree {
        StmtTree::Block { at, .. }
        | StmtTree::Empty { at, .. }
        | StmtTree::Local { at, .. }
        | StmtTree::Expression { at, .. }
        | StmtTree::If { at, .. }
        | StmtTree::IfElse { at, .. }
        | StmtTree::While { at, .. }
        | StmtTree::Do { at, .. }
        | StmtTree::For { at, .. }
        | StmtTree::ForEach { at, .. }
        | StmtTree::Switch { at, .. }
        | StmtTree::Case { at, .. }
        | StmtTree::Default { at, .. }
        | StmtTree::Labelled { at, .. }
        | StmtTree::Break { at, .. }
        | StmtTree::Continue { at, .. }
        | StmtTree::Return { at, .. }
        | StmtTree::Throw { at, .. }
        | StmtTree::Synchronized { at, .. }
        | StmtTree::SynchronizedClass { at, .. }
        | StmtTree::Try { at, .. }
        | StmtTree::TryFinally { at, .. }
        | StmtTree::Catch { at, .. }
        | StmtTree::ConstructorCall { at, .. } => *at,
    }
}
