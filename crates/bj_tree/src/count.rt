ghost use Rattle.std.specs.Prelude.{◌≡◌, min, map};
ghost use Rattle.bj_tree.specs.declared.stmt.StmtTree.{out-StmtTree};
ghost use Rattle.bj_expr_tree.specs.Count.{total};
ghost use Rattle.bj_tree.specs.Count.{nodes_of, nodes_of_variable};
ghost use Rattle.bj_tree.specs.Forms.{IsChoice, IsFor, IsTry};

use crate::{StmtTree, VariableTree};
use bj_expr_tree::{all_expr_nodes, expr_nodes, one_more, optional_expr_nodes, plus};

/// How many nodes a statement has, or 4294967295 where it has more. It takes no memory. The nodes are the statement itself,
/// the statements, expressions and variables in it, the labels of a `switch` and the catches of a `try`.
#[cycle(counts)]
#[tactic(auto, using(crate::proofs::StmtNodes::stmt_nodes))]
pub fn nodes(tree: &StmtTree) -> u32
    ensures { result ≡ min (nodes_of tree.now) 4294967295 }
{
    match tree {
        StmtTree::Block { body, .. } => one_more(all_nodes(body.as_slice())),
        StmtTree::Empty { .. } => 1,
        StmtTree::Local { variables, .. } => one_more(all_variable_nodes(variables.as_slice())),
        StmtTree::Expression { value, .. } => one_more(expr_nodes(value.get())),
        StmtTree::ConstructorCall { args, .. } => one_more(all_expr_nodes(args.as_slice())),
        StmtTree::If { .. }
        | StmtTree::IfElse { .. }
        | StmtTree::Switch { .. }
        | StmtTree::Case { .. }
        | StmtTree::Default { .. } => choice_nodes(tree),
        StmtTree::For { .. } | StmtTree::ForEach { .. } => for_nodes(tree),
        StmtTree::While { test, body, .. } => one_more(plus(
            expr_nodes(test.get()),
            nodes(body.get()),
        )),
        StmtTree::Do { body, test, .. } => one_more(plus(
            nodes(body.get()),
            expr_nodes(test.get()),
        )),
        StmtTree::Labelled { body, .. } => one_more(nodes(body.get())),
        StmtTree::Synchronized { lock, body, .. } => one_more(plus(
            expr_nodes(lock.get()),
            nodes(body.get()),
        )),
        StmtTree::SynchronizedClass { body, .. } => one_more(nodes(body.get())),
        StmtTree::Break { .. } | StmtTree::Continue { .. } => 1,
        StmtTree::Return { value, .. } => one_more(optional_expr_nodes(value)),
        StmtTree::Throw { value, .. } => one_more(expr_nodes(value.get())),
        StmtTree::Try { .. } | StmtTree::TryFinally { .. } | StmtTree::Catch { .. } => try_nodes(
            tree,
        ),
    }
}

/// The nodes of an `if`, of a `switch` or of a label in one.
#[cycle(counts)]
#[tactic(auto, using(crate::proofs::StmtNodes::stmt_nodes))]
fn choice_nodes(tree: &StmtTree) -> u32
    requires { IsChoice (out-StmtTree tree.now) }
    ensures { result ≡ min (nodes_of tree.now) 4294967295 }
{
    match tree {
        StmtTree::If { test, body, .. } => one_more(plus(
            expr_nodes(test.get()),
            nodes(body.get()),
        )),
        StmtTree::IfElse {
            test,
            body,
            other,
            ..
        } => one_more(plus(
            expr_nodes(test.get()),
            plus(nodes(body.get()), nodes(other.get())),
        )),
        StmtTree::Switch { value, members, .. } => one_more(plus(
            expr_nodes(value.get()),
            all_nodes(members.as_slice()),
        )),
        StmtTree::Case { value, .. } => one_more(expr_nodes(value.get())),
        StmtTree::Default { .. } => 1,
        _ => unreachable!(),
    }
}

/// The nodes of a `for`.
#[cycle(counts)]
#[tactic(auto, using(crate::proofs::StmtNodes::stmt_nodes))]
fn for_nodes(tree: &StmtTree) -> u32
    requires { IsFor (out-StmtTree tree.now) }
    ensures { result ≡ min (nodes_of tree.now) 4294967295 }
{
    match tree {
        StmtTree::For {
            init,
            test,
            update,
            body,
            ..
        } => one_more(plus(
            all_nodes(init.as_slice()),
            plus(
                optional_expr_nodes(test),
                plus(all_expr_nodes(update.as_slice()), nodes(body.get())),
            ),
        )),
        StmtTree::ForEach { over, body, .. } => one_more(plus(
            expr_nodes(over.get()),
            nodes(body.get()),
        )),
        _ => unreachable!(),
    }
}

/// The nodes of a `try` or of a catch of one.
#[cycle(counts)]
#[tactic(auto, using(crate::proofs::StmtNodes::stmt_nodes))]
fn try_nodes(tree: &StmtTree) -> u32
    requires { IsTry (out-StmtTree tree.now) }
    ensures { result ≡ min (nodes_of tree.now) 4294967295 }
{
    match tree {
        StmtTree::Try { body, catches, .. } => one_more(plus(
            nodes(body.get()),
            all_nodes(catches.as_slice()),
        )),
        StmtTree::TryFinally {
            body,
            catches,
            finally,
            ..
        } => one_more(plus(
            nodes(body.get()),
            plus(all_nodes(catches.as_slice()), nodes(finally.get())),
        )),
        StmtTree::Catch { body, .. } => one_more(nodes(body.get())),
        _ => unreachable!(),
    }
}

/// The nodes of some statements.
#[cycle(counts)]
fn all_nodes(trees: &[StmtTree]) -> u32
    ensures { result ≡ min (total (map nodes_of trees.now)) 4294967295 }
{
    let mut count = 0;
    for tree in trees {
        count = plus(count, nodes(tree));
    }
    count
}

/// The nodes of a variable: itself, and those of its initializer.
fn variable_nodes(variable: &VariableTree) -> u32
    ensures { result ≡ min (nodes_of_variable variable.now) 4294967295 }
{
    one_more(optional_expr_nodes(&variable.init))
}

/// The nodes of some variables.
fn all_variable_nodes(variables: &[VariableTree]) -> u32
    ensures { result ≡ min (total (map nodes_of_variable variables.now)) 4294967295 }
{
    let mut count = 0;
    for variable in variables {
        count = plus(count, variable_nodes(variable));
    }
    count
}
