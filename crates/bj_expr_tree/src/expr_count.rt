ghost use Rattle.std.specs.Prelude.{◌≡◌, min, map, unwrap_or, option_map};
ghost use Rattle.bj_expr_tree.specs.declared.expr.ExprTree.{out-ExprTree};
ghost use Rattle.bj_expr_tree.specs.Count.{nodes_of_expr, total};
ghost use Rattle.bj_expr_tree.specs.Forms.{IsLoosest};

use crate::ExprTree;
use crate::capped::{one_more, plus};
use sqlite_items::Boxed;

/// The nodes of an expression, itself included, or 4294967295 where it has more.
#[cycle(expr_counts)]
#[tactic(auto, using(crate::proofs::ExprNodes::expr_nodes))]
pub fn expr_nodes(tree: &ExprTree) -> u32
    ensures { result ≡ min (nodes_of_expr tree.now) 4294967295 }
{
    match tree {
        ExprTree::Literal { .. } | ExprTree::This { .. } => 1,
        ExprTree::Paren { inner, .. } => one_more(expr_nodes(inner.get())),
        ExprTree::Name { .. } | ExprTree::SuperField { .. } => 1,
        ExprTree::Field { target, .. } => one_more(expr_nodes(target.get())),
        ExprTree::Call { args, .. } => one_more(all_expr_nodes(args.as_slice())),
        ExprTree::MethodCall { target, args, .. } => one_more(plus(
            expr_nodes(target.get()),
            all_expr_nodes(args.as_slice()),
        )),
        ExprTree::SuperCall { args, .. } => one_more(all_expr_nodes(args.as_slice())),
        ExprTree::Index { array, index, .. } => one_more(plus(
            expr_nodes(array.get()),
            expr_nodes(index.get()),
        )),
        ExprTree::New { args, .. } => one_more(all_expr_nodes(args.as_slice())),
        ExprTree::NewArray { sizes, .. } => one_more(all_expr_nodes(sizes.as_slice())),
        ExprTree::NewValues { values, .. } => one_more(all_expr_nodes(values.as_slice())),
        ExprTree::Braces { values, .. } => one_more(all_expr_nodes(values.as_slice())),
        ExprTree::Postfix { operand, .. } => one_more(expr_nodes(operand.get())),
        ExprTree::Prefix { operand, .. } => one_more(expr_nodes(operand.get())),
        ExprTree::Unary { operand, .. } => one_more(expr_nodes(operand.get())),
        ExprTree::Cast { operand, .. } => one_more(expr_nodes(operand.get())),
        ExprTree::Binary { left, right, .. } => one_more(plus(
            expr_nodes(left.get()),
            expr_nodes(right.get()),
        )),
        ExprTree::InstanceOf { value, .. } => one_more(expr_nodes(value.get())),
        ExprTree::Conditional { .. } | ExprTree::Assign { .. } => loosest_nodes(tree),
    }
}

/// The nodes of an expression with an operator that binds the loosest.
#[cycle(expr_counts)]
#[tactic(auto, using(crate::proofs::ExprNodes::expr_nodes))]
fn loosest_nodes(tree: &ExprTree) -> u32
    requires { IsLoosest (out-ExprTree tree.now) }
    ensures { result ≡ min (nodes_of_expr tree.now) 4294967295 }
{
    match tree {
        ExprTree::Conditional {
            test,
            chosen,
            other,
            ..
        } => one_more(plus(
            expr_nodes(test.get()),
            plus(expr_nodes(chosen.get()), expr_nodes(other.get())),
        )),
        ExprTree::Assign { target, value, .. } => one_more(plus(
            expr_nodes(target.get()),
            expr_nodes(value.get()),
        )),
        _ => unreachable!(),
    }
}

/// The nodes of some expressions.
#[cycle(expr_counts)]
pub fn all_expr_nodes(trees: &[ExprTree]) -> u32
    ensures { result ≡ min (total (map nodes_of_expr trees.now)) 4294967295 }
{
    let mut count = 0;
    for tree in trees {
        count = plus(count, expr_nodes(tree));
    }
    count
}

/// The nodes of an expression that may be missing.
pub fn optional_expr_nodes(tree: &Option<Boxed<ExprTree>>) -> u32
    ensures { result ≡ min (unwrap_or (option_map nodes_of_expr tree.now) 0) 4294967295 }
{
    match tree {
        None => 0,
        Some(tree) => expr_nodes(tree.get()),
    }
}
