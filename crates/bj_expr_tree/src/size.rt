ghost use Rattle.std.specs.Prelude.{◌≡◌, max, min, map};
ghost use Rattle.bj_expr_tree.specs.declared.expr.ExprTree.{out-ExprTree};
ghost use Rattle.bj_expr_tree.specs.Forms.{IsLoosest};
ghost use Rattle.bj_expr_tree.specs.Size.{height_of, most};

use crate::ExprTree;
use crate::capped::one_more;

/// The greater of two.
fn greater(a: u32, b: u32) -> u32
    ensures { result ≡ max a b }
{
    if a < b { b } else { a }
}

/// How many nodes stand on the longest way down from an expression's root, the root included, or 4294967295 where there
/// are more. It takes no memory.
#[cycle(heights)]
#[tactic(auto, using(crate::proofs::Heights::heights))]
pub fn height(tree: &ExprTree) -> u32
    ensures { result ≡ min (height_of tree.now) 4294967295 }
{
    match tree {
        ExprTree::Literal { .. } | ExprTree::This { .. } => 1,
        ExprTree::Paren { inner, .. } => one_more(height(inner.get())),
        ExprTree::Name { .. } | ExprTree::SuperField { .. } => 1,
        ExprTree::Field { target, .. } => one_more(height(target.get())),
        ExprTree::Call { args, .. } => one_more(highest(args.as_slice())),
        ExprTree::MethodCall { target, args, .. } => one_more(greater(
            height(target.get()),
            highest(args.as_slice()),
        )),
        ExprTree::SuperCall { args, .. } => one_more(highest(args.as_slice())),
        ExprTree::Index { array, index, .. } => one_more(greater(
            height(array.get()),
            height(index.get()),
        )),
        ExprTree::New { args, .. } => one_more(highest(args.as_slice())),
        ExprTree::NewArray { sizes, .. } => one_more(highest(sizes.as_slice())),
        ExprTree::NewValues { values, .. } => one_more(highest(values.as_slice())),
        ExprTree::Braces { values, .. } => one_more(highest(values.as_slice())),
        ExprTree::Postfix { operand, .. } => one_more(height(operand.get())),
        ExprTree::Prefix { operand, .. } => one_more(height(operand.get())),
        ExprTree::Unary { operand, .. } => one_more(height(operand.get())),
        ExprTree::Cast { operand, .. } => one_more(height(operand.get())),
        ExprTree::Binary { left, right, .. } => one_more(greater(
            height(left.get()),
            height(right.get()),
        )),
        ExprTree::InstanceOf { value, .. } => one_more(height(value.get())),
        ExprTree::Conditional { .. } | ExprTree::Assign { .. } => loosest_height(tree),
    }
}

/// The height of an expression with an operator that binds the loosest.
#[cycle(heights)]
#[tactic(auto, using(crate::proofs::Heights::heights))]
fn loosest_height(tree: &ExprTree) -> u32
    requires { IsLoosest (out-ExprTree tree.now) }
    ensures { result ≡ min (height_of tree.now) 4294967295 }
{
    match tree {
        ExprTree::Conditional {
            test,
            chosen,
            other,
            ..
        } => one_more(greater(
            height(test.get()),
            greater(height(chosen.get()), height(other.get())),
        )),
        ExprTree::Assign { target, value, .. } => one_more(greater(
            height(target.get()),
            height(value.get()),
        )),
        _ => unreachable!(),
    }
}

/// The greatest height of some expressions, and 0 of none.
#[cycle(heights)]
fn highest(trees: &[ExprTree]) -> u32
    ensures { result ≡ min (most (map height_of trees.now)) 4294967295 }
{
    let mut most = 0;
    for tree in trees {
        most = greater(most, height(tree));
    }
    most
}
