ghost use Rattle.std.specs.Prelude.{◌≡◌, suc, map, [], ◌∷◌};
ghost use Rattle.bj_expr_tree.specs.declared.expr.ExprTree.{out-ExprTree};
ghost use Rattle.bj_expr.specs.Nodes.{nodes_at, all_beside, first, HasBranches};

use bj_base::Span;
use bj_expr_tree::ExprTree;

/// Where the first node of an expression stands that has so many above it, if there is one. Nodes are met from left to right, and none
/// that is deeper. It takes no memory.
#[cycle(nodes)]
pub fn node_below(tree: &ExprTree, above: u16) -> Option<Span>
    ensures { result ≡ first (nodes_at tree.now above) }
{
    if above == 0 {
        return Some(root(tree));
    }
    node_inside(tree, above - 1)
}

/// Where an expression stands.
#[tactic(auto, using(crate::proofs::NodeForms::roots))]
fn root(tree: &ExprTree) -> Span
    ensures { nodes_at tree.now 0 ≡ result ∷ [] }
{
    match tree {
        ExprTree::Literal { at, .. } => *at,
        ExprTree::This { at, .. } => *at,
        ExprTree::Paren { at, .. } => *at,
        ExprTree::Name { at, .. } => *at,
        ExprTree::Field { at, .. } => *at,
        ExprTree::SuperField { at, .. } => *at,
        ExprTree::Call { at, .. } => *at,
        ExprTree::MethodCall { at, .. } => *at,
        ExprTree::SuperCall { at, .. } => *at,
        ExprTree::Index { at, .. } => *at,
        ExprTree::New { at, .. } => *at,
        ExprTree::NewArray { at, .. } => *at,
        ExprTree::NewValues { at, .. } => *at,
        ExprTree::Braces { at, .. } => *at,
        ExprTree::Postfix { at, .. } => *at,
        ExprTree::Prefix { at, .. } => *at,
        ExprTree::Unary { at, .. } => *at,
        ExprTree::Cast { at, .. } => *at,
        ExprTree::Binary { at, .. } => *at,
        ExprTree::InstanceOf { at, .. } => *at,
        ExprTree::Conditional { at, .. } => *at,
        ExprTree::Assign { at, .. } => *at,
    }
}

/// Where the first node below an expression's root stands that has so many between it and the root.
#[cycle(nodes)]
#[tactic(auto, using(crate::proofs::NodeForms::below_roots))]
fn node_inside(tree: &ExprTree, above: u16) -> Option<Span>
    ensures { result ≡ first (nodes_at tree.now (suc above)) }
{
    match tree {
        ExprTree::Literal { .. }
        | ExprTree::This { .. }
        | ExprTree::Name { .. }
        | ExprTree::SuperField { .. } => None,
        ExprTree::Paren { inner, .. } => node_below(inner.get(), above),
        ExprTree::Field { target, .. } => node_below(target.get(), above),
        ExprTree::Call { args, .. } => node_among(args.as_slice(), above),
        ExprTree::SuperCall { args, .. } => node_among(args.as_slice(), above),
        ExprTree::New { args, .. } => node_among(args.as_slice(), above),
        ExprTree::NewArray { sizes, .. } => node_among(sizes.as_slice(), above),
        ExprTree::NewValues { values, .. } => node_among(values.as_slice(), above),
        ExprTree::Braces { values, .. } => node_among(values.as_slice(), above),
        ExprTree::Postfix { operand, .. } => node_below(operand.get(), above),
        ExprTree::Prefix { operand, .. } => node_below(operand.get(), above),
        ExprTree::Unary { operand, .. } => node_below(operand.get(), above),
        ExprTree::Cast { operand, .. } => node_below(operand.get(), above),
        ExprTree::InstanceOf { value, .. } => node_below(value.get(), above),
        ExprTree::MethodCall { .. }
        | ExprTree::Index { .. }
        | ExprTree::Binary { .. }
        | ExprTree::Conditional { .. }
        | ExprTree::Assign { .. } => node_in_branches(tree, above),
    }
}

/// The same of an expression with more than one part that nodes are looked for in.
#[cycle(nodes)]
#[tactic(auto, using(crate::proofs::NodeForms::branches))]
fn node_in_branches(tree: &ExprTree, above: u16) -> Option<Span>
    requires { HasBranches (out-ExprTree tree.now) }
    ensures { result ≡ first (nodes_at tree.now (suc above)) }
{
    match tree {
        ExprTree::MethodCall { target, args, .. } => match node_below(target.get(), above) {
            Some(node) => Some(node),
            None => node_among(args.as_slice(), above),
        },
        ExprTree::Index { array, index, .. } => match node_below(array.get(), above) {
            Some(node) => Some(node),
            None => node_below(index.get(), above),
        },
        ExprTree::Binary { left, right, .. } => match node_below(left.get(), above) {
            Some(node) => Some(node),
            None => node_below(right.get(), above),
        },
        ExprTree::Conditional {
            test,
            chosen,
            other,
            ..
        } => match node_below(test.get(), above) {
            Some(node) => Some(node),
            None => match node_below(chosen.get(), above) {
                Some(node) => Some(node),
                None => node_below(other.get(), above),
            },
        },
        ExprTree::Assign { target, value, .. } => match node_below(target.get(), above) {
            Some(node) => Some(node),
            None => node_below(value.get(), above),
        },
        _ => unreachable!(),
    }
}

/// Where the first node stands among some expressions that has so many above it in its own.
#[cycle(nodes)]
fn node_among(trees: &[ExprTree], above: u16) -> Option<Span>
    ensures { result ≡ first (all_beside (map nodes_at trees.now) above) }
{
    for tree in trees {
        match node_below(tree, above) {
            Some(node) => return Some(node),
            None => {}
        }
    }
    None
}
