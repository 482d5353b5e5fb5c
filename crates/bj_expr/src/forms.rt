ghost use Rattle.std.specs.Prelude.{◌≡◌};
ghost use Rattle.bj_expr.specs.Grammar as grammar;
ghost use Rattle.bj_expr.specs.Reading as spec;

use crate::Part;
use crate::types::is_plain_primitive;
use bj_expr_tree::{ExprTree, TypeTree};

/// Whether the root of a tree is no operator of lower rank than the unary ones.
pub fn is_unary(tree: &ExprTree) -> bool
    ensures { result ≡ spec.is_unary tree.now }
{
    match tree {
        ExprTree::Literal { .. } => true,
        ExprTree::This { .. } => true,
        ExprTree::Paren { .. } => true,
        ExprTree::Name { .. } => true,
        ExprTree::Field { .. } => true,
        ExprTree::SuperField { .. } => true,
        ExprTree::Call { .. } => true,
        ExprTree::MethodCall { .. } => true,
        ExprTree::SuperCall { .. } => true,
        ExprTree::Index { .. } => true,
        ExprTree::New { .. } => true,
        ExprTree::NewArray { .. } => true,
        ExprTree::NewValues { .. } => true,
        ExprTree::Braces { .. } => true,
        ExprTree::Postfix { .. } => true,
        ExprTree::Prefix { .. } => true,
        ExprTree::Unary { .. } => true,
        ExprTree::Cast { .. } => true,
        ExprTree::Binary { .. } => false,
        ExprTree::InstanceOf { .. } => false,
        ExprTree::Conditional { .. } => false,
        ExprTree::Assign { .. } => false,
    }
}

/// Whether a tree is a new array of given sizes.
pub fn is_new_array(tree: &ExprTree) -> bool
    ensures { result ≡ grammar.is_new_array tree.now }
{
    match tree {
        ExprTree::NewArray { .. } => true,
        _ => false,
    }
}

/// The part that the operand of a cast to a type is [JLS 15.16].
pub fn operand_part(ty: &TypeTree) -> Part
    ensures { result ≡ spec.operand_part ty.now }
{
    if is_plain_primitive(ty) {
        Part::Unary
    } else {
        Part::Plain
    }
}
