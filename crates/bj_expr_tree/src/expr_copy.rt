ghost use Rattle.std.specs.Prelude.{◌≡◌, IfOk};
ghost use Rattle.bj_expr_tree.specs.declared.expr.ExprTree.{out-ExprTree};
ghost use Rattle.bj_expr_tree.specs.Forms.{IsPrimary, IsCall, IsCreation, IsUnary, IsBinary, IsLoosest};

use crate::{ExprTree, ExprTrees};
use bj_base::{Copies, NoMemory};
use sqlite_items::{Boxed, Items};
use std::alloc::Global;

impl ExprTree {
    /// A copy that equals the original.
    ///
    /// # Errors
    ///
    /// `NoMemory` where there is no room for the copy.
    #[cycle(expr_copies)]
    pub fn copy(&self, alloc: Global) -> Result<ExprTree, NoMemory>
        ensures { IfOk result (λ copied. copied ≡ self.now) }
    {
        match self {
            ExprTree::Literal { .. }
            | ExprTree::This { .. }
            | ExprTree::Paren { .. }
            | ExprTree::Name { .. }
            | ExprTree::Field { .. }
            | ExprTree::SuperField { .. } => self.copy_primary(alloc),
            ExprTree::Call { .. } | ExprTree::MethodCall { .. } | ExprTree::SuperCall { .. } =>
                self.copy_call(alloc),
            ExprTree::New { .. }
            | ExprTree::NewArray { .. }
            | ExprTree::NewValues { .. }
            | ExprTree::Braces { .. } => self.copy_creation(alloc),
            ExprTree::Postfix { .. }
            | ExprTree::Prefix { .. }
            | ExprTree::Unary { .. }
            | ExprTree::Cast { .. }
            | ExprTree::InstanceOf { .. } => self.copy_unary(alloc),
            ExprTree::Index { .. } | ExprTree::Binary { .. } => self.copy_binary(alloc),
            ExprTree::Conditional { .. } | ExprTree::Assign { .. } => self.copy_loosest(alloc),
        }
    }

    /// A copy of a literal, of `this`, of a name, of parentheses or of a field.
    #[cycle(expr_copies)]
    fn copy_primary(&self, alloc: Global) -> Result<ExprTree, NoMemory>
        requires { IsPrimary (out-ExprTree self.now) }
        ensures { IfOk result (λ copied. copied ≡ self.now) }
    {
        match self {
            ExprTree::Literal { at, kind, text } => Ok(ExprTree::Literal {
                at: *at,
                kind: *kind,
                text: text.copy(alloc)?,
            }),
            ExprTree::This { at } => Ok(ExprTree::This { at: *at }),
            ExprTree::Paren { at, inner } => Ok(ExprTree::Paren {
                at: *at,
                inner: copy_boxed_expr(alloc, inner)?,
            }),
            ExprTree::Name { at, name } => Ok(ExprTree::Name {
                at: *at,
                name: name.copy(alloc)?,
            }),
            ExprTree::Field { at, target, name } => Ok(ExprTree::Field {
                at: *at,
                target: copy_boxed_expr(alloc, target)?,
                name: name.copy(alloc)?,
            }),
            ExprTree::SuperField { at, name } => Ok(ExprTree::SuperField {
                at: *at,
                name: name.copy(alloc)?,
            }),
            _ => unreachable!(),
        }
    }

    /// A copy of a call.
    #[cycle(expr_copies)]
    fn copy_call(&self, alloc: Global) -> Result<ExprTree, NoMemory>
        requires { IsCall (out-ExprTree self.now) }
        ensures { IfOk result (λ copied. copied ≡ self.now) }
    {
        match self {
            ExprTree::Call { at, name, args } => Ok(ExprTree::Call {
                at: *at,
                name: name.copy(alloc)?,
                args: copy_exprs(alloc, args.as_slice())?,
            }),
            ExprTree::MethodCall {
                at,
                target,
                name,
                args,
            } => Ok(ExprTree::MethodCall {
                at: *at,
                target: copy_boxed_expr(alloc, target)?,
                name: name.copy(alloc)?,
                args: copy_exprs(alloc, args.as_slice())?,
            }),
            ExprTree::SuperCall { at, name, args } => Ok(ExprTree::SuperCall {
                at: *at,
                name: name.copy(alloc)?,
                args: copy_exprs(alloc, args.as_slice())?,
            }),
            _ => unreachable!(),
        }
    }

    /// A copy of a new object or array, or of values in braces.
    #[cycle(expr_copies)]
    fn copy_creation(&self, alloc: Global) -> Result<ExprTree, NoMemory>
        requires { IsCreation (out-ExprTree self.now) }
        ensures { IfOk result (λ copied. copied ≡ self.now) }
    {
        match self {
            ExprTree::New { at, class, args } => Ok(ExprTree::New {
                at: *at,
                class: class.copy(alloc)?,
                args: copy_exprs(alloc, args.as_slice())?,
            }),
            ExprTree::NewArray {
                at,
                of,
                sizes,
                dims,
            } => Ok(ExprTree::NewArray {
                at: *at,
                of: of.copy(alloc)?,
                sizes: copy_exprs(alloc, sizes.as_slice())?,
                dims: *dims,
            }),
            ExprTree::NewValues { at, of, values } => Ok(ExprTree::NewValues {
                at: *at,
                of: of.copy(alloc)?,
                values: copy_exprs(alloc, values.as_slice())?,
            }),
            ExprTree::Braces { at, values } => Ok(ExprTree::Braces {
                at: *at,
                values: copy_exprs(alloc, values.as_slice())?,
            }),
            _ => unreachable!(),
        }
    }

    /// A copy of an operator with one operand that is an expression.
    #[cycle(expr_copies)]
    fn copy_unary(&self, alloc: Global) -> Result<ExprTree, NoMemory>
        requires { IsUnary (out-ExprTree self.now) }
        ensures { IfOk result (λ copied. copied ≡ self.now) }
    {
        match self {
            ExprTree::Postfix { at, op, operand } => Ok(ExprTree::Postfix {
                at: *at,
                op: *op,
                operand: copy_boxed_expr(alloc, operand)?,
            }),
            ExprTree::Prefix { at, op, operand } => Ok(ExprTree::Prefix {
                at: *at,
                op: *op,
                operand: copy_boxed_expr(alloc, operand)?,
            }),
            ExprTree::Unary { at, op, operand } => Ok(ExprTree::Unary {
                at: *at,
                op: *op,
                operand: copy_boxed_expr(alloc, operand)?,
            }),
            ExprTree::Cast { at, to, operand } => Ok(ExprTree::Cast {
                at: *at,
                to: to.copy(alloc)?,
                operand: copy_boxed_expr(alloc, operand)?,
            }),
            ExprTree::InstanceOf { at, value, of } => Ok(ExprTree::InstanceOf {
                at: *at,
                value: copy_boxed_expr(alloc, value)?,
                of: of.copy(alloc)?,
            }),
            _ => unreachable!(),
        }
    }

    /// A copy of an operator between two operands, or of an element of an array.
    #[cycle(expr_copies)]
    fn copy_binary(&self, alloc: Global) -> Result<ExprTree, NoMemory>
        requires { IsBinary (out-ExprTree self.now) }
        ensures { IfOk result (λ copied. copied ≡ self.now) }
    {
        match self {
            ExprTree::Index { at, array, index } => Ok(ExprTree::Index {
                at: *at,
                array: copy_boxed_expr(alloc, array)?,
                index: copy_boxed_expr(alloc, index)?,
            }),
            ExprTree::Binary {
                at,
                op,
                left,
                right,
            } => Ok(ExprTree::Binary {
                at: *at,
                op: *op,
                left: copy_boxed_expr(alloc, left)?,
                right: copy_boxed_expr(alloc, right)?,
            }),
            _ => unreachable!(),
        }
    }

    /// A copy of an expression with an operator that binds the loosest.
    #[cycle(expr_copies)]
    fn copy_loosest(&self, alloc: Global) -> Result<ExprTree, NoMemory>
        requires { IsLoosest (out-ExprTree self.now) }
        ensures { IfOk result (λ copied. copied ≡ self.now) }
    {
        match self {
            ExprTree::Conditional {
                at,
                test,
                chosen,
                other,
            } => Ok(ExprTree::Conditional {
                at: *at,
                test: copy_boxed_expr(alloc, test)?,
                chosen: copy_boxed_expr(alloc, chosen)?,
                other: copy_boxed_expr(alloc, other)?,
            }),
            ExprTree::Assign {
                at,
                op,
                target,
                value,
            } => Ok(ExprTree::Assign {
                at: *at,
                op: *op,
                target: copy_boxed_expr(alloc, target)?,
                value: copy_boxed_expr(alloc, value)?,
            }),
            _ => unreachable!(),
        }
    }
}

/// A copy of a boxed expression.
///
/// # Errors
///
/// `NoMemory` where there is no room for the copy.
#[cycle(expr_copies)]
pub fn copy_boxed_expr(alloc: Global, expr: &Boxed<ExprTree>) -> Result<Boxed<ExprTree>, NoMemory>
    ensures { IfOk result (λ copied. copied ≡ expr.now) }
{
    let copied = expr.get().copy(alloc)?;
    Ok(Boxed::new(alloc, copied)?)
}

/// Copies of expressions.
///
/// # Errors
///
/// `NoMemory` where there is no room for the copies.
#[cycle(expr_copies)]
pub fn copy_exprs(alloc: Global, exprs: &[ExprTree]) -> Result<ExprTrees, NoMemory>
    ensures { IfOk result (λ copied. copied ≡ exprs.now) }
{
    let mut copied = Items::new(alloc);
    for expr in exprs {
        copied.push(expr.copy(alloc)?)?;
    }
    Ok(copied)
}

/// A copy of an expression that may be missing.
///
/// # Errors
///
/// `NoMemory` where there is no room for the copy.
pub fn copy_optional_expr(
    alloc: Global,
    expr: &Option<Boxed<ExprTree>>,
) -> Result<Option<Boxed<ExprTree>>, NoMemory>
    ensures { IfOk result (λ copied. copied ≡ expr.now) }
{
    match expr {
        None => Ok(None),
        Some(expr) => Ok(Some(copy_boxed_expr(alloc, expr)?)),
    }
}
