ghost use Rattle.std.specs.Prelude.{◌≡◌, [], map, OnOk};
ghost use Rattle.bj_expr_tree.specs.declared.expr.ExprTree.{out-ExprTree};
ghost use Rattle.bj_expr_tree.specs.Forms.{IsPrimary, IsCall, IsCreation, IsUnary, IsBinary, IsLoosest};
ghost use Rattle.bj_writer.specs.Pieces.{Wrote};
ghost use Rattle.bj_layout.specs.Exprs.{expr_pieces, with_commas, arguments, in_parens, in_brackets, in_braces, each_behind};

use crate::lists::comma_before;
use crate::operators::{
    write_assign_sign, write_binary_sign, write_literal, write_step_sign, write_unary_sign,
};
use crate::tokens::{
    keyword, keyword_before, point_and_name, sign, spaced_keyword, spaced_sign, word,
};
use crate::types::{write_pairs, write_type};
use bj_base::NoMemory;
use bj_tree::{ExprTree, ExprTrees};
use bj_writer::Writer;
use sqlite_items::Boxed;

/// Writes an expression [JLS 15].
///
/// # Errors
///
/// `NoMemory` where there is no room for it.
#[cycle(exprs)]
pub(crate) fn write_expr(out: &mut Writer, tree: &ExprTree) -> Result<(), NoMemory>
    ensures { OnOk result (Wrote out.old out.new (expr_pieces tree.now)) }
{
    match tree {
        ExprTree::Literal { .. }
        | ExprTree::This { .. }
        | ExprTree::Paren { .. }
        | ExprTree::Name { .. }
        | ExprTree::Field { .. }
        | ExprTree::SuperField { .. } => write_primary(out, tree),
        ExprTree::Call { .. } | ExprTree::MethodCall { .. } | ExprTree::SuperCall { .. } =>
            write_call(out, tree),
        ExprTree::New { .. }
        | ExprTree::NewArray { .. }
        | ExprTree::NewValues { .. }
        | ExprTree::Braces { .. } => write_creation(out, tree),
        ExprTree::Postfix { .. }
        | ExprTree::Prefix { .. }
        | ExprTree::Unary { .. }
        | ExprTree::Cast { .. }
        | ExprTree::InstanceOf { .. } => write_unary(out, tree),
        ExprTree::Index { .. } | ExprTree::Binary { .. } => write_binary(out, tree),
        ExprTree::Conditional { .. } | ExprTree::Assign { .. } => write_loosest(out, tree),
    }
}

/// Writes a literal, `this`, a name, parentheses or a field.
#[cycle(exprs)]
fn write_primary(out: &mut Writer, tree: &ExprTree) -> Result<(), NoMemory>
    requires { IsPrimary (out-ExprTree tree.now) }
    ensures { OnOk result (Wrote out.old out.new (expr_pieces tree.now)) }
{
    match tree {
        ExprTree::Literal { kind, text, .. } => {
            write_literal(out, *kind, text)?;
        }
        ExprTree::This { .. } => {
            keyword(out, b"this")?;
        }
        ExprTree::Paren { inner, .. } => {
            write_in_parens(out, inner)?;
        }
        ExprTree::Name { name, .. } => {
            word(out, name)?;
        }
        ExprTree::Field { target, name, .. } => {
            write_boxed(out, target)?;
            point_and_name(out, name)?;
        }
        ExprTree::SuperField { name, .. } => {
            keyword(out, b"super")?;
            point_and_name(out, name)?;
        }
        _ => unreachable!(),
    }
    Ok(())
}

/// Writes a call.
#[cycle(exprs)]
fn write_call(out: &mut Writer, tree: &ExprTree) -> Result<(), NoMemory>
    requires { IsCall (out-ExprTree tree.now) }
    ensures { OnOk result (Wrote out.old out.new (expr_pieces tree.now)) }
{
    match tree {
        ExprTree::Call { name, args, .. } => {
            word(out, name)?;
            write_arguments(out, args)?;
        }
        ExprTree::MethodCall {
            target,
            name,
            args,
            ..
        } => {
            write_boxed(out, target)?;
            point_and_name(out, name)?;
            write_arguments(out, args)?;
        }
        ExprTree::SuperCall { name, args, .. } => {
            keyword(out, b"super")?;
            point_and_name(out, name)?;
            write_arguments(out, args)?;
        }
        _ => unreachable!(),
    }
    Ok(())
}

/// Writes a new object or array, or values in braces.
#[cycle(exprs)]
fn write_creation(out: &mut Writer, tree: &ExprTree) -> Result<(), NoMemory>
    requires { IsCreation (out-ExprTree tree.now) }
    ensures { OnOk result (Wrote out.old out.new (expr_pieces tree.now)) }
{
    match tree {
        ExprTree::New { class, args, .. } => {
            keyword_before(out, b"new")?;
            word(out, class)?;
            write_arguments(out, args)?;
        }
        ExprTree::NewArray {
            of,
            sizes,
            dims,
            ..
        } => {
            keyword_before(out, b"new")?;
            write_type(out, of)?;
            write_sizes(out, sizes)?;
            write_pairs(out, *dims)?;
        }
        ExprTree::NewValues { of, values, .. } => {
            keyword_before(out, b"new")?;
            write_type(out, of)?;
            write_values(out, values)?;
        }
        ExprTree::Braces { values, .. } => {
            write_values(out, values)?;
        }
        _ => unreachable!(),
    }
    Ok(())
}

/// Writes an operator with one operand that is an expression.
#[cycle(exprs)]
fn write_unary(out: &mut Writer, tree: &ExprTree) -> Result<(), NoMemory>
    requires { IsUnary (out-ExprTree tree.now) }
    ensures { OnOk result (Wrote out.old out.new (expr_pieces tree.now)) }
{
    match tree {
        ExprTree::Postfix { op, operand, .. } => {
            write_boxed(out, operand)?;
            write_step_sign(out, *op)?;
        }
        ExprTree::Prefix { op, operand, .. } => {
            write_step_sign(out, *op)?;
            write_boxed(out, operand)?;
        }
        ExprTree::Unary { op, operand, .. } => {
            write_unary_sign(out, *op)?;
            write_boxed(out, operand)?;
        }
        ExprTree::Cast { to, operand, .. } => {
            sign(out, b"(")?;
            write_type(out, to)?;
            sign(out, b")")?;
            out.space()?;
            write_boxed(out, operand)?;
        }
        ExprTree::InstanceOf { value, of, .. } => {
            write_boxed(out, value)?;
            spaced_keyword(out, b"instanceof")?;
            write_type(out, of)?;
        }
        _ => unreachable!(),
    }
    Ok(())
}

/// Writes an operator between two operands, or an element of an array.
#[cycle(exprs)]
fn write_binary(out: &mut Writer, tree: &ExprTree) -> Result<(), NoMemory>
    requires { IsBinary (out-ExprTree tree.now) }
    ensures { OnOk result (Wrote out.old out.new (expr_pieces tree.now)) }
{
    match tree {
        ExprTree::Index { array, index, .. } => {
            write_boxed(out, array)?;
            sign(out, b"[")?;
            write_boxed(out, index)?;
            sign(out, b"]")?;
        }
        ExprTree::Binary {
            op,
            left,
            right,
            ..
        } => {
            write_boxed(out, left)?;
            write_binary_sign(out, *op)?;
            write_boxed(out, right)?;
        }
        _ => unreachable!(),
    }
    Ok(())
}

/// Writes an expression with an operator that binds the loosest.
#[cycle(exprs)]
fn write_loosest(out: &mut Writer, tree: &ExprTree) -> Result<(), NoMemory>
    requires { IsLoosest (out-ExprTree tree.now) }
    ensures { OnOk result (Wrote out.old out.new (expr_pieces tree.now)) }
{
    match tree {
        ExprTree::Conditional {
            test,
            chosen,
            other,
            ..
        } => {
            write_boxed(out, test)?;
            spaced_sign(out, b"?")?;
            write_boxed(out, chosen)?;
            spaced_sign(out, b":")?;
            write_boxed(out, other)?;
        }
        ExprTree::Assign {
            op,
            target,
            value,
            ..
        } => {
            write_boxed(out, target)?;
            write_assign_sign(out, *op)?;
            write_boxed(out, value)?;
        }
        _ => unreachable!(),
    }
    Ok(())
}

/// Writes a boxed expression.
///
/// # Errors
///
/// `NoMemory` where there is no room for it.
#[cycle(exprs)]
pub(crate) fn write_boxed(out: &mut Writer, tree: &Boxed<ExprTree>) -> Result<(), NoMemory>
    ensures { OnOk result (Wrote out.old out.new (expr_pieces tree.now)) }
{
    write_expr(out, tree.get())
}

/// Writes an expression in parentheses.
#[cycle(exprs)]
fn write_in_parens(out: &mut Writer, tree: &Boxed<ExprTree>) -> Result<(), NoMemory>
    ensures { OnOk result (Wrote out.old out.new (in_parens (expr_pieces tree.now))) }
{
    sign(out, b"(")?;
    write_boxed(out, tree)?;
    sign(out, b")")?;
    Ok(())
}

/// Writes an expression in brackets.
#[cycle(exprs)]
fn write_in_brackets(out: &mut Writer, tree: &ExprTree) -> Result<(), NoMemory>
    ensures { OnOk result (Wrote out.old out.new (in_brackets (expr_pieces tree.now))) }
{
    sign(out, b"[")?;
    write_expr(out, tree)?;
    sign(out, b"]")?;
    Ok(())
}

/// Writes expressions with commas between them.
///
/// # Errors
///
/// As `write_expr`.
#[cycle(exprs)]
pub(crate) fn write_exprs(out: &mut Writer, trees: &ExprTrees) -> Result<(), NoMemory>
    ensures { OnOk result (Wrote out.old out.new (with_commas (map expr_pieces trees.now))) }
{
    for (index, tree) in trees.as_slice().iter().enumerate() {
        comma_before(out, index)?;
        write_expr(out, tree)?;
    }
    Ok(())
}

/// Writes arguments in parentheses [JLS 15.12].
///
/// # Errors
///
/// As `write_expr`.
#[cycle(exprs)]
pub(crate) fn write_arguments(out: &mut Writer, args: &ExprTrees) -> Result<(), NoMemory>
    ensures { OnOk result (Wrote out.old out.new (arguments (map expr_pieces args.now))) }
{
    sign(out, b"(")?;
    write_exprs(out, args)?;
    sign(out, b")")?;
    Ok(())
}

/// Writes values in braces [JLS 10.6].
#[cycle(exprs)]
fn write_values(out: &mut Writer, values: &ExprTrees) -> Result<(), NoMemory>
    ensures { OnOk result (Wrote out.old out.new (in_braces (with_commas (map expr_pieces values.now)))) }
{
    sign(out, b"{")?;
    write_exprs(out, values)?;
    sign(out, b"}")?;
    Ok(())
}

/// Writes the sizes of a new array [JLS 15.10.1].
#[cycle(exprs)]
fn write_sizes(out: &mut Writer, sizes: &ExprTrees) -> Result<(), NoMemory>
    ensures { OnOk result (Wrote out.old out.new (each_behind [] (map in_brackets (map expr_pieces sizes.now)))) }
{
    for size in sizes.as_slice() {
        write_in_brackets(out, size)?;
    }
    Ok(())
}
