ghost use Rattle.std.specs.Prelude.{[], ◌∷◌, if◌then◌else◌, OnOk, codes};
ghost use Rattle.bj_tree.specs.declared.stmt.StmtTree.{out-StmtTree};
ghost use Rattle.bj_tree.specs.Forms.{IsPlain, IsChoice, IsHeaded, IsJump};
ghost use Rattle.bj_writer.specs.Pieces.{Wrote};
ghost use Rattle.bj_layout.specs.Exprs as spec;
ghost use Rattle.bj_layout.specs.Stmts.{stmt_parts};

use crate::blocks::{write_body, write_boxed_stmt, write_braced};
use crate::expr::{write_arguments, write_boxed};
use crate::for_loop::write_for;
use crate::guards::write_try;
use crate::heads::{write_class_head, write_head};
use crate::optional::{write_final, write_label, write_optional_expr};
use crate::tokens::{keyword, keyword_before, sign, spaced_keyword, word};
use crate::types::write_type;
use crate::variables::write_variables;
use bj_base::NoMemory;
use bj_tree::StmtTree;
use bj_writer::Writer;

/// Writes a statement without the semicolon at its end.
///
/// # Errors
///
/// `NoMemory` where there is no room for it.
#[cycle(stmts)]
pub(crate) fn write_bare(out: &mut Writer, tree: &StmtTree) -> Result<(), NoMemory>
    ensures { OnOk result (Wrote out.old out.new (stmt_parts tree.now).bare) }
{
    match tree {
        StmtTree::Block { .. }
        | StmtTree::Empty { .. }
        | StmtTree::Local { .. }
        | StmtTree::Expression { .. }
        | StmtTree::ConstructorCall { .. } => write_plain(out, tree),
        StmtTree::If { .. }
        | StmtTree::IfElse { .. }
        | StmtTree::Switch { .. }
        | StmtTree::Case { .. }
        | StmtTree::Default { .. } => write_choice(out, tree),
        StmtTree::For { .. } | StmtTree::ForEach { .. } => write_for(out, tree),
        StmtTree::While { .. }
        | StmtTree::Do { .. }
        | StmtTree::Labelled { .. }
        | StmtTree::Synchronized { .. }
        | StmtTree::SynchronizedClass { .. } => write_headed(out, tree),
        StmtTree::Break { .. }
        | StmtTree::Continue { .. }
        | StmtTree::Return { .. }
        | StmtTree::Throw { .. } => write_jump(out, tree),
        StmtTree::Try { .. } | StmtTree::TryFinally { .. } | StmtTree::Catch { .. } => write_try(
            out, tree,
        ),
    }
}

/// Writes `this` or `super` before the arguments of a call of a constructor [JLS 8.8.7.1].
fn write_constructor_word(out: &mut Writer, is_super: bool) -> Result<(), NoMemory>
    ensures { OnOk result (Wrote out.old out.new (spec.keyword (if is_super then codes "super" else codes "this") ∷ [])) }
{
    if is_super {
        return keyword(out, b"super");
    }
    keyword(out, b"this")
}

/// Writes a block, `;`, a declaration, an expression or a call of a constructor.
#[cycle(stmts)]
fn write_plain(out: &mut Writer, tree: &StmtTree) -> Result<(), NoMemory>
    requires { IsPlain (out-StmtTree tree.now) }
    ensures { OnOk result (Wrote out.old out.new (stmt_parts tree.now).bare) }
{
    match tree {
        StmtTree::Block { body, .. } => {
            write_braced(out, body)?;
        }
        StmtTree::Empty { .. } => {}
        StmtTree::Local {
            is_final,
            of,
            variables,
            ..
        } => {
            write_final(out, *is_final)?;
            write_type(out, of)?;
            out.space()?;
            write_variables(out, variables)?;
        }
        StmtTree::Expression { value, .. } => {
            write_boxed(out, value)?;
        }
        StmtTree::ConstructorCall { is_super, args, .. } => {
            write_constructor_word(out, *is_super)?;
            write_arguments(out, args)?;
        }
        _ => unreachable!(),
    }
    Ok(())
}

/// Writes an `if`, a `switch` or a label in one.
#[cycle(stmts)]
fn write_choice(out: &mut Writer, tree: &StmtTree) -> Result<(), NoMemory>
    requires { IsChoice (out-StmtTree tree.now) }
    ensures { OnOk result (Wrote out.old out.new (stmt_parts tree.now).bare) }
{
    match tree {
        StmtTree::If { test, body, .. } => {
            write_head(out, b"if", test)?;
            write_body(out, body)?;
        }
        StmtTree::IfElse {
            test,
            body,
            other,
            ..
        } => {
            write_head(out, b"if", test)?;
            write_body(out, body)?;
            spaced_keyword(out, b"else")?;
            write_boxed_stmt(out, other)?;
        }
        StmtTree::Switch { value, members, .. } => {
            write_head(out, b"switch", value)?;
            out.space()?;
            write_braced(out, members)?;
        }
        StmtTree::Case { value, .. } => {
            keyword_before(out, b"case")?;
            write_boxed(out, value)?;
            sign(out, b":")?;
        }
        StmtTree::Default { .. } => {
            keyword(out, b"default")?;
            sign(out, b":")?;
        }
        _ => unreachable!(),
    }
    Ok(())
}

/// Writes a `while`, a `do`, a labelled statement or a `synchronized`.
#[cycle(stmts)]
fn write_headed(out: &mut Writer, tree: &StmtTree) -> Result<(), NoMemory>
    requires { IsHeaded (out-StmtTree tree.now) }
    ensures { OnOk result (Wrote out.old out.new (stmt_parts tree.now).bare) }
{
    match tree {
        StmtTree::While { test, body, .. } => {
            write_head(out, b"while", test)?;
            write_body(out, body)?;
        }
        StmtTree::Do { body, test, .. } => {
            keyword(out, b"do")?;
            write_body(out, body)?;
            out.space()?;
            write_head(out, b"while", test)?;
        }
        StmtTree::Labelled { label, body, .. } => {
            word(out, label)?;
            sign(out, b":")?;
            write_body(out, body)?;
        }
        StmtTree::Synchronized { lock, body, .. } => {
            write_head(out, b"synchronized", lock)?;
            write_body(out, body)?;
        }
        StmtTree::SynchronizedClass { class, body, .. } => {
            write_class_head(out, class)?;
            write_body(out, body)?;
        }
        _ => unreachable!(),
    }
    Ok(())
}

/// Writes a `break`, a `continue`, a `return` or a `throw`.
fn write_jump(out: &mut Writer, tree: &StmtTree) -> Result<(), NoMemory>
    requires { IsJump (out-StmtTree tree.now) }
    ensures { OnOk result (Wrote out.old out.new (stmt_parts tree.now).bare) }
{
    match tree {
        StmtTree::Break { label, .. } => {
            keyword(out, b"break")?;
            write_label(out, label)?;
        }
        StmtTree::Continue { label, .. } => {
            keyword(out, b"continue")?;
            write_label(out, label)?;
        }
        StmtTree::Return { value, .. } => {
            keyword(out, b"return")?;
            write_optional_expr(out, value)?;
        }
        StmtTree::Throw { value, .. } => {
            keyword_before(out, b"throw")?;
            write_boxed(out, value)?;
        }
        _ => unreachable!(),
    }
    Ok(())
}
