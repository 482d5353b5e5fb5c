ghost use Rattle.std.specs.Prelude.{map, OnOk, codes};
ghost use Rattle.bj_tree.specs.declared.stmt.StmtTree.{out-StmtTree};
ghost use Rattle.bj_tree.specs.Forms.{IsFor};
ghost use Rattle.bj_writer.specs.Pieces.{Wrote};
ghost use Rattle.bj_layout.specs.Exprs.{expr_pieces, with_commas};
ghost use Rattle.bj_layout.specs.Stmts.{headed, for_update, stmt_parts};
ghost use Rattle.bj_layout.specs.Parts.{for_pieces};

use crate::bare::write_bare;
use crate::blocks::write_body;
use crate::expr::write_exprs;
use crate::heads::{open_head, write_each_head};
use crate::lists::comma_before;
use crate::optional::write_optional_expr;
use crate::tokens::sign;
use bj_base::NoMemory;
use bj_tree::{ExprTree, ExprTrees, StmtTree, StmtTrees};
use bj_writer::Writer;
use sqlite_items::Boxed;

/// Writes a `for` [JLS 14.14].
///
/// # Errors
///
/// `NoMemory` where there is no room for it.
#[cycle(stmts)]
pub(crate) fn write_for(out: &mut Writer, tree: &StmtTree) -> Result<(), NoMemory>
    requires { IsFor (out-StmtTree tree.now) }
    ensures { OnOk result (Wrote out.old out.new (stmt_parts tree.now).bare) }
{
    match tree {
        StmtTree::For {
            init,
            test,
            update,
            body,
            ..
        } => {
            write_for_head(out, init, test, update)?;
            write_body(out, body)?;
        }
        StmtTree::ForEach {
            is_final,
            of,
            name,
            over,
            body,
            ..
        } => {
            write_each_head(out, *is_final, of, name, over)?;
            write_body(out, body)?;
        }
        _ => unreachable!(),
    }
    Ok(())
}

/// Writes the statements at the head of a `for`, which end with no semicolon of their own.
#[cycle(stmts)]
fn write_inits(out: &mut Writer, init: &StmtTrees) -> Result<(), NoMemory>
    ensures { OnOk result (Wrote out.old out.new (with_commas (map (λ p. p.bare) (map stmt_parts init.now)))) }
{
    for (index, tree) in init.as_slice().iter().enumerate() {
        comma_before(out, index)?;
        write_bare(out, tree)?;
    }
    Ok(())
}

/// Writes a space and the updates of a `for`, if there are any.
fn write_update(out: &mut Writer, update: &ExprTrees) -> Result<(), NoMemory>
    ensures { OnOk result (Wrote out.old out.new (for_update (map expr_pieces update.now))) }
{
    if update.is_empty() {
        return Ok(());
    }
    out.space()?;
    write_exprs(out, update)?;
    Ok(())
}

/// Writes the three parts at the head of a `for`.
#[cycle(stmts)]
fn write_for_parts(
    out: &mut Writer,
    init: &StmtTrees,
    test: &Option<Boxed<ExprTree>>,
    update: &ExprTrees,
) -> Result<(), NoMemory>
    ensures { OnOk result (Wrote out.old out.new (for_pieces init.now test.now update.now)) }
{
    write_inits(out, init)?;
    sign(out, b";")?;
    write_optional_expr(out, test)?;
    sign(out, b";")?;
    write_update(out, update)?;
    Ok(())
}

/// Writes what stands before the body of a `for` [JLS 14.14.1].
#[cycle(stmts)]
fn write_for_head(
    out: &mut Writer,
    init: &StmtTrees,
    test: &Option<Boxed<ExprTree>>,
    update: &ExprTrees,
) -> Result<(), NoMemory>
    ensures { OnOk result (Wrote out.old out.new (headed (codes "for") (for_pieces init.now test.now update.now))) }
{
    open_head(out, b"for")?;
    write_for_parts(out, init, test, update)?;
    sign(out, b")")?;
    Ok(())
}
