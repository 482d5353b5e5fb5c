ghost use Rattle.std.specs.Prelude.{OnOk};
ghost use Rattle.bj_tree.specs.declared.stmt.StmtTree.{out-StmtTree};
ghost use Rattle.bj_tree.specs.Forms.{IsTry};
ghost use Rattle.bj_writer.specs.Pieces.{Wrote};
ghost use Rattle.bj_layout.specs.Stmts.{stmt_parts};

use crate::blocks::{write_body, write_boxed_stmt, write_in_line};
use crate::heads::write_catch_head;
use crate::tokens::{keyword, spaced_keyword};
use bj_base::NoMemory;
use bj_tree::StmtTree;
use bj_writer::Writer;

/// Writes a `try` or a catch of one [JLS 14.20].
///
/// # Errors
///
/// `NoMemory` where there is no room for it.
#[cycle(stmts)]
pub(crate) fn write_try(out: &mut Writer, tree: &StmtTree) -> Result<(), NoMemory>
    requires { IsTry (out-StmtTree tree.now) }
    ensures { OnOk result (Wrote out.old out.new (stmt_parts tree.now).bare) }
{
    match tree {
        StmtTree::Try { body, catches, .. } => {
            keyword(out, b"try")?;
            write_body(out, body)?;
            write_in_line(out, catches)?;
        }
        StmtTree::TryFinally {
            body,
            catches,
            finally,
            ..
        } => {
            keyword(out, b"try")?;
            write_body(out, body)?;
            write_in_line(out, catches)?;
            spaced_keyword(out, b"finally")?;
            write_boxed_stmt(out, finally)?;
        }
        StmtTree::Catch {
            is_final,
            types,
            name,
            body,
            ..
        } => {
            write_catch_head(out, *is_final, types, name)?;
            write_body(out, body)?;
        }
        _ => unreachable!(),
    }
    Ok(())
}
