ghost use Rattle.std.specs.Prelude.{◌∷◌, map, OnOk};
ghost use Rattle.bj_writer.specs.Pieces.{Space, Wrote};
ghost use Rattle.bj_layout.specs.Stmts.{braced, in_line, stmt_parts, stmt_pieces};

use crate::stmt::write_stmt;
use crate::tokens::sign;
use bj_base::NoMemory;
use bj_tree::{StmtTree, StmtTrees};
use bj_writer::Writer;
use sqlite_items::Boxed;

/// Writes a boxed statement.
///
/// # Errors
///
/// `NoMemory` where there is no room for it.
#[cycle(stmts)]
pub(crate) fn write_boxed_stmt(out: &mut Writer, tree: &Boxed<StmtTree>) -> Result<(), NoMemory>
    ensures { OnOk result (Wrote out.old out.new (stmt_pieces tree.now)) }
{
    write_stmt(out, tree.get())
}

/// Writes a space and a statement that is the body of another.
///
/// # Errors
///
/// As `write_boxed_stmt`.
#[cycle(stmts)]
pub(crate) fn write_body(out: &mut Writer, tree: &Boxed<StmtTree>) -> Result<(), NoMemory>
    ensures { OnOk result (Wrote out.old out.new (Space ∷ stmt_pieces tree.now)) }
{
    out.space()?;
    write_boxed_stmt(out, tree)?;
    Ok(())
}

/// Writes statements, each with a space before it.
///
/// # Errors
///
/// As `write_boxed_stmt`.
#[cycle(stmts)]
pub(crate) fn write_in_line(out: &mut Writer, trees: &StmtTrees) -> Result<(), NoMemory>
    ensures { OnOk result (Wrote out.old out.new (in_line (map stmt_parts trees.now))) }
{
    for tree in trees.as_slice() {
        out.space()?;
        write_stmt(out, tree)?;
    }
    Ok(())
}

/// Writes statements in braces, in one line.
///
/// # Errors
///
/// As `write_boxed_stmt`.
#[cycle(stmts)]
pub(crate) fn write_braced(out: &mut Writer, trees: &StmtTrees) -> Result<(), NoMemory>
    ensures { OnOk result (Wrote out.old out.new (braced (map stmt_parts trees.now))) }
{
    sign(out, b"{")?;
    write_in_line(out, trees)?;
    out.space()?;
    sign(out, b"}")?;
    Ok(())
}
