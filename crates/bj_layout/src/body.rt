ghost use Rattle.std.specs.Prelude.{map, OnOk};
ghost use Rattle.bj_writer.specs.Pieces.{Wrote};
ghost use Rattle.bj_layout.specs.Classes.{each, statement_line, lines_in_braces, body_pieces, maybe_body};

use crate::stmt::write_stmt;
use crate::tokens::sign;
use bj_base::NoMemory;
use bj_tree::{StmtTree, StmtTrees};
use bj_writer::Writer;
use sqlite_items::Boxed;

/// The columns before the statements of a method.
const STATEMENT: usize = 8;

/// The columns before a member.
pub(crate) const MEMBER: usize = 4;

/// Writes statements, each in a line.
fn write_lines(out: &mut Writer, trees: &StmtTrees) -> Result<(), NoMemory>
    ensures { OnOk result (Wrote out.old out.new (each (map statement_line trees.now))) }
{
    for tree in trees.as_slice() {
        out.line(STATEMENT)?;
        write_stmt(out, tree)?;
    }
    Ok(())
}

/// Writes statements in braces, a statement a line.
fn write_lines_in_braces(out: &mut Writer, trees: &StmtTrees) -> Result<(), NoMemory>
    ensures { OnOk result (Wrote out.old out.new (lines_in_braces trees.now)) }
{
    sign(out, b"{")?;
    write_lines(out, trees)?;
    out.line(MEMBER)?;
    sign(out, b"}")?;
    Ok(())
}

/// Writes the body of a method, of a constructor or of an initializer [JLS 8.4.7].
///
/// # Errors
///
/// `NoMemory` where there is no room for it.
pub(crate) fn write_block(out: &mut Writer, tree: &Boxed<StmtTree>) -> Result<(), NoMemory>
    ensures { OnOk result (Wrote out.old out.new (body_pieces tree.now)) }
{
    match tree.get() {
        StmtTree::Block { body, .. } => write_lines_in_braces(out, body),
        other => write_stmt(out, other),
    }
}

/// Writes the body of a method, or `;` where it has none.
///
/// # Errors
///
/// As `write_block`.
pub(crate) fn write_optional_block(
    out: &mut Writer,
    tree: &Option<Boxed<StmtTree>>,
) -> Result<(), NoMemory>
    ensures { OnOk result (Wrote out.old out.new (maybe_body tree.now)) }
{
    match tree {
        None => sign(out, b";"),
        Some(tree) => {
            out.line(MEMBER)?;
            write_block(out, tree)?;
            Ok(())
        }
    }
}
