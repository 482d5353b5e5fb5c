ghost use Rattle.std.specs.Prelude.{◌≡◌, [], ◌∷◌, if◌then◌else◌, OnOk};
ghost use Rattle.bj_writer.specs.Pieces.{Wrote};
ghost use Rattle.bj_layout.specs.Stmts.{semicolon, stmt_parts, stmt_pieces};

use crate::bare::write_bare;
use crate::tokens::sign;
use bj_base::NoMemory;
use bj_tree::StmtTree;
use bj_writer::Writer;

/// Whether a statement ends with a semicolon of its own, and not with another statement or a brace.
#[tactic(auto, using(crate::proofs::StmtParts::stmt_forms))]
fn ends_with_semicolon(tree: &StmtTree) -> bool
    ensures { (stmt_parts tree.now).end ≡ if result then semicolon ∷ [] else [] }
{
    match tree {
        StmtTree::Empty { .. }
        | StmtTree::Local { .. }
        | StmtTree::Expression { .. }
        | StmtTree::Do { .. }
        | StmtTree::Break { .. }
        | StmtTree::Continue { .. }
        | StmtTree::Return { .. }
        | StmtTree::Throw { .. }
        | StmtTree::ConstructorCall { .. } => true,
        StmtTree::Block { .. }
        | StmtTree::If { .. }
        | StmtTree::IfElse { .. }
        | StmtTree::While { .. }
        | StmtTree::For { .. }
        | StmtTree::ForEach { .. }
        | StmtTree::Switch { .. }
        | StmtTree::Case { .. }
        | StmtTree::Default { .. }
        | StmtTree::Labelled { .. }
        | StmtTree::Synchronized { .. }
        | StmtTree::SynchronizedClass { .. }
        | StmtTree::Try { .. }
        | StmtTree::TryFinally { .. }
        | StmtTree::Catch { .. } => false,
    }
}

/// Writes the semicolon at the end of a statement, if it ends with one of its own.
fn write_end(out: &mut Writer, tree: &StmtTree) -> Result<(), NoMemory>
    ensures { OnOk result (Wrote out.old out.new (stmt_parts tree.now).end) }
{
    if ends_with_semicolon(tree) {
        sign(out, b";")?;
    }
    Ok(())
}

/// Writes a statement [JLS 14].
///
/// # Errors
///
/// `NoMemory` where there is no room for it.
#[cycle(stmts)]
pub(crate) fn write_stmt(out: &mut Writer, tree: &StmtTree) -> Result<(), NoMemory>
    ensures { OnOk result (Wrote out.old out.new (stmt_pieces tree.now)) }
{
    write_bare(out, tree)?;
    write_end(out, tree)?;
    Ok(())
}
