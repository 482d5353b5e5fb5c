ghost use Rattle.std.specs.Prelude.{◌≡◌, OnOk};
ghost use Rattle.bj_writer.specs.Pieces.{Wrote};
ghost use Rattle.bj_layout.specs.Classes as spec;
ghost use Rattle.bj_layout.specs.Classes.{members_pieces};
ghost use Rattle.bj_layout.specs.Parts.{before_next, gap_between};

use crate::body::MEMBER;
use crate::member::write_member;
use bj_base::NoMemory;
use bj_tree::{MemberTree, MemberTrees};
use bj_writer::Writer;

/// Whether a member is a declaration of fields.
fn is_field(tree: &MemberTree) -> bool
    ensures { result ≡ spec.is_field tree.now }
{
    matches!(tree, MemberTree::Field(_))
}

/// Writes the empty line between two members, but not between fields.
fn write_gap(out: &mut Writer, is_behind_field: bool, is_field: bool) -> Result<(), NoMemory>
    ensures { OnOk result (Wrote out.old out.new (gap_between is_behind_field is_field)) }
{
    if is_behind_field {
        if is_field {
            return Ok(());
        }
        return out.line(0);
    }
    out.line(0)
}

/// Writes the empty line before a member that is not the first.
fn gap_before(
    out: &mut Writer,
    index: usize,
    is_behind_field: bool,
    is_field: bool,
) -> Result<(), NoMemory>
    ensures { OnOk result (Wrote out.old out.new (before_next (gap_between is_behind_field is_field) index)) }
{
    if index == 0 {
        return Ok(());
    }
    write_gap(out, is_behind_field, is_field)
}

/// Writes the members of a class or an interface, with an empty line between them, but not between fields.
///
/// # Errors
///
/// `NoMemory` where there is no room for them.
pub(crate) fn write_members(out: &mut Writer, trees: &MemberTrees) -> Result<(), NoMemory>
    ensures { OnOk result (Wrote out.old out.new (members_pieces trees.now)) }
{
    let mut is_behind_field = false;
    for (index, tree) in trees.as_slice().iter().enumerate() {
        let is_field = is_field(tree);
        gap_before(out, index, is_behind_field, is_field)?;
        out.line(MEMBER)?;
        write_member(out, tree)?;
        is_behind_field = is_field;
    }
    Ok(())
}
