ghost use Rattle.std.specs.Prelude.{OnOk};
ghost use Rattle.bj_writer.specs.Pieces.{Wrote};
ghost use Rattle.bj_layout.specs.Classes.{name_list, with_points, maybe_names};
ghost use Rattle.bj_layout.specs.Parts.{before_next, point};

use crate::lists::comma_before;
use crate::tokens::{sign, spaced_keyword, word};
use bj_base::NoMemory;
use bj_tree::NamedPlaces;
use bj_writer::Writer;

/// Writes the point that stands before each part of a name but the first.
fn point_before(out: &mut Writer, index: usize) -> Result<(), NoMemory>
    ensures { OnOk result (Wrote out.old out.new (before_next point index)) }
{
    if index == 0 {
        return Ok(());
    }
    sign(out, b".")
}

/// Writes identifiers with points between them [JLS 6.5].
///
/// # Errors
///
/// `NoMemory` where there is no room for them.
pub(crate) fn write_with_points(out: &mut Writer, names: &NamedPlaces) -> Result<(), NoMemory>
    ensures { OnOk result (Wrote out.old out.new (with_points names.now)) }
{
    for (index, name) in names.as_slice().iter().enumerate() {
        point_before(out, index)?;
        word(out, &name.name)?;
    }
    Ok(())
}

/// Writes names with commas between them.
fn write_name_list(out: &mut Writer, names: &NamedPlaces) -> Result<(), NoMemory>
    ensures { OnOk result (Wrote out.old out.new (name_list names.now)) }
{
    for (index, name) in names.as_slice().iter().enumerate() {
        comma_before(out, index)?;
        word(out, &name.name)?;
    }
    Ok(())
}

/// Writes a keyword and the names behind it, if there are any.
///
/// # Errors
///
/// As `write_with_points`.
pub(crate) fn write_names(
    out: &mut Writer,
    before: &[u8],
    names: &NamedPlaces,
) -> Result<(), NoMemory>
    ensures { OnOk result (Wrote out.old out.new (maybe_names before.now names.now)) }
{
    if names.is_empty() {
        return Ok(());
    }
    spaced_keyword(out, before)?;
    write_name_list(out, names)?;
    Ok(())
}
