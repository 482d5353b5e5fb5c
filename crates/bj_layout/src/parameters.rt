ghost use Rattle.std.specs.Prelude.{map, OnOk};
ghost use Rattle.bj_writer.specs.Pieces.{Wrote};
ghost use Rattle.bj_layout.specs.Exprs.{with_commas};
ghost use Rattle.bj_layout.specs.Classes as spec;
ghost use Rattle.bj_layout.specs.Classes.{parameter_pieces};

use crate::lists::comma_before;
use crate::optional::write_final;
use crate::tokens::{sign, word};
use crate::types::{write_pairs, write_type};
use bj_base::NoMemory;
use bj_tree::{ParameterTree, ParameterTrees};
use bj_writer::Writer;

/// Writes a parameter [JLS 8.4.1].
fn write_parameter(out: &mut Writer, tree: &ParameterTree) -> Result<(), NoMemory>
    ensures { OnOk result (Wrote out.old out.new (parameter_pieces tree.now)) }
{
    write_final(out, tree.is_final)?;
    write_type(out, &tree.of)?;
    out.space()?;
    word(out, &tree.name.name)?;
    write_pairs(out, tree.dims)?;
    Ok(())
}

/// Writes parameters with commas between them.
fn write_parameters(out: &mut Writer, trees: &ParameterTrees) -> Result<(), NoMemory>
    ensures { OnOk result (Wrote out.old out.new (with_commas (map parameter_pieces trees.now))) }
{
    for (index, tree) in trees.as_slice().iter().enumerate() {
        comma_before(out, index)?;
        write_parameter(out, tree)?;
    }
    Ok(())
}

/// Writes the parameters of a method or a constructor, in parentheses.
///
/// # Errors
///
/// `NoMemory` where there is no room for them.
pub(crate) fn write_formals(out: &mut Writer, trees: &ParameterTrees) -> Result<(), NoMemory>
    ensures { OnOk result (Wrote out.old out.new (spec.formals trees.now)) }
{
    sign(out, b"(")?;
    write_parameters(out, trees)?;
    sign(out, b")")?;
    Ok(())
}
