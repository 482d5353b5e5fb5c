ghost use Rattle.std.specs.Prelude.{map, OnOk};
ghost use Rattle.bj_writer.specs.Pieces.{Wrote};
ghost use Rattle.bj_layout.specs.Exprs.{with_commas};
ghost use Rattle.bj_layout.specs.Stmts.{variable_pieces};

use crate::lists::comma_before;
use crate::optional::write_initializer;
use crate::tokens::word;
use crate::types::write_pairs;
use bj_base::NoMemory;
use bj_tree::{VariableTree, VariableTrees};
use bj_writer::Writer;

/// Writes a variable of a declaration [JLS 8.3, 14.4].
fn write_variable(out: &mut Writer, variable: &VariableTree) -> Result<(), NoMemory>
    ensures { OnOk result (Wrote out.old out.new (variable_pieces variable.now)) }
{
    word(out, &variable.name)?;
    write_pairs(out, variable.dims)?;
    write_initializer(out, &variable.init)?;
    Ok(())
}

/// Writes the variables of a declaration.
///
/// # Errors
///
/// `NoMemory` where there is no room for them.
pub(crate) fn write_variables(out: &mut Writer, variables: &VariableTrees) -> Result<(), NoMemory>
    ensures { OnOk result (Wrote out.old out.new (with_commas (map variable_pieces variables.now))) }
{
    for (index, variable) in variables.as_slice().iter().enumerate() {
        comma_before(out, index)?;
        write_variable(out, variable)?;
    }
    Ok(())
}
