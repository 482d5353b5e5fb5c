ghost use Rattle.std.specs.Prelude.{OnOk};
ghost use Rattle.bj_writer.specs.Pieces.{Wrote};
ghost use Rattle.bj_layout.specs.Exprs.{comma};
ghost use Rattle.bj_layout.specs.Parts.{before_next};

use crate::tokens::sign;
use bj_base::NoMemory;
use bj_writer::Writer;

/// Writes the comma and the space that stand before each item of a list but the first.
///
/// # Errors
///
/// `NoMemory` where there is no room for them.
pub(crate) fn comma_before(out: &mut Writer, index: usize) -> Result<(), NoMemory>
    ensures { OnOk result (Wrote out.old out.new (before_next comma index)) }
{
    if index == 0 {
        return Ok(());
    }
    sign(out, b",")?;
    out.space()?;
    Ok(())
}
