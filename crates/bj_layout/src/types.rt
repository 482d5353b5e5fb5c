ghost use Rattle.std.specs.Prelude.{[], ◌∷◌, OnOk};
ghost use Rattle.bj_writer.specs.Pieces.{Wrote};
ghost use Rattle.bj_layout.specs.Exprs as spec;

use crate::tokens::{keyword, sign, word};
use bj_base::NoMemory;
use bj_tree::{TypeName, TypeTree};
use bj_writer::Writer;

/// Writes the type that stands before the brackets.
fn write_type_name(out: &mut Writer, name: &TypeName) -> Result<(), NoMemory>
    ensures { OnOk result (Wrote out.old out.new (spec.type_name name.now ∷ [])) }
{
    match name {
        TypeName::Int => keyword(out, b"int"),
        TypeName::Long => keyword(out, b"long"),
        TypeName::Boolean => keyword(out, b"boolean"),
        TypeName::Char => keyword(out, b"char"),
        TypeName::Named(text) => word(out, text),
    }
}

/// Writes so many pairs of brackets.
///
/// # Errors
///
/// `NoMemory` where there is no room for them.
pub(crate) fn write_pairs(out: &mut Writer, dims: u32) -> Result<(), NoMemory>
    ensures { OnOk result (Wrote out.old out.new (spec.pairs dims)) }
{
    for _ in 0..dims {
        sign(out, b"[")?;
        sign(out, b"]")?;
    }
    Ok(())
}

/// Writes a type [JLS 4].
///
/// # Errors
///
/// As `write_pairs`.
pub(crate) fn write_type(out: &mut Writer, tree: &TypeTree) -> Result<(), NoMemory>
    ensures { OnOk result (Wrote out.old out.new (spec.type_pieces tree.now)) }
{
    write_type_name(out, &tree.name)?;
    write_pairs(out, tree.dims)?;
    Ok(())
}
