ghost use Rattle.std.specs.Prelude.{[], ◌∷◌, if◌then◌else◌, map, OnOk, codes};
ghost use Rattle.bj_writer.specs.Pieces.{Space, Wrote};
ghost use Rattle.bj_layout.specs.Exprs as spec;
ghost use Rattle.bj_layout.specs.Classes.{each, import_pieces, imports_pieces};

use crate::names::write_with_points;
use crate::tokens::{keyword_before, sign};
use bj_base::NoMemory;
use bj_tree::{ImportTree, ImportTrees};
use bj_writer::Writer;

/// Writes the `static` of an import, where it stands [JLS 7.5.3].
fn write_static(out: &mut Writer, is_static: bool) -> Result<(), NoMemory>
    ensures { OnOk result (Wrote out.old out.new (if is_static then spec.keyword (codes "static") ∷ Space ∷ [] else [])) }
{
    if is_static {
        return keyword_before(out, b"static");
    }
    Ok(())
}

/// Writes the `.*` of an import, where it stands [JLS 7.5.2].
fn write_on_demand(out: &mut Writer, is_on_demand: bool) -> Result<(), NoMemory>
    ensures { OnOk result (Wrote out.old out.new (if is_on_demand then spec.sign (codes ".") ∷ spec.sign (codes "*") ∷ [] else [])) }
{
    if is_on_demand {
        sign(out, b".")?;
        sign(out, b"*")?;
    }
    Ok(())
}

/// Writes an import, in its line [JLS 7.5].
fn write_import(out: &mut Writer, tree: &ImportTree) -> Result<(), NoMemory>
    ensures { OnOk result (Wrote out.old out.new (import_pieces tree.now)) }
{
    keyword_before(out, b"import")?;
    write_static(out, tree.is_static)?;
    write_with_points(out, &tree.names)?;
    write_on_demand(out, tree.is_on_demand)?;
    sign(out, b";")?;
    out.line(0)?;
    Ok(())
}

/// Writes imports, each in its line.
fn write_each_import(out: &mut Writer, trees: &ImportTrees) -> Result<(), NoMemory>
    ensures { OnOk result (Wrote out.old out.new (each (map import_pieces trees.now))) }
{
    for tree in trees.as_slice() {
        write_import(out, tree)?;
    }
    Ok(())
}

/// Writes the imports of a file, and an empty line behind them if there are any.
///
/// # Errors
///
/// `NoMemory` where there is no room for them.
pub(crate) fn write_imports(out: &mut Writer, trees: &ImportTrees) -> Result<(), NoMemory>
    ensures { OnOk result (Wrote out.old out.new (imports_pieces trees.now)) }
{
    if trees.is_empty() {
        return Ok(());
    }
    write_each_import(out, trees)?;
    out.line(0)?;
    Ok(())
}
