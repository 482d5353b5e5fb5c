ghost use Rattle.std.specs.Prelude.{[], ◌∷◌, map, OnOk, codes};
ghost use Rattle.bj_writer.specs.Pieces.{Space, Wrote};
ghost use Rattle.bj_layout.specs.Exprs as spec;
ghost use Rattle.bj_layout.specs.Exprs.{expr_pieces, type_pieces, separated};
ghost use Rattle.bj_layout.specs.Stmts.{headed};
ghost use Rattle.bj_layout.specs.Parts.{bar, before_next, caught_pieces, each_pieces};

use crate::expr::write_boxed;
use crate::optional::write_final;
use crate::tokens::{keyword, keyword_before, sign, spaced_sign, word};
use crate::types::write_type;
use bj_base::NoMemory;
use bj_tree::{ExprTree, NamedPlace, TypeTree, TypeTrees};
use bj_writer::Writer;
use sqlite_items::Boxed;

/// Writes a keyword and the parenthesis behind it.
///
/// # Errors
///
/// `NoMemory` where there is no room for them.
pub(crate) fn open_head(out: &mut Writer, name: &[u8]) -> Result<(), NoMemory>
    ensures { OnOk result (Wrote out.old out.new (spec.keyword name.now ∷ Space ∷ spec.sign (codes "(") ∷ [])) }
{
    keyword_before(out, name)?;
    sign(out, b"(")?;
    Ok(())
}

/// Writes a keyword and an expression in parentheses.
///
/// # Errors
///
/// As `open_head`.
pub(crate) fn write_head(
    out: &mut Writer,
    name: &[u8],
    tree: &Boxed<ExprTree>,
) -> Result<(), NoMemory>
    ensures { OnOk result (Wrote out.old out.new (headed name.now (expr_pieces tree.now))) }
{
    open_head(out, name)?;
    write_boxed(out, tree)?;
    sign(out, b")")?;
    Ok(())
}

/// Writes what stands before a statement that is synchronized on a class [JLS 14.19, 15.8.2].
///
/// # Errors
///
/// As `open_head`.
pub(crate) fn write_class_head(out: &mut Writer, class: &NamedPlace) -> Result<(), NoMemory>
    ensures { OnOk result (Wrote out.old out.new (headed (codes "synchronized") (spec.word class.now.name ∷ spec.sign (codes ".") ∷ spec.keyword (codes "class") ∷ []))) }
{
    open_head(out, b"synchronized")?;
    word(out, &class.name)?;
    sign(out, b".")?;
    keyword(out, b"class")?;
    sign(out, b")")?;
    Ok(())
}

/// Writes the variable of a `for` over an array, and the array.
fn write_each(
    out: &mut Writer,
    is_final: bool,
    of: &TypeTree,
    name: &NamedPlace,
    over: &Boxed<ExprTree>,
) -> Result<(), NoMemory>
    ensures { OnOk result (Wrote out.old out.new (each_pieces is_final of.now name.now over.now)) }
{
    write_final(out, is_final)?;
    write_type(out, of)?;
    out.space()?;
    word(out, &name.name)?;
    spaced_sign(out, b":")?;
    write_boxed(out, over)?;
    Ok(())
}

/// Writes what stands before the body of a `for` over an array [JLS 14.14.2].
///
/// # Errors
///
/// As `open_head`.
pub(crate) fn write_each_head(
    out: &mut Writer,
    is_final: bool,
    of: &TypeTree,
    name: &NamedPlace,
    over: &Boxed<ExprTree>,
) -> Result<(), NoMemory>
    ensures { OnOk result (Wrote out.old out.new (headed (codes "for") (each_pieces is_final of.now name.now over.now))) }
{
    open_head(out, b"for")?;
    write_each(out, is_final, of, name, over)?;
    sign(out, b")")?;
    Ok(())
}

/// Writes the `|` that stands before each type of a catch but the first.
fn bar_before(out: &mut Writer, index: usize) -> Result<(), NoMemory>
    ensures { OnOk result (Wrote out.old out.new (before_next bar index)) }
{
    if index == 0 {
        return Ok(());
    }
    spaced_sign(out, b"|")
}

/// Writes the types of a catch.
fn write_types(out: &mut Writer, types: &TypeTrees) -> Result<(), NoMemory>
    ensures { OnOk result (Wrote out.old out.new (separated bar (map type_pieces types.now))) }
{
    for (index, tree) in types.as_slice().iter().enumerate() {
        bar_before(out, index)?;
        write_type(out, tree)?;
    }
    Ok(())
}

/// Writes the parameter of a catch.
fn write_caught(
    out: &mut Writer,
    is_final: bool,
    types: &TypeTrees,
    name: &NamedPlace,
) -> Result<(), NoMemory>
    ensures { OnOk result (Wrote out.old out.new (caught_pieces is_final types.now name.now)) }
{
    write_final(out, is_final)?;
    write_types(out, types)?;
    out.space()?;
    word(out, &name.name)?;
    Ok(())
}

/// Writes what stands before the block of a catch [JLS 14.20].
///
/// # Errors
///
/// As `open_head`.
pub(crate) fn write_catch_head(
    out: &mut Writer,
    is_final: bool,
    types: &TypeTrees,
    name: &NamedPlace,
) -> Result<(), NoMemory>
    ensures { OnOk result (Wrote out.old out.new (headed (codes "catch") (caught_pieces is_final types.now name.now))) }
{
    open_head(out, b"catch")?;
    write_caught(out, is_final, types, name)?;
    sign(out, b")")?;
    Ok(())
}
