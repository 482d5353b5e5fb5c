ghost use Rattle.std.specs.Prelude.{OnOk};
ghost use Rattle.bj_writer.specs.Pieces.{Wrote};
ghost use Rattle.bj_layout.specs.Stmts as spec;

use crate::expr::write_boxed;
use crate::tokens::{keyword_before, spaced_sign, word};
use bj_base::NoMemory;
use bj_tree::{ExprTree, NamedPlace};
use bj_writer::Writer;
use sqlite_items::Boxed;

/// Writes `final`, where it stands.
///
/// # Errors
///
/// `NoMemory` where there is no room for it.
pub(crate) fn write_final(out: &mut Writer, is_final: bool) -> Result<(), NoMemory>
    ensures { OnOk result (Wrote out.old out.new (spec.maybe_final is_final)) }
{
    if is_final {
        return keyword_before(out, b"final");
    }
    Ok(())
}

/// Writes a space and an expression that may be missing.
///
/// # Errors
///
/// As `write_final`.
pub(crate) fn write_optional_expr(
    out: &mut Writer,
    tree: &Option<Boxed<ExprTree>>,
) -> Result<(), NoMemory>
    ensures { OnOk result (Wrote out.old out.new (spec.maybe_expr tree.now)) }
{
    if let Some(tree) = tree {
        out.space()?;
        write_boxed(out, tree)?;
    }
    Ok(())
}

/// Writes a space and a label that may be missing.
///
/// # Errors
///
/// As `write_final`.
pub(crate) fn write_label(out: &mut Writer, label: &Option<NamedPlace>) -> Result<(), NoMemory>
    ensures { OnOk result (Wrote out.old out.new (spec.maybe_label label.now)) }
{
    if let Some(label) = label {
        out.space()?;
        word(out, &label.name)?;
    }
    Ok(())
}

/// Writes an initializer that may be missing.
///
/// # Errors
///
/// As `write_final`.
pub(crate) fn write_initializer(
    out: &mut Writer,
    init: &Option<Boxed<ExprTree>>,
) -> Result<(), NoMemory>
    ensures { OnOk result (Wrote out.old out.new (spec.maybe_init init.now)) }
{
    if let Some(init) = init {
        spaced_sign(out, b"=")?;
        write_boxed(out, init)?;
    }
    Ok(())
}
