ghost use Rattle.std.specs.Prelude.{◌≡◌, [], ◌∷◌, OnOk};
ghost use Rattle.bj_writer.specs.Pieces.{Space, Wrote};
ghost use Rattle.bj_layout.specs.Exprs.{keyword};
ghost use Rattle.bj_layout.specs.Classes as spec;
ghost use Rattle.bj_layout.specs.Classes.{maybe_super, maybe_names, head_pieces, class_pieces};

use crate::imports::write_imports;
use crate::members::write_members;
use crate::modifiers::write_prefix;
use crate::names::write_names;
use crate::tokens::{keyword_before, sign, spaced_keyword, word};
use bj_base::NoMemory;
use bj_tree::{ClassKind, ClassTree, NamedPlace, NamedPlaces};
use bj_writer::Writer;

/// The keyword of a class or of an interface [JLS 8.1, 9.1].
fn class_word(kind: ClassKind) -> &'static [u8]
    ensures { result.now ≡ spec.class_word kind }
{
    match kind {
        ClassKind::Class => b"class",
        ClassKind::Interface => b"interface",
    }
}

/// The keyword before the superinterfaces of a class or of an interface [JLS 8.1.5, 9.1.3].
fn super_word(kind: ClassKind) -> &'static [u8]
    ensures { result.now ≡ spec.super_word kind }
{
    match kind {
        ClassKind::Class => b"implements",
        ClassKind::Interface => b"extends",
    }
}

/// Writes the superclass of a class, if it names one [JLS 8.1.4].
fn write_super(out: &mut Writer, superclass: &Option<NamedPlace>) -> Result<(), NoMemory>
    ensures { OnOk result (Wrote out.old out.new (maybe_super superclass.now)) }
{
    if let Some(superclass) = superclass {
        spaced_keyword(out, b"extends")?;
        word(out, &superclass.name)?;
    }
    Ok(())
}

/// Writes the keyword of a class or of an interface and the space behind it.
fn write_kind(out: &mut Writer, kind: ClassKind) -> Result<(), NoMemory>
    ensures { OnOk result (Wrote out.old out.new (keyword (spec.class_word kind) ∷ Space ∷ [])) }
{
    keyword_before(out, class_word(kind))
}

/// Writes the superinterfaces of a class or of an interface, if it names any.
fn write_interfaces(out: &mut Writer, kind: ClassKind, names: &NamedPlaces) -> Result<(), NoMemory>
    ensures { OnOk result (Wrote out.old out.new (maybe_names (spec.super_word kind) names.now)) }
{
    write_names(out, super_word(kind), names)
}

/// Writes what stands before the members of a class or of an interface.
fn write_class_head(out: &mut Writer, tree: &ClassTree) -> Result<(), NoMemory>
    ensures { OnOk result (Wrote out.old out.new (head_pieces tree.now)) }
{
    write_prefix(out, 0, &tree.annotations, &tree.modifiers)?;
    write_kind(out, tree.kind)?;
    word(out, &tree.name.name)?;
    write_super(out, &tree.superclass)?;
    write_interfaces(out, tree.kind, &tree.superinterfaces)?;
    out.line(0)?;
    Ok(())
}

/// Writes a file with the class or the interface in it [JLS 7.3, 8.1, 9.1].
pub(crate) fn write_class(out: &mut Writer, tree: &ClassTree) -> Result<(), NoMemory>
    ensures { OnOk result (Wrote out.old out.new (class_pieces tree.now)) }
{
    write_imports(out, &tree.imports)?;
    write_class_head(out, tree)?;
    sign(out, b"{")?;
    write_members(out, &tree.members)?;
    out.line(0)?;
    sign(out, b"}")?;
    out.line(0)?;
    Ok(())
}
