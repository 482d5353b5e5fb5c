ghost use Rattle.std.specs.Prelude.{◌≡◌, map, OnOk};
ghost use Rattle.bj_writer.specs.Pieces.{Wrote};
ghost use Rattle.bj_layout.specs.Classes as spec;
ghost use Rattle.bj_layout.specs.Classes.{each, expected_pieces, annotation_pieces, modifier_pieces, prefix_pieces};

use crate::tokens::{keyword, keyword_before, sign, spaced_sign, word};
use bj_base::NoMemory;
use bj_lex::TokenKind;
use bj_tree::{AnnotationTree, AnnotationTrees, Modifier, ModifierKind, Modifiers, NamedPlace};
use bj_writer::Writer;

/// Writes the element `expected` of an annotation, if it has one [JLS 9.7.1].
fn write_expected(out: &mut Writer, expected: &Option<NamedPlace>) -> Result<(), NoMemory>
    ensures { OnOk result (Wrote out.old out.new (expected_pieces expected.now)) }
{
    if let Some(class) = expected {
        sign(out, b"(")?;
        out.mark(TokenKind::Word, b"expected")?;
        spaced_sign(out, b"=")?;
        word(out, &class.name)?;
        sign(out, b".")?;
        keyword(out, b"class")?;
        sign(out, b")")?;
    }
    Ok(())
}

/// Writes an annotation, and the end of its line.
fn write_annotation(out: &mut Writer, columns: usize, tree: &AnnotationTree) -> Result<(), NoMemory>
    ensures { OnOk result (Wrote out.old out.new (annotation_pieces columns tree.now)) }
{
    sign(out, b"@")?;
    word(out, &tree.name.name)?;
    write_expected(out, &tree.expected)?;
    out.line(columns)?;
    Ok(())
}

/// Writes annotations, each in a line of its own.
fn write_annotations(
    out: &mut Writer,
    columns: usize,
    trees: &AnnotationTrees,
) -> Result<(), NoMemory>
    ensures { OnOk result (Wrote out.old out.new (each (map (annotation_pieces columns) trees.now))) }
{
    for tree in trees.as_slice() {
        write_annotation(out, columns, tree)?;
    }
    Ok(())
}

/// How a modifier is spelled [JLS 8.1.1, 8.3.1, 8.4.3].
fn modifier_word(kind: ModifierKind) -> &'static [u8]
    ensures { result.now ≡ spec.modifier_word kind }
{
    match kind {
        ModifierKind::Public => b"public",
        ModifierKind::Protected => b"protected",
        ModifierKind::Private => b"private",
        ModifierKind::Abstract => b"abstract",
        ModifierKind::Static => b"static",
        ModifierKind::Final => b"final",
        ModifierKind::Synchronized => b"synchronized",
        ModifierKind::Volatile => b"volatile",
    }
}

/// Writes a modifier and a space.
fn write_modifier(out: &mut Writer, modifier: &Modifier) -> Result<(), NoMemory>
    ensures { OnOk result (Wrote out.old out.new (modifier_pieces modifier.now)) }
{
    keyword_before(out, modifier_word(modifier.kind))
}

/// Writes modifiers, each with a space behind it.
fn write_modifiers(out: &mut Writer, modifiers: &Modifiers) -> Result<(), NoMemory>
    ensures { OnOk result (Wrote out.old out.new (each (map modifier_pieces modifiers.now))) }
{
    for modifier in modifiers.as_slice() {
        write_modifier(out, modifier)?;
    }
    Ok(())
}

/// Writes what stands before a declaration, in a line that begins behind so many columns.
///
/// # Errors
///
/// `NoMemory` where there is no room for it.
pub(crate) fn write_prefix(
    out: &mut Writer,
    columns: usize,
    annotations: &AnnotationTrees,
    modifiers: &Modifiers,
) -> Result<(), NoMemory>
    ensures { OnOk result (Wrote out.old out.new (prefix_pieces columns annotations.now modifiers.now)) }
{
    write_annotations(out, columns, annotations)?;
    write_modifiers(out, modifiers)?;
    Ok(())
}
