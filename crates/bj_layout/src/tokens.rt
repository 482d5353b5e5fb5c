ghost use Rattle.std.specs.Prelude.{[], ◌∷◌, OnOk, codes};
ghost use Rattle.bj_writer.specs.Pieces.{Space, Wrote};
ghost use Rattle.bj_layout.specs.Exprs as spec;

use bj_base::{JText, NoMemory};
use bj_lex::TokenKind;
use bj_writer::Writer;

/// Writes an identifier [JLS 3.8].
///
/// # Errors
///
/// `NoMemory` where there is no room for it.
pub(crate) fn word(out: &mut Writer, name: &JText) -> Result<(), NoMemory>
    ensures { OnOk result (Wrote out.old out.new (spec.word name.now ∷ [])) }
{
    out.token(TokenKind::Word, name.as_slice())
}

/// Writes a keyword [JLS 3.9].
///
/// # Errors
///
/// As `word`.
pub(crate) fn keyword(out: &mut Writer, text: &[u8]) -> Result<(), NoMemory>
    ensures { OnOk result (Wrote out.old out.new (spec.keyword text.now ∷ [])) }
{
    out.mark(TokenKind::Keyword, text)
}

/// Writes a separator or an operator [JLS 3.11, 3.12].
///
/// # Errors
///
/// As `word`.
pub(crate) fn sign(out: &mut Writer, text: &[u8]) -> Result<(), NoMemory>
    ensures { OnOk result (Wrote out.old out.new (spec.sign text.now ∷ [])) }
{
    out.mark(TokenKind::Sign, text)
}

/// Writes an operator with a space before it and one behind it.
///
/// # Errors
///
/// As `word`.
pub(crate) fn spaced_sign(out: &mut Writer, text: &[u8]) -> Result<(), NoMemory>
    ensures { OnOk result (Wrote out.old out.new (spec.spaced (spec.sign text.now))) }
{
    out.space()?;
    sign(out, text)?;
    out.space()?;
    Ok(())
}

/// Writes a keyword with a space before it and one behind it.
///
/// # Errors
///
/// As `word`.
pub(crate) fn spaced_keyword(out: &mut Writer, text: &[u8]) -> Result<(), NoMemory>
    ensures { OnOk result (Wrote out.old out.new (spec.spaced (spec.keyword text.now))) }
{
    out.space()?;
    keyword(out, text)?;
    out.space()?;
    Ok(())
}

/// Writes a keyword and a space.
///
/// # Errors
///
/// As `word`.
pub(crate) fn keyword_before(out: &mut Writer, text: &[u8]) -> Result<(), NoMemory>
    ensures { OnOk result (Wrote out.old out.new (spec.keyword text.now ∷ Space ∷ [])) }
{
    keyword(out, text)?;
    out.space()?;
    Ok(())
}

/// Writes a point and a name.
///
/// # Errors
///
/// As `word`.
pub(crate) fn point_and_name(out: &mut Writer, name: &JText) -> Result<(), NoMemory>
    ensures { OnOk result (Wrote out.old out.new (spec.sign (codes ".") ∷ spec.word name.now ∷ [])) }
{
    sign(out, b".")?;
    word(out, name)?;
    Ok(())
}
