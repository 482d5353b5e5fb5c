ghost use Rattle.std.specs.Prelude.{◌≡◌, IfOk};
ghost use Rattle.bj_lex.specs.Values.{quoted, meaning, char_value};

use crate::characters::{front_of, rest_from};
use bj_base::{JText, NoMemory};
use bj_text::{EscapeFault, unescape};
use std::alloc::Global;

/// What the text of a string literal stands for [JLS 3.10.5], or None where its text is not one.
///
/// # Errors
///
/// `NoMemory` where there is no room for it.
pub fn text_value(alloc: Global, literal: &[u16]) -> Result<Option<JText>, NoMemory>
    ensures { IfOk result (λ value. value ≡ meaning literal.now) }
{
    match unescape(alloc, quoted(literal)) {
        Ok(units) => Ok(Some(units)),
        Err(EscapeFault::BadEscape { .. }) => Ok(None),
        Err(EscapeFault::NoMemory) => Err(NoMemory),
    }
}

/// The unit that the text of a character literal stands for [JLS 3.10.4], or None where its text is not one.
///
/// # Errors
///
/// `NoMemory` where there is no room for what is read.
pub fn char_value(alloc: Global, literal: &[u16]) -> Result<Option<u16>, NoMemory>
    ensures { IfOk result (λ value. value ≡ char_value literal.now) }
{
    let Some(units) = text_value(alloc, literal)? else {
        return Ok(None);
    };
    if units.len() == 1 {
        Ok(units.get(0).copied())
    } else {
        Ok(None)
    }
}

/// The units within the quotation marks.
fn quoted(literal: &[u16]) -> &[u16]
    ensures { result.now ≡ quoted literal.now }
{
    if literal.len() < 2 {
        return front_of(literal, 0);
    }
    front_of(rest_from(literal, 1), literal.len() - 2)
}
