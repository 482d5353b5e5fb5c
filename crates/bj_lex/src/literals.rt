ghost use Rattle.std.specs.Prelude.{◌≡◌, ◌≤◌, ◌+◌, ◌<◌, IfOk, IfSome, length, false};
ghost use Rattle.bj_lex.specs.Literals.{closing, closes, escapes, string_element, char_element, string_token, char_token};
ghost use Rattle.bj_lex.specs.Elements.{IsCounted};

use crate::characters::{front_of, is_line_end};
use crate::element::Element;
use bj_base::{FaultCode, NoMemory};
use bj_text::{EscapeFault, unescape};
use bj_token::TokenKind;
use std::alloc::Global;

const DOUBLE_QUOTE: u16 = 34;

const QUOTE: u16 = 39;

const BACKSLASH: u16 = 92;

/// A string literal, behind its first quotation mark [JLS 3.10.5].
///
/// # Errors
///
/// `NoMemory` where there is no room for what it stands for.
pub fn string_element(alloc: Global, rest: &[u16]) -> Result<Element, NoMemory>
    requires { length rest.now + 1 < 18446744073709551616 }
    ensures value { IfOk result (λ element. element ≡ string_element rest.now) }
    ensures within { IfOk result (λ element. IsCounted (length rest.now + 1) element) }
{
    let Some(length) = closing(DOUBLE_QUOTE, rest) else {
        return Ok(Element::Fault(FaultCode::Open));
    };
    match unescape(alloc, front_of(rest, length)) {
        Ok(_) => Ok(Element::Token(TokenKind::StringText, length + 2)),
        Err(EscapeFault::BadEscape { .. }) => Ok(Element::Fault(FaultCode::Char)),
        Err(EscapeFault::NoMemory) => Err(NoMemory),
    }
}

/// A character literal, behind its first quotation mark [JLS 3.10.4].
///
/// # Errors
///
/// `NoMemory` where there is no room for what it stands for.
pub fn char_element(alloc: Global, rest: &[u16]) -> Result<Element, NoMemory>
    requires { length rest.now + 1 < 18446744073709551616 }
    ensures value { IfOk result (λ element. element ≡ char_element rest.now) }
    ensures within { IfOk result (λ element. IsCounted (length rest.now + 1) element) }
{
    let Some(length) = closing(QUOTE, rest) else {
        return Ok(Element::Fault(FaultCode::Open));
    };
    match unescape(alloc, front_of(rest, length)) {
        Ok(units) => {
            if units.len() == 1 {
                Ok(Element::Token(TokenKind::CharText, length + 2))
            } else {
                Ok(Element::Fault(FaultCode::Char))
            }
        }
        Err(EscapeFault::BadEscape { .. }) => Ok(Element::Fault(FaultCode::Char)),
        Err(EscapeFault::NoMemory) => Err(NoMemory),
    }
}

/// How many units stand before the quotation mark that closes the literal on its line.
fn closing(mark: u16, rest: &[u16]) -> Option<usize>
    ensures value { result ≡ closing mark false rest.now }
    ensures within { IfSome result (λ n. n + 1 ≤ length rest.now) }
{
    let mut escaped = false;
    for at in 0..rest.len() {
        let unit = rest[at];
        if is_line_end(unit) {
            return None;
        }
        if closes(mark, escaped, unit) {
            return Some(at);
        }
        escaped = escapes(escaped, unit);
    }
    None
}

/// Whether the unit closes the literal.
fn closes(mark: u16, escaped: bool, unit: u16) -> bool
    ensures { result ≡ closes mark escaped unit }
{
    !escaped && unit == mark
}

/// Whether the unit escapes the next one.
fn escapes(escaped: bool, unit: u16) -> bool
    ensures { result ≡ escapes escaped unit }
{
    !escaped && unit == BACKSLASH
}
