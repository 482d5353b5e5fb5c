ghost use Rattle.std.specs.Prelude.{◌≡◌, ◌<◌, ◌≤◌, IfOk, IsTrue, length, slice_index};
ghost use Rattle.bj_lex.specs.Elements.{element_of, token_element, marked_element, begins_comment, IsWithin};

use crate::characters::{begins_word, front_of, is_white, parts_len, rest_from};
use crate::comments::{block_element, line_element};
use crate::literals::{char_element, string_element};
use crate::numbers::{is_digit_in, number_element};
use crate::signs::sign_element;
use crate::words::word_element;
use bj_base::{FaultCode, NoMemory};
use bj_token::TokenKind;
use std::alloc::Global;

const DOUBLE_QUOTE: u16 = 34;

const QUOTE: u16 = 39;

const STAR: u16 = 42;

const SLASH: u16 = 47;

/// An element of the input, with how many units it has [JLS 3.5].
#[derive(Clone, Copy)]
pub enum Element {
    /// White space or a comment.
    Blank(usize),
    /// A token.
    Token(TokenKind, usize),
    /// A fault at its first unit.
    Fault(FaultCode),
}

/// The element at the front of a text that is not empty.
///
/// # Errors
///
/// `NoMemory` where there is no room for what a literal stands for.
pub fn element_of(alloc: Global, rest: &[u16]) -> Result<Element, NoMemory>
    requires room { length rest.now < 18446744073709551615 }
    requires some { 0 < length rest.now }
    ensures within { IfOk result (λ element. IsWithin rest.now element) }
    ensures value { IfOk result (λ element. element ≡ element_of rest.now) }
{
    if is_white(rest[0]) {
        return Ok(Element::Blank(1));
    }
    if begins_comment(SLASH, rest) {
        return Ok(line_element(rest_from(rest, 2)));
    }
    if begins_comment(STAR, rest) {
        return Ok(block_element(rest_from(rest, 2)));
    }
    token_element(alloc, rest)
}

/// Whether a comment stands at the front.
fn begins_comment(second: u16, rest: &[u16]) -> bool
    ensures value { result ≡ begins_comment second rest.now }
    ensures within { IsTrue result → 2 ≤ length rest.now }
{
    rest.len() > 1 && rest[0] == SLASH && rest[1] == second
}

/// The token at the front.
fn token_element(alloc: Global, rest: &[u16]) -> Result<Element, NoMemory>
    requires room { length rest.now < 18446744073709551615 }
    requires some { 0 < length rest.now }
    ensures within { IfOk result (λ element. IsWithin rest.now element) }
    ensures value { IfOk result (λ element. element ≡ token_element (slice_index rest.now 0) rest.now) }
{
    let length = parts_len(rest);
    if length == 0 {
        return marked_element(alloc, rest);
    }
    if begins_word(rest) {
        return Ok(word_element(front_of(rest, length)));
    }
    if is_digit_in(10, rest[0]) {
        return Ok(number_element(front_of(rest, length), rest_from(rest, length)));
    }
    marked_element(alloc, rest)
}

/// The literal or the sign at the front.
fn marked_element(alloc: Global, rest: &[u16]) -> Result<Element, NoMemory>
    requires room { length rest.now < 18446744073709551615 }
    requires some { 0 < length rest.now }
    ensures within { IfOk result (λ element. IsWithin rest.now element) }
    ensures value { IfOk result (λ element. element ≡ marked_element (slice_index rest.now 0) rest.now) }
{
    if rest[0] == DOUBLE_QUOTE {
        return string_element(alloc, rest_from(rest, 1));
    }
    if rest[0] == QUOTE {
        return char_element(alloc, rest_from(rest, 1));
    }
    Ok(sign_element(rest))
}
