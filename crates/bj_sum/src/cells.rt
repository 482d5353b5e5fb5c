ghost use Rattle.std.specs.Prelude.{◌≡◌, ◌≤◌, ◌↔◌, List, ℕ, Some, IfOk, IfSome, take, length};
ghost use Rattle.std.specs.Option.{option_copied};
ghost use Rattle.bj_core.specs.declared.tree.Expr.{Expr as ExprOf};
ghost use Rattle.bj_sum.specs.Cells.{IsCreation, IsCall, is_letter as spec_is_letter, is_blank as spec_is_blank, skipped, behind_sign as spec_behind_sign, behind_word as spec_behind_word, before_close as spec_before_close, enclosed as spec_enclosed, enclosed_behind as spec_enclosed_behind, argument_behind as spec_argument_behind, behind_point as spec_behind_point, letters_of as spec_letters_of, method_of, creation_of, call_of};

use crate::read_sum;
use bj_core::{Expr, Name, NoMemory};
use std::alloc::Global;

/// A call of a method of `Cell`, on the object that a name stands for.
#[derive(Drop)]
pub enum CellCall {
    /// `x.add(L)`
    Add { name: Name, argument: Expr },
    /// `x.get()`
    Get { name: Name },
}

fn is_letter(byte: u8) -> bool
    ensures { result ≡ spec_is_letter byte }
{
    (byte >= b'A' && byte <= b'Z') || (byte >= b'a' && byte <= b'z')
}

/// How many letters there are in front.
fn letters_of(text: &[u8]) -> usize
    ensures value { result ≡ spec_letters_of text.now }
    ensures within { result ≤ length text.now }
{
    for (index, byte) in text.iter().enumerate() {
        if !is_letter(*byte) {
            return index;
        }
    }
    text.len()
}

/// Whether all are spaces.
fn is_blank(text: &[u8]) -> bool
    ensures { result ≡ spec_is_blank text.now }
{
    for byte in text {
        if *byte != b' ' {
            return false;
        }
    }
    true
}

/// The text without the spaces in front.
fn skip_spaces(text: &[u8]) -> &[u8]
    ensures value { result.now ≡ skipped text.now }
    ensures within { length result.now ≤ length text.now }
{
    for (index, byte) in text.iter().enumerate() {
        if *byte != b' ' {
            return &text[index..];
        }
    }
    &text[text.len()..]
}

/// What is behind a sign in front.
fn behind_sign(sign: u8, text: &[u8]) -> Option<&[u8]>
    ensures value { option_copied result ≡ spec_behind_sign sign text.now }
    ensures within { IfSome result (λ rest. length rest.now ≤ length text.now) }
{
    match text {
        [first, rest @ ..] if *first == sign => Some(rest),
        _ => None,
    }
}

/// What is behind a word in front.
fn behind_word<'a>(word: &[u8], text: &'a [u8]) -> Option<&'a [u8]>
    ensures value { option_copied result ≡ spec_behind_word word.now text.now }
    ensures within { IfSome result (λ rest. length rest.now ≤ length text.now) }
{
    text.strip_prefix(word)
}

/// What is before a closing parenthesis that only spaces follow.
fn before_close(text: &[u8]) -> Option<&[u8]>
    ensures value { option_copied result ≡ spec_before_close text.now }
    ensures within { IfSome result (λ inner. length inner.now ≤ length text.now) }
{
    let mut end = text.len();
    while end > 0 && text[end - 1] == b' ' {
        end -= 1;
    }
    if end > 0 && text[end - 1] == b')' {
        return Some(&text[..end - 1]);
    }
    None
}

/// What stands in a pair of parentheses.
fn enclosed(text: &[u8]) -> Option<&[u8]>
    ensures value { option_copied result ≡ spec_enclosed text.now }
    ensures within { IfSome result (λ inner. length inner.now ≤ length text.now) }
{
    before_close(behind_sign(b'(', skip_spaces(text))?)
}

/// What stands in a pair of parentheses behind a word.
fn enclosed_behind<'a>(word: &[u8], text: &'a [u8]) -> Option<&'a [u8]>
    ensures value { option_copied result ≡ spec_enclosed_behind word.now text.now }
    ensures within { IfSome result (λ inner. length inner.now ≤ length text.now) }
{
    enclosed(behind_word(word, text)?)
}

/// The sum in a pair of parentheses behind a word.
fn argument_behind(alloc: Global, word: &[u8], text: &[u8]) -> Result<Option<Expr>, NoMemory>
    requires { length text.now ≤ 65536 }
    ensures { IfOk result (λ e. e ≡ spec_argument_behind word.now text.now) }
{
    match enclosed_behind(word, text) {
        Some(inner) => read_sum(alloc, inner),
        None => Ok(None),
    }
}

/// What is behind the point in front.
fn behind_point(text: &[u8]) -> Option<&[u8]>
    ensures value { option_copied result ≡ spec_behind_point text.now }
    ensures within { IfSome result (λ rest. length rest.now ≤ length text.now) }
{
    Some(skip_spaces(behind_sign(b'.', skip_spaces(text))?))
}

/// The call of a method of the object that a name stands for.
fn read_method(alloc: Global, name: &[u8], text: &[u8]) -> Result<Option<CellCall>, NoMemory>
    requires { length text.now ≤ 65536 }
    ensures { IfOk result (λ call. call ≡ method_of name.now text.now) }
{
    if let Some(argument) = argument_behind(alloc, b"add", text)? {
        let name = Name::from_slice(alloc, name)?;
        return Ok(Some(CellCall::Add { name, argument }));
    }
    match enclosed_behind(b"get", text) {
        Some(inner) if is_blank(inner) => {
            let name = Name::from_slice(alloc, name)?;
            Ok(Some(CellCall::Get { name }))
        }
        _ => Ok(None),
    }
}

/// Reads `Cell(L)`, where `L` is a sum: gives the tree of `L`. None for any other text.
///
/// # Errors
///
/// `NoMemory` where there is no room for the tree.
pub fn read_creation(alloc: Global, text: &[u8]) -> Result<Option<Expr>, NoMemory>
    requires { length text.now ≤ 65536 }
    ensures { IfOk result (λ e. e ≡ creation_of text.now) }
{
    argument_behind(alloc, b"Cell", text)
}

/// Reads `x.add(L)` and `x.get()`, where `x` is a name of ASCII letters and `L` a sum. None for any other text.
///
/// # Errors
///
/// `NoMemory` where there is no room for the name or the tree.
pub fn read_call(alloc: Global, text: &[u8]) -> Result<Option<CellCall>, NoMemory>
    requires { length text.now ≤ 65536 }
    ensures { IfOk result (λ call. call ≡ call_of text.now) }
{
    let letters = letters_of(text);
    if letters == 0 {
        return Ok(None);
    }
    match behind_point(&text[letters..]) {
        Some(method) => read_method(alloc, &text[..letters], method),
        None => Ok(None),
    }
}

/// What is read as a creation or a call is one, and each is read as what it is.
pub fn cells_are_read()
    ensures creation { (text : List ℕ) (argument : ExprOf) → (creation_of text ≡ Some argument) ↔ IsCreation text argument }
    ensures call { (text : List ℕ) (call : CellCall) → (call_of text ≡ Some call) ↔ IsCall text call }
{}
