ghost use Rattle.std.specs.Prelude.{◌≡◌, ◌≤◌, ◌+◌, ◌*◌, IfOk, IfSome, OnOk, length, drop};
ghost use Rattle.bj_sum.specs.Lexing.{longer as spec_longer, literal_of, tokens_of as spec_tokens_of, is_doubled as spec_is_doubled, is_digit as spec_is_digit, begun as spec_begun, behind, IsSmall};
ghost use Rattle.bj_sum.specs.Lexical.{sign_of as spec_sign_of};

use crate::token::{Sort, Token};
use bj_core::{NoMemory, Seq};
use std::alloc::Global;

/// The greatest `int` [JLS 4.2.1].
const MAX_INT: u32 = 2_147_483_647;

/// A decimal numeral whose digits are being read.
#[derive(Clone, Copy)]
struct Numeral {
    /// The column of its first digit.
    column: u32,
    /// The value of the digits so far.
    value: u32,
}

/// A numeral's value with one digit more, or None where that is no numeral of an `int` [JLS 3.10.1].
fn longer(value: u32, digit: u32) -> Option<u32>
    requires { digit ≤ 9 }
    ensures value { result ≡ spec_longer value digit }
    ensures small { IfSome result (λ n. n ≤ 2147483647) }
{
    if value == 0 || value > MAX_INT / 10 {
        return None;
    }
    let longer = value * 10 + digit;
    if longer > MAX_INT {
        return None;
    }
    Some(longer)
}

fn literal(numeral: Numeral) -> Token
    requires { numeral.value ≤ 2147483647 }
    ensures { result ≡ literal_of numeral }
{
    Token {
        column: numeral.column,
        sort: Sort::Literal(numeral.value as i32),
    }
}

fn is_digit(byte: u8) -> bool
    ensures { result ≡ spec_is_digit byte }
{
    byte >= b'0' && byte <= b'9'
}

/// The separator or operator that a byte is [JLS 3.11, 3.12].
fn sign_of(byte: u8) -> Option<Sort>
    ensures { result ≡ spec_sign_of byte }
{
    match byte {
        b'(' => Some(Sort::Open),
        b')' => Some(Sort::Close),
        b'*' => Some(Sort::Times),
        b'+' => Some(Sort::Plus),
        b'-' => Some(Sort::Minus),
        _ => None,
    }
}

/// Whether a byte and the text behind it begin `++` or `--`, which are tokens of their own [JLS 3.5, 3.12].
fn is_doubled(byte: u8, text: &[u8], next: usize) -> bool
    ensures { result ≡ spec_is_doubled byte (drop next text.now) }
{
    match text.get(next) {
        None => false,
        Some(after) => byte == *after && (byte == b'+' || byte == b'-'),
    }
}

/// A numeral with the digit at a column, or None where that is no numeral of an `int`.
fn begun(numeral: Option<Numeral>, column: u32, digit: u32) -> Option<Numeral>
    requires { digit ≤ 9 }
    ensures value { result ≡ spec_begun numeral column digit }
    ensures small { IsSmall result }
{
    match numeral {
        None => Some(Numeral {
            column,
            value: digit,
        }),
        Some(begun) => match longer(begun.value, digit) {
            None => None,
            Some(value) => Some(Numeral {
                column: begun.column,
                value,
            }),
        },
    }
}

/// Adds the literal of a numeral that ends.
fn finish(tokens: &mut Seq<Token>, numeral: Option<Numeral>) -> Result<(), NoMemory>
    requires { IsSmall numeral }
    ensures { OnOk result (tokens.new ≡ behind tokens.old numeral) }
{
    match numeral {
        None => Ok(()),
        Some(numeral) => tokens.push(literal(numeral)),
    }
}

/// The tokens of a text, or None where it has a character, or a numeral, that is in no sum.
pub fn tokens_of(alloc: Global, text: &[u8]) -> Result<Option<Seq<Token>>, NoMemory>
    requires { length text.now ≤ 65536 }
    ensures { IfOk result (λ tokens. tokens ≡ spec_tokens_of text.now) }
{
    let mut tokens = Seq::new(alloc);
    let mut numeral: Option<Numeral> = None;
    for (index, byte) in text.iter().enumerate() {
        let column = index as u32 + 1;
        if is_digit(*byte) {
            let Some(more) = begun(numeral, column, (*byte - b'0') as u32) else {
                return Ok(None);
            };
            numeral = Some(more);
            continue;
        }
        finish(&mut tokens, numeral)?;
        numeral = None;
        if *byte == b' ' {
            continue;
        }
        if is_doubled(*byte, text, index + 1) {
            return Ok(None);
        }
        let Some(sort) = sign_of(*byte) else {
            return Ok(None);
        };
        tokens.push(Token { column, sort })?;
    }
    finish(&mut tokens, numeral)?;
    Ok(Some(tokens))
}
