ghost use Rattle.std.specs.Prelude.{◌≡◌, ◌<◌, ◌≤◌, length};
ghost use Rattle.bj_lex.specs.Elements.{IsWithin};
ghost use Rattle.bj_lex.specs.Signs.{is_one_of, is_single, is_double, is_triple, is_quadruple, sign_len, is_left_out_sign, sign_element};

use crate::characters::unit_at;
use crate::element::Element;
use crate::numbers::is_digit_in;
use bj_base::FaultCode;
use bj_token::TokenKind;

/// The longest separator, operator or `@` at the front [JLS 3.11, 3.12].
pub fn sign_element(rest: &[u16]) -> Element
    requires { 0 < length rest.now }
    ensures value { result ≡ sign_element rest.now }
    ensures within { IsWithin rest.now result }
{
    let length = sign_len(rest);
    if length == 0 {
        return Element::Fault(FaultCode::Char);
    }
    if is_left_out_sign(rest) {
        return Element::Fault(FaultCode::Profile);
    }
    Element::Token(TokenKind::Sign, length)
}

/// How many units the longest sign at the front has.
fn sign_len(rest: &[u16]) -> usize
    requires { 0 < length rest.now }
    ensures value { result ≡ sign_len rest.now }
    ensures within { result ≤ length rest.now }
{
    let first = unit_at(rest, 0);
    let second = unit_at(rest, 1);
    let third = unit_at(rest, 2);
    if rest.len() >= 4 && is_quadruple(first, second, third, unit_at(rest, 3)) {
        return 4;
    }
    if rest.len() >= 3 && is_triple(first, second, third) {
        return 3;
    }
    if rest.len() >= 2 && is_double(first, second) {
        return 2;
    }
    if is_single(first) { 1 } else { 0 }
}

/// Whether the sign at the front is one that the profile leaves out.
fn is_left_out_sign(rest: &[u16]) -> bool
    ensures { result ≡ is_left_out_sign rest.now }
{
    let first = unit_at(rest, 0);
    let second = unit_at(rest, 1);
    (first == 45 && second == 62)
        || (first == 58 && second == 58)
        || (first == 46 && ((second == 46 && unit_at(rest, 2) == 46) || is_digit_in(10, second)))
}

fn is_quadruple(first: u16, second: u16, third: u16, fourth: u16) -> bool
    ensures { result ≡ is_quadruple first second third fourth }
{
    first == 62 && second == 62 && third == 62 && fourth == 61
}

fn is_triple(first: u16, second: u16, third: u16) -> bool
    ensures { result ≡ is_triple first second third }
{
    ((first == 60 || first == 62) && first == second && third == 61)
        || (first == 62 && second == 62 && third == 62)
        || (first == 46 && second == 46 && third == 46)
}

fn is_double(first: u16, second: u16) -> bool
    ensures { result ≡ is_double first second }
{
    (second == 61 && is_one_of(b"=><!+-*/&|^%", first))
        || (first == second && is_one_of(b"&|+-<>:", first))
        || (first == 45 && second == 62)
}

fn is_single(unit: u16) -> bool
    ensures { result ≡ is_single unit }
{
    is_one_of(b"(){}[];,.@=><!~?:+-*/&|^%", unit)
}

fn is_one_of(signs: &[u8], unit: u16) -> bool
    ensures { result ≡ is_one_of signs.now unit }
{
    for sign in signs {
        if unit == u16::from(*sign) {
            return true;
        }
    }
    false
}
