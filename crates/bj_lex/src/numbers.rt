ghost use Rattle.std.specs.Prelude.{◌≡◌, ◌≤◌, ◌<◌, ◌+◌, ◌*◌, length};
ghost use Rattle.bj_text.specs.Unescape.{hex_of};
ghost use Rattle.bj_lex.specs.Numerals.{is_digit_in, is_digit_or_underscore, digits_len, is_digits, value_up_to, value_after, with_digit, fitting, is_suffix, is_long, body_of, is_hex_mark, is_binary_mark, base_of, digits_of, most_of, numeral_in, numeral_of, number_kind, number_element};
ghost use Rattle.bj_lex.specs.Elements.{IsWithin};

use crate::characters::{front_of, rest_from, unit_at};
use crate::element::Element;
use crate::floats::is_float;
use bj_base::FaultCode;
use bj_token::TokenKind;

const UNDERSCORE: u16 = 95;

const ZERO: u16 = 48;

/// What a run of letters and digits that begins with a digit is, read as an integer literal [JLS 3.10.1].
#[derive(Clone, Copy, PartialEq, Eq, Debug)]
pub enum Numeral {
    /// It is none.
    Malformed,
    /// Its number is past the range of its type in every place.
    TooWide,
    /// Its number. A decimal one of 2147483648, or 9223372036854775808 with `L`, stands only as the operand of unary minus.
    Value(u64),
}

/// The number at the front: the run of letters and digits that begins with a digit, and what follows it.
pub fn number_element(run: &[u16], after: &[u16]) -> Element
    requires { 0 < length run.now }
    ensures value { result ≡ number_element run.now after.now }
    ensures within { IsWithin run.now result }
{
    if is_float(run, after) {
        return Element::Fault(FaultCode::Profile);
    }
    match numeral_of(run) {
        Numeral::Malformed => Element::Fault(FaultCode::Char),
        Numeral::TooWide => Element::Fault(FaultCode::Wide),
        Numeral::Value(_) => Element::Token(number_kind(run), run.len()),
    }
}

/// The kind of a numeral's token, by its suffix.
fn number_kind(run: &[u16]) -> TokenKind
    requires { 0 < length run.now }
    ensures { result ≡ number_kind run.now }
{
    if is_long(run) {
        TokenKind::LongNumber
    } else {
        TokenKind::Number
    }
}

/// What a number token, or any run of units, stands for as an integer literal [JLS 3.10.1].
pub fn numeral_of(run: &[u16]) -> Numeral
    requires { 0 < length run.now }
    ensures { result ≡ numeral_of run.now }
{
    let body = body_of(run);
    let base = base_of(body);
    numeral_in(base, most_of(base, is_long(run)), digits_of(base, body))
}

/// Whether it ends with `l` or `L`.
fn is_long(run: &[u16]) -> bool
    requires { 0 < length run.now }
    ensures { result ≡ is_long run.now }
{
    let last = run[run.len() - 1];
    last == 108 || last == 76
}

/// The numeral without its suffix.
fn body_of(run: &[u16]) -> &[u16]
    requires { 0 < length run.now }
    ensures { result.now ≡ body_of run.now }
{
    if is_long(run) {
        front_of(run, run.len() - 1)
    } else {
        run
    }
}

/// The base of a numeral.
fn base_of(body: &[u16]) -> u64
    ensures value { result ≡ base_of body.now }
    ensures low { 2 ≤ result }
    ensures high { result ≤ 16 }
{
    if unit_at(body, 0) != ZERO || body.len() <= 1 {
        return 10;
    }
    if is_hex_mark(unit_at(body, 1)) {
        return 16;
    }
    if is_binary_mark(unit_at(body, 1)) {
        2
    } else {
        8
    }
}

/// The letter behind the zero of a hexadecimal numeral.
pub fn is_hex_mark(unit: u16) -> bool
    ensures { result ≡ is_hex_mark unit }
{
    unit == 120 || unit == 88
}

/// The letter behind the zero of a binary numeral.
fn is_binary_mark(unit: u16) -> bool
    ensures { result ≡ is_binary_mark unit }
{
    unit == 98 || unit == 66
}

/// The digits of a numeral, behind `0x` or `0b`.
fn digits_of(base: u64, body: &[u16]) -> &[u16]
    ensures { result.now ≡ digits_of base body.now }
{
    if base != 16 && base != 2 {
        return body;
    }
    if body.len() < 2 {
        front_of(body, 0)
    } else {
        rest_from(body, 2)
    }
}

/// The largest number that a numeral of the base and the type may stand for.
fn most_of(base: u64, long: bool) -> u64
    ensures { result ≡ most_of base long }
{
    if base == 10 {
        if long {
            9_223_372_036_854_775_808
        } else {
            2_147_483_648
        }
    } else if long {
        u64::MAX
    } else {
        4_294_967_295
    }
}

/// The numeral of digits in a base, up to a largest number.
fn numeral_in(base: u64, most: u64, digits: &[u16]) -> Numeral
    requires low { 2 ≤ base }
    requires high { base ≤ 16 }
    ensures { result ≡ numeral_in base most digits.now }
{
    if !is_digits(base, digits) {
        return Numeral::Malformed;
    }
    match value_up_to(base, most, digits) {
        Some(value) => Numeral::Value(value),
        None => Numeral::TooWide,
    }
}

/// The number that digits stand for, if it is at most so large.
fn value_up_to(base: u64, most: u64, digits: &[u16]) -> Option<u64>
    requires low { 2 ≤ base }
    requires high { base ≤ 16 }
    ensures { result ≡ value_up_to base most digits.now }
{
    let mut value: u64 = 0;
    for unit in digits {
        match with_digit(base, value, hex_of(*unit)) {
            Some(next) => value = next,
            None => return None,
        }
    }
    if value <= most { Some(value) } else { None }
}

/// The number with a digit behind it, if 64 bits hold it; an underscore adds none.
fn with_digit(base: u64, value: u64, digit: Option<u64>) -> Option<u64>
    ensures { result ≡ fitting (with_digit base value digit) }
{
    match digit {
        Some(digit) => value.checked_mul(base)?.checked_add(digit),
        None => Some(value),
    }
}

/// The value of a digit of base 16.
fn hex_of(unit: u16) -> Option<u64>
    ensures { result ≡ hex_of unit }
{
    match unit {
        48..=57 => Some(unit as u64 - 48),
        65..=70 => Some(unit as u64 - 55),
        97..=102 => Some(unit as u64 - 87),
        _ => None,
    }
}

/// Whether the unit is a digit of the base.
pub fn is_digit_in(base: u64, unit: u16) -> bool
    ensures { result ≡ is_digit_in base unit }
{
    match hex_of(unit) {
        Some(digit) => digit < base,
        None => false,
    }
}

/// Whether these are digits and underscores with a digit at each end.
pub fn is_digits(base: u64, units: &[u16]) -> bool
    ensures { result ≡ is_digits base units.now }
{
    if units.is_empty() {
        return false;
    }
    is_digit_in(base, units[0])
        && is_digit_in(base, units[units.len() - 1])
        && digits_len(base, units) == units.len()
}

/// How many digits and underscores stand at the front.
pub fn digits_len(base: u64, units: &[u16]) -> usize
    ensures value { result ≡ digits_len base units.now }
    ensures within { result ≤ length units.now }
{
    for at in 0..units.len() {
        if !is_digit_or_underscore(base, units[at]) {
            return at;
        }
    }
    units.len()
}

fn is_digit_or_underscore(base: u64, unit: u16) -> bool
    ensures { result ≡ is_digit_or_underscore base unit }
{
    is_digit_in(base, unit) || unit == UNDERSCORE
}
