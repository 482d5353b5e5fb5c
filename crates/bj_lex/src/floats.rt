ghost use Rattle.std.specs.Prelude.{◌≡◌, ◌<◌, ◌≤◌, IsTrue, length};
ghost use Rattle.bj_lex.specs.Numerals.{is_float_suffix, is_exponent_mark, is_sign, is_suffixed, is_digits_and_suffix, is_digits_or_none, begins_exponent, is_last_suffix, is_exponent, is_float_tail, is_decimal_float, is_hex_float, has_hex_mark, is_float};

use crate::characters::{front_of, rest_from, unit_at};
use crate::numbers::{digits_len, is_digit_in, is_digits, is_hex_mark};

const ZERO: u16 = 48;

const POINT: u16 = 46;

/// Whether a run that begins with a digit, with what follows it, begins a floating-point literal [JLS 3.10.2].
pub fn is_float(run: &[u16], after: &[u16]) -> bool
    ensures { result ≡ is_float run.now after.now }
{
    if has_hex_mark(run) {
        return is_hex_float(rest_from(run, 2), after);
    }
    is_decimal_float(run, after)
}

fn has_hex_mark(run: &[u16]) -> bool
    ensures value { result ≡ has_hex_mark run.now }
    ensures within { IsTrue result → 2 ≤ length run.now }
{
    run.len() > 1 && run[0] == ZERO && is_hex_mark(run[1])
}

fn is_decimal_float(run: &[u16], after: &[u16]) -> bool
    ensures { result ≡ is_decimal_float run.now after.now }
{
    let length = digits_len(10, run);
    is_digits(10, front_of(run, length)) && is_float_tail(10, rest_from(run, length), after)
}

fn is_hex_float(run: &[u16], after: &[u16]) -> bool
    ensures { result ≡ is_hex_float run.now after.now }
{
    let length = digits_len(16, run);
    is_digits_or_none(front_of(run, length)) && is_float_tail(16, rest_from(run, length), after)
}

fn is_digits_or_none(units: &[u16]) -> bool
    ensures { result ≡ is_digits_or_none units.now }
{
    units.is_empty() || is_digits(16, units)
}

/// Whether a fraction, an exponent or a suffix follows the digits.
fn is_float_tail(base: u64, tail: &[u16], after: &[u16]) -> bool
    ensures { result ≡ is_float_tail base tail.now after.now }
{
    if tail.is_empty() {
        return unit_at(after, 0) == POINT;
    }
    begins_exponent(base, tail, after) || is_last_suffix(base, tail)
}

fn begins_exponent(base: u64, tail: &[u16], after: &[u16]) -> bool
    requires { 0 < length tail.now }
    ensures { result ≡ begins_exponent base tail.now after.now }
{
    is_exponent_mark(base, tail[0]) && is_exponent(rest_from(tail, 1), after)
}

fn is_last_suffix(base: u64, tail: &[u16]) -> bool
    requires { 0 < length tail.now }
    ensures { result ≡ is_last_suffix base tail.now }
{
    base == 10 && tail.len() == 1 && is_float_suffix(tail[0])
}

/// Whether an exponent follows its letter, within the run or as a sign and a digit behind it.
fn is_exponent(units: &[u16], after: &[u16]) -> bool
    ensures { result ≡ is_exponent units.now after.now }
{
    if units.is_empty() {
        return is_sign(unit_at(after, 0)) && is_digit_in(10, unit_at(after, 1));
    }
    is_suffixed(units)
}

/// Whether these are digits, with or without the suffix of a floating-point literal.
fn is_suffixed(units: &[u16]) -> bool
    requires { 0 < length units.now }
    ensures { result ≡ is_suffixed units.now }
{
    is_digits(10, units) || is_digits_and_suffix(units)
}

fn is_digits_and_suffix(units: &[u16]) -> bool
    requires { 0 < length units.now }
    ensures { result ≡ is_digits_and_suffix units.now }
{
    let last = units.len() - 1;
    is_float_suffix(units[last]) && is_digits(10, front_of(units, last))
}

fn is_float_suffix(unit: u16) -> bool
    ensures { result ≡ is_float_suffix unit }
{
    unit == 102 || unit == 70 || unit == 100 || unit == 68
}

fn is_exponent_mark(base: u64, unit: u16) -> bool
    ensures { result ≡ is_exponent_mark base unit }
{
    if base == 16 {
        unit == 112 || unit == 80
    } else {
        unit == 101 || unit == 69
    }
}

fn is_sign(unit: u16) -> bool
    ensures { result ≡ is_sign unit }
{
    unit == 43 || unit == 45
}
