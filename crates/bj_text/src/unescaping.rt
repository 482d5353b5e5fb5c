ghost use Rattle.std.specs.Prelude.{◌≡◌, ◌+◌, ◌≤◌, ◌<◌, IfOk, IfErr, IfSome, OnSome, IsTrue, length, Ok};
ghost use Rattle.bj_text.specs.Unescape.{sequence_of, unit_for, octal_at, octal_sequence, unicode_sequence, four_hex, two_hex_at, hex_at, hex_of, is_octal, is_kept_out, unescaped, IsBadEscape};

use bj_base::{JText, NoMemory, Seq};
use std::alloc::Global;

const BACKSLASH: u16 = 0x5C;

/// Why a text stands for nothing.
#[derive(Drop)]
pub enum EscapeFault {
    /// A backslash begins no escape sequence.
    BadEscape {
        /// Its place, from 0.
        at: usize,
    },
    /// Want of memory.
    NoMemory,
}

impl From<NoMemory> for EscapeFault {
    ghost use Rattle.bj_text.specs.declared.unescaping.EscapeFault.TheVariants as fault;

    ghost from_gives = { λ _ e. e ≡ fault.NoMemory };

    fn from(_fault: NoMemory) -> EscapeFault {
        EscapeFault::NoMemory
    }
}

/// What the text within the quotes of a literal stands for [JLS 3.10.6].
///
/// The escape sequences are `\b \t \n \f \r \" \' \\`, one to three octal digits (the first at most 3 where there are three), and
/// `\u` with four hexadecimal digits, but for a line end, a quotation mark or a backslash.
///
/// # Errors
///
/// `BadEscape` exactly where a backslash begins no escape sequence, with the first such place; `NoMemory` where there is no
/// room for the text.
pub fn unescape(alloc: Global, units: &[u16]) -> Result<JText, EscapeFault>
    ensures ok { IfOk result (λ text. unescaped units.now ≡ Ok text) }
    ensures err { IfErr result (λ fault. IsBadEscape units.now fault) }
{
    let mut text = Seq::new(alloc);
    let mut at = 0;
    while at < units.len() {
        if units[at] != BACKSLASH {
            text.push(units[at])?;
            at += 1;
            continue;
        }
        match sequence_of(&units[at + 1..]) {
            Some((length, unit)) => {
                text.push(unit)?;
                at += 1 + length;
            }
            None => return Err(EscapeFault::BadEscape { at }),
        }
    }
    Ok(text)
}

/// The escape sequence at the front of what follows a backslash: how many units it has, and the unit that it stands for.
pub fn sequence_of(rest: &[u16]) -> Option<(usize, u16)>
    ensures value { result ≡ sequence_of rest.now }
    ensures within { IfSome result (λ s. s.0 ≤ length rest.now) }
{
    let first = *rest.first()?;
    let more = &rest[1..];
    if first == u16::from(b'u') {
        unicode_sequence(more)
    } else if is_octal(first) {
        Some(octal_sequence(first, more))
    } else {
        Some((1, unit_for(first)?))
    }
}

/// What one of the letters and signs that may follow a backslash stands for.
fn unit_for(letter: u16) -> Option<u16>
    ensures { result ≡ unit_for letter }
{
    match letter {
        98 => Some(8),
        116 => Some(9),
        110 => Some(10),
        102 => Some(12),
        114 => Some(13),
        34 => Some(34),
        39 => Some(39),
        92 => Some(92),
        _ => None,
    }
}

/// The longest octal escape that begins with this digit.
fn octal_sequence(first: u16, more: &[u16]) -> (usize, u16)
    requires { IsTrue (is_octal first) }
    ensures value { result ≡ octal_sequence first more.now }
    ensures within { result.0 ≤ length more.now + 1 }
{
    let high = first - 48;
    let Some(second) = octal_at(more, 0) else {
        return (1, high);
    };
    if high > 3 {
        return (2, high * 8 + second);
    }
    match octal_at(more, 1) {
        Some(third) => (3, high * 64 + (second * 8 + third)),
        None => (2, high * 8 + second),
    }
}

/// The value of the octal digit at a place.
fn octal_at(units: &[u16], at: usize) -> Option<u16>
    ensures value { result ≡ octal_at units.now at }
    ensures small { IfSome result (λ d. d < 8) }
    ensures within { OnSome result (at < length units.now) }
{
    let digit = *units.get(at)?;
    if is_octal(digit) {
        Some(digit - 48)
    } else {
        None
    }
}

/// The unit of four hexadecimal digits.
fn unicode_sequence(more: &[u16]) -> Option<(usize, u16)>
    ensures value { result ≡ unicode_sequence more.now }
    ensures within { IfSome result (λ s. s.0 ≤ length more.now + 1) }
{
    let unit = four_hex(more)?;
    if is_kept_out(unit) {
        None
    } else {
        Some((5, unit))
    }
}

/// The value of the first four hexadecimal digits.
fn four_hex(units: &[u16]) -> Option<u16>
    ensures value { result ≡ four_hex units.now }
    ensures within { OnSome result (4 ≤ length units.now) }
{
    let high = two_hex_at(units, 0)?;
    let low = two_hex_at(units, 2)?;
    Some(high * 256 + low)
}

/// The value of the two hexadecimal digits from a place on.
fn two_hex_at(units: &[u16], at: usize) -> Option<u16>
    requires { at < 8 }
    ensures value { result ≡ two_hex_at units.now at }
    ensures small { IfSome result (λ v. v < 256) }
    ensures within { OnSome result (at + 1 < length units.now) }
{
    let high = hex_at(units, at)?;
    let low = hex_at(units, at + 1)?;
    Some(high * 16 + low)
}

/// The value of the hexadecimal digit at a place.
fn hex_at(units: &[u16], at: usize) -> Option<u16>
    ensures value { result ≡ hex_at units.now at }
    ensures small { IfSome result (λ d. d < 16) }
    ensures within { OnSome result (at < length units.now) }
{
    hex_of(*units.get(at)?)
}

/// The value of a hexadecimal digit.
fn hex_of(digit: u16) -> Option<u16>
    ensures value { result ≡ hex_of digit }
    ensures small { IfSome result (λ d. d < 16) }
{
    match digit {
        48..=57 => Some(digit - 48),
        65..=70 => Some(digit - 55),
        97..=102 => Some(digit - 87),
        _ => None,
    }
}

fn is_octal(digit: u16) -> bool
    ensures { result ≡ is_octal digit }
{
    48 <= digit && digit < 56
}

/// Whether the unit is a line end, a quotation mark or a backslash, for which no `\u` may stand.
fn is_kept_out(unit: u16) -> bool
    ensures { result ≡ is_kept_out unit }
{
    matches!(unit, 10 | 13 | 34 | 39 | 92)
}
