ghost use Rattle.std.specs.Prelude.{◌≡◌, ◌++◌, IfOk, is_ok, OnOk, if◌then◌else◌};
ghost use Rattle.bj_text.specs.Escape.{escaped, escaped_unit, escaped_other, letter_for, is_mark, mark_of, is_source, is_unpaired, upper_hex, octal_escape, unicode_escape};
ghost use Rattle.std.specs.Prelude.{◌<◌};
ghost use Rattle.std.specs.Char.Utf16.{is_high_surrogate, is_low_surrogate};

use bj_base::{JText, NoMemory, Seq};
use std::alloc::Global;

const BACKSLASH: u16 = 0x5C;

/// Which signs are escaped beside the backslash and the control characters.
#[derive(Clone, Copy, PartialEq, Eq, Debug)]
pub enum Quote {
    /// None.
    Plain,
    /// `"`, as in a string literal.
    Text,
    /// `'`, as in a character literal.
    Char,
    /// `"`, and each surrogate that is in no pair, as in the source of a class.
    Source,
}

/// A text as it is written on one line, or within the quotes of a literal [JLS 3.10.6].
///
/// Backslash, backspace, tab, line feed, form feed and return have their letters, the other units below 32 and the unit
/// 127 three octal digits. `Source` writes a surrogate that is in no pair as `\u` and four hexadecimal digits.
///
/// # Errors
///
/// `NoMemory` where there is no room for the text.
pub fn escape(alloc: Global, units: &[u16], quote: Quote) -> Result<JText, NoMemory>
    ensures { IfOk result (λ text. text ≡ escaped quote units.now) }
{
    let mut text = Seq::new(alloc);
    let mut before = 0;
    for at in 0..units.len() {
        let after = units.get(at + 1).copied().unwrap_or(0);
        write_unit(&mut text, quote, before, units[at], after)?;
        before = units[at];
    }
    Ok(text)
}

/// Writes a unit between the two that stand beside it.
fn write_unit(
    text: &mut JText,
    quote: Quote,
    before: u16,
    unit: u16,
    after: u16,
) -> Result<(), NoMemory>
    ensures { OnOk result (text.new ≡ text.old ++ escaped_unit quote before unit after) }
{
    match letter_for(unit) {
        Some(letter) => text.extend(&[BACKSLASH, letter]),
        None => write_other(text, quote, before, unit, after),
    }
}

/// Writes a unit that has no letter of its own.
fn write_other(
    text: &mut JText,
    quote: Quote,
    before: u16,
    unit: u16,
    after: u16,
) -> Result<(), NoMemory>
    ensures { OnOk result (text.new ≡ text.old ++ escaped_other quote before unit after) }
{
    if is_mark(quote, unit) {
        return text.extend(&[BACKSLASH, unit]);
    }
    if unit < 32 || unit == 127 {
        return text.extend(&octal_escape(unit));
    }
    if is_source(quote) && is_unpaired(before, unit, after) {
        return text.extend(&unicode_escape(unit));
    }
    text.push(unit)
}

/// The letter that stands behind a backslash for the unit.
fn letter_for(unit: u16) -> Option<u16>
    ensures { result ≡ letter_for unit }
{
    match unit {
        8 => Some(u16::from(b'b')),
        9 => Some(u16::from(b't')),
        10 => Some(u16::from(b'n')),
        12 => Some(u16::from(b'f')),
        13 => Some(u16::from(b'r')),
        92 => Some(BACKSLASH),
        _ => None,
    }
}

/// Whether the unit is the quotation mark that is escaped.
fn is_mark(quote: Quote, unit: u16) -> bool
    ensures { result ≡ is_mark (mark_of quote) unit }
{
    match quote {
        Quote::Plain => false,
        Quote::Text => unit == u16::from(b'"'),
        Quote::Char => unit == u16::from(b'\''),
        Quote::Source => unit == u16::from(b'"'),
    }
}

fn is_source(quote: Quote) -> bool
    ensures { result ≡ is_source quote }
{
    match quote {
        Quote::Source => true,
        _ => false,
    }
}

/// Whether the unit is a surrogate that makes no pair with the one before or after it.
fn is_unpaired(before: u16, unit: u16, after: u16) -> bool
    ensures { result ≡ is_unpaired before unit after }
{
    (is_high(unit) && !is_low(after)) || (is_low(unit) && !is_high(before))
}

fn is_high(unit: u16) -> bool
    ensures { result ≡ is_high_surrogate unit }
{
    0xD800 <= unit && unit < 0xDC00
}

fn is_low(unit: u16) -> bool
    ensures { result ≡ is_low_surrogate unit }
{
    0xDC00 <= unit && unit < 0xE000
}

/// The backslash and three octal digits of a unit.
fn octal_escape(unit: u16) -> [u16; 4]
    requires { unit < 512 }
    ensures { result ≡ octal_escape unit }
{
    [BACKSLASH, 48 + unit / 64, 48 + unit / 8 % 8, 48 + unit % 8]
}

/// The backslash, `u` and four hexadecimal digits of a unit.
fn unicode_escape(unit: u16) -> [u16; 6]
    ensures { result ≡ unicode_escape unit }
{
    [
        BACKSLASH,
        u16::from(b'u'),
        upper_hex(unit / 4096),
        upper_hex(unit / 256 % 16),
        upper_hex(unit / 16 % 16),
        upper_hex(unit % 16),
    ]
}

/// The digit in base 16, in upper case.
fn upper_hex(digit: u16) -> u16
    requires { digit < 16 }
    ensures { result ≡ upper_hex digit }
{
    if digit < 10 { 48 + digit } else { 55 + digit }
}
