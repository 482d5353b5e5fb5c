ghost use Rattle.std.specs.Prelude.{◌≡◌, ◌<◌, ◌≤◌, IsTrue, length, take, drop, slice_index};
ghost use Rattle.bj_lex.specs.Characters.{is_line_end, is_white, is_pair, front_char, front_width, is_letter_char, is_part_char, begins_word, begins_part, parts_len};

use unicode_ident::{is_xid_continue, is_xid_start};

/// The unit at a place, or 0 past the end.
pub fn unit_at(units: &[u16], at: usize) -> u16
    ensures { result ≡ slice_index units.now at }
{
    if at < units.len() { units[at] } else { 0 }
}

/// The units from a place on.
pub fn rest_from(units: &[u16], at: usize) -> &[u16]
    requires { at ≤ length units.now }
    ensures { result.now ≡ drop at units.now }
{
    &units[at..]
}

/// The units before a place.
pub fn front_of(units: &[u16], at: usize) -> &[u16]
    requires { at ≤ length units.now }
    ensures { result.now ≡ take at units.now }
{
    &units[..at]
}

/// Whether a line ends at the unit [JLS 3.4].
pub fn is_line_end(unit: u16) -> bool
    ensures { result ≡ is_line_end unit }
{
    unit == 10 || unit == 13
}

/// Whether the unit is white space [JLS 3.6].
pub fn is_white(unit: u16) -> bool
    ensures { result ≡ is_white unit }
{
    unit == 32 || unit == 9 || unit == 12 || is_line_end(unit)
}

/// Whether a letter that begins an identifier stands at the front [JLS 3.8].
pub fn begins_word(rest: &[u16]) -> bool
    ensures value { result ≡ begins_word rest.now }
    ensures continues { IsTrue result → IsTrue (begins_part rest.now) }
{
    match front_char(rest) {
        Some(letter) => is_letter_char(letter),
        None => false,
    }
}

/// Whether a letter or digit with which an identifier may go on stands at the front.
fn begins_part(rest: &[u16]) -> bool
    ensures { result ≡ begins_part rest.now }
{
    match front_char(rest) {
        Some(part) => is_part_char(part),
        None => false,
    }
}

fn is_letter_char(letter: char) -> bool
    ensures value { result ≡ is_letter_char letter }
    ensures continues { IsTrue result → IsTrue (is_part_char letter) }
{
    is_xid_start(letter) || letter == '_' || letter == '$'
}

fn is_part_char(part: char) -> bool
    ensures { result ≡ is_part_char part }
{
    is_xid_continue(part) || part == '_' || part == '$'
}

/// How many units the longest run of letters and digits at the front has.
pub fn parts_len(rest: &[u16]) -> usize
    ensures value { result ≡ parts_len rest.now }
    ensures within { result ≤ length rest.now }
{
    let mut at = 0;
    while at < rest.len() {
        let front = rest_from(rest, at);
        if !begins_part(front) {
            return at;
        }
        at += front_width(front);
    }
    at
}

/// The character at the front, if it is not half of one.
fn front_char(rest: &[u16]) -> Option<char>
    ensures { result ≡ front_char rest.now }
{
    if rest.is_empty() {
        return None;
    }
    let high = rest[0] as u32;
    let low = unit_at(rest, 1) as u32;
    if is_pair(rest[0], unit_at(rest, 1)) {
        return char::from_u32(0x1_0000 + (high - 0xD800) * 0x400 + (low - 0xDC00));
    }
    char::from_u32(high)
}

/// How many units the character at the front has.
fn front_width(rest: &[u16]) -> usize
    requires { 0 < length rest.now }
    ensures value { result ≡ front_width rest.now }
    ensures positive { 1 ≤ result }
    ensures within { result ≤ length rest.now }
{
    if is_pair(rest[0], unit_at(rest, 1)) {
        2
    } else {
        1
    }
}

/// Whether the units make a pair of surrogates.
fn is_pair(high: u16, low: u16) -> bool
    ensures value { result ≡ is_pair high low }
    ensures high { IsTrue result → (55296 ≤ high) × (high < 56320) }
    ensures low { IsTrue result → (56320 ≤ low) × (low < 57344) }
{
    0xD800 <= high && high < 0xDC00 && 0xDC00 <= low && low < 0xE000
}
