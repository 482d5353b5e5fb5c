ghost use Rattle.std.specs.Prelude.{◌≡◌, ◌∷◌, ◌++◌, ◌<◌, ◌≤◌, IfOk, IfErr, IfSome, OnOk, length, take, drop, IsUtf8, encode_utf8_all};
ghost use Rattle.std.specs.Char.Escape.{encode_utf16};
ghost use Rattle.std.specs.Char.Utf16.{utf16_chars};
ghost use Rattle.bj_text.specs.Utf16.{units_of, bytes_of, IsFaultOf};

use bj_base::{Bytes, JText, NoMemory, Seq};
use std::alloc::Global;

/// Why bytes give no text.
#[derive(Drop)]
pub enum TextFault {
    /// They are not UTF-8.
    NotUtf8 {
        /// The place of the first byte of the first bad sequence, from 0.
        at: usize,
    },
    /// Want of memory.
    NoMemory,
}

impl From<NoMemory> for TextFault {
    ghost use Rattle.bj_text.specs.declared.utf.TextFault.TheVariants as fault;

    ghost from_gives = { λ _ e. e ≡ fault.NoMemory };

    fn from(_fault: NoMemory) -> TextFault {
        TextFault::NoMemory
    }
}

/// The UTF-16 units of a text in UTF-8.
///
/// # Errors
///
/// `NotUtf8` exactly where the bytes are not UTF-8, `NoMemory` where there is no room for the units.
pub fn from_utf8(alloc: Global, bytes: &[u8]) -> Result<JText, TextFault>
    ensures text { IfOk result (λ text. text ≡ units_of bytes.now) }
    ensures utf8 { OnOk result (IsUtf8 bytes.now) }
    ensures fault { IfErr result (λ fault. IsFaultOf bytes.now fault) }
{
    match str::from_utf8(bytes) {
        Ok(text) => Ok(utf16(alloc, text)?),
        Err(fault) => Err(TextFault::NotUtf8 {
            at: fault.valid_up_to(),
        }),
    }
}

/// The UTF-16 units of a text.
///
/// # Errors
///
/// `NoMemory` where there is no room for the units.
pub fn utf16(alloc: Global, text: &str) -> Result<JText, NoMemory>
    ensures { IfOk result (λ units. units ≡ units_of text.now) }
{
    let mut units = Seq::new(alloc);
    for c in text.chars() {
        let mut room = [0; 2];
        units.extend(c.encode_utf16(&mut room))?;
    }
    Ok(units)
}

/// The bytes in UTF-8 of a text, with `?` for each surrogate that is in no pair.
///
/// # Errors
///
/// `NoMemory` where there is no room for the bytes.
pub fn to_utf8(alloc: Global, units: &[u16]) -> Result<Bytes, NoMemory>
    ensures { IfOk result (λ bytes. bytes ≡ bytes_of units.now) }
{
    let mut bytes = Seq::new(alloc);
    let mut at = 0;
    while at < units.len() {
        let (found, next) = char_at(units, at);
        let mut room = [0; 4];
        let shown = found.unwrap_or('?').encode_utf8(&mut room);
        bytes.extend(shown.as_bytes())?;
        at = next;
    }
    Ok(bytes)
}

/// The character whose units begin at a place, unless that unit is a surrogate in no pair, and where the next one begins.
fn char_at(units: &[u16], at: usize) -> (Option<char>, usize)
    requires { at < length units.now }
    ensures bound { (at < result.1) × (result.1 ≤ length units.now) }
    ensures first { utf16_chars (drop at units.now) ≡ result.0 ∷ utf16_chars (drop result.1 units.now) }
{
    let high = units[at] as u32;
    if high < 0xD800 || 0xE000 <= high {
        return (char::from_u32(high), at + 1);
    }
    if 0xDC00 <= high || units.len() - at < 2 {
        return (None, at + 1);
    }
    let low = units[at + 1] as u32;
    if low < 0xDC00 || 0xE000 <= low {
        return (None, at + 1);
    }
    let code = 0x1_0000 + (high - 0xD800) * 0x400 + (low - 0xDC00);
    (char::from_u32(code), at + 2)
}
