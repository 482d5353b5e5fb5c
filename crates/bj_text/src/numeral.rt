ghost use Rattle.std.specs.Prelude.{◌≡◌, ◌≤◌, IfOk, option_map, neg_ℤ, pos};
ghost use Rattle.std.specs.Fmt.{signed_decimal};
ghost use Rattle.bj_text.specs.Numeral.{int_of, numeral_up_to};

use bj_base::{JText, NoMemory, Seq};
use itoa::Buffer;
use std::alloc::Global;

const PLUS: u16 = 0x2B;

const MINUS: u16 = 0x2D;

/// A number in decimal digits, with `-` before one below 0.
///
/// # Errors
///
/// `NoMemory` where there is no room for the text.
pub fn decimal(alloc: Global, n: i64) -> Result<JText, NoMemory>
    ensures { IfOk result (λ text. text ≡ signed_decimal n) }
{
    let mut buffer = Buffer::new();
    let mut units = Seq::new(alloc);
    for byte in buffer.format(n).as_bytes() {
        units.push(u16::from(*byte))?;
    }
    Ok(units)
}

/// The `int` that a text stands for, or None exactly where the text is not an optional sign and digits in range.
pub fn parse_int(units: &[u16]) -> Option<i32>
    ensures { result ≡ int_of units.now }
{
    let first = *units.first()?;
    if first == MINUS {
        return negative(&units[1..]);
    }
    if first == PLUS {
        return positive(&units[1..]);
    }
    positive(units)
}

/// The number of these digits below 0.
fn negative(digits: &[u16]) -> Option<i32>
    ensures { result ≡ option_map (λ n. neg_ℤ (pos n)) (numeral_up_to 2147483648 digits.now) }
{
    let size = numeral_up_to(2_147_483_648, digits)?;
    Some((0 - size as i64) as i32)
}

/// The number of these digits.
fn positive(digits: &[u16]) -> Option<i32>
    ensures { result ≡ option_map pos (numeral_up_to 2147483647 digits.now) }
{
    let size = numeral_up_to(2_147_483_647, digits)?;
    Some(size as i32)
}

/// The number of one or more digits, if it is at most so large.
fn numeral_up_to(most: u32, digits: &[u16]) -> Option<u32>
    ensures { result ≡ numeral_up_to most digits.now }
{
    if digits.is_empty() {
        return None;
    }
    let mut value = 0;
    for digit in digits {
        if *digit < 48 || 57 < *digit {
            return None;
        }
        let next = value as u64 * 10 + (*digit - 48) as u64;
        if next > most as u64 {
            return None;
        }
        value = next as u32;
    }
    Some(value)
}
