ghost use Rattle.std.specs.Prelude.{◌≡◌, ◌+◌, max, IfOk};

use bj_core::NoMemory;

/// The larger of two depths.
pub(crate) fn larger(a: u32, b: u32) -> u32
    ensures { result ≡ max a b }
{
    if a < b { b } else { a }
}

/// One more operand. A depth that no machine has is want of memory.
pub(crate) fn one_more(depth: u32) -> Result<u32, NoMemory>
    ensures { IfOk result (λ d. d ≡ depth + 1) }
{
    match depth.checked_add(1) {
        Some(more) => Ok(more),
        None => Err(NoMemory),
    }
}

/// A count as a number of an instruction. One that 32 bits do not hold is want of memory.
pub(crate) fn number(count: usize) -> Result<u32, NoMemory>
    ensures { IfOk result (λ n. n ≡ count) }
{
    match u32::try_from(count) {
        Ok(number) => Ok(number),
        Err(_) => Err(NoMemory),
    }
}
