//! The arithmetic of `int` and `long`.

ghost use Rattle.std.specs.Prelude.{◌≡◌, Some, None, MatchResult, pos, ◌+ℤ◌};
ghost use Rattle.std.specs.Int.{w64};
ghost use Rattle.bj_text.specs.Arith.{int_result, long_result, int_negated, distance};

use bj_base::Op;

/// A division by zero, for which the machine throws ArithmeticException [JLS 15.17.2, 15.17.3].
#[derive(Clone, Copy, Debug, PartialEq, Eq, Drop)]
pub struct DivZero;

/// Minus `a`: what 32 bits keep of it, so that minus the least `int` is itself [JLS 15.15.4].
pub fn int_negate(a: i32) -> i32
    ensures { result ≡ int_negated a }
{
    a.wrapping_neg()
}

/// What an operator of two `int`s gives [JLS 15.17 to 15.19, 15.22.1]. Sums and products keep their low 32 bits, `/`
/// rounds toward zero, and a shift's distance is `b` modulo 32.
///
/// # Errors
///
/// `DivZero` exactly where `op` is `Div` or `Rem` and `b` is 0.
pub fn int_op(op: Op, a: i32, b: i32) -> Result<i32, DivZero>
    ensures { MatchResult result (λ n. int_result op a b ≡ Some n) (λ _. int_result op a b ≡ None) }
{
    match op {
        Op::Add => Ok(a.wrapping_add(b)),
        Op::Sub => Ok(a.wrapping_sub(b)),
        Op::Mul => Ok(a.wrapping_mul(b)),
        Op::Div => int_quotient(a, b),
        Op::Rem => int_remainder(a, b),
        Op::Shl => Ok(a.wrapping_shl(b.cast_unsigned())),
        Op::Shr => Ok(a.wrapping_shr(b.cast_unsigned())),
        Op::Ushr => Ok(
            a.cast_unsigned()
                .wrapping_shr(b.cast_unsigned())
                .cast_signed(),
        ),
        Op::And => Ok(a & b),
        Op::Or => Ok(a | b),
        Op::Xor => Ok(a ^ b),
    }
}

fn int_quotient(a: i32, b: i32) -> Result<i32, DivZero>
    ensures { MatchResult result (λ n. int_result Op.Div a b ≡ Some n) (λ _. int_result Op.Div a b ≡ None) }
{
    if b == 0 {
        return Err(DivZero);
    }
    Ok(a.wrapping_div(b))
}

fn int_remainder(a: i32, b: i32) -> Result<i32, DivZero>
    ensures { MatchResult result (λ n. int_result Op.Rem a b ≡ Some n) (λ _. int_result Op.Rem a b ≡ None) }
{
    if b == 0 {
        return Err(DivZero);
    }
    Ok(a.wrapping_rem(b))
}

/// What an operator of two `long`s gives [JLS 15.17 to 15.19, 15.22.1]. Sums and products keep their low 64 bits, `/`
/// rounds toward zero, and a shift's distance is `b` modulo 64.
///
/// # Errors
///
/// `DivZero` exactly where `op` is `Div` or `Rem` and `b` is 0.
pub fn long_op(op: Op, a: i64, b: i64) -> Result<i64, DivZero>
    ensures { MatchResult result (λ n. long_result op a b ≡ Some n) (λ _. long_result op a b ≡ None) }
{
    match op {
        Op::Add => Ok(a.wrapping_add(b)),
        Op::Sub => Ok(a.wrapping_sub(b)),
        Op::Mul => Ok(a.wrapping_mul(b)),
        Op::Div => long_quotient(a, b),
        Op::Rem => long_remainder(a, b),
        Op::Shl => Ok(a.wrapping_shl(long_distance(b))),
        Op::Shr => Ok(a.wrapping_shr(long_distance(b))),
        Op::Ushr => Ok(
            a.cast_unsigned()
                .wrapping_shr(long_distance(b))
                .cast_signed(),
        ),
        Op::And => Ok(a & b),
        Op::Or => Ok(a | b),
        Op::Xor => Ok(a ^ b),
    }
}

fn long_quotient(a: i64, b: i64) -> Result<i64, DivZero>
    ensures { MatchResult result (λ n. long_result Op.Div a b ≡ Some n) (λ _. long_result Op.Div a b ≡ None) }
{
    if b == 0 {
        return Err(DivZero);
    }
    Ok(a.wrapping_div(b))
}

fn long_remainder(a: i64, b: i64) -> Result<i64, DivZero>
    ensures { MatchResult result (λ n. long_result Op.Rem a b ≡ Some n) (λ _. long_result Op.Rem a b ≡ None) }
{
    if b == 0 {
        return Err(DivZero);
    }
    Ok(a.wrapping_rem(b))
}

/// The distance that a shift of a `long` by `b` has [JLS 15.19].
fn long_distance(b: i64) -> u32
    ensures { result ≡ distance w64 b }
{
    (b.cast_unsigned() % 64) as u32
}
