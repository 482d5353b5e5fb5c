use bj_base::Op;
use bj_text::{DivZero, int_negate, int_op, long_op};

const MIN: i32 = i32::MIN;

const MAX: i32 = i32::MAX;

/// `int` operators with their operands and their values.
const INT_ROWS: [(Op, i32, i32, Result<i32, DivZero>); 20] = [
    (Op::Add, MAX, 1, Ok(MIN)),
    (Op::Sub, MIN, 1, Ok(MAX)),
    (Op::Mul, 65536, 65536, Ok(0)),
    (Op::Mul, MAX, MAX, Ok(1)),
    (Op::Div, -7, 2, Ok(-3)),
    (Op::Div, MIN, -1, Ok(MIN)),
    (Op::Div, 1, 0, Err(DivZero)),
    (Op::Rem, -7, 2, Ok(-1)),
    (Op::Rem, 7, -2, Ok(1)),
    (Op::Rem, MIN, -1, Ok(0)),
    (Op::Rem, 1, 0, Err(DivZero)),
    (Op::Shl, 1, 31, Ok(MIN)),
    (Op::Shl, 1, 33, Ok(2)),
    (Op::Shr, -8, 1, Ok(-4)),
    (Op::Shr, -1, 32, Ok(-1)),
    (Op::Ushr, -1, 28, Ok(15)),
    (Op::Ushr, -8, -31, Ok(2147483644)),
    (Op::And, 12, 10, Ok(8)),
    (Op::Or, 12, 10, Ok(14)),
    (Op::Xor, -1, 5, Ok(-6)),
];

#[test]
fn int_operators_by_hand(rt: HostRuntime) {
    for (op, a, b, want) in INT_ROWS {
        assert!(rt; int_op(op, a, b) == want, "{op:?} {a} {b}");
    }
    assert_eq!(rt; int_negate(MIN), MIN);
    assert_eq!(rt; int_negate(20), -20);
}

/// `long` operators with their operands and their values.
const LONG_ROWS: [(Op, i64, i64, Result<i64, DivZero>); 9] = [
    (Op::Add, i64::MAX, 1, Ok(i64::MIN)),
    (Op::Div, i64::MIN, -1, Ok(i64::MIN)),
    (Op::Div, -9, 4, Ok(-2)),
    (Op::Rem, -9, 4, Ok(-1)),
    (Op::Rem, 5, 0, Err(DivZero)),
    (Op::Shl, 1, 63, Ok(i64::MIN)),
    (Op::Shl, 1, 65, Ok(2)),
    (Op::Ushr, -1, 60, Ok(15)),
    (Op::Shr, -16, 2, Ok(-4)),
];

#[test]
fn long_operators_by_hand(rt: HostRuntime) {
    for (op, a, b, want) in LONG_ROWS {
        assert!(rt; long_op(op, a, b) == want, "{op:?} {a} {b}");
    }
}
