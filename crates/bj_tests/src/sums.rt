use bj_base::Op;
use bj_core::{Const, Expr};
use bj_sum::{MAX_TEXT, read_sum};
use std::alloc::{AllocError, Global};
use std::test::Fail;

/// Each operator with the column at which its node stands, and its operands in brackets.
pub fn shown(alloc: Global, expr: &Expr) -> Result<String, AllocError> {
    match expr {
        Expr::Const { at, value } => match value {
            Const::Int(value) => format!(in alloc; "{value}@{}", at.column),
            _ => String::from_str(alloc, "?"),
        },
        Expr::IntNegate { at, operand } => {
            let operand = shown(alloc, operand.get())?;
            format!(in alloc; "neg@{}[{operand}]", at.column)
        }
        Expr::IntBinary {
            at,
            op,
            left,
            right,
        } => {
            let name = name_of(*op);
            let left = shown(alloc, left.get())?;
            let right = shown(alloc, right.get())?;
            format!(in alloc; "{name}@{}[{left} {right}]", at.column)
        }
        _ => String::from_str(alloc, "?"),
    }
}

fn name_of(op: Op) -> &'static str {
    match op {
        Op::Add => "add",
        Op::Sub => "sub",
        Op::Mul => "mul",
        _ => "?",
    }
}

/// What a text is read as; empty where it is not read.
fn read(alloc: Global, text: &str) -> Result<String, AllocError> {
    let bytes = text.as_bytes();
    if bytes.len() > MAX_TEXT {
        return String::from_str(alloc, "too long");
    }
    match read_sum(alloc, bytes) {
        Ok(Some(expr)) => shown(alloc, &expr),
        Ok(None) => Ok(String::new(alloc)),
        Err(_) => String::from_str(alloc, "no memory"),
    }
}

/// Compares what is shown of each text with what is wanted, and fails with the first text that is read otherwise.
fn compare(alloc: Global, rows: &[(&'static str, &'static str)]) -> Result<(), Fail> {
    for row in rows {
        let found = read(alloc, row.0)?;
        if found.as_str() != row.1 {
            return Err(row.0.into());
        }
    }
    Ok(())
}

/// Texts with the sums that they are read as.
const SUMS: [(&str, &str); 26] = [
    ("0", "0@1"),
    ("2147483647 + 1", "add@1[2147483647@1 1@14]"),
    ("1 + 2 * 3", "add@1[1@1 mul@5[2@5 3@9]]"),
    ("-(2 + 3) * 4", "mul@1[neg@1[add@3[2@3 3@7]] 4@12]"),
    ("7 - 2 - 1", "sub@1[sub@1[7@1 2@5] 1@9]"),
    (" (1)+2", "add@2[1@3 2@6]"),
    ("- -1", "neg@1[neg@3[1@4]]"),
    ("1 - -1", "sub@1[1@1 neg@5[1@6]]"),
    ("1+-1", "add@1[1@1 neg@3[1@4]]"),
    ("2147483648", ""),
    ("-2147483648", ""),
    ("08", ""),
    ("00", ""),
    ("1 / 0", ""),
    ("", ""),
    (" ", ""),
    ("( 1", ""),
    ("1 )", ""),
    ("()", ""),
    ("1 2", ""),
    ("1 +", ""),
    ("+1", ""),
    ("--1", ""),
    ("1--1", ""),
    ("1++1", ""),
    ("a", ""),
];

#[test]
fn reads_sums_and_nothing_else(rt: HostRuntime) -> Result<(), Fail> {
    compare(rt.alloc(), &SUMS)
}

/// Whether the text `open` many times, `1`, and `close` many times is read.
fn is_read(alloc: Global, open: &str, close: &str, many: usize) -> Result<bool, AllocError> {
    let mut text = String::new(alloc);
    for _ in 0..many {
        text.push_str(open)?;
    }
    text.push_str("1")?;
    for _ in 0..many {
        text.push_str(close)?;
    }
    Ok(!read(alloc, text.as_str())?.is_empty())
}

#[test]
fn at_most_200_nodes_stand_above_a_node(rt: HostRuntime) -> Result<(), Fail> {
    for (open, close) in [("(", ")"), ("- ", ""), ("", "+1"), ("", "*1"), ("(", "+1)")] {
        assert!(rt; is_read(rt.alloc(), open, close, 100)?);
    }
    for (open, close) in [("(", ")"), ("- ", ""), ("", "+1"), ("", "*1")] {
        assert!(rt; is_read(rt.alloc(), open, close, 200)?);
        assert!(rt; !is_read(rt.alloc(), open, close, 201)?);
    }
    assert!(rt; !is_read(rt.alloc(), "(", "+1)", 101)?);
    Ok(())
}
