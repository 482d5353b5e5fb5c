use crate::sums::shown;
use bj_base::Name;
use bj_core::Expr;
use bj_sum::{CellCall, MAX_TEXT, read_call, read_creation};
use std::alloc::{AllocError, Global};
use std::test::Fail;

/// Lets an expression go. Its drop stands here alone, as that of a call does below.
fn let_go(_expr: Expr) {}

/// Lets a call go.
fn let_call_go(_call: CellCall) {}

/// The argument of the creation that a text is read as; empty where it is not read.
fn created(alloc: Global, text: &str) -> Result<String, AllocError> {
    let bytes = text.as_bytes();
    if bytes.len() > MAX_TEXT {
        return String::from_str(alloc, "too long");
    }
    match read_creation(alloc, bytes) {
        Ok(Some(argument)) => {
            let shown = shown(alloc, &argument);
            let_go(argument);
            shown
        }
        Ok(None) => Ok(String::new(alloc)),
        Err(_) => String::from_str(alloc, "no memory"),
    }
}

fn name_of(name: &Name) -> &str {
    std::str::from_utf8(name.as_slice()).unwrap_or("?")
}

/// A call with its object in front.
fn shown_call(alloc: Global, call: &CellCall) -> Result<String, AllocError> {
    match call {
        CellCall::Add { name, argument } => {
            let argument = shown(alloc, argument)?;
            format!(in alloc; "{} add {argument}", name_of(name))
        }
        CellCall::Get { name } => format!(in alloc; "{} get", name_of(name)),
    }
}

/// The call that a text is read as, with its object in front; empty where it is not read.
fn called(alloc: Global, text: &str) -> Result<String, AllocError> {
    let bytes = text.as_bytes();
    if bytes.len() > MAX_TEXT {
        return String::from_str(alloc, "too long");
    }
    match read_call(alloc, bytes) {
        Ok(Some(call)) => {
            let shown = shown_call(alloc, &call);
            let_call_go(call);
            shown
        }
        Ok(None) => Ok(String::new(alloc)),
        Err(_) => String::from_str(alloc, "no memory"),
    }
}

/// Compares what is shown of each text, read as a creation or as a call, with what is wanted, and fails with the first text that
/// is read otherwise.
fn compare(
    alloc: Global,
    is_call: bool,
    rows: &[(&'static str, &'static str)],
) -> Result<(), Fail> {
    for row in rows {
        let found = if is_call {
            called(alloc, row.0)?
        } else {
            created(alloc, row.0)?
        };
        if found.as_str() != row.1 {
            return Err(row.0.into());
        }
    }
    Ok(())
}

/// Texts with the arguments of the creations that they are read as.
const CREATIONS: [(&str, &str); 17] = [
    ("Cell(5)", "5@1"),
    ("Cell ( 5 )", "5@2"),
    ("Cell(1 + 2 * 3) ", "add@1[1@1 mul@5[2@5 3@9]]"),
    ("Cell((1)+(2))", "add@1[1@2 2@6]"),
    ("Cell(-5)", "neg@1[5@2]"),
    ("Cell", ""),
    ("Cell()", ""),
    ("Cells(5)", ""),
    ("cell(5)", ""),
    ("Cell(5", ""),
    ("Cell 5)", ""),
    ("Cell(5))", ""),
    ("Cell(1) + (2)", ""),
    ("Cell(5) x", ""),
    (" Cell(5)", ""),
    ("Cell(x)", ""),
    ("", ""),
];

#[test]
fn reads_creations_and_nothing_else(rt: HostRuntime) -> Result<(), Fail> {
    compare(rt.alloc(), false, &CREATIONS)
}

/// Texts with the calls that they are read as.
const CALLS: [(&str, &str); 21] = [
    ("c.add(3)", "c add 3@1"),
    ("c . add ( 3 )", "c add 3@2"),
    ("Ab.add((1)-(2)) ", "Ab add sub@1[1@2 2@6]"),
    ("abc.get()", "abc get"),
    ("c.get( )", "c get"),
    ("c .get () ", "c get"),
    ("get.get()", "get get"),
    ("c.get(1)", ""),
    ("c.add()", ""),
    (".add(3)", ""),
    ("c.adds(3)", ""),
    ("c.Add(3)", ""),
    ("c add(3)", ""),
    ("c1.add(3)", ""),
    ("c.add(3).add(4)", ""),
    ("c.add(3) + 4", ""),
    ("c.get", ""),
    ("c.get(", ""),
    (" c.get()", ""),
    ("c", ""),
    ("", ""),
];

#[test]
fn reads_calls_and_nothing_else(rt: HostRuntime) -> Result<(), Fail> {
    compare(rt.alloc(), true, &CALLS)
}
