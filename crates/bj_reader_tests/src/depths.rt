use crate::classes::{Read, read_in};
use crate::lines::{Answer, answer_for};
use bj_base::{FaultCode, NoMemory, Seq, Span};
use std::alloc::Global;
use std::test::Fail;

/// A text in which something stands in many parentheses.
struct Nested {
    /// What stands before the parentheses.
    before: &'static str,
    /// How many pairs there are.
    pairs: usize,
    /// What stands in them first.
    inside: &'static str,
    /// What stands behind it in them, so many times.
    repeated: &'static str,
    times: usize,
    /// What stands behind the parentheses.
    after: &'static str,
}

/// A text behind another.
fn append(text: &mut Seq<u8>, more: &str, times: usize) -> Result<(), NoMemory> {
    for _turn in 0..times {
        for byte in more.as_bytes() {
            text.push(*byte)?;
        }
    }
    Ok(())
}

/// The bytes of such a text.
fn bytes_of(alloc: Global, nested: &Nested) -> Result<Seq<u8>, NoMemory> {
    let mut text = Seq::new(alloc);
    append(&mut text, nested.before, 1)?;
    append(&mut text, "(", nested.pairs)?;
    append(&mut text, nested.inside, 1)?;
    append(&mut text, nested.repeated, nested.times)?;
    append(&mut text, ")", nested.pairs)?;
    append(&mut text, nested.after, 1)?;
    Ok(text)
}

/// The text of a line, and what it is read as. The deepest node that there is room for has 200 nodes above it.
const LINES: &[(Nested, Answer)] = &[
    (
        Nested {
            before: "1 + ",
            pairs: 199,
            inside: "x",
            repeated: "",
            times: 0,
            after: "",
        },
        Answer::Expression,
    ),
    (
        Nested {
            before: "1 + ",
            pairs: 200,
            inside: "x",
            repeated: "",
            times: 0,
            after: "",
        },
        Answer::Fault(
            FaultCode::Deep,
            Span {
                line: 1,
                column: 205,
            },
        ),
    ),
    (
        Nested {
            before: "",
            pairs: 100,
            inside: "a",
            repeated: " + a",
            times: 100,
            after: "",
        },
        Answer::Expression,
    ),
    (
        Nested {
            before: "",
            pairs: 100,
            inside: "a",
            repeated: " + a",
            times: 101,
            after: "",
        },
        Answer::Fault(
            FaultCode::Deep,
            Span {
                line: 1,
                column: 101,
            },
        ),
    ),
    (
        Nested {
            before: "",
            pairs: 100,
            inside: "a",
            repeated: " + a",
            times: 150,
            after: "",
        },
        Answer::Fault(
            FaultCode::Deep,
            Span {
                line: 1,
                column: 101,
            },
        ),
    ),
    (
        Nested {
            before: "f(",
            pairs: 199,
            inside: "x",
            repeated: "",
            times: 0,
            after: ")",
        },
        Answer::Expression,
    ),
    (
        Nested {
            before: "f(",
            pairs: 200,
            inside: "x",
            repeated: "",
            times: 0,
            after: ")",
        },
        Answer::Fault(
            FaultCode::Deep,
            Span {
                line: 1,
                column: 203,
            },
        ),
    ),
    (
        Nested {
            before: "f(",
            pairs: 198,
            inside: "x",
            repeated: "",
            times: 0,
            after: ").g()",
        },
        Answer::Expression,
    ),
    (
        Nested {
            before: "f(",
            pairs: 199,
            inside: "x",
            repeated: "",
            times: 0,
            after: ").g()",
        },
        Answer::Fault(
            FaultCode::Deep,
            Span {
                line: 1,
                column: 202,
            },
        ),
    ),
    (
        Nested {
            before: "f(y, ",
            pairs: 199,
            inside: "x",
            repeated: "",
            times: 0,
            after: ")[0]",
        },
        Answer::Fault(
            FaultCode::Deep,
            Span {
                line: 1,
                column: 205,
            },
        ),
    ),
    (
        Nested {
            before: "b ? 1 : ",
            pairs: 200,
            inside: "x",
            repeated: "",
            times: 0,
            after: "",
        },
        Answer::Fault(
            FaultCode::Deep,
            Span {
                line: 1,
                column: 209,
            },
        ),
    ),
    (
        Nested {
            before: "",
            pairs: 200,
            inside: "x",
            repeated: "",
            times: 0,
            after: " ? 1 : 2",
        },
        Answer::Fault(
            FaultCode::Deep,
            Span {
                line: 1,
                column: 201,
            },
        ),
    ),
    (
        Nested {
            before: "",
            pairs: 199,
            inside: "x",
            repeated: "",
            times: 0,
            after: " ? 1 : 2",
        },
        Answer::Expression,
    ),
    (
        Nested {
            before: "a = ",
            pairs: 198,
            inside: "x",
            repeated: "",
            times: 0,
            after: ";",
        },
        Answer::Statements(1),
    ),
    (
        Nested {
            before: "a = ",
            pairs: 199,
            inside: "x",
            repeated: "",
            times: 0,
            after: ";",
        },
        Answer::Fault(
            FaultCode::Deep,
            Span {
                line: 1,
                column: 204,
            },
        ),
    ),
    (
        Nested {
            before: "int a = ",
            pairs: 198,
            inside: "1",
            repeated: "",
            times: 0,
            after: ";",
        },
        Answer::Statements(1),
    ),
    (
        Nested {
            before: "int a = ",
            pairs: 199,
            inside: "1",
            repeated: "",
            times: 0,
            after: ";",
        },
        Answer::Fault(
            FaultCode::Deep,
            Span {
                line: 1,
                column: 208,
            },
        ),
    ),
    (
        Nested {
            before: "for (int i = ",
            pairs: 197,
            inside: "1",
            repeated: "",
            times: 0,
            after: "; ; ) ;",
        },
        Answer::Statements(1),
    ),
    (
        Nested {
            before: "for (int i = ",
            pairs: 198,
            inside: "1",
            repeated: "",
            times: 0,
            after: "; ; ) ;",
        },
        Answer::Fault(
            FaultCode::Deep,
            Span {
                line: 1,
                column: 212,
            },
        ),
    ),
    (
        Nested {
            before: "if (",
            pairs: 200,
            inside: "b",
            repeated: "",
            times: 0,
            after: ") f();",
        },
        Answer::Fault(
            FaultCode::Deep,
            Span {
                line: 1,
                column: 205,
            },
        ),
    ),
    (
        Nested {
            before: "if (",
            pairs: 199,
            inside: "b",
            repeated: "",
            times: 0,
            after: ") f();",
        },
        Answer::Statements(1),
    ),
];

#[test]
fn a_line_is_too_deep_at_the_node(rt: HostRuntime) -> Result<(), Fail> {
    for (nested, wanted) in LINES.iter() {
        let text = bytes_of(rt.alloc(), nested)?;
        if answer_for(rt.alloc(), text.as_slice()) != *wanted {
            return Err(nested.before.into());
        }
    }
    Ok(())
}

/// The text of a file, and what it is read as.
const FILES: &[(Nested, Read)] = &[
    (
        Nested {
            before: "class A { int x = 1 + ",
            pairs: 199,
            inside: "1",
            repeated: "",
            times: 0,
            after: "; }",
        },
        Read::Members(1),
    ),
    (
        Nested {
            before: "class A { int x = 1 + ",
            pairs: 200,
            inside: "1",
            repeated: "",
            times: 0,
            after: "; }",
        },
        Read::Fault(FaultCode::Deep, 223),
    ),
    (
        Nested {
            before: "class A { void f() { a = ",
            pairs: 197,
            inside: "1",
            repeated: "",
            times: 0,
            after: "; } }",
        },
        Read::Members(1),
    ),
    (
        Nested {
            before: "class A { void f() { a = ",
            pairs: 198,
            inside: "1",
            repeated: "",
            times: 0,
            after: "; } }",
        },
        Read::Fault(FaultCode::Deep, 224),
    ),
    (
        Nested {
            before: "class A { int y; int x = ",
            pairs: 100,
            inside: "a",
            repeated: " + a",
            times: 150,
            after: "; }",
        },
        Read::Fault(FaultCode::Deep, 126),
    ),
];

#[test]
fn a_file_is_too_deep_at_the_node(rt: HostRuntime) -> Result<(), Fail> {
    for (nested, wanted) in FILES.iter() {
        let text = bytes_of(rt.alloc(), nested)?;
        if read_in(rt.alloc(), text.as_slice()) != *wanted {
            return Err(nested.before.into());
        }
    }
    Ok(())
}
