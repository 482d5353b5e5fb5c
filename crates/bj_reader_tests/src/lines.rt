use bj_base::{FaultCode, Name, NoMemory, Refusal, Seq, Span};
use bj_expr::{Bounds, Part, part_at};
use bj_grammar::{Stop, Symbol};
use bj_lex::tokens;
use bj_line::line_of;
use bj_stmt::statements_at;
use bj_token::{Token, Tokens};
use bj_tree::LineTree;
use std::alloc::Global;
use std::test::Fail;

/// What a line is read as.
#[derive(Clone, Copy, PartialEq, Eq)]
pub(crate) enum Answer {
    /// An expression.
    Expression,
    /// So many statements.
    Statements(usize),
    /// Nothing, with its first fault.
    Fault(FaultCode, Span),
    /// Nothing, for want of memory.
    NoMemory,
}

/// What some tokens are read as.
fn answer_of(alloc: Global, tokens: &Tokens) -> Answer {
    match line_of(alloc, tokens) {
        Ok(LineTree::Expr(_)) => Answer::Expression,
        Ok(LineTree::Stmts(trees)) => Answer::Statements(trees.as_slice().len()),
        Err(Refusal::Fault(fault)) => Answer::Fault(fault.code, fault.at),
        Err(Refusal::NoMemory) => Answer::NoMemory,
    }
}

/// What a text is read as.
fn answer_in(alloc: Global, text: &str) -> Answer {
    answer_for(alloc, text.as_bytes())
}

/// What a text is read as, which is given by its bytes.
pub(crate) fn answer_for(alloc: Global, text: &[u8]) -> Answer {
    if text.len() >= 2000 {
        return Answer::NoMemory;
    }
    let Ok(class) = Name::from_slice(alloc, b"") else {
        return Answer::NoMemory;
    };
    match tokens(alloc, &class, text) {
        Ok(read) => answer_of(alloc, &read),
        Err(_) => Answer::NoMemory,
    }
}

/// The text of a line, and what it is read as.
const LINES: &[(&str, Answer)] = &[
    (
        "",
        Answer::Fault(FaultCode::Syntax, Span { line: 1, column: 1 }),
    ),
    ("a", Answer::Expression),
    ("a + b * c", Answer::Expression),
    ("(a)", Answer::Expression),
    ("a = b = c", Answer::Expression),
    (
        "a + b = c",
        Answer::Fault(FaultCode::Syntax, Span { line: 1, column: 7 }),
    ),
    (
        "a;",
        Answer::Fault(FaultCode::Syntax, Span { line: 1, column: 2 }),
    ),
    ("a();", Answer::Statements(1)),
    ("a()", Answer::Expression),
    ("int x = 1;", Answer::Statements(1)),
    (
        "int x = 1",
        Answer::Fault(
            FaultCode::Syntax,
            Span {
                line: 1,
                column: 10,
            },
        ),
    ),
    ("x = 3;", Answer::Statements(1)),
    ("x++;", Answer::Statements(1)),
    ("++x;", Answer::Statements(1)),
    ("new A();", Answer::Statements(1)),
    (
        "new int[3];",
        Answer::Fault(
            FaultCode::Syntax,
            Span {
                line: 1,
                column: 11,
            },
        ),
    ),
    ("new int[]{1, 2}", Answer::Expression),
    ("new int[]{1, 2,}", Answer::Expression),
    ("new int[]{,}", Answer::Expression),
    (
        "new int[]{,,}",
        Answer::Fault(
            FaultCode::Syntax,
            Span {
                line: 1,
                column: 12,
            },
        ),
    ),
    ("new int[3][]", Answer::Expression),
    (
        "new int[3][][2]",
        Answer::Fault(
            FaultCode::Syntax,
            Span {
                line: 1,
                column: 14,
            },
        ),
    ),
    ("new int[3].length", Answer::Expression),
    ("if (a) if (b) c(); else d();", Answer::Statements(1)),
    (
        "if (a) int b;",
        Answer::Fault(FaultCode::Syntax, Span { line: 1, column: 8 }),
    ),
    (
        "2147483648",
        Answer::Fault(FaultCode::Wide, Span { line: 1, column: 1 }),
    ),
    ("-2147483648", Answer::Expression),
    ("- 2147483648", Answer::Expression),
    (
        "-(2147483648)",
        Answer::Fault(FaultCode::Wide, Span { line: 1, column: 3 }),
    ),
    (
        "9223372036854775808L",
        Answer::Fault(FaultCode::Wide, Span { line: 1, column: 1 }),
    ),
    ("a ? b : c", Answer::Expression),
    (
        "a ? b",
        Answer::Fault(FaultCode::Syntax, Span { line: 1, column: 6 }),
    ),
    (
        "a ? b : c = d",
        Answer::Fault(
            FaultCode::Syntax,
            Span {
                line: 1,
                column: 11,
            },
        ),
    ),
    ("f(a, b)", Answer::Expression),
    (
        "f(a,)",
        Answer::Fault(FaultCode::Syntax, Span { line: 1, column: 5 }),
    ),
    ("a.b.c(d)[e]", Answer::Expression),
    ("a instanceof B[]", Answer::Expression),
    ("(int) -x", Answer::Expression),
    ("(A) -x", Answer::Expression),
    ("(A) ~x", Answer::Expression),
    ("(A[]) x", Answer::Expression),
    ("-+x", Answer::Expression),
    ("--x", Answer::Expression),
    (
        "try { }",
        Answer::Fault(FaultCode::Syntax, Span { line: 1, column: 8 }),
    ),
    ("try { } finally { }", Answer::Statements(1)),
    ("try { } catch (A e) { }", Answer::Statements(1)),
    (
        "try (a) { }",
        Answer::Fault(FaultCode::Profile, Span { line: 1, column: 5 }),
    ),
    (
        "try { } catch (A | B e) { }",
        Answer::Fault(
            FaultCode::Profile,
            Span {
                line: 1,
                column: 18,
            },
        ),
    ),
    (
        "class A { }",
        Answer::Fault(FaultCode::Profile, Span { line: 1, column: 1 }),
    ),
    (
        "new A<B>()",
        Answer::Fault(FaultCode::Profile, Span { line: 1, column: 6 }),
    ),
    (
        "List<String> x;",
        Answer::Fault(
            FaultCode::Syntax,
            Span {
                line: 1,
                column: 15,
            },
        ),
    ),
    (
        "a b",
        Answer::Fault(FaultCode::Syntax, Span { line: 1, column: 4 }),
    ),
    ("for (int i = 0; i < 3; i++) a();", Answer::Statements(1)),
    ("for (;;) { }", Answer::Statements(1)),
    ("for (a(), b(); ; ) ;", Answer::Statements(1)),
    ("for (A a : b) { }", Answer::Statements(1)),
    ("while (true) ;", Answer::Statements(1)),
    ("do a(); while (b);", Answer::Statements(1)),
    (
        "do a(); while (b)",
        Answer::Fault(
            FaultCode::Syntax,
            Span {
                line: 1,
                column: 18,
            },
        ),
    ),
    (
        "switch (a) { case 1: b(); default: }",
        Answer::Statements(1),
    ),
    (
        "switch (a) { b(); }",
        Answer::Fault(
            FaultCode::Syntax,
            Span {
                line: 1,
                column: 14,
            },
        ),
    ),
    ("synchronized (A.class) { }", Answer::Statements(1)),
    ("synchronized (a) { }", Answer::Statements(1)),
    ("x: a();", Answer::Statements(1)),
    ("break;", Answer::Statements(1)),
    ("continue x;", Answer::Statements(1)),
    ("return;", Answer::Statements(1)),
    ("return 1;", Answer::Statements(1)),
    ("throw e;", Answer::Statements(1)),
    ("{ }", Answer::Statements(1)),
    ("{ a(); b(); }", Answer::Statements(1)),
    ("a(); b();", Answer::Statements(2)),
    (
        "{",
        Answer::Fault(FaultCode::Syntax, Span { line: 1, column: 2 }),
    ),
    (
        "else",
        Answer::Fault(FaultCode::Syntax, Span { line: 1, column: 1 }),
    ),
    (
        "a[",
        Answer::Fault(FaultCode::Syntax, Span { line: 1, column: 3 }),
    ),
    (
        "()",
        Answer::Fault(FaultCode::Syntax, Span { line: 1, column: 2 }),
    ),
    (
        "this(1);",
        Answer::Fault(FaultCode::Syntax, Span { line: 1, column: 5 }),
    ),
    ("super.a()", Answer::Expression),
    (
        "super",
        Answer::Fault(FaultCode::Syntax, Span { line: 1, column: 6 }),
    ),
    ("final int x = 1;", Answer::Statements(1)),
    ("int[] x = {1, {2}};", Answer::Statements(1)),
    (
        "a.class",
        Answer::Fault(FaultCode::Syntax, Span { line: 1, column: 3 }),
    ),
    (
        "a\n+\n",
        Answer::Fault(FaultCode::Syntax, Span { line: 3, column: 1 }),
    ),
    (
        "((((((((((((((((((((((((((((((((((((((((((((((((((((((((((((((((((((((((((((((((((((((((((((((((((((((((((((((((((((((((((((((((((((((((((((((((((((((((((((((((((((((((((((((((((((((((((((((((((((((((1))))))))))))))))))))))))))))))))))))))))))))))))))))))))))))))))))))))))))))))))))))))))))))))))))))))))))))))))))))))))))))))))))))))))))))))))))))))))))))))))))))))))))))))))))))))))))))))))))))))))",
        Answer::Expression,
    ),
    (
        "(((((((((((((((((((((((((((((((((((((((((((((((((((((((((((((((((((((((((((((((((((((((((((((((((((((((((((((((((((((((((((((((((((((((((((((((((((((((((((((((((((((((((((((((((((((((((((((((((((((((((1)))))))))))))))))))))))))))))))))))))))))))))))))))))))))))))))))))))))))))))))))))))))))))))))))))))))))))))))))))))))))))))))))))))))))))))))))))))))))))))))))))))))))))))))))))))))))))))))))))))))))",
        Answer::Fault(
            FaultCode::Deep,
            Span {
                line: 1,
                column: 202,
            },
        ),
    ),
];

#[test]
fn lines_are_read_or_refused_at_the_first_fault(rt: HostRuntime) -> Result<(), Fail> {
    for (text, wanted) in LINES.iter() {
        if answer_in(rt.alloc(), text) != *wanted {
            return Err((*text).into());
        }
    }
    Ok(())
}

/// The symbols of some tokens.
fn symbols(alloc: Global, tokens: &[Token]) -> Result<Seq<Symbol>, NoMemory> {
    let mut symbols = Seq::new(alloc);
    for token in tokens {
        symbols.push(Symbol::of_token(alloc, token)?)?;
    }
    Ok(symbols)
}

/// The symbols of a text.
fn symbols_in(alloc: Global, text: &str) -> Result<Seq<Symbol>, Stop> {
    if text.len() >= 1000 {
        return Err(Stop::Memory);
    }
    let class = Name::from_slice(alloc, b"")?;
    match tokens(alloc, &class, text.as_bytes()) {
        Ok(read) => Ok(symbols(alloc, read.items.as_slice())?),
        Err(_) => Err(Stop::Memory),
    }
}

/// The place after a part.
fn part_end(alloc: Global, symbols: &[Symbol], part: Part) -> Result<usize, Stop> {
    match part_at(alloc, symbols, Bounds { most: 100, room: 4 }, 0, part) {
        Ok((_, end)) => Ok(end),
        Err(stop) => Err(stop),
    }
}

/// The text, the part with which it begins, and the place after its last token or why it is none.
const PARTS: &[(&str, Part, Result<usize, Stop>)] = &[
    ("a + b * c;", Part::Expression, Ok(5)),
    ("a = b = c", Part::Expression, Ok(5)),
    ("a + b = c", Part::Expression, Ok(3)),
    ("a ? b : c = d", Part::Expression, Ok(5)),
    ("(a) - b", Part::Unary, Ok(3)),
    ("(int) - b", Part::Unary, Ok(5)),
    ("-2147483648", Part::Expression, Ok(2)),
    ("2147483648", Part::Expression, Err(Stop::Syntax(0))),
    ("new int[3][]", Part::Expression, Ok(7)),
    ("{a, b,}", Part::Initializer, Ok(6)),
    ("{a,,}", Part::Initializer, Err(Stop::Syntax(3))),
    ("f(a,)", Part::Expression, Err(Stop::Syntax(4))),
    ("(((a)))", Part::Expression, Ok(7)),
    (
        "((((a))))",
        Part::Expression,
        Err(Stop::Deep(Span { line: 1, column: 5 })),
    ),
    ("-(-2147483648)", Part::Expression, Ok(5)),
    (
        "(-(-2147483648))",
        Part::Expression,
        Err(Stop::Deep(Span { line: 1, column: 5 })),
    ),
    ("a.b.c.d", Part::Expression, Ok(7)),
    (
        "a.b.c.d.e",
        Part::Expression,
        Err(Stop::Deep(Span { line: 1, column: 1 })),
    ),
    (
        "a[b][c][d + 1][e]",
        Part::Expression,
        Err(Stop::Deep(Span { line: 1, column: 1 })),
    ),
    ("a(b, (c)).d", Part::Expression, Ok(10)),
    (
        "a(b, (c)).d.e",
        Part::Expression,
        Err(Stop::Deep(Span { line: 1, column: 7 })),
    ),
];

#[test]
fn parts_are_read_to_their_ends(rt: HostRuntime) -> Result<(), Fail> {
    for (text, part, wanted) in PARTS.iter() {
        let found = match symbols_in(rt.alloc(), text) {
            Ok(symbols) => part_end(rt.alloc(), symbols.as_slice(), *part),
            Err(stop) => Err(stop),
        };
        if found != *wanted {
            return Err((*text).into());
        }
    }
    Ok(())
}

/// The place after some statements.
fn statements_end(alloc: Global, symbols: &[Symbol]) -> Result<usize, Stop> {
    match statements_at(alloc, symbols, Bounds { most: 100, room: 6 }, 0) {
        Ok((_, end)) => Ok(end),
        Err(stop) => Err(stop),
    }
}

/// The text, and the place after the last token of its statements or why they are none.
const STATEMENTS: &[(&str, Result<usize, Stop>)] = &[
    ("int a = 1, b[]; a = 1;", Ok(13)),
    ("if (a) if (b) c(); else d();", Ok(17)),
    ("do a(); while (b)", Err(Stop::Syntax(9))),
    ("try { }", Err(Stop::Syntax(3))),
    ("try { } finally { }", Ok(6)),
    ("switch (a) { b(); case 1: }", Err(Stop::Syntax(5))),
    ("switch (a) { case 1: default: b(); }", Ok(15)),
    ("for (int i = 0; i < 3; i++) a: continue a;", Ok(19)),
    ("for (Cell c : d) ;", Ok(8)),
    ("synchronized (Cell.class) { }", Ok(8)),
    ("if (a) int b;", Err(Stop::Syntax(4))),
    ("a + b;", Err(Stop::Syntax(1))),
    ("{{{{{;}}}}}", Ok(11)),
    (
        "{{{{{{;}}}}}}",
        Err(Stop::Deep(Span { line: 1, column: 7 })),
    ),
];

#[test]
fn statements_are_read_to_the_end_of_the_line(rt: HostRuntime) -> Result<(), Fail> {
    for (text, wanted) in STATEMENTS.iter() {
        let found = match symbols_in(rt.alloc(), text) {
            Ok(symbols) => statements_end(rt.alloc(), symbols.as_slice()),
            Err(stop) => Err(stop),
        };
        if found != *wanted {
            return Err((*text).into());
        }
    }
    Ok(())
}
