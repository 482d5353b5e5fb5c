use bj_base::{FaultCode, Name, Refusal, Span};
use bj_lex::tokens;
use bj_line::line_of;
use bj_token::Tokens;
use bj_tree::LineTree;
use std::alloc::Global;
use std::test::Fail;

/// Lets a tree go. Its drop stands here alone, so that no caller's proof goes through it.
pub(crate) fn let_go(_tree: LineTree) {}

/// The column of a fault of syntax in line 1, and 0 for another one.
fn column_of(code: FaultCode, at: Span) -> u32 {
    if code == FaultCode::Syntax && at.line == 1 {
        return at.column;
    }
    0
}

/// The column at which some tokens are no line, and 0 where they are one.
fn fault_of(alloc: Global, tokens: &Tokens) -> u32 {
    match line_of(alloc, tokens) {
        Ok(tree) => {
            let_go(tree);
            0
        }
        Err(Refusal::Fault(fault)) => column_of(fault.code, fault.at),
        Err(Refusal::NoMemory) => 0,
    }
}

/// The column at which a text is no line, and 0 where it is one.
fn fault_in(alloc: Global, text: &str) -> u32 {
    if text.len() >= 1000 {
        return 0;
    }
    let Ok(class) = Name::from_slice(alloc, b"") else {
        return 0;
    };
    match tokens(alloc, &class, text.as_bytes()) {
        Ok(read) => fault_of(alloc, &read),
        Err(_) => 0,
    }
}

/// Lines that are just none, at least one for each form of statement and expression, and the column of the first token that does not fit.
const NEARLY: &[(&str, u32)] = &[
    ("if a) b();", 4),
    ("if (a b();", 7),
    ("if () b();", 5),
    ("if (a) b(); else", 17),
    ("while a) ;", 7),
    ("while (true)", 13),
    ("do ; a(b);", 6),
    ("do a(); while b;", 15),
    ("for ;", 5),
    ("for (int i = 0) ;", 15),
    ("for (;;;) ;", 8),
    ("for (A a : ) ;", 12),
    ("for (A a b) ;", 10),
    ("switch (a) b();", 12),
    ("switch (a) { case : }", 19),
    ("switch (a) { case 1; }", 20),
    ("switch (a) { default 1: }", 22),
    ("synchronized (a) ;", 18),
    ("synchronized (A.class[0]) { }", 22),
    ("a: int b;", 4),
    ("break 1;", 7),
    ("continue a b;", 12),
    ("return a b;", 10),
    ("throw ;", 7),
    ("{ a(); ) }", 8),
    ("{ int x = 1 }", 13),
    ("try ;", 5),
    ("try { } catch { }", 15),
    ("try { } catch (A) { }", 17),
    ("try { } finally ;", 17),
    ("int ;", 5),
    ("int x y;", 7),
    ("final = 1;", 7),
    ("int x[1];", 7),
    ("int[] x = {1 2};", 14),
    ("a + ;", 5),
    ("a instanceof 1", 14),
    ("a instanceof B[1]", 16),
    ("a ? b :", 8),
    ("a =", 4),
    ("= a", 1),
    ("a[]", 4),
    ("f()[]", 5),
    ("a ++ b", 6),
    ("f(;", 3),
    ("a.(b)", 3),
    ("super.[", 7),
    ("this.", 6),
    ("(a", 3),
    ("(int", 5),
    ("(int)", 6),
    ("(int[x) y", 6),
    ("!", 2),
    ("new 1", 5),
    ("new A", 6),
    ("new int(3)", 8),
    ("new int[3", 10),
    ("new int[]", 10),
    ("new int[]{1", 12),
    ("new A(a b)", 9),
];

#[test]
fn what_is_nearly_a_line_is_refused_at_the_token_that_does_not_fit(
    rt: HostRuntime,
) -> Result<(), Fail> {
    for (text, wanted) in NEARLY.iter() {
        if fault_in(rt.alloc(), text) != *wanted {
            return Err((*text).into());
        }
    }
    Ok(())
}
