//! What texts of Java are replied, worked by hand from the grammar.

use bj_reading::{JavaText, reading_reply};
use std::alloc::Global;
use std::test::Fail;

/// Whether a text is replied so.
fn is_replied(alloc: Global, form: JavaText, text: &str, wanted: &str) -> bool {
    if text.len() >= 1000 {
        return false;
    }
    match reading_reply(alloc, form, text.as_bytes()) {
        Ok(reply) => reply.as_slice() == wanted.as_bytes(),
        Err(_) => false,
    }
}

/// Texts at their places, with what they are replied.
const ROWS: &[(JavaText, &str, &str)] = &[
    (JavaText::Line, "1 + 2", "= not built"),
    (JavaText::Line, "\"a\"", "= not built"),
    (JavaText::Line, "int x = 5;", "= not built"),
    (JavaText::Line, "1 +", "= fault 1:4 syntax"),
    (JavaText::Line, "1 +  ", "= fault 1:6 syntax"),
    (JavaText::Line, "1 + // a", "= fault 1:9 syntax"),
    (JavaText::Line, "/**/", "= fault 1:5 syntax"),
    (JavaText::Line, "(1", "= fault 1:3 syntax"),
    (JavaText::Line, "a b", "= fault 1:4 syntax"),
    (JavaText::Line, "\"\u{1f600}\" 1", "= fault 1:6 syntax"),
    (JavaText::Line, "2147483648", "= fault 1:1 wide"),
    (JavaText::Line, "2147483649", "= fault 1:1 wide"),
    (JavaText::Line, "-2147483648", "= not built"),
    (JavaText::Line, "1 + 1.5", "= fault 1:5 profile"),
    (JavaText::Line, "class Wrong {", "= fault 1:1 profile"),
    (JavaText::Line, "new A<B>()", "= fault 1:6 profile"),
    (JavaText::Line, "'ab'", "= fault 1:1 char"),
    (JavaText::Line, "1 # 2", "= fault 1:3 char"),
    (JavaText::Line, "/* a", "= fault 1:1 open"),
    (JavaText::Line, "1 + \"a", "= fault 1:5 open"),
    (JavaText::Line, "1 +\r 2 3", "= fault 2:4 syntax"),
    (JavaText::Call, "a(1)", "= not built"),
    (JavaText::Call, "a.b.c()", "= not built"),
    (JavaText::Call, "super.a()", "= not built"),
    (JavaText::Call, "new A().b()", "= not built"),
    (JavaText::Call, "1 + 2", "= fault 1:1 syntax"),
    (JavaText::Call, "/* a */ b", "= fault 1:9 syntax"),
    (JavaText::Call, "(a())", "= fault 1:1 syntax"),
    (JavaText::Call, "new A()", "= fault 1:1 syntax"),
    (JavaText::Call, "a();", "= fault 1:1 syntax"),
    (JavaText::Call, "a() as b", "= fault 1:5 syntax"),
    (JavaText::Call, "a(2147483648)", "= fault 1:3 wide"),
    (JavaText::Creation, "A(3)", "= not built"),
    (JavaText::Creation, "A(-1, \"b\")", "= not built"),
    (JavaText::Creation, "A(3", "= fault 1:4 syntax"),
    (JavaText::Creation, "A(3))", "= fault 1:5 syntax"),
    (JavaText::Creation, "A", "= fault 1:2 syntax"),
    (JavaText::Creation, "5", "= fault 1:1 syntax"),
    (JavaText::Creation, "/* a */", "= fault 1:8 syntax"),
    (JavaText::Creation, "int[3]", "= fault 1:1 syntax"),
    (JavaText::Creation, "A(1).b()", "= fault 1:1 syntax"),
    (JavaText::Creation, "A(1);", "= fault 1:1 syntax"),
    (JavaText::Creation, "A<B>()", "= fault 1:2 profile"),
    (JavaText::Creation, "new A()", "= fault 1:1 syntax"),
];

#[test]
fn texts_are_told_their_first_fault_or_are_not_built(rt: HostRuntime) -> Result<(), Fail> {
    for (form, text, wanted) in ROWS.iter() {
        if !is_replied(rt.alloc(), *form, text, wanted) {
            return Err((*text).into());
        }
    }
    Ok(())
}
