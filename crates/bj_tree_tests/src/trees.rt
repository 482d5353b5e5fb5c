//! Trees that texts are read as, with what is counted of them by hand, and their copies.

use bj_base::{Bytes, Copies, Name, NoMemory, Seq};
use bj_lex::tokens;
use bj_line::line_of;
use bj_parse::class_of;
use bj_token::Tokens;
use bj_tree::{ClassKind, ClassTree, LineTree, MemberTree, expr_nodes, height, nodes};
use std::alloc::Global;
use std::test::Fail;

/// Lets a line go. Its drop stands here alone, so that no caller's proof goes through it.
pub(crate) fn let_line_go(_line: LineTree) {}

/// The tokens of a text, in the file of a class.
fn tokens_of(alloc: Global, class: &[u8], text: &[u8]) -> Option<Tokens> {
    if text.len() >= 1000 {
        return None;
    }
    let Ok(class) = Name::from_slice(alloc, class) else {
        return None;
    };
    match tokens(alloc, &class, text) {
        Ok(read) => Some(read),
        Err(_) => None,
    }
}

/// The line that a text is read as.
pub(crate) fn line_in(alloc: Global, text: &[u8]) -> Option<LineTree> {
    let read = tokens_of(alloc, b"", text)?;
    match line_of(alloc, &read) {
        Ok(line) => Some(line),
        Err(_) => None,
    }
}

/// The height of the expression that a line is, or else 0, and the nodes of it or of the first statement.
fn measured(line: &LineTree) -> (u32, u32) {
    match line {
        LineTree::Expr(tree) => (height(tree.get()), expr_nodes(tree.get())),
        LineTree::Stmts(trees) => match trees.as_slice().first() {
            Some(tree) => (0, nodes(tree)),
            None => (0, 0),
        },
    }
}

/// What is measured of the copy of a line.
fn copy_measured(alloc: Global, line: &LineTree) -> Option<(u32, u32)> {
    match line.copy(alloc) {
        Ok(copied) => {
            let found = measured(&copied);
            let_line_go(copied);
            Some(found)
        }
        Err(_) => None,
    }
}

/// Whether the line that a text is read as, and its copy, are so high and have so many nodes.
fn is_measured(alloc: Global, text: &[u8], want: (u32, u32)) -> bool {
    match line_in(alloc, text) {
        Some(line) => {
            let found = (measured(&line), copy_measured(alloc, &line));
            let_line_go(line);
            found == (want, Some(want))
        }
        None => false,
    }
}

/// Lines, with the height of an expression, or 0 of a statement, and how many nodes there are: a variable is one, and a block is one.
const LINES: &[(&str, u32, u32)] = &[
    ("1", 1, 1),
    ("a", 1, 1),
    ("(1)", 2, 2),
    ("a + -1", 3, 4),
    ("-1 + a", 3, 4),
    ("a.f(1, b[-1])", 4, 7),
    ("a ? 1 : (x = ((1)))", 6, 9),
    ("i++", 2, 2),
    ("(int[]) (x instanceof A)", 4, 4),
    ("new int[a][b][]", 2, 3),
    (";", 0, 1),
    ("int a = 1 + 1, b;", 0, 6),
    ("{ ; int a = 1 + 1, b; }", 0, 8),
    ("if (a) ;", 0, 3),
    ("if (a) ; else ;", 0, 4),
    ("a.f(1, b[-1]);", 0, 8),
    ("for (int a = 1 + 1, b; ; i++) ;", 0, 10),
    ("try { ; ; } catch (E e) { } finally { }", 0, 7),
    ("switch (a) { case 1: break; default: }", 0, 6),
    ("a: while (b) do return c; while (d);", 0, 7),
];

#[test]
fn trees_and_copies_have_their_height_and_nodes(rt: HostRuntime) -> Result<(), Fail> {
    for (text, high, many) in LINES.iter() {
        if !is_measured(rt.alloc(), text.as_bytes(), (*high, *many)) {
            return Err((*text).into());
        }
    }
    Ok(())
}

/// `1` in so many parentheses.
fn parentheses(alloc: Global, count: usize) -> Result<Bytes, NoMemory> {
    let mut text = Seq::new(alloc);
    for _ in 0..count {
        text.push(b'(')?;
    }
    text.push(b'1')?;
    for _ in 0..count {
        text.push(b')')?;
    }
    Ok(text)
}

#[test]
fn two_hundred_parentheses_are_201_nodes_high(rt: HostRuntime) {
    let alloc = rt.alloc();
    let found = match parentheses(alloc, 200) {
        Ok(text) => is_measured(alloc, text.as_slice(), (201, 201)),
        Err(_) => false,
    };
    assert!(&rt; found);
}

/// Lets a class go. Its drop stands here alone.
fn let_class_go(_class: ClassTree) {}

/// The nodes of the first member's body; 0 where it is no method with a body.
fn first_body(class: &ClassTree) -> u32 {
    match class.members.get(0) {
        Some(MemberTree::Method(method)) => match &method.body {
            Some(body) => nodes(body.get()),
            None => 0,
        },
        _ => 0,
    }
}

/// Whether a class looks as its text says.
fn is_as_read(class: &ClassTree) -> bool {
    class.file.as_slice() == b"A".as_slice()
        && class.kind == ClassKind::Class
        && class.superclass.is_some()
        && class.imports.len() == 1
        && class.modifiers.len() == 2
        && class.members.len() == 4
        && first_body(class) == 8
}

/// Whether the copy of a class looks as its text says.
fn is_copied(alloc: Global, class: &ClassTree) -> bool {
    match class.copy(alloc) {
        Ok(copied) => {
            let found = is_as_read(&copied);
            let_class_go(copied);
            found
        }
        Err(_) => false,
    }
}

/// Whether a class that is read and its copy look as the text says.
fn is_read_and_copied(alloc: Global, text: &[u8]) -> bool {
    let Some(read) = tokens_of(alloc, b"A", text) else {
        return false;
    };
    match class_of(alloc, &read) {
        Ok(class) => {
            let found = is_as_read(&class) && is_copied(alloc, &class);
            let_class_go(class);
            found
        }
        Err(_) => false,
    }
}

const CLASS: &str = "import java.util.Scanner; public abstract class A extends B implements C { \
    @Test(expected = E.class) public void m(final int n[][]) throws F { ; int a = 1 + 1, b; } \
    int[] f = { 1 }; A() { this(1); } static { ; } }";

#[test]
fn classes_are_copied(rt: HostRuntime) {
    assert!(&rt; is_read_and_copied(rt.alloc(), CLASS.as_bytes()));
}
