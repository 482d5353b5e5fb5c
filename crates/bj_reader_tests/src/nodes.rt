use crate::forms::let_go;
use bj_base::Name;
use bj_expr::node_below;
use bj_lex::tokens;
use bj_line::line_of;
use bj_token::Tokens;
use bj_tree::LineTree;
use std::alloc::Global;
use std::test::Fail;

/// The column of the first node of a line with so many above it, and 0 where there is none.
fn column_below(line: &LineTree, above: u16) -> u32 {
    match line {
        LineTree::Expr(tree) => match node_below(tree.get(), above) {
            Some(at) => at.column,
            None => 0,
        },
        LineTree::Stmts(_) => 0,
    }
}

/// The same of some tokens.
fn column_of(alloc: Global, tokens: &Tokens, above: u16) -> u32 {
    match line_of(alloc, tokens) {
        Ok(line) => {
            let found = column_below(&line, above);
            let_go(line);
            found
        }
        Err(_) => 0,
    }
}

/// The same of a text.
fn column_in(alloc: Global, text: &str, above: u16) -> u32 {
    if text.len() >= 1000 {
        return 0;
    }
    let Ok(class) = Name::from_slice(alloc, b"") else {
        return 0;
    };
    match tokens(alloc, &class, text.as_bytes()) {
        Ok(read) => column_of(alloc, &read, above),
        Err(_) => 0,
    }
}

/// An expression, a number of nodes, and the column of the first node that has so many above it.
const NODES: &[(&str, u16, u32)] = &[
    ("f(a, b[c]).d", 0, 1),
    ("f(a, b[c]).d", 1, 1),
    ("f(a, b[c]).d", 2, 3),
    ("f(a, b[c]).d", 3, 6),
    ("f(a, b[c]).d", 4, 0),
    ("x ? -y : (z)", 1, 1),
    ("x ? -y : (z)", 2, 6),
    ("x ? -y : (z)", 3, 0),
    ("a + (b = c)", 3, 6),
    ("new int[n][m++]", 1, 9),
    ("new int[n][m++]", 2, 12),
    ("(int) x instanceof A", 2, 7),
];

#[test]
fn the_first_node_below_so_many_is_found(rt: HostRuntime) -> Result<(), Fail> {
    for (text, above, wanted) in NODES.iter() {
        if column_in(rt.alloc(), text, *above) != *wanted {
            return Err((*text).into());
        }
    }
    Ok(())
}
