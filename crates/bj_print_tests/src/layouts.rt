use crate::printed::{bytes_of, is_text, let_class_go, let_line_go, tokens_of};
use bj_base::Bytes;
use bj_layout::{class_text, expr_text, stmt_text};
use bj_parse::{class_of, line_of};
use bj_tree::LineTree;
use std::alloc::Global;

/// What is laid out of a line: of an expression, or of the first of its statements.
fn line_text(alloc: Global, line: &LineTree) -> Option<Bytes> {
    match line {
        LineTree::Expr(tree) => bytes_of(alloc, expr_text(alloc, tree.get())),
        LineTree::Stmts(trees) => match trees.as_slice().first() {
            Some(tree) => bytes_of(alloc, stmt_text(alloc, tree)),
            None => None,
        },
    }
}

/// What is laid out of the line that a text is read as.
fn laid_out(alloc: Global, text: &[u8]) -> Option<Bytes> {
    let read = tokens_of(alloc, b"", text)?;
    match line_of(alloc, &read) {
        Ok(line) => {
            let found = line_text(alloc, &line);
            let_line_go(line);
            found
        }
        Err(_) => None,
    }
}

/// What is laid out of the file that a text is read as.
fn class_laid_out(alloc: Global, text: &[u8]) -> Option<Bytes> {
    let read = tokens_of(alloc, b"A", text)?;
    match class_of(alloc, &read) {
        Ok(tree) => {
            let found = bytes_of(alloc, class_text(alloc, &tree));
            let_class_go(tree);
            found
        }
        Err(_) => None,
    }
}

#[test]
fn trees_are_laid_out(rt: HostRuntime) {
    let alloc = rt.alloc();
    assert!(&rt; is_text(laid_out(alloc, b"f(a,-b)"), "f(a, -b)"));
    assert!(&rt;
        is_text(
            laid_out(alloc, b"if(a)b();else c();"),
            "if (a) b(); else c();"
        )
    );
    let class = "public class A\n{\n    int x;\n}\n";
    assert!(&rt; is_text(class_laid_out(alloc, b"public class A{int x;}"), class));
}
