use crate::trees::{let_line_go, line_in};
use bj_base::{Copies, NoMemory};
use bj_expr_tree::{
    ExprTree, all_expr_nodes, copy_boxed_expr, copy_exprs, copy_optional_expr, expr_nodes, height,
    one_more, optional_expr_nodes, plus,
};
use bj_tree::LineTree;
use sqlite_items::{Boxed, Items};
use std::alloc::Global;

/// Lets expressions go. Their drop stands here alone, so that no caller's proof goes through it.
fn let_go(_trees: Items<ExprTree>) {}

/// Lets an expression go, like `let_go`.
fn let_one_go(_tree: Option<Boxed<ExprTree>>) {}

/// How many nodes the copies of some expressions have, and the last of them by itself, with its height; nothing where there was no room.
fn list_measured(alloc: Global, trees: &[ExprTree]) -> Option<(u32, u32, u32)> {
    let Ok(copies) = copy_exprs(alloc, trees) else {
        return None;
    };
    let all = all_expr_nodes(copies.as_slice());
    let found = match copies.as_slice().last() {
        Some(tree) => (all, expr_nodes(tree), height(tree)),
        None => (all, 0, 0),
    };
    let_go(copies);
    Some(found)
}

/// What is measured of the arguments of a call.
fn arguments_measured(alloc: Global, line: &LineTree) -> Option<(u32, u32, u32)> {
    let LineTree::Expr(tree) = line else {
        return None;
    };
    match tree.get() {
        ExprTree::Call { args, .. } => list_measured(alloc, args.as_slice()),
        _ => None,
    }
}

/// How many nodes the copy of an expression that may be missing has.
fn optional_measured(alloc: Global, tree: &Option<Boxed<ExprTree>>) -> Result<u32, NoMemory> {
    let copied = copy_optional_expr(alloc, tree)?;
    let found = optional_expr_nodes(&copied);
    let_one_go(copied);
    Ok(found)
}

/// How many nodes the copy of the copy of a line's expression has.
fn copy_measured(alloc: Global, line: &LineTree) -> Result<u32, NoMemory> {
    let LineTree::Expr(tree) = line else {
        return Ok(0);
    };
    let copied = Some(copy_boxed_expr(alloc, tree)?);
    let found = optional_measured(alloc, &copied);
    let_one_go(copied);
    found
}

#[test]
fn copies_of_expressions_have_their_nodes(rt: HostRuntime) {
    let alloc = rt.alloc();
    let Some(line) = line_in(alloc, b"f(a, (1), -a)") else {
        assert!(rt; false);
        return;
    };
    let arguments = arguments_measured(alloc, &line);
    let whole = copy_measured(alloc, &line);
    let_line_go(line);
    assert!(&rt; arguments == Some((5, 2, 2)));
    assert!(&rt; whole == Ok(6));
    assert!(&rt; optional_measured(alloc, &None) == Ok(0));
}

#[test]
fn counts_stand_still_at_the_end_of_their_type(rt: HostRuntime) {
    assert_eq!(&rt; one_more(6), 7);
    assert_eq!(&rt; one_more(u32::MAX), u32::MAX);
    assert_eq!(&rt; plus(2, 3), 5);
    assert_eq!(&rt; plus(u32::MAX, 3), u32::MAX);
}
