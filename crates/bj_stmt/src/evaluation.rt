ghost use Rattle.std.specs.Prelude.{◌≡◌};
ghost use Rattle.bj_grammar.specs.Given.{text_of, place_of, Gives};
ghost use Rattle.bj_grammar.specs.Reader.{sign, pure};
ghost use Rattle.bj_grammar.specs.declared.terminal.Terminal.TheVariants as t;
ghost use Rattle.bj_stmt.specs.Given.{over_bounds, over_nested};
ghost use Rattle.bj_stmt.specs.Grammar as grammar;
ghost use Rattle.bj_stmt.specs.Reading as spec;

use crate::nodes::node;
use crate::values::value;
use bj_expr::{Bounds, Part, assign_at, assign_op, is_assign, limited, part_at};
use bj_grammar::{Stop, Symbol, Terminal, place, word};
use bj_tree::{ExprTree, StmtTree};
use sqlite_items::Boxed;
use std::alloc::Global;

/// Whether an expression may be a statement: a step of a variable, a call or a new object [JLS 14.8].
fn is_statement(tree: &ExprTree) -> bool
    ensures { result ≡ grammar.is_statement tree.now }
{
    match tree {
        ExprTree::Prefix { .. }
        | ExprTree::Postfix { .. }
        | ExprTree::Call { .. }
        | ExprTree::MethodCall { .. }
        | ExprTree::SuperCall { .. }
        | ExprTree::New { .. } => true,
        _ => false,
    }
}

/// What is assigned, which is a node below the assignment.
#[tactic(auto, unfolding(crate::specs::Reading::assigned))]
fn assigned(
    alloc: Global,
    tokens: &[Symbol],
    bounds: Bounds,
    at: usize,
) -> Result<(Boxed<ExprTree>, usize), Stop>
    ensures { Gives result (over_bounds spec.assigned tokens.now bounds (text_of tokens.now) at) }
{
    let below = Bounds {
        most: bounds.most,
        room: bounds.room.saturating_sub(1),
    };
    part_at(alloc, tokens, below, at, Part::Expression)
}

/// An operator of assignment and what is assigned [JLS 15.26].
#[tactic(auto, unfolding(crate::specs::Reading::assignment))]
fn assignment(
    alloc: Global,
    tokens: &[Symbol],
    bounds: Bounds,
    start: usize,
    target: Boxed<ExprTree>,
    at: usize,
) -> Result<(Boxed<ExprTree>, usize), Stop>
    ensures { Gives result (over_bounds spec.assignment tokens.now bounds start target (text_of tokens.now) at) }
{
    let (op, at) = assign_at(tokens, at)?;
    let (target, at) = limited(tokens, target, bounds.room.saturating_sub(1), at)?;
    let (value, at) = assigned(alloc, tokens, bounds, at)?;
    let tree = ExprTree::Assign {
        at: place(tokens, start),
        op: assign_op(op),
        target,
        value,
    };
    Ok((Boxed::new(alloc, tree)?, at))
}

/// An expression that may be a statement, behind a unary one at its beginning.
#[tactic(auto, unfolding(crate::specs::Reading::evaluated))]
fn evaluated(
    alloc: Global,
    tokens: &[Symbol],
    bounds: Bounds,
    start: usize,
    first: Boxed<ExprTree>,
    at: usize,
) -> Result<(Boxed<ExprTree>, usize), Stop>
    ensures { Gives result (over_bounds spec.evaluated tokens.now bounds start first (text_of tokens.now) at) }
{
    if is_statement(first.get()) {
        if is_assign(tokens, at) {
            return assignment(alloc, tokens, bounds, start, first, at);
        }
        return Ok((first, at));
    }
    assignment(alloc, tokens, bounds, start, first, at)
}

/// An expression that may be a statement [JLS 14.8].
#[tactic(auto, unfolding(crate::specs::Reading::statement_expression))]
fn statement_expression(
    alloc: Global,
    tokens: &[Symbol],
    bounds: Bounds,
    start: usize,
) -> Result<(Boxed<ExprTree>, usize), Stop>
    ensures { Gives result (over_bounds spec.statement_expression tokens.now bounds (text_of tokens.now) start) }
{
    let (first, at) = part_at(alloc, tokens, bounds, start, Part::Unary)?;
    evaluated(alloc, tokens, bounds, start, first, at)
}

/// Such an expression as a statement, without its semicolon.
#[tactic(auto, unfolding(crate::specs::Reading::evaluation))]
pub(crate) fn evaluation(
    alloc: Global,
    tokens: &[Symbol],
    bounds: Bounds,
    start: usize,
) -> Result<(Boxed<StmtTree>, usize), Stop>
    ensures { Gives result (over_bounds spec.evaluation tokens.now bounds (text_of tokens.now) start) }
{
    let (value, at) = statement_expression(alloc, tokens, bounds, start)?;
    let tree = StmtTree::Expression {
        at: place(tokens, start),
        value,
    };
    node(alloc, tree, at)
}

/// A semicolon behind a statement.
pub(crate) fn closed(
    tokens: &[Symbol],
    tree: Boxed<StmtTree>,
    at: usize,
) -> Result<(Boxed<StmtTree>, usize), Stop>
    ensures { Gives result (sign t.Semicolon (pure tree) (text_of tokens.now) at) }
{
    let at = word(tokens, at, Terminal::Semicolon)?;
    Ok((tree, at))
}

/// Such an expression as a statement, with its semicolon.
#[tactic(auto, unfolding(crate::specs::Reading::evaluate))]
pub(crate) fn evaluate(
    alloc: Global,
    tokens: &[Symbol],
    bounds: Bounds,
    start: usize,
) -> Result<(Boxed<StmtTree>, usize), Stop>
    ensures { Gives result (over_nested spec.evaluate tokens.now bounds (text_of tokens.now) start) }
{
    let (tree, at) = evaluation(alloc, tokens, bounds, start)?;
    closed(tokens, tree, at)
}
