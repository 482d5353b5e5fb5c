ghost use Rattle.std.specs.Prelude.{[], ◌∷◌};
ghost use Rattle.bj_grammar.specs.Given.{text_of, Gives};
ghost use Rattle.bj_stmt.specs.Given.{over_bounds, values_of};
ghost use Rattle.bj_stmt.specs.Reading as spec;

use bj_expr::{Bounds, Part, part_at};
use bj_grammar::{Stop, Symbol, Terminal, out_of_turns, sees, word};
use bj_tree::{ExprTree, ExprTrees};
use sqlite_items::{Boxed, Items};
use std::alloc::Global;

/// An expression.
#[tactic(auto, unfolding(crate::specs::Reading::value))]
pub(crate) fn value(
    alloc: Global,
    tokens: &[Symbol],
    bounds: Bounds,
    at: usize,
) -> Result<(Boxed<ExprTree>, usize), Stop>
    ensures { Gives result (over_bounds spec.value tokens.now bounds (text_of tokens.now) at) }
{
    part_at(alloc, tokens, bounds, at, Part::Expression)
}

/// An expression, where the semicolon does not come at once.
#[tactic(auto, unfolding(crate::specs::Reading::maybe_value))]
pub(crate) fn maybe_value(
    alloc: Global,
    tokens: &[Symbol],
    bounds: Bounds,
    at: usize,
) -> Result<(Option<Boxed<ExprTree>>, usize), Stop>
    ensures { Gives result (over_bounds spec.maybe_value tokens.now bounds (text_of tokens.now) at) }
{
    if sees(tokens, at, Terminal::Semicolon) {
        return Ok((None, at));
    }
    let (tree, at) = value(alloc, tokens, bounds, at)?;
    Ok((Some(tree), at))
}

/// A comma and an expression, after others.
#[tactic(auto, unfolding(crate::specs::Reading::next_value))]
fn next_value(
    alloc: Global,
    tokens: &[Symbol],
    bounds: Bounds,
    mut found: ExprTrees,
    at: usize,
) -> Result<(ExprTrees, usize), Stop>
    ensures { Gives result (over_bounds spec.next_value tokens.now bounds found (text_of tokens.now) at) }
{
    let at = word(tokens, at, Terminal::Comma)?;
    let (next, at) = value(alloc, tokens, bounds, at)?;
    found.push(next.into_inner())?;
    Ok((found, at))
}

/// The expressions after a first one, each after a comma.
fn more_values(
    alloc: Global,
    tokens: &[Symbol],
    bounds: Bounds,
    mut found: ExprTrees,
    mut at: usize,
) -> Result<(ExprTrees, usize), Stop>
    ensures { Gives result (values_of tokens.now bounds found (text_of tokens.now) at) }
{
    for _turn in 0..bounds.most {
        if !sees(tokens, at, Terminal::Comma) {
            return Ok((found, at));
        }
        (found, at) = next_value(alloc, tokens, bounds, found, at)?;
    }
    if sees(tokens, at, Terminal::Comma) {
        return Err(out_of_turns());
    }
    Ok((found, at))
}

/// Expressions with commas between them, up to a closing parenthesis; they may be none.
#[tactic(auto, unfolding(crate::specs::Reading::all_values))]
pub(crate) fn all_values(
    alloc: Global,
    tokens: &[Symbol],
    bounds: Bounds,
    at: usize,
) -> Result<(ExprTrees, usize), Stop>
    ensures { Gives result (over_bounds spec.all_values tokens.now bounds (text_of tokens.now) at) }
{
    let mut found = Items::new(alloc);
    if sees(tokens, at, Terminal::RightParen) {
        return Ok((found, at));
    }
    let (first, at) = value(alloc, tokens, bounds, at)?;
    found.push(first.into_inner())?;
    more_values(alloc, tokens, bounds, found, at)
}
