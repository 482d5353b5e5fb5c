ghost use Rattle.std.specs.Prelude.{[], ◌∷◌};
ghost use Rattle.bj_grammar.specs.Given.{text_of, Gives};
ghost use Rattle.bj_class.specs.Given.{over_most, parameters_of};
ghost use Rattle.bj_class.specs.Reading as spec;

use bj_base::Seq;
use bj_expr::{Bounds, dims, type_at};
use bj_grammar::{Stop, Symbol, Terminal, out_of_turns, place, sees, word};
use bj_stmt::{maybe_final, name_at};
use bj_tree::{ParameterTree, ParameterTrees};
use std::alloc::Global;

/// A parameter [JLS 8.4.1].
#[tactic(auto, unfolding(crate::specs::Reading::parameter))]
fn parameter(
    alloc: Global,
    tokens: &[Symbol],
    bounds: Bounds,
    start: usize,
) -> Result<(ParameterTree, usize), Stop>
    ensures { Gives result (over_most spec.parameter tokens.now bounds (text_of tokens.now) start) }
{
    let (is_final, at) = maybe_final(tokens, start);
    let (of, at) = type_at(alloc, tokens, bounds.most, at)?;
    let (name, at) = name_at(alloc, tokens, at)?;
    let (dims, at) = dims(tokens, bounds.most, at)?;
    let parameter = ParameterTree {
        at: place(tokens, start),
        is_final,
        of,
        name,
        dims,
    };
    Ok((parameter, at))
}

/// A comma and a parameter, after others.
#[tactic(auto, unfolding(crate::specs::Reading::next_parameter))]
fn next_parameter(
    alloc: Global,
    tokens: &[Symbol],
    bounds: Bounds,
    mut found: ParameterTrees,
    at: usize,
) -> Result<(ParameterTrees, usize), Stop>
    ensures { Gives result (over_most spec.next_parameter tokens.now bounds found (text_of tokens.now) at) }
{
    let at = word(tokens, at, Terminal::Comma)?;
    let (next, at) = parameter(alloc, tokens, bounds, at)?;
    found.push(next)?;
    Ok((found, at))
}

/// The parameters after a first one, each after a comma.
fn more_parameters(
    alloc: Global,
    tokens: &[Symbol],
    bounds: Bounds,
    mut found: ParameterTrees,
    mut at: usize,
) -> Result<(ParameterTrees, usize), Stop>
    ensures { Gives result (parameters_of tokens.now bounds found (text_of tokens.now) at) }
{
    for _turn in 0..bounds.most {
        if !sees(tokens, at, Terminal::Comma) {
            return Ok((found, at));
        }
        (found, at) = next_parameter(alloc, tokens, bounds, found, at)?;
    }
    if sees(tokens, at, Terminal::Comma) {
        return Err(out_of_turns());
    }
    Ok((found, at))
}

/// Parameters with commas between them.
#[tactic(auto, unfolding(crate::specs::Reading::parameters))]
fn parameters(
    alloc: Global,
    tokens: &[Symbol],
    bounds: Bounds,
    at: usize,
) -> Result<(ParameterTrees, usize), Stop>
    ensures { Gives result (over_most spec.parameters tokens.now bounds (text_of tokens.now) at) }
{
    let (first, at) = parameter(alloc, tokens, bounds, at)?;
    let mut found = Seq::new(alloc);
    found.push(first)?;
    more_parameters(alloc, tokens, bounds, found, at)
}

/// The parameters of a method or a constructor in parentheses; they may be none [JLS 8.4.1].
#[tactic(auto, unfolding(crate::specs::Reading::formals))]
pub(crate) fn formals(
    alloc: Global,
    tokens: &[Symbol],
    bounds: Bounds,
    at: usize,
) -> Result<(ParameterTrees, usize), Stop>
    ensures { Gives result (over_most spec.formals tokens.now bounds (text_of tokens.now) at) }
{
    let at = word(tokens, at, Terminal::LeftParen)?;
    if sees(tokens, at, Terminal::RightParen) {
        let at = word(tokens, at, Terminal::RightParen)?;
        return Ok((Seq::new(alloc), at));
    }
    let (found, at) = parameters(alloc, tokens, bounds, at)?;
    let at = word(tokens, at, Terminal::RightParen)?;
    Ok((found, at))
}
