ghost use Rattle.bj_grammar.specs.Given.{text_of, place_of, Gives};
ghost use Rattle.bj_stmt.specs.Given.{over_bounds, variables_of};
ghost use Rattle.bj_stmt.specs.Reading as spec;

use crate::names::maybe_final;
use crate::nodes::node;
use bj_base::{JText, Seq};
use bj_expr::{Bounds, Part, dims, part_at, type_at};
use bj_grammar::{Stop, Symbol, Terminal, out_of_turns, place, sees, units, word};
use bj_tree::{ExprTree, StmtTree, VariableTree, VariableTrees};
use sqlite_items::Boxed;
use std::alloc::Global;

/// The initializer behind `=`, or nothing [JLS 8.3, 14.4].
#[tactic(auto, unfolding(crate::specs::Reading::maybe_init))]
fn maybe_init(
    alloc: Global,
    tokens: &[Symbol],
    bounds: Bounds,
    at: usize,
) -> Result<(Option<Boxed<ExprTree>>, usize), Stop>
    ensures { Gives result (over_bounds spec.maybe_init tokens.now bounds (text_of tokens.now) at) }
{
    if sees(tokens, at, Terminal::Assign) {
        let at = word(tokens, at, Terminal::Assign)?;
        let (tree, at) = part_at(alloc, tokens, bounds, at, Part::Initializer)?;
        return Ok((Some(tree), at));
    }
    Ok((None, at))
}

/// The rest of a variable, behind its name.
#[tactic(auto, unfolding(crate::specs::Reading::variable_behind))]
fn variable_behind(
    alloc: Global,
    tokens: &[Symbol],
    bounds: Bounds,
    start: usize,
    name: JText,
    at: usize,
) -> Result<(VariableTree, usize), Stop>
    ensures { Gives result (over_bounds spec.variable_behind tokens.now bounds start name (text_of tokens.now) at) }
{
    let (dims, at) = dims(tokens, bounds.most, at)?;
    let (init, at) = maybe_init(alloc, tokens, bounds, at)?;
    let variable = VariableTree {
        at: place(tokens, start),
        name,
        dims,
        init,
    };
    Ok((variable, at))
}

/// A variable: its name, the brackets behind it and its initializer.
#[tactic(auto, unfolding(crate::specs::Reading::variable))]
fn variable(
    alloc: Global,
    tokens: &[Symbol],
    bounds: Bounds,
    start: usize,
) -> Result<(VariableTree, usize), Stop>
    ensures { Gives result (over_bounds spec.variable tokens.now bounds (text_of tokens.now) start) }
{
    let at = word(tokens, start, Terminal::Word)?;
    let name = units(alloc, tokens, start)?;
    variable_behind(alloc, tokens, bounds, start, name, at)
}

/// A comma and a variable, after others.
#[tactic(auto, unfolding(crate::specs::Reading::next_variable))]
fn next_variable(
    alloc: Global,
    tokens: &[Symbol],
    bounds: Bounds,
    mut found: VariableTrees,
    at: usize,
) -> Result<(VariableTrees, usize), Stop>
    ensures { Gives result (over_bounds spec.next_variable tokens.now bounds found (text_of tokens.now) at) }
{
    let at = word(tokens, at, Terminal::Comma)?;
    let (next, at) = variable(alloc, tokens, bounds, at)?;
    found.push(next)?;
    Ok((found, at))
}

/// The variables after a first one, each after a comma.
fn more_variables(
    alloc: Global,
    tokens: &[Symbol],
    bounds: Bounds,
    mut found: VariableTrees,
    mut at: usize,
) -> Result<(VariableTrees, usize), Stop>
    ensures { Gives result (variables_of tokens.now bounds found (text_of tokens.now) at) }
{
    for _turn in 0..bounds.most {
        if !sees(tokens, at, Terminal::Comma) {
            return Ok((found, at));
        }
        (found, at) = next_variable(alloc, tokens, bounds, found, at)?;
    }
    if sees(tokens, at, Terminal::Comma) {
        return Err(out_of_turns());
    }
    Ok((found, at))
}

/// Variables with commas between them [JLS 8.3, 14.4], and the place after their last token. Each has its name, the brackets behind
/// the name, and its initializer, which is no higher than `bounds.room`.
///
/// # Errors
///
/// - `Syntax` at the first token with which no variables that begin so go on.
/// - `Deep` at a node of an initializer that there is no room for, and where there are more than `bounds.most` commas or pairs of brackets.
/// - `Memory` where there is no room for them.
#[tactic(auto, unfolding(crate::specs::Reading::variables))]
pub fn variables_at(
    alloc: Global,
    tokens: &[Symbol],
    bounds: Bounds,
    at: usize,
) -> Result<(VariableTrees, usize), Stop>
    ensures { Gives result (over_bounds spec.variables tokens.now bounds (text_of tokens.now) at) }
{
    let (first, at) = variable(alloc, tokens, bounds, at)?;
    let mut found = Seq::new(alloc);
    found.push(first)?;
    more_variables(alloc, tokens, bounds, found, at)
}

/// The variables of a declaration, behind the name of the first.
#[tactic(auto, unfolding(crate::specs::Reading::variables_behind))]
pub(crate) fn variables_behind(
    alloc: Global,
    tokens: &[Symbol],
    bounds: Bounds,
    start: usize,
    name: JText,
    at: usize,
) -> Result<(VariableTrees, usize), Stop>
    ensures { Gives result (over_bounds spec.variables_behind tokens.now bounds start name (text_of tokens.now) at) }
{
    let (first, at) = variable_behind(alloc, tokens, bounds, start, name, at)?;
    let mut found = Seq::new(alloc);
    found.push(first)?;
    more_variables(alloc, tokens, bounds, found, at)
}

/// The variables of a declaration with so much room below it. Each is a node above its initializer.
fn variables_below(
    alloc: Global,
    tokens: &[Symbol],
    bounds: Bounds,
    at: usize,
) -> Result<(VariableTrees, usize), Stop>
    ensures { Gives result (over_bounds spec.variables_below tokens.now bounds (text_of tokens.now) at) }
{
    if bounds.room == 0 {
        return Err(Stop::Deep(place(tokens, at)));
    }
    let below = Bounds {
        most: bounds.most,
        room: bounds.room - 1,
    };
    variables_at(alloc, tokens, below, at)
}

/// A declaration of variables without its semicolon [JLS 14.4].
#[tactic(auto, unfolding(crate::specs::Reading::declaration))]
pub(crate) fn declaration(
    alloc: Global,
    tokens: &[Symbol],
    bounds: Bounds,
    start: usize,
) -> Result<(Boxed<StmtTree>, usize), Stop>
    ensures { Gives result (over_bounds spec.declaration tokens.now bounds (text_of tokens.now) start) }
{
    let (is_final, at) = maybe_final(tokens, start);
    let (of, at) = type_at(alloc, tokens, bounds.most, at)?;
    let (variables, at) = variables_below(alloc, tokens, bounds, at)?;
    let tree = StmtTree::Local {
        at: place(tokens, start),
        is_final,
        of,
        variables,
    };
    node(alloc, tree, at)
}
