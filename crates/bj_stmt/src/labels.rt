ghost use Rattle.bj_grammar.specs.Given.{text_of, place_of, Gives};
ghost use Rattle.bj_stmt.specs.Given.{over_bounds};
ghost use Rattle.bj_stmt.specs.Reading as spec;

use crate::nodes::node;
use crate::values::{all_values, value};
use bj_expr::Bounds;
use bj_grammar::{Stop, Symbol, Terminal, place, sees, word};
use bj_tree::StmtTree;
use sqlite_items::Boxed;
use std::alloc::Global;

/// The arguments of a call of another constructor, and its semicolon.
#[tactic(auto, unfolding(crate::specs::Reading::called))]
fn called(
    alloc: Global,
    tokens: &[Symbol],
    bounds: Bounds,
    start: usize,
    is_super: bool,
    at: usize,
) -> Result<(Boxed<StmtTree>, usize), Stop>
    ensures { Gives result (over_bounds spec.called tokens.now bounds start is_super (text_of tokens.now) at) }
{
    let at = word(tokens, at, Terminal::LeftParen)?;
    let (args, at) = all_values(alloc, tokens, bounds, at)?;
    let at = word(tokens, at, Terminal::RightParen)?;
    let at = word(tokens, at, Terminal::Semicolon)?;
    let tree = StmtTree::ConstructorCall {
        at: place(tokens, start),
        is_super,
        args,
    };
    node(alloc, tree, at)
}

/// A call of another constructor [JLS 8.8.7.1].
#[tactic(auto, unfolding(crate::specs::Reading::constructor_call))]
pub(crate) fn constructor_call(
    alloc: Global,
    tokens: &[Symbol],
    bounds: Bounds,
    start: usize,
) -> Result<(Boxed<StmtTree>, usize), Stop>
    ensures { Gives result (over_bounds spec.constructor_call tokens.now bounds (text_of tokens.now) start) }
{
    if sees(tokens, start, Terminal::This) {
        let at = word(tokens, start, Terminal::This)?;
        return called(alloc, tokens, bounds, start, false, at);
    }
    let at = word(tokens, start, Terminal::Super)?;
    called(alloc, tokens, bounds, start, true, at)
}

/// `case`, its value and the colon [JLS 14.11].
#[tactic(auto, unfolding(crate::specs::Reading::case_label))]
pub(crate) fn case_label(
    alloc: Global,
    tokens: &[Symbol],
    bounds: Bounds,
    start: usize,
    at: usize,
) -> Result<(Boxed<StmtTree>, usize), Stop>
    ensures { Gives result (over_bounds spec.case_label tokens.now bounds start (text_of tokens.now) at) }
{
    let at = word(tokens, at, Terminal::Case)?;
    let (value, at) = value(alloc, tokens, bounds, at)?;
    let at = word(tokens, at, Terminal::Colon)?;
    let tree = StmtTree::Case {
        at: place(tokens, start),
        value,
    };
    node(alloc, tree, at)
}

/// `default` and the colon [JLS 14.11].
#[tactic(auto, unfolding(crate::specs::Reading::default_label))]
pub(crate) fn default_label(
    alloc: Global,
    tokens: &[Symbol],
    bounds: Bounds,
    start: usize,
    at: usize,
) -> Result<(Boxed<StmtTree>, usize), Stop>
    ensures { Gives result (over_bounds spec.default_label tokens.now bounds start (text_of tokens.now) at) }
{
    let at = word(tokens, at, Terminal::Default)?;
    let at = word(tokens, at, Terminal::Colon)?;
    let tree = StmtTree::Default {
        at: place(tokens, start),
    };
    node(alloc, tree, at)
}

/// A label of a `switch` [JLS 14.11].
#[tactic(auto, unfolding(crate::specs::Reading::label))]
pub(crate) fn label(
    alloc: Global,
    tokens: &[Symbol],
    bounds: Bounds,
    start: usize,
) -> Result<(Boxed<StmtTree>, usize), Stop>
    ensures { Gives result (over_bounds spec.label tokens.now bounds (text_of tokens.now) start) }
{
    if sees(tokens, start, Terminal::Case) {
        return case_label(alloc, tokens, bounds, start, start);
    }
    default_label(alloc, tokens, bounds, start, start)
}
