ghost use Rattle.std.specs.Prelude.{◌≡◌, false};
ghost use Rattle.bj_grammar.specs.Given.{text_of, place_of, Gives, TakesOne};
ghost use Rattle.bj_grammar.specs.Terminal.{among as spec_among, terminal};
ghost use Rattle.bj_stmt.specs.Given.{over_bounds, over_nested};
ghost use Rattle.bj_stmt.specs.Grammar as grammar;
ghost use Rattle.bj_stmt.specs.Reading as spec;

use crate::names::name_at;
use crate::nodes::node;
use crate::values::{maybe_value, value};
use bj_base::Span;
use bj_expr::Bounds;
use bj_grammar::{Stop, Symbol, Terminal, among, peek, place, sees, taken, word};
use bj_tree::{NamedPlace, StmtTree};
use sqlite_items::Boxed;
use std::alloc::Global;

/// A `break` or `continue` with its label.
fn jump_node(terminal: Terminal, at: Span, label: Option<NamedPlace>) -> StmtTree
    ensures { result ≡ grammar.jump terminal at label }
{
    match terminal {
        Terminal::Break => StmtTree::Break { at, label },
        _ => StmtTree::Continue { at, label },
    }
}

/// Whether the token at a place is `break` or `continue`.
fn jumps(tokens: &[Symbol], at: usize) -> bool
    ensures { result ≡ spec_among grammar.jumps (terminal (text_of tokens.now at)) }
{
    among(&[Terminal::Break, Terminal::Continue], peek(tokens, at))
}

/// `break` or `continue`.
#[tactic(auto, unfolding(bj_grammar::specs::Terminal::same_terminal))]
fn jump_at(tokens: &[Symbol], at: usize) -> Result<(Terminal, usize), Stop>
    ensures { TakesOne result (text_of tokens.now) at grammar.jumps }
{
    taken(tokens, at, &[Terminal::Break, Terminal::Continue])
}

/// A name, or nothing.
#[tactic(auto, unfolding(crate::specs::Reading::maybe_name))]
fn maybe_name(
    alloc: Global,
    tokens: &[Symbol],
    bounds: Bounds,
    at: usize,
) -> Result<(Option<NamedPlace>, usize), Stop>
    ensures { Gives result (spec.maybe_name (place_of tokens.now) bounds.most (text_of tokens.now) at) }
{
    if sees(tokens, at, Terminal::Word) {
        let (name, at) = name_at(alloc, tokens, at)?;
        return Ok((Some(name), at));
    }
    Ok((None, at))
}

/// A `break` or `continue` [JLS 14.15, 14.16].
#[tactic(auto, unfolding(crate::specs::Reading::jumped))]
fn jumped(
    alloc: Global,
    tokens: &[Symbol],
    bounds: Bounds,
    start: usize,
    at: usize,
) -> Result<(Boxed<StmtTree>, usize), Stop>
    ensures { Gives result (over_nested spec.jumped tokens.now bounds start (text_of tokens.now) at) }
{
    let (found, at) = jump_at(tokens, at)?;
    let (label, at) = maybe_name(alloc, tokens, bounds, at)?;
    let at = word(tokens, at, Terminal::Semicolon)?;
    node(alloc, jump_node(found, place(tokens, start), label), at)
}

/// A `return` [JLS 14.17].
#[tactic(auto, unfolding(crate::specs::Reading::returned))]
fn returned(
    alloc: Global,
    tokens: &[Symbol],
    bounds: Bounds,
    start: usize,
    at: usize,
) -> Result<(Boxed<StmtTree>, usize), Stop>
    ensures { Gives result (over_nested spec.returned tokens.now bounds start (text_of tokens.now) at) }
{
    let at = word(tokens, at, Terminal::Return)?;
    let (value, at) = maybe_value(alloc, tokens, bounds, at)?;
    let at = word(tokens, at, Terminal::Semicolon)?;
    let tree = StmtTree::Return {
        at: place(tokens, start),
        value,
    };
    node(alloc, tree, at)
}

/// A `throw` [JLS 14.18].
#[tactic(auto, unfolding(crate::specs::Reading::thrown))]
fn thrown(
    alloc: Global,
    tokens: &[Symbol],
    bounds: Bounds,
    start: usize,
    at: usize,
) -> Result<(Boxed<StmtTree>, usize), Stop>
    ensures { Gives result (over_nested spec.thrown tokens.now bounds start (text_of tokens.now) at) }
{
    let at = word(tokens, at, Terminal::Throw)?;
    let (value, at) = value(alloc, tokens, bounds, at)?;
    let at = word(tokens, at, Terminal::Semicolon)?;
    let tree = StmtTree::Throw {
        at: place(tokens, start),
        value,
    };
    node(alloc, tree, at)
}

/// A statement that goes elsewhere.
#[tactic(auto, unfolding(crate::specs::Reading::leaving))]
pub(crate) fn leaving(
    alloc: Global,
    tokens: &[Symbol],
    bounds: Bounds,
    start: usize,
    at: usize,
) -> Result<(Boxed<StmtTree>, usize), Stop>
    ensures { Gives result (over_nested spec.leaving tokens.now bounds start (text_of tokens.now) at) }
{
    if jumps(tokens, at) {
        return jumped(alloc, tokens, bounds, start, at);
    }
    if sees(tokens, at, Terminal::Return) {
        return returned(alloc, tokens, bounds, start, at);
    }
    thrown(alloc, tokens, bounds, start, at)
}
