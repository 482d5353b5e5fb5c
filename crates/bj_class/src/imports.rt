ghost use Rattle.bj_grammar.specs.Given.{text_of, Gives};
ghost use Rattle.bj_class.specs.Given.{over_most};
ghost use Rattle.bj_class.specs.Reading as spec;

use crate::names::{maybe_static, one_name};
use bj_expr::Bounds;
use bj_grammar::{Stop, Symbol, Terminal, out_of_turns, place, sees, word};
use bj_stmt::name_at;
use bj_tree::{ImportTree, NamedPlaces};
use std::alloc::Global;

/// The names behind some, each after a dot, and whether `.*` ends them.
fn more_imported(
    alloc: Global,
    tokens: &[Symbol],
    bounds: Bounds,
    mut found: NamedPlaces,
    mut at: usize,
) -> Result<((NamedPlaces, bool), usize), Stop>
    ensures { Gives result (over_most spec.more_names tokens.now bounds bounds.most found (text_of tokens.now) at) }
{
    for _turn in 0..bounds.most {
        if !sees(tokens, at, Terminal::Dot) {
            return Ok(((found, false), at));
        }
        at = word(tokens, at, Terminal::Dot)?;
        if sees(tokens, at, Terminal::Times) {
            let end = word(tokens, at, Terminal::Times)?;
            return Ok(((found, true), end));
        }
        let (name, next) = name_at(alloc, tokens, at)?;
        found.push(name)?;
        at = next;
    }
    if sees(tokens, at, Terminal::Dot) {
        return Err(out_of_turns());
    }
    Ok(((found, false), at))
}

/// The names of an import, with dots between them, and whether `.*` ends them.
#[tactic(auto, unfolding(crate::specs::Reading::imported))]
fn imported(
    alloc: Global,
    tokens: &[Symbol],
    bounds: Bounds,
    at: usize,
) -> Result<((NamedPlaces, bool), usize), Stop>
    ensures { Gives result (over_most spec.imported tokens.now bounds (text_of tokens.now) at) }
{
    let (first, at) = name_at(alloc, tokens, at)?;
    let found = one_name(alloc, first)?;
    more_imported(alloc, tokens, bounds, found, at)
}

/// An import [JLS 7.5], and the place after its semicolon.
///
/// # Errors
///
/// - `Syntax` at the first token with which no import that begins so goes on.
/// - `Deep` where its name has more than `bounds.most` dots.
/// - `Memory` where there is no room for it.
#[tactic(auto, unfolding(crate::specs::Reading::import_at))]
pub fn import_at(
    alloc: Global,
    tokens: &[Symbol],
    bounds: Bounds,
    start: usize,
) -> Result<(ImportTree, usize), Stop>
    ensures { Gives result (over_most spec.import_at tokens.now bounds (text_of tokens.now) start) }
{
    let at = word(tokens, start, Terminal::Import)?;
    let (is_static, at) = maybe_static(tokens, at);
    let ((names, is_on_demand), at) = imported(alloc, tokens, bounds, at)?;
    let at = word(tokens, at, Terminal::Semicolon)?;
    let import = ImportTree {
        at: place(tokens, start),
        is_static,
        names,
        is_on_demand,
    };
    Ok((import, at))
}
