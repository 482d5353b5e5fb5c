ghost use Rattle.std.specs.Prelude.{◌≡◌, ◌≢◌, IfOk, [], ◌∷◌};
ghost use Rattle.bj_grammar.specs.declared.terminal.Terminal.TheVariants as t;
ghost use Rattle.bj_grammar.specs.Reader.{Found};
ghost use Rattle.bj_grammar.specs.Given.{text_of, Gives};
ghost use Rattle.bj_class.specs.Given.{over_most, names_of};
ghost use Rattle.bj_class.specs.Reading as spec;

use bj_base::{NoMemory, Seq};
use bj_expr::Bounds;
use bj_grammar::{Stop, Symbol, Terminal, out_of_turns, sees, word};
use bj_stmt::name_at;
use bj_tree::{NamedPlace, NamedPlaces};
use std::alloc::Global;

/// Whether `static` stands at a place, and the place after it: the same place where it does not.
#[tactic(auto, unfolding(crate::specs::Reading::maybe_static))]
pub(crate) fn maybe_static(tokens: &[Symbol], at: usize) -> (bool, usize)
    ensures { spec.maybe_static (text_of tokens.now) at ≡ Found result.0 result.1 }
{
    match word(tokens, at, Terminal::Static) {
        Ok(next) => (true, next),
        Err(_) => (false, at),
    }
}

/// A list of one name.
pub(crate) fn one_name(alloc: Global, name: NamedPlace) -> Result<NamedPlaces, NoMemory>
    ensures { IfOk result (λ names. names ≡ name ∷ []) }
{
    let mut found = Seq::new(alloc);
    found.push(name)?;
    Ok(found)
}

/// A comma and a name, after others.
#[tactic(auto, unfolding(crate::specs::Reading::next_name))]
fn next_name(
    alloc: Global,
    tokens: &[Symbol],
    bounds: Bounds,
    mut found: NamedPlaces,
    at: usize,
) -> Result<(NamedPlaces, usize), Stop>
    ensures { Gives result (over_most spec.next_name tokens.now bounds found (text_of tokens.now) at) }
{
    let at = word(tokens, at, Terminal::Comma)?;
    let (next, at) = name_at(alloc, tokens, at)?;
    found.push(next)?;
    Ok((found, at))
}

/// The names after a first one, each after a comma.
fn more_names(
    alloc: Global,
    tokens: &[Symbol],
    bounds: Bounds,
    mut found: NamedPlaces,
    mut at: usize,
) -> Result<(NamedPlaces, usize), Stop>
    ensures { Gives result (names_of tokens.now bounds found (text_of tokens.now) at) }
{
    for _turn in 0..bounds.most {
        if !sees(tokens, at, Terminal::Comma) {
            return Ok((found, at));
        }
        (found, at) = next_name(alloc, tokens, bounds, found, at)?;
    }
    if sees(tokens, at, Terminal::Comma) {
        return Err(out_of_turns());
    }
    Ok((found, at))
}

/// Names with commas between them.
#[tactic(auto, unfolding(crate::specs::Reading::names))]
fn names(
    alloc: Global,
    tokens: &[Symbol],
    bounds: Bounds,
    at: usize,
) -> Result<(NamedPlaces, usize), Stop>
    ensures { Gives result (over_most spec.names tokens.now bounds (text_of tokens.now) at) }
{
    let (first, at) = name_at(alloc, tokens, at)?;
    let found = one_name(alloc, first)?;
    more_names(alloc, tokens, bounds, found, at)
}

/// A keyword with names after it, or nothing [JLS 8.1.5, 8.4.6, 9.1.3].
#[tactic(auto, unfolding(crate::specs::Reading::maybe_names))]
pub(crate) fn maybe_names(
    alloc: Global,
    tokens: &[Symbol],
    bounds: Bounds,
    keyword: Terminal,
    at: usize,
) -> Result<(NamedPlaces, usize), Stop>
    requires { keyword ≢ t.Other }
    ensures { Gives result (over_most spec.maybe_names tokens.now bounds keyword (text_of tokens.now) at) }
{
    if sees(tokens, at, keyword) {
        let at = word(tokens, at, keyword)?;
        return names(alloc, tokens, bounds, at);
    }
    Ok((Seq::new(alloc), at))
}
