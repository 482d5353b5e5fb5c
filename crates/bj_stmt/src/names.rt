ghost use Rattle.std.specs.Prelude.{◌≡◌, ℕ};
ghost use Rattle.bj_grammar.specs.Reader.{Found};
ghost use Rattle.bj_grammar.specs.Given.{text_of, place_of, Gives};
ghost use Rattle.bj_stmt.specs.Reading as spec;

use bj_grammar::{Stop, Symbol, Terminal, place, units, word};
use bj_tree::NamedPlace;
use std::alloc::Global;

/// Whether `final` stands at a place, and the place after it: the same place where it does not.
#[tactic(auto, unfolding(crate::specs::Reading::maybe_final))]
pub fn maybe_final(tokens: &[Symbol], at: usize) -> (bool, usize)
    ensures { spec.maybe_final (text_of tokens.now) at ≡ Found result.0 result.1 }
{
    match word(tokens, at, Terminal::Final) {
        Ok(next) => (true, next),
        Err(_) => (false, at),
    }
}

/// The name at a place, and the place after it.
///
/// # Errors
///
/// - `Syntax` where no name stands there.
/// - `Memory` where there is no room for it.
#[tactic(auto, unfolding(crate::specs::Reading::name_at))]
pub fn name_at(alloc: Global, tokens: &[Symbol], start: usize) -> Result<(NamedPlace, usize), Stop>
    ensures { (most : ℕ) → Gives result (spec.name_at (place_of tokens.now) most (text_of tokens.now) start) }
{
    let at = word(tokens, start, Terminal::Word)?;
    let name = units(alloc, tokens, start)?;
    let named = NamedPlace {
        at: place(tokens, start),
        name,
    };
    Ok((named, at))
}
