ghost use Rattle.std.specs.Prelude.{◌≡◌, [], ◌∷◌};
ghost use Rattle.bj_grammar.specs.Given.{text_of, Gives, TakesOne};
ghost use Rattle.bj_class.specs.Given.{over_most, modifiers_of};
ghost use Rattle.bj_class.specs.Grammar as grammar;
ghost use Rattle.bj_class.specs.Reading as spec;

use crate::tokens::modifies;
use bj_base::Seq;
use bj_expr::Bounds;
use bj_grammar::{Stop, Symbol, Terminal, out_of_turns, place, taken};
use bj_tree::{Modifier, ModifierKind, Modifiers};
use std::alloc::Global;

/// Which modifier a keyword is.
fn modifier_kind(terminal: Terminal) -> ModifierKind
    ensures { result ≡ grammar.modifier_kind terminal }
{
    match terminal {
        Terminal::Public => ModifierKind::Public,
        Terminal::Protected => ModifierKind::Protected,
        Terminal::Private => ModifierKind::Private,
        Terminal::Abstract => ModifierKind::Abstract,
        Terminal::Static => ModifierKind::Static,
        Terminal::Final => ModifierKind::Final,
        Terminal::Synchronized => ModifierKind::Synchronized,
        _ => ModifierKind::Volatile,
    }
}

/// The keyword of a modifier.
#[tactic(auto, unfolding(bj_grammar::specs::Terminal::same_terminal))]
fn modifier_at(tokens: &[Symbol], at: usize) -> Result<(Terminal, usize), Stop>
    ensures { TakesOne result (text_of tokens.now) at grammar.modifier_words }
{
    taken(
        tokens,
        at,
        &[
            Terminal::Public,
            Terminal::Protected,
            Terminal::Private,
            Terminal::Abstract,
            Terminal::Static,
            Terminal::Final,
            Terminal::Synchronized,
            Terminal::Volatile,
        ],
    )
}

/// A modifier, after others.
#[tactic(auto, unfolding(crate::specs::Reading::next_modifier))]
fn next_modifier(
    tokens: &[Symbol],
    bounds: Bounds,
    mut found: Modifiers,
    start: usize,
) -> Result<(Modifiers, usize), Stop>
    ensures { Gives result (over_most spec.next_modifier tokens.now bounds found (text_of tokens.now) start) }
{
    let (keyword, at) = modifier_at(tokens, start)?;
    found.push(Modifier {
        at: place(tokens, start),
        kind: modifier_kind(keyword),
    })?;
    Ok((found, at))
}

/// The modifiers after some.
fn more_modifiers(
    tokens: &[Symbol],
    bounds: Bounds,
    mut found: Modifiers,
    mut at: usize,
) -> Result<(Modifiers, usize), Stop>
    ensures { Gives result (modifiers_of tokens.now bounds found (text_of tokens.now) at) }
{
    for _turn in 0..bounds.most {
        if !modifies(tokens, at) {
            return Ok((found, at));
        }
        (found, at) = next_modifier(tokens, bounds, found, at)?;
    }
    if modifies(tokens, at) {
        return Err(out_of_turns());
    }
    Ok((found, at))
}

/// Modifiers other than `default`, which may be none [JLS 8.1.1, 8.3.1, 8.4.3], and the place after them.
///
/// # Errors
///
/// - `Deep` where they are more than `bounds.most`.
/// - `Memory` where there is no room for them.
#[tactic(auto, unfolding(crate::specs::Reading::modifiers))]
pub fn modifiers_at(
    alloc: Global,
    tokens: &[Symbol],
    bounds: Bounds,
    at: usize,
) -> Result<(Modifiers, usize), Stop>
    ensures { Gives result (over_most spec.modifiers tokens.now bounds (text_of tokens.now) at) }
{
    more_modifiers(tokens, bounds, Seq::new(alloc), at)
}
