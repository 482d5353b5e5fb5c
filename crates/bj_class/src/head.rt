ghost use Rattle.bj_grammar.specs.Given.{text_of, Gives};
ghost use Rattle.bj_class.specs.Given.{over_most};
ghost use Rattle.bj_class.specs.Reading as spec;

use crate::annotations::annotations;
use crate::modifiers::modifiers_at;
use crate::names::maybe_names;
use crate::prefix::Prefix;
use bj_base::Span;
use bj_expr::Bounds;
use bj_grammar::{Stop, Symbol, Terminal, place, sees, word};
use bj_stmt::name_at;
use bj_tree::{AnnotationTrees, ClassKind, Modifiers, NamedPlace, NamedPlaces};
use std::alloc::Global;

/// What stands before the members of a class or an interface [JLS 8.1, 9.1].
#[derive(Drop)]
pub struct ClassHead {
    /// Where its first token stands.
    pub at: Span,
    /// Its annotations.
    pub annotations: AnnotationTrees,
    /// Its modifiers.
    pub modifiers: Modifiers,
    /// Whether it is a class or an interface.
    pub kind: ClassKind,
    /// Its name.
    pub name: NamedPlace,
    /// The class after a class's `extends` [JLS 8.1.4].
    pub superclass: Option<NamedPlace>,
    /// What stands after a class's `implements` or an interface's `extends` [JLS 8.1.5, 9.1.3].
    pub superinterfaces: NamedPlaces,
}

/// `extends` with a name, or nothing [JLS 8.1.4].
#[tactic(auto, unfolding(crate::specs::Reading::maybe_super))]
fn maybe_super(
    alloc: Global,
    tokens: &[Symbol],
    bounds: Bounds,
    at: usize,
) -> Result<(Option<NamedPlace>, usize), Stop>
    ensures { Gives result (over_most spec.maybe_super tokens.now bounds (text_of tokens.now) at) }
{
    if sees(tokens, at, Terminal::Extends) {
        let at = word(tokens, at, Terminal::Extends)?;
        let (name, at) = name_at(alloc, tokens, at)?;
        return Ok((Some(name), at));
    }
    Ok((None, at))
}

/// A class from the keyword `class` to its opening brace [JLS 8.1].
#[tactic(auto, unfolding(crate::specs::Reading::class_rest))]
fn class_rest(
    alloc: Global,
    tokens: &[Symbol],
    bounds: Bounds,
    prefix: Prefix,
    at: usize,
) -> Result<(ClassHead, usize), Stop>
    ensures { Gives result (over_most spec.class_rest tokens.now bounds prefix.start prefix.annotations prefix.modifiers (text_of tokens.now) at) }
{
    let at = word(tokens, at, Terminal::Class)?;
    let (name, at) = name_at(alloc, tokens, at)?;
    let (superclass, at) = maybe_super(alloc, tokens, bounds, at)?;
    let (superinterfaces, at) = maybe_names(alloc, tokens, bounds, Terminal::Implements, at)?;
    let at = word(tokens, at, Terminal::LeftBrace)?;
    let head = ClassHead {
        at: place(tokens, prefix.start),
        annotations: prefix.annotations,
        modifiers: prefix.modifiers,
        kind: ClassKind::Class,
        name,
        superclass,
        superinterfaces,
    };
    Ok((head, at))
}

/// An interface from the keyword `interface` to its opening brace [JLS 9.1].
#[tactic(auto, unfolding(crate::specs::Reading::interface_rest))]
fn interface_rest(
    alloc: Global,
    tokens: &[Symbol],
    bounds: Bounds,
    prefix: Prefix,
    at: usize,
) -> Result<(ClassHead, usize), Stop>
    ensures { Gives result (over_most spec.interface_rest tokens.now bounds prefix.start prefix.annotations prefix.modifiers (text_of tokens.now) at) }
{
    let at = word(tokens, at, Terminal::Interface)?;
    let (name, at) = name_at(alloc, tokens, at)?;
    let (superinterfaces, at) = maybe_names(alloc, tokens, bounds, Terminal::Extends, at)?;
    let at = word(tokens, at, Terminal::LeftBrace)?;
    let head = ClassHead {
        at: place(tokens, prefix.start),
        annotations: prefix.annotations,
        modifiers: prefix.modifiers,
        kind: ClassKind::Interface,
        name,
        superclass: None,
        superinterfaces,
    };
    Ok((head, at))
}

/// What stands before the members of a class or an interface [JLS 8.1, 9.1], and the place after its opening brace.
///
/// # Errors
///
/// - `Syntax` at the first token with which no class and no interface that begins so goes on.
/// - `Deep` where a list in it is longer than `bounds.most`.
/// - `Memory` where there is no room for it.
#[tactic(auto, unfolding(crate::specs::Reading::head))]
pub fn head_at(
    alloc: Global,
    tokens: &[Symbol],
    bounds: Bounds,
    start: usize,
) -> Result<(ClassHead, usize), Stop>
    ensures { Gives result (over_most spec.head tokens.now bounds (text_of tokens.now) start) }
{
    let (annotations, at) = annotations(alloc, tokens, bounds, start)?;
    let (modifiers, at) = modifiers_at(alloc, tokens, bounds, at)?;
    let prefix = Prefix {
        start,
        annotations,
        modifiers,
    };
    if sees(tokens, at, Terminal::Interface) {
        return interface_rest(alloc, tokens, bounds, prefix, at);
    }
    class_rest(alloc, tokens, bounds, prefix, at)
}
