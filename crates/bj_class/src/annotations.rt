ghost use Rattle.bj_grammar.specs.Given.{text_of, Gives};
ghost use Rattle.bj_class.specs.Given.{over_most, annotations_of};
ghost use Rattle.bj_class.specs.Reading as spec;

use crate::tokens::spelled;
use bj_base::Seq;
use bj_expr::Bounds;
use bj_grammar::{Stop, Symbol, Terminal, out_of_turns, place, sees, word};
use bj_stmt::name_at;
use bj_tree::{AnnotationTree, AnnotationTrees, NamedPlace};
use std::alloc::Global;

/// The class for `expected`, in parentheses.
#[tactic(auto, unfolding(crate::specs::Reading::expecting))]
fn expecting(
    alloc: Global,
    tokens: &[Symbol],
    bounds: Bounds,
    at: usize,
) -> Result<(NamedPlace, usize), Stop>
    ensures { Gives result (over_most spec.expecting tokens.now bounds (text_of tokens.now) at) }
{
    let at = word(tokens, at, Terminal::LeftParen)?;
    let at = spelled(tokens, at, b"expected")?;
    let at = word(tokens, at, Terminal::Assign)?;
    let (class, at) = name_at(alloc, tokens, at)?;
    let at = word(tokens, at, Terminal::Dot)?;
    let at = word(tokens, at, Terminal::Class)?;
    let at = word(tokens, at, Terminal::RightParen)?;
    Ok((class, at))
}

/// The class for `expected` in parentheses, or nothing.
#[tactic(auto, unfolding(crate::specs::Reading::maybe_expecting))]
fn maybe_expecting(
    alloc: Global,
    tokens: &[Symbol],
    bounds: Bounds,
    at: usize,
) -> Result<(Option<NamedPlace>, usize), Stop>
    ensures { Gives result (over_most spec.maybe_expecting tokens.now bounds (text_of tokens.now) at) }
{
    if sees(tokens, at, Terminal::LeftParen) {
        let (class, at) = expecting(alloc, tokens, bounds, at)?;
        return Ok((Some(class), at));
    }
    Ok((None, at))
}

/// An annotation [JLS 9.7], and the place after its last token.
///
/// # Errors
///
/// - `Syntax` at the first token with which no annotation that begins so goes on.
/// - `Memory` where there is no room for it.
#[tactic(auto, unfolding(crate::specs::Reading::annotation))]
pub fn annotation_at(
    alloc: Global,
    tokens: &[Symbol],
    bounds: Bounds,
    start: usize,
) -> Result<(AnnotationTree, usize), Stop>
    ensures { Gives result (over_most spec.annotation tokens.now bounds (text_of tokens.now) start) }
{
    let at = word(tokens, start, Terminal::At)?;
    let (name, at) = name_at(alloc, tokens, at)?;
    let (expected, at) = maybe_expecting(alloc, tokens, bounds, at)?;
    let annotation = AnnotationTree {
        at: place(tokens, start),
        name,
        expected,
    };
    Ok((annotation, at))
}

/// An annotation, after others.
#[tactic(auto, unfolding(crate::specs::Reading::next_annotation))]
fn next_annotation(
    alloc: Global,
    tokens: &[Symbol],
    bounds: Bounds,
    mut found: AnnotationTrees,
    at: usize,
) -> Result<(AnnotationTrees, usize), Stop>
    ensures { Gives result (over_most spec.next_annotation tokens.now bounds found (text_of tokens.now) at) }
{
    let (next, at) = annotation_at(alloc, tokens, bounds, at)?;
    found.push(next)?;
    Ok((found, at))
}

/// The annotations after some.
fn more_annotations(
    alloc: Global,
    tokens: &[Symbol],
    bounds: Bounds,
    mut found: AnnotationTrees,
    mut at: usize,
) -> Result<(AnnotationTrees, usize), Stop>
    ensures { Gives result (annotations_of tokens.now bounds found (text_of tokens.now) at) }
{
    for _turn in 0..bounds.most {
        if !sees(tokens, at, Terminal::At) {
            return Ok((found, at));
        }
        (found, at) = next_annotation(alloc, tokens, bounds, found, at)?;
    }
    if sees(tokens, at, Terminal::At) {
        return Err(out_of_turns());
    }
    Ok((found, at))
}

/// Annotations; they may be none [JLS 9.7].
#[tactic(auto, unfolding(crate::specs::Reading::annotations))]
pub(crate) fn annotations(
    alloc: Global,
    tokens: &[Symbol],
    bounds: Bounds,
    at: usize,
) -> Result<(AnnotationTrees, usize), Stop>
    ensures { Gives result (over_most spec.annotations tokens.now bounds (text_of tokens.now) at) }
{
    more_annotations(alloc, tokens, bounds, Seq::new(alloc), at)
}
