ghost use Rattle.bj_grammar.specs.Given.{text_of, place_of, Gives};
ghost use Rattle.bj_stmt.specs.Given.{line_step, line_of};
ghost use Rattle.bj_stmt.specs.Reading as spec;

use crate::StmtPart;
use crate::nodes::one;
use crate::reader::Reader;
use crate::tokens::on_line;
use bj_expr::Bounds;
use bj_grammar::{Stop, Symbol, out_of_turns, place};
use bj_tree::{StmtTree, StmtTrees};
use sqlite_items::Boxed;
use std::alloc::Global;

/// A part, in which there is room for so many nodes on the way down.
fn nested(
    alloc: Global,
    tokens: &[Symbol],
    bounds: Bounds,
    at: usize,
    part: StmtPart,
) -> Result<(Boxed<StmtTree>, usize), Stop>
    ensures { Gives result (spec.nested (place_of tokens.now) bounds.most bounds.room part (text_of tokens.now) at) }
{
    if bounds.room == 0 {
        return Err(Stop::Deep(place(tokens, at)));
    }
    let reader = Reader {
        alloc,
        bounds: Bounds {
            most: bounds.most,
            room: bounds.room - 1,
        },
        nested,
    };
    reader.rule(tokens, at, part)
}

/// The part of the text that begins at a place, by the grammar of statements [JLS 14], and the place after its last token. Its tree is
/// no higher than `bounds.room`. What follows the part is not looked at further than to see that it does not belong to it.
///
/// It takes no more stack than statements nest, at most `bounds.room` deep, and what one expression takes.
///
/// # Errors
///
/// - `Syntax` at the first token with which no text that begins so goes on as the part.
/// - `Deep` at a node that there is no room for, and where a list is longer than `bounds.most`.
/// - `Memory` where there is no room for the tree.
pub fn stmt_at(
    alloc: Global,
    tokens: &[Symbol],
    bounds: Bounds,
    part: StmtPart,
    at: usize,
) -> Result<(Boxed<StmtTree>, usize), Stop>
    ensures { Gives result (spec.nested (place_of tokens.now) bounds.most bounds.room part (text_of tokens.now) at) }
{
    nested(alloc, tokens, bounds, at, part)
}

/// A statement of a line, after others.
fn next_on_line(
    alloc: Global,
    tokens: &[Symbol],
    bounds: Bounds,
    mut found: StmtTrees,
    at: usize,
) -> Result<(StmtTrees, usize), Stop>
    ensures { Gives result (line_step tokens.now bounds found (text_of tokens.now) at) }
{
    let (next, at) = nested(alloc, tokens, bounds, at, StmtPart::BlockStatement)?;
    found.push(next.into_inner())?;
    Ok((found, at))
}

/// The statements of a line behind some of them, up to the end of the text.
fn more_on_line(
    alloc: Global,
    tokens: &[Symbol],
    bounds: Bounds,
    mut found: StmtTrees,
    mut at: usize,
) -> Result<(StmtTrees, usize), Stop>
    ensures { Gives result (line_of tokens.now bounds found (text_of tokens.now) at) }
{
    for _turn in 0..bounds.most {
        if !on_line(tokens, at) {
            return Ok((found, at));
        }
        (found, at) = next_on_line(alloc, tokens, bounds, found, at)?;
    }
    if on_line(tokens, at) {
        return Err(out_of_turns());
    }
    Ok((found, at))
}

/// One statement or more, from a place up to the end of the text [JLS 14.2], and the place after their last token. None is higher
/// than `bounds.room`.
///
/// # Errors
///
/// - `Syntax` at the first token with which no statements that begin so go on.
/// - `Deep` at a node that there is no room for, and where a list is longer than `bounds.most`.
/// - `Memory` where there is no room for the trees.
#[tactic(auto, unfolding(crate::specs::Reading::statements_within))]
pub fn statements_at(
    alloc: Global,
    tokens: &[Symbol],
    bounds: Bounds,
    at: usize,
) -> Result<(StmtTrees, usize), Stop>
    ensures { Gives result (spec.statements_within (place_of tokens.now) bounds.most bounds.room (text_of tokens.now) at) }
{
    let (first, at) = nested(alloc, tokens, bounds, at, StmtPart::BlockStatement)?;
    let found = one(alloc, first)?;
    more_on_line(alloc, tokens, bounds, found, at)
}
