ghost use Rattle.bj_grammar.specs.Given.{text_of, Gives};
ghost use Rattle.bj_expr.specs.Given.{part_of};

use crate::reader::Reader;
use crate::{Bounds, Part};
use bj_expr_tree::ExprTree;
use bj_grammar::{Stop, Symbol, place};
use sqlite_items::Boxed;
use std::alloc::Global;

/// The part of the text that begins at a place, by the grammar of expressions and initializers [JLS 8.3, 10.6, 15], and the place
/// after its last token. What follows the part is not looked at further than to see that it does not belong to it.
///
/// The stack that it takes grows with how deep parts nest, which is at most `bounds.room`, and not with the length of the text. Each
/// operator behind an operand looks for the nodes of the operand that there is no room for, so a node is looked at at most once for each
/// node above it.
///
/// # Errors
///
/// - `Syntax` at the first token with which no text that begins so goes on as the part.
/// - `Deep` at a node with more than `bounds.room` nodes on the way from the part's root to it, both included: at the first token of a
///   part that is nested too deep, or, where an operator comes behind an operand that there is no room for below it, at the first node in
///   the operand that is too deep.
/// - `Deep` where a list is longer than `bounds.most`.
/// - `Memory` where there is no room for the tree.
pub fn part_at(
    alloc: Global,
    tokens: &[Symbol],
    bounds: Bounds,
    at: usize,
    part: Part,
) -> Result<(Boxed<ExprTree>, usize), Stop>
    ensures { Gives result (part_of tokens.now bounds part (text_of tokens.now) at) }
{
    if bounds.room == 0 {
        return Err(Stop::Deep(place(tokens, at)));
    }
    let below = Bounds {
        most: bounds.most,
        room: bounds.room - 1,
    };
    let reader = Reader {
        alloc,
        bounds: below,
        nested: part_at,
    };
    reader.rule(tokens, at, part)
}
