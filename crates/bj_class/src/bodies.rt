ghost use Rattle.bj_grammar.specs.Given.{text_of, Gives};
ghost use Rattle.bj_stmt.specs.Given.{over_bounds};
ghost use Rattle.bj_class.specs.Reading as spec;

use bj_expr::Bounds;
use bj_grammar::{Stop, Symbol, Terminal, sees, word};
use bj_stmt::{StmtPart, stmt_at};
use bj_tree::StmtTree;
use sqlite_items::Boxed;
use std::alloc::Global;

/// The body of a method, a block, or a semicolon in its place [JLS 8.4.7].
#[tactic(auto, unfolding(crate::specs::Reading::maybe_body))]
pub(crate) fn maybe_body(
    alloc: Global,
    tokens: &[Symbol],
    bounds: Bounds,
    at: usize,
) -> Result<(Option<Boxed<StmtTree>>, usize), Stop>
    ensures { Gives result (over_bounds spec.maybe_body tokens.now bounds (text_of tokens.now) at) }
{
    if sees(tokens, at, Terminal::Semicolon) {
        let at = word(tokens, at, Terminal::Semicolon)?;
        return Ok((None, at));
    }
    let (body, at) = stmt_at(alloc, tokens, bounds, StmtPart::Block, at)?;
    Ok((Some(body), at))
}
