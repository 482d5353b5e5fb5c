ghost use Rattle.bj_grammar.specs.Given.{text_of, Gives};
ghost use Rattle.bj_stmt.specs.Given.{over_bounds};
ghost use Rattle.bj_class.specs.Reading as spec;

use crate::names::maybe_names;
use crate::parameters::formals;
use crate::prefix::Prefix;
use bj_expr::Bounds;
use bj_grammar::{Stop, Symbol, Terminal, place};
use bj_stmt::{StmtPart, name_at, stmt_at};
use bj_tree::{ConstructorTree, MemberTree};
use std::alloc::Global;

/// A constructor behind its modifiers [JLS 8.8].
#[tactic(auto, unfolding(crate::specs::Reading::constructor))]
pub(crate) fn constructor(
    alloc: Global,
    tokens: &[Symbol],
    bounds: Bounds,
    prefix: Prefix,
    at: usize,
) -> Result<(MemberTree, usize), Stop>
    ensures { Gives result (over_bounds spec.constructor tokens.now bounds prefix.start prefix.annotations prefix.modifiers (text_of tokens.now) at) }
{
    let (name, at) = name_at(alloc, tokens, at)?;
    let (parameters, at) = formals(alloc, tokens, bounds, at)?;
    let (throws, at) = maybe_names(alloc, tokens, bounds, Terminal::Throws, at)?;
    let (body, at) = stmt_at(alloc, tokens, bounds, StmtPart::ConstructorBody, at)?;
    let constructor = ConstructorTree {
        at: place(tokens, prefix.start),
        annotations: prefix.annotations,
        modifiers: prefix.modifiers,
        name,
        parameters,
        throws,
        body,
    };
    Ok((MemberTree::Constructor(constructor), at))
}
