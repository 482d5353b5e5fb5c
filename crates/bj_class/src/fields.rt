ghost use Rattle.bj_grammar.specs.Given.{text_of, Gives};
ghost use Rattle.bj_stmt.specs.Given.{over_bounds};
ghost use Rattle.bj_class.specs.Reading as spec;

use crate::prefix::Prefix;
use bj_expr::Bounds;
use bj_grammar::{Stop, Symbol, Terminal, place, word};
use bj_stmt::variables_at;
use bj_tree::{FieldTree, MemberTree, TypeTree};
use std::alloc::Global;

/// A declaration of fields behind its type [JLS 8.3, 9.3].
#[tactic(auto, unfolding(crate::specs::Reading::fields_rest))]
pub(crate) fn fields_rest(
    alloc: Global,
    tokens: &[Symbol],
    bounds: Bounds,
    prefix: Prefix,
    of: TypeTree,
    at: usize,
) -> Result<(MemberTree, usize), Stop>
    ensures { Gives result (over_bounds spec.fields_rest tokens.now bounds prefix.start prefix.annotations prefix.modifiers of (text_of tokens.now) at) }
{
    let (variables, at) = variables_at(alloc, tokens, bounds, at)?;
    let at = word(tokens, at, Terminal::Semicolon)?;
    let fields = FieldTree {
        at: place(tokens, prefix.start),
        annotations: prefix.annotations,
        modifiers: prefix.modifiers,
        of,
        variables,
    };
    Ok((MemberTree::Field(fields), at))
}
