ghost use Rattle.bj_grammar.specs.Given.{text_of, Gives};
ghost use Rattle.bj_stmt.specs.Given.{over_bounds};
ghost use Rattle.bj_class.specs.Reading as spec;

use crate::bodies::maybe_body;
use crate::names::maybe_names;
use crate::parameters::formals;
use crate::prefix::Prefix;
use bj_expr::Bounds;
use bj_grammar::{Stop, Symbol, Terminal, place, word};
use bj_stmt::name_at;
use bj_tree::{MemberTree, MethodTree, NamedPlace, TypeTree};
use std::alloc::Global;

/// A method behind its name [JLS 8.4, 9.4].
#[tactic(auto, unfolding(crate::specs::Reading::method_rest))]
pub(crate) fn method_rest(
    alloc: Global,
    tokens: &[Symbol],
    bounds: Bounds,
    prefix: Prefix,
    of: Option<TypeTree>,
    name: NamedPlace,
    at: usize,
) -> Result<(MemberTree, usize), Stop>
    ensures { Gives result (over_bounds spec.method_rest tokens.now bounds prefix.start prefix.annotations prefix.modifiers of name (text_of tokens.now) at) }
{
    let (parameters, at) = formals(alloc, tokens, bounds, at)?;
    let (throws, at) = maybe_names(alloc, tokens, bounds, Terminal::Throws, at)?;
    let (body, at) = maybe_body(alloc, tokens, bounds, at)?;
    let method = MethodTree {
        at: place(tokens, prefix.start),
        annotations: prefix.annotations,
        modifiers: prefix.modifiers,
        default: None,
        result: of,
        name,
        parameters,
        throws,
        body,
    };
    Ok((MemberTree::Method(method), at))
}

/// A method whose result is `void` [JLS 8.4.5].
#[tactic(auto, unfolding(crate::specs::Reading::void_method))]
pub(crate) fn void_method(
    alloc: Global,
    tokens: &[Symbol],
    bounds: Bounds,
    prefix: Prefix,
    at: usize,
) -> Result<(MemberTree, usize), Stop>
    ensures { Gives result (over_bounds spec.void_method tokens.now bounds prefix.start prefix.annotations prefix.modifiers (text_of tokens.now) at) }
{
    let at = word(tokens, at, Terminal::Void)?;
    let (name, at) = name_at(alloc, tokens, at)?;
    method_rest(alloc, tokens, bounds, prefix, None, name, at)
}
