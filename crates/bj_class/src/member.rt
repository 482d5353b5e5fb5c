ghost use Rattle.bj_grammar.specs.Given.{text_of, Gives};
ghost use Rattle.bj_stmt.specs.Given.{over_bounds};
ghost use Rattle.bj_class.specs.Reading as spec;

use crate::annotations::annotations;
use crate::constructors::constructor;
use crate::fields::fields_rest;
use crate::methods::{method_rest, void_method};
use crate::modifiers::modifiers_at;
use crate::prefix::Prefix;
use crate::tokens::{is_called, is_static_block};
use bj_expr::{Bounds, type_at};
use bj_grammar::{Stop, Symbol, Terminal, place, sees, word};
use bj_stmt::{StmtPart, name_at, stmt_at};
use bj_tree::{InitializerTree, MemberTree};
use std::alloc::Global;

/// A method with a type as its result, or a declaration of fields.
#[tactic(auto, unfolding(crate::specs::Reading::typed))]
fn typed(
    alloc: Global,
    tokens: &[Symbol],
    bounds: Bounds,
    prefix: Prefix,
    at: usize,
) -> Result<(MemberTree, usize), Stop>
    ensures { Gives result (over_bounds spec.typed tokens.now bounds prefix.start prefix.annotations prefix.modifiers (text_of tokens.now) at) }
{
    let (of, at) = type_at(alloc, tokens, bounds.most, at)?;
    if is_called(tokens, at) {
        let (name, at) = name_at(alloc, tokens, at)?;
        return method_rest(alloc, tokens, bounds, prefix, Some(of), name, at);
    }
    fields_rest(alloc, tokens, bounds, prefix, of, at)
}

/// A member that may have annotations and modifiers: fields, a method or a constructor.
#[tactic(auto, unfolding(crate::specs::Reading::declared))]
fn declared(
    alloc: Global,
    tokens: &[Symbol],
    bounds: Bounds,
    start: usize,
) -> Result<(MemberTree, usize), Stop>
    ensures { Gives result (over_bounds spec.declared tokens.now bounds start (text_of tokens.now) start) }
{
    let (annotations, at) = annotations(alloc, tokens, bounds, start)?;
    let (modifiers, at) = modifiers_at(alloc, tokens, bounds, at)?;
    let prefix = Prefix {
        start,
        annotations,
        modifiers,
    };
    if sees(tokens, at, Terminal::Void) {
        return void_method(alloc, tokens, bounds, prefix, at);
    }
    if is_called(tokens, at) {
        return constructor(alloc, tokens, bounds, prefix, at);
    }
    typed(alloc, tokens, bounds, prefix, at)
}

/// The block of an initializer [JLS 8.6, 8.7].
#[tactic(auto, unfolding(crate::specs::Reading::block_member))]
fn block_member(
    alloc: Global,
    tokens: &[Symbol],
    bounds: Bounds,
    start: usize,
    is_static: bool,
    at: usize,
) -> Result<(MemberTree, usize), Stop>
    ensures { Gives result (over_bounds spec.block_member tokens.now bounds start is_static (text_of tokens.now) at) }
{
    let (body, at) = stmt_at(alloc, tokens, bounds, StmtPart::Block, at)?;
    let initializer = InitializerTree {
        at: place(tokens, start),
        is_static,
        body,
    };
    Ok((MemberTree::Initializer(initializer), at))
}

/// A member of a class or an interface [JLS 8.1.6, 9.1.4], and the place after its last token. Its bodies and initializers have at most
/// `bounds.room` nodes on the way down. Whether it may stand in a class or an interface is not asked here.
///
/// # Errors
///
/// - `Syntax` at the first token with which no member that begins so goes on.
/// - `Deep` at a node that there is no room for, and where a list is longer than `bounds.most`.
/// - `Memory` where there is no room for it.
#[tactic(auto, unfolding(crate::specs::Reading::member))]
pub fn member_at(
    alloc: Global,
    tokens: &[Symbol],
    bounds: Bounds,
    start: usize,
) -> Result<(MemberTree, usize), Stop>
    ensures { Gives result (over_bounds spec.member tokens.now bounds (text_of tokens.now) start) }
{
    if sees(tokens, start, Terminal::Semicolon) {
        let at = word(tokens, start, Terminal::Semicolon)?;
        let empty = MemberTree::Empty {
            at: place(tokens, start),
        };
        return Ok((empty, at));
    }
    if sees(tokens, start, Terminal::LeftBrace) {
        return block_member(alloc, tokens, bounds, start, false, start);
    }
    if is_static_block(tokens, start) {
        let at = word(tokens, start, Terminal::Static)?;
        return block_member(alloc, tokens, bounds, start, true, at);
    }
    declared(alloc, tokens, bounds, start)
}
