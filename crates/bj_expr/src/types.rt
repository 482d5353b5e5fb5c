ghost use Rattle.std.specs.Prelude.{◌≡◌, IfOk};
ghost use Rattle.bj_expr.specs.Grammar as grammar;
ghost use Rattle.bj_expr.specs.Reading as spec;
ghost use Rattle.bj_grammar.specs.Given.{text_of, place_of, Gives};

use crate::sets::{begins_plain, is_primitive, type_word_at};
use bj_base::{JText, NoMemory};
use bj_expr_tree::{TypeName, TypeTree};
use bj_grammar::{Stop, Symbol, Terminal, out_of_turns, peek, place, sees, units, word};
use std::alloc::Global;

/// One pair of brackets more.
fn one_more(dims: u32) -> u32
    ensures { result ≡ grammar.one_more dims }
{
    if dims < u32::MAX { dims + 1 } else { dims }
}

/// The type that a word names.
fn type_name(terminal: Terminal, units: JText) -> TypeName
    ensures { result ≡ grammar.type_name terminal units }
{
    match terminal {
        Terminal::Int => TypeName::Int,
        Terminal::Long => TypeName::Long,
        Terminal::Boolean => TypeName::Boolean,
        Terminal::Char => TypeName::Char,
        _ => TypeName::Named(units),
    }
}

/// Whether a type is primitive, and no array.
pub fn is_plain_primitive(ty: &TypeTree) -> bool
    ensures { result ≡ grammar.is_primitive ty.now }
{
    match &ty.name {
        TypeName::Named(_) => false,
        TypeName::Int => ty.dims == 0,
        TypeName::Long => ty.dims == 0,
        TypeName::Boolean => ty.dims == 0,
        TypeName::Char => ty.dims == 0,
    }
}

/// A pair of brackets, after some.
#[tactic(auto, unfolding(crate::specs::Reading::pair))]
fn pair(tokens: &[Symbol], dims: u32, at: usize) -> Result<(u32, usize), Stop>
    ensures { Gives result (spec.pair dims (text_of tokens.now) at) }
{
    let at = word(tokens, at, Terminal::LeftBracket)?;
    let at = word(tokens, at, Terminal::RightBracket)?;
    Ok((one_more(dims), at))
}

/// The pairs of brackets after some.
pub fn pairs(
    tokens: &[Symbol],
    most: usize,
    mut dims: u32,
    mut at: usize,
) -> Result<(u32, usize), Stop>
    ensures { Gives result (spec.pairs most dims (text_of tokens.now) at) }
{
    for _turn in 0..most {
        if !sees(tokens, at, Terminal::LeftBracket) {
            return Ok((dims, at));
        }
        (dims, at) = pair(tokens, dims, at)?;
    }
    if sees(tokens, at, Terminal::LeftBracket) {
        return Err(out_of_turns());
    }
    Ok((dims, at))
}

/// How many pairs of brackets stand at a place, which may be none, and the place after them [JLS 10.2]. No type has more than
/// 4294967295.
///
/// # Errors
///
/// - `Syntax` at the token behind an opening bracket that is no closing one.
/// - `Deep` where there are more than `most` pairs.
#[tactic(auto, unfolding(crate::specs::Reading::dims))]
pub fn dims(tokens: &[Symbol], most: usize, at: usize) -> Result<(u32, usize), Stop>
    ensures { Gives result (spec.dims (place_of tokens.now) most (text_of tokens.now) at) }
{
    pairs(tokens, most, 0, at)
}

/// The type whose first token stands at a place, with so many pairs of brackets behind it.
///
/// # Errors
///
/// `NoMemory` where there is no room for its name.
pub fn element_type(
    alloc: Global,
    tokens: &[Symbol],
    at: usize,
    dims: u32,
) -> Result<TypeTree, NoMemory>
    ensures { IfOk result (λ ty. ty ≡ grammar.type_tree (place_of tokens.now at) (text_of tokens.now at) dims) }
{
    let text = units(alloc, tokens, at)?;
    Ok(TypeTree {
        at: place(tokens, at),
        name: type_name(peek(tokens, at), text),
        dims,
    })
}

/// The type at a place, and the place after its last token [JLS 4].
///
/// # Errors
///
/// - `Syntax` at the first token with which no text that begins so goes on as a type.
/// - `Deep` where it has more than `most` pairs of brackets.
/// - `Memory` where there is no room for its name.
#[tactic(auto, unfolding(crate::specs::Reading::type_at))]
pub fn type_at(
    alloc: Global,
    tokens: &[Symbol],
    most: usize,
    start: usize,
) -> Result<(TypeTree, usize), Stop>
    ensures { Gives result (spec.type_at (place_of tokens.now) most (text_of tokens.now) start) }
{
    let (_, at) = type_word_at(tokens, start)?;
    let (dims, at) = dims(tokens, most, at)?;
    let tree = element_type(alloc, tokens, start, dims)?;
    Ok((tree, at))
}

/// Whether a cast stands at a place, as the tokens there tell [JLS 15.16].
pub fn is_cast(tokens: &[Symbol], at: usize) -> bool
    ensures { result ≡ spec.is_cast (text_of tokens.now) at }
{
    if at >= tokens.len() {
        return false;
    }
    if !sees(tokens, at, Terminal::LeftParen) {
        return false;
    }
    if is_primitive(tokens, at + 1) {
        return true;
    }
    if !sees(tokens, at + 1, Terminal::Word) {
        return false;
    }
    if sees(tokens, at + 2, Terminal::RightParen) {
        return begins_plain(tokens, at + 3);
    }
    if !sees(tokens, at + 2, Terminal::LeftBracket) {
        return false;
    }
    sees(tokens, at + 3, Terminal::RightBracket)
}
