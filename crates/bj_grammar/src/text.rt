ghost use Rattle.std.specs.Prelude.{◌≡◌, ◌≢◌, IfOk, false};
ghost use Rattle.bj_grammar.specs.Terminal.{among as spec_among, same_terminal, terminal};
ghost use Rattle.bj_grammar.specs.declared.terminal.Terminal.TheVariants as t;
ghost use Rattle.bj_grammar.specs.Given.{text_of, place_of, Takes, TakesOne};

use crate::spelling::is;
use crate::{Stop, Symbol, Terminal};
use bj_base::{JText, NoMemory, Seq, Span};
use std::alloc::Global;

/// The terminal at a place, and `Other` past the last token.
#[tactic(auto, unfolding(crate::specs::Given::text_of, crate::specs::Terminal::terminal))]
pub fn peek(tokens: &[Symbol], at: usize) -> Terminal
    ensures { result ≡ terminal (text_of tokens.now at) }
{
    if at < tokens.len() {
        return tokens[at].terminal();
    }
    Terminal::Other
}

/// Where the token at a place stands.
#[tactic(auto, unfolding(crate::specs::Given::place_of))]
pub fn place(tokens: &[Symbol], at: usize) -> Span
    ensures { result ≡ place_of tokens.now at }
{
    if at < tokens.len() {
        return tokens[at].at();
    }
    Span { line: 0, column: 0 }
}

/// The units of the token at a place.
///
/// # Errors
///
/// `NoMemory` where there is no room for them.
#[tactic(auto, unfolding(crate::specs::Given::text_of))]
pub fn units(alloc: Global, tokens: &[Symbol], at: usize) -> Result<JText, NoMemory>
    ensures { IfOk result (λ units. units ≡ (text_of tokens.now at).text) }
{
    if at < tokens.len() {
        return Seq::from_slice(alloc, tokens[at].text());
    }
    Ok(Seq::new(alloc))
}

/// Whether a terminal is among some.
pub fn among(some: &[Terminal], terminal: Terminal) -> bool
    ensures { result ≡ spec_among some.now terminal }
{
    for one in some {
        if is(terminal, *one) {
            return true;
        }
    }
    false
}

/// Whether the token at a place has the terminal.
pub fn sees(tokens: &[Symbol], at: usize, wanted: Terminal) -> bool
    ensures { result ≡ same_terminal (terminal (text_of tokens.now at)) wanted }
{
    is(peek(tokens, at), wanted)
}

/// The place after a token of the terminal.
///
/// # Errors
///
/// `Syntax` where another token stands there.
pub fn word(tokens: &[Symbol], at: usize, wanted: Terminal) -> Result<usize, Stop>
    requires { wanted ≢ t.Other }
    ensures { Takes result (text_of tokens.now) at wanted }
{
    if at < tokens.len() {
        if sees(tokens, at, wanted) {
            return Ok(at + 1);
        }
    }
    Err(Stop::Syntax(at))
}

/// The terminal of a token that is among some, and the place after it.
///
/// # Errors
///
/// `Syntax` where another token stands there.
pub fn taken(tokens: &[Symbol], at: usize, some: &[Terminal]) -> Result<(Terminal, usize), Stop>
    requires { spec_among some.now t.Other ≡ false }
    ensures { TakesOne result (text_of tokens.now) at some.now }
{
    if at < tokens.len() {
        let found = peek(tokens, at);
        if among(some, found) {
            return Ok((found, at + 1));
        }
    }
    Err(Stop::Syntax(at))
}
