ghost use Rattle.std.specs.Prelude.{◌≡◌, ◌⊎◌};
ghost use Rattle.bj_base.specs.declared.fault.Refusal.TheVariants as refusals;
ghost use Rattle.bj_line.specs.Line as spec;

use bj_base::{Copies, Fault, FaultCode, Refusal, Span};
use bj_grammar::{Symbol, place};
use bj_token::Tokens;
use std::alloc::Global;

/// A fault at a place of a text, with the class in whose file the text stands; `NoMemory` where there is no room for a copy of its name.
pub fn fault(alloc: Global, tokens: &Tokens, at: Span, code: FaultCode) -> Refusal
    ensures { (result ≡ refusals.NoMemory) ⊎ (result ≡ refusals.Fault (record { class = tokens.now.class; at = at; code = code })) }
{
    match tokens.class.copy(alloc) {
        Ok(class) => Refusal::Fault(Fault { class, at, code }),
        Err(_) => Refusal::NoMemory,
    }
}

/// Where the token at a place stands, or the text's end.
pub fn spot(tokens: &Tokens, symbols: &[Symbol], at: usize) -> Span
    requires { symbols.now ≡ tokens.now.items }
    ensures { result ≡ spec.spot tokens.now at }
{
    if at < symbols.len() {
        return place(symbols, at);
    }
    tokens.end
}
