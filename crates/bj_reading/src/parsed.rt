ghost use Rattle.std.specs.Prelude.{◌≡◌, ◌∷◌, IfOk};
ghost use Rattle.bj_reading.specs.declared.text.JavaText.TheVariants.{Creation};
ghost use Rattle.bj_reading.specs.Reply as spec;

use crate::JavaText;
use bj_base::{NoMemory, Seq, Span};
use bj_lex::{Token, TokenKind, Tokens};
use std::alloc::Global;

/// `new` in UTF-16.
const NEW: [u16; 3] = [110, 101, 119];

/// Where the first token stands, or the end of the text where there is none.
pub fn first_place(tokens: &Tokens) -> Span
    ensures { result ≡ spec.first_place tokens.now }
{
    match tokens.items.as_slice() {
        [first, ..] => first.at,
        [] => tokens.end,
    }
}

/// Tokens behind one more.
fn behind(first: Token, tokens: Seq<Token>) -> Result<Seq<Token>, NoMemory>
    ensures { IfOk result (λ made. made ≡ first ∷ tokens) }
{
    let mut items = tokens.into_vec();
    match items.insert(0, first) {
        Ok(()) => Ok(Seq::from_vec(items)),
        Err(_) => Err(NoMemory),
    }
}

/// The keyword `new` at a place.
fn new_token(alloc: Global, at: Span) -> Result<Token, NoMemory>
    ensures { IfOk result (λ token. token ≡ spec.new_token at) }
{
    Ok(Token {
        kind: TokenKind::Keyword,
        at,
        text: Seq::from_slice(alloc, NEW.as_slice())?,
    })
}

/// Tokens with a `new` before them, where the first one stands.
fn with_new(alloc: Global, tokens: Tokens) -> Result<Tokens, NoMemory>
    ensures { IfOk result (λ made. made ≡ spec.parsed Creation tokens) }
{
    let first = new_token(alloc, first_place(&tokens))?;
    Ok(Tokens {
        class: tokens.class,
        items: behind(first, tokens.items)?,
        end: tokens.end,
    })
}

/// The tokens that are parsed.
///
/// # Errors
///
/// `NoMemory` where there is no room for the `new` before those of a creation.
pub fn parsed(alloc: Global, form: JavaText, tokens: Tokens) -> Result<Tokens, NoMemory>
    ensures { IfOk result (λ made. made ≡ spec.parsed form tokens) }
{
    match form {
        JavaText::Creation => with_new(alloc, tokens),
        _ => Ok(tokens),
    }
}
