ghost use Rattle.std.specs.Prelude.{◌≡◌, ◌≤◌, length};
ghost use Rattle.bj_grammar.specs.Given.{text_of};
ghost use Rattle.bj_expr.specs.Grammar as grammar;
ghost use Rattle.bj_grammar.specs.Terminal.{among as spec_among, terminal};
ghost use Rattle.bj_line.specs.Line as spec;

use bj_base::FaultCode;
use bj_grammar::{Symbol, Terminal, among, is, peek, sees};

/// The terminal that stands so many places before, and `Other` before the first token.
pub fn back(tokens: &[Symbol], at: usize, places: usize) -> Terminal
    ensures { result ≡ spec.back (text_of tokens.now) at places }
{
    if at < places {
        return Terminal::Other;
    }
    peek(tokens, at - places)
}

/// Whether type arguments follow a `<`.
fn has_arguments(tokens: &[Symbol], at: usize) -> bool
    requires { at ≤ length tokens.now }
    ensures { result ≡ spec.has_arguments (text_of tokens.now) at }
{
    among(&[Terminal::Question, Terminal::Greater], peek(tokens, at))
        || (sees(tokens, at, Terminal::Word)
            && among(
                &[
                    Terminal::Greater,
                    Terminal::Comma,
                    Terminal::Less,
                    Terminal::ShiftRight,
                    Terminal::ShiftZero,
                ],
                peek(tokens, at + 1),
            ))
}

/// Whether a `<` stands at a place behind a type name [JLS 4.5].
fn is_generic(tokens: &[Symbol], at: usize) -> bool
    ensures { result ≡ spec.is_generic (text_of tokens.now) at }
{
    if at >= tokens.len() {
        return false;
    }
    sees(tokens, at, Terminal::Less)
        && (is(back(tokens, at, 1), Terminal::Word)
            && (is(back(tokens, at, 2), Terminal::New) || has_arguments(tokens, at + 1)))
}

/// Whether a resource of a `try` begins at a place [JLS 14.20.3].
fn is_resource(tokens: &[Symbol], at: usize) -> bool
    ensures { result ≡ spec.is_resource (text_of tokens.now) at }
{
    sees(tokens, at, Terminal::LeftParen) && is(back(tokens, at, 1), Terminal::Try)
}

/// Whether a second type of a catch follows at a place [JLS 14.20].
fn is_multi_catch(tokens: &[Symbol], at: usize) -> bool
    ensures { result ≡ spec.is_multi_catch (text_of tokens.now) at }
{
    sees(tokens, at, Terminal::Or)
        && (is(back(tokens, at, 1), Terminal::Word)
            && ((is(back(tokens, at, 2), Terminal::LeftParen)
                && is(back(tokens, at, 3), Terminal::Catch))
                || (is(back(tokens, at, 2), Terminal::Final)
                    && is(back(tokens, at, 3), Terminal::LeftParen))))
}

/// Whether a class begins at a place within a block or a line [JLS 14.3].
fn is_local_class(tokens: &[Symbol], at: usize) -> bool
    ensures { result ≡ spec.is_local_class (text_of tokens.now) at }
{
    among(&[Terminal::Class, Terminal::Interface], peek(tokens, at))
        && among(
            &[
                Terminal::Other,
                Terminal::Semicolon,
                Terminal::LeftBrace,
                Terminal::RightBrace,
                Terminal::Final,
                Terminal::Abstract,
            ],
            back(tokens, at, 1),
        )
}

/// Whether the token at a place begins what the profile leaves out of Java.
pub fn is_left_out(tokens: &[Symbol], at: usize) -> bool
    ensures { result ≡ spec.is_left_out (text_of tokens.now) at }
{
    is_generic(tokens, at)
        || (is_resource(tokens, at) || (is_multi_catch(tokens, at) || is_local_class(tokens, at)))
}

/// Whether the token at a place is the least number of a type, which stands only behind a minus [JLS 3.10.1].
pub fn is_least(tokens: &[Symbol], at: usize) -> bool
    ensures { result ≡ spec_among grammar.leasts (terminal (text_of tokens.now at)) }
{
    among(
        &[Terminal::LeastNumber, Terminal::LeastLong],
        peek(tokens, at),
    )
}

/// The code of a fault at a token that the grammar does not take: `Wide` at the least number of a type, `Profile` where the profile
/// leaves out what Java has there, and else `Syntax`.
pub fn code_at(tokens: &[Symbol], at: usize) -> FaultCode
    ensures { result ≡ spec.code_at (text_of tokens.now) at }
{
    if is_least(tokens, at) {
        return FaultCode::Wide;
    }
    if is_left_out(tokens, at) {
        return FaultCode::Profile;
    }
    FaultCode::Syntax
}
