ghost use Rattle.std.specs.Prelude.{◌≡◌};
ghost use Rattle.bj_grammar.specs.Given.{text_of};
ghost use Rattle.bj_grammar.specs.Terminal.{among as spec_among};
ghost use Rattle.bj_class.specs.Grammar as class_grammar;
ghost use Rattle.bj_parse.specs.Class as classes;
ghost use Rattle.bj_line.specs.Line as spec;

use bj_base::FaultCode;
use bj_grammar::{Symbol, Terminal, among, is, peek, sees};
use bj_line::{back, is_least, is_left_out};

/// Whether the token before a place is a modifier.
fn is_after_modifier(tokens: &[Symbol], at: usize) -> bool
    ensures { result ≡ spec_among class_grammar.modifier_words (spec.back (text_of tokens.now) at 1) }
{
    among(
        &[
            Terminal::Public,
            Terminal::Protected,
            Terminal::Private,
            Terminal::Abstract,
            Terminal::Static,
            Terminal::Final,
            Terminal::Synchronized,
            Terminal::Volatile,
        ],
        back(tokens, at, 1),
    )
}

/// Whether a class begins at a place within a class, behind modifiers or an annotation [JLS 8.5].
fn is_nested_class(tokens: &[Symbol], at: usize) -> bool
    ensures { result ≡ classes.is_nested_class (text_of tokens.now) at }
{
    among(&[Terminal::Class, Terminal::Interface], peek(tokens, at))
        && (is_after_modifier(tokens, at)
            || (is(back(tokens, at, 1), Terminal::Word) && is(back(tokens, at, 2), Terminal::At)))
}

/// Whether `default` stands at a place, and is no label [JLS 9.4].
fn is_default(tokens: &[Symbol], at: usize) -> bool
    ensures { result ≡ classes.is_default (text_of tokens.now) at }
{
    if at >= tokens.len() {
        return false;
    }
    sees(tokens, at, Terminal::Default) && !sees(tokens, at + 1, Terminal::Colon)
}

/// The code of a fault at a token that the grammar does not take within a file: as `code_at`, and `Profile` at a class within a class
/// and at `default` before a method.
pub fn member_code(tokens: &[Symbol], at: usize) -> FaultCode
    ensures { result ≡ classes.member_code (text_of tokens.now) at }
{
    if is_least(tokens, at) {
        return FaultCode::Wide;
    }
    if is_left_out(tokens, at) || (is_nested_class(tokens, at) || is_default(tokens, at)) {
        return FaultCode::Profile;
    }
    FaultCode::Syntax
}
