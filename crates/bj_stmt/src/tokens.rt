ghost use Rattle.std.specs.Prelude.{◌≡◌, suc};
ghost use Rattle.bj_grammar.specs.Terminal.{among as spec_among, same_terminal, terminal};
ghost use Rattle.bj_grammar.specs.Given.{text_of};
ghost use Rattle.bj_stmt.specs.Reading as spec;

use bj_expr::is_primitive;
use bj_grammar::{Symbol, Terminal, among, is, peek, sees};

/// Whether the token after that at a place has the terminal.
pub fn sees_next(tokens: &[Symbol], at: usize, wanted: Terminal) -> bool
    ensures { result ≡ same_terminal (terminal (text_of tokens.now (suc at))) wanted }
{
    if at < tokens.len() {
        return sees(tokens, at + 1, wanted);
    }
    is(Terminal::Other, wanted)
}

/// Whether the second token after that at a place has the terminal.
pub fn sees_second(tokens: &[Symbol], at: usize, wanted: Terminal) -> bool
    ensures { result ≡ same_terminal (terminal (text_of tokens.now (suc (suc at)))) wanted }
{
    if at < tokens.len() {
        return sees_next(tokens, at + 1, wanted);
    }
    is(Terminal::Other, wanted)
}

/// Whether a declaration of variables begins at a place, as the tokens there tell: `final`, a primitive type, or the name of a class
/// before a name or before brackets with nothing between them [JLS 14.4].
pub fn declares(tokens: &[Symbol], at: usize) -> bool
    ensures { result ≡ spec.declares (text_of tokens.now) at }
{
    sees(tokens, at, Terminal::Final)
        || is_primitive(tokens, at)
        || (sees(tokens, at, Terminal::Word)
            && (sees_next(tokens, at, Terminal::Word)
                || (sees_next(tokens, at, Terminal::LeftBracket)
                    && sees_second(tokens, at, Terminal::RightBracket))))
}

/// Whether a label stands at a place [JLS 14.7].
pub fn is_labelled(tokens: &[Symbol], at: usize) -> bool
    ensures { result ≡ spec.is_labelled (text_of tokens.now) at }
{
    sees(tokens, at, Terminal::Word) && sees_next(tokens, at, Terminal::Colon)
}

/// Whether the name of a class with `.class` stands at a place [JLS 15.8.2].
pub fn is_class_lock(tokens: &[Symbol], at: usize) -> bool
    ensures { result ≡ spec.is_class_lock (text_of tokens.now) at }
{
    sees(tokens, at, Terminal::Word)
        && sees_next(tokens, at, Terminal::Dot)
        && sees_second(tokens, at, Terminal::Class)
}

/// Whether a call of another constructor begins at a place [JLS 8.8.7.1].
pub fn is_constructor_call(tokens: &[Symbol], at: usize) -> bool
    ensures { result ≡ spec.is_constructor_call (text_of tokens.now) at }
{
    among(&[Terminal::This, Terminal::Super], peek(tokens, at))
        && sees_next(tokens, at, Terminal::LeftParen)
}

/// Whether the token at a place stands before the end of a block.
pub fn inside(tokens: &[Symbol], at: usize) -> bool
    ensures { result ≡ spec.inside (terminal (text_of tokens.now at)) }
{
    !sees(tokens, at, Terminal::RightBrace)
}

/// Whether the token at a place stands before the end of the text.
pub fn on_line(tokens: &[Symbol], at: usize) -> bool
    ensures { result ≡ spec.on_line (terminal (text_of tokens.now at)) }
{
    !sees(tokens, at, Terminal::Other)
}

/// Whether the token at a place begins an `if` or a `switch`.
pub fn branches(tokens: &[Symbol], at: usize) -> bool
    ensures { result ≡ spec_among spec.branch_words (terminal (text_of tokens.now at)) }
{
    among(&[Terminal::If, Terminal::Switch], peek(tokens, at))
}

/// Whether the token at a place begins a loop.
pub fn loops(tokens: &[Symbol], at: usize) -> bool
    ensures { result ≡ spec_among spec.loop_words (terminal (text_of tokens.now at)) }
{
    among(
        &[Terminal::While, Terminal::Do, Terminal::For],
        peek(tokens, at),
    )
}

/// Whether the token at a place begins a statement that goes elsewhere: `break`, `continue`, `return` or `throw`.
pub fn leaves(tokens: &[Symbol], at: usize) -> bool
    ensures { result ≡ spec_among spec.leave_words (terminal (text_of tokens.now at)) }
{
    among(
        &[
            Terminal::Break,
            Terminal::Continue,
            Terminal::Return,
            Terminal::Throw,
        ],
        peek(tokens, at),
    )
}

/// Whether the token at a place begins a `synchronized` or a `try`.
pub fn guards(tokens: &[Symbol], at: usize) -> bool
    ensures { result ≡ spec_among spec.guard_words (terminal (text_of tokens.now at)) }
{
    among(&[Terminal::Synchronized, Terminal::Try], peek(tokens, at))
}
