ghost use Rattle.std.specs.Prelude.{◌≡◌, ◌<◌, suc, length};
ghost use Rattle.std.specs.Str.{bytes_eq};
ghost use Rattle.bj_grammar.specs.Terminal.{among as spec_among, same_terminal, terminal};
ghost use Rattle.bj_grammar.specs.Given.{text_of};
ghost use Rattle.bj_class.specs.Given.{TakesSpelled};
ghost use Rattle.bj_class.specs.Grammar as grammar;
ghost use Rattle.bj_class.specs.Reading as spec;

use bj_grammar::{Stop, Symbol, Terminal, among, is, peek, sees};

/// Whether the token after that at a place has the terminal.
fn sees_next(tokens: &[Symbol], at: usize, wanted: Terminal) -> bool
    ensures { result ≡ same_terminal (terminal (text_of tokens.now (suc at))) wanted }
{
    if at < tokens.len() {
        return sees(tokens, at + 1, wanted);
    }
    is(Terminal::Other, wanted)
}

/// Whether a static initializer stands at a place [JLS 8.7].
pub fn is_static_block(tokens: &[Symbol], at: usize) -> bool
    ensures { result ≡ spec.is_static_block (text_of tokens.now) at }
{
    sees(tokens, at, Terminal::Static) && sees_next(tokens, at, Terminal::LeftBrace)
}

/// Whether a name with parentheses behind it stands at a place, as that of a method or a constructor does [JLS 8.4, 8.8].
pub fn is_called(tokens: &[Symbol], at: usize) -> bool
    ensures { result ≡ spec.is_called (text_of tokens.now) at }
{
    sees(tokens, at, Terminal::Word) && sees_next(tokens, at, Terminal::LeftParen)
}

/// Whether the token at a place is a modifier other than `default` [JLS 8.1.1, 8.3.1, 8.4.3].
pub fn modifies(tokens: &[Symbol], at: usize) -> bool
    ensures { result ≡ spec_among grammar.modifier_words (terminal (text_of tokens.now at)) }
{
    among(
        &[
            Terminal::Public,
            Terminal::Protected,
            Terminal::Private,
            Terminal::Abstract,
            Terminal::Static,
            Terminal::Final,
            Terminal::Synchronized,
            Terminal::Volatile,
        ],
        peek(tokens, at),
    )
}

/// Whether units are those of a word.
fn is_text(units: &[u16], word: &[u8]) -> bool
    ensures { result ≡ bytes_eq units.now word.now }
{
    if units.len() != word.len() {
        return false;
    }
    for (index, unit) in units.iter().enumerate() {
        if *unit != u16::from(word[index]) {
            return false;
        }
    }
    true
}

/// Whether the token at a place of the text is a word that is spelled so.
#[tactic(auto, unfolding(bj_grammar::specs::Given::text_of))]
fn is_spelled(tokens: &[Symbol], at: usize, word: &[u8]) -> bool
    requires { at < length tokens.now }
    ensures { result ≡ spec.is_spelled word.now (text_of tokens.now at) }
{
    sees(tokens, at, Terminal::Word) && is_text(tokens[at].text(), word)
}

/// The place after a word that is spelled so.
///
/// # Errors
///
/// `Syntax` where another token stands there.
pub fn spelled(tokens: &[Symbol], at: usize, word: &[u8]) -> Result<usize, Stop>
    ensures { TakesSpelled result (text_of tokens.now) at word.now }
{
    if at < tokens.len() {
        if is_spelled(tokens, at, word) {
            return Ok(at + 1);
        }
    }
    Err(Stop::Syntax(at))
}
