ghost use Rattle.std.specs.Prelude.{◌≡◌, true, false};
ghost use Rattle.std.specs.Str.{bytes_eq};
ghost use Rattle.bj_grammar.specs.Terminal as spec;

use crate::Terminal;
use bj_token::TokenKind;

/// Whether two terminals are the same.
#[tactic(auto, unfolding(crate::specs::Terminal::same_terminal))]
pub fn is(a: Terminal, b: Terminal) -> bool
    ensures { result ≡ spec.same_terminal a b }
{
    a == b
}

/// How a keyword is spelled [JLS 3.9]; empty for another terminal.
fn keyword_spelling(terminal: Terminal) -> &'static [u8]
    ensures { result.now ≡ spec.keyword_spelling terminal }
{
    match terminal {
        Terminal::Abstract => b"abstract",
        Terminal::Boolean => b"boolean",
        Terminal::Break => b"break",
        Terminal::Case => b"case",
        Terminal::Catch => b"catch",
        Terminal::Char => b"char",
        Terminal::Class => b"class",
        Terminal::Continue => b"continue",
        Terminal::Default => b"default",
        Terminal::Do => b"do",
        Terminal::Else => b"else",
        Terminal::Extends => b"extends",
        Terminal::Final => b"final",
        Terminal::Finally => b"finally",
        Terminal::For => b"for",
        Terminal::If => b"if",
        Terminal::Implements => b"implements",
        Terminal::Import => b"import",
        Terminal::InstanceOf => b"instanceof",
        Terminal::Int => b"int",
        Terminal::Interface => b"interface",
        Terminal::Long => b"long",
        Terminal::New => b"new",
        Terminal::Private => b"private",
        Terminal::Protected => b"protected",
        Terminal::Public => b"public",
        Terminal::Return => b"return",
        Terminal::Static => b"static",
        Terminal::Super => b"super",
        Terminal::Switch => b"switch",
        Terminal::Synchronized => b"synchronized",
        Terminal::This => b"this",
        Terminal::Throw => b"throw",
        Terminal::Throws => b"throws",
        Terminal::Try => b"try",
        Terminal::Void => b"void",
        Terminal::Volatile => b"volatile",
        Terminal::While => b"while",
        Terminal::True => b"true",
        Terminal::False => b"false",
        Terminal::Null => b"null",
        _ => b"",
    }
}

/// How a sign is spelled [JLS 3.11, 3.12]; empty for another terminal.
fn sign_spelling(terminal: Terminal) -> &'static [u8]
    ensures { result.now ≡ spec.sign_spelling terminal }
{
    match terminal {
        Terminal::LeftParen => b"(",
        Terminal::RightParen => b")",
        Terminal::LeftBrace => b"{",
        Terminal::RightBrace => b"}",
        Terminal::LeftBracket => b"[",
        Terminal::RightBracket => b"]",
        Terminal::Semicolon => b";",
        Terminal::Comma => b",",
        Terminal::Dot => b".",
        Terminal::At => b"@",
        Terminal::Assign => b"=",
        Terminal::Greater => b">",
        Terminal::Less => b"<",
        Terminal::Not => b"!",
        Terminal::Complement => b"~",
        Terminal::Question => b"?",
        Terminal::Colon => b":",
        Terminal::Equal => b"==",
        Terminal::AtMost => b"<=",
        Terminal::AtLeast => b">=",
        Terminal::Unequal => b"!=",
        Terminal::Both => b"&&",
        Terminal::Either => b"||",
        Terminal::Increment => b"++",
        Terminal::Decrement => b"--",
        Terminal::Plus => b"+",
        Terminal::Minus => b"-",
        Terminal::Times => b"*",
        Terminal::Slash => b"/",
        Terminal::And => b"&",
        Terminal::Or => b"|",
        Terminal::Caret => b"^",
        Terminal::Percent => b"%",
        Terminal::ShiftLeft => b"<<",
        Terminal::ShiftRight => b">>",
        Terminal::ShiftZero => b">>>",
        Terminal::PlusAssign => b"+=",
        Terminal::MinusAssign => b"-=",
        Terminal::TimesAssign => b"*=",
        Terminal::SlashAssign => b"/=",
        Terminal::AndAssign => b"&=",
        Terminal::OrAssign => b"|=",
        Terminal::CaretAssign => b"^=",
        Terminal::PercentAssign => b"%=",
        Terminal::LeftAssign => b"<<=",
        Terminal::RightAssign => b">>=",
        Terminal::ZeroAssign => b">>>=",
        _ => b"",
    }
}

/// Whether units are those of a word.
fn is_text(units: &[u16], word: &[u8]) -> bool
    ensures { result ≡ bytes_eq units.now word.now }
{
    if units.len() != word.len() {
        return false;
    }
    for (index, unit) in units.iter().enumerate() {
        if *unit != u16::from(word[index]) {
            return false;
        }
    }
    true
}

/// Whether a number's digits, without the underscores between them, are those of a word.
fn is_number(units: &[u16], word: &[u8]) -> bool
    ensures { result ≡ bytes_eq (spec.digits units.now) word.now }
{
    let mut matched = 0;
    for unit in units {
        if *unit != 95 {
            if matched >= word.len() {
                return false;
            }
            if *unit != u16::from(word[matched]) {
                return false;
            }
            matched += 1;
        }
    }
    matched == word.len()
}

fn spelling(as_sign: bool, terminal: Terminal) -> &'static [u8]
    ensures { result.now ≡ spec.spelling as_sign terminal }
{
    if as_sign {
        return sign_spelling(terminal);
    }
    keyword_spelling(terminal)
}

/// The first of the terminals that is spelled so.
fn spelled(as_sign: bool, candidates: &[Terminal], units: &[u16]) -> Terminal
    ensures { result ≡ spec.spelled as_sign candidates.now units.now }
{
    for candidate in candidates {
        if is_text(units, spelling(as_sign, *candidate)) {
            return *candidate;
        }
    }
    Terminal::Other
}

/// The keyword that is spelled so.
fn keyword(units: &[u16]) -> Terminal
    ensures { result ≡ spec.spelled false spec.keywords units.now }
{
    spelled(
        false,
        &[
            Terminal::Abstract,
            Terminal::Boolean,
            Terminal::Break,
            Terminal::Case,
            Terminal::Catch,
            Terminal::Char,
            Terminal::Class,
            Terminal::Continue,
            Terminal::Default,
            Terminal::Do,
            Terminal::Else,
            Terminal::Extends,
            Terminal::Final,
            Terminal::Finally,
            Terminal::For,
            Terminal::If,
            Terminal::Implements,
            Terminal::Import,
            Terminal::InstanceOf,
            Terminal::Int,
            Terminal::Interface,
            Terminal::Long,
            Terminal::New,
            Terminal::Private,
            Terminal::Protected,
            Terminal::Public,
            Terminal::Return,
            Terminal::Static,
            Terminal::Super,
            Terminal::Switch,
            Terminal::Synchronized,
            Terminal::This,
            Terminal::Throw,
            Terminal::Throws,
            Terminal::Try,
            Terminal::Void,
            Terminal::Volatile,
            Terminal::While,
            Terminal::True,
            Terminal::False,
            Terminal::Null,
        ],
        units,
    )
}

/// The sign that is spelled so.
fn sign(units: &[u16]) -> Terminal
    ensures { result ≡ spec.spelled true spec.signs units.now }
{
    spelled(
        true,
        &[
            Terminal::LeftParen,
            Terminal::RightParen,
            Terminal::LeftBrace,
            Terminal::RightBrace,
            Terminal::LeftBracket,
            Terminal::RightBracket,
            Terminal::Semicolon,
            Terminal::Comma,
            Terminal::Dot,
            Terminal::At,
            Terminal::Assign,
            Terminal::Greater,
            Terminal::Less,
            Terminal::Not,
            Terminal::Complement,
            Terminal::Question,
            Terminal::Colon,
            Terminal::Equal,
            Terminal::AtMost,
            Terminal::AtLeast,
            Terminal::Unequal,
            Terminal::Both,
            Terminal::Either,
            Terminal::Increment,
            Terminal::Decrement,
            Terminal::Plus,
            Terminal::Minus,
            Terminal::Times,
            Terminal::Slash,
            Terminal::And,
            Terminal::Or,
            Terminal::Caret,
            Terminal::Percent,
            Terminal::ShiftLeft,
            Terminal::ShiftRight,
            Terminal::ShiftZero,
            Terminal::PlusAssign,
            Terminal::MinusAssign,
            Terminal::TimesAssign,
            Terminal::SlashAssign,
            Terminal::AndAssign,
            Terminal::OrAssign,
            Terminal::CaretAssign,
            Terminal::PercentAssign,
            Terminal::LeftAssign,
            Terminal::RightAssign,
            Terminal::ZeroAssign,
        ],
        units,
    )
}

fn int_terminal(units: &[u16]) -> Terminal
    ensures { result ≡ spec.int_terminal units.now }
{
    if is_number(units, b"2147483648") {
        return Terminal::LeastNumber;
    }
    Terminal::Number
}

fn long_terminal(units: &[u16]) -> Terminal
    ensures { result ≡ spec.long_terminal units.now }
{
    if is_number(units, b"9223372036854775808L") {
        return Terminal::LeastLong;
    }
    if is_number(units, b"9223372036854775808l") {
        return Terminal::LeastLong;
    }
    Terminal::LongNumber
}

/// The terminal that a token is.
pub fn terminal_of(kind: TokenKind, units: &[u16]) -> Terminal
    ensures { result ≡ spec.terminal_by kind units.now }
{
    match kind {
        TokenKind::Word => Terminal::Word,
        TokenKind::Keyword => keyword(units),
        TokenKind::Number => int_terminal(units),
        TokenKind::LongNumber => long_terminal(units),
        TokenKind::CharText => Terminal::CharText,
        TokenKind::StringText => Terminal::StringText,
        TokenKind::Sign => sign(units),
    }
}
