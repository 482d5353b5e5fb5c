ghost use Rattle.std.specs.Prelude.{◌≡◌, IfOk};

use bj_base::{Copies, JText, Name, NoMemory, Seq, Span};
use std::alloc::Global;

/// What kind of token it is [JLS 3.5].
#[derive(Clone, Copy, Debug, PartialEq, Eq)]
pub enum TokenKind {
    /// An identifier [JLS 3.8].
    Word,
    /// A keyword, `true`, `false` or `null` [JLS 3.9, 3.10.3, 3.10.7].
    Keyword,
    /// An `int` literal [JLS 3.10.1].
    Number,
    /// A `long` literal, with its suffix.
    LongNumber,
    /// A character literal [JLS 3.10.4].
    CharText,
    /// A string literal [JLS 3.10.5].
    StringText,
    /// A separator or an operator [JLS 3.11, 3.12], or `@`.
    Sign,
}

/// A token.
#[derive(Drop)]
pub struct Token {
    /// What kind it is.
    pub kind: TokenKind,
    /// Where it begins.
    pub at: Span,
    /// Its units as they stand in the text.
    pub text: JText,
}

/// The tokens of a text.
#[derive(Drop)]
pub struct Tokens {
    /// The class in whose file the text stands; empty for a console line.
    pub class: Name,
    /// The tokens, in order.
    pub items: Seq<Token>,
    /// Where the text ends.
    pub end: Span,
}

impl Copies for Token {
    fn copy(&self, alloc: Global) -> Result<Token, NoMemory> {
        Ok(Token {
            kind: self.kind,
            at: self.at,
            text: self.text.copy(alloc)?,
        })
    }
}
