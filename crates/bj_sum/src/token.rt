/// What a token is [JLS 3.5].
#[derive(Clone, Copy, Debug, PartialEq, Eq)]
pub enum Sort {
    /// The end of the text, behind its last token.
    End,
    /// A decimal `int` literal, by its value [JLS 3.10.1].
    Literal(i32),
    /// `(`
    Open,
    /// `)`
    Close,
    /// `+`
    Plus,
    /// `-`
    Minus,
    /// `*`
    Times,
}

/// A token, and where it stands.
#[derive(Clone, Copy, Debug, PartialEq, Eq)]
pub struct Token {
    /// The column of its first character, from 1.
    pub column: u32,
    /// What it is.
    pub sort: Sort,
}
