/// A terminal symbol of the grammar [JLS 2.2]: what the grammar asks of a token.
#[derive(Clone, Copy, Debug, PartialEq, Eq)]
pub enum Terminal {
    /// No token of the grammar, as past the end of the text.
    Other,
    /// An identifier [JLS 3.8].
    Word,
    /// An `int` literal [JLS 3.10.1].
    Number,
    /// 2147483648, which stands only behind a minus [JLS 3.10.1].
    LeastNumber,
    /// A `long` literal.
    LongNumber,
    /// 9223372036854775808L, which stands only behind a minus [JLS 3.10.1].
    LeastLong,
    /// A character literal [JLS 3.10.4].
    CharText,
    /// A string literal [JLS 3.10.5].
    StringText,
    /// `abstract`
    Abstract,
    /// `boolean`
    Boolean,
    /// `break`
    Break,
    /// `case`
    Case,
    /// `catch`
    Catch,
    /// `char`
    Char,
    /// `class`
    Class,
    /// `continue`
    Continue,
    /// `default`
    Default,
    /// `do`
    Do,
    /// `else`
    Else,
    /// `extends`
    Extends,
    /// `final`
    Final,
    /// `finally`
    Finally,
    /// `for`
    For,
    /// `if`
    If,
    /// `implements`
    Implements,
    /// `import`
    Import,
    /// `instanceof`
    InstanceOf,
    /// `int`
    Int,
    /// `interface`
    Interface,
    /// `long`
    Long,
    /// `new`
    New,
    /// `private`
    Private,
    /// `protected`
    Protected,
    /// `public`
    Public,
    /// `return`
    Return,
    /// `static`
    Static,
    /// `super`
    Super,
    /// `switch`
    Switch,
    /// `synchronized`
    Synchronized,
    /// `this`
    This,
    /// `throw`
    Throw,
    /// `throws`
    Throws,
    /// `try`
    Try,
    /// `void`
    Void,
    /// `volatile`
    Volatile,
    /// `while`
    While,
    /// `true`
    True,
    /// `false`
    False,
    /// `null`
    Null,
    /// `(`
    LeftParen,
    /// `)`
    RightParen,
    /// `{`
    LeftBrace,
    /// `}`
    RightBrace,
    /// `[`
    LeftBracket,
    /// `]`
    RightBracket,
    /// `;`
    Semicolon,
    /// `,`
    Comma,
    /// `.`
    Dot,
    /// `@`
    At,
    /// `=`
    Assign,
    /// `>`
    Greater,
    /// `<`
    Less,
    /// `!`
    Not,
    /// `~`
    Complement,
    /// `?`
    Question,
    /// `:`
    Colon,
    /// `==`
    Equal,
    /// `<=`
    AtMost,
    /// `>=`
    AtLeast,
    /// `!=`
    Unequal,
    /// `&&`
    Both,
    /// `||`
    Either,
    /// `++`
    Increment,
    /// `--`
    Decrement,
    /// `+`
    Plus,
    /// `-`
    Minus,
    /// `*`
    Times,
    /// `/`
    Slash,
    /// `&`
    And,
    /// `|`
    Or,
    /// `^`
    Caret,
    /// `%`
    Percent,
    /// `<<`
    ShiftLeft,
    /// `>>`
    ShiftRight,
    /// `>>>`
    ShiftZero,
    /// `+=`
    PlusAssign,
    /// `-=`
    MinusAssign,
    /// `*=`
    TimesAssign,
    /// `/=`
    SlashAssign,
    /// `&=`
    AndAssign,
    /// `|=`
    OrAssign,
    /// `^=`
    CaretAssign,
    /// `%=`
    PercentAssign,
    /// `<<=`
    LeftAssign,
    /// `>>=`
    RightAssign,
    /// `>>>=`
    ZeroAssign,
}
