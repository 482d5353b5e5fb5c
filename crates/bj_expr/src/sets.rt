ghost use Rattle.std.specs.Prelude.{◌≡◌, false};
ghost use Rattle.bj_grammar.specs.Terminal.{among as spec_among, same_terminal, terminal};
ghost use Rattle.bj_expr.specs.Grammar as grammar;
ghost use Rattle.bj_expr.specs.Reading as spec;
ghost use Rattle.bj_grammar.specs.declared.terminal.Terminal.TheVariants as t;
ghost use Rattle.bj_grammar.specs.Given.{text_of, TakesOne};

use bj_grammar::{Stop, Symbol, Terminal, among, is, peek, taken};

/// Whether the token at a place is a literal [JLS 15.8.1].
pub fn is_literal(tokens: &[Symbol], at: usize) -> bool
    ensures { result ≡ spec_among grammar.literal_words (terminal (text_of tokens.now at)) }
{
    among(
        &[
            Terminal::Number,
            Terminal::LongNumber,
            Terminal::CharText,
            Terminal::StringText,
            Terminal::True,
            Terminal::False,
            Terminal::Null,
        ],
        peek(tokens, at),
    )
}

/// Whether the token at a place is the least number of a type, which stands only behind a minus.
pub fn is_least(tokens: &[Symbol], at: usize) -> bool
    ensures { result ≡ spec_among grammar.leasts (terminal (text_of tokens.now at)) }
{
    among(
        &[Terminal::LeastNumber, Terminal::LeastLong],
        peek(tokens, at),
    )
}

/// Whether the token at a place selects something from a primary expression.
pub fn is_selector(tokens: &[Symbol], at: usize) -> bool
    ensures { result ≡ spec_among spec.selectors (terminal (text_of tokens.now at)) }
{
    among(&[Terminal::Dot, Terminal::LeftBracket], peek(tokens, at))
}

/// Whether the token at a place is `++` or `--`.
pub fn is_step(tokens: &[Symbol], at: usize) -> bool
    ensures { result ≡ spec_among grammar.step_ops (terminal (text_of tokens.now at)) }
{
    among(
        &[Terminal::Increment, Terminal::Decrement],
        peek(tokens, at),
    )
}

/// Whether the token at a place is `~` or `!`.
pub fn is_negation(tokens: &[Symbol], at: usize) -> bool
    ensures { result ≡ spec_among grammar.negations (terminal (text_of tokens.now at)) }
{
    among(&[Terminal::Complement, Terminal::Not], peek(tokens, at))
}

/// Whether the token at a place is a primitive type.
pub fn is_primitive(tokens: &[Symbol], at: usize) -> bool
    ensures { result ≡ spec_among grammar.primitives (terminal (text_of tokens.now at)) }
{
    among(
        &[
            Terminal::Int,
            Terminal::Long,
            Terminal::Boolean,
            Terminal::Char,
        ],
        peek(tokens, at),
    )
}

/// Whether the token at a place is the first of a type [JLS 4].
pub fn is_type_word(tokens: &[Symbol], at: usize) -> bool
    ensures { result ≡ spec_among grammar.type_words (terminal (text_of tokens.now at)) }
{
    among(
        &[
            Terminal::Word,
            Terminal::Int,
            Terminal::Long,
            Terminal::Boolean,
            Terminal::Char,
        ],
        peek(tokens, at),
    )
}

/// Whether the token at a place begins the operand of a cast to a class [JLS 15.16].
pub fn begins_plain(tokens: &[Symbol], at: usize) -> bool
    ensures { result ≡ spec_among spec.begins_plain (terminal (text_of tokens.now at)) }
{
    among(
        &[
            Terminal::Number,
            Terminal::LongNumber,
            Terminal::CharText,
            Terminal::StringText,
            Terminal::True,
            Terminal::False,
            Terminal::Null,
            Terminal::This,
            Terminal::LeftParen,
            Terminal::Word,
            Terminal::Super,
            Terminal::New,
            Terminal::Complement,
            Terminal::Not,
        ],
        peek(tokens, at),
    )
}

/// Whether the token at a place is an operator of assignment [JLS 15.26].
pub fn is_assign(tokens: &[Symbol], at: usize) -> bool
    ensures { result ≡ spec_among grammar.assigns (terminal (text_of tokens.now at)) }
{
    among(
        &[
            Terminal::Assign,
            Terminal::TimesAssign,
            Terminal::SlashAssign,
            Terminal::PercentAssign,
            Terminal::PlusAssign,
            Terminal::MinusAssign,
            Terminal::LeftAssign,
            Terminal::RightAssign,
            Terminal::ZeroAssign,
            Terminal::AndAssign,
            Terminal::CaretAssign,
            Terminal::OrAssign,
        ],
        peek(tokens, at),
    )
}

/// A literal.
#[tactic(auto, unfolding(bj_grammar::specs::Terminal::same_terminal))]
pub fn literal_at(tokens: &[Symbol], at: usize) -> Result<(Terminal, usize), Stop>
    ensures { TakesOne result (text_of tokens.now) at grammar.literal_words }
{
    taken(
        tokens,
        at,
        &[
            Terminal::Number,
            Terminal::LongNumber,
            Terminal::CharText,
            Terminal::StringText,
            Terminal::True,
            Terminal::False,
            Terminal::Null,
        ],
    )
}

/// The least number of a type.
#[tactic(auto, unfolding(bj_grammar::specs::Terminal::same_terminal))]
pub fn least_at(tokens: &[Symbol], at: usize) -> Result<(Terminal, usize), Stop>
    ensures { TakesOne result (text_of tokens.now) at grammar.leasts }
{
    taken(tokens, at, &[Terminal::LeastNumber, Terminal::LeastLong])
}

/// `++` or `--`.
#[tactic(auto, unfolding(bj_grammar::specs::Terminal::same_terminal))]
pub fn step_at(tokens: &[Symbol], at: usize) -> Result<(Terminal, usize), Stop>
    ensures { TakesOne result (text_of tokens.now) at grammar.step_ops }
{
    taken(tokens, at, &[Terminal::Increment, Terminal::Decrement])
}

/// `~` or `!`.
#[tactic(auto, unfolding(bj_grammar::specs::Terminal::same_terminal))]
pub fn negation_at(tokens: &[Symbol], at: usize) -> Result<(Terminal, usize), Stop>
    ensures { TakesOne result (text_of tokens.now) at grammar.negations }
{
    taken(tokens, at, &[Terminal::Complement, Terminal::Not])
}

/// The first word of a type, and the place after it.
///
/// # Errors
///
/// `Syntax` where another token stands there.
#[tactic(auto, unfolding(bj_grammar::specs::Terminal::same_terminal))]
pub fn type_word_at(tokens: &[Symbol], at: usize) -> Result<(Terminal, usize), Stop>
    ensures { TakesOne result (text_of tokens.now) at grammar.type_words }
{
    taken(
        tokens,
        at,
        &[
            Terminal::Word,
            Terminal::Int,
            Terminal::Long,
            Terminal::Boolean,
            Terminal::Char,
        ],
    )
}

/// An operator of assignment, and the place after it.
///
/// # Errors
///
/// `Syntax` where another token stands there.
#[tactic(auto, unfolding(bj_grammar::specs::Terminal::same_terminal))]
pub fn assign_at(tokens: &[Symbol], at: usize) -> Result<(Terminal, usize), Stop>
    ensures { TakesOne result (text_of tokens.now) at grammar.assigns }
{
    taken(
        tokens,
        at,
        &[
            Terminal::Assign,
            Terminal::TimesAssign,
            Terminal::SlashAssign,
            Terminal::PercentAssign,
            Terminal::PlusAssign,
            Terminal::MinusAssign,
            Terminal::LeftAssign,
            Terminal::RightAssign,
            Terminal::ZeroAssign,
            Terminal::AndAssign,
            Terminal::CaretAssign,
            Terminal::OrAssign,
        ],
    )
}

/// Whether it is an operator of the rank, from those that bind tightest.
pub fn is_op(rank: u8, terminal: Terminal) -> bool
    ensures { result ≡ spec_among (grammar.ops rank) terminal }
{
    match rank {
        0 => among(
            &[Terminal::Times, Terminal::Slash, Terminal::Percent],
            terminal,
        ),
        1 => among(&[Terminal::Plus, Terminal::Minus], terminal),
        2 => among(
            &[
                Terminal::ShiftLeft,
                Terminal::ShiftRight,
                Terminal::ShiftZero,
            ],
            terminal,
        ),
        3 => among(
            &[
                Terminal::Less,
                Terminal::AtMost,
                Terminal::Greater,
                Terminal::AtLeast,
            ],
            terminal,
        ),
        4 => among(&[Terminal::Equal, Terminal::Unequal], terminal),
        5 => among(&[Terminal::And], terminal),
        6 => among(&[Terminal::Caret], terminal),
        7 => among(&[Terminal::Or], terminal),
        8 => among(&[Terminal::Both], terminal),
        9 => among(&[Terminal::Either], terminal),
        _ => false,
    }
}

/// Whether the rank is that of the relations.
pub fn is_relational(rank: u8) -> bool
    ensures { result ≡ grammar.is_relational rank }
{
    rank == 3
}

/// Whether a token goes on with an operator of the rank.
fn goes_on_with(rank: u8, terminal: Terminal) -> bool
    ensures { result ≡ spec.goes_on rank terminal }
{
    if is_relational(rank) {
        if is(terminal, Terminal::InstanceOf) {
            return true;
        }
    }
    is_op(rank, terminal)
}

/// Whether the token at a place goes on with an operator of the rank.
pub fn goes_on(tokens: &[Symbol], at: usize, rank: u8) -> bool
    ensures { result ≡ spec.goes_on rank (terminal (text_of tokens.now at)) }
{
    goes_on_with(rank, peek(tokens, at))
}

/// An operator of the rank.
pub fn op_at(tokens: &[Symbol], at: usize, rank: u8) -> Result<(Terminal, usize), Stop>
    ensures { TakesOne result (text_of tokens.now) at (grammar.ops rank) }
{
    if at < tokens.len() {
        let found = peek(tokens, at);
        if is_op(rank, found) {
            return Ok((found, at + 1));
        }
    }
    Err(Stop::Syntax(at))
}
