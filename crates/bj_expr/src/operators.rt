ghost use Rattle.std.specs.Prelude.{◌≡◌};
ghost use Rattle.bj_expr.specs.Grammar as grammar;

use bj_expr_tree::{AssignOp, BinaryOp, LiteralKind, StepOp, UnaryOp};
use bj_grammar::Terminal;

/// The operator between two operands that a terminal is.
pub fn binary_op(terminal: Terminal) -> BinaryOp
    ensures { result ≡ grammar.binary_op terminal }
{
    match terminal {
        Terminal::Times => BinaryOp::Mul,
        Terminal::Slash => BinaryOp::Div,
        Terminal::Percent => BinaryOp::Rem,
        Terminal::Plus => BinaryOp::Add,
        Terminal::Minus => BinaryOp::Sub,
        Terminal::ShiftLeft => BinaryOp::Shl,
        Terminal::ShiftRight => BinaryOp::Shr,
        Terminal::ShiftZero => BinaryOp::Ushr,
        Terminal::Less => BinaryOp::Less,
        Terminal::AtMost => BinaryOp::AtMost,
        Terminal::Greater => BinaryOp::Greater,
        Terminal::AtLeast => BinaryOp::AtLeast,
        Terminal::Equal => BinaryOp::Equal,
        Terminal::Unequal => BinaryOp::Unequal,
        Terminal::And => BinaryOp::And,
        Terminal::Caret => BinaryOp::Xor,
        Terminal::Or => BinaryOp::Or,
        Terminal::Both => BinaryOp::Both,
        _ => BinaryOp::Either,
    }
}

/// The operator of assignment that a terminal is.
pub fn assign_op(terminal: Terminal) -> AssignOp
    ensures { result ≡ grammar.assign_op terminal }
{
    match terminal {
        Terminal::TimesAssign => AssignOp::Mul,
        Terminal::SlashAssign => AssignOp::Div,
        Terminal::PercentAssign => AssignOp::Rem,
        Terminal::PlusAssign => AssignOp::Add,
        Terminal::MinusAssign => AssignOp::Sub,
        Terminal::LeftAssign => AssignOp::Shl,
        Terminal::RightAssign => AssignOp::Shr,
        Terminal::ZeroAssign => AssignOp::Ushr,
        Terminal::AndAssign => AssignOp::And,
        Terminal::CaretAssign => AssignOp::Xor,
        Terminal::OrAssign => AssignOp::Or,
        _ => AssignOp::Plain,
    }
}

/// The operator before an operand that a terminal is, of `~` and `!`.
pub fn negation_op(terminal: Terminal) -> UnaryOp
    ensures { result ≡ grammar.negation_op terminal }
{
    match terminal {
        Terminal::Complement => UnaryOp::Complement,
        _ => UnaryOp::Not,
    }
}

/// The operator that steps a variable, of `++` and `--`.
pub fn step_op(terminal: Terminal) -> StepOp
    ensures { result ≡ grammar.step_op terminal }
{
    match terminal {
        Terminal::Increment => StepOp::Increment,
        _ => StepOp::Decrement,
    }
}

/// The kind of literal that a terminal is.
pub fn literal_kind(terminal: Terminal) -> LiteralKind
    ensures { result ≡ grammar.literal_kind terminal }
{
    match terminal {
        Terminal::Number => LiteralKind::Int,
        Terminal::LeastNumber => LiteralKind::Int,
        Terminal::LongNumber => LiteralKind::Long,
        Terminal::LeastLong => LiteralKind::Long,
        Terminal::CharText => LiteralKind::Char,
        Terminal::StringText => LiteralKind::Text,
        Terminal::True => LiteralKind::True,
        Terminal::False => LiteralKind::False,
        _ => LiteralKind::Null,
    }
}
