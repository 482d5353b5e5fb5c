ghost use Rattle.std.specs.Prelude.{◌≡◌, [], ◌∷◌, OnOk};
ghost use Rattle.bj_writer.specs.Pieces.{Mark, Wrote};
ghost use Rattle.bj_layout.specs.Exprs as spec;

use crate::tokens::{sign, spaced_sign};
use bj_base::{JText, NoMemory};
use bj_lex::TokenKind;
use bj_tree::{AssignOp, BinaryOp, LiteralKind, StepOp, UnaryOp};
use bj_writer::Writer;

/// What kind of token a literal is [JLS 15.8.1].
fn literal_token(kind: LiteralKind) -> TokenKind
    ensures { result ≡ spec.literal_token kind }
{
    match kind {
        LiteralKind::Int => TokenKind::Number,
        LiteralKind::Long => TokenKind::LongNumber,
        LiteralKind::Char => TokenKind::CharText,
        LiteralKind::Text => TokenKind::StringText,
        LiteralKind::True | LiteralKind::False | LiteralKind::Null => TokenKind::Keyword,
    }
}

/// How an operator with one operand is spelled [JLS 15.15].
fn unary_sign(op: UnaryOp) -> &'static [u8]
    ensures { result.now ≡ spec.unary_sign op }
{
    match op {
        UnaryOp::Plus => b"+",
        UnaryOp::Minus => b"-",
        UnaryOp::Complement => b"~",
        UnaryOp::Not => b"!",
    }
}

/// How an operator that steps a variable is spelled [JLS 15.14, 15.15].
fn step_sign(op: StepOp) -> &'static [u8]
    ensures { result.now ≡ spec.step_sign op }
{
    match op {
        StepOp::Increment => b"++",
        StepOp::Decrement => b"--",
    }
}

/// How an operator between two operands is spelled [JLS 15.17 to 15.24].
fn binary_sign(op: BinaryOp) -> &'static [u8]
    ensures { result.now ≡ spec.binary_sign op }
{
    match op {
        BinaryOp::Mul => b"*",
        BinaryOp::Div => b"/",
        BinaryOp::Rem => b"%",
        BinaryOp::Add => b"+",
        BinaryOp::Sub => b"-",
        BinaryOp::Shl => b"<<",
        BinaryOp::Shr => b">>",
        BinaryOp::Ushr => b">>>",
        BinaryOp::Less => b"<",
        BinaryOp::AtMost => b"<=",
        BinaryOp::Greater => b">",
        BinaryOp::AtLeast => b">=",
        BinaryOp::Equal => b"==",
        BinaryOp::Unequal => b"!=",
        BinaryOp::And => b"&",
        BinaryOp::Xor => b"^",
        BinaryOp::Or => b"|",
        BinaryOp::Both => b"&&",
        BinaryOp::Either => b"||",
    }
}

/// How an assignment operator is spelled [JLS 15.26].
fn assign_sign(op: AssignOp) -> &'static [u8]
    ensures { result.now ≡ spec.assign_sign op }
{
    match op {
        AssignOp::Plain => b"=",
        AssignOp::Mul => b"*=",
        AssignOp::Div => b"/=",
        AssignOp::Rem => b"%=",
        AssignOp::Add => b"+=",
        AssignOp::Sub => b"-=",
        AssignOp::Shl => b"<<=",
        AssignOp::Shr => b">>=",
        AssignOp::Ushr => b">>>=",
        AssignOp::And => b"&=",
        AssignOp::Xor => b"^=",
        AssignOp::Or => b"|=",
    }
}

/// Writes a literal, whose units are as they stood.
///
/// # Errors
///
/// `NoMemory` where there is no room for it.
pub(crate) fn write_literal(
    out: &mut Writer,
    kind: LiteralKind,
    text: &JText,
) -> Result<(), NoMemory>
    ensures { OnOk result (Wrote out.old out.new (Mark (spec.literal_token kind) text.now ∷ [])) }
{
    out.token(literal_token(kind), text.as_slice())
}

/// Writes an operator with one operand.
///
/// # Errors
///
/// As `write_literal`.
pub(crate) fn write_unary_sign(out: &mut Writer, op: UnaryOp) -> Result<(), NoMemory>
    ensures { OnOk result (Wrote out.old out.new (spec.sign (spec.unary_sign op) ∷ [])) }
{
    sign(out, unary_sign(op))
}

/// Writes an operator that steps a variable.
///
/// # Errors
///
/// As `write_literal`.
pub(crate) fn write_step_sign(out: &mut Writer, op: StepOp) -> Result<(), NoMemory>
    ensures { OnOk result (Wrote out.old out.new (spec.sign (spec.step_sign op) ∷ [])) }
{
    sign(out, step_sign(op))
}

/// Writes an operator between two operands, with its spaces.
///
/// # Errors
///
/// As `write_literal`.
pub(crate) fn write_binary_sign(out: &mut Writer, op: BinaryOp) -> Result<(), NoMemory>
    ensures { OnOk result (Wrote out.old out.new (spec.spaced (spec.sign (spec.binary_sign op)))) }
{
    spaced_sign(out, binary_sign(op))
}

/// Writes an assignment operator, with its spaces.
///
/// # Errors
///
/// As `write_literal`.
pub(crate) fn write_assign_sign(out: &mut Writer, op: AssignOp) -> Result<(), NoMemory>
    ensures { OnOk result (Wrote out.old out.new (spec.spaced (spec.sign (spec.assign_sign op)))) }
{
    spaced_sign(out, assign_sign(op))
}
