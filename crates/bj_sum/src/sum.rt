ghost use Rattle.std.specs.Prelude.{◌≡◌, ◌≤◌, ◌↔◌, ℕ, List, Some, ◌<◌, IfOk, OnSome, length, max};
ghost use Rattle.bj_core.specs.declared.tree.Expr.{Expr};
ghost use Rattle.bj_sum.specs.Grammar.{negation as spec_negation, operation as spec_operation, place};
ghost use Rattle.bj_sum.specs.Lexing.{tokens_of as spec_tokens_of};
ghost use Rattle.bj_sum.specs.Reading.{text_of, operator as spec_operator, raised as spec_raised, unary_of, level_of, operations_of, closed as spec_closed, sum_of};
ghost use Rattle.bj_sum.specs.Sums.{ReadsAs, IsSum};

use crate::lex::tokens_of;
use crate::token::{Sort, Token};
use bj_core::{Const, Expr, NoMemory, Op, Span};
use sqlite_items::Boxed;
use std::alloc::Global;

/// The greatest length of a text in bytes.
pub const MAX_TEXT: usize = 65_536;

/// How many nodes there may be above a node.
const MAX_ABOVE: usize = 200;

/// A tree that stands in the tokens.
#[derive(Drop)]
struct Found {
    tree: Expr,
    /// The greatest number of nodes above one of its nodes, with parenthesized expressions as nodes.
    height: usize,
    /// The place of the token behind it.
    after: usize,
}

const END: Token = Token {
    column: 0,
    sort: Sort::End,
};

#[tactic(auto, unfolding(crate::specs::Reading::text_of))]
fn peek(tokens: &[Token], at: usize) -> Token
    ensures { result ≡ text_of tokens.now at }
{
    if at < tokens.len() { tokens[at] } else { END }
}

fn span(column: u32) -> Span
    ensures { result ≡ place column }
{
    Span { line: 1, column }
}

/// A tree with a node above parts of a height, or None where it is higher than the limit.
fn raised(limit: usize, tree: Expr, below: usize, after: usize) -> Option<Found>
    ensures { result ≡ spec_raised limit tree below after }
{
    if below < limit {
        return Some(Found {
            tree,
            height: below + 1,
            after,
        });
    }
    None
}

/// The operator of a rank that a token is: `*` for 0 [JLS 15.17], `+` and `-` for 1 [JLS 15.18.2].
fn operator(rank: u8, sort: Sort) -> Option<Op>
    ensures { result ≡ spec_operator rank sort }
{
    match sort {
        Sort::Times => {
            if rank == 0 {
                return Some(Op::Mul);
            }
            None
        }
        Sort::Plus => {
            if rank == 0 {
                return None;
            }
            Some(Op::Add)
        }
        Sort::Minus => {
            if rank == 0 {
                return None;
            }
            Some(Op::Sub)
        }
        _ => None,
    }
}

/// The operator of a rank that stands at a place.
#[tactic(auto, using(crate::proofs::Turns::no_operator_at_end))]
fn operator_at(tokens: &[Token], at: usize, rank: u8) -> Option<Op>
    ensures value { result ≡ spec_operator rank (text_of tokens.now at).sort }
    ensures within { OnSome result (at < length tokens.now) }
{
    if at >= tokens.len() {
        return None;
    }
    operator(rank, peek(tokens, at).sort)
}

fn operation(alloc: Global, column: u32, op: Op, left: Expr, right: Expr) -> Result<Expr, NoMemory>
    ensures { IfOk result (λ e. e ≡ spec_operation column op left right) }
{
    Ok(Expr::IntBinary {
        at: span(column),
        op,
        left: Boxed::new(alloc, left)?,
        right: Boxed::new(alloc, right)?,
    })
}

fn negation(alloc: Global, column: u32, operand: Expr) -> Result<Expr, NoMemory>
    ensures { IfOk result (λ e. e ≡ spec_negation column operand) }
{
    Ok(Expr::IntNegate {
        at: span(column),
        operand: Boxed::new(alloc, operand)?,
    })
}

fn larger(left: usize, right: usize) -> usize
    ensures { result ≡ max left right }
{
    if left < right { right } else { left }
}

/// An expression with the operators of the ranks below, whose operands are unary expressions.
#[cycle(level)]
fn level(
    alloc: Global,
    tokens: &[Token],
    limit: usize,
    rank: u8,
    at: usize,
) -> Result<Option<Found>, NoMemory>
    ensures { IfOk result (λ found. found ≡ level_of (text_of tokens.now) limit rank at) }
{
    if rank == 0 {
        return unary(alloc, tokens, limit, at);
    }
    let Some(left) = level(alloc, tokens, limit, rank - 1, at)? else {
        return Ok(None);
    };
    operations(
        alloc,
        tokens,
        limit,
        rank - 1,
        peek(tokens, at).column,
        left,
    )
}

/// Goes on behind a first operand with the operators of a rank, from the left.
#[cycle(level)]
fn operations(
    alloc: Global,
    tokens: &[Token],
    limit: usize,
    rank: u8,
    column: u32,
    mut left: Found,
) -> Result<Option<Found>, NoMemory>
    ensures { IfOk result (λ found. found ≡ operations_of (text_of tokens.now) limit rank column limit left) }
{
    // Each turn makes the tree higher, so that none has more turns than the limit.
    for _turn in 0..limit {
        let Some(op) = operator_at(tokens, left.after, rank) else {
            return Ok(Some(left));
        };
        let Some(right) = level(alloc, tokens, limit, rank, left.after + 1)? else {
            return Ok(None);
        };
        let below = larger(left.height, right.height);
        let tree = operation(alloc, column, op, left.tree, right.tree)?;
        let Some(joined) = raised(limit, tree, below, right.after) else {
            return Ok(None);
        };
        left = joined;
    }
    match operator_at(tokens, left.after, rank) {
        Some(_) => Ok(None),
        None => Ok(Some(left)),
    }
}

/// A literal, a negation, or an expression in parentheses [JLS 15.8.1, 15.8.5, 15.15.4].
#[cycle(level)]
fn unary(
    alloc: Global,
    tokens: &[Token],
    limit: usize,
    at: usize,
) -> Result<Option<Found>, NoMemory>
    ensures { IfOk result (λ found. found ≡ unary_of (text_of tokens.now) limit at) }
{
    if at >= tokens.len() {
        return Ok(None);
    }
    let token = peek(tokens, at);
    match token.sort {
        Sort::Literal(value) => Ok(Some(Found {
            tree: Expr::Const {
                at: span(token.column),
                value: Const::Int(value),
            },
            height: 0,
            after: at + 1,
        })),
        Sort::Minus => {
            if limit == 0 {
                return Ok(None);
            }
            let Some(operand) = unary(alloc, tokens, limit - 1, at + 1)? else {
                return Ok(None);
            };
            let tree = negation(alloc, token.column, operand.tree)?;
            Ok(raised(limit, tree, operand.height, operand.after))
        }
        Sort::Open => {
            if limit == 0 {
                return Ok(None);
            }
            let Some(inner) = level(alloc, tokens, limit - 1, 2, at + 1)? else {
                return Ok(None);
            };
            Ok(closed(tokens, limit, inner))
        }
        _ => Ok(None),
    }
}

#[tactic(auto, using(crate::proofs::Turns::not_closed_at_end))]
/// What stands in parentheses, up to the one that closes them.
fn closed(tokens: &[Token], limit: usize, inner: Found) -> Option<Found>
    ensures { result ≡ spec_closed limit inner (text_of tokens.now inner.after).sort }
{
    if inner.after >= tokens.len() {
        return None;
    }
    match peek(tokens, inner.after).sort {
        Sort::Close => raised(limit, inner.tree, inner.height, inner.after + 1),
        _ => None,
    }
}

/// Reads the text of a sum: decimal `int` literals from 0 to 2147483647, `+`, `-`, `*`, unary minus, parentheses and
/// spaces [JLS 15.15.4, 15.17, 15.18.2], with at most 200 nodes above a node. None for any other text.
///
/// # Errors
///
/// `NoMemory` where there is no room for the tree.
pub fn read_sum(alloc: Global, text: &[u8]) -> Result<Option<Expr>, NoMemory>
    requires { length text.now ≤ 65536 }
    ensures { IfOk result (λ e. e ≡ sum_of text.now) }
{
    let Some(tokens) = tokens_of(alloc, text)? else {
        return Ok(None);
    };
    let tokens = tokens.as_slice();
    let Some(found) = level(alloc, tokens, MAX_ABOVE, 2, 0)? else {
        return Ok(None);
    };
    match peek(tokens, found.after).sort {
        Sort::End => Ok(Some(found.tree)),
        _ => Ok(None),
    }
}

/// What is read is what the grammar derives the text as, with at most 200 nodes above a node.
pub fn reads_the_grammar()
    ensures { (text : List ℕ) (e : Expr) → (sum_of text ≡ Some e) ↔ ReadsAs text e }
{}

/// What is read is made of constants, negations, and sums, differences and products.
pub fn sums_are_of_sums()
    ensures { (text : List ℕ) (e : Expr) → sum_of text ≡ Some e → IsSum e }
{}
