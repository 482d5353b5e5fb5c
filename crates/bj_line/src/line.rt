ghost use Rattle.std.specs.Prelude.{◌≡◌, IfOk};
ghost use Rattle.bj_tree.specs.declared.line.LineTree.{LineTree};
ghost use Rattle.bj_grammar.specs.Given.{IsDeepAt};
ghost use Rattle.bj_grammar.specs.Reader.{Found};
ghost use Rattle.bj_line.specs.Line as spec;

use crate::Outcome;
use crate::depth::MOST_NODES;
use crate::faults::{fault, spot};
use crate::left_out::code_at;
use crate::symbols::symbols_of;
use bj_base::{FaultCode, NoMemory, Refusal, Span};
use bj_expr::{Bounds, Part, part_at};
use bj_grammar::{Stop, Symbol};
use bj_stmt::statements_at;
use bj_token::Tokens;
use bj_tree::{ExprTree, LineTree, StmtTrees};
use sqlite_items::Boxed;
use std::alloc::Global;

/// How much reading a line may take: as many steps in a loop as there are tokens, and the end.
fn line_bounds(tokens: &[Symbol]) -> Bounds
    ensures { result ≡ spec.line_bounds tokens.now }
{
    Bounds {
        most: tokens.len() + 1,
        room: MOST_NODES,
    }
}

/// What all tokens come to as an expression.
///
/// # Errors
///
/// `NoMemory` where there is no room for the tree.
fn expression_outcome(
    alloc: Global,
    tokens: &[Symbol],
) -> Result<Outcome<Boxed<ExprTree>>, NoMemory>
    ensures { IfOk result (λ x. spec.IsExpressionOutcome tokens.now x) }
{
    match part_at(alloc, tokens, line_bounds(tokens), 0, Part::Expression) {
        Ok((tree, at)) => {
            if at < tokens.len() {
                return Ok(Outcome::Stuck(at));
            }
            Ok(Outcome::Whole(tree))
        }
        Err(Stop::Syntax(at)) => Ok(Outcome::Stuck(at)),
        Err(Stop::Deep(at)) => Ok(Outcome::Deep(at)),
        Err(Stop::Memory) => Err(NoMemory),
    }
}

/// What statements that were read from the beginning up to a place come to.
fn statements_read(tokens: &[Symbol], trees: StmtTrees, at: usize) -> Outcome<StmtTrees>
    requires { spec.as_statements tokens.now ≡ Found trees at }
    ensures { spec.IsStatementsOutcome tokens.now result }
{
    if at < tokens.len() {
        return Outcome::Stuck(at);
    }
    Outcome::Whole(trees)
}

/// What all tokens come to as statements.
///
/// # Errors
///
/// `NoMemory` where there is no room for the trees.
fn statements_outcome(alloc: Global, tokens: &[Symbol]) -> Result<Outcome<StmtTrees>, NoMemory>
    ensures { IfOk result (λ x. spec.IsStatementsOutcome tokens.now x) }
{
    match statements_at(alloc, tokens, line_bounds(tokens), 0) {
        Ok((trees, at)) => Ok(statements_read(tokens, trees, at)),
        Err(Stop::Syntax(at)) => Ok(Outcome::Stuck(at)),
        Err(Stop::Deep(at)) => Ok(Outcome::Deep(at)),
        Err(Stop::Memory) => Err(NoMemory),
    }
}

/// The line where the tokens are no expression, since reading one stops at a place.
fn after_stuck(alloc: Global, tokens: &[Symbol], at: usize) -> Result<LineTree, Stop>
    requires { spec.IsStuck tokens.now (spec.as_expression tokens.now) at }
    ensures found { IfOk result (λ line. spec.IsLine tokens.now line) }
    ensures only { (line : LineTree) → spec.IsLine tokens.now line → spec.StopsWith result line }
    ensures fault { spec.StopsAt result tokens.now }
{
    match statements_outcome(alloc, tokens) {
        Ok(Outcome::Whole(trees)) => Ok(LineTree::Stmts(trees)),
        Ok(Outcome::Stuck(later)) => {
            if at < later {
                return Err(Stop::Syntax(later));
            }
            Err(Stop::Syntax(at))
        }
        Ok(Outcome::Deep(deep)) => Err(Stop::Deep(deep)),
        Err(_) => Err(Stop::Memory),
    }
}

/// The line where a node of an expression stands too deep.
fn after_deep(alloc: Global, tokens: &[Symbol], at: Span) -> Result<LineTree, Stop>
    requires { IsDeepAt at (spec.as_expression tokens.now) }
    ensures found { IfOk result (λ line. spec.IsLine tokens.now line) }
    ensures only { (line : LineTree) → spec.IsLine tokens.now line → spec.StopsWith result line }
    ensures fault { spec.StopsAt result tokens.now }
{
    match statements_outcome(alloc, tokens) {
        Ok(Outcome::Whole(trees)) => Ok(LineTree::Stmts(trees)),
        Ok(Outcome::Stuck(_)) => Err(Stop::Deep(at)),
        Ok(Outcome::Deep(_)) => Err(Stop::Deep(at)),
        Err(_) => Err(Stop::Memory),
    }
}

/// The line that all tokens are.
fn line(alloc: Global, tokens: &[Symbol]) -> Result<LineTree, Stop>
    ensures found { IfOk result (λ line. spec.IsLine tokens.now line) }
    ensures only { (line : LineTree) → spec.IsLine tokens.now line → spec.StopsWith result line }
    ensures fault { spec.StopsAt result tokens.now }
{
    match expression_outcome(alloc, tokens) {
        Ok(Outcome::Whole(tree)) => Ok(LineTree::Expr(tree)),
        Ok(Outcome::Stuck(at)) => after_stuck(alloc, tokens, at),
        Ok(Outcome::Deep(at)) => after_deep(alloc, tokens, at),
        Err(_) => Err(Stop::Memory),
    }
}

/// The refusal for a place where reading stops.
fn refused(alloc: Global, tokens: &Tokens, symbols: &[Symbol], stop: Stop) -> Refusal
    requires { symbols.now ≡ tokens.now.items }
    ensures { spec.IsRefusalOf tokens.now stop result }
{
    match stop {
        Stop::Memory => Refusal::NoMemory,
        Stop::Syntax(at) => fault(
            alloc,
            tokens,
            spot(tokens, symbols, at),
            code_at(symbols, at),
        ),
        Stop::Deep(at) => fault(alloc, tokens, at, FaultCode::Deep),
    }
}

/// The line that all tokens are, by their symbols.
fn line_by(alloc: Global, tokens: &Tokens, symbols: &[Symbol]) -> Result<LineTree, Refusal>
    requires { symbols.now ≡ tokens.now.items }
    ensures found { IfOk result (λ line. spec.IsLine tokens.now.items line) }
    ensures only { (line : LineTree) → spec.IsLine tokens.now.items line → spec.GivesLine result line }
    ensures fault { spec.FaultAt result tokens.now }
{
    match line(alloc, symbols) {
        Ok(tree) => Ok(tree),
        Err(stop) => Err(refused(alloc, tokens, symbols, stop)),
    }
}

/// The tree of a console line: an expression if all its tokens can be read as one, and else one statement or more [JLS 14, 15].
///
/// # Errors
///
/// - `Syntax` at the first token with which the tokens so far begin no line; the end counts as a token.
/// - `Wide` in its place where that token is the least number of a type and stands behind no minus.
/// - `Profile` in its place where that token begins type arguments, a resource of a `try`, a second type of a catch, or a class, which
///   Java has there and the profile leaves out.
/// - `Deep` at a node that has more than 200 nodes above it.
/// - `NoMemory` where there is no room for the tree.
pub fn line_of(alloc: Global, tokens: &Tokens) -> Result<LineTree, Refusal>
    // What is read is a line by the grammar, and not too deep.
    ensures found { IfOk result (λ line. spec.IsLine tokens.now.items line) }
    // What is a line by the grammar, and not too deep, is read as that tree.
    ensures only { (line : LineTree) → spec.IsLine tokens.now.items line → spec.GivesLine result line }
    // A fault is the first, or at a node that is too deep.
    ensures fault { spec.FaultAt result tokens.now }
{
    match symbols_of(alloc, tokens.items.as_slice()) {
        Ok(symbols) => line_by(alloc, tokens, symbols.as_slice()),
        Err(_) => Err(Refusal::NoMemory),
    }
}
