ghost use Rattle.std.specs.Prelude.{◌≡◌, [], ◌∷◌, ◌++◌, OnOk, IfOk};
ghost use Rattle.bj_code.specs.TermCode.{expr_code, expr_depth, return_code, return_depth, stmt_code, stmt_depth, all_code, all_depth};
ghost use Rattle.bj_eval.specs.Evaluation.{line_in};

use crate::depth::larger;
use crate::emit::emit_expr;
use bj_code::{Instr, Instrs};
use bj_core::{Expr, NO_CLASS, NoMemory, Program, Span, Stmt};

/// Adds the code of a `return`, and tells the most operands that it has at once.
fn emit_return(steps: &mut Instrs, program: &Program, value: &Option<Expr>) -> Result<u32, NoMemory>
    ensures code { OnOk result (steps.new ≡ steps.old ++ return_code program.now value.now) }
    ensures depth { IfOk result (λ d. d ≡ return_depth value.now) }
{
    match value {
        Some(value) => {
            let depth = emit_expr(steps, program, value)?;
            steps.push(Instr::ReturnValue)?;
            Ok(depth)
        }
        None => {
            steps.push(Instr::ReturnNothing)?;
            Ok(0)
        }
    }
}

/// The line of a step point: a term is one line.
fn point_line(class: u32, at: Span) -> u32
    ensures { result ≡ line_in class at }
{
    if class == NO_CLASS { 1 } else { at.line }
}

/// Adds the code of an expression statement, and tells the most operands that it has at once.
fn emit_expression(
    steps: &mut Instrs,
    program: &Program,
    line: u32,
    value: &Expr,
) -> Result<u32, NoMemory>
    ensures code { OnOk result (steps.new ≡ steps.old ++ (Instr.Point line ∷ (expr_code program.now value.now ++ Instr.Pop ∷ []))) }
    ensures depth { IfOk result (λ d. d ≡ expr_depth value.now) }
{
    steps.push(Instr::Point(line))?;
    let depth = emit_expr(steps, program, value)?;
    steps.push(Instr::Pop)?;
    Ok(depth)
}

/// Adds the code of a statement of a body of the class, and tells the most operands that it has at once.
#[cycle(statements)]
pub(crate) fn emit_stmt(
    steps: &mut Instrs,
    program: &Program,
    class: u32,
    stmt: &Stmt,
) -> Result<u32, NoMemory>
    ensures code { OnOk result (steps.new ≡ steps.old ++ stmt_code program.now class stmt.now) }
    ensures depth { IfOk result (λ d. d ≡ stmt_depth stmt.now) }
{
    match stmt {
        Stmt::Block { body, .. } => emit_all(steps, program, class, body.as_slice()),
        Stmt::Expression { at, value } => {
            emit_expression(steps, program, point_line(class, *at), value)
        }
        Stmt::Return { at, value } => {
            steps.push(Instr::Point(point_line(class, *at)))?;
            emit_return(steps, program, value)
        }
    }
}

/// Adds the code of statements, and tells the most operands that they have at once.
#[cycle(statements)]
fn emit_all(
    steps: &mut Instrs,
    program: &Program,
    class: u32,
    stmts: &[Stmt],
) -> Result<u32, NoMemory>
    ensures code { OnOk result (steps.new ≡ steps.old ++ all_code program.now class stmts.now) }
    ensures depth { IfOk result (λ d. d ≡ all_depth stmts.now) }
{
    let mut depth = 0;
    for stmt in stmts {
        depth = larger(depth, emit_stmt(steps, program, class, stmt)?);
    }
    Ok(depth)
}
