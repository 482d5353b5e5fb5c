ghost use Rattle.std.specs.Prelude.{◌≡◌, ◌+◌, [], ◌∷◌, ◌++◌, max, length, OnOk, IfOk};
ghost use Rattle.bj_code.specs.TermCode.{args_code, args_depth, const_code, expr_code, expr_depth, start_code};

use crate::depth::{larger, number, one_more};
use crate::names::{is_ready, start_number};
use bj_code::{Instr, Instrs};
use bj_core::{Const, Expr, NoMemory, Program, Val};

/// Adds the code of a constant, and tells that it has one operand.
fn emit_const(steps: &mut Instrs, value: &Const) -> Result<u32, NoMemory>
    ensures code { OnOk result (steps.new ≡ steps.old ++ const_code value.now) }
    ensures depth { IfOk result (λ d. d ≡ 1) }
{
    match value {
        Const::Int(n) => emit_leaf(steps, Instr::Push(Val::Int(*n))),
        Const::Long(n) => emit_leaf(steps, Instr::Push(Val::Long(*n))),
        Const::Bool(b) => emit_leaf(steps, Instr::Push(Val::Bool(*b))),
        Const::Char(unit) => emit_leaf(steps, Instr::Push(Val::Char(*unit))),
        Const::Text(_) => Ok(1),
    }
}

/// Adds the code that initializes a class before its first use [JLS 12.4.1].
fn emit_start(steps: &mut Instrs, program: &Program, class: u32) -> Result<(), NoMemory>
    ensures { OnOk result (steps.new ≡ steps.old ++ start_code program.now class) }
{
    if is_ready(program, class) {
        return Ok(());
    }
    let method = start_number(program, class)?;
    steps.push(Instr::InitBegin(class))?;
    steps.push(Instr::InvokeStart { class, method })?;
    steps.push(Instr::InitEnd(class))
}

/// Adds an instruction that leaves one operand where there was none, and tells that there is one.
fn emit_leaf(steps: &mut Instrs, instr: Instr) -> Result<u32, NoMemory>
    ensures code { OnOk result (steps.new ≡ steps.old ++ instr ∷ []) }
    ensures depth { IfOk result (λ d. d ≡ 1) }
{
    steps.push(instr)?;
    Ok(1)
}

/// Adds the code of an expression, its operands from left to right [JLS 15.7], and tells the most operands that it has at
/// once.
#[cycle(expressions)]
pub(crate) fn emit_expr(steps: &mut Instrs, program: &Program, expr: &Expr) -> Result<u32, NoMemory>
    ensures code { OnOk result (steps.new ≡ steps.old ++ expr_code program.now expr.now) }
    ensures depth { IfOk result (λ d. d ≡ expr_depth expr.now) }
{
    match expr {
        Expr::Const { value, .. } => emit_const(steps, value),
        Expr::Local { slot, .. } => emit_leaf(steps, Instr::Load(*slot)),
        Expr::This { .. } => emit_leaf(steps, Instr::This),
        Expr::IntNegate { operand, .. } => {
            emit_unary(steps, program, operand.get(), Instr::IntNegate)
        }
        Expr::IntBinary {
            op,
            left,
            right,
            ..
        } => {
            let first = emit_expr(steps, program, left.get())?;
            emit_second(steps, program, first, right.get(), Instr::IntBinary(*op))
        }
        Expr::Field { object, slot, .. } => {
            emit_unary(steps, program, object.get(), Instr::GetField(*slot))
        }
        Expr::SetField {
            object,
            slot,
            value,
            ..
        } => {
            let first = emit_expr(steps, program, object.get())?;
            emit_second(steps, program, first, value.get(), Instr::PutField(*slot))
        }
        Expr::New {
            class,
            constructor,
            args,
            ..
        } => emit_new(steps, program, *class, *constructor, args.as_slice()),
        Expr::Virtual {
            object,
            class,
            method,
            args,
            ..
        } => {
            let first = emit_expr(steps, program, object.get())?;
            emit_virtual(steps, program, first, *class, *method, args.as_slice())
        }
    }
}

/// Adds the code of an expression that has one operand.
#[cycle(expressions)]
fn emit_unary(
    steps: &mut Instrs,
    program: &Program,
    operand: &Expr,
    instr: Instr,
) -> Result<u32, NoMemory>
    ensures code { OnOk result (steps.new ≡ steps.old ++ (expr_code program.now operand.now ++ instr ∷ [])) }
    ensures depth { IfOk result (λ d. d ≡ expr_depth operand.now) }
{
    let depth = emit_expr(steps, program, operand)?;
    steps.push(instr)?;
    Ok(depth)
}

/// Adds the code of the second operand of an expression, whose first has this depth, and then its instruction.
#[cycle(expressions)]
fn emit_second(
    steps: &mut Instrs,
    program: &Program,
    first: u32,
    operand: &Expr,
    instr: Instr,
) -> Result<u32, NoMemory>
    ensures code { OnOk result (steps.new ≡ steps.old ++ (expr_code program.now operand.now ++ instr ∷ [])) }
    ensures depth { IfOk result (λ d. d ≡ max first (expr_depth operand.now + 1)) }
{
    let second = emit_expr(steps, program, operand)?;
    steps.push(instr)?;
    Ok(larger(first, one_more(second)?))
}

/// Adds the code of a new object: the class is initialized, then there is memory, then the arguments, then the constructor
/// [JLS 15.9.4].
#[cycle(expressions)]
fn emit_new(
    steps: &mut Instrs,
    program: &Program,
    class: u32,
    method: u32,
    args: &[Expr],
) -> Result<u32, NoMemory>
    ensures code { OnOk result (steps.new ≡ steps.old ++ (start_code program.now class ++ (Instr.Make class ∷ (args_code program.now args.now ++ Instr.InvokeSpecial class method (length args.now) ∷ [])))) }
    ensures depth { IfOk result (λ d. d ≡ args_depth args.now + 1) }
{
    emit_start(steps, program, class)?;
    steps.push(Instr::Make(class))?;
    let depth = emit_args(steps, program, args)?;
    let count = number(args.len())?;
    steps.push(Instr::InvokeSpecial {
        class,
        method,
        count,
    })?;
    one_more(depth)
}

/// Adds the code of a call, whose object has this depth: the arguments, and then the method [JLS 15.12.4].
#[cycle(expressions)]
fn emit_virtual(
    steps: &mut Instrs,
    program: &Program,
    first: u32,
    class: u32,
    method: u32,
    args: &[Expr],
) -> Result<u32, NoMemory>
    ensures code { OnOk result (steps.new ≡ steps.old ++ (args_code program.now args.now ++ Instr.InvokeVirtual class method (length args.now) ∷ [])) }
    ensures depth { IfOk result (λ d. d ≡ max first (args_depth args.now + 1)) }
{
    let second = emit_args(steps, program, args)?;
    let count = number(args.len())?;
    steps.push(Instr::InvokeVirtual {
        class,
        method,
        count,
    })?;
    Ok(larger(first, one_more(second)?))
}

/// Adds the code of arguments from left to right [JLS 15.7.4], and tells the most operands that they have at once: each
/// lies above the values of those before it.
#[cycle(expressions)]
fn emit_args(steps: &mut Instrs, program: &Program, args: &[Expr]) -> Result<u32, NoMemory>
    ensures code { OnOk result (steps.new ≡ steps.old ++ args_code program.now args.now) }
    ensures depth { IfOk result (λ d. d ≡ args_depth args.now) }
{
    let mut depth = 0;
    for (before, arg) in args.iter().enumerate() {
        let own = emit_expr(steps, program, arg)?;
        let Some(above) = own.checked_add(number(before)?) else {
            return Err(NoMemory);
        };
        depth = larger(depth, above);
    }
    Ok(depth)
}
