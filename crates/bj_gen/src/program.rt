ghost use Rattle.std.specs.Prelude.{◌≡◌, ◌++◌, [], None, OnOk, IfOk};
ghost use Rattle.bj_core.specs.declared.program.Body.TheVariants as body_of_method;
ghost use Rattle.bj_code.specs.ProgramCode.{class_code, code_with, program_code, routine_code};
ghost use Rattle.bj_code.specs.TermCode.{all_code, all_depth};
ghost use Rattle.bj_eval.specs.Routines.{body_of, routine_with, start_of_class};

use crate::depth::{larger, number};
use crate::names::{is_constructor, line_of};
use crate::statements::emit_stmt;
use bj_code::{Bodies, ClassBodies, Code, CodeBody, Handlers, Instr, Instrs};
use bj_core::{Body, Class, Copies, Method, Names, NoMemory, Program, Stmt};
use std::alloc::Global;

/// The code of a program: that of each method of each class, and behind a class's methods that of what initializes it
/// [JLS 12.4.2]. It refuses no program.
///
/// # Errors
///
/// `NoMemory` where there is no room for the code, or where there are more classes, methods of a class, parameters,
/// arguments or operands than 32 bits count.
pub fn generate(alloc: Global, program: &Program) -> Result<Code, NoMemory>
    ensures { IfOk result (λ code. code ≡ program_code program.now) }
{
    let mut methods = Bodies::new(alloc);
    for (class, declared) in program.classes.as_slice().iter().enumerate() {
        methods.push(class_bodies(alloc, program, number(class)?, declared)?)?;
    }
    Ok(Code { methods })
}

/// The code of the methods of a class, and behind them that of what initializes it.
fn class_bodies(
    alloc: Global,
    program: &Program,
    class: u32,
    declared: &Class,
) -> Result<ClassBodies, NoMemory>
    ensures { IfOk result (λ bodies. bodies ≡ class_code program.now class declared.now) }
{
    let mut bodies = ClassBodies::new(alloc);
    for method in declared.methods.as_slice() {
        bodies.push(method_code(alloc, program, class, declared, method)?)?;
    }
    bodies.push(initialization_code(alloc, program, class, declared)?)?;
    Ok(bodies)
}

/// The code of a method, which is empty where it has no statements.
fn method_code(
    alloc: Global,
    program: &Program,
    class: u32,
    declared: &Class,
    method: &Method,
) -> Result<CodeBody, NoMemory>
    ensures { IfOk result (λ body. body ≡ code_with program.now class (routine_with declared.now method.now method.now.body)) }
{
    match &method.body {
        Body::Code(body) => statements_code(alloc, program, class, declared, method, body),
        Body::Native(_) => Ok(no_code(alloc)),
        Body::Missing => Ok(no_code(alloc)),
    }
}

/// The code of a method that is never run.
fn no_code(alloc: Global) -> CodeBody
    ensures { result ≡ code_with (record { classes = [] }) 0 None }
{
    CodeBody {
        steps: Instrs::new(alloc),
        handlers: Handlers::new(alloc),
        locals: 0,
        depth: 0,
        params: Names::new(alloc),
        entry: 0,
    }
}

/// The code of a method with statements: they stand between the step points at its entry and at its closing brace.
fn statements_code(
    alloc: Global,
    program: &Program,
    class: u32,
    declared: &Class,
    method: &Method,
    body: &Stmt,
) -> Result<CodeBody, NoMemory>
    ensures { IfOk result (λ code. code ≡ code_with program.now class (routine_with declared.now method.now (body_of_method.Code body.now))) }
{
    let mut steps = Instrs::new(alloc);
    steps.push(Instr::Point(method.at.line))?;
    let depth = emit_body(&mut steps, program, class, declared, method, body)?;
    steps.push(Instr::Point(method.end_line))?;
    steps.push(Instr::ReturnNothing)?;
    Ok(CodeBody {
        steps,
        handlers: Handlers::new(alloc),
        locals: number(method.params.len())?,
        depth,
        params: method.params.copy(alloc)?,
        entry: method.at.line,
    })
}

/// Adds the code of a method's statements, before which a constructor runs the instance initializers [JLS 12.5], and tells
/// the most operands that they have at once.
fn emit_body(
    steps: &mut Instrs,
    program: &Program,
    class: u32,
    declared: &Class,
    method: &Method,
    body: &Stmt,
) -> Result<u32, NoMemory>
    ensures code { OnOk result (steps.new ≡ steps.old ++ all_code program.now class (body_of declared.now method.now body.now)) }
    ensures depth { IfOk result (λ d. d ≡ all_depth (body_of declared.now method.now body.now)) }
{
    if !is_constructor(method) {
        return emit_stmt(steps, program, class, body);
    }
    let first = emit_stmt(steps, program, class, &declared.instance_start)?;
    let second = emit_stmt(steps, program, class, body)?;
    Ok(larger(first, second))
}

/// The code of what initializes a class: it has no step points of its own.
fn initialization_code(
    alloc: Global,
    program: &Program,
    class: u32,
    declared: &Class,
) -> Result<CodeBody, NoMemory>
    ensures { IfOk result (λ code. code ≡ routine_code program.now class (start_of_class declared.now)) }
{
    let mut steps = Instrs::new(alloc);
    let depth = emit_stmt(&mut steps, program, class, &declared.static_start)?;
    steps.push(Instr::ReturnNothing)?;
    Ok(CodeBody {
        steps,
        handlers: Handlers::new(alloc),
        locals: 0,
        depth,
        params: Names::new(alloc),
        entry: line_of(&declared.static_start),
    })
}
