ghost use Rattle.std.specs.Prelude.{◌≡◌, IfOk};
ghost use Rattle.bj_code.specs.TermCode.{term_code};

use crate::depth::number;
use crate::statements::emit_stmt;
use bj_code::{CodeBody, Handlers, Instr, Instrs};
use bj_core::{NO_CLASS, Names, NoMemory, Program, Term};
use std::alloc::Global;

/// The code of a term over a program. It refuses no term.
///
/// # Errors
///
/// `NoMemory` where there is no room for the code, or where the term needs more operands or variables, or a call in it more
/// arguments, than 32 bits count.
pub fn generate_term(alloc: Global, program: &Program, term: &Term) -> Result<CodeBody, NoMemory>
    ensures { IfOk result (λ body. body ≡ term_code program.now term.now) }
{
    let mut steps = Instrs::new(alloc);
    let depth = emit_stmt(&mut steps, program, NO_CLASS, &term.body)?;
    steps.push(Instr::ReturnNothing)?;
    Ok(CodeBody {
        steps,
        handlers: Handlers::new(alloc),
        locals: number(term.scope.len())?,
        depth,
        params: Names::new(alloc),
        entry: 1,
    })
}
