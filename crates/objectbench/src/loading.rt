//! The program that a session begins with.

ghost use Rattle.std.specs.Prelude.{◌≡◌, IfOk};
ghost use Rattle.bj_code.specs.ProgramCode.{program_code};
ghost use Rattle.bj_history.specs.History.{loaded};

use bj_builtin::builtin;
use bj_core::NoMemory;
use bj_gen::generate;
use bj_machine::Loaded;
use std::alloc::Global;

/// The program that is loaded at the opening, with its code: the built-in one, until folders are read.
///
/// # Errors
///
/// `NoMemory` where there is no room for the program or its code.
pub fn load(alloc: Global) -> Result<Loaded, NoMemory>
    ensures program { IfOk result (λ l. l.program ≡ loaded) }
    ensures code { IfOk result (λ l. l.code ≡ program_code l.program) }
{
    let program = builtin(alloc)?;
    let code = generate(alloc, &program)?;
    Ok(Loaded { program, code })
}
