ghost use Rattle.std.specs.Prelude.{◌≡◌};
ghost use Rattle.bj_machine.specs.Reset.{program_after, code_after};

use crate::dropped::forsake;
use bj_code::Code;
use bj_core::Program;

/// A program with its code, for a machine to load.
#[derive(Drop)]
pub struct Loaded {
    /// The program.
    pub program: Program,
    /// Its code.
    pub code: Code,
}

/// The program that a machine has once the next one is loaded, if there is one.
pub fn program_then<'a>(next: &'a Option<Loaded>, program: &'a Program) -> &'a Program
    ensures { result.now ≡ program_after next.now program.now }
{
    match next {
        None => program,
        Some(loaded) => &loaded.program,
    }
}

/// Puts the next program and its code, if there is one, in the place of those that are loaded.
pub fn load(program: &mut Program, code: &mut Code, next: Option<Loaded>)
    ensures program { program.new ≡ program_after next program.old }
    ensures code { code.new ≡ code_after next code.old }
{
    match next {
        None => {}
        Some(loaded) => {
            let Loaded {
                program: coming,
                code: generated,
            } = loaded;
            forsake(
                std::mem::replace(program, coming),
                std::mem::replace(code, generated),
            );
        }
    }
}
