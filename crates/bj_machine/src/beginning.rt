ghost use Rattle.std.specs.Prelude.{◌≡◌, ◌≤◌, [], Some, None, is_some, if◌then◌else◌, true, IfOk};
ghost use Rattle.bj_code.specs.ProgramCode.{program_code};
ghost use Rattle.bj_code.specs.declared.code.Code.{Code as CodeOf};
ghost use Rattle.bj_eval.specs.Typed.{IsTyped};
ghost use Rattle.bj_exec.specs.Follows.{Follows};
ghost use Rattle.bj_store.specs.State.{with_lives};
ghost use Rattle.bj_machine.specs.World.{begun_store};
ghost use Rattle.bj_machine.specs.Reset.{CanBegin, IsPrepared, IsBeginning};

use crate::dropped::dismiss;
use bj_core::{Limits, NoMemory, Program, Term};
use bj_exec::Thread;
use bj_gen::generate_term;
use bj_store::Store;
use std::alloc::Global;

/// What a machine begins anew with: a store, and the main thread, where it has a term.
#[derive(Drop)]
pub struct Beginning {
    pub store: Store,
    pub main: Option<Thread>,
}

/// A thread that is about to begin with a term.
///
/// # Errors
///
/// `NoMemory` where there is no room for its code or its frame.
pub fn start(alloc: Global, program: &Program, frames: u32, term: Term) -> Result<Thread, NoMemory>
    requires frames { 2 ≤ frames }
    requires term { IsTyped program.now term }
    ensures { IfOk result (λ thread. (code : CodeOf) → code ≡ program_code program.now → Follows program.now code frames term [] thread) }
{
    let body = generate_term(alloc, program, &term)?;
    let thread = Thread::start(alloc, term, body, frames)?;
    Ok(thread)
}

/// A thread that is about to begin with the term, if there is one.
///
/// # Errors
///
/// `NoMemory`.
fn prepare(
    alloc: Global,
    program: &Program,
    frames: u32,
    term: Option<Term>,
) -> Result<Option<Thread>, NoMemory>
    requires frames { 2 ≤ frames }
    requires term { CanBegin program.now term }
    ensures { IfOk result (λ main. IsPrepared program.now frames term main) }
{
    match term {
        None => Ok(None),
        Some(term) => Ok(Some(start(alloc, program, frames, term)?)),
    }
}

/// The main thread begins to live in the store, where it has a term.
fn enliven(store: &mut Store, main: &Option<Thread>)
    ensures { store.new ≡ (if is_some main.now then with_lives store.old 1 true else store.old) }
{
    if main.is_some() {
        store.begin();
    }
}

/// A new store over a program, and a thread that is about to begin with the term, if there is one.
///
/// # Errors
///
/// `NoMemory`.
pub fn begin_over(
    alloc: Global,
    program: &Program,
    limits: Limits,
    term: Option<Term>,
) -> Result<Beginning, NoMemory>
    requires frames { 2 ≤ limits.frames }
    requires term { CanBegin program.now term }
    ensures { IfOk result (λ beginning. IsBeginning program.now limits term beginning) }
{
    let main = match prepare(alloc, program, limits.frames, term) {
        Ok(main) => main,
        Err(_) => return Err(NoMemory),
    };
    match Store::new(alloc, program, limits) {
        Ok(store) => {
            let mut begun = store;
            enliven(&mut begun, &main);
            Ok(Beginning { store: begun, main })
        }
        Err(_) => {
            dismiss(main);
            Err(NoMemory)
        }
    }
}
