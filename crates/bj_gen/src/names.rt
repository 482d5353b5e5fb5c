ghost use Rattle.std.specs.Prelude.{◌≡◌, length, IfOk};
ghost use Rattle.bj_eval.specs.Routines as routines;

use crate::depth::number;
use bj_core::{Method, NoMemory, Program, Stmt};

/// Whether a method is a constructor [JLS 8.8].
pub(crate) fn is_constructor(method: &Method) -> bool
    ensures { result ≡ routines.is_constructor method.now }
{
    method.name.as_slice() == b"<init>".as_slice()
}

/// Whether a class is initialized from the start: it is of the prelude.
pub(crate) fn is_ready(program: &Program, class: u32) -> bool
    ensures { result ≡ routines.is_ready program.now class }
{
    match program.classes.get(class as usize) {
        Some(class) => class.is_prelude,
        None => false,
    }
}

/// The number of what initializes a class: it stands behind the methods.
///
/// # Errors
///
/// `NoMemory` where the class has more methods than 32 bits count.
pub(crate) fn start_number(program: &Program, class: u32) -> Result<u32, NoMemory>
    ensures { IfOk result (λ n. n ≡ routines.start_number program.now class) }
{
    match program.classes.get(class as usize) {
        Some(class) => number(class.methods.len()),
        None => Ok(0),
    }
}

/// The line of a statement.
pub(crate) fn line_of(stmt: &Stmt) -> u32
    ensures { result ≡ routines.line_of stmt.now }
{
    match stmt {
        Stmt::Block { at, .. } => at.line,
        Stmt::Expression { at, .. } => at.line,
        Stmt::Return { at, .. } => at.line,
    }
}
