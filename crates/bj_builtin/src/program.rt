ghost use Rattle.std.specs.Prelude.{◌≡◌, IfOk};
ghost use Rattle.bj_builtin.specs.Builtin.{builtin as spec_builtin};

use crate::cell::cell_class;
use crate::prelude::{
    input_stream_class, object_class, out_of_memory_class, print_stream_class, thread_class,
};
use bj_core::{NoMemory, Program, Seq};
use std::alloc::Global;

/// The number of the class `Cell`.
pub const CELL: u32 = 5;

/// The number of the constructor of `Cell`.
pub const CELL_INIT: u32 = 0;

/// The number of the method `add` of `Cell`.
pub const CELL_ADD: u32 = 1;

/// The number of the method `get` of `Cell`.
pub const CELL_GET: u32 = 2;

/// The built-in program: the prelude's classes without members, and `Cell`.
///
/// # Errors
///
/// `NoMemory` where there is no room for the program.
pub fn builtin(alloc: Global) -> Result<Program, NoMemory>
    ensures { IfOk result (λ p. p ≡ spec_builtin) }
{
    let mut classes = Seq::new(alloc);
    classes.push(object_class(alloc)?)?;
    classes.push(thread_class(alloc)?)?;
    classes.push(print_stream_class(alloc)?)?;
    classes.push(input_stream_class(alloc)?)?;
    classes.push(out_of_memory_class(alloc)?)?;
    classes.push(cell_class(alloc)?)?;
    Ok(Program { classes })
}
