//! The name that the main thread's term binds, at its end.

ghost use Rattle.std.specs.Prelude.{◌≡◌, IfOk, OnErr, List, Some};
ghost use Rattle.bj_core.specs.declared.action.Done.TheVariants.{Value as DoneValue};
ghost use Rattle.bj_bench.specs.declared.names.BoundName.{BoundName as BoundNameOf};
ghost use Rattle.bj_session.specs.Naming.{names_at_end, binds_after, HasUndone};

use bj_bench::Bench;
use bj_core::{Copies, Done, Name, NoMemory, Val};
use std::alloc::Global;

/// Lets a name go. Its drop stands here alone, so that no caller's proof goes through it.
fn forget(_name: Option<Name>) {}

/// Where a term that binds a name ends with a value, binds it, and tells so.
///
/// # Errors
///
/// `NoMemory`, with the names as before.
pub fn bind_end(
    alloc: Global,
    bench: &mut Bench,
    binds: &Option<Name>,
    end: Option<Done>,
) -> Result<bool, NoMemory>
    ensures ok { IfOk result (λ bound. (bench.new ≡ names_at_end binds.now end bench.old) × HasUndone bound bench.new bench.old) }
    ensures err { OnErr result (bench.new ≡ bench.old) }
{
    let Some(Done::Value(value)) = end else {
        return Ok(false);
    };
    match binds {
        Some(name) => bind(alloc, bench, name, value),
        None => Ok(false),
    }
}

/// Binds a name to a value.
fn bind(alloc: Global, bench: &mut Bench, name: &Name, value: Val) -> Result<bool, NoMemory>
    ensures ok { IfOk result (λ bound. (bench.new ≡ names_at_end (Some name.now) (Some (DoneValue value)) bench.old) × HasUndone bound bench.new bench.old) }
    ensures err { OnErr result (bench.new ≡ bench.old) }
{
    let name = name.copy(alloc)?;
    bench.bind(name, value)?;
    Ok(true)
}

/// The names are as they were before one was bound, where that was so.
pub fn unbind(bench: &mut Bench, bound: bool)
    ensures { (names : List BoundNameOf) → HasUndone bound bench.old names → bench.new ≡ names }
{
    if bound {
        bench.take_back();
    }
}

/// Behind the end of its term no name is bound by it.
pub fn release(binds: &mut Option<Name>, end: Option<Done>)
    ensures { binds.new ≡ binds_after end binds.old }
{
    if end.is_some() {
        forget(std::mem::replace(binds, None));
    }
}
