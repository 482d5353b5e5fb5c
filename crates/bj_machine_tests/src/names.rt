use bj_bench::{Bench, is_plain};
use bj_builtin::{CELL, builtin};
use bj_core::{Name, NoMemory, Program, Ty, Val};
use std::alloc::Global;

/// An object of `Cell`.
fn cell(object: u32) -> Val {
    Val::Ref {
        object,
        of: Ty::Class(CELL),
    }
}

/// What `a` and `b` stand for once both are bound, `b` once it is taken back, and whether the bench is full.
fn found(alloc: Global) -> Result<(Option<Val>, Option<Val>, Option<Val>, bool), NoMemory> {
    let mut bench = Bench::new(alloc);
    bench.bind(Name::from_slice(alloc, b"a")?, cell(5))?;
    bench.bind(Name::from_slice(alloc, b"b")?, cell(6))?;
    let first = bench.find(b"a");
    let second = bench.find(b"b");
    bench.take_back();
    Ok((first, second, bench.find(b"b"), bench.is_full()))
}

/// Lets a program go. Its drop stands here alone, so that no caller's proof goes through it.
fn forsake(_program: Program) {}

/// Which of some names are built, on a bench over the built-in program.
fn plain(alloc: Global) -> Result<[bool; 4], NoMemory> {
    let program = builtin(alloc)?;
    let found = [
        is_plain(&program, b"x"),
        is_plain(&program, b"cellOne"),
        is_plain(&program, b"Cell"),
        is_plain(&program, b"x1"),
    ];
    forsake(program);
    Ok(found)
}

#[test]
fn names_stand_for_what_they_were_bound_to(rt: HostRuntime) {
    assert!(&rt; found(rt.alloc()) == Ok((Some(cell(5)), Some(cell(6)), None, false)));
}

#[test]
fn a_built_name_is_of_letters_and_no_class(rt: HostRuntime) {
    assert!(&rt; plain(rt.alloc()) == Ok([true, true, false, false]));
}
