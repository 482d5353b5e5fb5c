//! Objects, fields and calls on a machine over the built-in program.

ghost use Rattle.std.specs.Prelude.{◌≡◌, Some, IfOk};
ghost use Rattle.bj_core.specs.declared.program.Program.{Program};
ghost use Rattle.bj_builtin.specs.Builtin.{builtin as spec_builtin};
ghost use Rattle.bj_eval.specs.Typed.{IsTyped};
ghost use Rattle.bj_eval.specs.Terms.{StandsFor};
ghost use Rattle.bj_machine.specs.Reset.{CanBegin};
ghost use Rattle.bj_core.specs.declared.tree.Expr.TheVariants as expr;
ghost use Rattle.bj_core.specs.declared.tree.Stmt.TheVariants.{Return};
ghost use Rattle.bj_core.specs.declared.types.Ty.TheVariants as ty;
ghost use Rattle.bj_core.specs.declared.types.Val.TheVariants as val;

use bj_builtin::{
    CELL, CELL_ADD, CELL_GET, CELL_INIT, builtin, calls_of_cells_are_typed, new_cells_are_typed,
};
use bj_core::{
    Const, Done, Entry, Expr, HeapLimits, Limits, Local, Name, NoMemory, Program, Seq, Span, Stmt,
    Term, TermKind, Ty, Val,
};
use bj_gen::generate;
use bj_machine::{Log, Machine, Step};
use sqlite_items::{Boxed, Items};
use std::alloc::Global;
use std::test::*;

/// The place of the tokens of a term, which no test looks at.
const AT: Span = Span { line: 1, column: 1 };

/// The object that is made first: four stand in a new store.
const CELL_OBJECT: Val = Val::Ref {
    object: 5,
    of: Ty::Class(CELL),
};

/// Lets a program go. Its drop stands here alone, so that no test's proof goes through it.
fn forsake(_program: Program) {}

/// Lets a log go, as `forsake` does a program.
fn forget(_log: Log) {}

/// Lets a machine go, of which only the log's drop is left to prove.
fn dismiss(machine: Machine) {
    forget(machine.into_log());
}

/// A machine over the built-in program, with room for one object more.
fn machine(alloc: Global) -> Result<Machine, NoMemory>
    ensures { IfOk result (λ m. m.program ≡ spec_builtin) }
{
    let program = builtin(alloc)?;
    let code = match generate(alloc, &program) {
        Ok(code) => code,
        Err(_) => {
            forsake(program);
            return Err(NoMemory);
        }
    };
    let heap = HeapLimits {
        objects: 5,
        cells: 1,
    };
    let limits = Limits {
        acts: 100,
        frames: 3,
        threads: 1,
        heap,
    };
    Machine::new(alloc, program, code, limits)
}

/// The main thread does its term: how it is over.
fn run(machine: &mut Machine) -> Option<Done>
    ensures { machine.new.program ≡ machine.old.program }
{
    for _ in 0..100 {
        if machine.settle().is_err() {
            return None;
        }
        let end = machine.end();
        match machine.step() {
            Step::Acted { .. } => {}
            _ => return None,
        }
        if end.is_some() {
            return end;
        }
    }
    None
}

/// An `int` literal.
fn literal(value: i32) -> Expr
    ensures { result ≡ Expr.Const AT (Const.Int value) }
{
    Expr::Const {
        at: AT,
        value: Const::Int(value),
    }
}

/// How a term is over that begins now, or None where it does not begin or end.
fn result_of(machine: &mut Machine, term: Term) -> Option<Done>
    requires { IsTyped machine.old.program term }
    ensures { machine.new.program ≡ machine.old.program }
{
    match machine.begin(term) {
        Ok(()) => run(machine),
        Err(_) => None,
    }
}

/// A Cell that holds 5 is made, the first object.
fn makes_first(alloc: Global, machine: &mut Machine) -> bool
    requires { machine.old.program ≡ spec_builtin }
    ensures { machine.new.program ≡ machine.old.program }
{
    match new_cell(alloc, 5) {
        Ok(term) => result_of(machine, term) == Some(Done::Value(CELL_OBJECT)),
        Err(_) => false,
    }
}

/// 3 is added to the Cell, which then holds 8.
fn adds(alloc: Global, machine: &mut Machine) -> bool
    requires { machine.old.program ≡ spec_builtin }
    ensures { machine.new.program ≡ machine.old.program }
{
    match call_add(alloc, 3) {
        Ok(term) => result_of(machine, term) == Some(Done::Value(Val::Int(8))),
        Err(_) => false,
    }
}

/// The Cell is read, which holds 8.
fn reads(alloc: Global, machine: &mut Machine) -> bool
    requires { machine.old.program ≡ spec_builtin }
    ensures { machine.new.program ≡ machine.old.program }
{
    match call_get(alloc) {
        Ok(term) => result_of(machine, term) == Some(Done::Value(Val::Int(8))),
        Err(_) => false,
    }
}

/// A second Cell finds no room: it is thrown OutOfMemoryError.
fn finds_no_room(alloc: Global, machine: &mut Machine) -> bool
    requires { machine.old.program ≡ spec_builtin }
{
    match new_cell(alloc, 6) {
        Ok(term) => matches!(result_of(machine, term), Some(Done::Threw(_))),
        Err(_) => false,
    }
}

/// How many entries the log has.
fn entries(machine: &Machine) -> u64 {
    machine.log().len()
}

/// A Cell is made, added to and read, and a second one finds no room; the log grows by the acts of each.
fn uses_its_room(alloc: Global, machine: &mut Machine) -> bool
    requires { machine.old.program ≡ spec_builtin }
{
    makes_first(alloc, machine)
        && entries(machine) == 9
        && adds(alloc, machine)
        && entries(machine) == 17
        && reads(alloc, machine)
        && entries(machine) == 22
        && finds_no_room(alloc, machine)
        && entries(machine) == 27
}

#[test]
fn a_cell_is_made_added_to_and_read_and_a_second_has_no_room(rt: HostRuntime) {
    let alloc = rt.alloc();
    let found = match machine(alloc) {
        Ok(mut machine) => {
            let found = uses_its_room(alloc, &mut machine);
            dismiss(machine);
            found
        }
        Err(_) => false,
    };
    assert!(rt; found);
}

/// Whether the machine begins anew, with the term, if there is one.
fn begins_anew(machine: &mut Machine, term: Option<Term>) -> bool
    requires { CanBegin machine.old.program term }
    ensures { machine.new.program ≡ machine.old.program }
{
    match machine.reset(Entry::Pause, None, term) {
        Ok(()) => true,
        Err(_) => false,
    }
}

/// The machine begins anew with a term, which makes a Cell as the first object.
fn begins_with_term(alloc: Global, machine: &mut Machine) -> bool
    requires { machine.old.program ≡ spec_builtin }
{
    match new_cell(alloc, 2) {
        Ok(term) => {
            begins_anew(machine, Some(term))
                && machine.is_busy()
                && run(machine) == Some(Done::Value(CELL_OBJECT))
        }
        Err(_) => false,
    }
}

/// A Cell is made, the machine begins anew without a term, a Cell is made again as the first object, and the machine begins anew with a term.
fn is_new_again(alloc: Global, machine: &mut Machine) -> bool
    requires { machine.old.program ≡ spec_builtin }
{
    makes_first(alloc, machine)
        && begins_anew(machine, None)
        && !machine.is_busy()
        && entries(machine) == 11
        && makes_first(alloc, machine)
        && begins_with_term(alloc, machine)
}

#[test]
fn a_machine_begins_anew(rt: HostRuntime) {
    let alloc = rt.alloc();
    let found = match machine(alloc) {
        Ok(mut machine) => {
            let found = is_new_again(alloc, &mut machine);
            dismiss(machine);
            found
        }
        Err(_) => false,
    };
    assert!(rt; found);
}

/// Whether room is made for more entries, and the log still has so many.
fn has_after_reserve(machine: &mut Machine, count: u64) -> bool {
    machine.reserve().is_ok() && entries(machine) == count
}

/// Room is made in an empty log, and again behind a pause, which is the one entry.
fn room_is_no_entry(machine: &mut Machine) -> bool {
    has_after_reserve(machine, 0)
        && machine.note(Entry::Pause).is_ok()
        && has_after_reserve(machine, 1)
}

#[test]
fn room_in_the_log_is_no_entry(rt: HostRuntime) {
    let found = match machine(rt.alloc()) {
        Ok(mut machine) => {
            let found = room_is_no_entry(&mut machine);
            dismiss(machine);
            found
        }
        Err(_) => false,
    };
    assert!(rt; found);
}

/// `new Cell(value)`.
fn new_cell(alloc: Global, value: i32) -> Result<Term, NoMemory>
    ensures { IfOk result (λ t. IsTyped spec_builtin t) }
{
    new_cells_are_typed();
    let mut args = Items::new(alloc);
    args.push(literal(value))?;
    let term = Term {
        kind: TermKind::Pad,
        body: Stmt::Return {
            at: AT,
            value: Some(Expr::New {
                at: AT,
                class: CELL,
                constructor: CELL_INIT,
                args,
            }),
        },
        scope: Seq::new(alloc),
        gives: Ty::Class(CELL),
    };
    Ok(term)
}

/// `c.method(args)`, where the name `c` stands for the first object.
fn call(alloc: Global, method: u32, args: Items<Expr>) -> Result<Term, NoMemory>
    ensures body { IfOk result (λ t. t.body ≡ Return AT (Some (expr.Virtual AT (expr.Local AT 0) 5 method args))) }
    ensures object { IfOk result (λ t. StandsFor t 0 (val.Ref 5 (ty.Class 5))) }
    ensures gives { IfOk result (λ t. t.gives ≡ ty.Int) }
{
    let object = Boxed::new(alloc, Expr::Local { at: AT, slot: 0 })?;
    let name = Name::from_slice(alloc, b"c")?;
    let mut scope = Seq::new(alloc);
    scope.push(Local {
        name,
        value: CELL_OBJECT,
    })?;
    Ok(Term {
        kind: TermKind::Call,
        body: Stmt::Return {
            at: AT,
            value: Some(Expr::Virtual {
                at: AT,
                object,
                class: CELL,
                method,
                args,
            }),
        },
        scope,
        gives: Ty::Int,
    })
}

/// `c.add(value)`.
fn call_add(alloc: Global, value: i32) -> Result<Term, NoMemory>
    ensures { IfOk result (λ t. IsTyped spec_builtin t) }
{
    calls_of_cells_are_typed();
    let mut args = Items::new(alloc);
    args.push(literal(value))?;
    call(alloc, CELL_ADD, args)
}

/// `c.get()`.
fn call_get(alloc: Global) -> Result<Term, NoMemory>
    ensures { IfOk result (λ t. IsTyped spec_builtin t) }
{
    calls_of_cells_are_typed();
    call(alloc, CELL_GET, Items::new(alloc))
}
