ghost use Rattle.std.specs.Prelude.{◌≡◌, ℕ, ◌+◌, ◌<◌, ◌^◌, [], length, slice_get, Some, MatchOption, OnOk, OnErr, OnSome, IfOk};
ghost use Rattle.std.specs.Option.{option_copied};
ghost use Rattle.bj_eval.specs.Frames.{activation};
ghost use Rattle.bj_code.specs.Calling.{Call};
ghost use Rattle.bj_code.specs.Calling as calls;
ghost use Rattle.bj_code.specs.Step as steps;
ghost use Rattle.bj_code.specs.declared.code.CodeBody.{CodeBody};
ghost use Rattle.bj_exec.specs.Machine.{affected, body_at, entering, moves, stepped};
ghost use Rattle.bj_exec.specs.declared.run.Run.{Run};

use crate::leaving::leave;
use crate::run::turn;
use crate::{CallFrames, Run, Want};
use bj_code::{CallFrame, Code, CodeBody, Effect, Instr, Operands, arguments, callee, step};
use bj_core::{NO_CLASS, NoMemory, Val};
use bj_eval::{Activation, Invocation};
use std::alloc::Global;

/// The instruction at a place.
fn instr_at(body: &CodeBody, place: usize) -> Option<Instr>
    ensures instr { result ≡ slice_get body.now.steps place }
    ensures room { OnSome result (place + 1 < 2 ^ 64) }
    ensures bound { length body.now.steps < 2 ^ 64 }
{
    if place >= body.steps.len() {
        return None;
    }
    body.steps.get(place).copied()
}

/// The code of a body: that of the term, or one of the program.
fn body_of<'a>(code: &'a Code, term: &'a CodeBody, invocation: Invocation) -> Option<&'a CodeBody>
    ensures { (limit : ℕ) → option_copied result ≡ body_at (record { code = code.now; term = term.now; limit = limit }) invocation }
{
    if invocation.class == NO_CLASS {
        return Some(term);
    }
    match code.methods.get(invocation.class as usize) {
        Some(bodies) => bodies.get(invocation.method as usize),
        None => None,
    }
}

/// How many frames a thread has over those below, if 32 bits count them.
fn depth_of(below: &CallFrames) -> Option<u32>
    ensures { MatchOption result (Unit {0}) (λ depth. depth ≡ length below.now + 1) }
{
    match u32::try_from(below.len()) {
        Ok(count) => count.checked_add(1),
        Err(_) => None,
    }
}

/// Does what an instruction does beyond its frame.
fn affect(run: &mut Run, effect: Effect)
    requires { (q : Run) × (affected effect run.old.top run.old.below ≡ Some q) }
    ensures { affected effect run.old.top run.old.below ≡ Some run.new }
{
    match effect {
        Effect::Moves => turn(run, Want::Move),
        Effect::Asks(action) => turn(run, Want::Do(action)),
        Effect::Leaves(value) => leave(run, value),
    }
}

/// Does an instruction that calls nothing.
fn take_step(run: &mut Run, instr: Instr) -> Result<(), NoMemory>
    requires room { run.old.top.place + 1 < 2 ^ 64 }
    requires goes { (q : Run) × (stepped (steps.step (length run.old.below + 1) instr run.old.top) run.old.below ≡ Some q) }
    ensures ok { OnOk result (stepped (steps.step (length run.old.below + 1) instr run.old.top) run.old.below ≡ Some run.new) }
    ensures err { OnErr result (run.new ≡ run.old) }
{
    let Some(depth) = depth_of(&run.below) else {
        return Err(NoMemory);
    };
    let effect = step(&mut run.top, depth, instr);
    affect(run, effect);
    Ok(())
}

/// The frame of a body that is called, with the values of its parameters in order.
fn new_frame(
    alloc: Global,
    invocation: Invocation,
    body: &CodeBody,
    values: &[Val],
) -> Result<CallFrame, NoMemory>
    ensures { IfOk result (λ f. f ≡ record { invocation = invocation; activation = activation body.now.entry body.now.params values.now; place = 0; operands = record { values = []; room = body.now.depth } }) }
{
    Ok(CallFrame {
        invocation,
        activation: Activation::of_body(alloc, body.entry, body.params.as_slice(), values)?,
        place: 0,
        operands: Operands::new(alloc, body.depth)?,
    })
}

/// Calls a body by an instruction. Its frame is made before anything changes.
fn call_body(
    alloc: Global,
    run: &mut Run,
    instr: Instr,
    invocation: Invocation,
    body: &CodeBody,
) -> Result<(), NoMemory>
    requires room { run.old.top.place + 1 < 2 ^ 64 }
    requires calls { (c : Call) × (calls.call instr run.old.top ≡ Some c) × (c.invocation ≡ invocation) }
    ensures ok { OnOk result ((c : Call) → calls.call instr run.old.top ≡ Some c → entering (Some body.now) c run.old.below ≡ Some run.new) }
    ensures err { OnErr result (run.new ≡ run.old) }
{
    let called = new_frame(alloc, invocation, body, arguments(&run.top, instr))?;
    run.below.enter(&mut run.top, instr, called)?;
    turn(run, Want::Move);
    Ok(())
}

/// Does one instruction of the body that runs: one of the program, or that of the term. An instruction that needs more
/// than the machine has is want of memory.
pub(crate) fn advance_run(
    alloc: Global,
    run: &mut Run,
    code: &Code,
    term: &CodeBody,
) -> Result<(), NoMemory>
    requires { (limit : ℕ) × ((q : Run) × (moves (record { code = code.now; term = term.now; limit = limit }) run.old ≡ Some q)) }
    ensures ok { OnOk result ((limit : ℕ) (q : Run) → moves (record { code = code.now; term = term.now; limit = limit }) run.old ≡ Some q → run.new ≡ q) }
    ensures bound { OnOk result ((limit : ℕ) (b : CodeBody) → body_at (record { code = code.now; term = term.now; limit = limit }) run.old.top.invocation ≡ Some b → length b.steps < 2 ^ 64) }
    ensures err { OnErr result (run.new ≡ run.old) }
{
    let Some(body) = body_of(code, term, run.top.invocation) else {
        unreachable!()
    };
    let Some(instr) = instr_at(body, run.top.place) else {
        unreachable!()
    };
    let Some(invocation) = callee(&run.top, instr) else {
        return take_step(run, instr);
    };
    let Some(called) = body_of(code, term, invocation) else {
        unreachable!()
    };
    call_body(alloc, run, instr, invocation, called)
}
