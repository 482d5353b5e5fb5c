ghost use Rattle.std.specs.Prelude.{◌≡◌, ◌+◌, ◌<◌, ◌^◌, Some, length};
ghost use Rattle.bj_code.specs.Step.{Stepped};
ghost use Rattle.bj_code.specs.Step as steps;
ghost use Rattle.bj_code.specs.declared.frame.CallFrame.{CallFrame};

use crate::{CallFrame, Instr};
use bj_core::{Action, Answer, Op, Point, Val};
use bj_text::{int_negate, int_op};

/// What an instruction does beyond its call frame.
#[derive(Drop)]
pub enum Effect {
    /// Nothing: the frame goes on.
    Moves,
    /// The thread wants an action, and the frame goes on with its answer.
    Asks(Action),
    /// The body is left, with a value or without.
    Leaves(Option<Val>),
}

/// Does one instruction of a frame, in a thread that has `depth` frames. It is none that calls a body: those are done by
/// `callee`, `arguments` and `leave_arguments`.
pub fn step(frame: &mut CallFrame, depth: u32, instr: Instr) -> Effect
    requires room { frame.old.place + 1 < 2 ^ 64 }
    requires goes { (s : Stepped) × (steps.step depth instr frame.old ≡ Some s) }
    ensures { steps.step depth instr frame.old ≡ Some (record { effect = result; frame = frame.new }) }
{
    match instr {
        Instr::Push(value) => push(frame, value),
        Instr::Load(slot) => load(frame, slot),
        Instr::This => push(frame, frame.invocation.this),
        Instr::Pop => pop(frame),
        Instr::IntNegate => negate(frame),
        Instr::IntBinary(op) => operate(frame, op),
        Instr::Point(line) => reach(frame, depth, line),
        Instr::GetField(slot) => get_field(frame, slot),
        Instr::PutField(slot) => put_field(frame, slot),
        Instr::InitBegin(class) => ask(frame, Action::InitBegin { class }),
        Instr::InitEnd(class) => ask(frame, Action::InitEnd { class, ok: true }),
        Instr::Make(class) => ask(frame, Action::Make { class }),
        Instr::InvokeStart { .. } => unreachable!(),
        Instr::InvokeSpecial { .. } => unreachable!(),
        Instr::InvokeVirtual { .. } => unreachable!(),
        Instr::ReturnValue => leave(frame),
        Instr::ReturnNothing => Effect::Leaves(None),
    }
}

/// Pushes a value.
fn push(frame: &mut CallFrame, value: Val) -> Effect
    requires room { frame.old.place + 1 < 2 ^ 64 }
    requires goes { (s : Stepped) × (steps.pushed value frame.old ≡ Some s) }
    ensures { steps.pushed value frame.old ≡ Some (record { effect = result; frame = frame.new }) }
{
    frame.operands.push(value);
    frame.place += 1;
    Effect::Moves
}

/// Pushes the value of a variable.
fn load(frame: &mut CallFrame, slot: u32) -> Effect
    requires room { frame.old.place + 1 < 2 ^ 64 }
    requires goes { (s : Stepped) × (steps.step 0 (Instr.Load slot) frame.old ≡ Some s) }
    ensures { steps.step 0 (Instr.Load slot) frame.old ≡ Some (record { effect = result; frame = frame.new }) }
{
    let Some(variable) = frame.activation.variables.get(slot as usize) else {
        unreachable!()
    };
    let Some(value) = variable.value else {
        unreachable!()
    };
    push(frame, value)
}

/// Takes the topmost operand off.
fn pop(frame: &mut CallFrame) -> Effect
    requires room { frame.old.place + 1 < 2 ^ 64 }
    requires goes { (s : Stepped) × (steps.step 0 Instr.Pop frame.old ≡ Some s) }
    ensures { steps.step 0 Instr.Pop frame.old ≡ Some (record { effect = result; frame = frame.new }) }
{
    let Some(_) = frame.operands.pop() else {
        unreachable!()
    };
    frame.place += 1;
    Effect::Moves
}

/// Replaces an `int` by its negative.
fn negate(frame: &mut CallFrame) -> Effect
    requires room { frame.old.place + 1 < 2 ^ 64 }
    requires goes { (s : Stepped) × (steps.step 0 Instr.IntNegate frame.old ≡ Some s) }
    ensures { steps.step 0 Instr.IntNegate frame.old ≡ Some (record { effect = result; frame = frame.new }) }
{
    let Some(Val::Int(operand)) = frame.operands.pop() else {
        unreachable!()
    };
    frame.operands.push(Val::Int(int_negate(operand)));
    frame.place += 1;
    Effect::Moves
}

/// Does an operator of two `int`s.
fn operate(frame: &mut CallFrame, op: Op) -> Effect
    requires room { frame.old.place + 1 < 2 ^ 64 }
    requires goes { (s : Stepped) × (steps.step 0 (Instr.IntBinary op) frame.old ≡ Some s) }
    ensures { steps.step 0 (Instr.IntBinary op) frame.old ≡ Some (record { effect = result; frame = frame.new }) }
{
    let Some(Val::Int(right)) = frame.operands.pop() else {
        unreachable!()
    };
    let Some(Val::Int(left)) = frame.operands.pop() else {
        unreachable!()
    };
    let Ok(value) = int_op(op, left, right) else {
        unreachable!()
    };
    frame.operands.push(Val::Int(value));
    frame.place += 1;
    Effect::Moves
}

/// Asks for an action, whose answer the frame meets behind the instruction.
fn ask(frame: &mut CallFrame, action: Action) -> Effect
    requires room { frame.old.place + 1 < 2 ^ 64 }
    ensures { steps.asking action (steps.next frame.old frame.old.operands.values) ≡ Some (record { effect = result; frame = frame.new }) }
{
    frame.place += 1;
    Effect::Asks(action)
}

/// Reaches a step point, in a thread that has `depth` frames.
fn reach(frame: &mut CallFrame, depth: u32, line: u32) -> Effect
    requires room { frame.old.place + 1 < 2 ^ 64 }
    ensures { steps.reached depth line frame.old ≡ Some (record { effect = result; frame = frame.new }) }
{
    frame.activation.line = line;
    let class = frame.invocation.class;
    ask(frame, Action::Point(Point { class, line, depth }))
}

/// Takes an object off, and asks for the value of its field in the slot.
fn get_field(frame: &mut CallFrame, slot: u32) -> Effect
    requires room { frame.old.place + 1 < 2 ^ 64 }
    requires goes { (s : Stepped) × (steps.got frame.old.operands.values slot frame.old ≡ Some s) }
    ensures { steps.got frame.old.operands.values slot frame.old ≡ Some (record { effect = result; frame = frame.new }) }
{
    let Some(Val::Ref { object, of }) = frame.operands.pop() else {
        unreachable!()
    };
    let object = Val::Ref { object, of };
    ask(frame, Action::Get { object, slot })
}

/// Takes the object below the topmost operand off, and asks to store that operand in its field in the slot.
fn put_field(frame: &mut CallFrame, slot: u32) -> Effect
    requires room { frame.old.place + 1 < 2 ^ 64 }
    requires goes { (s : Stepped) × (steps.put frame.old.operands.values slot frame.old ≡ Some s) }
    ensures { steps.put frame.old.operands.values slot frame.old ≡ Some (record { effect = result; frame = frame.new }) }
{
    let Some(value) = frame.operands.pop() else {
        unreachable!()
    };
    let Some(Val::Ref { object, of }) = frame.operands.pop() else {
        unreachable!()
    };
    frame.operands.push(value);
    let object = Val::Ref { object, of };
    ask(
        frame,
        Action::Put {
            object,
            slot,
            value,
        },
    )
}

/// Leaves the body with the topmost operand.
fn leave(frame: &mut CallFrame) -> Effect
    requires goes { (s : Stepped) × (steps.step 0 Instr.ReturnValue frame.old ≡ Some s) }
    ensures { steps.step 0 Instr.ReturnValue frame.old ≡ Some (record { effect = result; frame = frame.new }) }
{
    let Some(value) = frame.operands.pop() else {
        unreachable!()
    };
    Effect::Leaves(Some(value))
}

/// Gives a frame the answer to the action that it asked for.
pub fn resume(frame: &mut CallFrame, action: &Action, answer: Answer)
    requires room { answer ≡ Answer.Ready → frame.old.place + 2 < 2 ^ 64 }
    requires goes { (f : CallFrame) × (steps.resumed action.now answer frame.old ≡ Some f) }
    ensures { steps.resumed action.now answer frame.old ≡ Some frame.new }
{
    match action {
        Action::Point(_) | Action::Put { .. } | Action::InitEnd { .. } => match answer {
            Answer::Done => {}
            _ => unreachable!(),
        },
        Action::Get { .. } | Action::Make { .. } => match answer {
            Answer::Value(value) => give_back(frame, value),
            _ => unreachable!(),
        },
        Action::InitBegin { .. } => match answer {
            Answer::Ready => frame.place += 2,
            Answer::Go => {}
            _ => unreachable!(),
        },
        _ => unreachable!(),
    }
}

/// Gives a frame a value: that of an action that it asked for, or of a body that it called.
pub fn give_back(frame: &mut CallFrame, value: Val)
    requires { (f : CallFrame) × (steps.given_back value frame.old ≡ Some f) }
    ensures { steps.given_back value frame.old ≡ Some frame.new }
{
    frame.operands.push(value);
}
