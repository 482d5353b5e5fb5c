ghost use Rattle.std.specs.Prelude.{◌≡◌, ◌+◌, ◌<◌, ◌^◌, Some, reverse};
ghost use Rattle.std.specs.Option.{option_map};
ghost use Rattle.bj_code.specs.Calling.{Call, argument_count, dispatched, dropped_count, invoked};
ghost use Rattle.bj_code.specs.Calling as calls;

use crate::{CallFrame, Instr};
use bj_core::{Ty, Val};
use bj_eval::Invocation;

/// What an instruction of a frame calls [JLS 15.12.4.4]. None where it calls nothing, or where an operand is missing or of
/// the wrong kind.
pub fn callee(frame: &CallFrame, instr: Instr) -> Option<Invocation>
    ensures { result ≡ option_map (λ c. c.invocation) (calls.call instr frame.now) }
{
    match instr {
        Instr::InvokeStart { class, method } => Some(Invocation {
            class,
            method,
            this: Val::Null,
        }),
        Instr::InvokeSpecial {
            class,
            method,
            count,
        } => constructor(class, method, frame.operands.below(count as usize)),
        Instr::InvokeVirtual {
            class,
            method,
            count,
        } => dispatch(class, method, frame.operands.below(count as usize)),
        _ => None,
    }
}

/// A constructor of the object.
fn constructor(class: u32, method: u32, object: Option<Val>) -> Option<Invocation>
    ensures { result ≡ invoked class method object }
{
    match object {
        Some(this) => Some(Invocation {
            class,
            method,
            this,
        }),
        None => None,
    }
}

/// The method of the object, if the object's own class declares it.
fn dispatch(class: u32, method: u32, object: Option<Val>) -> Option<Invocation>
    ensures { result ≡ dispatched class method object }
{
    match object {
        Some(
            Val::Ref {
                object,
                of: Ty::Class(own),
            },
        ) => {
            if own != class {
                return None;
            }
            let this = Val::Ref {
                object,
                of: Ty::Class(own),
            };
            Some(Invocation {
                class,
                method,
                this,
            })
        }
        _ => None,
    }
}

/// The values of the arguments of a call that an instruction of a frame makes, in order.
pub fn arguments(frame: &CallFrame, instr: Instr) -> &[Val]
    requires { (c : Call) × (calls.call instr frame.now ≡ Some c) }
    ensures { (c : Call) → calls.call instr frame.now ≡ Some c → result.now ≡ reverse c.values }
{
    frame.operands.top(arguments_of(instr))
}

/// Puts a frame behind the call that its instruction makes, without the operands that the call takes off.
pub fn leave_arguments(frame: &mut CallFrame, instr: Instr)
    requires room { frame.old.place + 1 < 2 ^ 64 }
    requires calls { (c : Call) × (calls.call instr frame.old ≡ Some c) }
    ensures { (c : Call) → calls.call instr frame.old ≡ Some c → frame.new ≡ c.caller }
{
    frame.operands.drop_top(dropped_of(instr));
    frame.place += 1;
}

/// How many arguments a call has.
fn arguments_of(instr: Instr) -> usize
    ensures { result ≡ argument_count instr }
{
    match instr {
        Instr::InvokeSpecial { count, .. } => count as usize,
        Instr::InvokeVirtual { count, .. } => count as usize,
        _ => 0,
    }
}

/// How many operands a call takes off: the object of a constructor stays.
fn dropped_of(instr: Instr) -> usize
    ensures { result ≡ dropped_count instr }
{
    match instr {
        Instr::InvokeSpecial { count, .. } => count as usize,
        Instr::InvokeVirtual { count, .. } => count as usize + 1,
        _ => 0,
    }
}
