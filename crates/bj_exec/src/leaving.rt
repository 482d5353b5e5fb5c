ghost use Rattle.std.specs.Prelude.{◌≡◌, ◌∷◌, Some};
ghost use Rattle.bj_exec.specs.Machine.{left, threw};
ghost use Rattle.bj_exec.specs.Machine as machine;
ghost use Rattle.bj_exec.specs.declared.run.Run.{Run};

use crate::frames::dismiss;
use crate::run::turn;
use crate::{Run, Want};
use bj_code::{CallFrame, give_back};
use bj_core::{Done, Val};

/// Leaves the body of the topmost frame: its caller goes on, or the term is over.
pub(crate) fn leave(run: &mut Run, value: Option<Val>)
    requires { (q : Run) × (left value run.old.top run.old.below ≡ Some q) }
    ensures { left value run.old.top run.old.below ≡ Some run.new }
{
    match run.below.pop() {
        Some(caller) => go_back(run, caller, value),
        None => end(run, done_with(value)),
    }
}

/// Goes on with a caller, with the value that the body was left with, if there is one.
fn go_back(run: &mut Run, caller: CallFrame, value: Option<Val>)
    requires { (q : Run) × (left value caller (caller ∷ run.old.below) ≡ Some q) }
    ensures { left value caller (caller ∷ run.old.below) ≡ Some run.new }
{
    dismiss(std::mem::replace(&mut run.top, caller));
    turn(run, Want::Move);
    match value {
        Some(value) => give_back(&mut run.top, value),
        None => {}
    }
}

/// Ends a term, of which the frame is left at rest.
fn end(run: &mut Run, done: Done)
    ensures { run.new ≡ machine.wanting (Want.Over done) (machine.at_rest run.old.top) run.old.below }
{
    run.top.place = 0;
    run.top.operands.clear();
    turn(run, Want::Over(done));
}

/// Throws: nothing catches it yet, so that all callers are left too.
pub(crate) fn throw(run: &mut Run, value: Val)
    ensures { run.new ≡ threw value run.old.top run.old.below }
{
    while let Some(caller) = run.below.pop() {
        dismiss(std::mem::replace(&mut run.top, caller));
    }
    end(run, Done::Threw(value));
}

/// How a term is over that is left with a value or without.
fn done_with(value: Option<Val>) -> Done
    ensures { result ≡ machine.done_with value }
{
    match value {
        None => Done::Nothing,
        Some(value) => Done::Value(value),
    }
}
