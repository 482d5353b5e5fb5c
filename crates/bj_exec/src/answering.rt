ghost use Rattle.std.specs.Prelude.{◌≡◌, ℕ, ◌+◌, ◌<◌, ◌^◌, Some};
ghost use Rattle.bj_core.specs.declared.action.Action.{Action};
ghost use Rattle.bj_core.specs.declared.action.Action.TheVariants.{InitBegin};
ghost use Rattle.bj_exec.specs.Machine.{answered, raised};
ghost use Rattle.bj_exec.specs.Machine as machine;
ghost use Rattle.bj_exec.specs.declared.run.Run.{Run};

use crate::leaving::throw;
use crate::run::turn;
use crate::{Run, Want};
use bj_code::resume;
use bj_core::{Action, Answer};

/// Gives the topmost frame an answer, and hands back the action that it asked for.
pub(crate) fn answer_run(run: &mut Run, answer: Answer) -> Action
    requires room { (class : ℕ) → run.old.want ≡ Want.Do (InitBegin class) → run.old.top.place + 2 < 2 ^ 64 }
    requires goes { (a : Action) × (run.old.want ≡ Want.Do a) × ((q : Run) × (answered a answer run.old ≡ Some q)) }
    ensures action { run.old.want ≡ Want.Do result }
    ensures run { answered result answer run.old ≡ Some run.new }
{
    let Want::Do(action) = std::mem::replace(&mut run.want, Want::Move) else {
        unreachable!()
    };
    settle(run, &action, answer);
    action
}

/// Whether an action makes what is then thrown.
fn is_raise(action: &Action) -> bool
    ensures { result ≡ machine.is_raise action.now }
{
    matches!(action, Action::Raise { .. })
}

/// The class of what is raised after an answer, if it is one that throws.
fn class_thrown(answer: Answer) -> Option<u32>
    ensures { result ≡ machine.class_thrown answer }
{
    match answer {
        Answer::Thrown(class) => Some(class),
        _ => None,
    }
}

/// Goes on after the answer to an action.
fn settle(run: &mut Run, action: &Action, answer: Answer)
    requires room { (class : ℕ) → action.now ≡ InitBegin class → run.old.top.place + 2 < 2 ^ 64 }
    requires moves { run.old.want ≡ Want.Move }
    requires goes { (q : Run) × (answered action.now answer run.old ≡ Some q) }
    ensures { answered action.now answer run.old ≡ Some run.new }
{
    if is_raise(action) {
        throw_answer(run, answer);
        return;
    }
    match class_thrown(answer) {
        Some(class) => turn(
            run,
            Want::Do(Action::Raise {
                class,
                message: None,
            }),
        ),
        None => resume(&mut run.top, action, answer),
    }
}

/// Throws what was made to be thrown.
fn throw_answer(run: &mut Run, answer: Answer)
    requires { (q : Run) × (raised answer run.old ≡ Some q) }
    ensures { raised answer run.old ≡ Some run.new }
{
    match answer {
        Answer::Value(value) => throw(run, value),
        _ => unreachable!(),
    }
}
