ghost use Rattle.std.specs.Prelude.{◌≡◌, ◌<◌, IfOk, OnOk, OnErr, IsOk, Some, is_some, true, false};
ghost use Rattle.bj_core.specs.declared.action.Action.TheVariants.{End};
ghost use Rattle.bj_core.specs.declared.entry.Entry.TheVariants.{Act};
ghost use Rattle.bj_store.specs.React.{react, Answered, takes_memory};
ghost use Rattle.bj_machine.specs.Kept.{IsSameLog, HasEntry};
ghost use Rattle.bj_machine.specs.World.{answer_of};

use crate::Log;
use bj_core::{Action, Answer, Done, Entry, NoMemory, Program};
use bj_store::{Reaction, Store};

/// The number of the main thread.
pub const MAIN: u32 = 1;

/// The log keeps an act of the main thread, for which it has room.
pub fn keep(log: &mut Log, answer: Answer, action: Action)
    requires { 0 < log.old.room }
    ensures { HasEntry (Act 1 answer) (Some action) log.old log.new }
{
    let act = Entry::Act {
        thread: MAIN,
        answer,
    };
    log.put(act, Some(action));
}

/// The store answers an action of the main thread that is not blocked. Room in the log is taken first, so that no answer
/// of the store is lost.
///
/// # Errors
///
/// `NoMemory`, with the store as before. It does not come where the log has room and the action takes no memory.
pub fn act_on(
    store: &mut Store,
    log: &mut Log,
    program: &Program,
    action: &Action,
) -> Result<Answer, NoMemory>
    requires { is_some (answer_of (react program.now store.old 1 action.now)) ≡ true }
    ensures ok { IfOk result (λ x. react program.now store.old 1 action.now ≡ Answered x store.new) }
    ensures room { OnOk result (0 < log.new.room) }
    ensures log { IsSameLog log.old log.new }
    ensures err { OnErr result (store.new ≡ store.old) }
    ensures free { 0 < log.old.room → takes_memory action.now ≡ false → IsOk result }
{
    match log.reserve(1) {
        Ok(()) => {}
        Err(_) => return Err(NoMemory),
    }
    match store.react(program, MAIN, action) {
        Reaction::Answered(answer) => Ok(answer),
        Reaction::Blocked(_) => unreachable!(),
        Reaction::NoMemory => Err(NoMemory),
    }
}

/// The end of the main thread's term, which the store answers as `act_on` does and the log keeps.
///
/// # Errors
///
/// `NoMemory`, with the store and the log as before. It does not come where the log has room.
pub fn end_on(
    store: &mut Store,
    log: &mut Log,
    program: &Program,
    done: Done,
) -> Result<Answer, NoMemory>
    requires { is_some (answer_of (react program.now store.old 1 (End done))) ≡ true }
    ensures ok { IfOk result (λ x. (react program.now store.old 1 (End done) ≡ Answered x store.new) × HasEntry (Act 1 x) (Some (End done)) log.old log.new) }
    ensures err { OnErr result ((store.new ≡ store.old) × IsSameLog log.old log.new) }
    ensures free { 0 < log.old.room → IsOk result }
{
    let action = Action::End { done };
    match act_on(store, log, program, &action) {
        Ok(answer) => {
            keep(log, answer, action);
            Ok(answer)
        }
        Err(_) => Err(NoMemory),
    }
}
