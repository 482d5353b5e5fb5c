//! A line enters the log, and what it asks begins.

ghost use Rattle.std.specs.Prelude.{◌≡◌, OnOk, OnErr};
ghost use Rattle.bj_history.specs.History.{wait_after};
ghost use Rattle.bj_machine.specs.Shown.{IsSame};
ghost use Rattle.bj_session.specs.Naming.{MayBegin, Begins, HasEntered, binds_then};

use bj_core::{Bytes, Entry, Name, NoMemory};
use bj_exec::Thread;
use bj_machine::Machine;
use bj_reply::Asked;
use bj_say::Wait;

/// Lets a name go. Its drop stands here alone, so that no caller's proof goes through it.
fn forget(_name: Option<Name>) {}

/// Lets a thread and a name go.
fn dismiss(_thread: Option<Thread>, _name: Option<Name>) {}

/// The term of a prepared thread begins, if there is one, and with it the name that it binds.
fn begin(
    machine: &mut Machine,
    binds: &mut Option<Name>,
    thread: Option<Thread>,
    name: Option<Name>,
)
    requires { MayBegin machine.old thread }
    ensures machine { Begins thread machine.old machine.new }
    ensures binds { binds.new ≡ binds_then thread name binds.old }
{
    match thread {
        Some(thread) => {
            machine.begin_with(thread);
            forget(std::mem::replace(binds, name));
        }
        None => forget(name),
    }
}

/// The wait that is open behind a line that opens this one or none.
fn wait_then(opened: Option<Wait>, wait: Option<Wait>) -> Option<Wait>
    ensures { result ≡ wait_after opened wait }
{
    match opened {
        Some(opened) => Some(opened),
        None => wait,
    }
}

/// A line is noted with its reply, and then its term begins and its wait opens.
///
/// # Errors
///
/// `NoMemory`, with all as before.
pub fn enter(
    machine: &mut Machine,
    binds: &mut Option<Name>,
    wait: &mut Option<Wait>,
    bytes: Bytes,
    asked: Asked,
) -> Result<(), NoMemory>
    requires { MayBegin machine.old asked.thread }
    ensures entered { OnOk result (HasEntered bytes asked machine.old machine.new) }
    ensures binds { OnOk result (binds.new ≡ binds_then asked.thread asked.binds binds.old) }
    ensures wait { OnOk result (wait.new ≡ wait_after asked.wait wait.old) }
    ensures err { OnErr result (IsSame machine.old machine.new) }
    ensures same_binds { OnErr result (binds.new ≡ binds.old) }
    ensures same_wait { OnErr result (wait.new ≡ wait.old) }
{
    let Asked {
        reply,
        thread,
        binds: name,
        wait: opened,
    } = asked;
    match machine.note(Entry::Line { bytes, reply }) {
        Ok(()) => {}
        Err(_) => {
            dismiss(thread, name);
            return Err(NoMemory);
        }
    }
    begin(machine, binds, thread, name);
    *wait = wait_then(opened, *wait);
    Ok(())
}
