ghost use Rattle.std.specs.Prelude.{◌≡◌, ◌≤◌, IfOk, Ok, OnErr, length, true};
ghost use Rattle.bj_command.specs.Words.{IsForm, IsShort, form_in, takes_memory};
ghost use Rattle.bj_history.specs.History.{After, loaded};
ghost use Rattle.bj_history.specs.Replies.{call_outcome, cell_call_outcome, creation_begins, creation_outcome, inspect_outcome, new_outcome, outcome_of, pad_outcome};
ghost use Rattle.bj_bench.specs.Names.{is_taken as spec_is_taken};
ghost use Rattle.bj_machine.specs.Shown.{Stands};
ghost use Rattle.bj_sum.specs.Cells.{call_of, creation_of};
ghost use Rattle.bj_sum.specs.Reading.{sum_of};
ghost use Rattle.bj_reply.specs.Asking.{HasSum, IsAsked, IsFor, IsForAny, IsSumIfAny};

use crate::outcomes::{
    nothing, opens, reads, reads_if_free, replied, says, says_bad, says_of, starts, starts_if_free,
};
use crate::terms::{call_name, call_term, cell_in, new_term, pad_term};
use bj_bench::{Bench, is_plain};
use bj_builtin::{builtin_is_a_program, calls_of_cells_are_typed, new_cells_are_typed};
use bj_command::{Command, LineFault, read_line, read_pad_line};
use bj_core::{Bytes, Expr, Name, NoMemory};
use bj_exec::Thread;
use bj_machine::Machine;
use bj_reading::JavaText;
use bj_say::{Wait, inspection};
use bj_sum::{CellCall, cells_are_read, read_call, read_creation, read_sum, sums_are_of_sums};
use std::alloc::Global;

/// What a line asks of the machine, once it is read and its term is prepared.
#[derive(Drop)]
pub struct Asked {
    /// What is replied.
    pub reply: Bytes,
    /// The thread of the term that begins.
    pub thread: Option<Thread>,
    /// The name that the term binds.
    pub binds: Option<Name>,
    /// The wait that opens.
    pub wait: Option<Wait>,
}

/// What is asked by `pad` with a text.
fn ask_pad(alloc: Global, machine: &Machine, text: &[u8]) -> Result<Asked, NoMemory>
    requires program { machine.now.program ≡ loaded }
    requires fits { length text.now ≤ 65536 }
    ensures { IfOk result (IsForAny machine.now (pad_outcome (sum_of text.now) text.now)) }
{
    builtin_is_a_program();
    sums_are_of_sums();
    match read_sum(alloc, text)? {
        Some(expr) => starts_if_free(alloc, machine, pad_term(alloc, expr)),
        None => reads_if_free(alloc, machine, JavaText::Line, text),
    }
}

/// Whether a name stands for an object, or no other name has room.
fn is_taken(bench: &Bench, name: &[u8]) -> bool
    ensures { result ≡ spec_is_taken bench.now name.now }
{
    bench.find(name).is_some() || bench.is_full()
}

/// What is asked by `new` with a name and a text, where nothing runs and the name is not taken; with the argument, where the text
/// creates a Cell.
fn begin_creation(
    alloc: Global,
    machine: &Machine,
    name: &[u8],
    text: &[u8],
    argument: Option<Expr>,
) -> Result<Asked, NoMemory>
    requires program { machine.now.program ≡ loaded }
    requires fits { length text.now ≤ 65536 }
    requires sum { IsSumIfAny argument }
    ensures { IfOk result (IsAsked machine.now (creation_begins argument name.now text.now)) }
{
    new_cells_are_typed();
    match argument {
        Some(argument) => starts(alloc, machine, new_term(alloc, name, argument)?),
        None => reads(alloc, JavaText::Creation, text),
    }
}

/// What is asked by `new` with a name and a text; with the argument, where the text creates a Cell.
fn ask_creation(
    alloc: Global,
    machine: &Machine,
    bench: &Bench,
    name: &[u8],
    text: &[u8],
    argument: Option<Expr>,
) -> Result<Asked, NoMemory>
    requires program { machine.now.program ≡ loaded }
    requires fits { length text.now ≤ 65536 }
    requires sum { IsSumIfAny argument }
    ensures { IfOk result (IsFor machine.now bench.now (creation_outcome argument name.now text.now)) }
{
    if machine.is_busy() {
        let_go(argument);
        return says(alloc, b"= busy");
    }
    if is_taken(bench, name) {
        let_go(argument);
        return says_of(alloc, b"= taken ", name);
    }
    begin_creation(alloc, machine, name, text, argument)
}

/// What is asked by `new` with a name and a text.
fn ask_new(
    alloc: Global,
    machine: &Machine,
    bench: &Bench,
    name: &[u8],
    text: &[u8],
) -> Result<Asked, NoMemory>
    requires program { machine.now.program ≡ loaded }
    requires fits { length text.now ≤ 65536 }
    ensures { IfOk result (IsFor machine.now bench.now (new_outcome loaded name.now text.now)) }
{
    cells_are_read();
    sums_are_of_sums();
    if !is_plain(machine.program(), name) {
        return says(alloc, b"= not built");
    }
    let argument = read_creation(alloc, text)?;
    ask_creation(alloc, machine, bench, name, text, argument)
}

/// What is asked by `call` with a call that was read.
fn ask_called(
    alloc: Global,
    machine: &Machine,
    bench: &Bench,
    call: CellCall,
) -> Result<Asked, NoMemory>
    requires program { machine.now.program ≡ loaded }
    requires sum { HasSum call }
    ensures { IfOk result (IsFor machine.now bench.now (cell_call_outcome call)) }
{
    calls_of_cells_are_typed();
    match cell_in(bench.find(call_name(&call))) {
        Some(object) => starts_if_free(alloc, machine, call_term(alloc, call, object)?),
        None => {
            let_call_go(call);
            says(alloc, b"= not built")
        }
    }
}

/// What is asked by `call` with a text.
fn ask_call(alloc: Global, machine: &Machine, bench: &Bench, text: &[u8]) -> Result<Asked, NoMemory>
    requires program { machine.now.program ≡ loaded }
    requires fits { length text.now ≤ 65536 }
    ensures { IfOk result (IsFor machine.now bench.now (call_outcome (call_of text.now) text.now)) }
{
    cells_are_read();
    sums_are_of_sums();
    match read_call(alloc, text)? {
        Some(call) => ask_called(alloc, machine, bench, call),
        None => reads_if_free(alloc, machine, JavaText::Call, text),
    }
}

/// What is asked by `inspect` with a name.
fn ask_inspect(
    alloc: Global,
    machine: &Machine,
    bench: &Bench,
    name: &[u8],
) -> Result<Asked, NoMemory>
    requires { machine.now.program ≡ loaded }
    ensures { IfOk result (IsFor machine.now bench.now (inspect_outcome loaded name.now)) }
{
    if !is_plain(machine.program(), name) {
        return says(alloc, b"= not built");
    }
    match bench.find(name) {
        Some(value) => {
            let text = inspection(alloc, machine.program(), machine.store(), name, value)?;
            Ok(replied(text))
        }
        None => says_of(alloc, b"= unknown ", name),
    }
}

/// Lets an expression go. Its drop stands here alone, so that no caller's proof goes through it.
fn let_go(_argument: Option<Expr>) {}

/// Lets a call go, as `let_go` does an expression.
fn let_call_go(_call: CellCall) {}

/// What is asked by a line of this form.
fn ask_command(
    alloc: Global,
    machine: &Machine,
    bench: &Bench,
    command: &Command,
) -> Result<Asked, NoMemory>
    requires program { machine.now.program ≡ loaded }
    requires short { IsShort (Ok command.now) }
    ensures ok { IfOk result (IsFor machine.now bench.now (outcome_of loaded (Ok command.now))) }
    ensures err { OnErr result (takes_memory (Ok command.now) ≡ true) }
{
    match command {
        Command::Blank => Ok(nothing(alloc)),
        Command::Pad { text } => ask_pad(alloc, machine, text.as_slice()),
        Command::New { name, text } => {
            ask_new(alloc, machine, bench, name.as_slice(), text.as_slice())
        }
        Command::Call { text } => ask_call(alloc, machine, bench, text.as_slice()),
        Command::Inspect { name } => ask_inspect(alloc, machine, bench, name.as_slice()),
        Command::Wait => Ok(opens(alloc, Wait::Told)),
        Command::Unbuilt => says(alloc, b"= not built"),
        Command::Quit => Ok(nothing(alloc)),
    }
}

/// Reads a line of `pad` or of `bench`.
fn read(alloc: Global, pad: bool, line: &[u8]) -> Result<Command, LineFault>
    ensures form { IsForm result (form_in pad line.now) }
    ensures short { IsShort (form_in pad line.now) }
{
    if pad {
        read_pad_line(alloc, line)
    } else {
        read_line(alloc, line)
    }
}

/// What a line of `pad` or of `bench` asks.
///
/// # Errors
///
/// `NoMemory`, which does not come for `quit` and a blank line.
pub fn ask(
    alloc: Global,
    machine: &Machine,
    bench: &Bench,
    pad: bool,
    line: &[u8],
) -> Result<Asked, NoMemory>
    requires { machine.now.program ≡ loaded }
    ensures ok { IfOk result (λ asked. (s : After) → Stands machine.now s.world → bench.now ≡ s.names → IsAsked machine.now (outcome_of loaded (form_in pad line.now) s) asked) }
    ensures err { OnErr result (takes_memory (form_in pad line.now) ≡ true) }
{
    match read(alloc, pad, line) {
        Ok(command) => ask_command(alloc, machine, bench, &command),
        Err(LineFault::BadLine { at }) => says_bad(alloc, at),
        Err(LineFault::NoMemory) => Err(NoMemory),
    }
}
