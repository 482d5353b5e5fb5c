ghost use Rattle.std.specs.Prelude.{◌≡◌, ◌++◌, IfOk, codes};
ghost use Rattle.bj_say.specs.Events.{done_event, name_event, reason_event, result_event, threw_event, value_event, woke_event, written_line, end_event};
ghost use Rattle.bj_say.specs.Texts.{class_name};

use crate::Wait;
use crate::texts::{add_class, add_value};
use bj_core::{Bytes, Done, Name, NoMemory, Program, Reason, Seq, Ty, Val};
use std::alloc::Global;

/// A reply as it is written.
///
/// # Errors
///
/// `NoMemory`.
pub fn written_text(alloc: Global, reply: &Bytes) -> Result<Bytes, NoMemory>
    ensures { IfOk result (λ text. text ≡ written_line reply.now) }
{
    let mut text = Seq::from_slice(alloc, reply.as_slice())?;
    if !text.is_empty() {
        text.extend(b"\n".as_slice())?;
    }
    Ok(text)
}

/// The event of a value that is bound to no name.
fn value_text(alloc: Global, value: Val) -> Result<Bytes, NoMemory>
    ensures { IfOk result (λ text. text ≡ value_event value) }
{
    match value {
        Val::Int(number) => {
            let text = format!(in alloc; "! {number} (int)\n")?;
            Seq::from_slice(alloc, text.as_bytes())
        }
        _ => Ok(Seq::new(alloc)),
    }
}

/// The event of a name that was bound.
fn name_text(alloc: Global, program: &Program, name: &Name, value: Val) -> Result<Bytes, NoMemory>
    ensures { IfOk result (λ text. text ≡ name_event program.now name.now value) }
{
    let mut text = Seq::from_slice(alloc, b"! ".as_slice())?;
    text.extend(name.as_slice())?;
    text.extend(b" ".as_slice())?;
    add_value(alloc, &mut text, program, value)?;
    text.extend(b"\n".as_slice())?;
    Ok(text)
}

/// The event of a value, of a term that binds a name or none.
fn result_text(
    alloc: Global,
    program: &Program,
    name: &Option<Name>,
    value: Val,
) -> Result<Bytes, NoMemory>
    ensures { IfOk result (λ text. text ≡ result_event program.now name.now value) }
{
    match name {
        None => value_text(alloc, value),
        Some(name) => name_text(alloc, program, name, value),
    }
}

/// The event of a throwable of a class.
fn throw_text(alloc: Global, program: &Program, class: u32) -> Result<Bytes, NoMemory>
    ensures { IfOk result (λ text. text ≡ codes "! threw " ++ class_name program.now class ++ codes "\n") }
{
    let mut text = Seq::from_slice(alloc, b"! threw ".as_slice())?;
    add_class(&mut text, program, class)?;
    text.extend(b"\n".as_slice())?;
    Ok(text)
}

/// The event of what was thrown.
fn threw_text(alloc: Global, program: &Program, thrown: Val) -> Result<Bytes, NoMemory>
    ensures { IfOk result (λ text. text ≡ threw_event program.now thrown) }
{
    match thrown {
        Val::Ref {
            of: Ty::Class(class),
            ..
        } => throw_text(alloc, program, class),
        _ => Ok(Seq::new(alloc)),
    }
}

/// The event of the end of a term that binds a name or none.
fn done_text(
    alloc: Global,
    program: &Program,
    name: &Option<Name>,
    done: Done,
) -> Result<Bytes, NoMemory>
    ensures { IfOk result (λ text. text ≡ done_event program.now name.now done) }
{
    match done {
        Done::Nothing => Seq::from_slice(alloc, b"! done\n".as_slice()),
        Done::Value(value) => result_text(alloc, program, name, value),
        Done::Threw(thrown) => threw_text(alloc, program, thrown),
    }
}

/// The event of the end of a term that binds a name or none, if it has ended.
///
/// # Errors
///
/// `NoMemory`.
pub fn end_text(
    alloc: Global,
    program: &Program,
    name: &Option<Name>,
    end: Option<Done>,
) -> Result<Bytes, NoMemory>
    ensures { IfOk result (λ text. text ≡ end_event program.now name.now end) }
{
    match end {
        None => Ok(Seq::new(alloc)),
        Some(done) => done_text(alloc, program, name, done),
    }
}

/// The event of why a wait ends.
fn reason_text(alloc: Global, reason: Reason) -> Result<Bytes, NoMemory>
    ensures { IfOk result (λ text. text ≡ reason_event reason) }
{
    match reason {
        Reason::Idle => Seq::from_slice(alloc, b"! idle\n".as_slice()),
        Reason::Halted => Seq::from_slice(alloc, b"! halted\n".as_slice()),
        Reason::Stuck => Seq::from_slice(alloc, b"! stuck\n".as_slice()),
        Reason::Spent => Seq::from_slice(alloc, b"! spent\n".as_slice()),
        Reason::Still => Seq::from_slice(alloc, b"! still\n".as_slice()),
        Reason::Jobs => Seq::from_slice(alloc, b"! jobs\n".as_slice()),
    }
}

/// The event of the end of a wait. Where the wait was silent it takes no memory.
///
/// # Errors
///
/// `NoMemory`.
pub fn woke_text(alloc: Global, wait: Option<Wait>, reason: Reason) -> Result<Bytes, NoMemory>
    ensures { IfOk result (λ text. text ≡ woke_event wait reason) }
{
    match wait {
        Some(Wait::Told) => reason_text(alloc, reason),
        _ => Ok(Seq::new(alloc)),
    }
}
