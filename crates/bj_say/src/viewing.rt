ghost use Rattle.std.specs.Prelude.{◌≡◌, ◌++◌, ◌+◌, suc, length, IfOk, OnOk};
ghost use Rattle.bj_eval.specs.Fields.{fields_to, of_objects};
ghost use Rattle.bj_heap.specs.Objects.{cell};
ghost use Rattle.bj_say.specs.Views.{inspection as spec_inspection, own_rows, row_of, row_text, rows_text, rows_to, view};

use crate::texts::{add_class, add_type, add_value};
use bj_core::{Bytes, Field, NoMemory, Program, Seq, Ty, Val};
use bj_store::Store;
use std::alloc::Global;

/// An object that is viewed, with the program and the state in which it stands.
#[derive(Clone, Copy)]
struct Sight<'a> {
    program: &'a Program,
    store: &'a Store,
    object: u32,
}

/// Adds the line of a field, which a class declares, with the value that it holds.
fn add_row(
    alloc: Global,
    text: &mut Bytes,
    program: &Program,
    class: u32,
    field: &Field,
    value: Val,
) -> Result<(), NoMemory>
    ensures { OnOk result (text.new ≡ text.old ++ row_text program.now (record { class = class; name = field.now.name; ty = field.now.ty; value = value })) }
{
    text.extend(b"\n= ".as_slice())?;
    add_type(text, program, field.ty)?;
    text.extend(b" ".as_slice())?;
    add_class(text, program, class)?;
    text.extend(b".".as_slice())?;
    text.extend(field.name.as_slice())?;
    text.extend(b" = ".as_slice())?;
    add_value(alloc, text, program, value)
}

/// Adds the line of a field, which a class declares, with what the object holds in a slot.
fn add_field(
    alloc: Global,
    text: &mut Bytes,
    sight: &Sight<'_>,
    class: u32,
    field: &Field,
    slot: u32,
) -> Result<(), NoMemory>
    ensures { OnOk result (text.new ≡ text.old ++ rows_text sight.now.program.now (row_of class field.now (cell sight.now.store.now.heap.objects sight.now.object slot))) }
{
    match sight.store.heap().cell(sight.object, slot) {
        None => Ok(()),
        Some(value) => add_row(alloc, text, sight.program, class, field, value),
    }
}

/// The slot after a slot.
///
/// # Errors
///
/// `NoMemory` where a `u32` has no room for it, which is never reached: an object has no more slots than its heap may
/// have cells, and a `u32` counts those.
fn next_slot(slot: u32) -> Result<u32, NoMemory>
    ensures { IfOk result (λ next. next ≡ suc slot) }
{
    match slot.checked_add(1) {
        Some(next) => Ok(next),
        None => Err(NoMemory),
    }
}

/// Adds the lines of the fields that a class declares, the first of which has this slot, and answers the slot after them.
fn add_own(
    alloc: Global,
    text: &mut Bytes,
    sight: &Sight<'_>,
    class: u32,
    fields: &[Field],
    first: u32,
) -> Result<u32, NoMemory>
    ensures next { IfOk result (λ next. next ≡ first + length (of_objects fields.now)) }
    ensures text { OnOk result (text.new ≡ text.old ++ rows_text sight.now.program.now (own_rows sight.now.store.now sight.now.object class first fields.now)) }
{
    let mut slot = first;
    for field in fields {
        if !field.is_static {
            add_field(alloc, text, sight, class, field, slot)?;
            slot = next_slot(slot)?;
        }
    }
    Ok(slot)
}

/// Adds the lines of the fields of an object of a class, those of the superclass first, and answers the slot after them.
/// At most so many classes are gone up through.
fn add_rows(
    alloc: Global,
    text: &mut Bytes,
    sight: &Sight<'_>,
    class: u32,
    depth: usize,
) -> Result<u32, NoMemory>
    ensures next { IfOk result (λ next. next ≡ length (fields_to depth sight.now.program.now.classes class)) }
    ensures text { OnOk result (text.new ≡ text.old ++ rows_text sight.now.program.now (rows_to depth sight.now.program.now.classes sight.now.store.now sight.now.object class)) }
{
    if depth == 0 {
        return Ok(0);
    }
    match sight.program.classes.get(class as usize) {
        None => Ok(0),
        Some(found) => match found.above {
            None => add_own(alloc, text, sight, class, found.fields.as_slice(), 0),
            Some(above) => {
                let next = add_rows(alloc, text, sight, above, depth - 1)?;
                add_own(alloc, text, sight, class, found.fields.as_slice(), next)
            }
        },
    }
}

/// Adds a line for each field of what a value refers to.
fn add_view(
    alloc: Global,
    text: &mut Bytes,
    program: &Program,
    store: &Store,
    value: Val,
) -> Result<(), NoMemory>
    ensures { OnOk result (text.new ≡ text.old ++ rows_text program.now (view program.now store.now value)) }
{
    match value {
        Val::Ref {
            object,
            of: Ty::Class(class),
        } => {
            let sight = Sight {
                program,
                store,
                object,
            };
            add_rows(alloc, text, &sight, class, program.classes.len())?;
            Ok(())
        }
        _ => Ok(()),
    }
}

/// The reply of an inspection: the name with its value, and a line for each field, in the one state of the store.
///
/// # Errors
///
/// `NoMemory`.
pub fn inspection(
    alloc: Global,
    program: &Program,
    store: &Store,
    name: &[u8],
    value: Val,
) -> Result<Bytes, NoMemory>
    ensures { IfOk result (λ text. text ≡ spec_inspection program.now store.now name.now value) }
{
    let mut text = Seq::from_slice(alloc, b"= ".as_slice())?;
    text.extend(name)?;
    text.extend(b" ".as_slice())?;
    add_value(alloc, &mut text, program, value)?;
    add_view(alloc, &mut text, program, store, value)?;
    Ok(text)
}
