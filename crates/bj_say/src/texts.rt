ghost use Rattle.std.specs.Prelude.{◌≡◌, ◌++◌, OnOk, codes, decimal, if◌then◌else◌};
ghost use Rattle.std.specs.Fmt.{signed_decimal};
ghost use Rattle.bj_say.specs.Texts.{class_name, object_text, type_text, value_text};

use bj_core::{Bytes, NoMemory, Program, Ty, Val};
use std::alloc::Global;

/// Adds the name of the class with this number.
pub(crate) fn add_class(text: &mut Bytes, program: &Program, class: u32) -> Result<(), NoMemory>
    ensures { OnOk result (text.new ≡ text.old ++ class_name program.now class) }
{
    match program.classes.get(class as usize) {
        None => Ok(()),
        Some(found) => text.extend(found.name.as_slice()),
    }
}

/// Adds a type as it is written.
pub(crate) fn add_type(text: &mut Bytes, program: &Program, ty: Ty) -> Result<(), NoMemory>
    ensures { OnOk result (text.new ≡ text.old ++ type_text program.now ty) }
{
    match ty {
        Ty::Int => text.extend(b"int".as_slice()),
        Ty::Long => text.extend(b"long".as_slice()),
        Ty::Bool => text.extend(b"boolean".as_slice()),
        Ty::Char => text.extend(b"char".as_slice()),
        Ty::Void => text.extend(b"void".as_slice()),
        Ty::Null => text.extend(b"Object".as_slice()),
        Ty::Class(class) => add_class(text, program, class),
        Ty::Array { .. } => Ok(()),
    }
}

/// Adds an object of a class as it is written.
fn add_object(
    alloc: Global,
    text: &mut Bytes,
    program: &Program,
    object: u32,
    class: u32,
) -> Result<(), NoMemory>
    ensures { OnOk result (text.new ≡ text.old ++ (codes "<" ++ class_name program.now class ++ codes " " ++ decimal object ++ codes ">")) }
{
    let number = format!(in alloc; " {object}>")?;
    text.extend(b"<".as_slice())?;
    add_class(text, program, class)?;
    text.extend(number.as_bytes())
}

/// Adds what a reference refers to as it is written.
fn add_reference(
    alloc: Global,
    text: &mut Bytes,
    program: &Program,
    object: u32,
    of: Ty,
) -> Result<(), NoMemory>
    ensures { OnOk result (text.new ≡ text.old ++ object_text program.now object of) }
{
    match of {
        Ty::Class(class) => add_object(alloc, text, program, object, class),
        _ => Ok(()),
    }
}

/// Adds an `int` in decimal.
fn add_int(alloc: Global, text: &mut Bytes, number: i32) -> Result<(), NoMemory>
    ensures { OnOk result (text.new ≡ text.old ++ signed_decimal number) }
{
    let digits = format!(in alloc; "{number}")?;
    text.extend(digits.as_bytes())
}

/// Adds a `long` in decimal.
fn add_long(alloc: Global, text: &mut Bytes, number: i64) -> Result<(), NoMemory>
    ensures { OnOk result (text.new ≡ text.old ++ signed_decimal number) }
{
    let digits = format!(in alloc; "{number}")?;
    text.extend(digits.as_bytes())
}

/// Adds a truth value.
fn add_bool(text: &mut Bytes, is_true: bool) -> Result<(), NoMemory>
    ensures { OnOk result (text.new ≡ text.old ++ (if is_true then codes "true" else codes "false")) }
{
    if is_true {
        text.extend(b"true".as_slice())
    } else {
        text.extend(b"false".as_slice())
    }
}

/// Adds a value as it is written.
///
/// # Errors
///
/// `NoMemory`, with a part of it added.
pub fn add_value(
    alloc: Global,
    text: &mut Bytes,
    program: &Program,
    value: Val,
) -> Result<(), NoMemory>
    ensures { OnOk result (text.new ≡ text.old ++ value_text program.now value) }
{
    match value {
        Val::Int(number) => add_int(alloc, text, number),
        Val::Long(number) => add_long(alloc, text, number),
        Val::Bool(is_true) => add_bool(text, is_true),
        Val::Char(_) => Ok(()),
        Val::Null => text.extend(b"null".as_slice()),
        Val::Ref { object, of } => add_reference(alloc, text, program, object, of),
    }
}
