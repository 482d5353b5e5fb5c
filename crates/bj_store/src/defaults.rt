ghost use Rattle.std.specs.Prelude.{◌≡◌, ◌++◌, OnOk};
ghost use Rattle.bj_store.specs.Objects.{default_of as spec_default_of, defaults as spec_defaults, own_defaults, class_named as spec_class_named};

use bj_core::{Class, Field, NO_CLASS, NoMemory, Ty, Val};

/// The default value of a variable of a type [JLS 4.12.5].
pub fn default_of(ty: Ty) -> Val
    ensures { result ≡ spec_default_of ty }
{
    match ty {
        Ty::Int => Val::Int(0),
        Ty::Long => Val::Long(0),
        Ty::Bool => Val::Bool(false),
        Ty::Char => Val::Char(0),
        _ => Val::Null,
    }
}

fn push_own(values: &mut Vec<Val>, fields: &[Field]) -> Result<(), NoMemory>
    ensures { OnOk result (values.new.items ≡ values.old.items ++ own_defaults fields.now) }
{
    for field in fields {
        if !field.is_static {
            if values.push(default_of(field.ty)).is_err() {
                return Err(NoMemory);
            }
        }
    }
    Ok(())
}

/// Adds the default values of an object's fields: those of the superclass first, each class's in source order. At most
/// so many classes are gone up through.
pub fn push_defaults(
    values: &mut Vec<Val>,
    classes: &[Class],
    class: u32,
    depth: usize,
) -> Result<(), NoMemory>
    ensures { OnOk result (values.new.items ≡ values.old.items ++ spec_defaults depth classes.now class) }
{
    if depth == 0 {
        return Ok(());
    }
    match classes.get(class as usize) {
        None => Ok(()),
        Some(found) => match found.above {
            None => push_own(values, found.fields.as_slice()),
            Some(above) => {
                push_defaults(values, classes, above, depth - 1)?;
                push_own(values, found.fields.as_slice())
            }
        },
    }
}

/// The first class of a name, or `NO_CLASS`.
pub fn class_named(classes: &[Class], name: &[u8]) -> u32
    ensures { result ≡ spec_class_named classes.now name.now }
{
    for (number, class) in classes.iter().enumerate() {
        if number >= NO_CLASS as usize {
            return NO_CLASS;
        }
        if class.name.as_slice() == name {
            return number as u32;
        }
    }
    NO_CLASS
}
