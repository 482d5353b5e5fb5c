ghost use Rattle.std.specs.Prelude.{◌≡◌, ◌≢◌, Some, None};
ghost use Rattle.bj_heap.specs.Objects.{cell};
ghost use Rattle.bj_store.specs.Kinds.{replaces as spec_replaces};
ghost use Rattle.bj_store.specs.State.{is_of as spec_is_of, referred as spec_referred, field_in};

use bj_core::{Ty, Val};
use bj_heap::Heap;

/// The object that a value refers to.
pub fn referred(value: Val) -> Option<u32>
    ensures { result ≡ spec_referred value }
{
    match value {
        Val::Ref { object, .. } => Some(object),
        _ => None,
    }
}

/// Whether what was made of one type is an object of the class that is the other.
pub fn is_of(own: Option<Ty>, of: Ty) -> bool
    ensures { result ≡ spec_is_of own of }
{
    match own {
        Some(Ty::Class(own)) => match of {
            Ty::Class(class) => own == class,
            _ => false,
        },
        _ => false,
    }
}

/// Whether a value may take the place of another in a field: both are of one primitive type, or null. No reference is
/// stored yet.
pub fn replaces(new: Val, old: Val) -> bool
    ensures { result ≡ spec_replaces new old }
{
    match new {
        Val::Int(_) => matches!(old, Val::Int(_)),
        Val::Long(_) => matches!(old, Val::Long(_)),
        Val::Bool(_) => matches!(old, Val::Bool(_)),
        Val::Char(_) => matches!(old, Val::Char(_)),
        Val::Null => matches!(old, Val::Null),
        Val::Ref { .. } => false,
    }
}

/// The value in a field of what a reference refers to, where that is an object of the reference's class.
pub fn field(heap: &Heap, object: Val, slot: u32) -> Option<Val>
    ensures { result ≡ field_in heap.now.state.objects object slot }
{
    match object {
        Val::Ref { object, of } => {
            if !is_of(heap.own(object), of) {
                return None;
            }
            heap.cell(object, slot)
        }
        _ => None,
    }
}
