ghost use Rattle.std.specs.Prelude.{◌≡◌, ◌++◌, [], ◌∷◌, map, false, IfOk, OnOk};
ghost use Rattle.bj_store.specs.Objects.{first_objects, object_named};
ghost use Rattle.bj_store.specs.State.{first_state as spec_first_state, thread_row};

use crate::defaults::{class_named, push_defaults};
use crate::row::{Initialization, ThreadRow};
use bj_core::{Class, HeapLimits, NoMemory};
use bj_heap::Heap;
use std::alloc::Global;

/// Makes an object of the first class of a name. Where the limits have no room for it, that is want of memory too.
fn make_first(
    alloc: Global,
    heap: &mut Heap,
    classes: &[Class],
    name: &[u8],
) -> Result<(), NoMemory>
    ensures { OnOk result (heap.new.state ≡ record heap.old.state { objects = heap.old.state.objects ++ object_named classes.now name.now ∷ [] }) }
{
    let class = class_named(classes, name);
    let mut values = Vec::new(alloc);
    push_defaults(&mut values, classes, class, classes.len())?;
    match heap.make(class, values.as_slice()) {
        Ok(_) => Ok(()),
        Err(_) => Err(NoMemory),
    }
}

/// A heap with the Thread of `main`, `System.out`, `System.in` and a spare OutOfMemoryError.
pub fn first_heap(alloc: Global, classes: &[Class], limits: HeapLimits) -> Result<Heap, NoMemory>
    ensures { IfOk result (λ heap. heap.state ≡ record { limits = limits; objects = first_objects classes.now }) }
{
    let mut heap = Heap::new(alloc, limits);
    make_first(alloc, &mut heap, classes, b"Thread")?;
    make_first(alloc, &mut heap, classes, b"PrintStream")?;
    make_first(alloc, &mut heap, classes, b"InputStream")?;
    make_first(alloc, &mut heap, classes, b"OutOfMemoryError")?;
    Ok(heap)
}

/// The thread of `main`, which has no term.
pub fn first_threads(alloc: Global) -> Result<Vec<ThreadRow>, NoMemory>
    ensures { IfOk result (λ threads. threads.items ≡ thread_row 1 false ∷ []) }
{
    let mut threads = Vec::new(alloc);
    let main = ThreadRow {
        object: 1,
        lives: false,
    };
    match threads.push(main) {
        Ok(()) => Ok(threads),
        Err(_) => Err(NoMemory),
    }
}

/// The prelude's classes are initialized from the start.
fn first_state(class: &Class) -> Initialization
    ensures { result ≡ spec_first_state class.now }
{
    if class.is_prelude {
        Initialization::Ready
    } else {
        Initialization::Untouched
    }
}

/// How far each class's initialization is at first.
pub fn first_states(alloc: Global, classes: &[Class]) -> Result<Vec<Initialization>, NoMemory>
    ensures { IfOk result (λ states. states.items ≡ map spec_first_state classes.now) }
{
    let mut states = Vec::new(alloc);
    for class in classes {
        if states.push(first_state(class)).is_err() {
            return Err(NoMemory);
        }
    }
    Ok(states)
}
