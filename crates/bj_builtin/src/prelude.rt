ghost use Rattle.std.specs.Prelude.{◌≡◌, IfOk};
ghost use Rattle.bj_builtin.specs.Builtin.{prelude_class as spec_prelude_class, object_class as spec_object_class, thread_class as spec_thread_class, print_stream_class as spec_print_stream_class, input_stream_class as spec_input_stream_class, out_of_memory_class as spec_out_of_memory_class};

use crate::parts::{no_start, spot};
use bj_core::{Class, Name, NoMemory, Seq};
use std::alloc::Global;

/// A class of the prelude, without members.
fn prelude_class(alloc: Global, name: &[u8], above: Option<u32>) -> Result<Class, NoMemory>
    ensures { IfOk result (λ c. c ≡ spec_prelude_class name.now above) }
{
    Ok(Class {
        name: Name::from_slice(alloc, name)?,
        is_interface: false,
        is_abstract: false,
        is_final: false,
        above,
        interfaces: Seq::new(alloc),
        fields: Seq::new(alloc),
        methods: Seq::new(alloc),
        static_start: no_start(alloc, spot(1, 1)),
        instance_start: no_start(alloc, spot(1, 1)),
        is_prelude: true,
    })
}

/// `Object`, above which there is no class.
pub fn object_class(alloc: Global) -> Result<Class, NoMemory>
    ensures { IfOk result (λ c. c ≡ spec_object_class) }
{
    prelude_class(alloc, b"Object", None)
}

/// `Thread`
pub fn thread_class(alloc: Global) -> Result<Class, NoMemory>
    ensures { IfOk result (λ c. c ≡ spec_thread_class) }
{
    prelude_class(alloc, b"Thread", Some(0))
}

/// `PrintStream`
pub fn print_stream_class(alloc: Global) -> Result<Class, NoMemory>
    ensures { IfOk result (λ c. c ≡ spec_print_stream_class) }
{
    prelude_class(alloc, b"PrintStream", Some(0))
}

/// `InputStream`
pub fn input_stream_class(alloc: Global) -> Result<Class, NoMemory>
    ensures { IfOk result (λ c. c ≡ spec_input_stream_class) }
{
    prelude_class(alloc, b"InputStream", Some(0))
}

/// `OutOfMemoryError`
pub fn out_of_memory_class(alloc: Global) -> Result<Class, NoMemory>
    ensures { IfOk result (λ c. c ≡ spec_out_of_memory_class) }
{
    prelude_class(alloc, b"OutOfMemoryError", Some(0))
}
