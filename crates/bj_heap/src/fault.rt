/// Why the heap makes no object.
#[derive(Clone, Copy, Debug, PartialEq, Eq)]
pub enum HeapFault {
    /// The next object, or its cells, would pass a limit.
    Full,
    /// Want of memory.
    NoMemory,
}
