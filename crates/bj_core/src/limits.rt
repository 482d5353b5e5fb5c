/// How much a heap may hold.
#[derive(Clone, Copy, Debug, PartialEq, Eq)]
pub struct HeapLimits {
    /// The most objects of an epoch.
    pub objects: u32,
    /// The most cells: a field, an element and a unit of a text cost one each.
    pub cells: u32,
}

/// How much a machine may do.
#[derive(Clone, Copy, Debug, PartialEq, Eq)]
pub struct Limits {
    /// The most actions of a log.
    pub acts: u64,
    /// The most frames of a thread.
    pub frames: u32,
    /// The most threads of an epoch.
    pub threads: u32,
    /// The limits of the heap.
    pub heap: HeapLimits,
}
