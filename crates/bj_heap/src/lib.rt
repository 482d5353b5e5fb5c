//! The heap: objects by number, and the values of their cells.
#![tactic(auto)]

mod fault;
mod header;
mod heap;

pub use fault::HeapFault;
pub use heap::{Heap, cells_are_a_map};
