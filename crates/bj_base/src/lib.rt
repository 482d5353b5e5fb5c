//! What both the reader of Java and its machine name: lists and texts, names, places, operators, faults, and want of memory.
#![tactic(auto)]

mod copies;
mod fault;
mod name;
mod op;
mod seq;
mod span;

pub use copies::{Copies, NoMemory};
pub use fault::{Fault, FaultCode, Refusal};
pub use name::{Name, Names};
pub use op::Op;
pub use seq::{Bytes, Ids, JText, Numbers, Seq, Sizes};
pub use span::Span;
