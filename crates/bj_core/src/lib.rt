//! The data that all layers of the machine name: types, values, the core tree, actions and entries, beside what `bj_base` holds.
#![tactic(auto)]

mod action;
mod entry;
mod frame;
mod limits;
mod program;
mod tree;
mod types;

pub use action::{Action, Answer, Done, Piece};
pub use bj_base::{
    Bytes, Copies, Fault, FaultCode, Ids, JText, Name, Names, NoMemory, Numbers, Op, Refusal, Seq,
    Sizes, Span,
};
pub use entry::{Entry, Outcome, Reason, Tested, Verdict, Verdicts, Why};
pub use frame::{Frame, Frames, Local, Locals, Point, Term, TermKind};
pub use limits::{HeapLimits, Limits};
pub use program::{
    Access, Body, Class, Classes, Field, Fields, Marks, Method, Methods, NO_CLASS, Program,
};
pub use tree::{Expr, Stmt};
pub use types::{Const, Elem, Key, Ty, Tys, Val, Vals};
