//! The instructions, the code of bodies, and what one instruction does to a call frame.
#![tactic(auto)]

mod calling;
mod code;
mod frame;
mod operands;
mod stepping;

pub use calling::{arguments, callee, leave_arguments};
pub use code::{Bodies, ClassBodies, Code, CodeBody, Handler, Handlers, Instr, Instrs};
pub use frame::CallFrame;
pub use operands::Operands;
pub use stepping::{Effect, give_back, resume, step};
