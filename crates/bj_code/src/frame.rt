use crate::Operands;
use bj_eval::{Activation, Invocation};

/// A body that runs: which one, its activation, the place of its next instruction, and its operands. While it asks for an
/// action or calls another body, the instruction that does so is the one before.
#[derive(Drop)]
pub struct CallFrame {
    /// Which body runs.
    pub invocation: Invocation,
    /// What changes of what a debugger sees.
    pub activation: Activation,
    /// The place of the next instruction.
    pub place: usize,
    /// The operands.
    pub operands: Operands,
}
