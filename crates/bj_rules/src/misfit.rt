use bj_base::{FaultCode, Span};

/// The first thing that is wrong with a part of a class.
#[derive(Clone, Copy, Debug, PartialEq, Eq)]
pub struct Misfit {
    /// The place of the token that is wrong.
    pub at: Span,
    /// What is wrong with it.
    pub code: FaultCode,
}
