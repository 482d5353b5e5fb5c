use bj_core::Limits;

/// What a session begins with.
#[derive(Clone, Copy, Debug, PartialEq, Eq)]
pub struct Opening {
    /// Whether the command is `pad`.
    pub pad: bool,
    /// How much its machine may do.
    pub limits: Limits,
}
