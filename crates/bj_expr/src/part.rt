/// The parts of an expression that others are nested in.
#[derive(Clone, Copy, Debug, PartialEq, Eq)]
pub enum Part {
    /// A whole expression.
    Expression,
    /// A conditional expression, or one that binds tighter [JLS 15.25].
    Conditional,
    /// An operand to the right of an operator of the rank, from 0 for the ones that bind tightest [JLS 15.17 to 15.24].
    Operand(u8),
    /// A unary expression [JLS 15.15].
    Unary,
    /// A unary expression that does not begin with `+`, `-`, `++` or `--` [JLS 15.15].
    Plain,
    /// What a variable is given: an expression, or values in braces [JLS 8.3, 10.6].
    Initializer,
}
