/// The places of a console line in which a text of Java stands. The text begins at its first character there, and ends with the line.
#[derive(Clone, Copy, Debug, PartialEq, Eq)]
pub enum JavaText {
    /// Behind `pad`: an expression, or statements.
    Line,
    /// Behind `call`: a call of a method.
    Call,
    /// Behind `new x`: a creation of an object without its word `new`.
    Creation,
}
