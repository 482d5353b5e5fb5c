/// The parts of a statement that others are nested in [JLS 14].
#[derive(Clone, Copy, Debug, PartialEq, Eq)]
pub enum StmtPart {
    /// A statement that may be the body of another: no declaration of variables.
    Statement,
    /// A statement of a block, which may be a declaration [JLS 14.2].
    BlockStatement,
    /// A block [JLS 14.2].
    Block,
    /// A member of a `switch` [JLS 14.11].
    Member,
    /// A label of a `switch`.
    Label,
    /// A catch of a `try` [JLS 14.20].
    Catch,
    /// An expression as a statement, without its semicolon [JLS 14.8].
    Evaluation,
    /// A call of another constructor [JLS 8.8.7.1].
    ConstructorCall,
    /// The body of a constructor [JLS 8.8.7].
    ConstructorBody,
}
