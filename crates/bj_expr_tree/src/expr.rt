use crate::TypeTree;
use bj_base::{JText, Span};
use sqlite_items::{Boxed, Items};

/// What kind of literal it is [JLS 15.8.1].
#[derive(Clone, Copy, Debug, PartialEq, Eq)]
pub enum LiteralKind {
    /// An `int` literal.
    Int,
    /// A `long` literal.
    Long,
    /// A character literal.
    Char,
    /// A string literal.
    Text,
    /// `true`
    True,
    /// `false`
    False,
    /// `null`
    Null,
}

/// The unary operators that leave their operand as it is [JLS 15.15.3 to 15.15.6].
#[derive(Clone, Copy, Debug, PartialEq, Eq)]
pub enum UnaryOp {
    /// `+`
    Plus,
    /// `-`
    Minus,
    /// `~`
    Complement,
    /// `!`
    Not,
}

/// The operators that step a variable, before or after it [JLS 15.14.2, 15.14.3, 15.15.1, 15.15.2].
#[derive(Clone, Copy, Debug, PartialEq, Eq)]
pub enum StepOp {
    /// `++`
    Increment,
    /// `--`
    Decrement,
}

/// The operators between two operands [JLS 15.17 to 15.24].
#[derive(Clone, Copy, Debug, PartialEq, Eq)]
pub enum BinaryOp {
    /// `*`
    Mul,
    /// `/`
    Div,
    /// `%`
    Rem,
    /// `+`
    Add,
    /// `-`
    Sub,
    /// `<<`
    Shl,
    /// `>>`
    Shr,
    /// `>>>`
    Ushr,
    /// `<`
    Less,
    /// `<=`
    AtMost,
    /// `>`
    Greater,
    /// `>=`
    AtLeast,
    /// `==`
    Equal,
    /// `!=`
    Unequal,
    /// `&`
    And,
    /// `^`
    Xor,
    /// `|`
    Or,
    /// `&&`
    Both,
    /// `||`
    Either,
}

/// The assignment operators [JLS 15.26].
#[derive(Clone, Copy, Debug, PartialEq, Eq)]
pub enum AssignOp {
    /// `=`
    Plain,
    /// `*=`
    Mul,
    /// `/=`
    Div,
    /// `%=`
    Rem,
    /// `+=`
    Add,
    /// `-=`
    Sub,
    /// `<<=`
    Shl,
    /// `>>=`
    Shr,
    /// `>>>=`
    Ushr,
    /// `&=`
    And,
    /// `^=`
    Xor,
    /// `|=`
    Or,
}

/// Expressions.
pub type ExprTrees = Items<ExprTree>;

/// An expression [JLS 15]. Each variant is a production, its parts in order; `at` is where its first token stands.
#[derive(Drop)]
pub enum ExprTree {
    /// A literal, with its units as they stand [JLS 15.8.1].
    Literal {
        at: Span,
        kind: LiteralKind,
        text: JText,
    },
    /// `this` [JLS 15.8.3].
    This {
        at: Span,
    },
    /// An expression in parentheses, a node of its own [JLS 15.8.5].
    Paren {
        at: Span,
        inner: Boxed<ExprTree>,
    },
    /// A simple name [JLS 6.5].
    Name {
        at: Span,
        name: JText,
    },
    /// A field of an object, or a name after a name [JLS 15.11.1].
    Field {
        at: Span,
        target: Boxed<ExprTree>,
        name: JText,
    },
    /// A field by `super` [JLS 15.11.2].
    SuperField {
        at: Span,
        name: JText,
    },
    /// A call by a simple name [JLS 15.12].
    Call {
        at: Span,
        name: JText,
        args: ExprTrees,
    },
    /// A call of a method of an object or a class [JLS 15.12].
    MethodCall {
        at: Span,
        target: Boxed<ExprTree>,
        name: JText,
        args: ExprTrees,
    },
    /// A call by `super` [JLS 15.12].
    SuperCall {
        at: Span,
        name: JText,
        args: ExprTrees,
    },
    /// An element of an array [JLS 15.10.3].
    Index {
        at: Span,
        array: Boxed<ExprTree>,
        index: Boxed<ExprTree>,
    },
    /// A new object [JLS 15.9].
    New {
        at: Span,
        class: JText,
        args: ExprTrees,
    },
    /// A new array with the sizes of its first dimensions, and how many follow without one [JLS 15.10.1].
    NewArray {
        at: Span,
        of: TypeTree,
        sizes: ExprTrees,
        dims: u32,
    },
    /// A new array with its values [JLS 15.10.1].
    NewValues {
        at: Span,
        of: TypeTree,
        values: ExprTrees,
    },
    /// Values in braces, as an array's initializer [JLS 10.6]. It stands only where an initializer does.
    Braces {
        at: Span,
        values: ExprTrees,
    },
    /// `++` or `--` after its operand [JLS 15.14.2, 15.14.3].
    Postfix {
        at: Span,
        op: StepOp,
        operand: Boxed<ExprTree>,
    },
    /// `++` or `--` before its operand [JLS 15.15.1, 15.15.2].
    Prefix {
        at: Span,
        op: StepOp,
        operand: Boxed<ExprTree>,
    },
    /// A unary operator that leaves its operand as it is [JLS 15.15.3 to 15.15.6].
    Unary {
        at: Span,
        op: UnaryOp,
        operand: Boxed<ExprTree>,
    },
    /// A cast [JLS 15.16].
    Cast {
        at: Span,
        to: TypeTree,
        operand: Boxed<ExprTree>,
    },
    /// An operator between two operands [JLS 15.17 to 15.24].
    Binary {
        at: Span,
        op: BinaryOp,
        left: Boxed<ExprTree>,
        right: Boxed<ExprTree>,
    },
    /// `instanceof` [JLS 15.20.2].
    InstanceOf {
        at: Span,
        value: Boxed<ExprTree>,
        of: TypeTree,
    },
    /// `? :` [JLS 15.25].
    Conditional {
        at: Span,
        test: Boxed<ExprTree>,
        chosen: Boxed<ExprTree>,
        other: Boxed<ExprTree>,
    },
    /// An assignment, plain or compound [JLS 15.26].
    Assign {
        at: Span,
        op: AssignOp,
        target: Boxed<ExprTree>,
        value: Boxed<ExprTree>,
    },
}
