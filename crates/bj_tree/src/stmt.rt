use bj_base::{Copies, JText, NoMemory, Seq, Span};
use bj_expr_tree::{ExprTree, ExprTrees, NamedPlace, TypeTree, TypeTrees, copy_optional_expr};
use sqlite_items::{Boxed, Items};
use std::alloc::Global;

/// A variable of a declaration: its name, the brackets behind the name, and its initializer [JLS 8.3, 14.4].
#[derive(Drop)]
pub struct VariableTree {
    /// Where its name stands.
    pub at: Span,
    /// Its name.
    pub name: JText,
    /// How many pairs of brackets stand behind its name.
    pub dims: u32,
    /// Its initializer; values in braces are a tree of their own.
    pub init: Option<Boxed<ExprTree>>,
}

/// The variables of a declaration.
pub type VariableTrees = Seq<VariableTree>;

impl Copies for VariableTree {
    fn copy(&self, alloc: Global) -> Result<VariableTree, NoMemory> {
        Ok(VariableTree {
            at: self.at,
            name: self.name.copy(alloc)?,
            dims: self.dims,
            init: copy_optional_expr(alloc, &self.init)?,
        })
    }
}

/// Statements.
pub type StmtTrees = Items<StmtTree>;

/// A statement [JLS 14]. Each variant is a production, its parts in order; `at` is where its first token stands. The
/// labels of a switch and the catches of a `try` are variants too: they stand only where those statements hold them.
#[derive(Drop)]
pub enum StmtTree {
    /// A block, and where its closing brace stands [JLS 14.2].
    Block {
        at: Span,
        body: StmtTrees,
        end: Span,
    },
    /// `;` [JLS 14.6].
    Empty {
        at: Span,
    },
    /// A declaration of local variables [JLS 14.4].
    Local {
        at: Span,
        is_final: bool,
        of: TypeTree,
        variables: VariableTrees,
    },
    /// An expression statement [JLS 14.8].
    Expression {
        at: Span,
        value: Boxed<ExprTree>,
    },
    /// `if` without `else` [JLS 14.9.1].
    If {
        at: Span,
        test: Boxed<ExprTree>,
        body: Boxed<StmtTree>,
    },
    /// `if` with `else` [JLS 14.9.2].
    IfElse {
        at: Span,
        test: Boxed<ExprTree>,
        body: Boxed<StmtTree>,
        other: Boxed<StmtTree>,
    },
    /// `while` [JLS 14.12].
    While {
        at: Span,
        test: Boxed<ExprTree>,
        body: Boxed<StmtTree>,
    },
    /// `do` [JLS 14.13].
    Do {
        at: Span,
        body: Boxed<StmtTree>,
        test: Boxed<ExprTree>,
    },
    /// `for`: a declaration or expression statements, the condition, the updates and the body [JLS 14.14.1].
    For {
        at: Span,
        init: StmtTrees,
        test: Option<Boxed<ExprTree>>,
        update: ExprTrees,
        body: Boxed<StmtTree>,
    },
    /// `for` over an array [JLS 14.14.2].
    ForEach {
        at: Span,
        is_final: bool,
        of: TypeTree,
        name: NamedPlace,
        over: Boxed<ExprTree>,
        body: Boxed<StmtTree>,
    },
    /// `switch`, whose members are labels and statements as they stand [JLS 14.11].
    Switch {
        at: Span,
        value: Boxed<ExprTree>,
        members: StmtTrees,
    },
    /// `case`, a label of a switch [JLS 14.11].
    Case {
        at: Span,
        value: Boxed<ExprTree>,
    },
    /// `default`, a label of a switch [JLS 14.11].
    Default {
        at: Span,
    },
    /// A labelled statement [JLS 14.7].
    Labelled {
        at: Span,
        label: JText,
        body: Boxed<StmtTree>,
    },
    /// `break` [JLS 14.15].
    Break {
        at: Span,
        label: Option<NamedPlace>,
    },
    /// `continue` [JLS 14.16].
    Continue {
        at: Span,
        label: Option<NamedPlace>,
    },
    /// `return` [JLS 14.17].
    Return {
        at: Span,
        value: Option<Boxed<ExprTree>>,
    },
    /// `throw` [JLS 14.18].
    Throw {
        at: Span,
        value: Boxed<ExprTree>,
    },
    /// `synchronized` on an object [JLS 14.19].
    Synchronized {
        at: Span,
        lock: Boxed<ExprTree>,
        body: Boxed<StmtTree>,
    },
    /// `synchronized` on a class, named before `.class` [JLS 14.19, 15.8.2].
    SynchronizedClass {
        at: Span,
        class: NamedPlace,
        body: Boxed<StmtTree>,
    },
    /// `try` without `finally`: its block and its catches [JLS 14.20.1].
    Try {
        at: Span,
        body: Boxed<StmtTree>,
        catches: StmtTrees,
    },
    /// `try` with `finally`: its block, its catches, if any, and the block of its `finally` [JLS 14.20.2].
    TryFinally {
        at: Span,
        body: Boxed<StmtTree>,
        catches: StmtTrees,
        finally: Boxed<StmtTree>,
    },
    /// A catch of a `try`, with the types that it takes [JLS 14.20].
    Catch {
        at: Span,
        is_final: bool,
        types: TypeTrees,
        name: NamedPlace,
        body: Boxed<StmtTree>,
    },
    /// `this(..);` or `super(..);` at the head of a constructor's body [JLS 8.8.7.1].
    ConstructorCall {
        at: Span,
        is_super: bool,
        args: ExprTrees,
    },
}
