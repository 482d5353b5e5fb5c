ghost use Rattle.std.specs.Prelude.{◌≡◌, IfOk};
ghost use Rattle.bj_core.specs.declared.tree.Expr.{out-Expr};
ghost use Rattle.bj_core.specs.Forms.{IsOperation, IsCall};

use crate::Const;
use bj_base::{Copies, NoMemory, Op, Span};
use sqlite_items::{Boxed, Items};
use std::alloc::Global;

/// An expression of the core tree: every name is resolved, and every conversion is written.
#[derive(Drop)]
pub enum Expr {
    /// A constant expression [JLS 15.28].
    Const {
        at: Span,
        value: Const,
    },
    /// A local variable or parameter of the frame, by its slot [JLS 15.14.1].
    Local {
        at: Span,
        slot: u32,
    },
    /// `this` [JLS 15.8.3].
    This {
        at: Span,
    },
    /// Unary minus of an `int` [JLS 15.15.4].
    IntNegate {
        at: Span,
        operand: Boxed<Expr>,
    },
    /// An operator of two `int`s [JLS 15.17 to 15.19, 15.22.1].
    IntBinary {
        at: Span,
        op: Op,
        left: Boxed<Expr>,
        right: Boxed<Expr>,
    },
    /// An instance field of an object, by its slot [JLS 15.11.1].
    Field {
        at: Span,
        object: Boxed<Expr>,
        slot: u32,
    },
    /// An assignment to an instance field [JLS 15.26.1]; its value is the one assigned.
    SetField {
        at: Span,
        object: Boxed<Expr>,
        slot: u32,
        value: Boxed<Expr>,
    },
    /// A new object: memory first, then the arguments, then the constructor [JLS 15.9.4].
    New {
        at: Span,
        class: u32,
        constructor: u32,
        args: Items<Expr>,
    },
    /// A call of an instance method, whose body the object's own class decides [JLS 15.12.4.4].
    Virtual {
        at: Span,
        object: Boxed<Expr>,
        class: u32,
        method: u32,
        args: Items<Expr>,
    },
}

/// A statement of the core tree.
#[derive(Drop)]
pub enum Stmt {
    /// A block [JLS 14.2].
    Block { at: Span, body: Items<Stmt> },
    /// An expression statement [JLS 14.8].
    Expression { at: Span, value: Expr },
    /// `return`, with a value or without [JLS 14.17]. A console line that is an expression with a value is one, too: its
    /// term is over with that value.
    Return { at: Span, value: Option<Expr> },
}

impl Expr {
    /// A copy that equals the original.
    ///
    /// # Errors
    ///
    /// `NoMemory` where there is no room for the copy.
    #[cycle(expr_copies)]
    pub fn copy(&self, alloc: Global) -> Result<Expr, NoMemory>
        ensures { IfOk result (λ copied. copied ≡ self.now) }
    {
        match self {
            Expr::Const { at, value } => Ok(Expr::Const {
                at: *at,
                value: value.copy(alloc)?,
            }),
            Expr::Local { at, slot } => Ok(Expr::Local {
                at: *at,
                slot: *slot,
            }),
            Expr::This { at } => Ok(Expr::This { at: *at }),
            Expr::IntNegate { .. }
            | Expr::IntBinary { .. }
            | Expr::Field { .. }
            | Expr::SetField { .. } => self.copy_operation(alloc),
            Expr::New { .. } | Expr::Virtual { .. } => self.copy_call(alloc),
        }
    }

    /// A copy of an operator of `int`s, of a field or of an assignment to one.
    #[cycle(expr_copies)]
    fn copy_operation(&self, alloc: Global) -> Result<Expr, NoMemory>
        requires { IsOperation (out-Expr self.now) }
        ensures { IfOk result (λ copied. copied ≡ self.now) }
    {
        match self {
            Expr::IntNegate { at, operand } => Ok(Expr::IntNegate {
                at: *at,
                operand: copy_boxed(alloc, operand)?,
            }),
            Expr::IntBinary {
                at,
                op,
                left,
                right,
            } => Ok(Expr::IntBinary {
                at: *at,
                op: *op,
                left: copy_boxed(alloc, left)?,
                right: copy_boxed(alloc, right)?,
            }),
            Expr::Field { at, object, slot } => Ok(Expr::Field {
                at: *at,
                object: copy_boxed(alloc, object)?,
                slot: *slot,
            }),
            Expr::SetField {
                at,
                object,
                slot,
                value,
            } => Ok(Expr::SetField {
                at: *at,
                object: copy_boxed(alloc, object)?,
                slot: *slot,
                value: copy_boxed(alloc, value)?,
            }),
            _ => unreachable!(),
        }
    }

    /// A copy of a new object or of a call.
    #[cycle(expr_copies)]
    fn copy_call(&self, alloc: Global) -> Result<Expr, NoMemory>
        requires { IsCall (out-Expr self.now) }
        ensures { IfOk result (λ copied. copied ≡ self.now) }
    {
        match self {
            Expr::New {
                at,
                class,
                constructor,
                args,
            } => Ok(Expr::New {
                at: *at,
                class: *class,
                constructor: *constructor,
                args: copy_exprs(alloc, args.as_slice())?,
            }),
            Expr::Virtual {
                at,
                object,
                class,
                method,
                args,
            } => Ok(Expr::Virtual {
                at: *at,
                object: copy_boxed(alloc, object)?,
                class: *class,
                method: *method,
                args: copy_exprs(alloc, args.as_slice())?,
            }),
            _ => unreachable!(),
        }
    }
}

/// A copy of a boxed expression.
#[cycle(expr_copies)]
fn copy_boxed(alloc: Global, expr: &Boxed<Expr>) -> Result<Boxed<Expr>, NoMemory>
    ensures { IfOk result (λ copied. copied ≡ expr.now) }
{
    let copied = expr.get().copy(alloc)?;
    Ok(Boxed::new(alloc, copied)?)
}

#[cycle(expr_copies)]
fn copy_exprs(alloc: Global, exprs: &[Expr]) -> Result<Items<Expr>, NoMemory>
    ensures { IfOk result (λ copied. copied ≡ exprs.now) }
{
    let mut copied = Items::new(alloc);
    for expr in exprs {
        copied.push(expr.copy(alloc)?)?;
    }
    Ok(copied)
}

impl Stmt {
    /// A copy that equals the original.
    ///
    /// # Errors
    ///
    /// `NoMemory` where there is no room for the copy.
    #[cycle(stmt_copies)]
    pub fn copy(&self, alloc: Global) -> Result<Stmt, NoMemory>
        ensures { IfOk result (λ copied. copied ≡ self.now) }
    {
        match self {
            Stmt::Block { at, body } => Ok(Stmt::Block {
                at: *at,
                body: copy_stmts(alloc, body.as_slice())?,
            }),
            Stmt::Expression { at, value } => Ok(Stmt::Expression {
                at: *at,
                value: value.copy(alloc)?,
            }),
            Stmt::Return { at, value } => {
                let value = match value {
                    None => None,
                    Some(value) => Some(value.copy(alloc)?),
                };
                Ok(Stmt::Return { at: *at, value })
            }
        }
    }
}

#[cycle(stmt_copies)]
fn copy_stmts(alloc: Global, stmts: &[Stmt]) -> Result<Items<Stmt>, NoMemory>
    ensures { IfOk result (λ copied. copied ≡ stmts.now) }
{
    let mut copied = Items::new(alloc);
    for stmt in stmts {
        copied.push(stmt.copy(alloc)?)?;
    }
    Ok(copied)
}
