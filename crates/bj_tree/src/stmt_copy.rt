ghost use Rattle.std.specs.Prelude.{◌≡◌, IfOk};
ghost use Rattle.bj_tree.specs.declared.stmt.StmtTree.{out-StmtTree};
ghost use Rattle.bj_tree.specs.Forms.{IsPlain, IsChoice, IsFor, IsHeaded, IsJump, IsTry};

use crate::{StmtTree, StmtTrees};
use bj_base::{Copies, NoMemory};
use bj_expr_tree::{copy_boxed_expr, copy_exprs, copy_optional_expr};
use sqlite_items::{Boxed, Items};
use std::alloc::Global;

impl StmtTree {
    /// A copy that equals the original.
    ///
    /// # Errors
    ///
    /// `NoMemory` where there is no room for the copy.
    #[cycle(stmt_copies)]
    pub fn copy(&self, alloc: Global) -> Result<StmtTree, NoMemory>
        ensures { IfOk result (λ copied. copied ≡ self.now) }
    {
        match self {
            StmtTree::Block { .. }
            | StmtTree::Empty { .. }
            | StmtTree::Local { .. }
            | StmtTree::Expression { .. }
            | StmtTree::ConstructorCall { .. } => self.copy_plain(alloc),
            StmtTree::If { .. }
            | StmtTree::IfElse { .. }
            | StmtTree::Switch { .. }
            | StmtTree::Case { .. }
            | StmtTree::Default { .. } => self.copy_choice(alloc),
            StmtTree::For { .. } | StmtTree::ForEach { .. } => self.copy_for(alloc),
            StmtTree::While { .. }
            | StmtTree::Do { .. }
            | StmtTree::Labelled { .. }
            | StmtTree::Synchronized { .. }
            | StmtTree::SynchronizedClass { .. } => self.copy_headed(alloc),
            StmtTree::Break { .. }
            | StmtTree::Continue { .. }
            | StmtTree::Return { .. }
            | StmtTree::Throw { .. } => self.copy_jump(alloc),
            StmtTree::Try { .. } | StmtTree::TryFinally { .. } | StmtTree::Catch { .. } =>
                self.copy_try(alloc),
        }
    }

    /// A copy of a block, of `;`, of a declaration, of an expression or of a call of a constructor.
    #[cycle(stmt_copies)]
    fn copy_plain(&self, alloc: Global) -> Result<StmtTree, NoMemory>
        requires { IsPlain (out-StmtTree self.now) }
        ensures { IfOk result (λ copied. copied ≡ self.now) }
    {
        match self {
            StmtTree::Block { at, body, end } => Ok(StmtTree::Block {
                at: *at,
                body: copy_stmts(alloc, body.as_slice())?,
                end: *end,
            }),
            StmtTree::Empty { at } => Ok(StmtTree::Empty { at: *at }),
            StmtTree::Local {
                at,
                is_final,
                of,
                variables,
            } => Ok(StmtTree::Local {
                at: *at,
                is_final: *is_final,
                of: of.copy(alloc)?,
                variables: variables.copy(alloc)?,
            }),
            StmtTree::Expression { at, value } => Ok(StmtTree::Expression {
                at: *at,
                value: copy_boxed_expr(alloc, value)?,
            }),
            StmtTree::ConstructorCall { at, is_super, args } => Ok(StmtTree::ConstructorCall {
                at: *at,
                is_super: *is_super,
                args: copy_exprs(alloc, args.as_slice())?,
            }),
            _ => unreachable!(),
        }
    }

    /// A copy of an `if`, of a `switch` or of a label in one.
    #[cycle(stmt_copies)]
    fn copy_choice(&self, alloc: Global) -> Result<StmtTree, NoMemory>
        requires { IsChoice (out-StmtTree self.now) }
        ensures { IfOk result (λ copied. copied ≡ self.now) }
    {
        match self {
            StmtTree::If { at, test, body } => Ok(StmtTree::If {
                at: *at,
                test: copy_boxed_expr(alloc, test)?,
                body: copy_boxed_stmt(alloc, body)?,
            }),
            StmtTree::IfElse {
                at,
                test,
                body,
                other,
            } => Ok(StmtTree::IfElse {
                at: *at,
                test: copy_boxed_expr(alloc, test)?,
                body: copy_boxed_stmt(alloc, body)?,
                other: copy_boxed_stmt(alloc, other)?,
            }),
            StmtTree::Switch { at, value, members } => Ok(StmtTree::Switch {
                at: *at,
                value: copy_boxed_expr(alloc, value)?,
                members: copy_stmts(alloc, members.as_slice())?,
            }),
            StmtTree::Case { at, value } => Ok(StmtTree::Case {
                at: *at,
                value: copy_boxed_expr(alloc, value)?,
            }),
            StmtTree::Default { at } => Ok(StmtTree::Default { at: *at }),
            _ => unreachable!(),
        }
    }

    /// A copy of a `for`.
    #[cycle(stmt_copies)]
    fn copy_for(&self, alloc: Global) -> Result<StmtTree, NoMemory>
        requires { IsFor (out-StmtTree self.now) }
        ensures { IfOk result (λ copied. copied ≡ self.now) }
    {
        match self {
            StmtTree::For {
                at,
                init,
                test,
                update,
                body,
            } => Ok(StmtTree::For {
                at: *at,
                init: copy_stmts(alloc, init.as_slice())?,
                test: copy_optional_expr(alloc, test)?,
                update: copy_exprs(alloc, update.as_slice())?,
                body: copy_boxed_stmt(alloc, body)?,
            }),
            StmtTree::ForEach {
                at,
                is_final,
                of,
                name,
                over,
                body,
            } => Ok(StmtTree::ForEach {
                at: *at,
                is_final: *is_final,
                of: of.copy(alloc)?,
                name: name.copy(alloc)?,
                over: copy_boxed_expr(alloc, over)?,
                body: copy_boxed_stmt(alloc, body)?,
            }),
            _ => unreachable!(),
        }
    }

    /// A copy of a `while`, of a `do`, of a labelled statement or of a `synchronized`.
    #[cycle(stmt_copies)]
    fn copy_headed(&self, alloc: Global) -> Result<StmtTree, NoMemory>
        requires { IsHeaded (out-StmtTree self.now) }
        ensures { IfOk result (λ copied. copied ≡ self.now) }
    {
        match self {
            StmtTree::While { at, test, body } => Ok(StmtTree::While {
                at: *at,
                test: copy_boxed_expr(alloc, test)?,
                body: copy_boxed_stmt(alloc, body)?,
            }),
            StmtTree::Do { at, body, test } => Ok(StmtTree::Do {
                at: *at,
                body: copy_boxed_stmt(alloc, body)?,
                test: copy_boxed_expr(alloc, test)?,
            }),
            StmtTree::Labelled { at, label, body } => Ok(StmtTree::Labelled {
                at: *at,
                label: label.copy(alloc)?,
                body: copy_boxed_stmt(alloc, body)?,
            }),
            StmtTree::Synchronized { at, lock, body } => Ok(StmtTree::Synchronized {
                at: *at,
                lock: copy_boxed_expr(alloc, lock)?,
                body: copy_boxed_stmt(alloc, body)?,
            }),
            StmtTree::SynchronizedClass { at, class, body } => Ok(StmtTree::SynchronizedClass {
                at: *at,
                class: class.copy(alloc)?,
                body: copy_boxed_stmt(alloc, body)?,
            }),
            _ => unreachable!(),
        }
    }

    /// A copy of a `break`, a `continue`, a `return` or a `throw`.
    fn copy_jump(&self, alloc: Global) -> Result<StmtTree, NoMemory>
        requires { IsJump (out-StmtTree self.now) }
        ensures { IfOk result (λ copied. copied ≡ self.now) }
    {
        match self {
            StmtTree::Break { at, label } => Ok(StmtTree::Break {
                at: *at,
                label: label.copy(alloc)?,
            }),
            StmtTree::Continue { at, label } => Ok(StmtTree::Continue {
                at: *at,
                label: label.copy(alloc)?,
            }),
            StmtTree::Return { at, value } => Ok(StmtTree::Return {
                at: *at,
                value: copy_optional_expr(alloc, value)?,
            }),
            StmtTree::Throw { at, value } => Ok(StmtTree::Throw {
                at: *at,
                value: copy_boxed_expr(alloc, value)?,
            }),
            _ => unreachable!(),
        }
    }

    /// A copy of a `try` or of a catch of one.
    #[cycle(stmt_copies)]
    fn copy_try(&self, alloc: Global) -> Result<StmtTree, NoMemory>
        requires { IsTry (out-StmtTree self.now) }
        ensures { IfOk result (λ copied. copied ≡ self.now) }
    {
        match self {
            StmtTree::Try { at, body, catches } => Ok(StmtTree::Try {
                at: *at,
                body: copy_boxed_stmt(alloc, body)?,
                catches: copy_stmts(alloc, catches.as_slice())?,
            }),
            StmtTree::TryFinally {
                at,
                body,
                catches,
                finally,
            } => Ok(StmtTree::TryFinally {
                at: *at,
                body: copy_boxed_stmt(alloc, body)?,
                catches: copy_stmts(alloc, catches.as_slice())?,
                finally: copy_boxed_stmt(alloc, finally)?,
            }),
            StmtTree::Catch {
                at,
                is_final,
                types,
                name,
                body,
            } => Ok(StmtTree::Catch {
                at: *at,
                is_final: *is_final,
                types: types.copy(alloc)?,
                name: name.copy(alloc)?,
                body: copy_boxed_stmt(alloc, body)?,
            }),
            _ => unreachable!(),
        }
    }
}

/// A copy of a boxed statement.
///
/// # Errors
///
/// `NoMemory` where there is no room for the copy.
#[cycle(stmt_copies)]
pub(crate) fn copy_boxed_stmt(
    alloc: Global,
    stmt: &Boxed<StmtTree>,
) -> Result<Boxed<StmtTree>, NoMemory>
    ensures { IfOk result (λ copied. copied ≡ stmt.now) }
{
    let copied = stmt.get().copy(alloc)?;
    Ok(Boxed::new(alloc, copied)?)
}

/// Copies of statements.
///
/// # Errors
///
/// `NoMemory` where there is no room for the copies.
#[cycle(stmt_copies)]
pub(crate) fn copy_stmts(alloc: Global, stmts: &[StmtTree]) -> Result<StmtTrees, NoMemory>
    ensures { IfOk result (λ copied. copied ≡ stmts.now) }
{
    let mut copied = Items::new(alloc);
    for stmt in stmts {
        copied.push(stmt.copy(alloc)?)?;
    }
    Ok(copied)
}
