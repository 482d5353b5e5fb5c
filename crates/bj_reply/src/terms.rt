ghost use Rattle.std.specs.Prelude.{◌≡◌, ◌∷◌, [], IfOk, Some};
ghost use Rattle.bj_core.specs.declared.tree.Expr.TheVariants as expr;
ghost use Rattle.bj_core.specs.declared.tree.Stmt.TheVariants.{Return};
ghost use Rattle.bj_builtin.specs.Console.{new_cell as spec_new_cell};
ghost use Rattle.bj_bench.specs.Names.{binds};
ghost use Rattle.bj_history.specs.Replies.{start_place, pad_term as spec_pad_term, new_term as spec_new_term, call_term as spec_call_term, cell_in as spec_cell_in, call_name as spec_call_name, local as spec_local};
ghost use Rattle.bj_reply.specs.Asking.{call_on};

use bj_builtin::{CELL, CELL_ADD, CELL_GET, CELL_INIT};
use bj_core::{
    Copies, Expr, Local, Locals, Name, NoMemory, Seq, Span, Stmt, Term, TermKind, Ty, Val,
};
use bj_sum::CellCall;
use sqlite_items::{Boxed, Items};
use std::alloc::Global;

/// Where a line's text begins.
const START: Span = Span { line: 1, column: 1 };

/// The term of a codepad line that is an expression of type `int`.
pub fn pad_term(alloc: Global, expr: Expr) -> Term
    ensures { result ≡ spec_pad_term expr }
{
    Term {
        kind: TermKind::Pad,
        body: Stmt::Return {
            at: START,
            value: Some(expr),
        },
        scope: Seq::new(alloc),
        gives: Ty::Int,
    }
}

/// `new Cell(argument)`.
fn new_cell(alloc: Global, argument: Expr) -> Result<Stmt, NoMemory>
    ensures { IfOk result (λ body. body ≡ spec_new_cell start_place argument) }
{
    let mut args = Items::new(alloc);
    args.push(argument)?;
    Ok(Stmt::Return {
        at: START,
        value: Some(Expr::New {
            at: START,
            class: CELL,
            constructor: CELL_INIT,
            args,
        }),
    })
}

/// The term of a line `new` with a name and the tree of its argument.
///
/// # Errors
///
/// `NoMemory` where there is no room for the term.
pub fn new_term(alloc: Global, name: &[u8], argument: Expr) -> Result<Term, NoMemory>
    ensures { IfOk result (λ term. term ≡ spec_new_term name.now argument) }
{
    let body = new_cell(alloc, argument)?;
    Ok(Term {
        kind: TermKind::New(Name::from_slice(alloc, name)?),
        body,
        scope: Seq::new(alloc),
        gives: Ty::Class(CELL),
    })
}

/// The value, where it is an object of `Cell`.
pub fn cell_in(value: Option<Val>) -> Option<Val>
    ensures { result ≡ spec_cell_in value }
{
    match value {
        Some(
            Val::Ref {
                object,
                of: Ty::Class(class),
            },
        ) if class == CELL => Some(Val::Ref {
            object,
            of: Ty::Class(class),
        }),
        _ => None,
    }
}

/// The name on which a call is.
pub fn call_name(call: &CellCall) -> &[u8]
    ensures { result.now ≡ spec_call_name call.now }
{
    match call {
        CellCall::Add { name, argument: _ } => name.as_slice(),
        CellCall::Get { name } => name.as_slice(),
    }
}

/// The call of a method of `Cell` on the first name around the term.
fn call_first(alloc: Global, method: u32, args: Items<Expr>) -> Result<Stmt, NoMemory>
    ensures { IfOk result (λ body. body ≡ Return start_place (Some (expr.Virtual start_place (expr.Local start_place 0) 5 method args))) }
{
    let object = Boxed::new(alloc, Expr::Local { at: START, slot: 0 })?;
    Ok(Stmt::Return {
        at: START,
        value: Some(Expr::Virtual {
            at: START,
            object,
            class: CELL,
            method,
            args,
        }),
    })
}

/// A scope of one name.
fn one_local(alloc: Global, name: Name, value: Val) -> Result<Locals, NoMemory>
    ensures { IfOk result (λ scope. scope ≡ spec_local name value ∷ []) }
{
    let mut scope = Seq::new(alloc);
    scope.push(Local { name, value })?;
    Ok(scope)
}

/// The term of a call of a method of `Cell` on the object for which the name stands.
fn call_on(
    alloc: Global,
    name: Name,
    object: Val,
    method: u32,
    args: Items<Expr>,
) -> Result<Term, NoMemory>
    ensures { IfOk result (λ term. term ≡ call_on name object method args) }
{
    let body = call_first(alloc, method, args)?;
    Ok(Term {
        kind: TermKind::Call,
        body,
        scope: one_local(alloc, name, object)?,
        gives: Ty::Int,
    })
}

/// The term of a call on this object.
///
/// # Errors
///
/// `NoMemory` where there is no room for the term.
pub fn call_term(alloc: Global, call: CellCall, object: Val) -> Result<Term, NoMemory>
    ensures { IfOk result (λ term. term ≡ spec_call_term call object) }
{
    match call {
        CellCall::Add { name, argument } => {
            let mut args = Items::new(alloc);
            args.push(argument)?;
            call_on(alloc, name, object, CELL_ADD, args)
        }
        CellCall::Get { name } => call_on(alloc, name, object, CELL_GET, Items::new(alloc)),
    }
}

/// A copy of the name that a term of this kind binds.
///
/// # Errors
///
/// `NoMemory` where there is no room for it.
pub fn name_bound(alloc: Global, kind: &TermKind) -> Result<Option<Name>, NoMemory>
    ensures { IfOk result (λ name. name ≡ binds kind.now) }
{
    match kind {
        TermKind::New(name) => Ok(Some(name.copy(alloc)?)),
        TermKind::Call => Ok(None),
        TermKind::CallAs(_) => Ok(None),
        TermKind::Pad => Ok(None),
        TermKind::Fixture(_) => Ok(None),
        TermKind::Run(_) => Ok(None),
        TermKind::Test(_) => Ok(None),
    }
}
