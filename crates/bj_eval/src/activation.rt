ghost use Rattle.std.specs.Prelude.{◌≡◌, map, IfOk};
ghost use Rattle.bj_eval.specs.Frames.{activation, assigned, frame_of, given, parameters, start_of};

use crate::Invocation;
use bj_core::{Copies, Frame, Local, Locals, Name, NoMemory, Seq, Term, Val};
use std::alloc::Global;

/// A local variable or parameter of a body that runs [JLS 4.12.3].
#[derive(Drop)]
pub struct Variable {
    /// Its name.
    pub name: Name,
    /// Its value, if it is assigned.
    pub value: Option<Val>,
}

/// The variables of a body, by slot.
pub type Variables = Seq<Variable>;

/// The activation of a body: what changes while it runs [JLS 15.12.4.5].
#[derive(Drop)]
pub struct Activation {
    /// The line of the last step point.
    pub line: u32,
    /// The variables, by slot.
    pub variables: Variables,
}

impl Activation {
    /// Where a term begins: its variables are the names around it.
    ///
    /// # Errors
    ///
    /// `NoMemory` where there is no room for the variables.
    pub fn of_term(alloc: Global, term: &Term) -> Result<Activation, NoMemory>
        ensures { IfOk result (λ a. a ≡ start_of term.now) }
    {
        Ok(Activation {
            line: 1,
            variables: variables_of(alloc, term.scope.as_slice())?,
        })
    }

    /// Where a body of a class begins, at the line, whose parameters have these values [JLS 15.12.4.5].
    ///
    /// # Errors
    ///
    /// `NoMemory` where there is no room for the variables.
    pub fn of_body(
        alloc: Global,
        line: u32,
        params: &[Name],
        values: &[Val],
    ) -> Result<Activation, NoMemory>
        ensures { IfOk result (λ a. a ≡ activation line params.now values.now) }
    {
        Ok(Activation {
            line,
            variables: parameters_of(alloc, params, values)?,
        })
    }

    /// The frame that a debugger shows of it.
    ///
    /// # Errors
    ///
    /// `NoMemory` where there is no room for the frame.
    pub fn shown(&self, alloc: Global, invocation: Invocation) -> Result<Frame, NoMemory>
        ensures { IfOk result (λ f. f ≡ frame_of invocation self.now) }
    {
        Ok(Frame {
            class: invocation.class,
            method: invocation.method,
            line: self.line,
            this: invocation.this,
            locals: assigned_of(alloc, self.variables.as_slice())?,
        })
    }
}

/// The parameters of a body, each with its value, if there is one for it.
fn parameters_of(alloc: Global, params: &[Name], values: &[Val]) -> Result<Variables, NoMemory>
    ensures { IfOk result (λ vs. vs ≡ parameters params.now values.now) }
{
    let mut variables = Seq::new(alloc);
    for (slot, name) in params.iter().enumerate() {
        variables.push(Variable {
            name: name.copy(alloc)?,
            value: values.get(slot).copied(),
        })?;
    }
    Ok(variables)
}

/// The variables that names with values are.
fn variables_of(alloc: Global, scope: &[Local]) -> Result<Variables, NoMemory>
    ensures { IfOk result (λ vs. vs ≡ map given scope.now) }
{
    let mut variables = Seq::new(alloc);
    for local in scope {
        variables.push(Variable {
            name: local.name.copy(alloc)?,
            value: Some(local.value),
        })?;
    }
    Ok(variables)
}

/// The variables that are assigned.
fn assigned_of(alloc: Global, variables: &[Variable]) -> Result<Locals, NoMemory>
    ensures { IfOk result (λ ls. ls ≡ assigned variables.now) }
{
    let mut locals = Seq::new(alloc);
    for variable in variables {
        match variable.value {
            None => {}
            Some(value) => locals.push(Local {
                name: variable.name.copy(alloc)?,
                value,
            })?,
        }
    }
    Ok(locals)
}
