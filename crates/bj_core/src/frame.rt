ghost use Rattle.std.specs.Prelude.{◌≡◌, IfOk};

use crate::{Stmt, Ty, Val};
use bj_base::{Copies, Name, NoMemory, Seq};
use std::alloc::Global;

/// A local variable that is assigned.
#[derive(Drop)]
pub struct Local {
    /// Its name.
    pub name: Name,
    /// Its value.
    pub value: Val,
}

/// Local variables, in order of declaration.
pub type Locals = Seq<Local>;

/// A frame of a thread, as a debugger shows it.
#[derive(Drop)]
pub struct Frame {
    /// The class whose method runs; `NO_CLASS` for a term.
    pub class: u32,
    /// The method that runs; `NO_CLASS` for a term.
    pub method: u32,
    /// The line of the last step point.
    pub line: u32,
    /// `this`, or null where there is none.
    pub this: Val,
    /// The locals that are assigned.
    pub locals: Locals,
}

/// Frames.
pub type Frames = Seq<Frame>;

/// A step point: a class and a line, and how many frames the thread has there.
#[derive(Clone, Copy, Debug, PartialEq, Eq)]
pub struct Point {
    /// The class whose code stands at the line; `NO_CLASS` for a term.
    pub class: u32,
    /// The line, from 1.
    pub line: u32,
    /// The number of frames, with the term's own.
    pub depth: u32,
}

/// Why a term runs.
#[derive(Drop)]
pub enum TermKind {
    /// A bench line `new`, with the name that it binds.
    New(Name),
    /// A bench line `call`.
    Call,
    /// A bench line `call`, with the name that it binds.
    CallAs(Name),
    /// A codepad line.
    Pad,
    /// The fixture of the class.
    Fixture(u32),
    /// The `run` of the Thread object.
    Run(u32),
    /// A test of the class.
    Test(u32),
}

/// What a thread runs.
pub struct Term {
    /// Why it runs.
    pub kind: TermKind,
    /// What it runs.
    pub body: Stmt,
    /// The names around it that are locals in its frame, with their values.
    pub scope: Locals,
    /// The type of its value, or `Void`.
    pub gives: Ty,
}

// Written out, so that the drop of a term is one call wherever it is let go.
impl Drop for Term {
    fn drop(self) {
        let Term {
            kind: _,
            body: _,
            scope: _,
            gives: _,
        } = self;
    }
}

impl Copies for Local {
    fn copy(&self, alloc: Global) -> Result<Local, NoMemory> {
        Ok(Local {
            name: self.name.copy(alloc)?,
            value: self.value,
        })
    }
}

impl Copies for Frame {
    fn copy(&self, alloc: Global) -> Result<Frame, NoMemory> {
        Ok(Frame {
            class: self.class,
            method: self.method,
            line: self.line,
            this: self.this,
            locals: self.locals.copy(alloc)?,
        })
    }
}

impl Copies for TermKind {
    fn copy(&self, alloc: Global) -> Result<TermKind, NoMemory> {
        match self {
            TermKind::New(name) => Ok(TermKind::New(name.copy(alloc)?)),
            TermKind::Call => Ok(TermKind::Call),
            TermKind::CallAs(name) => Ok(TermKind::CallAs(name.copy(alloc)?)),
            TermKind::Pad => Ok(TermKind::Pad),
            TermKind::Fixture(class) => Ok(TermKind::Fixture(*class)),
            TermKind::Run(object) => Ok(TermKind::Run(*object)),
            TermKind::Test(class) => Ok(TermKind::Test(*class)),
        }
    }
}

impl Copies for Term {
    fn copy(&self, alloc: Global) -> Result<Term, NoMemory> {
        Ok(Term {
            kind: self.kind.copy(alloc)?,
            scope: self.scope.copy(alloc)?,
            gives: self.gives,
            body: self.body.copy(alloc)?,
        })
    }
}
