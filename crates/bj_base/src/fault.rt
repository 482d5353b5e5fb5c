ghost use Rattle.std.specs.Prelude.{◌≡◌, IfOk};

use crate::{Copies, Name, NoMemory, Span};
use std::alloc::{AllocError, Global};

/// What is wrong with a text of Java. A code is printed in lower case.
#[derive(Clone, Copy, Debug, PartialEq, Eq)]
pub enum FaultCode {
    /// A character, or a byte, that begins no token.
    Char,
    /// A comment, character or text that is not ended.
    Open,
    /// A number past its type's range.
    Wide,
    /// A token that the grammar does not take.
    Syntax,
    /// Java that the profile leaves out.
    Profile,
    /// A node with more than 200 nodes above it.
    Deep,
    /// A body of more than 20,000 nodes.
    Large,
    /// A class that is not named as its file.
    File,
    /// A name that is declared twice.
    Twice,
    /// Classes, or constructors, that lead back to themselves.
    Cycle,
    /// A type name that names nothing.
    Missing,
    /// A method that may not override another so.
    Override,
    /// A name, or a method, that is not there.
    Name,
    /// An operand, argument or class of a type that does not fit.
    Types,
    /// A call or a name with no one meaning.
    Ambiguous,
    /// A private member of another class.
    Access,
    /// An instance member in a static context.
    Static,
    /// A final variable that is assigned.
    Final,
    /// An abstract class or method that is used, or misses a body.
    Abstract,
    /// A jump that leads nowhere.
    Jump,
    /// A label of a switch that does not fit.
    Case,
    /// A test method that JUnit would not take.
    Junit,
    /// A statement that cannot be reached.
    Unreachable,
    /// A variable that is not assigned on every way.
    Unassigned,
    /// A checked exception that is neither caught nor declared.
    Uncaught,
    /// A body that ends without its result.
    Return,
}

/// The first fault of a text.
#[derive(Drop)]
pub struct Fault {
    /// The class in whose file it stands; empty for a console line.
    pub class: Name,
    /// Where it stands.
    pub at: Span,
    /// What is wrong there.
    pub code: FaultCode,
}

/// Why the reader or the typing gives no answer.
#[derive(Drop)]
pub enum Refusal {
    /// The text has a fault, and this is the first one.
    Fault(Fault),
    /// Want of memory.
    NoMemory,
}

impl From<NoMemory> for Refusal {
    fn from(_fault: NoMemory) -> Refusal {
        Refusal::NoMemory
    }
}

impl From<AllocError> for Refusal {
    fn from(_fault: AllocError) -> Refusal {
        Refusal::NoMemory
    }
}

impl Copies for Fault {
    fn copy(&self, alloc: Global) -> Result<Fault, NoMemory> {
        Ok(Fault {
            class: self.class.copy(alloc)?,
            at: self.at,
            code: self.code,
        })
    }
}
