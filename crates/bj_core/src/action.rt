ghost use Rattle.std.specs.Prelude.{◌≡◌, IfOk};

use crate::{Key, Point, Ty, Val, Vals};
use bj_base::{Copies, JText, NoMemory, Sizes};
use std::alloc::Global;

/// A part of a text that is made.
#[derive(Drop)]
pub enum Piece {
    /// A text of the heap.
    Text(Val),
    /// Units: the text of a primitive value or of null.
    Units(JText),
}

/// How a term is over.
#[derive(Clone, Copy, Debug, PartialEq, Eq)]
pub enum Done {
    /// Without a value.
    Nothing,
    /// With a value.
    Value(Val),
    /// With a throwable.
    Threw(Val),
}

/// What a thread asks of the store. Each action is one atomic step.
pub enum Action {
    /// A step point is reached.
    Point(Point),
    /// Reads an instance field [JLS 15.11.1].
    Get { object: Val, slot: u32 },
    /// Writes an instance field [JLS 15.26.1].
    Put { object: Val, slot: u32, value: Val },
    /// Reads a static field.
    GetStatic { class: u32, slot: u32 },
    /// Writes a static field.
    PutStatic { class: u32, slot: u32, value: Val },
    /// Reads an element [JLS 15.10.4].
    GetElem { object: Val, index: i32 },
    /// Writes an element [JLS 15.26.1].
    PutElem { object: Val, index: i32, value: Val },
    /// Reads an array's length [JLS 10.7].
    Length { object: Val },
    /// Makes an object with default values [JLS 15.9.4].
    Make { class: u32 },
    /// Makes an array with all its parts [JLS 15.10.2].
    MakeArray { of: Ty, sizes: Sizes },
    /// Joins two texts [JLS 15.18.1].
    Concat { a: Piece, b: Piece },
    /// The one text that has these units [JLS 3.10.5].
    Intern { units: JText },
    /// Does the native on texts that has this number.
    TextOp { op: u32, values: Vals },
    /// Enters a monitor [JLS 17.1].
    Enter { key: Key },
    /// Leaves a monitor.
    Exit { key: Key },
    /// Enters a wait set [JLS 17.2.1].
    WaitBegin { object: Val, ms: i64 },
    /// Leaves a wait.
    WaitEnd,
    /// Removes the oldest thread from a wait set [JLS 17.2.2].
    Notify { object: Val },
    /// Removes all threads from a wait set.
    NotifyAll { object: Val },
    /// Starts a thread [JLS 17.4.2].
    Start { object: Val },
    /// Waits for a thread's end.
    Join { object: Val },
    /// Interrupts a thread [JLS 17.2.3].
    Interrupt { object: Val },
    /// Tells a thread's interrupt status.
    IsInterrupted { object: Val },
    /// Tells whether a thread lives.
    IsAlive { object: Val },
    /// Tells this thread's interrupt status, and clears it.
    Interrupted,
    /// The object of this thread.
    Current,
    /// A thread's name.
    ThreadName { object: Val },
    /// Begins to sleep [JLS 17.3].
    SleepBegin { ms: i64 },
    /// Ends to sleep.
    SleepEnd,
    /// Gives the turn away.
    Yield,
    /// Asks for a class's initialization [JLS 12.4.2].
    InitBegin { class: u32 },
    /// Ends a class's initialization, which may have failed.
    InitEnd { class: u32, ok: bool },
    /// Prints a text, with a line's end or without.
    Print { text: Piece, line: bool },
    /// Reads a line of the input.
    ReadLine,
    /// Tells whether the input has a line.
    HasLine,
    /// Makes a throwable, which is then thrown.
    Raise { class: u32, message: Option<Piece> },
    /// The term is over.
    End { done: Done },
}

// Written out, so that the drop of an action is one call wherever it is let go.
impl Drop for Action {
    fn drop(self) {
        match self {
            Action::MakeArray { of: _, sizes: _ } => {}
            Action::Concat { a: _, b: _ } => {}
            Action::Intern { units: _ } => {}
            Action::TextOp { op: _, values: _ } => {}
            Action::Print { text: _, line: _ } => {}
            Action::Raise {
                class: _,
                message: _,
            } => {}
            Action::Point(_)
            | Action::Get { object: _, slot: _ }
            | Action::Put {
                object: _,
                slot: _,
                value: _,
            }
            | Action::GetStatic { class: _, slot: _ }
            | Action::PutStatic {
                class: _,
                slot: _,
                value: _,
            }
            | Action::GetElem {
                object: _,
                index: _,
            }
            | Action::PutElem {
                object: _,
                index: _,
                value: _,
            }
            | Action::Length { object: _ }
            | Action::Make { class: _ }
            | Action::Enter { key: _ }
            | Action::Exit { key: _ }
            | Action::WaitBegin { object: _, ms: _ }
            | Action::WaitEnd
            | Action::Notify { object: _ }
            | Action::NotifyAll { object: _ }
            | Action::Start { object: _ }
            | Action::Join { object: _ }
            | Action::Interrupt { object: _ }
            | Action::IsInterrupted { object: _ }
            | Action::IsAlive { object: _ }
            | Action::Interrupted
            | Action::Current
            | Action::ThreadName { object: _ }
            | Action::SleepBegin { ms: _ }
            | Action::SleepEnd
            | Action::Yield
            | Action::InitBegin { class: _ }
            | Action::InitEnd { class: _, ok: _ }
            | Action::ReadLine
            | Action::HasLine
            | Action::End { done: _ } => {}
        }
    }
}

/// What the store answers to an action.
#[derive(Clone, Copy, Debug, PartialEq, Eq)]
pub enum Answer {
    /// It is done.
    Done,
    /// A value.
    Value(Val),
    /// The thread raises a throwable of this class next.
    Thrown(u32),
    /// A wait that was not interrupted.
    Normal,
    /// The class is initialized already, or by this thread.
    Ready,
    /// This thread initializes the class now.
    Go,
}

impl Copies for Piece {
    fn copy(&self, alloc: Global) -> Result<Piece, NoMemory> {
        match self {
            Piece::Text(value) => Ok(Piece::Text(*value)),
            Piece::Units(units) => Ok(Piece::Units(units.copy(alloc)?)),
        }
    }
}
